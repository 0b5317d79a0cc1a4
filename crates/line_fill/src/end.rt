//! Where a line of a leaf ends.

ghost use Rattle.std.specs.Prelude.{◌≡◌, ◌≢◌, ◌<◌, ◌≤◌, ◌+◌, ◌-◌, ◌*◌, ◌^◌, pos, ◌≤ℤ◌, ◌<ℤ◌, ◌+ℤ◌, length, slice_index, slice_index_or, max, Some, MatchOption, MatchBool, ◌⊎◌, ◌||◌, if◌then◌else◌};
ghost use Rattle.boxes.specs.Contents.{AreSpans, IsGoodLeaf};
ghost use Rattle.boxes.specs.declared.leaf.Span.{Span};
ghost use Rattle.line_fill.specs.Conditions.{CanFill};
ghost use Rattle.line_fill.specs.LineEnd.{IsLineEnd, IsOrdinary, IsEmergency};
ghost use Rattle.line_fill.specs.Widths.{is_hyphened};
ghost use Rattle.line_fill.specs.Fill.{FitsIn, IsFilled, IsSpanOf};
ghost use Rattle.metrics.specs.Widths.{hyphen_width};

use crate::found::Found;
use crate::line_width::{LineWidth, pass_stretch};
use crate::places::{after, count_up_to, emergencies, is_place, mark};
use bk_num::chars::ends_soft_hyphen;
use boxes::leaf::{Leaf, Span};
use metrics::{Faces, Pen};

/// Where a line begins, and the units that it has.
#[derive(Clone, Copy)]
pub(crate) struct LineRoom {
    pub from: usize,
    pub units: i64,
}

/// Whether a line that holds the byte before a place ends there in any case.
fn is_stop(bytes: &[u8], to: usize) -> bool
    requires some { 0 < to }
    requires within { to ≤ length bytes.now }
    ensures { MatchBool result ((slice_index bytes.now (to - 1) ≡ 10) ⊎ (to ≡ length bytes.now))
        ((slice_index bytes.now (to - 1) ≢ 10) ×
        (to < length bytes.now)) }
{
    bytes[to - 1] == b'\n' || to == bytes.len()
}

fn is_any(stops: bool, ordinary: bool, emergency: bool) -> bool
    ensures { result ≡ (stops || ordinary || emergency) }
{
    stops || ordinary || emergency
}

/// Whether a line that ends at a place shows a hyphen.
#[tactic(auto, unfolding(crate::specs::Widths::is_hyphened))]
pub(crate) fn is_hyphened(bytes: &[u8], to: usize) -> bool
    ensures { result ≡ is_hyphened bytes.now to }
{
    to < bytes.len() && ends_soft_hyphen(bytes, to)
}

/// The width of the hyphen that is shown at a place, 0 where none is.
fn hyphen_at(pen: &Pen<'_>, bytes: &[u8], to: usize) -> u32
    ensures value { result ≡ (if is_hyphened bytes.now to then hyphen_width pen.now else 0) }
    ensures most { result ≤ 2 ^ 27 }
{
    if is_hyphened(bytes, to) {
        pen.hyphen_width()
    } else {
        0
    }
}

/// Whether a line of a width and a hyphen is no wider than its room.
fn fits(shown: LineWidth, hyphen: u32, room: LineRoom) -> bool
    requires low { pos 0 ≤ℤ shown.shown }
    requires high { shown.shown ≤ℤ pos (2 ^ 60) }
    ensures { MatchBool result ((shown.shown +ℤ pos hyphen) ≤ℤ room.units) (room.units <ℤ (shown.shown +ℤ pos hyphen)) }
{
    shown.shown + i64::from(hyphen) <= room.units
}

/// Passes a span, and answers where the line ends if it ends in it.
fn pass_span(
    faces: &Faces,
    leaf: &Leaf,
    span: &Span,
    room: LineRoom,
    line_width: &mut LineWidth,
    found: &mut Found,
) -> Option<usize>
    requires good { IsGoodLeaf leaf.now }
    requires few { length leaf.now.text < 2 ^ 32 }
    requires span { IsSpanOf faces.now leaf.now span.now }
    requires order { max room.from span.now.from ≤ span.now.to }
    requires filled { IsFilled faces.now leaf.now room.from room.units
        (max room.from span.now.from) line_width.old found.old }
    ensures { MatchOption result (IsFilled faces.now leaf.now room.from room.units span.now.to line_width.new found.new)
        (λ to. IsLineEnd (FitsIn faces.now leaf.now room.from room.units)
        (IsOrdinary leaf.now.text leaf.now.places room.from)
        (IsEmergency leaf.now room.from) to) }
{
    let text = leaf.text.as_str();
    let bytes = text.as_bytes();
    let places = leaf.places.as_slice();
    let graphemes = emergencies(leaf, span);
    let pen = faces.pen(span.face, span.size);
    let end = span.to as usize;
    let begin = room.from.max(span.from as usize);
    let mut at = begin;
    let mut next = count_up_to(places, at);
    let mut next_grapheme = count_up_to(graphemes, at);
    while at < end {
        let stop = mark(graphemes, next_grapheme, mark(places, next, end));
        let stretch = pass_stretch(&pen, text, begin, at, stop, *line_width);
        *line_width = stretch.line_width;
        at = stretch.to;
        let stops = is_stop(bytes, at);
        let ordinary = is_place(places, next, at);
        let emergency = is_place(graphemes, next_grapheme, at);
        if is_any(stops, ordinary, emergency) {
            if line_width.shown > room.units {
                return Some(found.choose(room.from, at));
            }
            if stops {
                return Some(at);
            }
            let fits = fits(*line_width, hyphen_at(&pen, bytes, at), room);
            *found = found.note(fits, ordinary, emergency, room.from, at);
        }
        next = after(next, ordinary);
        next_grapheme = after(next_grapheme, emergency);
    }
    None
}

/// The span that has a place below a text's end.
pub(crate) fn first_span(text: &str, spans: &[Span], from: usize) -> usize
    requires spans { AreSpans text.now 0 spans.now }
    requires from { from < length text.now }
    ensures within { result < length spans.now }
    ensures begins { (d : Span) → (slice_index_or spans.now result d).from ≤ from }
    ensures ends { (d : Span) → from < (slice_index_or spans.now result d).to }
{
    spans.partition_point(|span| span.to as usize <= from)
}

/// Where a line ends.
pub(crate) fn line_end(faces: &Faces, leaf: &Leaf, room: LineRoom) -> usize
    requires can { CanFill faces.now leaf.now }
    requires from { room.from < length leaf.now.text }
    ensures { IsLineEnd (FitsIn faces.now leaf.now room.from room.units)
        (IsOrdinary leaf.now.text leaf.now.places room.from)
        (IsEmergency leaf.now room.from) result }
{
    let text = leaf.text.as_str();
    let spans = leaf.spans.as_slice();
    let mut line_width = LineWidth { total: 0, shown: 0 };
    let mut found = Found {
        best: room.from,
        emergency: room.from,
        least: room.from,
    };
    for k in first_span(text, spans, room.from)..spans.len() {
        let end = pass_span(faces, leaf, &spans[k], room, &mut line_width, &mut found);
        if let Some(to) = end {
            return to;
        }
    }
    text.len()
}

/// How many bytes a leaf's text has: where its last span ends.
pub fn text_len(leaf: &Leaf) -> u32
    requires { IsGoodLeaf leaf.now }
    ensures { result ≡ length leaf.now.text }
{
    match leaf.spans.as_slice().last() {
        Some(span) => span.to,
        None => 0,
    }
}
