//! The stops of what is left of a paragraph: where its lines can end, and how wide the text is up to there.

ghost use Rattle.std.specs.Prelude.{◌≡◌, ℕ, ◌+◌, ◌-◌, ◌^◌, ◌<◌, ◌≤◌, pos, ◌≤ℤ◌, ◌+ℤ◌, ◌-ℤ◌, length, IfOk, Some};
ghost use Rattle.std.specs.List.{All, Contains};
ghost use Rattle.boxes.specs.Contents.{IsGoodLeaf};
ghost use Rattle.metrics.specs.Widths.{sum_from};
ghost use Rattle.bk_num.specs.Numbers.{IsWithin};
ghost use Rattle.total_fit.specs.Lines.{IsGoodStop};
ghost use Rattle.line_fill.specs.Conditions.{CanFill};
ghost use Rattle.line_fill.specs.LineEnd.{stop_of};
ghost use Rattle.line_fill.specs.Paragraphs.{IsParagraph, IsPassed};
ghost use Rattle.line_fill.specs.Stops.{first_wide, next_of, stop_at, stops_of};
ghost use Rattle.line_fill.specs.Widths.{hyphen_at, span_at, unit_at};

use crate::end::{first_span, is_hyphened};
use crate::line_width::{LineWidth, pass_stretch};
use crate::paragraph::Paragraph;
use crate::wide::first_wide;
use bk_num::name::NoMem;
use boxes::leaf::{Leaf, Span};
use metrics::Faces;
use std::alloc::Global;
use total_fit::plan::Stop;

/// The span in which a place of a leaf stands.
fn span_at<'l>(leaf: &'l Leaf, at: usize) -> &'l Span
    requires good { IsGoodLeaf leaf.now }
    requires at { at < length leaf.now.text }
    ensures here { (k : ℕ) → result.now.from ≤ k → k < result.now.to → span_at leaf.now.spans k ≡ Some result.now }
    ensures begins { result.now.from ≤ at }
    ensures ends { at < result.now.to }
    ensures within { result.now.to ≤ length leaf.now.text }
    ensures listed { Contains leaf.now.spans result.now }
{
    let text = leaf.text.as_str();
    let spans = leaf.spans.as_slice();
    let number = first_span(text, spans, at);
    &spans[number]
}

/// What the byte at a place adds to the width of the text from another place on.
#[tactic(auto, unfolding(crate::specs::Widths::unit_at))]
fn unit_at(faces: &Faces, leaf: &Leaf, from: usize, at: usize) -> u32
    requires good { IsGoodLeaf leaf.now }
    requires faced { All (λ s. s.face.0 < length faces.now) leaf.now.spans }
    requires at { at < length leaf.now.text }
    ensures value { result ≡ unit_at faces.now leaf.now from at }
    ensures most { result ≤ 2 ^ 27 }
{
    let span = span_at(leaf, at);
    let pen = faces.pen(span.face, span.size);
    pen.byte_width(leaf.text.as_str(), from.max(span.from as usize), at)
}

/// The width of the hyphen that is shown at a place, 0 where none is.
#[tactic(auto, unfolding(crate::specs::Widths::hyphen_at, crate::specs::Widths::is_hyphened))]
fn hyphen_at(faces: &Faces, leaf: &Leaf, to: usize) -> u32
    requires good { IsGoodLeaf leaf.now }
    requires faced { All (λ s. s.face.0 < length faces.now) leaf.now.spans }
    ensures value { result ≡ hyphen_at faces.now leaf.now to }
    ensures most { result ≤ 2 ^ 27 }
{
    if !is_hyphened(leaf.text.as_str().as_bytes(), to) {
        return 0;
    }
    let span = span_at(leaf, to - 2);
    faces.pen(span.face, span.size).hyphen_width()
}

/// The widths up to a place, from those up to a place before it.
fn pass_to(
    faces: &Faces,
    leaf: &Leaf,
    from: usize,
    at: usize,
    to: usize,
    line_width: LineWidth,
) -> LineWidth
    requires can { CanFill faces.now leaf.now }
    requires from { from < length leaf.now.text }
    requires order { at ≤ to }
    requires within { to ≤ stop_of leaf.now.text from }
    requires passed { IsPassed faces.now leaf.now from at line_width }
    ensures { IsPassed faces.now leaf.now from to result }
{
    let text = leaf.text.as_str();
    let mut at = at;
    let mut line_width = line_width;
    while at < to {
        let span = span_at(leaf, at);
        let pen = faces.pen(span.face, span.size);
        let begin = from.max(span.from as usize);
        let end = to.min(span.to as usize);
        let stretch = pass_stretch(&pen, text, begin, at, end, line_width);
        at = stretch.to;
        line_width = stretch.line_width;
    }
    line_width
}

/// A width in which a character that was paired has its own advance.
fn with_own(total: i64, paired: u32, own: u32) -> i64
    requires low { pos 0 ≤ℤ total }
    requires high { total ≤ℤ pos (2 ^ 59) }
    requires paired { paired ≤ 2 ^ 27 }
    requires own { own ≤ 2 ^ 27 }
    ensures value { result ≡ (total +ℤ pos paired) -ℤ pos own }
    ensures good { IsWithin (2 ^ 60) result }
{
    total + i64::from(paired) - i64::from(own)
}

/// Where the line begins that begins at a place, measured from an earlier one: up to and with the first character that
/// has a width there, less that character's own advance. `total` is the width up to the place.
fn next_at(faces: &Faces, leaf: &Leaf, from: usize, to: usize, end: usize, total: i64) -> i64
    requires can { CanFill faces.now leaf.now }
    requires order { from ≤ to }
    requires within { end ≤ length leaf.now.text }
    requires total { total ≡ pos (sum_from (unit_at faces.now leaf.now from) from (to - from)) }
    requires small { total ≤ℤ pos (2 ^ 59) }
    ensures value { result ≡ next_of faces.now leaf.now from to (first_wide leaf.now.text to (end - to)) }
    ensures good { IsWithin (2 ^ 60) result }
{
    let Some(at) = first_wide(leaf.text.as_str(), to, end) else {
        return total;
    };
    let paired = unit_at(faces, leaf, from, at);
    let own = unit_at(faces, leaf, at, at);
    with_own(total, paired, own)
}

/// The stop at a place, where the widths up to it are known.
#[tactic(auto, unfolding(crate::specs::Stops::stop_at))]
fn stop_at(
    faces: &Faces,
    leaf: &Leaf,
    from: usize,
    to: usize,
    end: usize,
    line_width: LineWidth,
) -> Stop
    requires can { CanFill faces.now leaf.now }
    requires from { from < length leaf.now.text }
    requires end { end ≡ stop_of leaf.now.text from }
    requires passed { IsPassed faces.now leaf.now from to line_width }
    ensures value { result ≡ stop_at faces.now leaf.now from to }
    ensures good { IsGoodStop result }
{
    let hyphen = i64::from(hyphen_at(faces, leaf, to));
    let next = next_at(faces, leaf, from, to, end, line_width.total);
    Stop {
        seen: line_width.shown,
        hyphen,
        next,
    }
}

/// The stops of what is left of a paragraph, by one pass over its text.
pub(crate) fn stops(
    alloc: Global,
    faces: &Faces,
    leaf: &Leaf,
    paragraph: Paragraph,
) -> Result<Vec<Stop>, NoMem>
    requires can { CanFill faces.now leaf.now }
    requires paragraph { IsParagraph leaf.now paragraph }
    ensures value { IfOk result (λ stops. stops.items ≡ stops_of faces.now leaf.now paragraph.from) }
    ensures good { IfOk result (λ stops. All IsGoodStop stops.items) }
{
    let from = paragraph.from;
    let mut stops = Vec::new(alloc);
    let mut at = from;
    let mut line_width = LineWidth { total: 0, shown: 0 };
    for index in 0..paragraph.count(leaf) {
        let to = paragraph.offset(leaf, index);
        line_width = pass_to(faces, leaf, from, at, to, line_width);
        at = to;
        stops.push(stop_at(faces, leaf, from, to, paragraph.end, line_width))?;
    }
    Ok(stops)
}
