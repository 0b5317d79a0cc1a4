//! The runs of a line.

ghost use Rattle.std.specs.Prelude.{◌≡◌, ◌<◌, ◌≤◌, ◌+◌, ◌-◌, ◌*◌, ◌^◌, pos, neg_ℤ, ◌≤ℤ◌, ◌+ℤ◌, ◌-ℤ◌, length, unsigned_abs, slice_index_or, Some, true, ◌∷◌, [], ◌++◌, map, All, OnOk, if◌then◌else◌, IfOk};
ghost use Rattle.std.specs.Int.{int_max};
ghost use Rattle.bk_num.specs.Numbers.{IsWithin};
ghost use Rattle.bk_num.specs.declared.values.Align.TheVariants as align;
ghost use Rattle.boxes.specs.Contents.{IsGoodLeaf};
ghost use Rattle.boxes.specs.declared.leaf.Span.{Span};
ghost use Rattle.metrics.specs.Widths.{sum_from};
ghost use Rattle.line_fill.specs.LineEnd.{indent_of, shown_len};
ghost use Rattle.line_fill.specs.Widths.{hyphen_at, span_at, unit_at};
ghost use Rattle.line_place.specs.Conditions.{HasFaces, IsInLeaf};
ghost use Rattle.line_place.specs.Placing as spec;
ghost use Rattle.line_place.specs.Placing.{IsRunIn, free_end, hyphens_of, number_at, runs_of, setting_of, shift_of, slack_of};
ghost use Rattle.line_place.specs.Runs.{is_free, line_pieces};
ghost use Rattle.line_place.specs.Sums.{AreSums, CanSum, IsBounded, count_free, run_of};

use crate::pieces::{Ends, Piece, pieces_of};
use crate::place::{Run, Setting, left, push_runs};
use crate::shown::shown_end;
use crate::spans::count_ended;
use crate::sums::{Sums, add_piece};
use bk_num::items::Items;
use bk_num::name::NoMem;
use bk_num::values::Align;
use boxes::leaf::Leaf;
use boxes::line::Line;
use line_fill::measure::{indent_at, measure_at};
use metrics::Faces;
use std::alloc::Global;

/// What a width leaves of a measure, at least nothing.
fn left_of(measure: i64, width: u64) -> u64
    requires low { neg_ℤ (pos (2 ^ 41)) ≤ℤ measure }
    requires high { measure ≤ℤ pos (2 ^ 41) }
    requires width { width ≤ 2 ^ 60 }
    ensures value { result ≡ unsigned_abs (int_max (pos 0) (measure -ℤ pos width)) }
    ensures most { result ≤ 2 ^ 41 }
{
    (measure - width as i64).max(0).unsigned_abs()
}

/// Whether a line that ends at an offset shares its slack over its spaces.
#[tactic(auto, unfolding(crate::specs::Placing::has_shares))]
fn has_shares(leaf: &Leaf, to: u32, slack: u64) -> bool
    requires some { 0 < to }
    requires within { to ≤ length leaf.now.text }
    ensures { result ≡ spec.has_shares leaf.now to slack }
{
    let bytes = leaf.text.as_str().as_bytes();
    leaf.align == Align::Justify
        && slack != 0
        && (to as usize) < bytes.len()
        && bytes[to as usize - 1] != b'\n'
}

/// How far a line is moved by its alignment.
fn shift_of(align: Align, slack: u64) -> u64
    ensures value { result ≡ shift_of align slack }
    ensures most { result ≤ slack }
{
    match align {
        Align::Left | Align::Justify => 0,
        Align::Right => slack,
        Align::Center => slack / 2,
    }
}

/// What some pieces have that cover a part of a line.
fn sum_pieces(faces: &Faces, leaf: &Leaf, ends: Ends, pieces: &[Piece]) -> Sums
    requires { CanSum faces.now leaf.now ends.from ends.to pieces.now }
    ensures { AreSums faces.now leaf.now ends.free ends.from ends.to result }
{
    let spans = leaf.spans.as_slice();
    let mut sums = Sums {
        width: 0,
        passed: 0,
    };
    for piece in pieces {
        let span = &spans[piece.span as usize];
        sums = add_piece(faces, leaf, span, ends, *piece, sums);
    }
    sums
}

/// The width of a line without its hanging spaces, and how many spaces stand before these.
fn shown_sums(
    alloc: Global,
    faces: &Faces,
    leaf: &Leaf,
    from: u32,
    shown: u32,
) -> Result<Sums, NoMem>
    requires good { IsGoodLeaf leaf.now }
    requires faced { HasFaces faces.now leaf.now }
    requires order { from ≤ shown }
    requires within { shown ≤ length leaf.now.text }
    ensures { IfOk result (λ s. AreSums faces.now leaf.now shown from shown s) }
{
    let ends = Ends {
        from,
        to: shown,
        free: shown,
    };
    let pieces = pieces_of(alloc, leaf, ends)?;
    Ok(sum_pieces(faces, leaf, ends, &pieces))
}

/// The number of the span that has the soft hyphen at the end of a line.
fn hyphen_span(leaf: &Leaf, to: u32) -> usize
    requires good { IsGoodLeaf leaf.now }
    requires some { 2 ≤ to }
    requires within { to ≤ length leaf.now.text }
    ensures there { result < length leaf.now.spans }
    ensures number { result ≡ number_at leaf.now.spans (to - 2) }
    ensures here { (d : Span) → span_at leaf.now.spans (to - 2) ≡ Some (slice_index_or leaf.now.spans result d) }
{
    count_ended(leaf.text.as_str(), leaf.spans.as_slice(), to - 2)
}

/// The width of the hyphen that a line shows, in the style of its soft hyphen; 0 where it shows none.
#[tactic(auto, unfolding(line_fill::specs::Widths::hyphen_at, line_fill::specs::Widths::is_hyphened))]
fn hyphen_at(faces: &Faces, leaf: &Leaf, line: Line) -> u32
    requires good { IsGoodLeaf leaf.now }
    requires faced { HasFaces faces.now leaf.now }
    requires line { IsInLeaf leaf.now line }
    ensures value { result ≡ hyphen_at faces.now leaf.now line.to }
    ensures most { result ≤ 2 ^ 27 }
{
    if !line.hyphen() {
        return 0;
    }
    let number = hyphen_span(leaf, line.to());
    let span = &leaf.spans.as_slice()[number];
    faces.pen(span.face, span.size).hyphen_width()
}

/// What a line leaves of its measure, where its part without hanging spaces has a width.
#[tactic(auto, unfolding(crate::specs::Placing::slack_of))]
fn slack_at(faces: &Faces, leaf: &Leaf, line: Line, measure: i64, width: u64) -> u64
    requires good { IsGoodLeaf leaf.now }
    requires faced { HasFaces faces.now leaf.now }
    requires line { IsInLeaf leaf.now line }
    requires measure { unsigned_abs measure ≤ 2 ^ 40 }
    requires width { width ≡ sum_from (unit_at faces.now leaf.now line.from) line.from
        (shown_len leaf.now.text line.from (line.to - line.from)) }
    requires wide { width ≤ 2 ^ 59 }
    ensures value { result ≡ slack_of faces.now leaf.now line measure }
    ensures most { result ≤ 2 ^ 41 }
{
    let hyphen = u64::from(hyphen_at(faces, leaf, line));
    left_of(measure_at(leaf, line.from(), measure), width + hyphen)
}

/// Where the spaces of a line end that take shares of its slack.
#[tactic(auto, unfolding(crate::specs::Placing::free_end))]
fn free_at(leaf: &Leaf, line: Line, shown: u32, slack: u64) -> u32
    requires line { IsInLeaf leaf.now line }
    requires shown { shown ≡ line.from + shown_len leaf.now.text line.from (line.to - line.from) }
    ensures { result ≡ free_end leaf.now line slack }
{
    if has_shares(leaf, line.to(), slack) {
        shown
    } else {
        line.from()
    }
}

/// Where the first character of a line begins.
fn start_at(leaf: &Leaf, from: u32, measure: i64, slack: u64) -> i64
    requires measure { unsigned_abs measure ≤ 2 ^ 40 }
    requires slack { slack ≤ 2 ^ 41 }
    ensures value { result ≡ (indent_of leaf.now from measure +ℤ pos (shift_of leaf.now.align slack)) }
    ensures low { neg_ℤ (pos (2 ^ 44)) ≤ℤ result }
    ensures high { result ≤ℤ pos (2 ^ 44) }
{
    indent_at(leaf, from, measure) + shift_of(leaf.align, slack) as i64
}

/// How many spaces of a line share its slack, of those before the hanging ones.
#[tactic(auto, unfolding(crate::specs::Placing::free_end))]
fn count_at(leaf: &Leaf, line: Line, ends: Ends, slack: u64, passed: u64) -> u64
    requires line { IsInLeaf leaf.now line }
    requires free { ends.free ≡ free_end leaf.now line slack }
    requires shown { ends.to ≡ line.from + shown_len leaf.now.text line.from (line.to - line.from) }
    requires passed { passed ≡ count_free leaf.now.text ends.to line.from (ends.to - line.from) }
    ensures { result ≡ count_free leaf.now.text ends.free line.from (ends.free - line.from) }
{
    if has_shares(leaf, line.to(), slack) {
        passed
    } else {
        0
    }
}

/// How a line is set, where its slack and the end of the spaces that share it are known.
#[tactic(auto, unfolding(crate::specs::Placing::setting_of))]
fn setting_at(leaf: &Leaf, line: Line, measure: i64, ends: Ends, slack: u64, passed: u64) -> Setting
    requires line { IsInLeaf leaf.now line }
    requires measure { unsigned_abs measure ≤ 2 ^ 40 }
    requires slack { slack ≤ 2 ^ 41 }
    requires free { ends.free ≡ free_end leaf.now line slack }
    requires shown { ends.to ≡ line.from + shown_len leaf.now.text line.from (line.to - line.from) }
    requires passed { passed ≡ count_free leaf.now.text ends.to line.from (ends.to - line.from) }
    ensures value { result ≡ setting_of leaf.now line measure slack }
    ensures count { result.count ≡ count_free leaf.now.text ends.free line.from (ends.free - line.from) }
    ensures bounded { IsBounded result }
{
    let start = start_at(leaf, line.from(), measure, slack);
    let count = count_at(leaf, line, ends, slack, passed);
    Setting {
        start,
        slack,
        count,
    }
}

/// The run of the hyphen that a line shows.
#[tactic(auto, unfolding(line_fill::specs::Widths::is_hyphened))]
fn push_hyphen(runs: &mut Items<Run>, leaf: &Leaf, line: Line, x: i64) -> Result<(), NoMem>
    requires good { IsGoodLeaf leaf.now }
    requires line { IsInLeaf leaf.now line }
    requires near { IsWithin (2 ^ 61) x }
    requires inside { All (IsRunIn leaf.now) runs.old }
    ensures value { OnOk result (runs.new ≡ runs.old ++ (if line.hyphen then
        record { x = x; from = line.to; to = line.to; span = number_at leaf.now.spans (line.to - 2); hyphen = true }
        ∷ [] else [])) }
    ensures inside { OnOk result (All (IsRunIn leaf.now) runs.new) }
{
    if line.hyphen() {
        let span = hyphen_span(leaf, line.to()) as u32;
        runs.push(Run {
            x,
            from: line.to(),
            to: line.to(),
            span,
            hyphen: true,
        })?;
    }
    Ok(())
}

/// The runs of a line that is set, where the end of the spaces that share its slack is known.
fn set_runs(
    alloc: Global,
    faces: &Faces,
    leaf: &Leaf,
    line: Line,
    free: u32,
    setting: Setting,
) -> Result<Items<Run>, NoMem>
    requires good { IsGoodLeaf leaf.now }
    requires faced { HasFaces faces.now leaf.now }
    requires line { IsInLeaf leaf.now line }
    requires count { setting.count ≡ count_free leaf.now.text free line.from (free - line.from) }
    requires setting { IsBounded setting }
    ensures value { IfOk result (λ v. v ≡ map (run_of faces.now leaf.now free line.from setting)
        (line_pieces (is_free leaf.now.text free) line.from line.to 0 leaf.now.spans)
        ++ hyphens_of faces.now leaf.now line free setting) }
    ensures inside { IfOk result (λ v. All (IsRunIn leaf.now) v) }
{
    let ends = Ends {
        from: line.from(),
        to: line.to(),
        free,
    };
    let pieces = pieces_of(alloc, leaf, ends)?;
    let mut runs = Items::new(alloc);
    let sums = push_runs(&mut runs, faces, leaf, ends, &pieces, setting)?;
    push_hyphen(&mut runs, leaf, line, left(setting, sums))?;
    Ok(runs)
}

/// The runs of a line that is aligned left: its slack moves nothing and isn't shared, so the line isn't measured.
fn left_runs(
    alloc: Global,
    faces: &Faces,
    leaf: &Leaf,
    line: Line,
    measure: i64,
) -> Result<Items<Run>, NoMem>
    requires good { IsGoodLeaf leaf.now }
    requires faced { HasFaces faces.now leaf.now }
    requires line { IsInLeaf leaf.now line }
    requires measure { unsigned_abs measure ≤ 2 ^ 40 }
    requires left { leaf.now.align ≡ align.Left }
    ensures value { IfOk result (λ v. v ≡ runs_of faces.now leaf.now line measure) }
    ensures inside { IfOk result (λ v. All (IsRunIn leaf.now) v) }
{
    let setting = Setting {
        start: start_at(leaf, line.from(), measure, 0),
        slack: 0,
        count: 0,
    };
    set_runs(alloc, faces, leaf, line, line.from(), setting)
}

/// The runs of a line, by its slack.
fn measured_runs(
    alloc: Global,
    faces: &Faces,
    leaf: &Leaf,
    line: Line,
    measure: i64,
) -> Result<Items<Run>, NoMem>
    requires good { IsGoodLeaf leaf.now }
    requires faced { HasFaces faces.now leaf.now }
    requires line { IsInLeaf leaf.now line }
    requires measure { unsigned_abs measure ≤ 2 ^ 40 }
    ensures value { IfOk result (λ v. v ≡ runs_of faces.now leaf.now line measure) }
    ensures inside { IfOk result (λ v. All (IsRunIn leaf.now) v) }
{
    let (from, to) = (line.from(), line.to());
    let shown = shown_end(leaf.text.as_str().as_bytes(), from, to);
    let sums = shown_sums(alloc, faces, leaf, from, shown)?;
    let slack = slack_at(faces, leaf, line, measure, sums.width);
    let free = free_at(leaf, line, shown, slack);
    let ends = Ends {
        from,
        to: shown,
        free,
    };
    let setting = setting_at(leaf, line, measure, ends, slack, sums.passed);
    set_runs(alloc, faces, leaf, line, free, setting)
}

/// The runs of a line of a leaf at a measure in units, in order, with their places from the left of the measure.
///
/// A run is the part of one span in the line. The line begins at the indent, if it is the leaf's first, and is moved by
/// its slack where it is aligned right, by half of it where it is centred (CSS 2.1, 16.1 and 16.2). A justified line
/// with slack that ends neither with a newline nor at the leaf's end is cut after each space that doesn't hang, and
/// shares the slack over these, the odd units to the first ones. A shown hyphen is the last run, without text. Each run
/// stands in a span of the leaf, within 2^61 units of the left of the measure, and begins and ends at characters.
pub fn runs(
    alloc: Global,
    faces: &Faces,
    leaf: &Leaf,
    line: Line,
    measure: i64,
) -> Result<Items<Run>, NoMem>
    requires good { IsGoodLeaf leaf.now }
    requires faced { HasFaces faces.now leaf.now }
    requires line { IsInLeaf leaf.now line }
    requires measure { unsigned_abs measure ≤ 2 ^ 40 }
    ensures value { IfOk result (λ v. v ≡ runs_of faces.now leaf.now line measure) }
    ensures inside { IfOk result (λ v. All (IsRunIn leaf.now) v) }
{
    match leaf.align {
        Align::Left => left_runs(alloc, faces, leaf, line, measure),
        Align::Right | Align::Center | Align::Justify => {
            measured_runs(alloc, faces, leaf, line, measure)
        }
    }
}
