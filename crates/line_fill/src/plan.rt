//! Lines that are chosen for a paragraph as a whole.

ghost use Rattle.std.specs.Prelude.{◌≡◌, ◌+◌, ◌-◌, ◌<◌, ◌≤◌, ◌^◌, [], true, length, slice_index, unsigned_abs, IfNone, IfOk, IfSome};
ghost use Rattle.std.specs.List.{All};
ghost use Rattle.boxes.specs.Contents.{IsGoodLeaf};
ghost use Rattle.total_fit.specs.Lines.{most_stops};
ghost use Rattle.total_fit.specs.Plans.{HasNoPlan, IsBest};
ghost use Rattle.line_fill.specs.Conditions.{CanFill};
ghost use Rattle.line_fill.specs.Filled.{AreFilled};
ghost use Rattle.line_fill.specs.Paragraphs.{IsParagraph};
ghost use Rattle.line_fill.specs.Stops.{measures_of, offsets_of, stops_of};
ghost use Rattle.line_fill.specs.Widths.{is_hyphened};

use crate::end::{is_hyphened, text_len};
use crate::fill::{fill, next_line};
use crate::measure::measure_at;
use crate::paragraph::{Paragraph, paragraph_at};
use crate::plain::begins_plain;
use crate::stops::stops;
use bk_num::name::NoMem;
use bk_num::steps::Steps;
use boxes::laws::make_line;
use boxes::leaf::Leaf;
use boxes::line::Line;
use metrics::Faces;
use std::alloc::Global;
use std::sync::ledger::Ledger;
use total_fit::best::best_plan;
use total_fit::plan::Plan;

/// The best plan of the lines of what is left of a paragraph. None where no plan has lines that all fit.
fn best_of(
    alloc: Global,
    faces: &Faces,
    leaf: &Leaf,
    from: u32,
    measure: i64,
    paragraph: Paragraph,
) -> Result<Option<Plan>, NoMem>
    requires can { CanFill faces.now leaf.now }
    requires measure { unsigned_abs measure ≤ 2 ^ 40 }
    requires paragraph { IsParagraph leaf.now paragraph }
    requires from { paragraph.from ≡ from }
    requires stops { length (offsets_of leaf.now from) ≤ most_stops }
    ensures none { IfOk result (λ found. IfNone found
        (HasNoPlan (stops_of faces.now leaf.now from) (measures_of leaf.now from measure))) }
    ensures best { IfOk result (λ found. IfSome found (λ plan.
        IsBest (stops_of faces.now leaf.now from) (measures_of leaf.now from measure) plan.ends)) }
{
    let first = measure_at(leaf, from, measure);
    let stops = stops(alloc, faces, leaf, paragraph)?;
    best_plan(alloc, stops.as_slice(), first, measure)
}

/// The line of a paragraph from a place up to one of its stops, by the stop's number.
fn line_to(leaf: &Leaf, paragraph: Paragraph, from: usize, end: u32) -> Line
    requires few { length leaf.now.text < 2 ^ 32 }
    requires paragraph { IsParagraph leaf.now paragraph }
    requires from { from < length leaf.now.text }
    requires low { 0 < end }
    requires high { end - 1 < length (offsets_of leaf.now paragraph.from) }
    ensures from { result.from ≡ from }
    ensures to { result.to ≡ slice_index (offsets_of leaf.now paragraph.from) (end - 1) }
    ensures hyphen { result.hyphen ≡ is_hyphened leaf.now.text result.to }
{
    let to = paragraph.offset(leaf, end as usize - 1);
    let hyphen = is_hyphened(leaf.text.as_str().as_bytes(), to);
    make_line(from as u32, to as u32, hyphen)
}

/// A line that is filled, and the later lines of the plan that chose it, as far as the plans from there on choose them
/// too.
#[derive(Drop)]
pub(crate) struct Filled {
    pub line: Line,
    pub ahead: Vec<Line>,
}

/// A line that no plan chose.
fn alone(alloc: Global, line: Line) -> Filled
    ensures line { result.line ≡ line }
    ensures ahead { result.ahead.items ≡ [] }
{
    Filled {
        line,
        ahead: Vec::new(alloc),
    }
}

/// The lines of the best plan of what is left of a paragraph, up to the first one after which the next line is another
/// one than the plan's where it is planned anew. None where no plan has lines that all fit.
fn planned(
    alloc: Global,
    faces: &Faces,
    leaf: &Leaf,
    from: u32,
    measure: i64,
    paragraph: Paragraph,
) -> Result<Option<Filled>, NoMem>
    requires can { CanFill faces.now leaf.now }
    requires fit { leaf.now.fit ≡ true }
    requires measure { unsigned_abs measure ≤ 2 ^ 40 }
    requires paragraph { IsParagraph leaf.now paragraph }
    requires from { paragraph.from ≡ from }
    requires stops { length (offsets_of leaf.now from) ≤ most_stops }
    ensures none { IfOk result (λ found. IfNone found
        (HasNoPlan (stops_of faces.now leaf.now from) (measures_of leaf.now from measure))) }
    ensures lines { IfOk result (λ found. IfSome found (AreFilled faces.now leaf.now from measure)) }
{
    let Some(plan) = best_of(alloc, faces, leaf, from, measure, paragraph)? else {
        return Ok(None);
    };
    let ends = plan.ends.as_slice();
    let text = leaf.text.as_str();
    let line = line_to(leaf, paragraph, from as usize, ends[0]);
    let mut ahead = Vec::new(alloc);
    for index in 1..ends.len() {
        let at = paragraph.offset(leaf, ends[index - 1] as usize - 1);
        if !begins_plain(text.as_bytes(), at) {
            break;
        }
        ahead.push(line_to(leaf, paragraph, at, ends[index]))?;
    }
    Ok(Some(Filled { line, ahead }))
}

/// The line that begins at a place in a leaf whose lines are chosen for a paragraph as a whole: the first line of the
/// best plan; where there are too many stops for a plan, or none has lines that all fit, it goes as far as it fits.
fn planned_line(
    alloc: Global,
    faces: &Faces,
    leaf: &Leaf,
    from: u32,
    measure: i64,
) -> Result<Filled, NoMem>
    requires good { IsGoodLeaf leaf.now }
    requires faced { All (λ s. s.face.0 < length faces.now) leaf.now.spans }
    requires fit { leaf.now.fit ≡ true }
    requires from { from < length leaf.now.text }
    requires measure { unsigned_abs measure ≤ 2 ^ 40 }
    ensures { IfOk result (AreFilled faces.now leaf.now from measure) }
{
    // The last span ends at the text's end, so a place in the text is a `u32`.
    let _end = text_len(leaf);
    let Some(paragraph) = paragraph_at(leaf, from as usize) else {
        return Ok(alone(alloc, fill(faces, leaf, from, measure)));
    };
    match planned(alloc, faces, leaf, from, measure, paragraph)? {
        Some(filled) => Ok(filled),
        None => Ok(alone(alloc, fill(faces, leaf, from, measure))),
    }
}

/// The line of a leaf that begins at a place, at a measure in units. It takes one step.
pub(crate) fn line_from<L: Ledger>(
    alloc: Global,
    faces: &Faces,
    leaf: &Leaf,
    from: u32,
    measure: i64,
    steps: &mut Steps<L>,
) -> Result<Filled, NoMem>
    requires good { IsGoodLeaf leaf.now }
    requires faced { All (λ s. s.face.0 < length faces.now) leaf.now.spans }
    requires from { from < length leaf.now.text }
    requires measure { unsigned_abs measure ≤ 2 ^ 40 }
    ensures lines { IfOk result (AreFilled faces.now leaf.now from measure) }
    ensures step { steps.new ≡ steps.old + 1 }
{
    if !leaf.fit {
        let line = next_line(faces, leaf, from, measure, steps);
        return Ok(alone(alloc, line));
    }
    steps.tick();
    planned_line(alloc, faces, leaf, from, measure)
}
