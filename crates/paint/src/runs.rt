//! Items of the runs of a line.

ghost use Rattle.std.specs.Prelude.{◌≡◌, ◌<◌, ◌≤◌, ◌∷◌, [], ◌^◌, map, length, All, OnOk, slice_range, ◌+ℤ◌};
ghost use Rattle.std.specs.Str.{IsCharBoundary};
ghost use Rattle.bk_num.specs.Numbers.{IsWithin};
ghost use Rattle.line_place.specs.Conditions.{HasFaces};
ghost use Rattle.line_place.specs.Placing.{IsRunIn};
ghost use Rattle.paint.specs.Areas.{style_of};
ghost use Rattle.paint.specs.Items.{run_item, span_of};
ghost use Rattle.paint.specs.Views.{Adds, HaveItemFaces, hyphen_item, text_item};

use crate::item::{Canvas, ItemRef, TextPlace, style_at};
use bk_num::name::NoMem;
use boxes::leaf::Leaf;
use line_place::place::Run;
use metrics::Faces;

/// A part of a text, which begins and ends at characters.
fn part_of(text: &str, from: u32, to: u32) -> &str
    requires order { from ≤ to }
    requires begins { IsCharBoundary text.now from }
    requires ends { IsCharBoundary text.now to }
    ensures { result.now ≡ slice_range text.now from to }
{
    &text[from as usize..to as usize]
}

/// Adds a shown hyphen.
fn push_hyphen<'a>(
    out: &mut Vec<ItemRef<'a>>,
    canvas: &Canvas<'a>,
    style: TextPlace,
) -> Result<(), NoMem>
    requires face { style.face.0 < length canvas.now.faces.now }
    requires faces { HaveItemFaces canvas.now.faces.now out.old.items }
    ensures items { OnOk result (Adds canvas.now.faces.now out.old.items
        (hyphen_item canvas.now.faces.now style ∷ []) out.new.items) }
    ensures faces { OnOk result (HaveItemFaces canvas.now.faces.now out.new.items) }
{
    // named by the clauses alone
    let _canvas = canvas;
    if out.push(ItemRef::Hyphen { style }).is_err() {
        return Err(NoMem);
    }
    Ok(())
}

/// Adds a text.
fn push_text<'a>(
    out: &mut Vec<ItemRef<'a>>,
    canvas: &Canvas<'a>,
    style: TextPlace,
    text: &'a str,
) -> Result<(), NoMem>
    requires face { style.face.0 < length canvas.now.faces.now }
    requires faces { HaveItemFaces canvas.now.faces.now out.old.items }
    ensures items { OnOk result (Adds canvas.now.faces.now out.old.items
        (text_item canvas.now.faces.now style text.now ∷ []) out.new.items) }
    ensures faces { OnOk result (HaveItemFaces canvas.now.faces.now out.new.items) }
{
    // named by the clauses alone
    let _canvas = canvas;
    if out.push(ItemRef::Text { style, text }).is_err() {
        return Err(NoMem);
    }
    Ok(())
}

/// The style of a run of a line whose content begins at a left, on a baseline.
fn style_of_run(faces: &Faces, leaf: &Leaf, left: i64, baseline: i64, run: &Run) -> TextPlace
    requires leaf { HasFaces faces.now leaf.now }
    requires run { IsRunIn leaf.now run.now }
    requires left { IsWithin (2 ^ 61) left }
    ensures style { result ≡ style_of (left +ℤ run.now.x) baseline (span_of leaf.now run.now.span) }
    ensures face { result.face.0 < length faces.now }
{
    // named by the clauses alone
    let _faces = faces;
    let span = &leaf.spans.as_slice()[run.span as usize];
    style_at(span, left + run.x, baseline)
}

/// Adds a run of a line whose content begins at a left, on a baseline.
#[tactic(auto, unfolding(crate::specs::Items::run_item))]
fn push_run<'a>(
    out: &mut Vec<ItemRef<'a>>,
    canvas: &Canvas<'a>,
    leaf: &'a Leaf,
    left: i64,
    baseline: i64,
    run: &Run,
) -> Result<(), NoMem>
    requires leaf { HasFaces canvas.now.faces.now leaf.now }
    requires run { IsRunIn leaf.now run.now }
    requires left { IsWithin (2 ^ 61) left }
    requires faces { HaveItemFaces canvas.now.faces.now out.old.items }
    ensures items { OnOk result (Adds canvas.now.faces.now out.old.items
        (run_item canvas.now.faces.now leaf.now left baseline run.now ∷ []) out.new.items) }
    ensures faces { OnOk result (HaveItemFaces canvas.now.faces.now out.new.items) }
{
    let style = style_of_run(canvas.faces, leaf, left, baseline, run);
    if run.hyphen {
        push_hyphen(out, canvas, style)?;
        return Ok(());
    }
    let text = part_of(leaf.text.as_str(), run.from, run.to);
    push_text(out, canvas, style, text)?;
    Ok(())
}

/// Adds the runs of a line.
pub(crate) fn push_runs<'a>(
    out: &mut Vec<ItemRef<'a>>,
    canvas: &Canvas<'a>,
    leaf: &'a Leaf,
    left: i64,
    baseline: i64,
    runs: &[Run],
) -> Result<(), NoMem>
    requires leaf { HasFaces canvas.now.faces.now leaf.now }
    requires runs { All (IsRunIn leaf.now) runs.now }
    requires left { IsWithin (2 ^ 61) left }
    requires faces { HaveItemFaces canvas.now.faces.now out.old.items }
    ensures items { OnOk result (Adds canvas.now.faces.now out.old.items
        (map (run_item canvas.now.faces.now leaf.now left baseline) runs.now) out.new.items) }
    ensures faces { OnOk result (HaveItemFaces canvas.now.faces.now out.new.items) }
{
    for run in runs {
        push_run(out, canvas, leaf, left, baseline, run)?;
    }
    Ok(())
}
