//! Items of lines.

ghost use Rattle.std.specs.Prelude.{◌≡◌, ◌∷◌, [], ◌^◌, ◌+ℤ◌, ◌==◌, if◌then◌else◌, map, OnOk};
ghost use Rattle.bk_num.specs.Numbers.{IsWithin};
ghost use Rattle.boxes.specs.Contents.{IsGoodLeaf};
ghost use Rattle.boxes.specs.Tree.{open_before};
ghost use Rattle.line_fill.specs.LineEnd.{IsLineBetween};
ghost use Rattle.line_place.specs.Conditions.{IsInLeaf};
ghost use Rattle.line_place.specs.Extents.{extent_of};
ghost use Rattle.notes.specs.Near.{IsNearSolid};
ghost use Rattle.paint.specs.Areas.{area_of};
ghost use Rattle.paint.specs.Bounds.{IsGoodOrigin};
ghost use Rattle.paint.specs.Conditions.{CanPaintAt, IsFaced};
ghost use Rattle.paint.specs.Items.{lead_item, line_items, line_of, words_items};
ghost use Rattle.paint.specs.Opens.{IsNear, IsWide};
ghost use Rattle.paint.specs.Views.{Adds, HaveItemFaces, area_item};

use crate::item::{Canvas, ItemRef, area_at};
use crate::leads::push_leads;
use crate::opens::{PlacedBox, innermost};
use crate::runs::push_runs;
use bk_num::name::NoMem;
use boxes::leaf::Leaf;
use boxes::line::Line;
use boxes::page::Placed;
use boxes::span::Content;
use line_fill::{line_between, text_len};
use line_place::extent::line_height;
use line_place::runs::runs;
use std::alloc::Global;

/// Adds the area of a line, in the content of its block.
fn push_area<'a>(
    out: &mut Vec<ItemRef<'a>>,
    canvas: &Canvas<'a>,
    s: &Placed,
    content: &Content,
) -> Result<(), NoMem>
    requires origin { IsGoodOrigin canvas.now.origin }
    requires solid { IsNearSolid s.now }
    requires left { IsWithin (2 ^ 61) content.now.left }
    requires faces { HaveItemFaces canvas.now.faces.now out.old.items }
    ensures items { OnOk result (Adds canvas.now.faces.now out.old.items
        (area_item (area_of canvas.now.origin content.now s.now) ∷ []) out.new.items) }
    ensures faces { OnOk result (HaveItemFaces canvas.now.faces.now out.new.items) }
{
    let area = area_at(&canvas.origin, content, s);
    if out.push(ItemRef::Line { area }).is_err() {
        return Err(NoMem);
    }
    Ok(())
}

/// Adds the markers of a leaf, if a line is its first.
fn push_first<'a>(
    out: &mut Vec<ItemRef<'a>>,
    canvas: &Canvas<'a>,
    opens: &[PlacedBox],
    at: u32,
    baseline: i64,
    leaf: &'a Leaf,
    line: Line,
) -> Result<(), NoMem>
    requires good { IsGoodLeaf leaf.now }
    requires faced { IsFaced canvas.now.faces.now leaf.now }
    requires place { CanPaintAt canvas.now at opens.now out.old.items }
    ensures items { OnOk result (Adds canvas.now.faces.now out.old.items
        ((if line.from == 0 then map (lead_item canvas.now.faces.now canvas.now.tree.now canvas.now.origin
        (open_before canvas.now.tree.now.events at) baseline) leaf.now.leads else [])) out.new.items) }
    ensures faces { OnOk result (HaveItemFaces canvas.now.faces.now out.new.items) }
{
    if line.from() == 0 {
        push_leads(out, canvas, opens, at, baseline, leaf.leads.as_slice())
    } else {
        Ok(())
    }
}

/// Adds the markers and the runs of a line, in the content of its block, on a baseline.
fn push_words<'a>(
    alloc: Global,
    out: &mut Vec<ItemRef<'a>>,
    canvas: &Canvas<'a>,
    opens: &[PlacedBox],
    at: u32,
    baseline: i64,
    leaf: &'a Leaf,
    line: Line,
    content: &Content,
) -> Result<(), NoMem>
    requires good { IsGoodLeaf leaf.now }
    requires faced { IsFaced canvas.now.faces.now leaf.now }
    requires place { CanPaintAt canvas.now at opens.now out.old.items }
    requires line { IsInLeaf leaf.now line }
    requires wide { IsWide content.now }
    requires near { IsNear content.now }
    ensures items { OnOk result (Adds canvas.now.faces.now out.old.items
        (words_items canvas.now.faces.now canvas.now.tree.now canvas.now.origin
        (open_before canvas.now.tree.now.events at) leaf.now line content.now baseline) out.new.items) }
    ensures faces { OnOk result (HaveItemFaces canvas.now.faces.now out.new.items) }
{
    let left = canvas.origin.left + content.left;
    push_first(out, canvas, opens, at, baseline, leaf, line)?;
    let runs = runs(alloc, canvas.faces, leaf, line, content.width)?;
    push_runs(out, canvas, leaf, left, baseline, runs.as_slice())?;
    Ok(())
}

/// The baseline of a line of a leaf, in units from the page's top.
fn baseline_of(canvas: &Canvas<'_>, s: &Placed, leaf: &Leaf, line: Line) -> i64
    requires good { IsGoodLeaf leaf.now }
    requires faced { IsFaced canvas.now.faces.now leaf.now }
    requires line { IsInLeaf leaf.now line }
    requires origin { IsGoodOrigin canvas.now.origin }
    requires solid { IsNearSolid s.now }
    ensures { result ≡ ((canvas.now.origin.top +ℤ s.now.top) +ℤ
        (extent_of canvas.now.faces.now leaf.now line.from line.to).baseline) }
{
    canvas.origin.top + s.top + line_height(canvas.faces, leaf, line).baseline
}

/// Where a placed line ends: inside its leaf, or with it.
pub(crate) fn end_in(leaf: &Leaf, s: &Placed) -> u32
    requires { IsGoodLeaf leaf.now }
    ensures { result ≡ (line_of leaf.now s.now).to }
{
    if s.end.event == s.at.event {
        s.end.offset
    } else {
        text_len(leaf)
    }
}

/// The line of a leaf that a solid is, which stands between two places. It fills nothing.
fn line_at(leaf: &Leaf, s: &Placed) -> Line
    requires good { IsGoodLeaf leaf.now }
    requires between { IsLineBetween leaf.now s.now.at.offset (line_of leaf.now s.now).to }
    ensures line { result ≡ line_of leaf.now s.now }
    ensures inside { IsInLeaf leaf.now result }
{
    // places stand at characters of a text
    let _text = leaf.text.as_str();
    line_between(leaf, s.at.offset, end_in(leaf, s))
}

/// Adds a line of a leaf: its area, then the leaf's markers if it is the first, then its runs with the hyphen.
#[tactic(auto, unfolding(crate::specs::Items::line_items))]
pub(crate) fn push_line<'a>(
    alloc: Global,
    out: &mut Vec<ItemRef<'a>>,
    canvas: &Canvas<'a>,
    opens: &[PlacedBox],
    s: &Placed,
    leaf: &'a Leaf,
) -> Result<(), NoMem>
    requires good { IsGoodLeaf leaf.now }
    requires faced { IsFaced canvas.now.faces.now leaf.now }
    requires place { CanPaintAt canvas.now s.now.at.event opens.now out.old.items }
    requires solid { IsNearSolid s.now }
    requires between { IsLineBetween leaf.now s.now.at.offset (line_of leaf.now s.now).to }
    ensures items { OnOk result (Adds canvas.now.faces.now out.old.items
        (line_items canvas.now.faces.now canvas.now.tree.now canvas.now.origin s.now leaf.now) out.new.items) }
    ensures faces { OnOk result (HaveItemFaces canvas.now.faces.now out.new.items) }
{
    let content = innermost(opens, &canvas.origin);
    let line = line_at(leaf, s);
    let baseline = baseline_of(canvas, s, leaf, line);
    push_area(out, canvas, s, &content)?;
    push_words(
        alloc, out, canvas, opens, s.at.event, baseline, leaf, line, &content,
    )?;
    Ok(())
}
