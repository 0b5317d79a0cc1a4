//! Items of markers.

ghost use Rattle.std.specs.Prelude.{◌≡◌, ◌<◌, ◌≤◌, ◌∷◌, [], ◌^◌, pos, ◌≤ℤ◌, map, length, All, OnOk};
ghost use Rattle.bk_num.specs.Numbers.{IsWithin};
ghost use Rattle.boxes.specs.Contents.{IsGoodSpan};
ghost use Rattle.boxes.specs.Tree.{open_before};
ghost use Rattle.metrics.specs.Widths.{text_width};
ghost use Rattle.line_fill.specs.Widths.{pen_of};
ghost use Rattle.paint.specs.Bounds.{IsGoodOrigin};
ghost use Rattle.paint.specs.Items.{lead_item, lead_left};
ghost use Rattle.paint.specs.Opens.{AreOpen, open_left};
ghost use Rattle.paint.specs.Views.{Adds, HaveItemFaces};

use crate::item::{Canvas, ItemRef, style_at};
use crate::opens::{PlacedBox, left_of};
use bk_num::name::NoMem;
use boxes::leaf::Lead;
use metrics::Faces;

/// The width of a marker in units, the spaces at its end too, at most 2^60.
fn lead_width(faces: &Faces, lead: &Lead) -> u64
    requires face { lead.now.span.face.0 < length faces.now }
    requires size { pos 0 ≤ℤ lead.now.span.size }
    ensures value { result ≡ text_width (pen_of faces.now lead.now.span) lead.now.text }
    ensures most { result ≤ 2 ^ 60 }
{
    let span = &lead.span;
    faces
        .pen(span.face, span.size)
        .text_width(lead.text.as_str())
}

/// The left of the content of a marker's item, which is one of the boxes that are open at an event.
fn left_in(canvas: &Canvas<'_>, opens: &[PlacedBox], at: u32, owner: u32) -> i64
    requires { AreOpen canvas.now.tree.now canvas.now.origin at opens.now }
    ensures value { result ≡ open_left canvas.now.tree.now canvas.now.origin at owner }
    ensures within { IsWithin (2 ^ 60) result }
{
    // named by the clauses alone
    let _canvas = canvas;
    // and so is the event
    let _at = at;
    left_of(opens, owner)
}

/// Where a marker of the leaf at an event begins, in units from the page's left.
fn lead_left(canvas: &Canvas<'_>, opens: &[PlacedBox], at: u32, lead: &Lead) -> i64
    requires origin { IsGoodOrigin canvas.now.origin }
    requires opens { AreOpen canvas.now.tree.now canvas.now.origin at opens.now }
    requires face { lead.now.span.face.0 < length canvas.now.faces.now }
    requires size { pos 0 ≤ℤ lead.now.span.size }
    ensures { result ≡ lead_left canvas.now.faces.now canvas.now.tree.now canvas.now.origin
        (open_before canvas.now.tree.now.events at) lead.now }
{
    let right = canvas.origin.left + left_in(canvas, opens, at, lead.owner);
    right - lead_width(canvas.faces, lead) as i64
}

/// Adds a marker of the leaf at an event, on a baseline.
#[tactic(auto, unfolding(crate::specs::Items::lead_item))]
fn push_lead<'a>(
    out: &mut Vec<ItemRef<'a>>,
    canvas: &Canvas<'a>,
    opens: &[PlacedBox],
    at: u32,
    baseline: i64,
    lead: &'a Lead,
) -> Result<(), NoMem>
    requires origin { IsGoodOrigin canvas.now.origin }
    requires opens { AreOpen canvas.now.tree.now canvas.now.origin at opens.now }
    requires face { lead.now.span.face.0 < length canvas.now.faces.now }
    requires span { IsGoodSpan lead.now.span }
    requires faces { HaveItemFaces canvas.now.faces.now out.old.items }
    ensures items { OnOk result (Adds canvas.now.faces.now out.old.items
        (lead_item canvas.now.faces.now canvas.now.tree.now canvas.now.origin
        (open_before canvas.now.tree.now.events at) baseline lead.now ∷ []) out.new.items) }
    ensures faces { OnOk result (HaveItemFaces canvas.now.faces.now out.new.items) }
{
    let x = lead_left(canvas, opens, at, lead);
    let style = style_at(&lead.span, x, baseline);
    let text = lead.text.as_str();
    if out.push(ItemRef::Text { style, text }).is_err() {
        return Err(NoMem);
    }
    Ok(())
}

/// Adds the markers of the leaf at an event, on the baseline of its first line.
pub(crate) fn push_leads<'a>(
    out: &mut Vec<ItemRef<'a>>,
    canvas: &Canvas<'a>,
    opens: &[PlacedBox],
    at: u32,
    baseline: i64,
    leads: &'a [Lead],
) -> Result<(), NoMem>
    requires origin { IsGoodOrigin canvas.now.origin }
    requires opens { AreOpen canvas.now.tree.now canvas.now.origin at opens.now }
    requires lead_faces { All (λ lead. lead.span.face.0 < length canvas.now.faces.now) leads.now }
    requires spans { All (λ lead. IsGoodSpan lead.span) leads.now }
    requires faces { HaveItemFaces canvas.now.faces.now out.old.items }
    ensures items { OnOk result (Adds canvas.now.faces.now out.old.items
        (map (lead_item canvas.now.faces.now canvas.now.tree.now canvas.now.origin
        (open_before canvas.now.tree.now.events at) baseline) leads.now) out.new.items) }
    ensures faces { OnOk result (HaveItemFaces canvas.now.faces.now out.new.items) }
{
    for lead in leads {
        push_lead(out, canvas, opens, at, baseline, lead)?;
    }
    Ok(())
}
