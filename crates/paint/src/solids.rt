//! Items of the solids of a tree.

ghost use Rattle.std.specs.Prelude.{All, OnOk};
ghost use Rattle.std.specs.Option.{ForSome};
ghost use Rattle.std.specs.List.{flat_map};
ghost use Rattle.notes.specs.Near.{IsNearSolid};
ghost use Rattle.paint.specs.Bounds.{IsGoodOrigin};
ghost use Rattle.paint.specs.Conditions.{CanBePainted, CanPaintAt};
ghost use Rattle.paint.specs.Items.{solid_items};
ghost use Rattle.paint.specs.Opens.{AreOpen};
ghost use Rattle.paint.specs.Order.{AreInOrder, StandsIn};
ghost use Rattle.paint.specs.Views.{Adds, HaveItemFaces};

use crate::edges::push_edge;
use crate::item::{Canvas, ItemRef};
use crate::lines::push_line;
use crate::opens::{PlacedBox, innermost, outer};
use crate::walk::go_to;
use bk_num::name::NoMem;
use boxes::page::Placed;
use boxes::place::Event;
use std::alloc::Global;

/// Adds the items of a solid, where the boxes that are open before its event are known.
#[tactic(auto, unfolding(crate::specs::Items::solid_items))]
fn push_solid<'a>(
    alloc: Global,
    out: &mut Vec<ItemRef<'a>>,
    canvas: &Canvas<'a>,
    opens: &[PlacedBox],
    s: &Placed,
) -> Result<(), NoMem>
    requires tree { CanBePainted canvas.now.faces.now canvas.now.tree.now }
    requires place { CanPaintAt canvas.now s.now.at.event opens.now out.old.items }
    requires solid { IsNearSolid s.now }
    requires stands { StandsIn canvas.now.tree.now s.now }
    ensures items { OnOk result (Adds canvas.now.faces.now out.old.items
        (solid_items canvas.now.faces.now canvas.now.tree.now canvas.now.origin s.now) out.new.items) }
    ensures faces { OnOk result (HaveItemFaces canvas.now.faces.now out.new.items) }
{
    let tree = canvas.tree;
    // a tree is known to be one by its count
    let _count = tree.count();
    let origin = &canvas.origin;
    match tree.event(s.at.event) {
        Event::Opens(number) => {
            let around = innermost(opens, origin);
            push_edge(out, canvas, s, true, &around, tree.props(number))?;
            Ok(())
        }
        Event::Closes(number) => {
            let around = outer(opens, origin);
            push_edge(out, canvas, s, false, &around, tree.props(number))?;
            Ok(())
        }
        Event::Leaf(number) => {
            push_line(alloc, out, canvas, opens, s, tree.leaf(number))?;
            Ok(())
        }
    }
}

/// Goes to a solid from the event that was reached in its tree, if there is one, and adds its items.
pub(crate) fn push_next<'a>(
    alloc: Global,
    out: &mut Vec<ItemRef<'a>>,
    canvas: &Canvas<'a>,
    opens: &mut Vec<PlacedBox>,
    reached: Option<u32>,
    s: &Placed,
) -> Result<(), NoMem>
    requires tree { CanBePainted canvas.now.faces.now canvas.now.tree.now }
    requires origin { IsGoodOrigin canvas.now.origin }
    requires solid { IsNearSolid s.now }
    requires stands { StandsIn canvas.now.tree.now s.now }
    requires opens { ForSome reached (λ at. AreOpen canvas.now.tree.now canvas.now.origin at opens.old.items) }
    requires faces { HaveItemFaces canvas.now.faces.now out.old.items }
    ensures items { OnOk result (Adds canvas.now.faces.now out.old.items
        (solid_items canvas.now.faces.now canvas.now.tree.now canvas.now.origin s.now) out.new.items) }
    ensures faces { OnOk result (HaveItemFaces canvas.now.faces.now out.new.items) }
    ensures opens { OnOk result (AreOpen canvas.now.tree.now canvas.now.origin s.now.at.event opens.new.items) }
{
    go_to(opens, canvas.tree, reached, s.at.event, &canvas.origin)?;
    push_solid(alloc, out, canvas, opens, s)?;
    Ok(())
}

/// Adds the items of solids of a tree, in order. The boxes that are open go along from solid to solid.
pub(crate) fn push_solids<'a>(
    alloc: Global,
    out: &mut Vec<ItemRef<'a>>,
    canvas: &Canvas<'a>,
    solids: &[Placed],
) -> Result<(), NoMem>
    requires tree { CanBePainted canvas.now.faces.now canvas.now.tree.now }
    requires origin { IsGoodOrigin canvas.now.origin }
    requires solids { All IsNearSolid solids.now }
    requires order { AreInOrder canvas.now.tree.now 0 solids.now }
    requires faces { HaveItemFaces canvas.now.faces.now out.old.items }
    ensures items { OnOk result (Adds canvas.now.faces.now out.old.items
        (flat_map (solid_items canvas.now.faces.now canvas.now.tree.now canvas.now.origin) solids.now) out.new.items) }
    ensures faces { OnOk result (HaveItemFaces canvas.now.faces.now out.new.items) }
{
    let mut opens = Vec::new(alloc);
    let mut reached = None;
    for s in solids {
        push_next(alloc, out, canvas, &mut opens, reached, s)?;
        reached = Some(s.at.event);
    }
    Ok(())
}
