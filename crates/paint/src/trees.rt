//! Items of a tree on a page.

ghost use Rattle.std.specs.Prelude.{All, OnOk};
ghost use Rattle.notes.specs.Near.{IsNearSolid};
ghost use Rattle.paint.specs.Bounds.{IsGoodOrigin};
ghost use Rattle.paint.specs.Conditions.{CanBePainted};
ghost use Rattle.paint.specs.Order.{AreInOrder};
ghost use Rattle.paint.specs.Pages.{tree_items};
ghost use Rattle.paint.specs.Views.{Adds, HaveItemFaces};

use crate::item::{Canvas, ItemRef};
use crate::rects::push_rects;
use crate::solids::push_solids;
use bk_num::name::NoMem;
use boxes::page::Placed;
use std::alloc::Global;

/// Adds the rectangles of a tree's boxes, and then the items of its solids.
pub(crate) fn push_tree<'a>(
    alloc: Global,
    out: &mut Vec<ItemRef<'a>>,
    canvas: &Canvas<'a>,
    solids: &[Placed],
) -> Result<(), NoMem>
    requires tree { CanBePainted canvas.now.faces.now canvas.now.tree.now }
    requires origin { IsGoodOrigin canvas.now.origin }
    requires solids { All IsNearSolid solids.now }
    requires order { AreInOrder canvas.now.tree.now 0 solids.now }
    requires faces { HaveItemFaces canvas.now.faces.now out.old.items }
    ensures items { OnOk result (Adds canvas.now.faces.now out.old.items
        (tree_items canvas.now.faces.now canvas.now.tree.now canvas.now.origin solids.now) out.new.items) }
    ensures faces { OnOk result (HaveItemFaces canvas.now.faces.now out.new.items) }
{
    push_rects(alloc, out, canvas, solids)?;
    push_solids(alloc, out, canvas, solids)?;
    Ok(())
}
