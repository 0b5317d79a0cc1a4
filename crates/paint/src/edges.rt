//! Items of edges.

ghost use Rattle.std.specs.Prelude.{◌∷◌, [], OnOk};
ghost use Rattle.boxes.specs.Contents.{IsGoodBox};
ghost use Rattle.notes.specs.Near.{IsNearSolid};
ghost use Rattle.paint.specs.Bounds.{IsGoodOrigin};
ghost use Rattle.paint.specs.Items.{box_edge};
ghost use Rattle.paint.specs.Opens as spec;
ghost use Rattle.paint.specs.Views.{Adds, HaveItemFaces};

use crate::item::{Canvas, ItemRef, area_at};
use crate::opens::border_in;
use bk_num::name::NoMem;
use boxes::page::Placed;
use boxes::props::BoxProps;
use boxes::span::Content;

/// Adds an edge of a box, in the content of the box around it.
pub(crate) fn push_edge<'a>(
    out: &mut Vec<ItemRef<'a>>,
    canvas: &Canvas<'a>,
    s: &Placed,
    opens: bool,
    outer: &Content,
    props: &BoxProps,
) -> Result<(), NoMem>
    requires origin { IsGoodOrigin canvas.now.origin }
    requires solid { IsNearSolid s.now }
    requires wide { spec.IsWide outer.now }
    requires near { spec.IsNear outer.now }
    requires good { IsGoodBox props.now }
    requires faces { HaveItemFaces canvas.now.faces.now out.old.items }
    ensures items { OnOk result (Adds canvas.now.faces.now out.old.items
        (box_edge canvas.now.origin opens s.now outer.now props.now ∷ []) out.new.items) }
    ensures faces { OnOk result (HaveItemFaces canvas.now.faces.now out.new.items) }
{
    let border = border_in(props, outer);
    let area = area_at(&canvas.origin, &border, s);
    if out.push(ItemRef::Edge { opens, area }).is_err() {
        return Err(NoMem);
    }
    Ok(())
}
