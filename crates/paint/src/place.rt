//! The items of a page.

ghost use Rattle.std.specs.Prelude.{◌≡◌, IfOk, OnOk};
ghost use Rattle.paint.specs.Conditions.{CanFlowBePainted};
ghost use Rattle.paint.specs.Order.{IsPageOf};
ghost use Rattle.paint.specs.Pages.{items_of};
ghost use Rattle.paint.specs.Views.{Adds, HaveItemFaces, items_in};

use crate::item::{Canvas, ItemRef, SolidOrigin};
use crate::note_area::push_area;
use crate::trees::push_tree;
use bk_num::name::NoMem;
use boxes::flow::Flow;
use boxes::page::Page;
use metrics::Faces;
use std::alloc::Global;

/// Appends the items of a page of a flow, in the order of the listing: the backgrounds and borders of the main tree's
/// boxes, its edges and lines, each line with its markers, runs and hyphen, and then the note area: its separator, and
/// note after note the like of its body. Places are sums of units from the page's top left. No line is filled: each
/// stands where the page has it. Its time goes with the page's solids, the events between them and their text.
pub fn push_items<'a>(
    alloc: Global,
    out: &mut Vec<ItemRef<'a>>,
    flow: &'a Flow,
    faces: &'a Faces,
    page: &Page,
) -> Result<(), NoMem>
    requires flow { CanFlowBePainted faces.now flow.now }
    requires page { IsPageOf flow.now page.now }
    requires faces { HaveItemFaces faces.now out.old.items }
    ensures items { OnOk result (Adds faces.now out.old.items (items_of faces.now flow.now page.now) out.new.items) }
    ensures faces { OnOk result (HaveItemFaces faces.now out.new.items) }
{
    let frame = &page.frame;
    let canvas = Canvas {
        faces,
        tree: &flow.main,
        origin: SolidOrigin {
            left: frame.left,
            top: frame.top,
            width: frame.width,
        },
    };
    push_tree(alloc, out, &canvas, page.solids.as_slice())?;
    let notes = flow.notes.as_slice();
    push_area(alloc, out, faces, notes, frame, page.notes.as_slice())
}

/// The items of a page of a flow, as `push_items` appends them.
pub fn place<'a>(
    alloc: Global,
    flow: &'a Flow,
    faces: &'a Faces,
    page: &Page,
) -> Result<Vec<ItemRef<'a>>, NoMem>
    requires flow { CanFlowBePainted faces.now flow.now }
    requires page { IsPageOf flow.now page.now }
    ensures items { IfOk result (λ v. items_in faces.now v.items ≡ items_of faces.now flow.now page.now) }
    ensures faces { IfOk result (λ v. HaveItemFaces faces.now v.items) }
{
    let mut out = Vec::new(alloc);
    push_items(alloc, &mut out, flow, faces, page)?;
    Ok(out)
}
