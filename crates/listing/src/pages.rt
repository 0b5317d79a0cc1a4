//! What the pages of a list print.

ghost use Rattle.std.specs.Prelude.{◌≡◌, ◌<◌, Some, length, slice_get, unwrap_or, pos, All, IfOk, OnOk};
ghost use Rattle.boxes.specs.Frames.{side_of};
ghost use Rattle.listing.specs.Pages.{head_record};
ghost use Rattle.margin_box.specs.Chosen.{AreChosen};
ghost use Rattle.margin_box.specs.Conditions.{CanShowMargins};
ghost use Rattle.margin_box.specs.Margins.{HasFace, items_of as texts_of, margins_in};
ghost use Rattle.margin_box.specs.Margins as spec;
ghost use Rattle.std.specs.List.{flat_map};
ghost use Rattle.paint.specs.Conditions.{CanFlowBePainted};
ghost use Rattle.paint.specs.Order.{IsPageOf};
ghost use Rattle.paint.specs.Pages.{items_of};
ghost use Rattle.paint.specs.Views.{HaveItemFaces, items_in};
ghost use Rattle.listing.specs.Printed.{head_at, items_at, margins_of, page_name, page_numbers};
ghost use Rattle.listing.specs.Printer.{CanPrint, view_of};

use crate::records::PageHead;
use bk_num::name::NoMem;
use boxes::flow::Flow;
use boxes::frames::side_of;
use boxes::page::{Page, PageList};
use margin_box::faces::MarginFaces;
use margin_box::items::{MarginText, Margins, margin_items_with};
use metrics::Faces;
use page_ctx::resolve::PageStyles;
use page_seq::fold::frames_on;
use page_seq::laws::folds_keep_all;
use paint::item::ItemRef;
use paint::place::push_items;
use std::alloc::Global;
use strings::assigned::Strings;
use style::names::Names;

/// What the pages of a book are printed with: in how many passes they settled, the faces, the flow that stands on them,
/// its frames and how many of them stand on a page, the names of pages, the pages with their numbers and the running
/// strings along them, and the page boxes with the styles of their margin boxes.
#[derive(Clone, Copy)]
pub struct Printer<'a> {
    pub passes: u32,
    pub faces: &'a Faces,
    pub flow: &'a Flow,
    pub frames: &'a PageList,
    pub per: u32,
    pub names: &'a Names,
    pub list: &'a PageList,
    pub numbers: &'a [i64],
    pub strings: &'a Strings,
    pub styles: &'a PageStyles<'a>,
}

/// The text of a page's name, which is empty for no name.
fn name_of<'a>(names: &'a Names, page: &Page) -> &'a str
    ensures { result.now ≡ page_name names.now page.now.name }
{
    match names.text(page.name) {
        Some(text) => text,
        None => "",
    }
}

/// The number of the page at a place of the list.
fn number_of(printer: &Printer<'_>, place: usize) -> i64
    requires { CanPrint printer.now }
    ensures { result ≡ unwrap_or (slice_get (page_numbers (view_of printer.now) printer.now.list.now.pages) place)
        (pos 0) }
{
    printer.numbers.get(place).copied().unwrap_or(0)
}

/// The record of the page at a place of the list.
pub(crate) fn head_of<'a>(printer: &Printer<'a>, page: &Page, place: usize) -> PageHead<'a>
    requires { CanPrint printer.now }
    ensures { head_record result ≡ head_at (view_of printer.now) printer.now.list.now.pages place page.now }
{
    let cell = printer.styles.cell(page.index, page.name, page.kind);
    PageHead {
        index: page.index,
        number: number_of(printer, place),
        side: side_of(page.index),
        kind: page.kind,
        name: name_of(printer.names, page),
        width: cell.width,
        height: cell.height,
    }
}

/// What the margin boxes of the pages are printed with.
fn margins_of<'a>(printer: &Printer<'a>) -> Margins<'a>
    requires { CanPrint printer.now }
    ensures view { margins_in result ≡ margins_of (view_of printer.now) printer.now.list.now.pages }
    ensures can { CanShowMargins result }
    ensures list { result.list.now ≡ printer.now.list.now }
    ensures faces { result.faces.now ≡ printer.now.faces.now }
    ensures boxes { result.styles.now.boxes ≡ printer.now.styles.now.boxes }
{
    Margins {
        faces: printer.faces,
        flow: printer.flow,
        list: printer.list,
        numbers: printer.numbers,
        strings: printer.strings,
        styles: printer.styles,
    }
}

/// The texts in the margin boxes of the page at a place of the list. The faces that they choose are kept.
pub(crate) fn margin_texts(
    alloc: Global,
    printer: &Printer<'_>,
    chosen: &mut MarginFaces,
    place: usize,
) -> Result<Vec<MarginText>, NoMem>
    requires printer { CanPrint printer.now }
    requires chosen { AreChosen printer.now.faces.now printer.now.styles.now.boxes chosen.old }
    requires place { place < length printer.now.list.now.pages }
    ensures items { IfOk result (λ v. texts_of printer.now.faces.now v.items ≡
        spec.margin_items (margins_of (view_of printer.now) printer.now.list.now.pages) place) }
    ensures faces { IfOk result (λ v. All (HasFace printer.now.faces.now) v.items) }
    ensures chosen { AreChosen printer.now.faces.now printer.now.styles.now.boxes chosen.new }
{
    margin_items_with(alloc, &margins_of(printer), chosen, place)
}

/// The page at a place of a list.
pub(crate) fn page_at(pages: &[Page], place: usize) -> &Page
    requires { place < length pages.now }
    ensures { slice_get pages.now place ≡ Some result.now }
{
    &pages[place]
}

/// Replaces the items of a list by those on some frames, frame after frame.
fn refill_from<'a>(
    alloc: Global,
    printer: &Printer<'a>,
    frames: &[Page],
    items: &mut Vec<ItemRef<'a>>,
) -> Result<(), NoMem>
    requires flow { CanFlowBePainted printer.now.faces.now printer.now.flow.now }
    requires pages { All (IsPageOf printer.now.flow.now) frames.now }
    ensures items { OnOk result (items_in printer.now.faces.now items.new.items ≡
        flat_map (items_of printer.now.faces.now printer.now.flow.now) frames.now) }
    ensures faces { OnOk result (HaveItemFaces printer.now.faces.now items.new.items) }
{
    items.clear();
    for frame in frames {
        push_items(alloc, items, printer.flow, printer.faces, frame)?;
    }
    Ok(())
}

/// Replaces the items of a list by what stands on the page at a place.
pub(crate) fn refill_items<'a>(
    alloc: Global,
    printer: &Printer<'a>,
    place: usize,
    items: &mut Vec<ItemRef<'a>>,
) -> Result<(), NoMem>
    requires printer { CanPrint printer.now }
    requires place { place < length printer.now.list.now.pages }
    ensures items { OnOk result (items_in printer.now.faces.now items.new.items ≡
        items_at (view_of printer.now) place) }
    ensures faces { OnOk result (HaveItemFaces printer.now.faces.now items.new.items) }
{
    folds_keep_all();
    let frames = printer.frames.pages.as_slice();
    let on_page = frames_on(frames, printer.per as usize, place);
    refill_from(alloc, printer, on_page, items)
}
