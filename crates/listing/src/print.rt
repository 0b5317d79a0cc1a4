//! Prints a page list to a sink.

ghost use Rattle.std.specs.Prelude.{◌≡◌, ◌++◌, ◌<◌, length, IfOk, IsOk, OnOk};
ghost use Rattle.std.specs.List.{flat_map, range_with_len};
ghost use Rattle.listing.specs.Printed.{listing_of, page_bytes};
ghost use Rattle.listing.specs.Printer.{CanPrint, view_of};
ghost use Rattle.margin_box.specs.Chosen.{AreChosen};
ghost use Rattle.listing.specs.Puts.{HasPutCause, Puts};

use crate::listing_bytes::ListingBytes;
use crate::pages::{Printer, head_of, margin_texts, page_at, refill_items};
use crate::write::{write_end, write_head, write_page};
use bk_io::put_all::put_all;
use bk_io::sink::{Failed, Sink};
use bk_num::name::NoMem;
use margin_box::faces::MarginFaces;
use paint::item::ItemRef;
use std::alloc::Global;
use thiserror::Error;

/// Why a page list isn't printed: a put failed, or memory ran out before the first put.
#[derive(Clone, Copy, Debug, PartialEq, Eq, Error)]
pub enum PrintErr {
    #[error("cannot write")]
    Failed,
    #[error("no memory")]
    NoMemory,
}

impl From<NoMem> for PrintErr {
    ghost use Rattle.std.specs.Prelude.{◌≡◌};
    ghost use Rattle.listing.specs.declared.print.PrintErr.TheVariants.{NoMemory};

    ghost from_gives = { λ _ e. e ≡ NoMemory };

    fn from(_e: NoMem) -> PrintErr {
        PrintErr::NoMemory
    }
}

impl From<Failed> for PrintErr {
    ghost use Rattle.std.specs.Prelude.{◌≡◌};
    ghost use Rattle.listing.specs.declared.print.PrintErr.TheVariants as err;

    ghost from_gives = { λ _ e. e ≡ err.Failed };

    fn from(_e: Failed) -> PrintErr {
        PrintErr::Failed
    }
}

/// The answer of a write into memory, which fails only where none is left.
fn kept(written: Result<(), Failed>) -> Result<(), NoMem>
    ensures { OnOk result (IsOk written) }
{
    written.map_err(|_| NoMem)
}

/// How many pages there are.
fn count_of(printer: &Printer<'_>) -> u32
    requires { CanPrint printer.now }
    ensures { result ≡ length printer.now.list.now.pages }
{
    printer.list.pages.as_slice().len() as u32
}

/// Adds the page at a place of the list to a listing. Its items take the memory of those of the page before it, and the
/// faces that its margin boxes choose are kept for the pages after it.
fn add_page<'a>(
    alloc: Global,
    printer: &Printer<'a>,
    place: usize,
    items: &mut Vec<ItemRef<'a>>,
    chosen: &mut MarginFaces,
    listing: &mut ListingBytes,
) -> Result<(), NoMem>
    requires printer { CanPrint printer.now }
    requires chosen { AreChosen printer.now.faces.now printer.now.styles.now.boxes chosen.old }
    requires place { place < length printer.now.list.now.pages }
    ensures bytes { OnOk result (listing.new.bytes.items ≡ listing.old.bytes.items
        ++ page_bytes (view_of printer.now) printer.now.list.now.pages place) }
    ensures chosen { AreChosen printer.now.faces.now printer.now.styles.now.boxes chosen.new }
{
    let page = page_at(printer.list.pages.as_slice(), place);
    let head = head_of(printer, page, place);
    refill_items(alloc, printer, place, items)?;
    let texts = margin_texts(alloc, printer, chosen, place)?;
    kept(write_page(
        listing,
        printer.faces,
        head,
        items.as_slice(),
        texts.as_slice(),
    ))
}

/// Adds the pages of the list to a listing, one after the other.
fn add_pages(alloc: Global, printer: &Printer<'_>, listing: &mut ListingBytes) -> Result<(), NoMem>
    requires { CanPrint printer.now }
    ensures { OnOk result (listing.new.bytes.items ≡ listing.old.bytes.items
        ++ flat_map (page_bytes (view_of printer.now) printer.now.list.now.pages)
        (range_with_len 0 (length printer.now.list.now.pages))) }
{
    let count = printer.list.pages.as_slice().len();
    let mut items = Vec::new(alloc);
    let mut chosen = MarginFaces::new(alloc);
    for place in 0..count {
        add_page(alloc, printer, place, &mut items, &mut chosen, listing)?;
    }
    Ok(())
}

/// The listing of a page list.
fn listing_of(alloc: Global, printer: &Printer<'_>) -> Result<ListingBytes, NoMem>
    requires { CanPrint printer.now }
    ensures { IfOk result (λ l. l.bytes.items ≡ listing_of (view_of printer.now) printer.now.list.now.pages) }
{
    let mut listing = ListingBytes::new(alloc);
    kept(write_head(&mut listing, count_of(printer), printer.passes))?;
    add_pages(alloc, printer, &mut listing)?;
    kept(write_end(&mut listing))?;
    Ok(listing)
}

/// Puts the listing of a page list. All of it is made in memory before the first put; what a page prints is made,
/// written there, and let go before the next page.
///
/// # Errors
///
/// `NoMemory`, and then nothing was put; `Failed` where a put failed, and then a prefix of the listing was.
pub fn print<O: Sink>(alloc: Global, printer: &Printer<'_>, out: &mut O) -> Result<(), PrintErr>
    requires { CanPrint printer.now }
    ensures bytes { Puts (O.taken out.old) (O.taken out.new)
        (listing_of (view_of printer.now) printer.now.list.now.pages) result }
    ensures cause { HasPutCause (O.faults out.old) (O.faults out.new) result }
{
    let listing = listing_of(alloc, printer)?;
    put_all(out, listing.as_slice())?;
    Ok(())
}
