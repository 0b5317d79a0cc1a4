//! The declarations of page rules and of margin boxes.

ghost use Rattle.std.specs.Prelude.{◌≡◌, map, IfOk};
ghost use Rattle.std.specs.List.{filter_map};
ghost use Rattle.css_rules.specs.Decls.{decl_in};
ghost use Rattle.css_page.specs.Decls as spec;

use crate::properties::{OwnProperty, PageContext, PageGrammar, grammar_of, read_own};
use crate::values::{PageDecl, PageLong};
use bk_num::items::Items;
use bk_num::name::NoMem;
use css_rules::decls::DeclSlice;
use css_values::decls::read_decl;
use css_words::reader::{Reader, Skipped};
use css_words::unread::Unread;
use std::alloc::Global;
use style::long::Long;

/// A declared value of an element as one of a page, where a page has it.
fn page_long(long: Long) -> Option<PageLong>
    ensures { result ≡ spec.page_long long }
{
    match long {
        Long::MarginTop(given) => Some(PageLong::MarginTop(given)),
        Long::MarginRight(given) => Some(PageLong::MarginRight(given)),
        Long::MarginBottom(given) => Some(PageLong::MarginBottom(given)),
        Long::MarginLeft(given) => Some(PageLong::MarginLeft(given)),
        Long::Color(given) => Some(PageLong::Color(given)),
        Long::FontFamily(given) => Some(PageLong::FontFamily(given)),
        Long::FontSize(given) => Some(PageLong::FontSize(given)),
        Long::FontStyle(given) => Some(PageLong::FontStyle(given)),
        Long::FontWeight(given) => Some(PageLong::FontWeight(given)),
        Long::LineHeight(given) => Some(PageLong::LineHeight(given)),
        _ => None,
    }
}

fn page_longs(alloc: Global, longs: Items<Long>) -> Result<Items<PageLong>, NoMem>
    ensures { IfOk result (λ found. found ≡ filter_map (λ long. spec.page_long long) longs) }
{
    let longs = longs.into_vec().into_iter();
    let found = longs.filter_map(|long| page_long(long)).collect(alloc)?;
    Ok(Items::of(found))
}

/// Reads a value of a property that elements have too.
fn read_shared(alloc: Global, name: &str, value: &str) -> Result<Option<Items<PageLong>>, NoMem>
    ensures { IfOk result (λ longs. longs ≡ spec.read_shared name.now value.now) }
{
    match read_decl(alloc, name, value)? {
        Some(decl) => Ok(Some(page_longs(alloc, decl.longs)?)),
        None => Ok(None),
    }
}

fn alone(alloc: Global, long: PageLong) -> Result<Items<PageLong>, NoMem>
    ensures { IfOk result (λ longs. longs ≡ spec.alone long) }
{
    let mut longs = Items::new(alloc);
    longs.push(long)?;
    Ok(longs)
}

/// Reads a value of a property with values of its own.
fn read_other(
    alloc: Global,
    property: OwnProperty,
    value: &str,
) -> Result<Option<Items<PageLong>>, NoMem>
    ensures { IfOk result (λ longs. longs ≡ spec.read_other property value.now) }
{
    let mut reader = Reader::new(value, Skipped::CommentsAndSpaces);
    match read_own(alloc, &mut reader, property) {
        Ok(long) => Ok(Some(alone(alloc, long)?)),
        Err(Unread::NoReading) => Ok(None),
        Err(Unread::NoMemory) => Err(NoMem),
    }
}

fn read_longs(
    alloc: Global,
    context: PageContext,
    slice: &DeclSlice<'_>,
) -> Result<Option<Items<PageLong>>, NoMem>
    ensures { IfOk result (λ longs. longs ≡ spec.longs_of context (decl_in slice.now)) }
{
    match grammar_of(context, slice.name) {
        Some(PageGrammar::Shared) => read_shared(alloc, slice.name, slice.value),
        Some(PageGrammar::Own(property)) => read_other(alloc, property, slice.value),
        None => Ok(None),
    }
}

fn read_one(
    alloc: Global,
    context: PageContext,
    slice: &DeclSlice<'_>,
) -> Result<Option<PageDecl>, NoMem>
    ensures { IfOk result (λ decl. decl ≡ spec.decl_of context (decl_in slice.now)) }
{
    match read_longs(alloc, context, slice)? {
        Some(longs) => Ok(Some(PageDecl {
            longs,
            important: slice.important,
        })),
        None => Ok(None),
    }
}

/// Reads a declaration of a page; None exactly where it has no reading.
pub fn read_page_decl(alloc: Global, slice: &DeclSlice<'_>) -> Result<Option<PageDecl>, NoMem>
    ensures { IfOk result (λ decl. decl ≡ spec.page_decl (decl_in slice.now)) }
{
    read_one(alloc, PageContext::Page, slice)
}

/// Reads a declaration of a margin box; None exactly where it has no reading.
pub fn read_box_decl(alloc: Global, slice: &DeclSlice<'_>) -> Result<Option<PageDecl>, NoMem>
    ensures { IfOk result (λ decl. decl ≡ spec.box_decl (decl_in slice.now)) }
{
    read_one(alloc, PageContext::MarginBox, slice)
}

/// Reads the declarations of a page or of a margin box, without those that have no reading.
pub(crate) fn read_decls(
    alloc: Global,
    context: PageContext,
    slices: &[DeclSlice<'_>],
) -> Result<Items<PageDecl>, NoMem>
    ensures { IfOk result (λ decls. decls ≡ filter_map (spec.decl_of context) (map decl_in slices.now)) }
{
    let mut decls = Items::new(alloc);
    for slice in slices {
        if let Some(decl) = read_one(alloc, context, slice)? {
            decls.push(decl)?;
        }
    }
    Ok(decls)
}
