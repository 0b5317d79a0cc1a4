//! Which parts of a sheet have no reading.

ghost use Rattle.std.specs.Prelude.{◌≡◌, option_map, IfOk};
ghost use Rattle.css_rules.specs.Decls.{decl_in};
ghost use Rattle.unread_list.specs.Steps.{part_in};
ghost use Rattle.unread_list.specs.Reading as spec;

use crate::part::{Owner, Part};
use bk_num::name::NoMem;
use css_page::decls::{read_box_decl, read_page_decl};
use css_page::selectors::read_selectors as read_page_selectors;
use css_rules::decls::DeclSlice;
use css_values::decls::read_decl;
use selectors::grammar::read_selectors;
use std::alloc::Global;

/// Whether a declaration of an element has a reading.
fn is_read_element(alloc: Global, decl: &DeclSlice<'_>) -> Result<bool, NoMem>
    ensures { IfOk result (λ b. b ≡ spec.is_read_decl Owner.Elements (decl_in decl.now)) }
{
    Ok(read_decl(alloc, decl.name, decl.value)?.is_some())
}

/// Whether a declaration of a page has a reading.
fn is_read_page(alloc: Global, decl: &DeclSlice<'_>) -> Result<bool, NoMem>
    ensures { IfOk result (λ b. b ≡ spec.is_read_decl Owner.Page (decl_in decl.now)) }
{
    Ok(read_page_decl(alloc, decl)?.is_some())
}

/// Whether a declaration of a margin box has a reading.
fn is_read_box(alloc: Global, decl: &DeclSlice<'_>) -> Result<bool, NoMem>
    ensures { IfOk result (λ b. b ≡ spec.is_read_decl Owner.MarginBox (decl_in decl.now)) }
{
    Ok(read_box_decl(alloc, decl)?.is_some())
}

/// Whether a declaration has a reading.
fn is_read_decl(alloc: Global, owner: Owner, decl: &DeclSlice<'_>) -> Result<bool, NoMem>
    ensures { IfOk result (λ b. b ≡ spec.is_read_decl owner (decl_in decl.now)) }
{
    match owner {
        Owner::Elements => is_read_element(alloc, decl),
        Owner::Page => is_read_page(alloc, decl),
        Owner::MarginBox => is_read_box(alloc, decl),
    }
}

/// Whether a piece of a block is a declaration that has a reading.
fn is_read_piece(alloc: Global, owner: Owner, decl: &Option<DeclSlice<'_>>) -> Result<bool, NoMem>
    ensures { IfOk result (λ b. b ≡ spec.is_read_piece owner (option_map decl_in decl.now)) }
{
    match decl {
        Some(decl) => is_read_decl(alloc, owner, decl),
        None => Ok(false),
    }
}

/// Whether selectors of elements have a reading.
fn are_read(alloc: Global, text: &str) -> Result<bool, NoMem>
    ensures { IfOk result (λ b. b ≡ spec.are_read text.now) }
{
    Ok(read_selectors(alloc, text)?.is_some())
}

/// Whether page selectors have a reading.
fn are_read_pages(alloc: Global, text: &str) -> Result<bool, NoMem>
    ensures { IfOk result (λ b. b ≡ spec.are_read_pages text.now) }
{
    Ok(read_page_selectors(alloc, text)?.is_some())
}

/// Whether a part of a sheet has a reading.
pub(crate) fn is_read(alloc: Global, part: &Part<'_>) -> Result<bool, NoMem>
    ensures { IfOk result (λ b. b ≡ spec.is_read (part_in part.now)) }
{
    match part {
        Part::Selectors(text) => are_read(alloc, text),
        Part::PageSelectors(_, selectors) => are_read_pages(alloc, selectors),
        Part::Declaration(owner, _, decl) => is_read_piece(alloc, *owner, decl),
        Part::AtRule(_) | Part::Media(_) | Part::NoBlock(_) => Ok(false),
    }
}
