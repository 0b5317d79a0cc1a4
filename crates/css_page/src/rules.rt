//! Page rules with their selectors and values read.

ghost use Rattle.std.specs.Prelude.{◌≡◌, map, IfOk};
ghost use Rattle.std.specs.List.{filter_map};
ghost use Rattle.css_rules.specs.Pages.{box_in, page_in};
ghost use Rattle.css_page.specs.Rules as spec;

use crate::decls::read_decls;
use crate::properties::PageContext;
use crate::selectors::{PageSelector, read_selectors};
use crate::values::PageDecl;
use bk_num::items::Items;
use bk_num::name::NoMem;
use css_rules::decls::DeclSlice;
use css_rules::margin_boxes::margin_box_number;
use css_rules::pages::PageSlice;
use std::alloc::Global;

/// The number of a margin box, and its declarations.
pub type BoxDecls = (u8, Items<PageDecl>);

/// A page rule: the selectors of the pages that it is for, its declarations, and those of its margin boxes, which are
/// numbered from 0 in the order in which they are listed.
#[derive(Drop)]
pub struct PageRule {
    pub selectors: Items<PageSelector>,
    pub decls: Items<PageDecl>,
    pub boxes: Items<BoxDecls>,
}

fn read_box(alloc: Global, slice: &(&str, Vec<DeclSlice<'_>>)) -> Result<Option<BoxDecls>, NoMem>
    ensures { IfOk result (λ read. read ≡ spec.box_of (box_in slice.now)) }
{
    match margin_box_number(slice.0) {
        Some(number) => {
            let decls = read_decls(alloc, PageContext::MarginBox, &slice.1)?;
            Ok(Some((number, decls)))
        }
        None => Ok(None),
    }
}

fn read_boxes(
    alloc: Global,
    slices: &[(&str, Vec<DeclSlice<'_>>)],
) -> Result<Items<BoxDecls>, NoMem>
    ensures { IfOk result (λ boxes. boxes ≡ filter_map spec.box_of (map box_in slices.now)) }
{
    let mut boxes = Items::new(alloc);
    for slice in slices {
        if let Some(read) = read_box(alloc, slice)? {
            boxes.push(read)?;
        }
    }
    Ok(boxes)
}

/// Reads a page rule. None exactly where its page selectors have no reading. Declarations without a reading are left
/// out: those of properties that a page or a margin box doesn't take, and those whose value their grammar doesn't
/// read. It takes time in proportion to the rule's text.
pub fn read_page_rule(alloc: Global, slice: &PageSlice<'_>) -> Result<Option<PageRule>, NoMem>
    ensures { IfOk result (λ rule. rule ≡ spec.rule_of (page_in slice.now)) }
{
    let Some(selectors) = read_selectors(alloc, slice.selectors)? else {
        return Ok(None);
    };
    let decls = read_decls(alloc, PageContext::Page, &slice.decls)?;
    let boxes = read_boxes(alloc, &slice.boxes)?;
    Ok(Some(PageRule {
        selectors,
        decls,
        boxes,
    }))
}
