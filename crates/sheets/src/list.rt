//! The list of a document's sheets.
ghost use Rattle.std.specs.Prelude.{◌≡◌, ◌≤◌, ◌<◌, ◌++◌, map, length, OnOk, IfOk, IfSome, MatchOption};
ghost use Rattle.sheets.specs.Sheets.{element_sheets, sheet_at};
ghost use Rattle.sheets.specs.List.{sheet_in};

use crate::elements::{child_text, count_of_elements, is_sheet_element};
use bk_num::ids::NodeId;
use bk_num::items::{Items, Text};
use bk_num::name::NoMem;
use dom::Dom;
use std::alloc::Global;

/// A sheet of a document: its `style` element, and its text.
#[derive(Drop)]
pub struct ElementSheet {
    pub element: NodeId,
    pub text: Text,
}

/// Appends the sheet of a node, if it is one.
fn push_sheet(
    alloc: Global,
    sheets: &mut Vec<ElementSheet>,
    dom: &Dom,
    node: NodeId,
) -> Result<(), NoMem>
    requires { node.0 < length dom.now }
    ensures { OnOk result (map sheet_in sheets.new.items ≡ map sheet_in sheets.old.items ++ sheet_at dom.now node.0) }
{
    if is_sheet_element(dom, node) {
        let text = Text::of(child_text(alloc, dom, node)?);
        sheets.push(ElementSheet {
            element: node,
            text,
        })?;
    }
    Ok(())
}

/// The sheets of a document in tree order: its `style` elements whose `media` is read, each with its text
/// (HTML, 4.2.6). None exactly where they are more than `most`.
pub fn list_sheets(
    alloc: Global,
    dom: &Dom,
    most: u32,
) -> Result<Option<Items<ElementSheet>>, NoMem>
    ensures list { IfOk result
        (λ found. MatchOption found (most < length (element_sheets dom.now))
        (λ sheets. map sheet_in sheets ≡ element_sheets dom.now)) }
    ensures few { IfOk result (λ found. IfSome found (λ sheets. length sheets ≤ most)) }
{
    if most < count_of_elements(dom) {
        return Ok(None);
    }
    let mut sheets = Vec::new(alloc);
    for index in 0..dom.len() {
        push_sheet(alloc, &mut sheets, dom, NodeId(index))?;
    }
    Ok(Some(Items::of(sheets)))
}
