//! The sheets among a document's elements.
ghost use Rattle.std.specs.Prelude.{◌≡◌, ◌≤◌, ◌<◌, ◌++◌, [], length, IfOk, OnOk, string_bytes, unwrap_or, option_map};
ghost use Rattle.dom.specs.Nodes.{is_at, text_at};
ghost use Rattle.sheets.specs.Sheets.{is_style_name, media_of, is_sheet_element, text_under, child_text, element_sheets, sheet_at};

use bk_num::ids::NodeId;
use bk_num::name::NoMem;
use css_rules::media::media_read;
use dom::Dom;
use std::alloc::Global;

fn is_style_name(name: Option<&str>) -> bool
    ensures { result ≡ is_style_name (option_map (λ s. s.now) name.entry) }
{
    match name {
        Some(name) => name == "style",
        None => false,
    }
}

/// The media list of an element; none is empty.
pub fn media_of(dom: &Dom, node: NodeId) -> &str
    requires { node.0 < length dom.now }
    ensures { result.now ≡ media_of dom.now node.0 }
{
    match dom.attr(node, "media") {
        Some(media) => media,
        None => "",
    }
}

/// Whether a node is a `style` element whose media list is read.
#[tactic(auto, unfolding(crate::specs::Sheets::is_sheet_element))]
pub(crate) fn is_sheet_element(dom: &Dom, node: NodeId) -> bool
    requires { node.0 < length dom.now }
    ensures { result ≡ is_sheet_element dom.now node.0 }
{
    is_style_name(dom.name(node)) && media_read(media_of(dom, node))
}

fn is_at(node: NodeId, parent: Option<NodeId>) -> bool
    ensures { result ≡ is_at node.0 (option_map (λ n. n.0) parent) }
{
    match parent {
        Some(parent) => parent.0 == node.0,
        None => false,
    }
}

fn text_of(dom: &Dom, node: NodeId) -> &str
    requires { node.0 < length dom.now }
    ensures { result.now ≡ unwrap_or (text_at dom.now node.0) [] }
{
    match dom.text(node) {
        Some(text) => text,
        None => "",
    }
}

/// Appends what a node gives to an element's text.
fn push_under(out: &mut String, dom: &Dom, element: NodeId, node: NodeId) -> Result<(), NoMem>
    requires { node.0 < length dom.now }
    ensures { OnOk result (string_bytes out.new ≡ string_bytes out.old ++ text_under dom.now element.0 node.0) }
{
    if is_at(element, dom.parent(node)) {
        out.push_str(text_of(dom, node))?;
    }
    Ok(())
}

/// An element's text: those of its children, joined.
pub(crate) fn child_text(alloc: Global, dom: &Dom, element: NodeId) -> Result<String, NoMem>
    ensures { IfOk result (λ t. string_bytes t ≡ child_text dom.now element.0) }
{
    let mut text = String::new(alloc);
    for index in 0..dom.len() {
        push_under(&mut text, dom, element, NodeId(index))?;
    }
    Ok(text)
}

/// How many elements are sheets.
pub(crate) fn count_of_elements(dom: &Dom) -> u32
    ensures { result ≡ length (element_sheets dom.now) }
{
    let mut count = 0;
    for index in 0..dom.len() {
        count += count_at(dom, NodeId(index));
    }
    count
}

fn count_at(dom: &Dom, node: NodeId) -> u32
    requires { node.0 < length dom.now }
    ensures value { result ≡ length (sheet_at dom.now node.0) }
    ensures most { result ≤ 1 }
{
    if is_sheet_element(dom, node) { 1 } else { 0 }
}
