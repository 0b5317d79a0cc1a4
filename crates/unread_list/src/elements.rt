//! Elements that do nothing.

ghost use Rattle.std.specs.Prelude.{◌≡◌, ◌<◌, ◌++◌, codes, map, length, IfOk, OnOk};
ghost use Rattle.dom.specs.Nodes.{attribute_at, name_at};
ghost use Rattle.gen_text.specs.Target.{id_of};
ghost use Rattle.sheets.specs.Sheets.{media_of};
ghost use Rattle.css_tok.specs.Tokens.{tokens_of};
ghost use Rattle.css_rules.specs.Media.{is_media_list};
ghost use Rattle.unread_list.specs.Elements as spec;
ghost use Rattle.unread_list.specs.IdleViews.{idle_in};

use bk_num::ids::NodeId;
use bk_num::name::NoMem;
use css_rules::media::media_read;
use dom::Dom;
use gen_text::target::id_of;
use sheets::media_of;
use std::alloc::Global;

/// Why an element does nothing.
#[derive(Clone, Copy, PartialEq, Eq)]
pub enum Idle {
    /// A `link`: no sheet and no file is fetched.
    Link,
    /// An `img` without `alt`: no picture is set.
    Image,
    /// A `table`: its cells are set as blocks.
    Table,
    /// A `style` whose media list isn't read.
    Style,
    /// An element whose `href` is `#` and an id that no element has: a page reference that goes through it has no
    /// target.
    Reference,
}

/// An element that does nothing, and why.
#[derive(Clone, Copy)]
pub struct IdleElement {
    pub element: NodeId,
    pub why: Idle,
}

/// Whether the media list of a `style` element is read.
fn is_for_print(dom: &Dom, node: NodeId) -> bool
    requires { node.0 < length dom.now }
    ensures { result ≡ is_media_list (tokens_of (media_of dom.now node.0)) }
{
    media_read(media_of(dom, node))
}

/// Why an element of a name does nothing, if it does.
fn idle_named(dom: &Dom, node: NodeId, name: &str) -> Option<Idle>
    requires { node.0 < length dom.now }
    ensures { result ≡ spec.idle_named dom.now node.0 name.now }
{
    if name == "link" {
        Some(Idle::Link)
    } else if name == "table" {
        Some(Idle::Table)
    } else if name == "img" {
        if dom.attr(node, "alt").is_some() {
            None
        } else {
            Some(Idle::Image)
        }
    } else if name == "style" {
        if is_for_print(dom, node) {
            None
        } else {
            Some(Idle::Style)
        }
    } else {
        None
    }
}

/// Whether an element has an id.
fn has_some(dom: &Dom, id: &str) -> bool
    ensures { result ≡ spec.has_some dom.now id.now }
{
    match dom.by_id(id) {
        Some(_) => true,
        None => false,
    }
}

/// Whether an address is `#` and an id that no element has.
fn is_missing(dom: &Dom, address: &str) -> bool
    ensures { result ≡ spec.is_missing dom.now (id_of address.now) }
{
    match id_of(address) {
        Some(id) => !has_some(dom, id),
        None => false,
    }
}

/// An element whose `href` has no target is one that does nothing.
fn idle_reference(dom: &Dom, node: NodeId) -> Option<Idle>
    requires { node.0 < length dom.now }
    ensures { result ≡ spec.reference_idle dom.now (attribute_at dom.now node.0 (codes "href")) }
{
    match dom.attr(node, "href") {
        Some(address) if is_missing(dom, address) => Some(Idle::Reference),
        _ => None,
    }
}

/// Why a node does nothing by its name, if it is an element that does.
fn idle_by_name(dom: &Dom, node: NodeId) -> Option<Idle>
    requires { node.0 < length dom.now }
    ensures { result ≡ spec.idle_by dom.now node.0 (name_at dom.now node.0) }
{
    match dom.name(node) {
        Some(name) => idle_named(dom, node, name),
        None => None,
    }
}

/// Why a node does nothing, if it is an element that does.
fn idle_at(dom: &Dom, node: NodeId) -> Option<Idle>
    requires { node.0 < length dom.now }
    ensures { result ≡ spec.idle_at dom.now node.0 }
{
    match idle_by_name(dom, node) {
        Some(why) => Some(why),
        None => idle_reference(dom, node),
    }
}

/// Appends a node, if it is an element that does nothing.
fn push_idle(dom: &Dom, node: NodeId, found: &mut Vec<IdleElement>) -> Result<(), NoMem>
    requires { node.0 < length dom.now }
    ensures { OnOk result (map idle_in found.new.items ≡
        map idle_in found.old.items ++ spec.numbered node.0 (spec.idle_at dom.now node.0)) }
{
    if let Some(why) = idle_at(dom, node) {
        found.push(IdleElement { element: node, why })?;
    }
    Ok(())
}

/// The elements of a document that do nothing, in tree order: each `link`, each `table`, each `img` without `alt`, each
/// `style` whose media list isn't read, and of the others each whose `href` is `#` and an id that no element has.
pub fn idle_elements(alloc: Global, dom: &Dom) -> Result<Vec<IdleElement>, NoMem>
    ensures { IfOk result (λ v. map idle_in v.items ≡ spec.idle_elements dom.now) }
{
    let mut found = Vec::new(alloc);
    for index in 0..dom.len() {
        push_idle(dom, NodeId(index), &mut found)?;
    }
    Ok(found)
}
