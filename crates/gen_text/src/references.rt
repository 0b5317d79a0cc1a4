//! The elements that page references lead to.

ghost use Rattle.std.specs.Prelude.{◌≡◌, ◌<◌, ◌^◌, [], ◌∷◌, IfOk, IfSome, Some, false, option_map, length, replicate};
ghost use Rattle.dom.specs.Nodes.{IsTree};
ghost use Rattle.std.specs.List.{flat_map};
ghost use Rattle.style.specs.Nodes.{style_at};
ghost use Rattle.gen_text.specs.Target.{IsTarget};
ghost use Rattle.gen_text.specs.References.{AreMarked, AreTargets, MarkedBelow, Marks, links_by, links_in_some, links_of, page_links};

use crate::target::target;
use bk_num::ids::NodeId;
use bk_num::items::Items;
use bk_num::name::NoMem;
use bk_num::values::Pseudo;
use dom::Dom;
use std::alloc::Global;
use style::content::{Content, Link, Part};
use style::lists::is_page_counter;
use style::styles::Styles;

/// The shown elements that page references lead to, ascending, each once. A page reference is `target-counter()` with
/// the counter `page`, in the content of a pseudo-element that is there (css-gcpm-3). It costs a look-up of an id for
/// each.
pub fn targets(alloc: Global, dom: &Dom, styles: &Styles) -> Result<Items<NodeId>, NoMem>
    ensures { IfOk result (λ list. AreTargets dom.now styles.now list) }
{
    let mut marks = vec![in alloc; false; dom.len() as usize]?;
    mark_all(dom, styles, &mut marks);
    marked(alloc, &marks)
}

/// Marks what page references lead to.
fn mark_all(dom: &Dom, styles: &Styles, marks: &mut [bool])
    requires { marks.old ≡ replicate (length dom.now) false }
    ensures len { length marks.new ≡ length dom.now }
    ensures marks { MarkedBelow dom.now styles.now (length dom.now) marks.new }
{
    for index in 0..dom.len() {
        mark_node(dom, styles, NodeId(index), marks);
    }
}

/// Marks what the page references of a node's pseudo-elements lead to.
fn mark_node(dom: &Dom, styles: &Styles, node: NodeId, marks: &mut [bool])
    requires node { node.0 < length dom.now }
    requires len { length marks.old ≡ length dom.now }
    ensures len { length marks.new ≡ length dom.now }
    ensures marks { Marks dom.now styles.now node.0 (page_links styles.now node.0) marks.old marks.new }
{
    mark_pseudo(dom, styles, node, Pseudo::Before, marks);
    mark_pseudo(dom, styles, node, Pseudo::After, marks);
    mark_pseudo(dom, styles, node, Pseudo::Call, marks);
    mark_pseudo(dom, styles, node, Pseudo::Marker, marks);
}

fn mark_pseudo(dom: &Dom, styles: &Styles, node: NodeId, pseudo: Pseudo, marks: &mut [bool])
    requires node { node.0 < length dom.now }
    requires len { length marks.old ≡ length dom.now }
    ensures len { length marks.new ≡ length dom.now }
    ensures marks { Marks dom.now styles.now node.0 (links_of (style_at styles.now node.0 pseudo)) marks.old marks.new }
{
    if let Some(style) = styles.of(node, pseudo) {
        mark_some(dom, styles, node, &style.content, marks);
    }
}

fn mark_some(
    dom: &Dom,
    styles: &Styles,
    node: NodeId,
    content: &Option<Content>,
    marks: &mut [bool],
)
    requires node { node.0 < length dom.now }
    requires len { length marks.old ≡ length dom.now }
    ensures len { length marks.new ≡ length dom.now }
    ensures marks { Marks dom.now styles.now node.0 (links_in_some content.now) marks.old marks.new }
{
    if let Some(content) = content {
        mark_parts(dom, styles, node, content.as_slice(), marks);
    }
}

fn mark_parts(dom: &Dom, styles: &Styles, node: NodeId, parts: &[Part], marks: &mut [bool])
    requires node { node.0 < length dom.now }
    requires len { length marks.old ≡ length dom.now }
    ensures len { length marks.new ≡ length dom.now }
    ensures marks { Marks dom.now styles.now node.0 (flat_map links_by parts.now) marks.old marks.new }
{
    for part in parts {
        mark_part(dom, styles, node, part, marks);
    }
}

fn mark_part(dom: &Dom, styles: &Styles, node: NodeId, part: &Part, marks: &mut [bool])
    requires node { node.0 < length dom.now }
    requires len { length marks.old ≡ length dom.now }
    ensures len { length marks.new ≡ length dom.now }
    ensures marks { Marks dom.now styles.now node.0 (links_by part.now) marks.old marks.new }
{
    if let Part::Target(link, name, _) = part {
        if is_page_counter(name.as_str()) {
            mark_target(dom, styles, node, link, marks);
        }
    }
}

fn mark_target(dom: &Dom, styles: &Styles, node: NodeId, link: &Link, marks: &mut [bool])
    requires node { node.0 < length dom.now }
    requires len { length marks.old ≡ length dom.now }
    ensures len { length marks.new ≡ length dom.now }
    ensures marks { Marks dom.now styles.now node.0 (link.now ∷ []) marks.old marks.new }
{
    if let Some(target) = in_document(dom, styles, node, link) {
        marks[target.0 as usize] = true;
    }
}

/// What a link leads to, which is a node of the document.
fn in_document(dom: &Dom, styles: &Styles, node: NodeId, link: &Link) -> Option<NodeId>
    requires { node.0 < length dom.now }
    ensures target { IsTarget dom.now styles.now node.0 link.now (option_map (λ n. n.0) result) }
    ensures within { IfSome result (λ n. n.0 < length dom.now) }
    ensures tree { IsTree dom.now }
{
    // a document is a tree
    let _ = dom.len();
    target(dom, styles, node, link)
}

/// The marked nodes.
fn marked(alloc: Global, marks: &[bool]) -> Result<Items<NodeId>, NoMem>
    requires { length marks.now < 2 ^ 32 }
    ensures { IfOk result (λ list. AreMarked marks.now list) }
{
    let mut list = Vec::new(alloc);
    for (index, mark) in marks.iter().enumerate() {
        if *mark {
            list.push(NodeId(index as u32))?;
        }
    }
    Ok(Items::of(list))
}
