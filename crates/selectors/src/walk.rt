//! Walks over the nodes beside a node.

ghost use Rattle.std.specs.Prelude.{◌≡◌, ◌<◌, length, option_map, is_some, false, IfSome};
ghost use Rattle.dom.specs.Nodes.{parents_of, parent_at, first_child_of, is_element_at};
ghost use Rattle.selectors.specs.Walk as spec;

use bk_num::ids::NodeId;
use dom::Dom;

/// A way along the siblings of a node.
#[derive(Clone, Copy, Debug)]
pub enum Way {
    Before,
    After,
}

/// What is asked of a sibling of a node.
#[derive(Clone, Copy, Debug)]
pub enum Ask {
    /// An element.
    Element,
    /// An element of the node's type.
    SameType,
    /// An element, or a text of at least one character.
    Content,
}

fn same_type(dom: &Dom, node: NodeId, other: NodeId) -> bool
    requires node { node.0 < length dom.now }
    requires other { other.0 < length dom.now }
    ensures { result ≡ spec.same_type dom.now node.0 other.0 }
{
    match (dom.name(other), dom.name(node)) {
        (Some(a), Some(b)) => a == b,
        _ => false,
    }
}

fn is_content(dom: &Dom, node: NodeId) -> bool
    requires { node.0 < length dom.now }
    ensures { result ≡ spec.is_content dom.now node.0 }
{
    is_element(dom, node)
        || match dom.text(node) {
            Some(text) => !text.is_empty(),
            None => false,
        }
}

pub(crate) fn is_element(dom: &Dom, node: NodeId) -> bool
    requires { node.0 < length dom.now }
    ensures { result ≡ is_element_at dom.now node.0 }
{
    dom.name(node).is_some()
}

/// The parent of a node, which has a lesser number.
pub fn parent(dom: &Dom, node: NodeId) -> Option<NodeId>
    requires { node.0 < length dom.now }
    ensures value { option_map (λ n. n.0) result ≡ parent_at (parents_of dom.now) node.0 }
    ensures below { IfSome result (λ p. p.0 < node.0) }
{
    // Its clause says that the nodes are a tree, so that a parent has a lesser number.
    let _len = dom.len();
    dom.parent(node)
}

/// The sibling just before or just after a node.
fn beside(dom: &Dom, way: Way, node: NodeId) -> Option<NodeId>
    requires { node.0 < length dom.now }
    ensures value { option_map (λ n. n.0) result ≡ spec.beside dom.now way node.0 }
    ensures within { IfSome result (λ m. m.0 < length dom.now) }
{
    match way {
        Way::Before => dom.prev_sibling(node),
        Way::After => dom.next_sibling(node),
    }
}

fn first_child(dom: &Dom, node: NodeId) -> Option<NodeId>
    requires { node.0 < length dom.now }
    ensures value { option_map (λ n. n.0) result ≡ first_child_of (parents_of dom.now) node.0 }
    ensures within { IfSome result (λ m. m.0 < length dom.now) }
{
    dom.first_child(node)
}

fn asks(dom: &Dom, ask: Ask, node: NodeId, sibling: NodeId) -> bool
    requires node { node.0 < length dom.now }
    requires sibling { sibling.0 < length dom.now }
    ensures { result ≡ spec.asks dom.now ask node.0 sibling.0 }
{
    match ask {
        Ask::Element => is_element(dom, sibling),
        Ask::SameType => same_type(dom, node, sibling),
        Ask::Content => is_content(dom, sibling),
    }
}

/// The first node along a way, from a first one, of which the answer is yes. The number bounds the steps.
fn first_such(
    dom: &Dom,
    way: Way,
    first: Option<NodeId>,
    steps: u32,
    ask: Ask,
    node: NodeId,
) -> Option<NodeId>
    requires node { node.0 < length dom.now }
    requires first { IfSome first (λ m. m.0 < length dom.now) }
    ensures value { option_map (λ n. n.0) result ≡
        spec.first_asked dom.now ask node.0 way steps (option_map (λ n. n.0) first) }
    ensures within { IfSome result (λ m. m.0 < length dom.now) }
{
    let mut left = first;
    'steps: for turn in 0..steps {
        let Some(sibling) = left else {
            return None;
        };
        if asks(dom, ask, node, sibling) {
            return Some(sibling);
        }
        left = beside(dom, way, sibling);
    }
    None
}

/// Whether an element of the node's type stands before it or after it.
#[tactic(auto, unfolding(crate::specs::Walk::siblings_before, crate::specs::Walk::siblings_after))]
pub(crate) fn has_same_type(dom: &Dom, way: Way, node: NodeId) -> bool
    requires { node.0 < length dom.now }
    ensures { result ≡ is_some (spec.first_such (spec.same_type dom.now node.0) (spec.siblings dom.now way node.0)) }
{
    let steps = match way {
        Way::Before => node.0,
        Way::After => dom.len(),
    };
    first_such(dom, way, beside(dom, way, node), steps, Ask::SameType, node).is_some()
}

/// Whether a node has an element below it, or a text of at least one character.
#[tactic(auto, unfolding(crate::specs::Walk::children))]
pub(crate) fn has_content(dom: &Dom, node: NodeId) -> bool
    requires { node.0 < length dom.now }
    ensures { result ≡ is_some (spec.first_such (spec.is_content dom.now) (spec.children dom.now node.0)) }
{
    first_such(
        dom,
        Way::After,
        first_child(dom, node),
        dom.len(),
        Ask::Content,
        node,
    )
    .is_some()
}

/// The element sibling just before a node, which has a lesser number.
#[tactic(auto, unfolding(crate::specs::Walk::prev_element, crate::specs::Walk::siblings_before))]
pub fn prev_element(dom: &Dom, node: NodeId) -> Option<NodeId>
    requires { node.0 < length dom.now }
    ensures { option_map (λ n. n.0) result ≡ spec.prev_element dom.now node.0 }
{
    let first = beside(dom, Way::Before, node);
    first_such(dom, Way::Before, first, node.0, Ask::Element, node)
}
