//! Whether a selector matches a node: one pass from the node to the root, over sets of compounds.

ghost use Rattle.std.specs.Prelude.{◌≡◌, ◌<◌, ◌≤◌, ◌+◌, ◌&&◌, ◌↔◌, ℕ, suc, true};
ghost use Rattle.std.specs.Prelude.{length, option_map, Some, None, if◌then◌else◌, ◌==◌, IsTrue, IfNone, IfSome};
ghost use Rattle.selectors.specs.Match.{Matches, fits, is_join, joins_by, parent_of};
ghost use Rattle.selectors.specs.Sets as sets;
ghost use Rattle.selectors.specs.Walk.{prev_element};

use crate::document::TypedDocument;
use crate::fits::fits_compound;
use crate::sets::{has, union, with};
use crate::types::{Join, Selector};
use crate::walk::{parent, prev_element};
use bk_num::ids::NodeId;
use dom::Dom;

/// Whether a node fits the compound at a place.
#[tactic(auto, unfolding(crate::specs::Match::fits))]
fn fits(selector: &Selector, at: usize, document: &TypedDocument<'_>, node: NodeId) -> bool
    requires within { at < length selector.now.parts }
    requires node { node.0 < length document.now }
    ensures { result ≡ fits document.now selector.now at node.0 }
{
    match selector.parts().get(at) {
        Some(compound) => fits_compound(document, node, compound),
        None => false,
    }
}

/// Whether two combinators are the same.
fn is_join(join: Join, other: Join) -> bool
    ensures { result ≡ is_join join other }
{
    match join {
        Join::Child => matches!(other, Join::Child),
        Join::Inside => matches!(other, Join::Inside),
        Join::Next => matches!(other, Join::Next),
        Join::Later => matches!(other, Join::Later),
    }
}

/// Whether this combinator comes after a compound.
#[tactic(auto, unfolding(crate::specs::Match::joins_by))]
pub fn joins_by(selector: &Selector, join: Join, at: usize) -> bool
    ensures { result ≡ joins_by selector.now join at }
{
    match selector.joins().get(at) {
        Some(found) => is_join(join, *found),
        None => false,
    }
}

/// The number of compounds.
pub fn count(selector: &Selector) -> usize
    ensures count { result ≡ length selector.now.parts }
    ensures few { result ≤ 16 }
    ensures joins { result ≡ length selector.now.joins + 1 }
{
    selector.parts().len()
}

/// The wanted compounds that a node fits.
#[tactic(auto, using(crate::proofs::SetLemmas::has_none))]
pub fn fitting(selector: &Selector, document: &TypedDocument<'_>, node: NodeId, wanted: u16) -> u16
    requires { node.0 < length document.now }
    ensures { (k : ℕ) → sets.has result k ≡ (sets.has wanted k && fits document.now selector.now k node.0) }
{
    let mut found = 0;
    for k in 0..count(selector) {
        if has(wanted, k) && fits(selector, k, document, node) {
            found = with(found, k);
        }
    }
    found
}

/// The compounds that stand before a found one by this join.
#[tactic(auto, using(crate::proofs::SetLemmas::has_none))]
fn before(selector: &Selector, join: Join, found: u16) -> u16
    ensures { (k : ℕ) → sets.has result k ≡ (joins_by selector.now join k && sets.has found (suc k)) }
{
    let mut wanted = 0;
    for k in 1..count(selector) {
        if joins_by(selector, join, k - 1) && has(found, k) {
            wanted = with(wanted, k - 1);
        }
    }
    wanted
}

/// The element sibling before a node, if a compound is wanted there.
#[tactic(auto, using(crate::proofs::SetLemmas::has_none))]
fn wanted_prev(document: &TypedDocument<'_>, node: NodeId, wanted: u16) -> Option<NodeId>
    requires { node.0 < length document.now }
    ensures none { IfNone result ((k : ℕ) → sets.has wanted k ≡ true → prev_element document.now node.0 ≡ None) }
    ensures some { IfSome result (λ p. prev_element document.now node.0 ≡ Some p.0) }
    ensures value { option_map (λ n. n.0) result ≡ (if wanted == 0 then None else prev_element document.now node.0) }
    ensures below { IfSome result (λ p. p.0 < node.0) }
    ensures row { IfSome result (λ p. parent_of document.now p.0 ≡ parent_of document.now node.0) }
{
    if wanted == 0 {
        None
    } else {
        prev_element(document.dom(), node)
    }
}

/// The parent of a node, which has a lesser number.
pub fn parent_of(document: &TypedDocument<'_>, node: NodeId) -> Option<NodeId>
    requires { node.0 < length document.now }
    ensures value { option_map (λ n. n.0) result ≡ parent_of document.now node.0 }
    ensures below { IfSome result (λ p. p.0 < node.0) }
{
    parent(document.dom(), node)
}

/// Whether a selector matches a node (Selectors 3, 8): nodes for all its compounds exist, the last is the
/// node, each fits its compound, and neighbours stand in the relation of their combinator. It takes no
/// memory and goes once from the node towards the root, as long as a compound is wanted there, and along the
/// siblings before a node of that way only where a `+` or `~` asks for them; on each node it tries at most
/// sixteen compounds. So a `~` over a row
/// of n siblings costs at most n steps a node. `:nth-child` and its kin read places that the document
/// keeps, and so do `:first-of-type` and `:last-of-type` where type places are known.
pub fn matches_in(document: &TypedDocument<'_>, node: NodeId, selector: &Selector) -> bool
    requires { node.0 < length document.now }
    ensures { IsTrue result ↔ Matches document.now selector.now node.0 }
{
    let mut here = with(0, count(selector) - 1);
    let mut child = 0;
    let mut inside = 0;
    let mut later = 0;
    let mut at = node;
    'path: loop {
        let found = fitting(selector, document, at, here);
        if has(found, 0) {
            return true;
        }
        child = union(child, before(selector, Join::Child, found));
        inside = union(inside, before(selector, Join::Inside, found));
        later = union(later, before(selector, Join::Later, found));
        here = union(before(selector, Join::Next, found), later);
        if let Some(prev) = wanted_prev(document, at, here) {
            at = prev;
            continue;
        }
        match parent_of(document, at) {
            None => return false,
            Some(parent) => at = parent,
        }
        here = union(child, inside);
        if here == 0 {
            return false;
        }
        child = 0;
        later = 0;
    }
}

/// Whether a selector matches a node (Selectors 3, 8), as `matches_in` does where no type place is known:
/// `:first-of-type` and `:last-of-type` go to the nearest sibling of the type. It takes no memory.
pub fn matches(dom: &Dom, node: NodeId, selector: &Selector) -> bool
    requires { node.0 < length dom.now }
    ensures { IsTrue result ↔ Matches dom.now selector.now node.0 }
{
    matches_in(&TypedDocument::new(dom), node, selector)
}
