//! Nodes for which the same must win.

ghost use Rattle.std.specs.Prelude.{◌≡◌, ◌<◌, [], nat_eq, ℕ, List, Option, Some, IsTrue, IfSome, OnOk, length, option_map};
ghost use Rattle.std.specs.Cmp.Lexicographic.{pointwise};
ghost use Rattle.std.specs.Map.{lookup};
ghost use Rattle.std.specs.Option.{option_eq};
ghost use Rattle.indexmap.specs.IndexMap.{insert_entry};
ghost use Rattle.cascade.specs.Sharing.{IsLike, found_for, is_mark, is_same, mark_of, noted_as, seen_of};

use bk_num::ids::NodeId;
use bk_num::name::NoMem;
use dom::Dom;
use indexmap::IndexMap;
use match_table::all::MatchTable;
use std::alloc::Global;
use std::marker::Model;

/// What a node is noted by: the groups of selectors that match it, and its style attribute.
type Mark<'a> = (&'a [u32], Option<&'a str>);

/// Nodes, by the selectors that match them and by their style attribute. It is asked for a node that may be like
/// another, and what it answers is compared. Contracts see the nodes in the order in which they were noted.
#[derive(Drop)]
pub(crate) struct SameMatches<'a> {
    nodes: IndexMap<Mark<'a>, NodeId>,
}

impl<'a> Model for SameMatches<'a> {
    ghost use Rattle.std.specs.Prelude.{List, Option, ℕ};
    ghost use Rattle.cascade.specs.Sharing.{seen_of};

    ghost Value = { List ((List ℕ × Option (List ℕ)) × ℕ) };

    ghost view = { λ a. seen_of a.nodes.entries };
}

/// The node that was noted by a mark.
fn find<'a>(nodes: &IndexMap<Mark<'a>, NodeId>, mark: Mark<'a>) -> Option<NodeId>
    ensures { option_map (λ n. n.0) result
        ≡ lookup (is_same (mark.entry.0.now, option_map (λ s. s.now) mark.entry.1)) (seen_of nodes.now.entries) }
{
    match nodes.get(&mark) {
        Some(node) => Some(*node),
        None => None,
    }
}

/// Notes a node by a mark, in the place of one that was noted by the same.
fn put<'a>(
    nodes: &mut IndexMap<Mark<'a>, NodeId>,
    mark: Mark<'a>,
    node: NodeId,
) -> Result<(), NoMem>
    ensures { OnOk result (seen_of nodes.new.entries ≡ insert_entry is_same (seen_of nodes.old.entries)
        (mark.entry.0.now, option_map (λ s. s.now) mark.entry.1) node.0) }
{
    match nodes.insert(mark, node) {
        Ok(_) => Ok(()),
        Err(_) => Err(NoMem),
    }
}

impl<'a> SameMatches<'a> {
    pub(crate) fn new(alloc: Global) -> SameMatches<'a>
        ensures { result ≡ [] }
    {
        SameMatches {
            nodes: IndexMap::new(alloc),
        }
    }

    /// A node before this one that the same selectors match and that has the same style attribute, if one was noted.
    pub(crate) fn earlier(
        &self,
        dom: &'a Dom,
        matched: &'a MatchTable,
        node: NodeId,
    ) -> Option<NodeId>
        requires node { node.0 < length dom.now }
        requires count { length matched.now.rows ≡ length dom.now }
        ensures found { option_map (λ e. e.0) result ≡ found_for dom.now matched.now.rows self.now node.0 }
        ensures like { IfSome result (λ e. IsLike dom.now matched.now.rows e.0 node.0) }
    {
        let earlier = find(&self.nodes, (matched.of(node), dom.attr(node, "style")))?;
        if earlier.0 < node.0 && is_like(dom, matched, earlier, node) {
            Some(earlier)
        } else {
            None
        }
    }

    /// Notes a node.
    pub(crate) fn note(
        &mut self,
        dom: &'a Dom,
        matched: &'a MatchTable,
        node: NodeId,
    ) -> Result<(), NoMem>
        requires node { node.0 < length dom.now }
        requires count { length matched.now.rows ≡ length dom.now }
        ensures { OnOk result (self.new ≡ noted_as (mark_of dom.now matched.now.rows node.0) node.0 self.old) }
    {
        put(
            &mut self.nodes,
            (matched.of(node), dom.attr(node, "style")),
            node,
        )
    }
}

/// Whether the same selectors match two nodes whose style attributes are the same.
fn is_like(dom: &Dom, matched: &MatchTable, earlier: NodeId, node: NodeId) -> bool
    requires before { earlier.0 < node.0 }
    requires node { node.0 < length dom.now }
    requires count { length matched.now.rows ≡ length dom.now }
    ensures value { (m : List ℕ × Option (List ℕ)) → mark_of dom.now matched.now.rows node.0 ≡ Some m →
        result ≡ is_mark m (mark_of dom.now matched.now.rows earlier.0) }
    ensures like { IsTrue result → IsLike dom.now matched.now.rows earlier.0 node.0 }
{
    is_same_row(matched.of(earlier), matched.of(node))
        && is_same_text(dom.attr(earlier, "style"), dom.attr(node, "style"))
}

fn is_same_row(row: &[u32], other: &[u32]) -> bool
    ensures value { result ≡ pointwise nat_eq row.now other.now }
    ensures same { IsTrue result → row.now ≡ other.now }
{
    row == other
}

fn is_same_text(text: Option<&str>, other: Option<&str>) -> bool
    ensures value { result ≡ option_eq (pointwise nat_eq) (option_map (λ s. s.now) text.entry)
        (option_map (λ s. s.now) other.entry) }
    ensures same { IsTrue result → option_map (λ s. s.now) text.entry ≡ option_map (λ s. s.now) other.entry }
{
    match (text, other) {
        (Some(text), Some(other)) => text == other,
        (None, None) => true,
        _ => false,
    }
}
