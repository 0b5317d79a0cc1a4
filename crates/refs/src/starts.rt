//! The places at which elements begin.

ghost use Rattle.std.specs.Prelude.{◌≡◌, ◌<◌, List, [], ◌∷◌, ◌++◌, length, IfOk, IfSome};
ghost use Rattle.boxes.specs.declared.flow.Start.{Start};
ghost use Rattle.refs.specs.Kept.{AreStartsOf, place_of, start_at};
ghost use Rattle.refs.specs.Tables.{NodesAscend};

use bk_num::ids::NodeId;
use bk_num::name::NoMem;
use boxes::flow::Start;
use std::alloc::Global;

/// The place of a node in a list of nodes, of equal ones the first. It costs a binary search.
fn place_of(nodes: &[NodeId], node: NodeId) -> Option<usize>
    requires { NodesAscend nodes.now }
    ensures place { result ≡ place_of nodes.now node }
    ensures within { IfSome result (λ k. k < length nodes.now) }
{
    let place = nodes.partition_point(|other| other.0 < node.0);
    if place < nodes.len() && nodes[place].0 == node.0 {
        Some(place)
    } else {
        None
    }
}

/// Writes a start at the place of its node, where none is known.
fn start_on(found: &mut [Option<Start>], nodes: &[NodeId], start: Start)
    requires nodes { NodesAscend nodes.now }
    requires count { length found.old ≡ length nodes.now }
    ensures { (starts : List Start) → AreStartsOf nodes.now starts found.old →
        AreStartsOf nodes.now (starts ++ start ∷ []) found.new }
{
    if let Some(place) = place_of(nodes, start.node) {
        if found[place].is_none() {
            found[place] = Some(start);
        }
    }
}

/// For each node its first start, at the first place of the node. It costs a binary search for each start.
pub(crate) fn starts_of(
    alloc: Global,
    starts: &[Start],
    nodes: &[NodeId],
) -> Result<Vec<Option<Start>>, NoMem>
    requires { NodesAscend nodes.now }
    ensures { IfOk result (λ v. AreStartsOf nodes.now starts.now v.items) }
{
    let mut found = vec![in alloc; None; nodes.len()]?;
    for start in starts {
        start_on(&mut found, nodes, *start);
    }
    Ok(found)
}

/// The start that stands at the first place of a node.
pub(crate) fn start_at(found: &[Option<Start>], nodes: &[NodeId], node: NodeId) -> Option<Start>
    requires { NodesAscend nodes.now }
    ensures { result ≡ start_at found.now (place_of nodes.now node) }
{
    let place = place_of(nodes, node)?;
    found.get(place).copied().flatten()
}
