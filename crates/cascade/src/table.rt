//! What wins for the nodes of a document, kept once for nodes that have the same.

ghost use Rattle.std.specs.Prelude.{◌≡◌, ◌<◌, ◌∷◌, ◌++◌, [], Some, OnOk, OnErr, IfOk, length, slice_get};
ghost use Rattle.cascade.specs.Table.{AddsLike, no_winners, with_node};

use bk_num::ids::NodeId;
use bk_num::items::Items;
use bk_num::name::NoMem;
use std::alloc::Global;
use std::marker::Model;
use style::long::Long;

/// The winning declarations of an element and of each of its pseudo-elements: at most one for each longhand. A text has
/// none.
#[derive(Drop)]
pub struct NodeWinners {
    pub own: Items<Long>,
    pub before: Items<Long>,
    pub after: Items<Long>,
    pub call: Items<Long>,
    pub marker: Items<Long>,
}

/// What wins for some nodes, and the first of them.
#[derive(Drop)]
pub(crate) struct Shared {
    first: NodeId,
    winners: NodeWinners,
}

/// What wins for each node, by the numbers of the nodes. Contracts see that, and for each node the first of those that
/// were added like one another. A node that is added as one like an earlier one takes a number alone.
#[derive(Drop)]
pub struct WinnerTable {
    shared: Vec<Shared>,
    numbers: Vec<u32>,
}

impl Model for WinnerTable {
    ghost use Rattle.cascade.specs.Table.{WinnersOf};

    ghost Value = { WinnersOf };

    ghost use Rattle.cascade.specs.TableFields.{all_of, IsSound};

    ghost view = { all_of };

    ghost invariant = { IsSound };
}

impl WinnerTable {
    /// What wins for no nodes.
    pub fn new(alloc: Global) -> WinnerTable
        ensures { result ≡ no_winners }
    {
        WinnerTable {
            shared: Vec::new(alloc),
            numbers: Vec::new(alloc),
        }
    }

    /// How many nodes there are.
    pub fn len(&self) -> usize
        ensures { result ≡ length self.now.winners }
    {
        self.numbers.len()
    }

    /// What wins for a node.
    pub fn of(&self, node: NodeId) -> &NodeWinners
        requires { node.0 < length self.now.winners }
        ensures { slice_get self.now.winners node.0 ≡ Some result.now }
    {
        let number = self.numbers[node.0 as usize];
        &self.shared[number as usize].winners
    }

    /// The first of the nodes that were added like one another, of which this is one. The same wins for it.
    pub fn first(&self, node: NodeId) -> NodeId
        requires { node.0 < length self.now.winners }
        ensures first { slice_get self.now.firsts node.0 ≡ Some result.0 }
        ensures same { slice_get self.now.winners result.0 ≡ slice_get self.now.winners node.0 }
    {
        let number = self.numbers[node.0 as usize];
        self.shared[number as usize].first
    }

    /// Adds a node, which is the first of its like.
    pub fn push(&mut self, winners: NodeWinners) -> Result<(), NoMem>
        ensures ok { OnOk result (self.new ≡ with_node self.old winners (length self.old.winners)) }
        ensures err { OnErr result (self.new ≡ self.old) }
    {
        let Ok(node) = u32::try_from(self.numbers.len()) else {
            return Err(NoMem);
        };
        let first = NodeId(node);
        let number = push_shared(&mut self.shared, Shared { first, winners })?;
        push_number(&mut self.numbers, number)
    }

    /// Adds a node for which the same wins as for an earlier one, and which is like it.
    pub fn push_like(&mut self, node: NodeId) -> Result<(), NoMem>
        requires { node.0 < length self.old.winners }
        ensures ok { OnOk result (AddsLike self.old node.0 self.new) }
        ensures err { OnErr result (self.new ≡ self.old) }
    {
        let number = self.numbers[node.0 as usize];
        push_number(&mut self.numbers, number)
    }
}

/// Adds what wins at the end, and answers its number.
fn push_shared(all: &mut Vec<Shared>, shared: Shared) -> Result<u32, NoMem>
    ensures number { IfOk result (λ n. n ≡ length all.old.items) }
    ensures ok { OnOk result (all.new.items ≡ all.old.items ++ shared ∷ []) }
    ensures err { OnErr result (all.new.items ≡ all.old.items) }
{
    let Ok(number) = u32::try_from(all.len()) else {
        return Err(NoMem);
    };
    match all.push(shared) {
        Ok(_) => Ok(number),
        Err(_) => Err(NoMem),
    }
}

fn push_number(numbers: &mut Vec<u32>, number: u32) -> Result<(), NoMem>
    ensures ok { OnOk result (numbers.new.items ≡ numbers.old.items ++ number ∷ []) }
    ensures err { OnErr result (numbers.new.items ≡ numbers.old.items) }
{
    match numbers.push(number) {
        Ok(_) => Ok(()),
        Err(_) => Err(NoMem),
    }
}
