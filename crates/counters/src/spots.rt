//! The steps into the nodes of a document and out of them.

ghost use Rattle.std.specs.Prelude.{◌≡◌, ◌<◌, ◌^◌, [], IfOk, length};
ghost use Rattle.dom.specs.Nodes.{IsTree};
ghost use Rattle.dom.specs.Walk.{node_of, steps_of};
ghost use Rattle.counters.specs.At.{AreSmall};
ghost use Rattle.counters.specs.Gather.{AreSpots, stepped};

use crate::at::Spot;
use bk_num::name::NoMem;
use dom::{Dom, Step, Walk};
use std::alloc::Global;

/// So many spots without steps.
fn empty_spots(alloc: Global, count: u32) -> Result<Vec<Spot>, NoMem>
    ensures none { IfOk result (λ v. AreSpots [] v.items) }
    ensures len { IfOk result (λ v. length v.items ≡ count) }
{
    let mut spots = Vec::new(alloc);
    while spots.len() < count as usize {
        spots.push(Spot {
            into: None,
            out: None,
        })?;
    }
    Ok(spots)
}

/// A spot with a step more, if it is the first of its kind.
fn stepped(spot: Spot, index: u32, step: Step) -> Spot
    ensures { result ≡ stepped index step spot }
{
    match step {
        Step::Enter(_) => Spot {
            into: spot.into.or(Some(index)),
            out: spot.out,
        },
        Step::Leave(_) => Spot {
            into: spot.into,
            out: spot.out.or(Some(index)),
        },
    }
}

/// The number of the node of a step.
fn node_of(step: Step) -> usize
    ensures { result ≡ node_of step }
{
    match step {
        Step::Enter(node) | Step::Leave(node) => node.0 as usize,
    }
}

/// The first steps into each node and out of it, and how many steps there are: two a node at most, so that places,
/// which are numbered four a step, have numbers of 32 bits.
///
/// # Errors
///
/// `NoMem`.
pub fn spots_of(alloc: Global, dom: &Dom) -> Result<(Vec<Spot>, u32), NoMem>
    ensures spots { IfOk result (λ r. AreSpots (steps_of dom.now) r.0.items) }
    ensures count { IfOk result (λ r. r.1 ≡ length (steps_of dom.now)) }
    ensures few { IfOk result (λ r. r.1 < 2 ^ 28) }
    ensures small { IfOk result (λ r. AreSmall r.0.items) }
    ensures tree { IfOk result (λ r. IsTree dom.now) }
{
    let mut spots = empty_spots(alloc, dom.len())?;
    let mut walk = Walk::new(dom);
    let mut count = 0;
    while let Some(step) = walk.next() {
        let node = node_of(step);
        spots[node] = stepped(spots[node], count, step);
        count += 1;
    }
    Ok((spots, count))
}
