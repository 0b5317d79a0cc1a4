//! What a whole document does to its counters, in document order.

ghost use Rattle.std.specs.Prelude.{◌≡◌, ◌+◌, ◌*◌, ◌<◌, ◌^◌, ◌++◌, IfOk, OnOk, length, option_map};
ghost use Rattle.bk_num.specs.declared.values.Pseudo.TheVariants as pseudo;
ghost use Rattle.dom.specs.Nodes.{parents_of};
ghost use Rattle.dom.specs.Walk.{node_of, steps_of};
ghost use Rattle.counters.specs.At.{AreSmall};
ghost use Rattle.counters.specs.Document.{changes_at, document_events, named, step_events};
ghost use Rattle.counters.specs.Gather.{AreSpots, end_below};

use crate::at::Spot;
use crate::events::push_changes;
use crate::log::{EventPlace, Log};
use bk_num::ids::NodeId;
use bk_num::name::NoMem;
use bk_num::values::Pseudo;
use dom::{Dom, Step, Walk};
use std::alloc::Global;
use style::styles::Styles;

/// Where scopes end that begin at a child of a node, or at the root.
fn end_below(spots: &[Spot], count: u32, node: Option<NodeId>) -> u32
    requires small { AreSmall spots.now }
    requires few { count < 2 ^ 28 }
    ensures value { result ≡ end_below count spots.now (option_map (λ n. n.0) node) }
{
    let Some(node) = node else {
        return 4 * count;
    };
    let Some(spot) = spots.get(node.0 as usize) else {
        return 4 * count;
    };
    match spot.out {
        Some(step) => 4 * step + 1,
        None => 4 * count,
    }
}

/// Appends the events of a step into an element.
fn push_entered<'s>(
    alloc: Global,
    styles: &'s Styles,
    node: NodeId,
    at: u32,
    outside: u32,
    inside: u32,
    into: &mut Log<'s>,
) -> Result<(), NoMem>
    requires { at + 3 < 2 ^ 32 }
    ensures { OnOk result (into.new ≡ into.old ++
        (named at outside (changes_at styles.entry.now node.0 pseudo.Element) ++
        (named (at + 1) inside (changes_at styles.entry.now node.0 pseudo.Call) ++
        (named (at + 2) inside (changes_at styles.entry.now node.0 pseudo.Marker) ++
        named (at + 3) inside (changes_at styles.entry.now node.0 pseudo.Before))))) }
{
    let own = EventPlace { at, end: outside };
    push_changes(alloc, own, styles, node, Pseudo::Element, into)?;
    let call = EventPlace {
        at: at + 1,
        end: inside,
    };
    push_changes(alloc, call, styles, node, Pseudo::Call, into)?;
    let marker = EventPlace {
        at: at + 2,
        end: inside,
    };
    push_changes(alloc, marker, styles, node, Pseudo::Marker, into)?;
    let before = EventPlace {
        at: at + 3,
        end: inside,
    };
    push_changes(alloc, before, styles, node, Pseudo::Before, into)
}

/// Appends the events of a step.
fn push_step<'s>(
    alloc: Global,
    dom: &Dom,
    styles: &'s Styles,
    spots: &[Spot],
    count: u32,
    index: u32,
    step: Step,
    into: &mut Log<'s>,
) -> Result<(), NoMem>
    requires spots { AreSpots (steps_of dom.now) spots.now }
    requires small { AreSmall spots.now }
    requires count { count ≡ length (steps_of dom.now) }
    requires few { count < 2 ^ 28 }
    requires index { index < count }
    requires within { node_of step < length dom.now }
    ensures { OnOk result (into.new ≡ into.old ++
        (step_events (parents_of dom.now) styles.entry.now (steps_of dom.now) index step)) }
{
    match step {
        Step::Enter(node) => {
            let outside = end_below(spots, count, dom.parent(node));
            let inside = end_below(spots, count, Some(node));
            push_entered(alloc, styles, node, 4 * index, outside, inside, into)
        }
        Step::Leave(node) => {
            let inside = end_below(spots, count, Some(node));
            let after = EventPlace {
                at: 4 * index,
                end: inside,
            };
            push_changes(alloc, after, styles, node, Pseudo::After, into)
        }
    }
}

/// What a document does to its counters, and which of them it asks for.
///
/// # Errors
///
/// `NoMem`.
pub(crate) fn all_changes<'s>(
    alloc: Global,
    dom: &Dom,
    styles: &'s Styles,
    spots: &[Spot],
    count: u32,
) -> Result<Log<'s>, NoMem>
    requires spots { AreSpots (steps_of dom.now) spots.now }
    requires small { AreSmall spots.now }
    requires count { count ≡ length (steps_of dom.now) }
    requires few { count < 2 ^ 28 }
    ensures { IfOk result (λ v. v ≡ document_events dom.now styles.entry.now) }
{
    let mut log = Log::new(alloc);
    let mut walk = Walk::new(dom);
    let mut index = 0;
    while let Some(step) = walk.next() {
        push_step(alloc, dom, styles, spots, count, index, step, &mut log)?;
        index += 1;
    }
    Ok(log)
}
