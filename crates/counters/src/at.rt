//! The values of counters at the places of a document.

ghost use Rattle.std.specs.Prelude.{◌≡◌, ◌+◌, ◌*◌, ◌<◌, ◌++◌, [], ◌∷◌, pos, IfOk, OnOk, Some, None, option_map, map, slice_get};
ghost use Rattle.std.specs.String.{string_bytes};
ghost use Rattle.named_lists.specs.Lists.{of_name};
ghost use Rattle.counters.specs.At.{AreAllMarks, AreAllNested, AreSmall, IsSmall, KeepAsked, counter_values, marks_by, place_in, values_of_marks};
ghost use Rattle.counters.specs.Document.{place_number};
ghost use Rattle.counters.specs.Log.{events_at, events_in};
ghost use Rattle.counters.specs.Scopes.{values_by};

use crate::log::{LogRow, is_asked};
use crate::scopes::{CounterEvent, ScopeMark, marks_of, values_at};
use bk_num::ids::NodeId;
use bk_num::items::Items;
use bk_num::name::NoMem;
use bk_num::values::Pseudo;
use indexmap::IndexSet;
use named_lists::lists::number_of;
use std::alloc::Global;
use std::marker::Model;

/// The steps of a walk through the document that go into a node and out of it.
#[derive(Clone, Copy, Debug)]
pub struct Spot {
    pub into: Option<u32>,
    pub out: Option<u32>,
}

/// The values of all counters at all places. Of a counter that the document asks for the marks are kept; of the others
/// what is done to them, from which their values are found. Contracts see what is done; `counter_values` says what it
/// stands for.
#[derive(Drop)]
pub struct CounterAt {
    rows: Vec<LogRow>,
    asked: IndexSet<String>,
    names: IndexSet<String>,
    lists: Vec<Items<ScopeMark>>,
    spots: Vec<Spot>,
}

impl Model for CounterAt {
    ghost use Rattle.counters.specs.At.{Kept};

    ghost Value = { Kept };

    ghost use Rattle.counters.specs.At.{kept_in, IsSound};

    ghost view = { kept_in };

    ghost invariant = { IsSound };
}

impl CounterAt {
    /// What is kept of these counters.
    pub(crate) fn of(
        rows: Vec<LogRow>,
        asked: IndexSet<String>,
        names: IndexSet<String>,
        lists: Vec<Items<ScopeMark>>,
        spots: Vec<Spot>,
    ) -> CounterAt
        requires marks { AreAllMarks lists.items }
        requires spots { AreSmall spots.items }
        requires nested { AreAllNested (events_in rows.items) }
        requires asked { KeepAsked (map (λ k. string_bytes k) asked.keys) (map (λ k. string_bytes k) names.keys)
            lists.items (events_in rows.items) }
        ensures events { result.events ≡ events_in rows.items }
        ensures spots { result.spots ≡ spots.items }
    {
        CounterAt {
            rows,
            asked,
            names,
            lists,
            spots,
        }
    }

    /// The values of a counter at an element or a pseudo-element, the outermost scope first; `[0]` where no scope
    /// holds. Of a counter that the document asks for it costs the scopes that hold after the counter's last change up
    /// to there, and a binary search for that change; of another one all that the document does to counters.
    pub fn values(
        &self,
        alloc: Global,
        node: NodeId,
        pseudo: Pseudo,
        name: &str,
    ) -> Result<Items<i64>, NoMem>
        ensures { IfOk result (λ values. values ≡ counter_values self.now node.0 pseudo name.now) }
    {
        let Some(place) = place_of(&self.spots, node, pseudo) else {
            return zero(alloc);
        };
        let number = number_of(&self.names, name);
        let mut likely = number.unwrap_or(0);
        if is_asked(&self.asked, &mut likely, name) {
            return marked_values(alloc, &self.lists, number, place);
        }
        logged_values(alloc, &self.rows, name, place)
    }
}

/// The marks of a counter.
fn list_of(lists: &[Items<ScopeMark>], index: Option<usize>) -> Option<&Items<ScopeMark>>
    ensures { option_map (λ l. l.now) result ≡ marks_by lists.now index }
{
    lists.get(index?)
}

/// The number 0 alone.
fn zero(alloc: Global) -> Result<Items<i64>, NoMem>
    ensures { IfOk result (λ values. values ≡ pos 0 ∷ []) }
{
    let mut values = Items::new(alloc);
    values.push(0)?;
    Ok(values)
}

/// The values at a place by the marks of the counter of a number.
fn marked_values(
    alloc: Global,
    lists: &[Items<ScopeMark>],
    number: Option<usize>,
    place: u32,
) -> Result<Items<i64>, NoMem>
    requires { AreAllMarks lists.now }
    ensures { IfOk result (λ values. values ≡ values_of_marks (marks_by lists.now number) place) }
{
    match list_of(lists, number) {
        Some(list) => Ok(Items::of(values_at(alloc, list.as_slice(), place)?)),
        None => zero(alloc),
    }
}

/// Appends what a place does to a counter.
fn push_named(row: &LogRow, name: &str, into: &mut Vec<CounterEvent>) -> Result<(), NoMem>
    ensures { OnOk result (into.new.items ≡ into.old.items ++ of_name (events_at row.now) name.now) }
{
    for change in row.changes.as_ref().as_slice() {
        if change.0.as_str() == name {
            into.push(CounterEvent {
                at: row.at,
                end: row.end,
                act: change.1,
            })?;
        }
    }
    Ok(())
}

/// What places do to a counter.
fn named_events(alloc: Global, rows: &[LogRow], name: &str) -> Result<Vec<CounterEvent>, NoMem>
    ensures { IfOk result (λ events. events.items ≡ of_name (events_in rows.now) name.now) }
{
    let mut events = Vec::new(alloc);
    for row in rows {
        push_named(row, name, &mut events)?;
    }
    Ok(events)
}

/// The values at a place by what places do to a counter.
fn logged_values(
    alloc: Global,
    rows: &[LogRow],
    name: &str,
    place: u32,
) -> Result<Items<i64>, NoMem>
    requires { AreAllNested (events_in rows.now) }
    ensures { IfOk result (λ values. values ≡ values_by (of_name (events_in rows.now) name.now) place) }
{
    let events = named_events(alloc, rows, name)?;
    let marks = marks_of(alloc, events.as_slice())?;
    Ok(Items::of(values_at(alloc, marks.as_slice(), place)?))
}

/// The number of a place in document order.
fn place_of(spots: &[Spot], node: NodeId, pseudo: Pseudo) -> Option<u32>
    requires { AreSmall spots.now }
    ensures { result ≡ place_in (slice_get spots.now node.0) pseudo }
{
    let spot = spots.get(node.0 as usize).copied()?;
    place_in(spot, pseudo)
}

fn place_in(spot: Spot, pseudo: Pseudo) -> Option<u32>
    requires into { IsSmall spot.into }
    requires out { IsSmall spot.out }
    ensures { result ≡ place_number spot.into spot.out pseudo }
{
    match pseudo {
        Pseudo::Element => numbered(spot.into, 0),
        Pseudo::Call => numbered(spot.into, 1),
        Pseudo::Marker => numbered(spot.into, 2),
        Pseudo::Before => numbered(spot.into, 3),
        Pseudo::After => numbered(spot.out, 0),
    }
}

/// The number of a place at a step.
fn numbered(step: Option<u32>, place: u32) -> Option<u32>
    requires step { IsSmall step }
    requires place { place < 4 }
    ensures { result ≡ option_map (λ i. 4 * i + place) step }
{
    match step {
        Some(step) => Some(4 * step + place),
        None => None,
    }
}
