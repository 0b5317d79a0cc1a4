//! The counters of a whole document (CSS 2.1, 12.4).

ghost use Rattle.std.specs.Prelude.{◌≡◌, ◌∷◌, [], ℕ, List, Some, true, IfOk, IsTrue, OnOk, length, map, option_map};
ghost use Rattle.std.specs.String.{string_bytes};
ghost use Rattle.bk_num.specs.declared.values.Pseudo.{Pseudo};
ghost use Rattle.counters.specs.At.{AreAllMarks, AreAllNested, KeepAsked, counter_values};
ghost use Rattle.named_lists.specs.Lists.{no_lists};
ghost use Rattle.counters.specs.Document.{values_of};
ghost use Rattle.counters.specs.Gather.{AreInOrder, AreMarksOf, adds_nothing, is_use, with_changes};
ghost use Rattle.counters.specs.Log.{events_at, events_in, of_asked};

use crate::at::CounterAt;
use crate::gather::all_changes;
use crate::log::{LogRow, is_asked};
use crate::scopes::{Act, CounterEvent, ScopeMark, marks_of};
use crate::spots::spots_of;
use bk_num::items::Items;
use bk_num::name::{Name, NoMem};
use dom::Dom;
use indexmap::IndexSet;
use named_lists::lists::NamedLists;
use std::alloc::Global;
use style::styles::Styles;

/// The events of each counter.
type CounterEvents = NamedLists<CounterEvent>;

/// Whether an event after others of its counter is a use that adds nothing to the last of them.
fn adds_nothing(events: &[CounterEvent], event: &CounterEvent) -> bool
    ensures { result ≡ adds_nothing events.now event.now }
{
    match events.last() {
        Some(last) => last.at == event.at && is_use(event.act),
        None => false,
    }
}

/// Whether a use is written down: 0 is added.
fn is_use(act: Act) -> bool
    ensures { result ≡ is_use act }
{
    match act {
        Act::Reset(_) => false,
        Act::Add(number) => number == 0,
    }
}

/// Appends an event of a counter, if the counter is asked for and the event is no use that adds nothing.
fn push_event(
    alloc: Global,
    asked: &IndexSet<String>,
    likely: &mut usize,
    name: &str,
    event: CounterEvent,
    into: &mut CounterEvents,
) -> Result<(), NoMem>
    ensures { OnOk result (into.new ≡ with_changes into.old
        (of_asked (map (λ k. string_bytes k) asked.now.keys) ((name.now, event) ∷ []))) }
{
    if !is_asked(asked, likely, name) || adds_nothing(into.of(name), &event) {
        return Ok(());
    }
    into.push(alloc, name, event)
}

/// Whether a change is a use of the counter that was changed before it.
fn repeats(before: Option<&str>, change: &(Name, Act)) -> bool
    ensures { IsTrue result →
        (option_map (λ n. n.now) before.entry ≡ Some change.now.0) × (is_use change.now.1 ≡ true) }
{
    match before {
        Some(name) => is_use(change.1) && change.0.as_str() == name,
        None => false,
    }
}

/// Appends the events of a place. A use that repeats the change before it adds nothing, and its name isn't looked up.
fn push_row(
    alloc: Global,
    asked: &IndexSet<String>,
    likely: &mut usize,
    row: &LogRow,
    into: &mut CounterEvents,
) -> Result<(), NoMem>
    requires { length into.old.names ≡ length into.old.lists }
    ensures events { OnOk result (into.new ≡ with_changes into.old
        (of_asked (map (λ k. string_bytes k) asked.now.keys) (events_at row.now))) }
    ensures len { OnOk result (length into.new.names ≡ length into.new.lists) }
{
    let mut before = None;
    for change in row.changes.as_ref().as_slice() {
        if !repeats(before, change) {
            let event = CounterEvent {
                at: row.at,
                end: row.end,
                act: change.1,
            };
            push_event(alloc, asked, likely, change.0.as_str(), event, into)?;
            before = Some(change.0.as_str());
        }
    }
    Ok(())
}

/// The events of the counters that are asked for, but for uses that add nothing.
fn asked_events(
    alloc: Global,
    asked: &IndexSet<String>,
    rows: &[LogRow],
) -> Result<CounterEvents, NoMem>
    ensures { IfOk result (λ v. v ≡ with_changes no_lists
        (of_asked (map (λ k. string_bytes k) asked.now.keys) (events_in rows.now))) }
{
    let mut events = CounterEvents::new(alloc);
    let mut likely = 0;
    for row in rows {
        push_row(alloc, asked, &mut likely, row, &mut events)?;
    }
    Ok(events)
}

/// The marks of the counters that have events here.
fn all_marks(alloc: Global, lists: &[Items<CounterEvent>]) -> Result<Vec<Items<ScopeMark>>, NoMem>
    requires { AreInOrder lists.now }
    ensures { IfOk result (λ v. AreMarksOf lists.now v.items) }
{
    let mut all = Vec::new(alloc);
    for list in lists {
        all.push(marks_of(alloc, list.as_slice())?)?;
    }
    Ok(all)
}

/// The marks of the counters that are asked for: of each that has events its name, and in the same place its marks.
fn asked_marks(
    alloc: Global,
    asked: &IndexSet<String>,
    rows: &[LogRow],
) -> Result<(IndexSet<String>, Vec<Items<ScopeMark>>), NoMem>
    requires { AreAllNested (events_in rows.now) }
    ensures marks { IfOk result (λ r. AreAllMarks r.1.items) }
    ensures asked { IfOk result (λ r. KeepAsked (map (λ k. string_bytes k) asked.now.keys)
        (map (λ k. string_bytes k) r.0.keys) r.1.items (events_in rows.now)) }
{
    let (names, lists) = asked_events(alloc, asked, rows)?.into_parts();
    let marks = all_marks(alloc, &lists)?;
    Ok((names, marks))
}

/// Numbers the counters of a document. It takes time in proportion to the nodes and to what their styles do to
/// counters.
///
/// # Errors
///
/// `NoMem`, which also stands for a value that 64 bits don't hold, and for more than 4,294,967,295 changes of one
/// counter.
pub fn number_all(alloc: Global, dom: &Dom, styles: &Styles) -> Result<CounterAt, NoMem>
    ensures { IfOk result (λ c. (n : ℕ) (p : Pseudo) (x : List ℕ) →
        counter_values c n p x ≡ values_of dom.now styles.now n p x) }
{
    let (spots, count) = spots_of(alloc, dom)?;
    let (rows, asked) = all_changes(alloc, dom, styles, &spots, count)?.into_parts();
    let (names, lists) = asked_marks(alloc, &asked, &rows)?;
    Ok(CounterAt::of(rows, asked, names, lists, spots))
}
