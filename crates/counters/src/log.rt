//! What a document does to its counters, written down place by place.

ghost use Rattle.std.specs.Prelude.{◌≡◌, ◌++◌, ◌∷◌, [], true, IfOk, IfSome, IsTrue, OnOk, map};
ghost use Rattle.std.specs.String.{string_bytes};
ghost use Rattle.bk_num.specs.Names.{has_name};
ghost use Rattle.counters.specs.Document.{named, not_page};
ghost use Rattle.counters.specs.Log.{changes_in, events_at, events_in};

use crate::scopes::Act;
use bk_num::items::Items;
use bk_num::name::{Name, NoMem};
use indexmap::{IndexMap, IndexSet};
use std::alloc::Global;
use std::marker::Model;
use std::rc::Rc;
use style::lists::is_page_counter;

/// A place's number, and where scopes end that begin at it.
#[derive(Clone, Copy)]
pub(crate) struct EventPlace {
    pub at: u32,
    pub end: u32,
}

/// What is done to a counter, by its name in a style.
pub(crate) type Change<'s> = (&'s str, Act);

/// What is done to counters, in order.
pub(crate) type ChangeList = Items<(Name, Act)>;

/// What is done at a place. Places at which the same is done share one list of it.
#[derive(Drop)]
pub(crate) struct LogRow {
    pub at: u32,
    pub end: u32,
    pub changes: Rc<ChangeList>,
}

/// Lists that are shared. It is asked for one that may be equal, and what it answers is compared.
type Known<'s> = IndexMap<Vec<Change<'s>>, Rc<ChangeList>>;

/// The numbers among the lists that are known of those that came last: one of resets, one of increments, one of uses.
#[derive(Clone, Copy)]
struct LastLists {
    resets: usize,
    increments: usize,
    uses: usize,
}

/// What is done at places, one after the other; and beside it the names of counters that are asked for. What came last
/// is compared before anything is looked up, since a look-up hashes all names. Contracts see the events.
#[derive(Drop)]
pub(crate) struct Log<'s> {
    rows: Vec<LogRow>,
    known: Known<'s>,
    last: LastLists,
    asked: IndexSet<String>,
    last_asked: usize,
}

impl<'s> Model for Log<'s> {
    ghost use Rattle.std.specs.Prelude.{List, ℕ};
    ghost use Rattle.counters.specs.declared.scopes.CounterEvent.{CounterEvent};
    ghost use Rattle.counters.specs.Log.{events_in};

    ghost Value = { List (List ℕ × CounterEvent) };

    ghost view = { λ l. events_in l.rows.items };
}

/// Appends a change, unless it is one of `page`, which is no counter of the document.
pub(crate) fn push_change<'s>(
    changes: &mut Vec<Change<'s>>,
    name: &'s str,
    act: Act,
) -> Result<(), NoMem>
    ensures { OnOk result (changes_in changes.new.items ≡
        changes_in changes.old.items ++ not_page ((name.entry.now, act) ∷ [])) }
{
    if !is_page_counter(name) {
        changes.push((name, act))?;
    }
    Ok(())
}

fn is_same_change(own: &(Name, Act), change: &Change<'_>) -> bool
    ensures { IsTrue result → own.now ≡ (change.now.0.now, change.now.1) }
{
    own.0.as_str() == change.0 && own.1 == change.1
}

/// Whether a list is of these changes.
fn is_same(list: &[(Name, Act)], changes: &[Change<'_>]) -> bool
    ensures { IsTrue result → list.now ≡ changes_in changes.now }
{
    if list.len() != changes.len() {
        return false;
    }
    for i in 0..list.len() {
        if !is_same_change(&list[i], &changes[i]) {
            return false;
        }
    }
    true
}

/// A list of these changes.
fn owned(alloc: Global, changes: &[Change<'_>]) -> Result<ChangeList, NoMem>
    ensures { IfOk result (λ list. list ≡ changes_in changes.now) }
{
    let mut list = Items::new(alloc);
    for change in changes {
        list.push((Name::new(alloc, change.0)?, change.1))?;
    }
    Ok(list)
}

/// The known list of a number, if it is of these changes.
fn list_at<'k, 's>(
    known: &'k Known<'s>,
    number: usize,
    changes: &[Change<'s>],
) -> Option<&'k Rc<ChangeList>>
    ensures { IfSome result (λ list. list.now.value ≡ changes_in changes.now) }
{
    let (_, list) = known.get_index(number)?;
    if is_same(list.as_ref().as_slice(), changes) {
        Some(list)
    } else {
        None
    }
}

fn share(list: &Rc<ChangeList>) -> Result<Rc<ChangeList>, NoMem>
    ensures { IfOk result (λ shared. shared.value ≡ list.now.value) }
{
    match list.clone() {
        Ok(shared) => Ok(shared),
        Err(_) => Err(NoMem),
    }
}

/// Makes a list of these changes, which is known from then on.
fn add<'s>(
    alloc: Global,
    known: &mut Known<'s>,
    changes: Vec<Change<'s>>,
) -> Result<Rc<ChangeList>, NoMem>
    ensures { IfOk result (λ list. list.value ≡ changes_in changes.entry.items) }
{
    let Ok(list) = Rc::new(alloc, owned(alloc, changes.as_slice())?) else {
        return Err(NoMem);
    };
    let shared = share(&list)?;
    match known.insert(changes, shared) {
        Ok(_) => Ok(list),
        Err(_) => Err(NoMem),
    }
}

/// A list of these changes: that of the number, another known one, or a new one, whose number is then kept.
fn list_of<'s>(
    alloc: Global,
    known: &mut Known<'s>,
    last: &mut usize,
    changes: Vec<Change<'s>>,
) -> Result<Rc<ChangeList>, NoMem>
    ensures { IfOk result (λ list. list.value ≡ changes_in changes.entry.items) }
{
    if let Some(list) = list_at(known, *last, changes.as_slice()) {
        return share(list);
    }
    *last = known.get_index_of(&changes).unwrap_or(known.len());
    if let Some(list) = list_at(known, *last, changes.as_slice()) {
        return share(list);
    }
    add(alloc, known, changes)
}

/// A list of these changes, the first of which is given: the last one of its kind, if that is of these changes.
fn shared<'s>(
    alloc: Global,
    known: &mut Known<'s>,
    last: &mut LastLists,
    first: Act,
    changes: Vec<Change<'s>>,
) -> Result<Rc<ChangeList>, NoMem>
    ensures { IfOk result (λ list. list.value ≡ changes_in changes.entry.items) }
{
    let last = match first {
        Act::Reset(_) => &mut last.resets,
        Act::Add(0) => &mut last.uses,
        Act::Add(_) => &mut last.increments,
    };
    list_of(alloc, known, last, changes)
}

fn push_row(rows: &mut Vec<LogRow>, row: LogRow) -> Result<(), NoMem>
    ensures { OnOk result (events_in rows.new.items ≡ events_in rows.old.items ++ events_at row) }
{
    match rows.push(row) {
        Ok(_) => Ok(()),
        Err(_) => Err(NoMem),
    }
}

/// Whether a counter is the one of a number among those that are asked for.
fn is_at(asked: &IndexSet<String>, number: usize, name: &str) -> bool
    ensures { IsTrue result → has_name (map (λ k. string_bytes k) asked.now.keys) name.now ≡ true }
{
    match asked.get_index(number) {
        Some(own) => own.as_str() == name,
        None => false,
    }
}

/// Whether a counter is among those that are asked for. The number of the one that is likely is compared first, and
/// becomes the number of the one that was found.
pub(crate) fn is_asked(asked: &IndexSet<String>, likely: &mut usize, name: &str) -> bool
    ensures { result ≡ has_name (map (λ k. string_bytes k) asked.now.keys) name.now }
{
    if is_at(asked, *likely, name) {
        return true;
    }
    match asked.get_index_of(name) {
        Some(number) => {
            *likely = number;
            true
        }
        None => false,
    }
}

impl<'s> Log<'s> {
    /// Nothing is done, and no counter is asked for.
    pub(crate) fn new(alloc: Global) -> Log<'s>
        ensures { result ≡ [] }
    {
        Log {
            rows: Vec::new(alloc),
            known: IndexMap::new(alloc),
            last: LastLists {
                resets: 0,
                increments: 0,
                uses: 0,
            },
            asked: IndexSet::new(alloc),
            last_asked: 0,
        }
    }

    /// Appends what is done at a place.
    pub(crate) fn put(
        &mut self,
        alloc: Global,
        place: EventPlace,
        changes: Vec<Change<'s>>,
    ) -> Result<(), NoMem>
        ensures { OnOk result (self.new ≡ self.old ++ named place.at place.end (changes_in changes.entry.items)) }
    {
        if changes.is_empty() {
            return Ok(());
        }
        let first = changes[0].1;
        let row = LogRow {
            at: place.at,
            end: place.end,
            changes: shared(alloc, &mut self.known, &mut self.last, first, changes)?,
        };
        push_row(&mut self.rows, row)
    }

    /// Notes that a counter is asked for.
    pub(crate) fn ask(&mut self, alloc: Global, name: &str) -> Result<(), NoMem>
        ensures { self.new ≡ self.old }
    {
        if is_asked(&self.asked, &mut self.last_asked, name) {
            return Ok(());
        }
        let text = String::from_str(alloc, name)?;
        match self.asked.insert(text) {
            Ok(_) => Ok(()),
            Err(_) => Err(NoMem),
        }
    }

    /// What is done at places, and the names of the counters that are asked for. It takes no memory.
    pub(crate) fn into_parts(self) -> (Vec<LogRow>, IndexSet<String>)
        ensures { events_in result.0.items ≡ self.entry }
    {
        let Log { rows, asked, .. } = self;
        (rows, asked)
    }
}
