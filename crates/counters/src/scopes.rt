//! The scopes of one counter (CSS 2.1, 12.4.1), event by event.

ghost use Rattle.std.specs.Prelude.{◌≡◌, ℕ, ◌<◌, ◌≤◌, ◌^◌, IfNone, IfSome, Option, Some, None, IfOk, length, map, nat_lt, slice_get};
ghost use Rattle.counters.specs.Chains.{AreFalling, AreMarks, IsNext, IsPastLong, AreMarked, all_of, chain, beyond, front, kept_values, seen_to};
ghost use Rattle.std.specs.List.Sorted.{IsNonDecreasingBy};
ghost use Rattle.bk_num.specs.Numbers.{last_of};

use bk_num::ids::last_of;
use bk_num::items::Items;
use bk_num::name::NoMem;
use std::alloc::Global;

/// What is done to a counter. A use adds 0.
#[derive(Clone, Copy, Debug, PartialEq, Eq, Hash)]
pub enum Act {
    Reset(i64),
    Add(i64),
}

/// What is done to a counter at a place: the place's number in document order, and the number after the last place of
/// its parent, where a scope that begins at the place ends.
#[derive(Clone, Copy, Debug)]
pub struct CounterEvent {
    pub at: u32,
    pub end: u32,
    pub act: Act,
}

/// The innermost scope after an event: where it ends, its value, and the mark of the scope outside it.
#[derive(Clone, Copy, Debug)]
pub struct ScopeMark {
    pub at: u32,
    pub end: u32,
    pub value: i64,
    pub outer: Option<u32>,
}

fn mark_of(marks: &[ScopeMark], index: u32) -> Option<ScopeMark>
    ensures { result ≡ slice_get marks.now index }
{
    marks.get(index as usize).copied()
}

/// The first mark, from one outwards, whose scope ends after a place.
fn reaching(marks: &[ScopeMark], from: Option<u32>, place: u32) -> Option<u32>
    requires { AreFalling marks.now }
    ensures within { IfSome result (λ i. i < length marks.now) }
    ensures chain { (most : ℕ) → length marks.now ≤ most →
        chain most marks.now result ≡ beyond place (chain most marks.now from) }
{
    let mut head = from;
    while let Some(index) = head {
        let Some(mark) = mark_of(marks, index) else {
            return None;
        };
        if mark.end > place {
            return head;
        }
        head = mark.outer;
    }
    None
}

/// How many marks stand up to a place.
fn count_to(marks: &[ScopeMark], place: u32) -> usize
    requires { AreMarks marks.now }
    ensures value { result ≡ seen_to place marks.now }
    ensures most { result ≤ length marks.now }
{
    marks.partition_point(|mark| mark.at <= place)
}

/// The last of so many marks.
fn last_mark(count: usize) -> Option<u32>
    requires { count < 2 ^ 32 }
    ensures { result ≡ last_of count }
{
    let at = last_of(count)?;
    Some(at as u32)
}

/// The values of the scopes from a mark outwards.
fn values_from(alloc: Global, marks: &[ScopeMark], from: Option<u32>) -> Result<Vec<i64>, NoMem>
    requires { AreFalling marks.now }
    ensures { IfOk result (λ v. v.items ≡ map (λ m. m.value) (all_of marks.now from)) }
{
    let mut values = Vec::new(alloc);
    let mut head = from;
    while let Some(mark) = front(marks, head) {
        values.push(mark.value)?;
        head = mark.outer;
    }
    Ok(values)
}

/// The values at a place, the outermost scope first; 0 where no scope holds. It costs a binary search and the scopes
/// that held after the last event up to the place.
///
/// # Errors
///
/// `NoMem`.
pub fn values_at(alloc: Global, marks: &[ScopeMark], place: u32) -> Result<Vec<i64>, NoMem>
    requires { AreMarks marks.now }
    ensures { IfOk result (λ v. v.items ≡ kept_values marks.now place) }
{
    let last = last_mark(count_to(marks, place));
    let mut values = values_from(alloc, marks, reaching(marks, last, place))?;
    values.reverse();
    if values.is_empty() {
        values.push(0)?;
    }
    Ok(values)
}

/// The mark that a number names.
fn front(marks: &[ScopeMark], head: Option<u32>) -> Option<ScopeMark>
    ensures { result ≡ front (all_of marks.now head) }
{
    match head {
        Some(index) => mark_of(marks, index),
        None => None,
    }
}

/// The mark after an event, and None exactly where its value is past 64 bits.
fn next_mark(marks: &[ScopeMark], event: &CounterEvent) -> Option<ScopeMark>
    requires few { length marks.now < 2 ^ 32 }
    requires falling { AreFalling marks.now }
    ensures some { IfSome result (λ m. IsNext marks.now event.now m) }
    ensures none { IfNone result (IsPastLong marks.now event.now) }
{
    let last = last_mark(marks.len());
    match event.act {
        Act::Reset(number) => {
            let outer = reaching(marks, last, event.end);
            Some(ScopeMark {
                at: event.at,
                end: event.end,
                value: number,
                outer,
            })
        }
        Act::Add(add) => {
            let Some(mark) = front(marks, reaching(marks, last, event.at)) else {
                return Some(ScopeMark {
                    at: event.at,
                    end: event.end,
                    value: add,
                    outer: None,
                });
            };
            let value = mark.value.checked_add(add)?;
            Some(ScopeMark {
                at: event.at,
                end: mark.end,
                value,
                outer: mark.outer,
            })
        }
    }
}

/// The marks of all events. Each event ends scopes that an earlier one began, or none, so it is linear.
///
/// # Errors
///
/// `NoMem`, which also stands for a value that 64 bits don't hold.
pub fn mark_all(alloc: Global, events: &[CounterEvent]) -> Result<Vec<ScopeMark>, NoMem>
    requires few { length events.now < 2 ^ 32 }
    requires sorted { IsNonDecreasingBy (λ e. e.at) events.now }
    ensures marks { IfOk result (λ v. AreMarks v.items) }
    ensures marked { IfOk result (λ v. AreMarked events.now v.items) }
{
    let mut marks = Vec::new(alloc);
    for event in events {
        let Some(mark) = next_mark(&marks, event) else {
            return Err(NoMem);
        };
        marks.push(mark)?;
    }
    Ok(marks)
}

/// Marks have numbers of 32 bits.
const MOST_EVENTS: usize = 4294967295;

/// Whether so many events have marks with numbers of 32 bits.
fn are_few(events: &[CounterEvent]) -> bool
    ensures { result ≡ nat_lt (length events.now) (2 ^ 32) }
{
    events.len() <= MOST_EVENTS
}

/// The marks of one counter.
pub(crate) fn marks_of(alloc: Global, events: &[CounterEvent]) -> Result<Items<ScopeMark>, NoMem>
    requires { IsNonDecreasingBy (λ e. e.at) events.now }
    ensures marks { IfOk result (λ v. AreMarks v) }
    ensures marked { IfOk result (λ v. AreMarked events.now v) }
{
    if !are_few(events) {
        return Err(NoMem);
    }
    Ok(Items::of(mark_all(alloc, events)?))
}
