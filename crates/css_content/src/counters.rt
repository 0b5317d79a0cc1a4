//! Lists of counters (CSS 2.1, 12.4).

ghost use Rattle.std.specs.Prelude.{◌≤◌, ◌∷◌, [], length, pos, unsigned_abs, IfOk, IfSome};
ghost use Rattle.bk_num.specs.Written.{most_whole};
ghost use Rattle.css_words.specs.Parser.{Reads};
ghost use Rattle.css_words.specs.Repeat.{with_prefix};
ghost use Rattle.css_content.specs.Grammar as spec;

use crate::words::whole;
use bk_num::name::Name;
use css_tok::kind::CssKind;
use css_words::reader::Reader;
use css_words::unread::Unread;
use css_words::words::{ident, is_named, of_kind};
use std::alloc::Global;
use style::lists::{CounterList, MOST_COUNTERS};

/// A counter's name and a number, which may be left out.
#[tactic(auto, unfolding(crate::specs::Grammar::entry))]
fn entry(alloc: Global, reader: &mut Reader<'_>, other: u8) -> Result<(Name, i64), Unread>
    ensures reads { Reads (λ x. x) (spec.entry (pos other) reader.old) result reader.new }
    ensures within { length reader.new ≤ length reader.old }
    ensures small { IfOk result (λ e. unsigned_abs e.1 ≤ most_whole) }
{
    let name = ident(alloc, reader)?;
    if !of_kind(CssKind::Number, reader.peek()) {
        return Ok((name, i64::from(other)));
    }
    let number = whole(reader)?;
    Ok((name, number))
}

/// The next entry; None at the end.
#[tactic(auto, unfolding(crate::specs::Grammar::next_entry))]
fn next_entry(
    alloc: Global,
    reader: &mut Reader<'_>,
    other: u8,
) -> Result<Option<(Name, i64)>, Unread>
    ensures reads { Reads (λ x. x) (spec.next_entry (pos other) reader.old) result reader.new }
    ensures within { length reader.new ≤ length reader.old }
    ensures small { IfOk result (λ o. IfSome o (λ e. unsigned_abs e.1 ≤ most_whole)) }
{
    if reader.peek().is_none() {
        return Ok(None);
    }
    let next = entry(alloc, reader, other)?;
    Ok(Some(next))
}

/// Reads the entries that follow a first one, fewer than `MOST_COUNTERS`.
#[tactic(auto, using(crate::proofs::EntryLemmas::entry_turns))]
fn more_entries(
    alloc: Global,
    reader: &mut Reader<'_>,
    other: u8,
    first: (Name, i64),
) -> Result<CounterList, Unread>
    requires small { unsigned_abs first.1 ≤ most_whole }
    ensures reads { Reads (λ x. x) (with_prefix (first ∷ []) (spec.further_entries (pos other) reader.old)) result
        reader.new }
    ensures within { length reader.new ≤ length reader.old }
{
    let mut found = CounterList::new(alloc);
    found.push(first.0, first.1)?;
    for turn in 0..MOST_COUNTERS - 1 {
        match next_entry(alloc, reader, other)? {
            Some(next) => found.push(next.0, next.1)?,
            None => return Ok(found),
        }
    }
    match next_entry(alloc, reader, other)? {
        Some(_) => Err(Unread::NoReading),
        None => Ok(found),
    }
}

/// Reads a value of `counter-reset` or `counter-increment`: `none`, or one to `MOST_COUNTERS` counters, each
/// with a number or else with `other`.
#[tactic(auto, unfolding(crate::specs::Grammar::counter_list))]
pub fn counter_list(
    alloc: Global,
    reader: &mut Reader<'_>,
    other: u8,
) -> Result<CounterList, Unread>
    ensures reads { Reads (λ x. x) (spec.counter_list (pos other) reader.old) result reader.new }
    ensures within { length reader.new ≤ length reader.old }
{
    if is_named(CssKind::Ident, reader.peek(), "none") && reader.second().is_none() {
        reader.advance();
        return Ok(CounterList::new(alloc));
    }
    let first = entry(alloc, reader, other)?;
    more_entries(alloc, reader, other, first)
}
