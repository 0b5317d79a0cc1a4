//! Values in a row, and lists with commas.

ghost use Rattle.std.specs.Prelude.{◌≤◌, ◌<◌, ◌∷◌, [], length, IfOk, IfSome, Option};
ghost use Rattle.css_words.specs.Parser.{Parser, Reads};
ghost use Rattle.css_words.specs.Repeat.{after_mark, comma_list, many, with_prefix};

use crate::reader::Reader;
use crate::unread::Unread;
use crate::words::is_mark;
use bk_num::items::Items;
use std::alloc::Global;

/// A grammar of one value.
pub trait ReadOne {
    type Item: Drop;

    ghost parser: { Self → Parser Self.Item };

    /// Reads a value.
    fn read(&self, alloc: Global, reader: &mut Reader<'_>) -> Result<Self::Item, Unread>
        ensures reads { Reads (λ x. x) (parser self.now reader.old) result reader.new }
        ensures within { length reader.new ≤ length reader.old };
}

/// A grammar of the next value of a row.
pub trait ReadNext {
    type Item: Drop;

    ghost parser: { Self → Parser (Option Self.Item) };

    /// Reads the next value; None where none comes.
    fn next(&self, alloc: Global, reader: &mut Reader<'_>) -> Result<Option<Self::Item>, Unread>
        ensures reads { Reads (λ x. x) (parser self.now reader.old) result reader.new }
        ensures within { length reader.new ≤ length reader.old }
        ensures taken { IfOk result (λ o. IfSome o (λ _. length reader.new < length reader.old)) };
}

/// Reads the values that follow those that were found.
#[tactic(auto, using(crate::proofs::RepeatLemmas::many_turns))]
pub fn read_more<N: ReadNext>(
    alloc: Global,
    reader: &mut Reader<'_>,
    found: Vec<N::Item>,
    next: &N,
) -> Result<Items<N::Item>, Unread>
    ensures reads { Reads (λ x. x) (with_prefix found.items (many (N.parser next.now) reader.old)) result reader.new }
    ensures within { length reader.new ≤ length reader.old }
{
    let mut found = found;
    'values: loop {
        match next.next(alloc, reader)? {
            Some(value) => {
                found.push(value)?;
            }
            None => return Ok(Items::of(found)),
        }
    }
}

/// Reads the values that follow a first one.
pub fn read_after<N: ReadNext>(
    alloc: Global,
    reader: &mut Reader<'_>,
    first: N::Item,
    next: &N,
) -> Result<Items<N::Item>, Unread>
    ensures reads { Reads (λ x. x) (with_prefix (first ∷ []) (many (N.parser next.now) reader.old)) result reader.new }
    ensures within { length reader.new ≤ length reader.old }
{
    let mut found = Vec::new(alloc);
    found.push(first)?;
    read_more(alloc, reader, found, next)
}

/// A value after a single character, as a comma; none where the character doesn't come.
#[derive(Drop)]
pub struct AfterMark<'a, E> {
    pub mark: u8,
    pub value: &'a E,
}

impl<'a, E: ReadOne> ReadNext for AfterMark<'a, E> {
    type Item = E::Item;

    ghost parser = { λ s. after_mark s.mark (E.parser s.value.now) };

    #[tactic(auto, unfolding(crate::specs::Repeat::after_mark, crate::specs::Words::is_mark))]
    fn next(&self, alloc: Global, reader: &mut Reader<'_>) -> Result<Option<E::Item>, Unread> {
        let token = reader.peek();
        if token.is_none() || !is_mark(self.mark, token) {
            return Ok(None);
        }
        reader.advance();
        Ok(Some(self.value.read(alloc, reader)?))
    }
}

/// Reads one value or more, with commas between them.
#[tactic(auto, unfolding(crate::specs::Repeat::comma_list))]
pub fn read_comma_list<E: ReadOne>(
    alloc: Global,
    reader: &mut Reader<'_>,
    value: &E,
) -> Result<Items<E::Item>, Unread>
    ensures reads { Reads (λ x. x) (comma_list (E.parser value.now) reader.old) result reader.new }
    ensures within { length reader.new ≤ length reader.old }
{
    let first = value.read(alloc, reader)?;
    let comma = AfterMark { mark: b',', value };
    read_after(alloc, reader, first, &comma)
}
