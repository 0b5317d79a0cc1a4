//! Patterns, and the points of a word.

ghost use Rattle.std.specs.Prelude.{◌≡◌, ℕ, ◌+◌, ◌-◌, ◌≤◌, ◌<◌, ◌^◌, List, length, map, max, IfOk, OnOk, slice_index, ◌==◌, ◌&&◌, ◌%◌, nat_le};
ghost use Rattle.std.specs.Char.{to_ascii_lowercase};
ghost use Rattle.bk_num.specs.Limits.{most_text_bytes};
ghost use Rattle.hyphen.specs.Fields.{two_values};
ghost use Rattle.hyphen.specs.Pattern.{value_of};
ghost use Rattle.hyphen.specs.Points.{letters_of, points_of};
ghost use Rattle.hyphen.specs.Pieces.{pieces_from};

use crate::pattern::Pattern;
use crate::tree::Node;
use bk_num::name::NoMem;
use std::alloc::Global;

/// Patterns by which words are hyphenated.
#[derive(Drop)]
pub struct Patterns {
    anywhere: Node,
    at_start: Node,
}

impl Patterns {
    ghost use Rattle.hyphen.specs.Meaning.{value_in};
    ghost use Rattle.hyphen.specs.Read.{pattern_view};

    /// No patterns.
    #[tactic(auto, unfolding(crate::specs::Meaning::value_in))]
    pub(crate) fn new(alloc: Global) -> Patterns
        ensures { (word : List ℕ) (place : ℕ) → value_in result word place ≡ 0 }
    {
        Patterns {
            anywhere: Node::new(alloc),
            at_start: Node::new(alloc),
        }
    }

    /// Adds a pattern.
    pub(crate) fn add(&mut self, alloc: Global, pattern: Pattern) -> Result<(), NoMem>
        requires { 0 < length pattern.letters.items }
        ensures { OnOk result ((word : List ℕ) (place : ℕ) → value_in self.new word place ≡
            max (value_in self.old word place) (value_of (pattern_view pattern) word place)) }
    {
        let Pattern {
            starts,
            letters,
            values,
            ends,
        } = pattern;
        if starts {
            self.at_start.put(alloc, &letters, ends, values)
        } else {
            self.anywhere.put(alloc, &letters, ends, values)
        }
    }

    /// Raises the values of a word by those of the pieces from a place on.
    fn raise_from(&self, values: &mut Vec<u8>, word: &[char], at: usize)
        requires len { length values.old.items ≡ length word.now + 1 }
        requires place { at ≤ length word.now }
        ensures len { length values.new.items ≡ length values.old.items }
        ensures greater { (q : ℕ) → q < length values.old.items → slice_index values.new.items q ≡
            max (slice_index values.old.items q)
            (pieces_from (two_values self.now.anywhere self.now.at_start) word.now q at) }
    {
        self.anywhere.raise_from(values, word, at);
        if at == 0 {
            self.at_start.raise_from(values, word, at);
        }
    }

    /// The value of each place of a word.
    #[tactic(auto, unfolding(crate::specs::Meaning::value_in, crate::specs::Pieces::pieces_value))]
    fn values(&self, alloc: Global, word: &[char]) -> Result<Vec<u8>, NoMem>
        requires { length word.now < 2 ^ 32 }
        ensures len { IfOk result (λ v. length v.items ≡ length word.now + 1) }
        ensures values { IfOk result (λ v. (q : ℕ) → q ≤ length word.now →
            slice_index v.items q ≡ value_in self.now word.now q) }
    {
        let mut values = vec![in alloc; 0; word.len() + 1]?;
        for at in 0..word.len() {
            self.raise_from(&mut values, word, at);
        }
        Ok(values)
    }

    /// The points of a word, where it may be hyphenated: offsets in bytes, in order. At least `left`
    /// characters stand before a point, and `right` after it.
    pub fn points(
        &self,
        alloc: Global,
        word: &str,
        left: u32,
        right: u32,
    ) -> Result<Vec<u32>, NoMem>
        requires { length word.now ≤ most_text_bytes }
        ensures { IfOk result (λ v. v.items ≡ points_of (value_in self.now) word.now left right) }
    {
        let letters = letters(alloc, word)?;
        let mut points = Vec::new(alloc);
        if letters.len() < left as usize + right as usize {
            return Ok(points);
        }
        let values = self.values(alloc, &letters)?;
        let mut offset = 0;
        for place in 0..letters.len() {
            if is_point(values[place], place, letters.len() - place, left, right) {
                points.push(offset)?;
            }
            offset += letters[place].len_utf8() as u32;
        }
        Ok(points)
    }
}

/// The letters of a word: its characters, those of ASCII in lower case.
#[tactic(auto, unfolding(crate::specs::Points::letters_of))]
fn letters(alloc: Global, word: &str) -> Result<Vec<char>, NoMem>
    ensures letters { IfOk result (λ v. v.items ≡ letters_of word.now) }
    ensures few { IfOk result (λ v. length v.items ≤ length word.now) }
{
    Ok(word.chars().map(|c| c.to_ascii_lowercase()).collect(alloc)?)
}

/// Whether a place is a point, by its value and how many letters stand before it and after.
fn is_point(value: u8, before: usize, after: usize, left: u32, right: u32) -> bool
    ensures { result ≡ (value % 2 == 1 && (nat_le 1 before && nat_le left before) && nat_le right after) }
{
    value % 2 == 1 && (1 <= before && left as usize <= before) && right as usize <= after
}
