//! Words that are known with their points.

ghost use Rattle.std.specs.Prelude.{◌≡◌, ◌≤◌, ◌&&◌, nat_le, length, IfOk, IfSome};
ghost use Rattle.bk_num.specs.Limits.{most_text_bytes};
ghost use Rattle.hyphen.specs.Meaning.{value_in};
ghost use Rattle.soft_hyphens.specs.Known.{HavePoints, points_of, word_points};
ghost use Rattle.soft_hyphens.specs.Words.{least_letters};

use crate::word::is_of_word;
use bk_num::name::NoMem;
use hyphen::Patterns;
use std::alloc::Global;
use std::collections::HashMap;
use std::marker::Model;

/// How many characters stand before a point at least.
const LEFT: u32 = 2;

/// How many characters stand after a point at least.
const RIGHT: u32 = 3;

/// How many letters a word has at least that has a point, and so how many bytes: those before it and those after it.
pub(crate) const LEAST_LETTERS: usize = 5;

/// How many bytes a word has at most that is kept: one that counts has 64 characters.
const MOST_BYTES: usize = 256;

/// How many words are kept at most.
const MOST_WORDS: usize = 65_536;

/// Patterns, and the points of words that were asked of them once: how many bytes stand before each. Contracts see the
/// patterns alone, since what is kept changes no answer.
#[derive(Drop)]
pub struct Hyphenator<'p> {
    patterns: &'p Patterns,
    known: HashMap<String, Vec<u32>>,
}

impl<'p> Model for Hyphenator<'p> {
    ghost use Rattle.hyphen.specs.declared.patterns.Patterns.{Patterns};
    ghost use Rattle.soft_hyphens.specs.Known.{HavePoints, points_of};
    ghost use Rattle.hyphen.specs.Meaning.{value_in};
    ghost use Rattle.hyphen.specs.contracts.patterns.Patterns.{the_row};

    ghost Value = { Patterns };

    ghost coded = { the_row.coded };

    ghost view = { λ h. h.patterns.now };

    ghost invariant = { λ h. HavePoints (value_in h.patterns.now) (points_of h.known) };
}

/// The points of a word by patterns.
fn asked(alloc: Global, patterns: &Patterns, word: &str) -> Result<Vec<u32>, NoMem>
    requires { length word.now ≤ most_text_bytes }
    ensures { IfOk result (λ v. v.items ≡ word_points (value_in patterns.now) word.now) }
{
    patterns.points(alloc, word, LEFT, RIGHT)
}

/// Whether a word has so many bytes that it is worth to be kept.
fn is_kept(word: &str) -> bool
    ensures { result ≡ (nat_le least_letters (length word.now) && nat_le (length word.now) 256) }
{
    LEAST_LETTERS <= word.len() && word.len() <= MOST_BYTES
}

/// Keeps a word with its points, unless it is known, or too short or too long to have any.
fn keep(
    alloc: Global,
    patterns: &Patterns,
    known: &mut HashMap<String, Vec<u32>>,
    word: &str,
) -> Result<(), NoMem>
    requires { HavePoints (value_in patterns.now) (points_of known.old) }
    ensures { HavePoints (value_in patterns.now) (points_of known.new) }
{
    if !is_kept(word) || MOST_WORDS <= known.len() || known.contains_key(word) {
        return Ok(());
    }
    let points = asked(alloc, patterns, word)?;
    let key = String::from_str(alloc, word)?;
    let Ok(_) = known.insert(key, points) else {
        return Err(NoMem);
    };
    Ok(())
}

impl<'p> Hyphenator<'p> {
    /// Patterns, of which no word is known. It takes no memory.
    pub fn new(alloc: Global, patterns: &'p Patterns) -> Hyphenator<'p>
        ensures { result ≡ patterns.now }
    {
        Hyphenator {
            patterns,
            known: HashMap::new(alloc),
        }
    }

    /// The points of a word, if it is known.
    pub(crate) fn known(&self, word: &str) -> Option<&[u32]>
        ensures { IfSome result (λ points. points.now ≡ word_points (value_in self.now) word.now) }
    {
        match self.known.get(word) {
            Some(points) => Some(points.as_slice()),
            None => None,
        }
    }

    /// The points of a word, asked of the patterns.
    pub(crate) fn ask(&self, alloc: Global, word: &str) -> Result<Vec<u32>, NoMem>
        requires { length word.now ≤ most_text_bytes }
        ensures { IfOk result (λ v. v.items ≡ word_points (value_in self.now) word.now) }
    {
        asked(alloc, self.patterns, word)
    }

    /// Keeps a word.
    fn keep(&mut self, alloc: Global, word: &str) -> Result<(), NoMem>
        ensures { self.new ≡ self.old }
    {
        keep(alloc, self.patterns, &mut self.known, word)
    }

    /// Keeps the words of a text, so that they are hyphenated once, however often they are met.
    pub fn learn(&mut self, alloc: Global, text: &str) -> Result<(), NoMem>
        ensures { self.new ≡ self.old }
    {
        for word in text.split(|c: char| !is_of_word(c)) {
            self.keep(alloc, word)?;
        }
        Ok(())
    }
}
