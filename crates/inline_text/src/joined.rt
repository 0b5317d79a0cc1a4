//! One text that is made of several, and where each of them ends.

ghost use Rattle.std.specs.Prelude.{◌≡◌, ◌-◌, ◌++◌, [], ℕ, List, length, string_bytes, IfOk, OnOk};
ghost use Rattle.std.specs.Char.{encode_utf8};
ghost use Rattle.std.specs.List.{All};
ghost use Rattle.std.specs.Str.{IsCharBoundary};
ghost use Rattle.inline_text.specs.Joined.{AreTexts, laid_on, laid_texts, reached, repeated};

use bk_num::name::NoMem;
use std::alloc::Global;
use std::marker::Model;

/// Several texts, one after the other in one text, and the byte offsets at which those of them end that are complete.
/// Each is one of a character. Contracts see the bytes and the ends.
#[derive(Drop)]
pub struct JoinedText {
    text: String,
    ends: Vec<usize>,
}

impl Model for JoinedText {
    ghost use Rattle.std.specs.Prelude.{string_bytes};
    ghost use Rattle.std.specs.List.{All};
    ghost use Rattle.std.specs.Str.{IsCharBoundary};
    ghost use Rattle.inline_text.specs.Joined.{Laid};

    ghost Value = { Laid };

    ghost view = { λ j. record { bytes = string_bytes j.text; ends = j.ends.items } };

    ghost invariant = { λ j. All (IsCharBoundary (string_bytes j.text)) j.ends.items };
}

/// Adds an end until there is a number of them.
fn push_ends(ends: &mut Vec<usize>, count: usize, at: usize) -> Result<(), NoMem>
    ensures ends { OnOk result (ends.new.items ≡ ends.old.items ++ repeated (count - length ends.old.items) at) }
    ensures stand { (text : List ℕ) → IsCharBoundary text at → All (IsCharBoundary text) ends.old.items →
        All (IsCharBoundary text) ends.new.items }
{
    while ends.len() < count {
        ends.push(at)?;
    }
    Ok(())
}

impl JoinedText {
    /// No text, with room for some bytes.
    pub fn new(alloc: Global, room: usize) -> Result<JoinedText, NoMem>
        ensures { IfOk result (λ joined. joined ≡ laid_texts []) }
    {
        Ok(JoinedText {
            text: String::with_capacity(alloc, room)?,
            ends: Vec::new(alloc),
        })
    }

    /// Completes texts, until there is a number of them.
    pub fn reach(&mut self, count: usize) -> Result<(), NoMem>
        ensures { OnOk result (self.new ≡ reached self.old count) }
    {
        let at = self.text.len();
        push_ends(&mut self.ends, count, at)
    }

    /// Adds to the text with a number, before which all are completed.
    pub fn push_str(&mut self, number: usize, more: &str) -> Result<(), NoMem>
        ensures { OnOk result (self.new ≡ laid_on self.old number more.now) }
    {
        self.reach(number)?;
        self.text.push_str(more)?;
        Ok(())
    }

    /// Adds a character to the text with a number, before which all are completed.
    pub fn push(&mut self, number: usize, c: char) -> Result<(), NoMem>
        ensures { OnOk result (self.new ≡ laid_on self.old number (encode_utf8 c)) }
    {
        self.reach(number)?;
        self.text.push(c)?;
        Ok(())
    }

    /// The text.
    pub fn text(&self) -> &str
        ensures { result.now ≡ self.now.bytes }
    {
        self.text.as_str()
    }

    /// How many bytes the text has.
    pub fn len(&self) -> usize
        ensures value { result ≡ length self.now.bytes }
        ensures texts { AreTexts self.now }
    {
        self.text.len()
    }

    /// Where the texts end, as byte offsets.
    pub fn ends(&self) -> &[usize]
        ensures value { result.now ≡ self.now.ends }
        ensures stand { All (IsCharBoundary self.now.bytes) self.now.ends }
    {
        self.ends.as_slice()
    }

    /// The text, which has no room left over, and where the texts end in it. It takes no memory.
    pub fn into_parts(self) -> (String, Vec<usize>)
        ensures text { string_bytes result.0 ≡ self.bytes }
        ensures ends { result.1.items ≡ self.ends }
        ensures stand { All (IsCharBoundary self.bytes) self.ends }
    {
        let JoinedText { text, ends } = self;
        let mut text = text;
        text.shrink_to_fit();
        (text, ends)
    }
}
