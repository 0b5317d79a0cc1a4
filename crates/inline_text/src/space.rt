//! White space over the parts of a leaf (CSS 2.1, 16.6.1).

ghost use Rattle.std.specs.Prelude.{◌≡◌, ◌<◌, ◌≤◌, ◌++◌, ◌∷◌, [], List, ℕ, false, true, length, IfOk, OnOk, slice_index};
ghost use Rattle.inline_text.specs.Joined.{AreTexts, laid_on, laid_texts};
ghost use Rattle.inline_text.specs.Passed.{HasPassed};
ghost use Rattle.inline_text.specs.Space.{Char, class_of, chars_of_part, collapsed};
ghost use Rattle.inline_text.specs.Space as spec;
ghost use Rattle.inline_text.specs.Gaps.{is_joint, is_white, laid, left_from, next_gap, put_of, settled, stops};
ghost use Rattle.inline_text.specs.declared.space.TextPart.{TextPart};

use crate::joined::JoinedText;
use crate::part::BorrowedPart;
use bk_num::items::Items;
use bk_num::name::{Name, NoMem};
use bk_num::values::WhiteSpace;
use std::alloc::Global;

/// What stands for a tab that is kept: eight spaces.
const TAB: &str = "        ";

/// A part of a leaf's text: a text node or a generated text, and how its white space is treated.
#[derive(Drop)]
pub struct TextPart {
    pub text: Name,
    pub space: WhiteSpace,
}

/// What a character is to the collapsing of white space.
#[derive(Clone, Copy, PartialEq, Eq)]
pub(crate) enum CharClass {
    /// A space or a tab that collapses.
    Blank,
    /// A newline that is a space.
    SoftBreak,
    /// A newline that ends its line.
    HardBreak,
    /// A tab that is kept.
    Tab,
    /// Any other character.
    Plain,
}

/// What stands before the next character.
#[derive(Clone, Copy)]
pub(crate) enum Gap {
    /// A space that collapses, a newline, or the leaf's start.
    Spaced,
    /// A space of the part with this number, which is put where no newline follows.
    Pending(usize),
    /// Any other character.
    Open,
}

fn collapses(space: WhiteSpace) -> bool
    ensures { result ≡ spec.collapses space }
{
    match space {
        WhiteSpace::Normal | WhiteSpace::NoWrap | WhiteSpace::PreLine => true,
        WhiteSpace::Pre | WhiteSpace::PreWrap => false,
    }
}

fn folds_newlines(space: WhiteSpace) -> bool
    ensures { result ≡ spec.folds_newlines space }
{
    match space {
        WhiteSpace::Normal | WhiteSpace::NoWrap => true,
        WhiteSpace::Pre | WhiteSpace::PreWrap | WhiteSpace::PreLine => false,
    }
}

fn class_of(c: char, space: WhiteSpace) -> CharClass
    ensures { result ≡ class_of c space }
{
    match c {
        ' ' if collapses(space) => CharClass::Blank,
        '\t' if collapses(space) => CharClass::Blank,
        '\t' => CharClass::Tab,
        '\n' if folds_newlines(space) => CharClass::SoftBreak,
        '\n' => CharClass::HardBreak,
        _ => CharClass::Plain,
    }
}

fn next_gap(gap: Gap, class: CharClass, part: usize) -> Gap
    ensures { result ≡ next_gap gap class part }
{
    match class {
        CharClass::Blank => match gap {
            Gap::Open => Gap::Pending(part),
            _ => gap,
        },
        CharClass::SoftBreak | CharClass::HardBreak => Gap::Spaced,
        CharClass::Tab | CharClass::Plain => Gap::Open,
    }
}

/// Puts the space that isn't yet put, at the end of its part's text: the parts after it are empty so far.
fn settle(joined: &mut JoinedText, gap: Gap) -> Result<(), NoMem>
    ensures { OnOk result (joined.new ≡ settled joined.old gap) }
{
    match gap {
        Gap::Pending(part) => joined.push_str(part, " "),
        Gap::Spaced | Gap::Open => Ok(()),
    }
}

/// Puts what is left of a character.
fn put(
    joined: &mut JoinedText,
    gap: Gap,
    class: CharClass,
    c: char,
    part: usize,
) -> Result<(), NoMem>
    ensures { OnOk result (joined.new ≡ put_of joined.old gap class c part) }
{
    match class {
        CharClass::Blank => Ok(()),
        CharClass::SoftBreak => match gap {
            Gap::Spaced => Ok(()),
            Gap::Pending(_) | Gap::Open => joined.push_str(part, " "),
        },
        CharClass::HardBreak => joined.push(part, c),
        CharClass::Tab => {
            settle(joined, gap)?;
            joined.push_str(part, TAB)
        }
        CharClass::Plain => {
            settle(joined, gap)?;
            joined.push(part, c)
        }
    }
}

/// Whether a byte is a space, a tab or a newline.
fn is_white(byte: u8) -> bool
    ensures { result ≡ is_white byte }
{
    byte == b' ' || byte == b'\t' || byte == b'\n'
}

/// Whether a byte of a text is a space that no white space follows, before the text's end.
fn is_joint(bytes: &[u8], at: usize) -> bool
    requires { at < length bytes.now }
    ensures { result ≡ is_joint bytes.now at }
{
    bytes[at] == b' ' && at + 1 < bytes.len() && !is_white(bytes[at + 1])
}

/// Whether the words that begin at an offset end before a byte: at white space that isn't one space between two words.
#[inline]
fn stops(bytes: &[u8], from: usize, at: usize) -> bool
    requires { at < length bytes.now }
    ensures { result ≡ stops bytes.now from at }
{
    is_white(bytes[at]) && (at == from || !is_joint(bytes, at))
}

/// Where the words end that begin at an offset, with one space between two: at other white space, or at the end.
fn word_end(bytes: &[u8], from: usize) -> usize
    requires { from < length bytes.now }
    ensures start { from ≤ result }
    ensures end { result ≤ length bytes.now }
    ensures word { (k : ℕ) → from ≤ k → k < result → stops bytes.now from k ≡ false }
    ensures white { result < length bytes.now → is_white (slice_index bytes.now result) ≡ true }
{
    for at in from..bytes.len() {
        if stops(bytes, from, at) {
            return at;
        }
    }
    bytes.len()
}

/// Puts words whole: none of their characters changes or goes.
fn put_word(joined: &mut JoinedText, gap: Gap, word: &str, part: usize) -> Result<(), NoMem>
    ensures { OnOk result (joined.new ≡ laid_on (settled joined.old gap) part word.now) }
{
    settle(joined, gap)?;
    joined.push_str(part, word)
}

/// Passes a part, and answers what stands before the next one.
fn pass_part(
    joined: &mut JoinedText,
    gap: Gap,
    part: &BorrowedPart,
    index: usize,
) -> Result<Gap, NoMem>
    ensures { IfOk result (λ g. (rest : List Char) →
        laid joined.old (left_from gap (chars_of_part index part.now ++ rest)) ≡ laid joined.new (left_from g rest)) }
{
    let text = part.text();
    let bytes = text.as_bytes();
    let space = part.space();
    let mut gap = gap;
    let mut at = 0;
    while at < bytes.len() {
        let to = word_end(bytes, at);
        if at < to {
            put_word(joined, gap, &text[at..to], index)?;
            gap = Gap::Open;
            at = to;
        } else {
            let c = bytes[at] as char;
            let class = class_of(c, space);
            put(joined, gap, class, c, index)?;
            gap = next_gap(gap, class, index);
            at += 1;
        }
    }
    Ok(gap)
}

/// The parts of one leaf that are passed so far, with their white space collapsed: their texts, what stands before the
/// next character, and how many parts there are. Each part may be let go once it is passed.
#[derive(Drop)]
pub struct Collapser {
    joined: JoinedText,
    gap: Gap,
    parts: usize,
}

impl Collapser {
    /// No part, with room for some bytes.
    pub fn new(alloc: Global, room: usize) -> Result<Collapser, NoMem>
        ensures { IfOk result (λ c. HasPassed c []) }
    {
        Ok(Collapser {
            joined: JoinedText::new(alloc, room)?,
            gap: Gap::Spaced,
            parts: 0,
        })
    }

    /// Passes one more part. Each character that is left is copied once.
    ///
    /// # Errors
    ///
    /// `NoMem`, also where there are 2^64 parts.
    pub fn pass(&mut self, part: &BorrowedPart) -> Result<(), NoMem>
        ensures { (parts : List TextPart) → HasPassed self.old parts →
            OnOk result (HasPassed self.new (parts ++ part.now ∷ [])) }
    {
        let Some(next) = self.parts.checked_add(1) else {
            return Err(NoMem);
        };
        self.gap = pass_part(&mut self.joined, self.gap, part, self.parts)?;
        self.parts = next;
        Ok(())
    }

    /// How many bytes the text so far has: that of all parts has no fewer, whichever are passed later.
    pub fn len(&self) -> usize
        ensures value { result ≡ length self.now.joined.bytes }
        ensures texts { AreTexts self.now.joined }
    {
        self.joined.len()
    }

    /// The text of the parts that are passed, and where the text of each of them ends in it.
    pub fn finish(self) -> Result<JoinedText, NoMem>
        ensures { (parts : List TextPart) → HasPassed self parts →
            IfOk result (λ joined. joined ≡ laid_texts (collapsed parts)) }
    {
        let Collapser { joined, gap, parts } = self;
        let mut joined = joined;
        settle(&mut joined, gap)?;
        joined.reach(parts)?;
        Ok(joined)
    }
}

/// How many bytes parts have together, or the greatest number.
fn room_of(parts: &[BorrowedPart]) -> usize {
    let mut room: usize = 0;
    for part in parts {
        room = room.saturating_add(part.text().len());
    }
    room
}

/// The text of the parts of one leaf with their white space collapsed, and where the text of each part ends in it.
///
/// It is that of `collapse`, and each character that is left is copied once. Time is linear in the texts.
pub fn collapse_joined(alloc: Global, parts: &[BorrowedPart]) -> Result<JoinedText, NoMem>
    ensures { IfOk result (λ joined. joined ≡ laid_texts (collapsed parts.now)) }
{
    let mut collapser = Collapser::new(alloc, room_of(parts))?;
    for part in parts {
        collapser.pass(part)?;
    }
    collapser.finish()
}

/// The same parts, borrowed.
fn borrowed<'a>(alloc: Global, parts: &'a [TextPart]) -> Result<Vec<BorrowedPart<'a>>, NoMem>
    ensures { IfOk result (λ v. v.items ≡ parts.entry.now) }
{
    let mut borrowed = Vec::new(alloc);
    for part in parts {
        borrowed.push(BorrowedPart::new(part.text.as_str(), part.space))?;
    }
    Ok(borrowed)
}

/// The texts of the parts of one leaf with their white space collapsed, one for each part (CSS 2.1, 16.6.1).
///
/// Spaces and tabs that collapse go round newlines, and after a space that collapses, a newline or the leaf's start,
/// whichever parts they stand in. A newline of `Normal` and `NoWrap` is a space, and a tab that is kept is eight
/// spaces. Time is linear in the texts.
pub fn collapse(alloc: Global, parts: &[TextPart]) -> Result<Items<Name>, NoMem>
    ensures { IfOk result (λ names. names ≡ collapsed parts.now) }
{
    let joined = collapse_joined(alloc, &borrowed(alloc, parts)?)?;
    let text = joined.text();
    let mut names = Items::new(alloc);
    let mut from = 0;
    for to in joined.ends() {
        names.push(Name::new(alloc, &text[from..*to])?)?;
        from = *to;
    }
    Ok(names)
}
