//! A face that is looked up fast.

ghost use Rattle.std.specs.Prelude.{◌≡◌, ◌<◌, ◌≤◌, ◌==◌, not, length, pos, ◌≤ℤ◌, IfOk, Some};
ghost use Rattle.metrics.specs.Face.{IsWithinLimits, advance_number, change_of, paired_number, scaled};
ghost use Rattle.metrics.specs.Table.{AreBegins, IsPairTable, IsTable};

use crate::face_lines::FaceLines;
use crate::pairs::changed;
use bk_num::px::{Px, scale_floor};
use std::alloc::{AllocError, Global};
use std::marker::Model;

/// How many characters the table has: those of one or two bytes in UTF-8.
const TWO_BYTES: usize = 2048;

/// How many ASCII characters there are.
const ASCII: usize = 128;

/// A face, and what makes looking up fast: a table of its advances, and where it has pairs one of the advances of ASCII
/// characters behind ASCII characters, and the places where the pairs of each first character begin.
#[derive(Drop)]
pub(crate) struct Face {
    lines: FaceLines,
    table: [u16; TWO_BYTES],
    pairs: Vec<u16>,
    begins: Vec<usize>,
}

impl Model for Face {
    ghost use Rattle.metrics.specs.Face.{FontFace, IsWithinLimits};
    ghost use Rattle.metrics.specs.Table.{AreBegins, IsPairTable, IsTable};

    ghost Value = { FontFace };

    ghost view = { λ f. f.lines };

    ghost invariant = { λ f. IsWithinLimits f.lines × IsTable f.lines f.table × IsPairTable f.lines f.pairs.items
        × AreBegins f.lines f.begins.items };
}

impl Face {
    /// The face of these lines.
    pub(crate) fn new(alloc: Global, lines: FaceLines) -> Result<Face, AllocError>
        ensures { IfOk result (λ f. f ≡ lines) }
    {
        let table = advance_table(&lines);
        let begins = begin_table(alloc, &lines)?;
        let pairs = pair_table(alloc, &lines, &table, &begins)?;
        Ok(Face {
            lines,
            table,
            pairs,
            begins,
        })
    }

    /// The lines.
    pub(crate) fn lines(&self) -> &FaceLines
        ensures { result.now ≡ self.now }
    {
        &self.lines
    }

    /// The advance of a character at a size.
    #[inline]
    pub(crate) fn advance(&self, size: Px, c: char) -> Px
        requires { pos 0 ≤ℤ size }
        ensures { result ≡ scaled (advance_number self.now c) size self.now.units }
    {
        self.at_size(self.number(c), size)
    }

    /// The advance of a character behind another one at a size.
    pub(crate) fn paired_advance(&self, size: Px, first: char, c: char) -> Px
        requires { pos 0 ≤ℤ size }
        ensures { result ≡ scaled (paired_number self.now (Some first) c) size self.now.units }
    {
        self.at_size(self.paired(first, c), size)
    }

    /// How far the face rises above the baseline at a size.
    pub(crate) fn ascent(&self, size: Px) -> Px
        requires { pos 0 ≤ℤ size }
        ensures { result ≡ scaled self.now.ascent size self.now.units }
    {
        self.at_size(self.lines.ascent(), size)
    }

    /// How far the face falls below the baseline at a size.
    pub(crate) fn descent(&self, size: Px) -> Px
        requires { pos 0 ≤ℤ size }
        ensures { result ≡ scaled self.now.descent size self.now.units }
    {
        self.at_size(self.lines.descent(), size)
    }

    /// How many units the em has.
    pub(crate) fn units(&self) -> u16
        ensures value { result ≡ self.now.units }
        ensures some { 0 < result }
        ensures most { result ≤ 16384 }
    {
        self.lines.units()
    }

    /// The advance of an ASCII character, in units of the em.
    #[inline]
    pub(crate) fn ascii(&self, byte: u8) -> u16
        requires { byte < 128 }
        ensures value { result ≡ advance_number self.now byte }
        ensures most { result ≤ 16384 }
    {
        self.table[byte as usize]
    }

    /// The advance of a character, in units of the em.
    #[inline]
    pub(crate) fn number(&self, c: char) -> u16
        ensures value { result ≡ advance_number self.now c }
        ensures most { result ≤ 16384 }
    {
        let code = c as u32;
        if (code as usize) < TWO_BYTES {
            self.table[code as usize]
        } else {
            self.lines.number(code)
        }
    }

    /// Whether the face has kerning pairs.
    #[inline]
    pub(crate) fn has_pairs(&self) -> bool
        ensures value { result ≡ not (length self.now.pairs == 0) }
    {
        !self.pairs.is_empty()
    }

    /// The advance of a character behind another one, in units of the em.
    #[inline]
    pub(crate) fn paired(&self, first: char, c: char) -> u16
        ensures value { result ≡ paired_number self.now (Some first) c }
        ensures most { result ≤ 16384 }
    {
        if !self.has_pairs() {
            return self.number(c);
        }
        let (before, code) = (first as usize, c as usize);
        if before < ASCII && code < ASCII {
            self.pairs[before * ASCII + code]
        } else {
            self.wide_paired(first, c)
        }
    }

    /// The same, where not both are ASCII.
    #[tactic(auto, unfolding(crate::specs::Face::paired_number))]
    fn wide_paired(&self, first: char, c: char) -> u16
        ensures value { result ≡ paired_number self.now (Some first) c }
        ensures most { result ≤ 16384 }
    {
        let change = change_at(&self.lines, &self.begins, first as u32, c as u32);
        changed(self.number(c), change)
    }

    /// A number of units of the em at a size.
    #[inline]
    #[tactic(auto, unfolding(crate::specs::Face::scaled))]
    fn at_size(&self, number: u16, size: Px) -> Px
        requires most { number ≤ 16384 }
        requires size { pos 0 ≤ℤ size }
        ensures { result ≡ scaled number size self.now.units }
    {
        let lines = &self.lines;
        scale_floor(number as u32, size, lines.units() as u32)
    }
}

/// The advances of the characters that the table has.
fn advance_table(lines: &FaceLines) -> [u16; TWO_BYTES]
    ensures { IsTable lines.now result }
{
    let mut table = [0; TWO_BYTES];
    for c in 0..TWO_BYTES {
        table[c] = lines.number(c as u32);
    }
    table
}

/// The places where the pairs of each first character of one or two bytes begin, and where those of the last one end;
/// none where the face has no pairs.
fn begin_table(alloc: Global, lines: &FaceLines) -> Result<Vec<usize>, AllocError>
    ensures { IfOk result (λ t. AreBegins lines.now t.items) }
{
    let size = if lines.has_pairs() { TWO_BYTES + 1 } else { 0 };
    let mut table = Vec::new(alloc);
    for first in 0..size {
        table.push(lines.begin_of(first as u32))?;
    }
    Ok(table)
}

/// By how much the second one of two characters is further from the first one than by its advance, by a table of where
/// the pairs begin.
fn change_at(lines: &FaceLines, begins: &[usize], first: u32, c: u32) -> i16
    requires { AreBegins lines.now begins.now }
    ensures value { result ≡ change_of lines.now first c }
    ensures limits { IsWithinLimits lines.now }
{
    let at = first as usize;
    if at + 1 < begins.len() {
        lines.change_between(begins[at], begins[at + 1], first, c)
    } else {
        lines.change(first, c)
    }
}

/// The advance of an ASCII character behind another one, by the tables.
#[tactic(auto, unfolding(crate::specs::Face::paired_number))]
fn ascii_paired(
    lines: &FaceLines,
    advances: &[u16; TWO_BYTES],
    begins: &[usize],
    first: usize,
    c: usize,
) -> u16
    requires advances { IsTable lines.now advances.now }
    requires begins { AreBegins lines.now begins.now }
    requires first { first < 128 }
    requires c { c < 128 }
    ensures { result ≡ paired_number lines.now (Some first) c }
{
    let change = change_at(lines, begins, first as u32, c as u32);
    changed(advances[c], change)
}

/// The advances of ASCII characters behind ASCII characters; none where the face has no pairs.
fn pair_table(
    alloc: Global,
    lines: &FaceLines,
    advances: &[u16; TWO_BYTES],
    begins: &[usize],
) -> Result<Vec<u16>, AllocError>
    requires advances { IsTable lines.now advances.now }
    requires begins { AreBegins lines.now begins.now }
    ensures { IfOk result (λ t. IsPairTable lines.now t.items) }
{
    let size = if lines.has_pairs() { ASCII * ASCII } else { 0 };
    let mut table = Vec::new(alloc);
    for k in 0..size {
        table.push(ascii_paired(lines, advances, begins, k / ASCII, k % ASCII))?;
    }
    Ok(table)
}
