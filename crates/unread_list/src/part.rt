//! The parts of a sheet that have a reading or none.

use css_rules::decls::DeclSlice;

/// Whose declarations stand in a block.
#[derive(Clone, Copy, PartialEq, Eq)]
pub enum Owner {
    /// Those of a ruleset: of elements.
    Elements,
    /// Those of a page rule.
    Page,
    /// Those of a margin box.
    MarginBox,
}

/// A part of a sheet, by its text.
#[derive(Clone, Copy)]
pub enum Part<'a> {
    /// The selectors of a ruleset.
    Selectors(&'a str),
    /// A page rule up to its block, and its page selectors.
    PageSelectors(&'a str, &'a str),
    /// A piece of a block that isn't blank, and the declaration that it is, if it is one.
    Declaration(Owner, &'a str, Option<DeclSlice<'a>>),
    /// An at-rule, up to its block or its end, that gives nothing.
    AtRule(&'a str),
    /// An `@media` rule, up to its block, whose media list isn't read.
    Media(&'a str),
    /// What stands where a ruleset could, and has no block.
    NoBlock(&'a str),
}

/// A part of a sheet, and the line on which it begins, from 1.
#[derive(Clone, Copy)]
pub struct Placed<'a> {
    pub line: usize,
    pub part: Part<'a>,
}

/// What stands at a place of a sheet.
#[derive(Clone, Copy, PartialEq, Eq)]
pub enum Mode {
    /// Rules.
    Rules,
    /// The block of a ruleset.
    Style,
    /// The block of a page rule.
    Page,
    /// The block of a margin box.
    MarginBox,
    /// The block of an at-rule that gives nothing.
    Skipped,
    /// The same in a page rule.
    SkippedInPage,
}

/// What stands at a place of a sheet, and whether an `@media` block is open there.
#[derive(Clone, Copy)]
pub struct State {
    pub inside: bool,
    pub mode: Mode,
}

/// A step of the reader: the part that it passed, if it passed one, and what stands behind it.
#[derive(Clone, Copy)]
pub struct Step<'a> {
    pub part: Option<Placed<'a>>,
    pub state: State,
}
