//! What a selector is.

ghost use Rattle.std.specs.Prelude.{◌≡◌, ◌≤◌, ◌+◌, length};

use crate::short::Few;
use bk_num::items::Items;
use bk_num::name::Name;
use bk_num::values::Pseudo;
use std::marker::Model;

/// How an attribute's value is tested (Selectors 3, 6.3.1 and 6.3.2).
#[derive(Clone, Copy, Debug, PartialEq, Eq)]
pub enum AttrTest {
    /// `[a]`.
    Has,
    /// `[a=v]`.
    Equals,
    /// `[a~=v]`: a word of the value.
    Word,
    /// `[a|=v]`: the value, or its prefix up to a `-`.
    Dash,
    /// `[a^=v]`.
    Starts,
    /// `[a$=v]`.
    Ends,
    /// `[a*=v]`.
    Holds,
}

/// A simple selector other than a type. Names of attributes are in lower case.
#[derive(Drop)]
pub enum Test {
    Id(Name),
    Class(Name),
    /// An attribute's name, how it is tested, and the value, which is empty for `Has`.
    Attr(Name, AttrTest, Name),
    /// `:nth-child(an+b)`, by a and b.
    Nth(i64, i64),
    Root,
    FirstChild,
    LastChild,
    OnlyChild,
    FirstOfType,
    LastOfType,
    Empty,
    Link,
}

/// A type in lower case, or None for `*` and for no type, and tests.
#[derive(Drop)]
pub struct Plain {
    pub name: Option<Name>,
    pub tests: Few<Test>,
}

/// A compound: what the node must fit, and what it must not (`:not`).
#[derive(Drop)]
pub struct Compound {
    pub plain: Plain,
    pub nots: Few<Plain>,
}

/// A combinator, between the compound before it and the one after it.
#[derive(Clone, Copy, Debug, PartialEq, Eq)]
pub enum Join {
    /// White space: an ancestor.
    Inside,
    /// `>`: the parent.
    Child,
    /// `+`: the element sibling just before.
    Next,
    /// `~`: an element sibling before.
    Later,
}

/// One to sixteen compounds, with one join fewer, and a pseudo-element or none. Contracts see these three.
#[derive(Drop)]
pub struct Selector {
    pub(crate) parts: Few<Compound>,
    pub(crate) joins: Few<Join>,
    pub(crate) pseudo: Pseudo,
}

impl Model for Selector {
    ghost use Rattle.selectors.specs.Selectors.{SelectorView, IsSelector};

    ghost Value = { SelectorView };

    ghost view = { λ s. record { parts = s.parts; joins = s.joins; pseudo = s.pseudo } };

    ghost invariant = { λ s. IsSelector (record { parts = s.parts; joins = s.joins; pseudo = s.pseudo }) };
}

impl Selector {
    /// The compounds, from left to right.
    pub fn parts(&self) -> &[Compound]
        ensures parts { result.now ≡ self.now.parts }
        ensures few { length result.now ≤ 16 }
        ensures joins { length result.now ≡ length self.now.joins + 1 }
    {
        self.parts.as_slice()
    }

    /// The combinators between the compounds.
    pub fn joins(&self) -> &[Join]
        ensures { result.now ≡ self.now.joins }
    {
        self.joins.as_slice()
    }
}

/// The pseudo-element that a selector names, or the element itself. It takes no memory.
pub fn pseudo(s: &Selector) -> Pseudo
    ensures { result ≡ s.now.pseudo }
{
    s.pseudo
}

/// The selectors of a list.
#[derive(Drop)]
pub struct SelectorList {
    pub items: Items<Selector>,
}
