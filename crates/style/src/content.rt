//! Lists of content (CSS 2.1, 12.2; css-gcpm-3): what `content` and `string-set` print.

ghost use Rattle.std.specs.Prelude.{◌≡◌, IfOk};

use bk_num::name::{Name, NoMem};
use bk_num::values::NumStyle;
use std::alloc::Global;
use std::marker::Model;

/// Where a reference leads to: an attribute's value, or an address.
#[derive(Drop)]
pub enum Link {
    Attr(Name),
    Url(Name),
}

/// Which value of a named string a page prints (css-gcpm-3, `string()`).
#[derive(Clone, Copy, Debug, PartialEq, Eq)]
pub enum Keyword {
    First,
    Start,
    Last,
    FirstExcept,
}

/// A part of a list of content.
#[derive(Drop)]
pub enum Part {
    Text(Name),
    /// `attr()`: the value of an attribute, by its name in lower case.
    Attr(Name),
    /// `counter()`: the innermost value.
    Counter(Name, NumStyle),
    /// `counters()`: all values, with a text between them.
    Counters(Name, Name, NumStyle),
    /// `target-counter()`.
    Target(Link, Name, NumStyle),
    /// `content()`: the element's own text.
    Own,
    /// `string()`, in a margin box.
    Running(Name, Keyword),
    /// The number of the page, in a margin box.
    Page(NumStyle),
    /// How many pages there are, in a margin box.
    Pages(NumStyle),
}

impl Link {
    /// An equal link.
    pub fn copy(&self) -> Result<Link, NoMem>
        ensures { IfOk result (λ link. link ≡ self.now) }
    {
        match self {
            Link::Attr(name) => Ok(Link::Attr(name.copy()?)),
            Link::Url(address) => Ok(Link::Url(address.copy()?)),
        }
    }
}

impl Part {
    /// An equal part.
    pub fn copy(&self) -> Result<Part, NoMem>
        ensures { IfOk result (λ part. part ≡ self.now) }
    {
        match self {
            Part::Text(text) => Ok(Part::Text(text.copy()?)),
            Part::Attr(name) => Ok(Part::Attr(name.copy()?)),
            Part::Counter(name, style) => Ok(Part::Counter(name.copy()?, *style)),
            Part::Counters(name, between, style) => {
                Ok(Part::Counters(name.copy()?, between.copy()?, *style))
            }
            Part::Target(link, name, style) => {
                Ok(Part::Target(link.copy()?, name.copy()?, *style))
            }
            Part::Own => Ok(Part::Own),
            Part::Running(name, keyword) => Ok(Part::Running(name.copy()?, *keyword)),
            Part::Page(style) => Ok(Part::Page(*style)),
            Part::Pages(style) => Ok(Part::Pages(*style)),
        }
    }
}

/// A list of content. Contracts see the list of its parts.
#[derive(Drop)]
pub struct Content {
    parts: Vec<Part>,
}

impl Model for Content {
    ghost use Rattle.std.specs.Prelude.{List};
    ghost use Rattle.style.specs.declared.content.Part.{Part};

    ghost Value = { List Part };

    ghost view = { λ c. c.parts.items };
}

impl Content {
    /// The list of these parts. It takes no memory.
    pub fn of(parts: Vec<Part>) -> Content
        ensures { result ≡ parts.items }
    {
        Content { parts }
    }

    /// The parts in order.
    pub fn as_slice(&self) -> &[Part]
        ensures { result.now ≡ self.now }
    {
        self.parts.as_slice()
    }

    /// An equal list.
    pub fn copy(&self, alloc: Global) -> Result<Content, NoMem>
        ensures { IfOk result (λ content. content ≡ self.now) }
    {
        let mut parts = Vec::new(alloc);
        for part in &self.parts {
            parts.push(part.copy()?)?;
        }
        Ok(Content { parts })
    }
}
