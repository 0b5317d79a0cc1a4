//! Lists of content as texts.

use crate::printed::{Printed, Written, print_all};
use bk_num::values::NumStyle;
use rows::push_all;
use std::fmt::Debug;
use style::content::{Content, Link, Part};
use style::lists::StringSets;

/// A text between what stands before it and a bracket.
fn closed(into: &mut String, before: &str, text: &str) -> Written {
    push_all(into, &[before, text, ") "])
}

impl Printed for Link {
    fn print(&self, into: &mut String) -> Written {
        match self {
            Link::Attr(name) => closed(into, "attr(", name.as_str()),
            Link::Url(address) => closed(into, "url(", address.as_str()),
        }
    }
}

/// A call with a name and a word of its own.
fn named<T: Debug>(into: &mut String, before: &str, name: &str, word: &T) -> Written {
    write!(into, "{before}{name} {word:?}) ")
}

/// `counters()`, with the text between its values.
fn counters(into: &mut String, name: &str, between: &str, style: NumStyle) -> Written {
    write!(into, "counters({name} \"{between}\" {style:?}) ")
}

fn target(into: &mut String, link: &Link, name: &str, style: NumStyle) -> Written {
    into.push_str("target ")?;
    link.print(into)?;
    named(into, "counter(", name, &style)
}

/// The number of a page, or how many there are.
fn page(into: &mut String, word: &str, style: NumStyle) -> Written {
    write!(into, "{word} {style:?} ")
}

/// A part as CSS has it, with the name of its style in full.
impl Printed for Part {
    fn print(&self, into: &mut String) -> Written {
        match self {
            Part::Text(text) => text.print(into),
            Part::Attr(name) => closed(into, "attr(", name.as_str()),
            Part::Counter(name, style) => named(into, "counter(", name.as_str(), style),
            Part::Counters(name, between, style) => {
                counters(into, name.as_str(), between.as_str(), *style)
            }
            Part::Target(link, name, style) => target(into, link, name.as_str(), *style),
            Part::Own => into.push_str("content() "),
            Part::Running(name, keyword) => named(into, "string(", name.as_str(), keyword),
            Part::Page(style) => page(into, "page", *style),
            Part::Pages(style) => page(into, "pages", *style),
        }
    }
}

impl Printed for Content {
    fn print(&self, into: &mut String) -> Written {
        print_all(into, self.as_slice())
    }
}

impl Printed for StringSets {
    fn print(&self, into: &mut String) -> Written {
        for (name, content) in self.as_slice() {
            push_all(into, &[name.as_str(), ": "])?;
            content.print(into)?;
        }
        Ok(())
    }
}
