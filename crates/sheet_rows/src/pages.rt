//! Page rules as css_page reads them.

use crate::printed::{Printed, Written, print_all, shown};
use crate::unanswered::{Answered, Unanswered, done};
use css_page::rules::{PageRule, read_page_rule};
use css_page::selectors::{PageSelector, read_selectors};
use css_page::sizes::PageSize;
use css_page::values::{PageDecl, PageLong, Upright};
use css_rules::pages::PageSlice;
use css_rules::sheet::read_sheet;
use rows::part;
use std::alloc::Global;

fn push_times(into: &mut String, word: &str, times: u32) -> Written {
    for _ in 0..times {
        into.push_str(word)?;
    }
    Ok(())
}

/// A selector's name, `*` where it has none, and then its pseudo-classes by their names.
impl Printed for PageSelector {
    fn print(&self, into: &mut String) -> Written {
        let name = match &self.name {
            Some(name) => name.as_str(),
            None => "*",
        };
        into.push_str(name)?;
        push_times(into, ":first", self.firsts)?;
        push_times(into, ":blank", self.blanks)?;
        push_times(into, ":left", self.lefts)?;
        push_times(into, ":right", self.rights)?;
        into.push_str(" ")
    }
}

fn selectors(alloc: Global, into: &mut String, text: &str) -> Answered {
    match read_selectors(alloc, text)? {
        Some(found) => done(print_all(into, found.as_slice())),
        None => Err(Unanswered::NoReading),
    }
}

impl Printed for PageSize {
    fn print(&self, into: &mut String) -> Written {
        self.width.print(into)?;
        self.height.print(into)
    }
}

impl Printed for Upright {
    fn print(&self, into: &mut String) -> Written {
        shown(into, self)
    }
}

fn named<T: Printed>(into: &mut String, name: &str, value: &T) -> Written {
    into.push_str(name)?;
    value.print(into)
}

/// A longhand's name and its value.
impl Printed for PageLong {
    fn print(&self, into: &mut String) -> Written {
        match self {
            PageLong::Size(given) => named(into, "size ", given),
            PageLong::MarginTop(given) => named(into, "top ", given),
            PageLong::MarginRight(given) => named(into, "right ", given),
            PageLong::MarginBottom(given) => named(into, "bottom ", given),
            PageLong::MarginLeft(given) => named(into, "left ", given),
            PageLong::Color(given) => named(into, "color ", given),
            PageLong::FontFamily(given) => named(into, "family ", given),
            PageLong::FontSize(given) => named(into, "size of font ", given),
            PageLong::FontStyle(given) => named(into, "italic ", given),
            PageLong::FontWeight(given) => named(into, "weight ", given),
            PageLong::LineHeight(given) => named(into, "height ", given),
            PageLong::Content(given) => named(into, "content ", given),
            PageLong::TextAlign(given) => named(into, "text ", given),
            PageLong::VerticalAlign(given) => named(into, "vertical ", given),
        }
    }
}

impl Printed for PageDecl {
    fn print(&self, into: &mut String) -> Written {
        print_all(into, self.longs.as_slice())
    }
}

/// The declarations of a page and of its boxes.
fn print_rule(into: &mut String, rule: &PageRule) -> Written {
    print_all(into, rule.decls.as_slice())?;
    for (_, decls) in rule.boxes.as_slice() {
        print_all(into, decls.as_slice())?;
    }
    Ok(())
}

/// How many longhands each declaration of a page rule gives, `!` where it is important, and the number of each of its
/// boxes and of that box's declarations.
fn counts(into: &mut String, rule: &PageRule) -> Written {
    for decl in rule.decls.as_slice() {
        let mark = if decl.important { "!" } else { "" };
        write!(into, "{}{mark} ", decl.longs.as_slice().len())?;
    }
    for (number, decls) in rule.boxes.as_slice() {
        write!(into, "{number}:{} ", decls.as_slice().len())?;
    }
    Ok(())
}

/// What is asked of a page rule.
fn of_rule(into: &mut String, call: &str, rule: &PageRule) -> Written {
    match call {
        "page_rules" => counts(into, rule),
        _ => print_rule(into, rule),
    }
}

fn of_slice(alloc: Global, into: &mut String, call: &str, slice: &PageSlice<'_>) -> Answered {
    match read_page_rule(alloc, slice)? {
        Some(rule) => done(of_rule(into, call, &rule)),
        None => Ok(()),
    }
}

/// What is asked of the page rules of a sheet.
fn of_sheet(alloc: Global, into: &mut String, call: &str, text: &str) -> Answered {
    let sheet = read_sheet(alloc, text)?;
    for slice in &sheet.pages {
        of_slice(alloc, into, call, slice)?;
    }
    Ok(())
}

/// What the declarations of a rule give, whose text is cut off after them.
fn declared(alloc: Global, into: &mut String, before: &str, text: &str) -> Answered {
    let text = format!(in alloc; "{before}{text}")?;
    of_sheet(alloc, into, "", text.as_str())?;
    if into.is_empty() {
        return Err(Unanswered::NoReading);
    }
    Ok(())
}

/// What is asked of page rules.
pub(crate) fn answer(alloc: Global, into: &mut String, parts: &[&str]) -> Answered {
    let text = part(parts, 1);
    match part(parts, 0) {
        "page_selectors" => selectors(alloc, into, text),
        "page" => declared(alloc, into, "@page{", text),
        "box" => declared(alloc, into, "@page{@top-left{", text),
        call => of_sheet(alloc, into, call, text),
    }
}
