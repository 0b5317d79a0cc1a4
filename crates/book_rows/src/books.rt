//! Books as texts: a title, sections of what is asked, and sections of what is wanted.

use crate::faults::push_answers;
use crate::levels::push_levels;
use crate::runs::push_run;
use bk_num::name::NoMem;
use std::alloc::Global;

/// A section of a book: the words of its heading, and its text.
#[derive(Clone, Copy, Debug)]
pub(crate) struct Section<'a> {
    pub(crate) heading: &'a str,
    pub(crate) text: &'a str,
}

/// What is shown of a listing.
#[derive(Clone, Copy, Debug, PartialEq, Eq)]
pub(crate) enum View {
    /// All of it.
    Listing,
    /// How many lines each page has.
    Lines,
    /// How many pages, lines and texts it has.
    Counts,
}

/// A text up to a heading.
fn before<'a>(text: &'a str, heading: &str) -> &'a str {
    match text.split_once(heading) {
        Some((before, _rest)) => before,
        None => text,
    }
}

/// A book up to the first section of what is wanted.
fn asked_of(book: &str) -> &str {
    let asked = before(before(book, "\n== listing"), "\n== lines");
    before(
        before(before(asked, "\n== counts"), "\n== levels"),
        "\n== answer",
    )
}

/// The sections of what a book asks.
fn sections<'a>(alloc: Global, asked: &'a str) -> Result<Vec<Section<'a>>, NoMem> {
    let mut sections = Vec::new(alloc);
    for part in asked.split("\n== ").skip(1) {
        let (heading, text) = part.split_once('\n').unwrap_or((part, ""));
        sections.push(Section { heading, text })?;
    }
    Ok(sections)
}

/// Puts a book at the end, with what its run gives in place of what is wanted.
fn push_answered(printed: &mut String, alloc: Global, book: &str) -> Result<(), NoMem> {
    let asked = asked_of(book);
    printed.push_str("\n= ")?;
    printed.push_str(asked)?;
    let sections = sections(alloc, asked)?;
    if book.contains("\n== levels") {
        push_levels(printed, alloc, &sections)
    } else if book.contains("\n== answers") {
        push_answers(printed, alloc, &sections)
    } else if book.contains("\n== counts") {
        push_run(printed, alloc, &sections, View::Counts)
    } else if book.contains("\n== lines") {
        push_run(printed, alloc, &sections, View::Lines)
    } else {
        push_run(printed, alloc, &sections, View::Listing)
    }
}

/// A text of books with answers in place of those that are wanted.
pub(crate) fn answered(alloc: Global, text: &str) -> Result<String, NoMem> {
    let mut books = text.split("\n= ");
    let mut printed = String::from_str(alloc, books.next().unwrap_or(""))?;
    for book in books {
        push_answered(&mut printed, alloc, book)?;
    }
    Ok(printed)
}
