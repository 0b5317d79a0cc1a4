//! Lists of content, of counters and of named strings, as css_content reads them.

use crate::printed::Printed;
use crate::rules::repeated;
use crate::unanswered::{Answered, Unanswered, done};
use css_content::content::{ContentPlace, content};
use css_content::counters::counter_list;
use css_content::strings::string_sets;
use css_words::reader::{Reader, Skipped};
use rows::{part, parts_from};
use std::alloc::Global;

/// Refuses a reader that isn't at its end.
fn at_end(reader: &Reader<'_>) -> Answered {
    match reader.peek() {
        Some(_) => Err(Unanswered::NoReading),
        None => Ok(()),
    }
}

fn print_found<T: Printed + Drop>(into: &mut String, found: T) -> Answered {
    done(found.print(into))
}

fn parts(alloc: Global, into: &mut String, text: &str) -> Answered {
    let mut reader = Reader::new(text, Skipped::CommentsAndSpaces);
    print_found(into, content(alloc, &mut reader, ContentPlace::Content)?)?;
    at_end(&reader)
}

/// Counters, of which one without a number has the number 1.
fn counters(alloc: Global, into: &mut String, text: &str) -> Answered {
    let mut reader = Reader::new(text, Skipped::CommentsAndSpaces);
    print_found(into, counter_list(alloc, &mut reader, 1)?)?;
    at_end(&reader)
}

fn strings(alloc: Global, into: &mut String, text: &str) -> Answered {
    let mut reader = Reader::new(text, Skipped::CommentsAndSpaces);
    print_found(into, string_sets(alloc, &mut reader)?)?;
    at_end(&reader)
}

fn count(alloc: Global, into: &mut String, text: &str) -> Answered {
    let mut reader = Reader::new(text, Skipped::CommentsAndSpaces);
    let count = counter_list(alloc, &mut reader, 1)?.as_slice().len();
    write!(into, "{count}")?;
    at_end(&reader)
}

/// How many counters a text has, whose pieces are repeated.
fn counter_count(alloc: Global, into: &mut String, pieces: &[&str]) -> Answered {
    let text = repeated(alloc, pieces)?;
    count(alloc, into, text.as_str())
}

/// What is asked of lists.
pub(crate) fn answer(alloc: Global, into: &mut String, asked: &[&str]) -> Answered {
    let text = part(asked, 1);
    match part(asked, 0) {
        "content" => parts(alloc, into, text),
        "counters" => counters(alloc, into, text),
        "strings" => strings(alloc, into, text),
        _ => counter_count(alloc, into, parts_from(asked, 1)),
    }
}
