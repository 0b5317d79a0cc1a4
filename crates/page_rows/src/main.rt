//! Worked rows of pages: their rules, their notes, cuts of trees into pages, what stands on them and how it is printed.
//! A line of standard input is `CALL|PART|PART.. => ANSWER`, with the answer that is wanted; it is printed again with
//! the answer that the libraries give. So `stdout` is a copy of `stdin`.
#![tactic(auto)]

mod flows;
mod lines_cut;
mod margin_texts;
mod notation;
mod note_area;
mod page_places;
mod page_rules;
mod painted;
mod records;
mod references;
mod running_strings;
mod side_by_side;
mod tree_pages;

use crate::notation::unknown;
use bk_num::name::NoMem;
use rows::question_of;
use std::alloc::Global;
use std::io::{Error, ErrorKind};

/// What a question is about.
#[derive(Clone, Copy)]
enum Topic {
    NoteArea,
    LinesCut,
    TreePages,
    PagePlaces,
    SideBySide,
    References,
    RunningStrings,
    PageRules,
    MarginTexts,
    Painted,
    Records,
    Unknown,
}

/// The calls of each topic.
const TOPICS: [(Topic, &[&str]); 11] = [
    (Topic::NoteArea, &["area", "carry", "must", "placed"]),
    (Topic::LinesCut, &["cut", "read"]),
    (
        Topic::TreePages,
        &["tops", "pages", "solids", "walks", "cut_at"],
    ),
    (Topic::PagePlaces, &["frame", "side", "place", "numbers"]),
    (Topic::SideBySide, &["column", "met", "fold"]),
    (Topic::References, &["shown", "changed", "difference"]),
    (Topic::RunningStrings, &["strings", "string_on", "assigned"]),
    (
        Topic::PageRules,
        &["tops_of", "page_box", "box_text", "box_font", "box_place"],
    ),
    (Topic::MarginTexts, &["margins"]),
    (Topic::Painted, &["paint"]),
    (Topic::Records, &["listing", "long_listing"]),
];

/// What a call is about.
fn topic_of(call: &str) -> Topic {
    for (topic, calls) in &TOPICS {
        if calls.contains(&call) {
            return *topic;
        }
    }
    Topic::Unknown
}

/// The answer to the parts of a question, `?` where it has no known form.
fn answer_to(alloc: Global, parts: &[&str]) -> Result<String, NoMem> {
    match topic_of(parts.first().unwrap_or(&"")) {
        Topic::NoteArea => note_area::answer(alloc, parts),
        Topic::LinesCut => lines_cut::answer(alloc, parts),
        Topic::TreePages => tree_pages::answer(alloc, parts),
        Topic::PagePlaces => page_places::answer(alloc, parts),
        Topic::SideBySide => side_by_side::answer(alloc, parts),
        Topic::References => references::answer(alloc, parts),
        Topic::RunningStrings => running_strings::answer(alloc, parts),
        Topic::PageRules => page_rules::answer(alloc, parts),
        Topic::MarginTexts => margin_texts::answer(alloc, parts),
        Topic::Painted => painted::answer(alloc, parts),
        Topic::Records => records::answer(alloc, parts),
        Topic::Unknown => unknown(alloc),
    }
}

/// The answer to a question.
fn answer(alloc: Global, question: &str) -> Result<String, NoMem> {
    let parts: Vec<&str> = question.split('|').collect(alloc)?;
    answer_to(alloc, parts.as_slice())
}

/// A row with the answer of the libraries in place of the one that is wanted; any other line as it is.
fn answered(alloc: Global, line: &str) -> Result<String, NoMem> {
    match question_of(line) {
        Some(question) => Ok(format!(in alloc; "{question} => {}", answer(alloc, question)?)?),
        None => Ok(String::from_str(alloc, line)?),
    }
}

fn main(rt: HostRuntime) -> Result<(), Error> {
    for line in rt.lines(rt.alloc()) {
        let Ok(row) = answered(rt.alloc(), line?.as_str()) else {
            return Err(Error::from(ErrorKind::OutOfMemory));
        };
        rt.println(row)?;
    }
    Ok(())
}
