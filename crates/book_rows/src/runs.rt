//! The run of a book, over files and streams in memory.

ghost use Rattle.std.specs.Prelude.{◌≡◌, ◌<◌};

use crate::books::{Section, View};
use crate::files::{after, count, files_of, words_of};
use bk_io::mem_shelf::MemShelf;
use bk_io::mem_sink::MemSink;
use bk_io::shelf::Shelf;
use bk_io::sink::Sink;
use bk_io::still_shelf::StillShelf;
use bk_io::still_sink::StillSink;
use bk_num::name::NoMem;
use bk_num::steps::Steps;
use book::outcome::{Outcome, WordsFault};
use book::run::run;
use std::alloc::Global;
use std::marker::Brand;
use std::str;
use std::sync::ledger::{Blank, Ledger};

/// How many bytes of a listing there is room for, where a book says nothing.
const USUAL_ROOM: u64 = 1 << 22;

/// For how many bytes of a listing a book may ask room.
const MOST_ROOM: u64 = 1 << 26;

/// What the words are refused for.
fn words_fault(outcome: &Outcome) -> &'static str {
    match outcome {
        Outcome::NotRead { kind } => match kind {
            WordsFault::NoCommand => " no command",
            WordsFault::UnknownCommand => " unknown command",
            WordsFault::Help => " help",
            WordsFault::Refused => " refused",
        },
        _ => "",
    }
}

/// A run with this token of a counter.
fn outcome_of<F: Shelf, O: Sink, E: Sink, L: Ledger>(
    alloc: Global,
    words: &[String],
    shelf: &mut F,
    out: &mut O,
    err: &mut E,
    token: Blank,
) -> Outcome
    requires name { token.name ≡ L.name }
    requires parts { token.parts ≡ L.parts }
    requires some { 0 < L.parts }
{
    let mut steps = Steps::<L>::zero(token);
    run(alloc, words, shelf, out, err, &mut steps)
}

/// A run with a counter of its own.
pub(crate) fn run_counted<F: Shelf, O: Sink, E: Sink>(
    alloc: Global,
    words: &[String],
    shelf: &mut F,
    out: &mut O,
    err: &mut E,
) -> Outcome {
    outcome_of::<F, O, E, Brand>(alloc, words, shelf, out, err, Blank::new(1))
}

/// The status of a run, what its words are refused for, and the line of its answer.
fn answer<F: Shelf, O: Sink>(
    alloc: Global,
    sections: &[Section<'_>],
    shelf: &mut F,
    out: &mut O,
) -> Result<String, NoMem> {
    let words = words_of(alloc, sections)?;
    let mut err = StillSink::new(alloc, 400)?;
    let outcome = run_counted(alloc, &words, shelf, out, &mut err);
    let line = str::from_utf8(err.bytes()).unwrap_or("?");
    let (status, fault) = (outcome.status(), words_fault(&outcome));
    Ok(format!(in alloc; "\n== answer {status}{fault}\n{line}")?)
}

/// Puts how many lines each page has at the end.
fn push_lines(printed: &mut String, listing: &str) -> Result<(), NoMem> {
    printed.push_str("\n== lines\n")?;
    for (at, page) in listing.split("\npage ").skip(1).enumerate() {
        if at > 0 {
            printed.push(' ')?;
        }
        write!(printed, "{}", page.split("\nline ").skip(1).count())?;
    }
    Ok(())
}

/// Puts how many pages, lines and texts a listing has at the end.
fn push_counts(printed: &mut String, listing: &str) -> Result<(), NoMem> {
    printed.push_str("\n== counts\n")?;
    for (name, record) in [
        ("pages", "\npage "),
        (" lines", "\nline "),
        (" texts", "\ntext "),
    ] {
        write!(printed, "{name} {}", listing.split(record).skip(1).count())?;
    }
    Ok(())
}

/// Puts what is to be shown of a listing at the end.
fn push_listing(printed: &mut String, listing: &str, view: View) -> Result<(), NoMem> {
    match view {
        View::Lines => push_lines(printed, listing),
        View::Counts => push_counts(printed, listing),
        View::Listing if listing.is_empty() => Ok(()),
        View::Listing => {
            printed.push_str("\n== listing\n")?;
            Ok(printed.push_str(listing)?)
        }
    }
}

/// Puts what a run gave at the end: its listing, and its answer.
fn push_given(printed: &mut String, bytes: &[u8], view: View, answer: &str) -> Result<(), NoMem> {
    push_listing(printed, str::from_utf8(bytes).unwrap_or("?"), view)?;
    Ok(printed.push_str(answer)?)
}

/// Puts what a run over a shelf gave at the end, where no put fails.
fn push_still<F: Shelf>(
    printed: &mut String,
    alloc: Global,
    sections: &[Section<'_>],
    shelf: &mut F,
    view: View,
    room: usize,
) -> Result<(), NoMem> {
    let mut out = StillSink::new(alloc, room)?;
    match answer(alloc, sections, shelf, &mut out) {
        Ok(answer) => push_given(printed, out.bytes(), view, answer.as_str()),
        Err(e) => Err(e),
    }
}

/// A stream with so much room that takes so much a put and fails at one.
fn failing_sink(alloc: Global, room: usize, put: &str, step: &str) -> Result<MemSink, NoMem> {
    let fail = Vec::from_slice(alloc, &[count(put)])?;
    MemSink::new(alloc, room, count(step).max(1) as usize, fail)
}

/// Puts what a run over a shelf gave at the end, where one put fails.
fn push_failing<F: Shelf>(
    printed: &mut String,
    alloc: Global,
    sections: &[Section<'_>],
    shelf: &mut F,
    view: View,
    out: &mut MemSink,
) -> Result<(), NoMem> {
    match answer(alloc, sections, shelf, out) {
        Ok(answer) => push_given(printed, out.bytes(), view, answer.as_str()),
        Err(e) => Err(e),
    }
}

/// Puts what a run over a shelf gave at the end. The put that is to fail stands in a heading, with how much a put
/// takes; so does the room for the listing.
fn push_written<F: Shelf>(
    printed: &mut String,
    alloc: Global,
    sections: &[Section<'_>],
    shelf: &mut F,
    view: View,
) -> Result<(), NoMem> {
    let room = after(sections, "room ")
        .map_or(USUAL_ROOM, count)
        .min(MOST_ROOM) as usize;
    match after(sections, "failing put ").and_then(|put| put.split_once(" of ")) {
        None => push_still(printed, alloc, sections, shelf, view, room),
        Some((put, step)) => match failing_sink(alloc, room, put, step) {
            Ok(mut out) => push_failing(printed, alloc, sections, shelf, view, &mut out),
            Err(e) => Err(e),
        },
    }
}

/// Puts what the run of a book gave at the end. The read that is to fail stands in a heading.
pub(crate) fn push_run(
    printed: &mut String,
    alloc: Global,
    sections: &[Section<'_>],
    view: View,
) -> Result<(), NoMem> {
    let files = files_of(alloc, sections)?;
    match after(sections, "failing read ") {
        Some(read) => {
            let fail = Vec::from_slice(alloc, &[count(read)])?;
            push_written(
                printed,
                alloc,
                sections,
                &mut MemShelf::new(files, fail),
                view,
            )
        }
        None => push_written(printed, alloc, sections, &mut StillShelf::new(files), view),
    }
}
