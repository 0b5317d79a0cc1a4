//! The run of a book once for each call of a kind, which fails, and once where none does.

use crate::books::Section;
use crate::files::{after, count, files_of, words_of};
use crate::runs::run_counted;
use bk_io::mem_shelf::MemShelf;
use bk_io::mem_sink::MemSink;
use bk_num::name::NoMem;
use book::outcome::Outcome;
use rows::escaped;
use std::alloc::Global;
use std::str;

/// For how many calls a book is run at most.
const MOST_RUNS: u64 = 1000;

/// How many bytes of a listing there is room for.
const ROOM: usize = 4096;

/// A kind of calls.
#[derive(Clone, Copy, Debug, PartialEq, Eq)]
enum Call {
    /// A call of the shelf.
    Read,
    /// A put of the listing.
    Put,
    /// A put of the line on the error stream.
    ErrorPut,
}

/// The calls that a book asks to fail one after the other, and how many bytes a put of these takes at most.
#[derive(Clone, Copy, Debug)]
struct Asked {
    call: Call,
    step: usize,
}

/// What a run gave.
#[derive(Drop)]
struct RunOutput {
    outcome: Outcome,
    listing: Vec<u8>,
    line: String,
}

/// The calls that a heading names after `each failing `.
fn asked_of(heading: &str) -> Asked {
    let (call, step) = match heading.split_once(" of ") {
        Some(("put", step)) => (Call::Put, step),
        Some(("error put", step)) => (Call::ErrorPut, step),
        _ => (Call::Read, "4096"),
    };
    Asked {
        call,
        step: count(step).max(1) as usize,
    }
}

/// The number of the call of this kind that fails, 0 where none does.
fn failing(alloc: Global, asked: Asked, call: Call, number: u64) -> Result<Vec<u64>, NoMem> {
    let number = if asked.call == call { number } else { 0 };
    Ok(Vec::from_slice(alloc, &[number])?)
}

/// A stream for puts of this kind.
fn sink(alloc: Global, asked: Asked, call: Call, number: u64) -> Result<MemSink, NoMem> {
    let step = if asked.call == call { asked.step } else { ROOM };
    let fail = failing(alloc, asked, call, number)?;
    MemSink::new(alloc, ROOM, step.max(1), fail)
}

/// What a run over a shelf gives, where the puts fail that are asked for.
fn output_over(
    alloc: Global,
    words: &[String],
    shelf: &mut MemShelf,
    asked: Asked,
    number: u64,
) -> Result<RunOutput, NoMem> {
    let mut out = sink(alloc, asked, Call::Put, number)?;
    let mut err = sink(alloc, asked, Call::ErrorPut, number)?;
    let outcome = run_counted(alloc, words, shelf, &mut out, &mut err);
    let listing = Vec::from_slice(alloc, out.bytes())?;
    let line = escaped(alloc, str::from_utf8(err.bytes()).unwrap_or("?"))?;
    Ok(RunOutput {
        outcome,
        listing,
        line,
    })
}

/// What the run of a book gives whose call with this number fails.
fn output_of(
    alloc: Global,
    sections: &[Section<'_>],
    asked: Asked,
    number: u64,
) -> Result<RunOutput, NoMem> {
    let words = words_of(alloc, sections)?;
    let files = files_of(alloc, sections)?;
    let fail = failing(alloc, asked, Call::Read, number)?;
    output_over(
        alloc,
        &words,
        &mut MemShelf::new(files, fail),
        asked,
        number,
    )
}

/// How much of a listing was written.
fn written(bytes: &[u8], listing: &[u8]) -> &'static str {
    if bytes.is_empty() {
        "nothing written"
    } else if bytes == listing {
        "the listing written"
    } else if listing.starts_with(bytes) {
        "a prefix written"
    } else {
        "another text written"
    }
}

/// What a run gave, on a line.
fn shown(alloc: Global, output: &RunOutput, listing: &[u8]) -> Result<String, NoMem> {
    let (status, written) = (output.outcome.status(), written(&output.listing, listing));
    let line = output.line.as_str();
    Ok(format!(in alloc; "status {status}, {written}, \"{line}\"")?)
}

/// What the runs of a book give whose calls fail one after the other, and the run where no call fails last.
fn answers(alloc: Global, sections: &[Section<'_>], asked: Asked) -> Result<Vec<String>, NoMem> {
    let whole = output_of(alloc, sections, asked, 0)?;
    let last = shown(alloc, &whole, &whole.listing)?;
    let mut answers = Vec::new(alloc);
    for number in 1..=MOST_RUNS {
        let run = output_of(alloc, sections, asked, number)?;
        let answer = shown(alloc, &run, &whole.listing)?;
        let is_last = answer.as_str() == last.as_str();
        answers.push(answer)?;
        if is_last {
            break;
        }
    }
    Ok(answers)
}

/// Puts what the runs of a book gave at the end, each answer with how many runs gave it one after the other.
pub(crate) fn push_answers(
    printed: &mut String,
    alloc: Global,
    sections: &[Section<'_>],
) -> Result<(), NoMem> {
    let asked = asked_of(after(sections, "each failing ").unwrap_or(""));
    let answers = answers(alloc, sections, asked)?;
    printed.push_str("\n== answers\n")?;
    for same in answers.chunk_by(|a, b| a.as_str() == b.as_str()) {
        let answer = same.first().map_or("", |answer| answer.as_str());
        write!(printed, "{}*{answer}\n", same.len())?;
    }
    Ok(())
}
