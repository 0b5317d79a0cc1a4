//! Worked rows of the crates that read style sheets. A line of standard input is `CALL|PART|PART.. => ANSWER`, with the
//! answer that is wanted; it is printed again with the answer that the library gives.
#![tactic(auto)]

mod answers;
mod content;
mod documents;
mod matching;
mod pages;
mod parts;
mod printed;
mod rules;
mod runs;
mod tokens;
mod unanswered;
mod values;
mod winners;

use std::alloc::{AllocError, Global};
use std::io;

/// A row with the library's answer in place of the one that is wanted; any other line as it is.
fn answered(alloc: Global, line: &str) -> Result<String, AllocError> {
    match rows::question_of(line) {
        Some(question) => {
            format!(in alloc; "{question} => {}", answers::answer(alloc, question)?)
        }
        None => String::from_str(alloc, line),
    }
}

fn main(rt: HostRuntime) -> io::Result<()> {
    for line in rt.lines(rt.alloc()) {
        rt.println(answered(rt.alloc(), line?.as_str())?)?;
    }
    Ok(())
}
