//! Worked rows of texts, faces, documents and words. A line of standard input is `CALL|PART|PART.. => ANSWER`, with the
//! answer that is wanted; it is printed again with the answer that the libraries give. So `stdout` is a copy of
//! `stdin`.
#![tactic(auto)]

mod command_lines;
mod documents;
mod faces;
mod html;
mod numbers;
mod points;
mod texts;

use rows::{is_among, part, question_of};
use std::alloc::{AllocError, Global};
use std::io;

/// The answer to the parts of a question, by its call.
fn answer_to(alloc: Global, call: &str, parts: &[&str]) -> Result<String, AllocError> {
    if is_among(call, "length,part,used,scale,list,text,name") {
        numbers::answer(alloc, parts)
    } else if is_among(call, "faces,many,choose,choice,label,scaled,paired") {
        faces::answer(alloc, parts)
    } else if call == "points" {
        points::answer(alloc, parts)
    } else if is_among(call, "tokens,html,copies") {
        html::answer(alloc, parts)
    } else if call == "dom" {
        documents::answer(alloc, parts)
    } else if is_among(call, "utf8,unmarked,sample") {
        texts::answer(alloc, parts)
    } else if call == "words" {
        command_lines::answer(alloc, parts)
    } else {
        String::from_str(alloc, "?")
    }
}

/// The answer to a question, `?` where it has no known form.
fn answer(alloc: Global, question: &str) -> Result<String, AllocError> {
    let parts: Vec<&str> = question.split('|').collect(alloc)?;
    answer_to(alloc, part(&parts, 0), &parts)
}

/// A row with the answer of the libraries in place of the one that is wanted; any other line as it is.
fn answered(alloc: Global, line: &str) -> Result<String, AllocError> {
    match question_of(line) {
        Some(question) => format!(in alloc; "{question} => {}", answer(alloc, question)?),
        None => String::from_str(alloc, line),
    }
}

fn main(rt: HostRuntime) -> io::Result<()> {
    for line in rt.lines(rt.alloc()) {
        rt.println(answered(rt.alloc(), line?.as_str())?)?;
    }
    Ok(())
}
