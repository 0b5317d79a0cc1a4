//! From a line to a line, and from a question to its answer.

use crate::{breaks, documents, lines, pages, plain, plans, trees};
use bk_num::name::NoMem;
use rows::{is_among, part, parts_from, question_of};
use std::alloc::{AllocError, Global};

/// The answer to a question of no known form.
pub(crate) fn unknown(alloc: Global) -> Result<String, NoMem> {
    Ok(String::from_str(alloc, "?")?)
}

/// The answer to a question of a text.
fn of_text(alloc: Global, parts: &[&str]) -> Result<String, NoMem> {
    match part(parts, 0) {
        "collapse" => breaks::collapsed(alloc, parts_from(parts, 1)),
        "breaks" => breaks::marked_text(alloc, parts),
        "line" | "fit" | "height" | "runs" => lines::answer(alloc, parts),
        "plan" => plans::planned(alloc, part(parts, 1), part(parts, 2)),
        "checked" => plans::judged(alloc, parts),
        _ => plain::answer(alloc, parts),
    }
}

const OF_DOCUMENTS: &str =
    "flow,events,around,chains,boxes,holds,span,content width,seam,room,level";

fn answer_to(alloc: Global, parts: &[&str]) -> Result<String, NoMem> {
    let call = part(parts, 0);
    if call == "steps" {
        trees::states(alloc, part(parts, 1))
    } else if call == "page box" {
        pages::page_box(alloc, parts)
    } else if is_among(call, OF_DOCUMENTS) {
        documents::answer(alloc, part(parts, 1), part(parts, 2), parts)
    } else {
        of_text(alloc, parts)
    }
}

fn answer(alloc: Global, question: &str) -> Result<String, NoMem> {
    let parts: Vec<&str> = question.split('|').collect(alloc)?;
    answer_to(alloc, parts.as_slice())
}

/// A row with the library's answer in place of the one that is wanted; any other line as it is.
pub(crate) fn answered(alloc: Global, line: &str) -> Result<String, AllocError> {
    let Some(question) = question_of(line) else {
        return String::from_str(alloc, line);
    };
    match answer(alloc, question) {
        Ok(answer) => format!(in alloc; "{question} => {answer}"),
        Err(NoMem) => Err(AllocError),
    }
}
