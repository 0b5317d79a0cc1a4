//! From a line to a line, and from a question to its answer.

use crate::questions::{Question, asked};
use crate::{counted, documents, values};
use bk_num::name::NoMem;
use rows::question_of;
use std::alloc::{AllocError, Global};

/// Puts the answer to a question at the end: of a number in some styles, of a document by its sheet, or of numbers
/// alone.
fn push_answer(alloc: Global, answer: &mut String, question: &Question<'_>) -> Result<(), NoMem> {
    match question.call {
        "numerals" => counted::push_numerals(alloc, answer, question),
        "numeral texts" => counted::push_texts(alloc, answer, question),
        "computed" | "names" | "counter" | "content" | "generated" | "targets" => {
            documents::push_answer(alloc, answer, question)
        }
        _ => values::push_answer(answer, question),
    }
}

/// Puts a question and the library's answer to it at the end.
fn push_row(alloc: Global, row: &mut String, question: &str) -> Result<(), NoMem> {
    write!(row, "{question} => ")?;
    push_answer(alloc, row, &asked(question))
}

/// A row with the library's answer in place of the one that is wanted; any other line as it is.
pub(crate) fn answered(alloc: Global, line: &str) -> Result<String, AllocError> {
    let Some(question) = question_of(line) else {
        return String::from_str(alloc, line);
    };
    let mut row = String::new(alloc);
    match push_row(alloc, &mut row, question) {
        Ok(_) => Ok(row),
        Err(NoMem) => Err(AllocError),
    }
}
