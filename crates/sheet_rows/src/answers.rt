//! The answer to a question, as text.

use crate::unanswered::{Answered, Unanswered};
use crate::{content, matching, pages, rules, runs, tokens, values, winners};
use rows::{is_among, part};
use std::alloc::{AllocError, Global};

/// The parts of a question, their escapes undone.
fn parts_of(alloc: Global, question: &str) -> Result<Vec<String>, AllocError> {
    let mut parts = Vec::new(alloc);
    for part in question.split('|') {
        parts.push(rows::unescaped(alloc, part)?)?;
    }
    Ok(parts)
}

const TOKENS: &str = "tokens,plain,token_value,number,unit,token,places,is_word";

/// Asks the crate that a call names.
fn ask(alloc: Global, into: &mut String, parts: &[&str]) -> Answered {
    let call = part(parts, 0);
    if is_among(call, TOKENS) {
        tokens::answer(alloc, into, parts)
    } else if is_among(call, "reader,words,find_word") {
        tokens::of_words(alloc, into, parts)
    } else if is_among(call, "rules,decls,media,long_media,rule_count") {
        rules::answer(alloc, into, parts)
    } else if is_among(call, "content,counters,strings,counter_count") {
        content::answer(alloc, into, parts)
    } else if is_among(call, "value,long_value,longhands") {
        values::answer(alloc, into, parts)
    } else if is_among(call, "page_selectors,page,box,page_rules") {
        pages::answer(alloc, into, parts)
    } else if is_among(call, "selector,match,table,pairs") {
        matching::answer(alloc, into, parts)
    } else {
        ask_of_sheets(alloc, into, parts)
    }
}

/// Asks the crates that bring sheets together.
fn ask_of_sheets(alloc: Global, into: &mut String, parts: &[&str]) -> Answered {
    let call = part(parts, 0);
    if is_among(call, "choose,winners,winners_each") {
        winners::answer(alloc, into, parts)
    } else if is_among(call, "style_elements,default_sheet,run_sheets") {
        runs::answer(alloc, into, parts)
    } else {
        Err(Unanswered::Unknown)
    }
}

/// What is answered to the parts of a question: `nothing` where that has no text, `-` where a text has no reading, and
/// `?` where the question has no known form.
fn answer_to(alloc: Global, parts: &[&str]) -> Result<String, AllocError> {
    let mut text = String::new(alloc);
    let answered = ask(alloc, &mut text, parts);
    match answered {
        Ok(()) if text.as_str().trim_end().is_empty() => String::from_str(alloc, "nothing"),
        Ok(()) => rows::escaped(alloc, text.as_str().trim_end()),
        Err(Unanswered::NoReading) => String::from_str(alloc, "-"),
        Err(Unanswered::Unknown) => String::from_str(alloc, "?"),
        Err(Unanswered::NoMemory) => Err(AllocError),
    }
}

/// The answer to a question.
pub(crate) fn answer(alloc: Global, question: &str) -> Result<String, AllocError> {
    let parts = parts_of(alloc, question)?;
    let mut slices: Vec<&str> = Vec::new(alloc);
    for part in &parts {
        slices.push(part.as_str())?;
    }
    answer_to(alloc, &slices)
}
