//! Bytes that are texts, the mark before a text, and the texts of the sample.

use bk_io::texts::{text_from, without_mark};
use rows::{escaped, number, part, unescaped};
use sample::book::{Texts, sample_book};
use std::alloc::{AllocError, Global};

/// The bytes of hexadecimal words.
fn bytes_of(alloc: Global, words: &str) -> Result<Vec<u8>, AllocError> {
    words
        .split(' ')
        .filter_map(|word| u8::from_str_radix(word, 16).ok())
        .collect(alloc)
}

/// Whether bytes are a text, or how many of them are one.
fn utf8(alloc: Global, words: &str) -> Result<String, AllocError> {
    match text_from(bytes_of(alloc, words)?) {
        Ok(text) => format!(in alloc; "text '{text}'"),
        Err(length) => format!(in alloc; "{length}"),
    }
}

fn unmarked(alloc: Global, part: &str) -> Result<String, AllocError> {
    let text = unescaped(alloc, part)?;
    let shown = escaped(alloc, without_mark(text.as_str()))?;
    format!(in alloc; "'{shown}'")
}

/// The first characters of a text.
fn start_of(alloc: Global, text: &str, count: i64) -> Result<String, AllocError> {
    let start: String = text
        .chars()
        .take(count.clamp(0, 1000) as usize)
        .collect(alloc)?;
    escaped(alloc, start.as_str())
}

fn text_of<'a>(texts: &'a Texts, which: &str) -> &'a str {
    match which {
        "metrics" => texts.metrics.as_str(),
        "html" => texts.html.as_str(),
        _ => texts.css.as_str(),
    }
}

/// How a text of a sample book begins.
fn sample(alloc: Global, chapters: i64, which: &str, count: i64) -> Result<String, AllocError> {
    let chapters = chapters.clamp(1, 2000) as u32;
    match sample_book(alloc, chapters) {
        Ok(texts) => start_of(alloc, text_of(&texts, which), count),
        Err(_) => Err(AllocError),
    }
}

/// The answer to a question about texts.
pub(crate) fn answer(alloc: Global, parts: &[&str]) -> Result<String, AllocError> {
    let first = part(parts, 1);
    match part(parts, 0) {
        "utf8" => utf8(alloc, first),
        "unmarked" => unmarked(alloc, first),
        _ => sample(alloc, number(first), part(parts, 2), number(part(parts, 3))),
    }
}
