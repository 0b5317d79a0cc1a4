//! The files of a book, and the words of its run.

use crate::books::Section;
use bk_num::name::{Name, NoMem};
use rows::{number, unescaped};
use std::alloc::Global;

/// A face whose characters are half an em wide, and combining marks without width.
pub(crate) const METRICS: &str =
    "bookmetrics 1\nface test normal 400 16 12 4 8\nglyph 0300 036F 0\n";

/// The files that a run has where its book names none.
const USUAL: [(&str, &str); 3] = [("metrics", METRICS), ("html", ""), ("sheet", "")];

/// The words of a run whose book has none.
const USUAL_WORDS: &str = "format metrics html sheet";

/// A number, 0 where it is none or negative.
pub(crate) fn count(part: &str) -> u64 {
    number(part).max(0) as u64
}

/// Puts the bytes of some two-digit hexadecimal numbers at the end.
fn push_bytes(bytes: &mut Vec<u8>, numbers: &str) -> Result<(), NoMem> {
    for number in numbers.split(' ') {
        bytes.push(u8::from_str_radix(number, 16).unwrap_or(b'?'))?;
    }
    Ok(())
}

/// Puts a text at the end so many times.
fn push_times(bytes: &mut Vec<u8>, text: &[u8], times: u32) -> Result<(), NoMem> {
    for _ in 0..times {
        bytes.extend_from_slice(text)?;
    }
    Ok(())
}

/// Puts a text at the end so many times, most of them a thousand at once.
fn push_repeated(bytes: &mut Vec<u8>, alloc: Global, text: &str, times: u32) -> Result<(), NoMem> {
    let mut thousand = Vec::new(alloc);
    push_times(&mut thousand, text.as_bytes(), 1000)?;
    push_times(bytes, thousand.as_slice(), times / 1000)?;
    push_times(bytes, text.as_bytes(), times % 1000)
}

/// Puts a text at the end so many times, each time with its number, from 1 on, in place of the first `#`.
fn push_counted(bytes: &mut Vec<u8>, alloc: Global, text: &str, times: u32) -> Result<(), NoMem> {
    let (before, after) = text.split_once('#').unwrap_or((text, ""));
    for number in 1..=times {
        let counted = format!(in alloc; "{before}{number}{after}")?;
        push_times(bytes, counted.as_bytes(), 1)?;
    }
    Ok(())
}

/// A number of times and the text that comes so often.
fn times_and_text(alloc: Global, piece: &str) -> Result<(u32, String), NoMem> {
    let (times, text) = piece.split_once(' ').unwrap_or(("", ""));
    Ok((times.parse::<u32>().unwrap_or(0), unescaped(alloc, text)?))
}

/// Puts a piece of a file at the end: `text TEXT`, `repeat N TEXT`, `count N TEXT` or `bytes HEX HEX..`.
fn push_piece(bytes: &mut Vec<u8>, alloc: Global, piece: &str) -> Result<(), NoMem> {
    match piece.split_once(' ') {
        Some(("text", text)) => push_times(bytes, unescaped(alloc, text)?.as_str().as_bytes(), 1),
        Some(("repeat", rest)) => {
            let (times, text) = times_and_text(alloc, rest)?;
            push_repeated(bytes, alloc, text.as_str(), times)
        }
        Some(("count", rest)) => {
            let (times, text) = times_and_text(alloc, rest)?;
            push_counted(bytes, alloc, text.as_str(), times)
        }
        Some(("bytes", numbers)) => push_bytes(bytes, numbers),
        _ => push_times(bytes, b"?", 1),
    }
}

/// The bytes of a file that a book names.
fn bytes_of(alloc: Global, text: &str, in_pieces: bool) -> Result<Vec<u8>, NoMem> {
    let mut bytes = Vec::new(alloc);
    if !in_pieces {
        push_times(&mut bytes, text.as_bytes(), 1)?;
        return Ok(bytes);
    }
    for piece in text.split('\n') {
        push_piece(&mut bytes, alloc, piece)?;
    }
    Ok(bytes)
}

/// Puts a file at the end.
fn push_file(
    files: &mut Vec<(Name, Vec<u8>)>,
    alloc: Global,
    name: &str,
    text: &str,
) -> Result<(), NoMem> {
    let (name, in_pieces) = match name.strip_suffix(" in pieces") {
        Some(name) => (name, true),
        None => (name, false),
    };
    let bytes = bytes_of(alloc, text, in_pieces)?;
    files.push((Name::new(alloc, name)?, bytes))?;
    Ok(())
}

/// The files of a book, and then the usual ones: the first of a name counts.
pub(crate) fn files_of(
    alloc: Global,
    sections: &[Section<'_>],
) -> Result<Vec<(Name, Vec<u8>)>, NoMem> {
    let mut files = Vec::new(alloc);
    for section in sections {
        if let Some(name) = section.heading.strip_prefix("file ") {
            push_file(&mut files, alloc, name, section.text)?;
        }
    }
    for (name, text) in &USUAL {
        push_file(&mut files, alloc, name, text)?;
    }
    Ok(files)
}

/// What a heading of a book has after these words. None where it has no such heading.
pub(crate) fn after<'a>(sections: &[Section<'a>], begin: &str) -> Option<&'a str> {
    sections
        .iter()
        .find_map(|section| section.heading.strip_prefix(begin))
}

/// The words of a book's run.
pub(crate) fn words_of(alloc: Global, sections: &[Section<'_>]) -> Result<Vec<String>, NoMem> {
    let line = after(sections, "words").unwrap_or(USUAL_WORDS);
    let mut words = Vec::new(alloc);
    for word in line.split_whitespace() {
        words.push(String::from_str(alloc, word)?)?;
    }
    Ok(words)
}
