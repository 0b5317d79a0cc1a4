//! Texts of patterns, and the points of a word.

use hyphen::{PatErr, Patterns, read_patterns};
use rows::{number, part, unescaped};
use std::alloc::{AllocError, Global};

fn reading(alloc: Global, text: &str) -> Result<Patterns, PatErr> {
    match unescaped(alloc, text) {
        Ok(text) if text.len() <= 33_554_432 => read_patterns(alloc, text.as_str()),
        _ => Err(PatErr::NoMemory),
    }
}

fn points(
    alloc: Global,
    patterns: &Patterns,
    word: &str,
    left: i64,
    right: i64,
) -> Option<Vec<u32>> {
    if word.len() > 33_554_432 {
        return None;
    }
    let left = left.clamp(0, 100) as u32;
    let right = right.clamp(0, 100) as u32;
    patterns.points(alloc, word, left, right).ok()
}

/// Numbers with a space between them, `none` for no number.
fn shown(alloc: Global, points: &[u32]) -> Result<String, AllocError> {
    let mut text = String::new(alloc);
    for point in points {
        let space = if text.is_empty() { "" } else { " " };
        write!(text, "{space}{point}")?;
    }
    if text.is_empty() {
        text.push_str("none")?;
    }
    Ok(text)
}

/// The points of a word by patterns.
fn of_patterns(alloc: Global, patterns: &Patterns, parts: &[&str]) -> Result<String, AllocError> {
    let word = unescaped(alloc, part(parts, 2))?;
    let left = number(part(parts, 3));
    let right = number(part(parts, 4));
    match points(alloc, patterns, word.as_str(), left, right) {
        Some(points) => shown(alloc, &points),
        None => Err(AllocError),
    }
}

/// The answer to a question about points, or the bad line of the patterns.
pub(crate) fn answer(alloc: Global, parts: &[&str]) -> Result<String, AllocError> {
    match reading(alloc, part(parts, 1)) {
        Ok(patterns) => of_patterns(alloc, &patterns, parts),
        Err(PatErr::Line { line }) => format!(in alloc; "line {line}"),
        Err(PatErr::NoMemory) => Err(AllocError),
    }
}
