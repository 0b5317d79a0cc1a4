//! What the programs over rows share: a row's question, its parts, and texts with characters that a line doesn't show.
#![tactic(auto)]

use std::alloc::{AllocError, Global};

/// The question of a row, `QUESTION => ANSWER`. None for any other line.
pub fn question_of(line: &str) -> Option<&str> {
    match line.split_once(" => ") {
        Some((question, _wanted)) => Some(question),
        None => None,
    }
}

/// The part of a question at a place, no text where it has none.
pub fn part<'a>(parts: &[&'a str], place: usize) -> &'a str {
    if place < parts.len() {
        parts[place]
    } else {
        ""
    }
}

/// The parts of a question from a place on.
pub fn parts_from<'t, 'a>(parts: &'t [&'a str], place: usize) -> &'t [&'a str] {
    if place < parts.len() {
        &parts[place..]
    } else {
        &[]
    }
}

/// Whether a word is one of those that commas separate.
pub fn is_among(word: &str, words: &str) -> bool {
    for one in words.split(',') {
        if one == word {
            return true;
        }
    }
    false
}

/// Puts texts at the end.
pub fn push_all(text: &mut String, pieces: &[&str]) -> Result<(), AllocError> {
    for piece in pieces {
        text.push_str(piece)?;
    }
    Ok(())
}

/// A whole number of a row, 0 where the part is none.
pub fn number(part: &str) -> i64 {
    part.parse::<i64>().unwrap_or(0)
}

/// The character of an escape that begins this text, and what follows it. None where it begins none.
fn escape_of(text: &str) -> Option<(char, &str)> {
    for (letter, character) in [("n", '\n'), ("r", '\r'), ("t", '\t')] {
        if let Some(rest) = text.strip_prefix(letter) {
            return Some((character, rest));
        }
    }
    let (digits, rest) = text.strip_prefix("u{")?.split_once('}')?;
    let number = u32::from_str_radix(digits, 16).ok()?;
    Some((char::from_u32(number)?, rest))
}

/// Puts what a text after a `\` stands for at the end.
fn push_escaped(plain: &mut String, text: &str) -> Result<(), AllocError> {
    let (character, rest) = escape_of(text).unwrap_or(('\\', text));
    plain.push(character)?;
    plain.push_str(rest)
}

/// A part with its escapes undone: `\n`, `\r`, `\t` and `\u{HEX}`. Any other `\` stands for itself.
pub fn unescaped(alloc: Global, part: &str) -> Result<String, AllocError> {
    let mut pieces = part.split('\\');
    let mut plain = String::from_str(alloc, pieces.next().unwrap_or(""))?;
    for piece in pieces {
        push_escaped(&mut plain, piece)?;
    }
    Ok(plain)
}

/// Whether a character is written as its number, since a line doesn't show it.
fn is_hidden(character: char) -> bool {
    matches!(character, '\\' | '\0'..='\x1F' | '\x7F'..='\u{A0}' | '\u{AD}' | '\u{200B}'..='\u{200F}' | '\u{FEFF}')
}

/// Puts a character at the end, as an escape where a line doesn't show it.
fn push_shown(shown: &mut String, character: char) -> Result<(), AllocError> {
    match character {
        '\n' => shown.push_str("\\n"),
        '\r' => shown.push_str("\\r"),
        '\t' => shown.push_str("\\t"),
        _ if is_hidden(character) => {
            let number = u32::from(character);
            write!(shown, "\\u{{{number:X}}}").map_err(|_| AllocError)
        }
        _ => shown.push(character),
    }
}

/// A text as a part of an answer: on one line, with escapes that `unescaped` undoes.
pub fn escaped(alloc: Global, text: &str) -> Result<String, AllocError> {
    let mut shown = String::new(alloc);
    for character in text.chars() {
        push_shown(&mut shown, character)?;
    }
    Ok(shown)
}
