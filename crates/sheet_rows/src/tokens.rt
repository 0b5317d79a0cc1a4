//! Tokens of css_tok, and the words that css_words and css_content read from them.

use crate::printed::{self, Written};
use crate::unanswered::{Answered, Unanswered, done};
use bk_num::name::Name;
use css_content::words::{num_style, whole};
use css_tok::kind::CssKind;
use css_tok::plain::plain;
use css_tok::tokens::{CssToken, CssTokens};
use css_tok::words::is_word;
use css_words::reader::{Reader, Skipped};
use css_words::table::find_word;
use css_words::unread::Unread;
use css_words::words::{close, ident, lower_ident, string};
use rows::{part, push_all};
use std::alloc::{AllocError, Global};

/// The tokens of a text, each as its kind and its slice.
fn tokens(into: &mut String, text: &str) -> Written {
    let mut tokens = CssTokens::new(text);
    while let Some(token) = tokens.next() {
        let kind = token.kind;
        let slice = token.slice;
        write!(into, "{kind:?}<{slice}>")?;
    }
    Ok(())
}

/// Where each token of a text begins.
fn places(into: &mut String, text: &str) -> Written {
    let mut tokens = CssTokens::new(text);
    while let Some(token) = tokens.next() {
        let at = token.at;
        write!(into, "{at} ")?;
    }
    Ok(())
}

fn undone(alloc: Global, into: &mut String, slice: &str) -> Answered {
    let text = plain(alloc, slice)?;
    done(quoted(into, text.as_str()))
}

fn quoted(into: &mut String, text: &str) -> Written {
    push_all(into, &["'", text, "' "])
}

fn number(into: &mut String, token: &CssToken<'_>) -> Answered {
    match token.kind {
        CssKind::Number | CssKind::Percent | CssKind::Dimension => {
            done(printed::decimal(into, token.decimal(), ""))
        }
        _ => Err(Unanswered::NoReading),
    }
}

/// A mark with its word, where there is one.
fn marked(into: &mut String, word: &str, mark: u8) -> Written {
    if mark == 0 {
        return Ok(());
    }
    write!(into, "{word} {} ", char::from(mark))
}

fn word_if(is_so: bool, word: &str) -> &str {
    if is_so { word } else { "" }
}

/// What the first token of a text is, by its marks.
fn told(into: &mut String, token: &CssToken<'_>) -> Written {
    marked(into, "mark", token.mark())?;
    marked(into, "closer", token.closer().unwrap_or(0))?;
    into.push_str(word_if(token.is_gap(), "gap "))?;
    into.push_str(word_if(token.is_ident(), "ident "))
}

/// What is asked of the first token of a text.
fn of_first(into: &mut String, call: &str, text: &str) -> Answered {
    let mut tokens = CssTokens::new(text);
    let Some(token) = tokens.next() else {
        return Err(Unanswered::Unknown);
    };
    match call {
        "token_value" => done(quoted(into, token.value_slice())),
        "number" => number(into, &token),
        "unit" => done(quoted(into, token.unit())),
        _ => done(told(into, &token)),
    }
}

/// What is asked of tokens.
pub(crate) fn answer(alloc: Global, into: &mut String, parts: &[&str]) -> Answered {
    let text = part(parts, 1);
    match part(parts, 0) {
        "tokens" => done(tokens(into, text)),
        "plain" => undone(alloc, into, text),
        "places" => done(places(into, text)),
        "is_word" => done(printed::yes_or_no(into, is_word(text, part(parts, 2)))),
        call => of_first(into, call, text),
    }
}

/// The tokens that a reader hands out; it is also advanced past its end.
fn handed_out(into: &mut String, skipped: Skipped, text: &str) -> Written {
    let mut reader = Reader::new(text, skipped);
    for _ in 0..20 {
        if let Some(token) = reader.peek() {
            push_all(into, &["<", token.slice, ">"])?;
        }
        reader.advance();
    }
    Ok(())
}

fn skipped_by(words: &str) -> Skipped {
    match words {
        "comments" => Skipped::Comments,
        _ => Skipped::CommentsAndSpaces,
    }
}

/// Reads a text as its reader of this name does.
fn read_text(alloc: Global, reader: &mut Reader<'_>, name: &str) -> Result<Name, Unread> {
    match name {
        "ident" => ident(alloc, reader),
        "lower_ident" => lower_ident(alloc, reader),
        _ => string(alloc, reader),
    }
}

fn quoted_text(alloc: Global, into: &mut String, reader: &mut Reader<'_>, name: &str) -> Answered {
    let text = read_text(alloc, reader, name)?;
    done(quoted(into, text.as_str()))
}

fn closed(into: &mut String, reader: &mut Reader<'_>) -> Answered {
    close(reader)?;
    done(into.push_str("closed "))
}

/// Reads a word as its reader of this name does.
fn read_word(alloc: Global, into: &mut String, reader: &mut Reader<'_>, name: &str) -> Answered {
    match name {
        "close" => closed(into, reader),
        "whole" => done(printed::shown(into, &whole(reader)?)),
        "num_style" => done(printed::shown(into, &num_style(reader)?)),
        _ => quoted_text(alloc, into, reader, name),
    }
}

fn words(alloc: Global, into: &mut String, names: &str, text: &str) -> Answered {
    let mut reader = Reader::new(text, Skipped::CommentsAndSpaces);
    for name in names.split(' ') {
        read_word(alloc, into, &mut reader, name)?;
    }
    Ok(())
}

/// Words with their places.
fn placed<'a>(alloc: Global, words: &'a str) -> Result<Vec<(&'a str, usize)>, AllocError> {
    let mut table = Vec::new(alloc);
    for word in words.split(' ') {
        let place = table.len();
        table.push((word, place))?;
    }
    Ok(table)
}

fn push_place(into: &mut String, place: Option<usize>) -> Answered {
    match place {
        Some(place) => done(write!(into, "{place}")),
        None => Err(Unanswered::NoReading),
    }
}

/// The place of the first of some words that is a word.
fn found(alloc: Global, into: &mut String, words: &str, word: &str) -> Answered {
    let table = placed(alloc, words)?;
    push_place(into, find_word(&table, word))
}

/// What is asked of words.
pub(crate) fn of_words(alloc: Global, into: &mut String, parts: &[&str]) -> Answered {
    let (first, second) = (part(parts, 1), part(parts, 2));
    match part(parts, 0) {
        "reader" => done(handed_out(into, skipped_by(first), second)),
        "words" => words(alloc, into, first, second),
        _ => found(alloc, into, first, second),
    }
}
