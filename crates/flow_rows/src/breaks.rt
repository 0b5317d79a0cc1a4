//! White space, and places at which lines may end.

ghost use Rattle.std.specs.Prelude.{◌≡◌};

use crate::answers::unknown;
use bk_num::ids::FaceId;
use bk_num::name::{Name, NoMem};
use bk_num::px::Px;
use bk_num::values::{Color, WhiteSpace};
use boxes::leaf::Span;
use inline_text::places::opportunities;
use inline_text::space::{TextPart, collapse};
use rows::{escaped, part, unescaped};
use std::alloc::Global;

fn white_space(word: &str) -> WhiteSpace {
    match word {
        "nowrap" => WhiteSpace::NoWrap,
        "pre" => WhiteSpace::Pre,
        "pre-wrap" => WhiteSpace::PreWrap,
        "pre-line" => WhiteSpace::PreLine,
        _ => WhiteSpace::Normal,
    }
}

fn text_part(alloc: Global, space: &str, text: &str) -> Result<TextPart, NoMem> {
    let text = unescaped(alloc, text)?;
    Ok(TextPart {
        text: Name::from_string(text),
        space: white_space(space),
    })
}

/// Texts with their `white-space`, one after the other.
fn text_parts(alloc: Global, texts: &[&str]) -> Result<Vec<TextPart>, NoMem> {
    let mut parts = Vec::new(alloc);
    for pair in texts.chunks(2) {
        if let [space, text] = pair {
            parts.push(text_part(alloc, space, text)?)?;
        }
    }
    Ok(parts)
}

fn push_collapsed(alloc: Global, answer: &mut String, parts: &[TextPart]) -> Result<(), NoMem> {
    for text in collapse(alloc, parts)?.as_slice() {
        answer.push_str(text.as_str())?;
        answer.push('|')?;
    }
    Ok(())
}

/// The collapsed texts, with `|` after each.
fn collapsed_texts(alloc: Global, parts: &[TextPart]) -> Result<String, NoMem> {
    let mut answer = String::new(alloc);
    push_collapsed(alloc, &mut answer, parts)?;
    Ok(escaped(alloc, answer.as_str())?)
}

/// What the white space of texts comes to.
pub(crate) fn collapsed(alloc: Global, texts: &[&str]) -> Result<String, NoMem> {
    let parts = text_parts(alloc, texts)?;
    collapsed_texts(alloc, parts.as_slice())
}

/// A span in which lines may end at ordinary places, unless it says `nowrap`, and at graphemes if it says `anywhere`.
fn span_of(from: u32, to: u32, words: &str) -> Span
    ensures from { result.from ≡ from }
    ensures to { result.to ≡ to }
{
    Span {
        from,
        to,
        face: FaceId(0),
        size: Px::from_units(1024),
        line_height: Px::from_units(1280),
        color: Color {
            red: 0,
            green: 0,
            blue: 0,
        },
        wrap: !words.contains("nowrap"),
        anywhere: words.contains("anywhere"),
    }
}

/// A text with `|` before each of some offsets.
fn push_marked(answer: &mut String, text: &str, places: &[u32]) -> Result<(), NoMem> {
    for (at, c) in text.char_indices() {
        if places.iter().any(|place| *place as usize == at) {
            answer.push('|')?;
        }
        answer.push(c)?;
    }
    Ok(())
}

/// A text with its places of two kinds.
fn marked(alloc: Global, text: &str, ordinary: &[u32], emergency: &[u32]) -> Result<String, NoMem> {
    let mut answer = String::new(alloc);
    push_marked(&mut answer, text, ordinary)?;
    answer.push_str(" / ")?;
    push_marked(&mut answer, text, emergency)?;
    Ok(escaped(alloc, answer.as_str())?)
}

fn broken(
    alloc: Global,
    text: &str,
    half: usize,
    first: &str,
    second: &str,
) -> Result<String, NoMem> {
    if text.len() >= 1000 || !text.is_char_boundary(half) {
        return unknown(alloc);
    }
    let spans = [
        span_of(0, half as u32, first),
        span_of(half as u32, text.len() as u32, second),
    ];
    let (places, graphemes) = opportunities(alloc, text, &spans)?;
    marked(alloc, text, places.as_slice(), graphemes.as_slice())
}

/// The ordinary places of a text in two spans, and after ` / ` its emergency places, each with `|` there.
pub(crate) fn marked_text(alloc: Global, parts: &[&str]) -> Result<String, NoMem> {
    let text = unescaped(alloc, part(parts, 1))?;
    let half = part(parts, 2).parse::<usize>().unwrap_or(0);
    broken(alloc, text.as_str(), half, part(parts, 3), part(parts, 4))
}
