//! A question and its parts, and the places that it asks about.

use bk_num::ids::NodeId;
use bk_num::values::Pseudo;

/// What is asked, and the parts after it; those that it doesn't have are empty.
#[derive(Clone, Copy)]
pub(crate) struct Question<'q> {
    pub(crate) call: &'q str,
    pub(crate) first: &'q str,
    pub(crate) second: &'q str,
    pub(crate) third: &'q str,
    pub(crate) fourth: &'q str,
    pub(crate) fifth: &'q str,
}

/// What stands before a mark, and what stands after it.
pub(crate) fn cut(text: &str, mark: char) -> (&str, &str) {
    match text.split_once(mark) {
        Some(both) => both,
        None => (text, ""),
    }
}

pub(crate) fn asked(text: &str) -> Question<'_> {
    let (call, rest) = cut(text, '|');
    let (first, rest) = cut(rest, '|');
    let (second, rest) = cut(rest, '|');
    let (third, rest) = cut(rest, '|');
    let (fourth, fifth) = cut(rest, '|');
    Question {
        call,
        first,
        second,
        third,
        fourth,
        fifth,
    }
}

/// A node by its number.
pub(crate) fn node_of(part: &str) -> NodeId {
    match part.parse::<u32>() {
        Ok(number) => NodeId(number),
        Err(_) => NodeId(u32::MAX),
    }
}

/// A pseudo-element by its word, and the element itself by any other.
pub(crate) fn pseudo_of(word: &str) -> Pseudo {
    match word {
        "before" => Pseudo::Before,
        "after" => Pseudo::After,
        "call" => Pseudo::Call,
        "marker" => Pseudo::Marker,
        _ => Pseudo::Element,
    }
}
