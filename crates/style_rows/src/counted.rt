//! Numerals, and values of counters.

use crate::documents::Styled;
use crate::questions::{Question, cut, node_of, pseudo_of};
use bk_num::name::NoMem;
use bk_num::values::NumStyle;
use counters::at::CounterAt;
use counters::number::number_all;
use counters::numeral::{numeral, numeral_text};
use rows::number;
use std::alloc::Global;

fn style_named(word: &str) -> NumStyle {
    match word {
        "decimal-leading-zero" => NumStyle::LeadingZero,
        "lower-roman" => NumStyle::LowerRoman,
        "upper-roman" => NumStyle::UpperRoman,
        "lower-alpha" => NumStyle::LowerAlpha,
        "upper-alpha" => NumStyle::UpperAlpha,
        "disc" => NumStyle::Disc,
        "circle" => NumStyle::Circle,
        "square" => NumStyle::Square,
        "none" => NumStyle::Nothing,
        _ => NumStyle::Decimal,
    }
}

/// A number in some styles, each put after the bytes that are there, with `=` before it.
fn put_numerals(bytes: &mut Vec<u8>, number: i64, styles: &str) -> Result<(), NoMem> {
    for style in styles.split(' ') {
        bytes.push(b'=')?;
        numeral(number, style_named(style), bytes)?;
    }
    Ok(())
}

/// A number in some styles, each put after what is there.
pub(crate) fn push_numerals(
    alloc: Global,
    answer: &mut String,
    question: &Question<'_>,
) -> Result<(), NoMem> {
    let mut bytes = Vec::new(alloc);
    put_numerals(&mut bytes, number(question.first), question.second)?;
    match str::from_utf8(bytes.as_slice()) {
        Ok(text) => Ok(answer.push_str(text)?),
        Err(_) => Err(NoMem),
    }
}

fn push_text(alloc: Global, answer: &mut String, number: i64, style: &str) -> Result<(), NoMem> {
    let text = numeral_text(alloc, number, style_named(style))?;
    Ok(write!(answer, "={text}")?)
}

/// A number in some styles, each as a text, with `=` before it.
pub(crate) fn push_texts(
    alloc: Global,
    answer: &mut String,
    question: &Question<'_>,
) -> Result<(), NoMem> {
    let number = number(question.first);
    for style in question.second.split(' ') {
        push_text(alloc, answer, number, style)?;
    }
    Ok(())
}

fn push_numbers(answer: &mut String, numbers: &[i64]) -> Result<(), NoMem> {
    let mut between = "";
    for number in numbers {
        write!(answer, "{between}{number}")?;
        between = " ";
    }
    Ok(())
}

/// The values of a counter at a place, the outermost first.
fn push_at(
    alloc: Global,
    answer: &mut String,
    counters: &CounterAt,
    place: &str,
    name: &str,
) -> Result<(), NoMem> {
    let (node, word) = cut(place, ' ');
    let values = counters.values(alloc, node_of(node), pseudo_of(word), name)?;
    push_numbers(answer, values.as_slice())
}

fn push_all(
    alloc: Global,
    answer: &mut String,
    counters: &CounterAt,
    question: &Question<'_>,
) -> Result<(), NoMem> {
    for (at, place) in question.fourth.split(", ").enumerate() {
        if at > 0 {
            answer.push_str(", ")?;
        }
        push_at(alloc, answer, counters, place, question.third)?;
    }
    Ok(())
}

/// The values of a counter at some places.
pub(crate) fn push_values(
    alloc: Global,
    answer: &mut String,
    styled: &Styled<'_>,
    question: &Question<'_>,
) -> Result<(), NoMem> {
    let counters = number_all(alloc, styled.dom, styled.styles)?;
    push_all(alloc, answer, &counters, question)
}
