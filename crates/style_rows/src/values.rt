//! Computed values of declared ones, as `computed_values` gives them.

use crate::questions::{Question, cut};
use bk_num::decimal::Decimal;
use bk_num::length::Len;
use bk_num::name::NoMem;
use bk_num::px::Px;
use computed_values::fonts::{chosen_height, chosen_size, chosen_weight, used_line_height};
use computed_values::lengths::{len_of, units_of};
use rows::number;
use style::long::Given;
use style::values::{FontSize, GivenHeight, LineHeight, Measure, Weight};

/// A number with at most one digit after its point.
fn decimal(part: &str) -> Decimal {
    let (whole, tenths) = cut(part, '.');
    let whole = number(whole).clamp(-1_000_000, 1_000_000);
    Decimal::new(10 * whole + number(tenths).clamp(0, 9), 1)
}

/// A length in units, as all others here are.
fn px(part: &str) -> Px {
    Px::from_units(number(part))
}

/// A declared length: a number and a unit, where `u` stands for 1/64 px.
fn measure(part: &str) -> Measure {
    if let Some(number) = part.strip_suffix("rem") {
        Measure::Rem(decimal(number))
    } else if let Some(number) = part.strip_suffix("em") {
        Measure::Em(decimal(number))
    } else if let Some(number) = part.strip_suffix("ex") {
        Measure::Ex(decimal(number))
    } else if let Some(number) = part.strip_suffix('%') {
        Measure::Percent(decimal(number))
    } else if let Some(number) = part.strip_suffix('u') {
        Measure::Px(px(number))
    } else {
        Measure::Auto
    }
}

fn length(font: &str, root: &str, base: &str, value: &str) -> i64 {
    i64::from(units_of(px(font), px(root), px(base), &measure(value)).units())
}

/// A length that may stay `auto` or a percentage, which have no units.
fn kept_length(font: &str, root: &str, value: &str) -> Option<i64> {
    match len_of(px(font), px(root), &measure(value)) {
        Len::Px(length) => Some(i64::from(length.units())),
        _ => None,
    }
}

fn font_size(parent: &str, root: &str, value: &str) -> i64 {
    let given = match value {
        "inherit" => Given::Inherit,
        "initial" => Given::Initial,
        "smaller" => Given::Value(FontSize::Smaller),
        "larger" => Given::Value(FontSize::Larger),
        _ => Given::Value(FontSize::Size(measure(value))),
    };
    i64::from(chosen_size(&given, px(parent), px(root)).units())
}

fn font_weight(parent: &str, value: &str) -> i64 {
    let weight = match value {
        "bolder" => Weight::Bolder,
        "lighter" => Weight::Lighter,
        _ => Weight::Number(number(value).clamp(100, 900) as u16),
    };
    let parent = number(parent).clamp(100, 900) as u16;
    i64::from(chosen_weight(&Given::Value(weight), parent))
}

/// The used line height of a child of some font size, where `normal` is inherited by the element that declares the
/// value.
fn line_height(font: &str, root: &str, child: &str, value: &str) -> i64 {
    let normal = LineHeight::Number(Decimal::new(125, 2));
    let given = match (value, measure(value)) {
        ("inherit", _) => Given::Inherit,
        ("initial", _) => Given::Initial,
        (_, Measure::Auto) => Given::Value(GivenHeight::Number(decimal(value))),
        (_, size) => Given::Value(GivenHeight::Size(size)),
    };
    let height = chosen_height(&given, &normal, px(font), px(root));
    i64::from(used_line_height(px(child), &height).units())
}

fn value(question: &Question<'_>) -> Option<i64> {
    let (first, second, third) = (question.first, question.second, question.third);
    match question.call {
        "length" if question.fourth.is_empty() => kept_length(first, second, third),
        "length" => Some(length(first, second, third, question.fourth)),
        "font-size" => Some(font_size(first, second, third)),
        "font-weight" => Some(font_weight(first, second)),
        "line-height" => Some(line_height(first, second, third, question.fourth)),
        _ => None,
    }
}

/// The answer where there is no value: a length that is `auto` or a percentage has no units, and no other call is
/// known.
fn blank(call: &str) -> char {
    if call == "length" { '-' } else { '?' }
}

/// Puts the answer to a question of one value at the end.
pub(crate) fn push_answer(answer: &mut String, question: &Question<'_>) -> Result<(), NoMem> {
    match value(question) {
        Some(units) => Ok(write!(answer, "{units}")?),
        None => Ok(answer.push(blank(question.call))?),
    }
}
