//! Questions of a value or two.

use crate::answers::unknown;
use crate::pages;
use bk_num::decimal::Decimal;
use bk_num::items::Items;
use bk_num::length::Len;
use bk_num::name::NoMem;
use bk_num::px::Px;
use bk_num::values::Side;
use boxes::frames::side_of;
use boxes::laws::make_line;
use boxes::span::used_units;
use margins::gap;
use rows::{number, part};
use std::alloc::Global;

/// The numbers of a part.
pub(crate) fn numbers(alloc: Global, part: &str) -> Result<Vec<i64>, NoMem> {
    let mut numbers = Vec::new(alloc);
    for word in part.split_whitespace() {
        numbers.push(number(word))?;
    }
    Ok(numbers)
}

/// The gap that some margins make.
fn gap_of(alloc: Global, margins: &str) -> Result<i64, NoMem> {
    let mut list = Vec::new(alloc);
    for word in margins.split_whitespace() {
        list.push(Px::from_units(number(word)))?;
    }
    Ok(gap(list.as_slice()))
}

/// A length: `auto`, a percentage, or units.
fn length(part: &str) -> Len {
    match part.strip_suffix('%') {
        Some(part) => Len::Percent(Decimal::new(number(part).clamp(-1000, 1000), 0)),
        None if part == "auto" => Len::Auto,
        None => Len::Px(Px::from_units(number(part))),
    }
}

fn side_word(index: &str) -> &'static str {
    match side_of(index.parse::<u32>().unwrap_or(0)) {
        Side::Left => "left",
        Side::Right => "right",
    }
}

/// A line's parts, as it gives them back.
fn line_parts(alloc: Global, from: &str, to: &str, hyphen: bool) -> Result<String, NoMem> {
    let from = from.parse::<u32>().unwrap_or(0);
    let line = make_line(from, to.parse::<u32>().unwrap_or(0), hyphen);
    let (from, to) = (line.from(), line.to());
    let hyphen = if line.hyphen() { "hyphen" } else { "none" };
    Ok(format!(in alloc; "{from} {to} {hyphen}")?)
}

fn push_all(answer: &mut String, numbers: &[i64]) -> Result<(), NoMem> {
    let mut between = "";
    for number in numbers {
        write!(answer, "{between}{number}").map_err(|_| NoMem)?;
        between = " ";
    }
    Ok(())
}

/// A list as a slice, and as it is given back.
fn list_back(alloc: Global, part: &str) -> Result<String, NoMem> {
    let items = Items::of(numbers(alloc, part)?);
    let mut answer = String::new(alloc);
    push_all(&mut answer, items.as_slice())?;
    answer.push_str(", ")?;
    push_all(&mut answer, items.into_vec().as_slice())?;
    Ok(answer)
}

fn printed(alloc: Global, number: i64) -> Result<String, NoMem> {
    Ok(format!(in alloc; "{number}")?)
}

/// The answer to a question of a value or two.
pub(crate) fn answer(alloc: Global, parts: &[&str]) -> Result<String, NoMem> {
    let (first, second) = (part(parts, 1), part(parts, 2));
    match part(parts, 0) {
        "gap" => printed(alloc, gap_of(alloc, first)?),
        "used" => printed(
            alloc,
            used_units(length(first), number(second).clamp(0, 1_000_000)),
        ),
        "side" => Ok(String::from_str(alloc, side_word(first))?),
        "empty before" => pages::empty_before(alloc, first, second),
        "line parts" => line_parts(alloc, first, second, part(parts, 3) == "hyphen"),
        "list" => list_back(alloc, first),
        _ => unknown(alloc),
    }
}
