//! Lengths, parts, and what lists, texts and names hold.

ghost use Rattle.std.specs.Prelude.{◌≤◌, ◌^◌, unsigned_abs};

use bk_num::decimal::Decimal;
use bk_num::items::{Items, Text};
use bk_num::length::{Len, Unit, part_of, px_of};
use bk_num::name::{Name, NoMem};
use bk_num::px::{Px, scale_floor};
use rows::{number, part};
use std::alloc::{AllocError, Global};

/// A decimal number: a whole one, or one with places, as `75e-2`.
fn decimal(part: &str) -> Decimal {
    let (units, places) = part.split_once("e-").unwrap_or((part, "0"));
    let most = 999_999_999_999_999;
    Decimal::new(
        number(units).clamp(-most, most),
        number(places).clamp(0, 6) as u8,
    )
}

fn unit(part: &str) -> Unit {
    match part {
        "in" => Unit::In,
        "cm" => Unit::Cm,
        "mm" => Unit::Mm,
        "pt" => Unit::Pt,
        "pc" => Unit::Pc,
        _ => Unit::Px,
    }
}

/// A base of percentages.
fn base(part: &str) -> i64
    ensures { unsigned_abs result ≤ 2 ^ 40 }
{
    number(part).clamp(-1_099_511_627_776, 1_099_511_627_776)
}

/// A length: `auto`, a percentage, or a number of units.
fn len(part: &str) -> Len {
    if part == "auto" {
        return Len::Auto;
    }
    match part.strip_suffix('%') {
        Some(percent) => Len::Percent(decimal(percent)),
        None => Len::Px(Px::from_units(number(part))),
    }
}

fn scaled(factor: i64, size: i64, per_em: i64) -> Px {
    let size = Px::from_units(size);
    if size.units() < 0 {
        return size;
    }
    scale_floor(
        factor.clamp(0, 16384) as u32,
        size,
        per_em.clamp(1, 16384) as u32,
    )
}

/// A length in units, None for `auto` and for a question of no known form.
fn length_of(parts: &[&str]) -> Option<Px> {
    let (first, second, third) = (part(parts, 1), part(parts, 2), number(part(parts, 3)));
    match part(parts, 0) {
        "length" => Some(px_of(decimal(first), unit(second))),
        "part" => Some(part_of(
            decimal(first),
            base(second),
            third.clamp(1, 1_000_000) as u32,
        )),
        "used" => len(first).used(base(second)),
        _ => Some(scaled(number(first), number(second), third)),
    }
}

/// The numbers of a list.
fn listed(alloc: Global, numbers: &str) -> Result<Items<u8>, NoMem> {
    let mut list = Items::new(alloc);
    for word in numbers.split(' ') {
        list.push(number(word).clamp(0, 255) as u8)?;
    }
    Ok(list)
}

/// The numbers of a list, after they were taken out of it and put back.
fn list(alloc: Global, numbers: &str) -> Result<String, AllocError> {
    let list = listed(alloc, numbers).map_err(|_| AllocError)?;
    let list = Items::of(list.into_vec());
    format!(in alloc; "{:?}", list.as_slice())
}

/// A text, after it was made from a string.
fn text(alloc: Global, text: &str) -> Result<String, AllocError> {
    let text = Text::of(String::from_str(alloc, text)?);
    String::from_str(alloc, text.as_str())
}

/// A name, and whether its copy is equal to it.
fn name(alloc: Global, text: &str) -> Result<String, AllocError> {
    let name = Name::new(alloc, text).map_err(|_| AllocError)?;
    let same = name.copy().map_err(|_| AllocError)? == name;
    format!(in alloc; "{} {same}", name.as_str())
}

fn units(alloc: Global, length: Option<Px>) -> Result<String, AllocError> {
    match length {
        Some(length) => format!(in alloc; "{}", length.units()),
        None => String::from_str(alloc, "none"),
    }
}

/// The answer to a question about numbers, lists, texts or names.
pub(crate) fn answer(alloc: Global, parts: &[&str]) -> Result<String, AllocError> {
    match part(parts, 0) {
        "list" => list(alloc, part(parts, 1)),
        "text" => text(alloc, part(parts, 1)),
        "name" => name(alloc, part(parts, 1)),
        _ => units(alloc, length_of(parts)),
    }
}
