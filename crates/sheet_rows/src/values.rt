//! Declarations as css_values reads them.

use crate::printed::{Printed, Written};
use crate::rules::repeated;
use crate::unanswered::{Answered, Unanswered, done};
use css_values::decls::read_decl;
use rows::{part, parts_from, push_all};
use std::alloc::{AllocError, Global};
use style::long::Long;

const SIDES: [&str; 4] = ["top", "right", "bottom", "left"];

/// Longhands, after each one's number where these are wanted.
fn print_longs(into: &mut String, longs: &[Long], numbers: bool) -> Written {
    for long in longs {
        if numbers {
            write!(into, "{}:", long.longhand().number())?;
        }
        long.print(into)?;
    }
    Ok(())
}

/// What a declaration gives to its longhands, after each one's number where these are wanted.
fn given(alloc: Global, into: &mut String, name: &str, value: &str, numbers: bool) -> Answered {
    match read_decl(alloc, name, value)? {
        Some(decl) => done(print_longs(into, decl.longs.as_slice(), numbers)),
        None => Err(Unanswered::NoReading),
    }
}

/// The same of one of several declarations, `-` where it has no reading.
fn one(alloc: Global, name: &str, value: &str) -> Result<String, AllocError> {
    let mut text = String::new(alloc);
    match given(alloc, &mut text, name, value, false) {
        Ok(()) if text.is_empty() => text.push_str("nothing")?,
        Ok(()) => {}
        Err(Unanswered::NoMemory) => return Err(AllocError),
        Err(_) => text.push_str("-")?,
    }
    Ok(text)
}

/// Keeps the first of some answers, and puts any other than that after it, with its question.
fn add(into: &mut String, answer: &str, name: &str, value: &str) -> Written {
    if into.is_empty() {
        return into.push_str(answer);
    }
    if into.as_str() == answer {
        return Ok(());
    }
    push_all(into, &[" but ", name, ":", value, " gives ", answer])
}

/// What each of the values that `;` separates gives to a property.
fn values_of(alloc: Global, into: &mut String, name: &str, values: &str) -> Written {
    for value in values.split(';') {
        let answer = one(alloc, name, value)?;
        add(into, answer.as_str(), name, value)?;
    }
    Ok(())
}

/// The same of a property, or of the four that a name with `*` stands for.
fn values_of_sides(alloc: Global, into: &mut String, name: &str, values: &str) -> Written {
    let Some((before, after)) = name.split_once('*') else {
        return values_of(alloc, into, name, values);
    };
    for side in &SIDES {
        let name = format!(in alloc; "{before}{side}{after}")?;
        values_of(alloc, into, name.as_str(), values)?;
    }
    Ok(())
}

fn values_of_names(alloc: Global, into: &mut String, names: &str, values: &str) -> Written {
    for name in names.split(' ') {
        values_of_sides(alloc, into, name, values)?;
    }
    Ok(())
}

/// What a property gets by a value whose pieces are repeated.
fn of_long(alloc: Global, into: &mut String, name: &str, pieces: &[&str]) -> Answered {
    let value = repeated(alloc, pieces)?;
    given(alloc, into, name, value.as_str(), false)
}

/// What is asked of declarations.
pub(crate) fn answer(alloc: Global, into: &mut String, parts: &[&str]) -> Answered {
    let (name, value) = (part(parts, 1), part(parts, 2));
    match part(parts, 0) {
        "value" => done(values_of_names(alloc, into, name, value)),
        "longhands" => given(alloc, into, name, value, true),
        _ => of_long(alloc, into, name, parts_from(parts, 2)),
    }
}
