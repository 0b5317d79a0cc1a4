//! The numbers of pages.

ghost use Rattle.std.specs.Prelude.{◌≡◌, ◌≤◌, ◌<ℤ◌, ◌+ℤ◌, pos, ◌^◌, Some, length, map, slice_set, unwrap_or, IfOk};
ghost use Rattle.std.specs.List.{All};
ghost use Rattle.bk_num.specs.Limits.{most_entries};
ghost use Rattle.page_seq.specs.Numbers.{IsSmallReset, numbers_of, values_of};
ghost use Rattle.page_seq.specs.Places.{NeverFall};

use crate::places::pages_of;
use bk_num::name::NoMem;
use boxes::flow::{Flow, Reset};
use boxes::page::PageList;
use boxes::place::Position;
use boxes::tree::BoxTree;
use std::alloc::Global;

/// Where resets stand.
fn places_of(alloc: Global, resets: &[Reset]) -> Result<Vec<Position>, NoMem>
    ensures { IfOk result (λ v. v.items ≡ map (λ r. r.at) resets.now) }
{
    Ok(resets.iter().map(|reset| reset.at).collect(alloc)?)
}

/// Writes the value of a reset into a list, if the list has this place.
fn set_value(values: &mut Vec<Option<i64>>, number: usize, reset: Reset)
    ensures { values.new.items ≡ slice_set values.old.items number (Some reset.value) }
{
    if number < values.len() {
        values[number] = Some(reset.value);
    }
}

/// The value of the last reset on each page.
fn values_on(
    alloc: Global,
    tree: &BoxTree,
    list: &PageList,
    resets: &[Reset],
) -> Result<Vec<Option<i64>>, NoMem>
    requires { NeverFall (map (λ r. r.at) resets.now) }
    ensures { IfOk result (λ v. v.items ≡ values_of tree.now list.now.pages resets.now) }
{
    let places = places_of(alloc, resets)?;
    let numbers = pages_of(alloc, tree, list, places.as_slice())?;
    let mut values = vec![in alloc; None; list.pages.as_slice().len()]?;
    for k in 0..resets.len() {
        set_value(&mut values, numbers[k], resets[k]);
    }
    Ok(values)
}

/// The number of a page: the value of its last reset, and one more than the number before without one.
fn number_after(value: Option<i64>, before: i64) -> i64
    requires { before <ℤ pos (2 ^ 60) }
    ensures { result ≡ unwrap_or value (before +ℤ pos 1) }
{
    match value {
        Some(number) => number,
        None => before + 1,
    }
}

/// The numbers of the pages of a list, in order. A page's number is one more than that of the page before, and 1 on the
/// first page, or the value of the last reset of an element that begins on it. It takes time in proportion to the list
/// and the resets.
pub fn numbers(alloc: Global, flow: &Flow, list: &PageList) -> Result<Vec<i64>, NoMem>
    requires order { NeverFall (map (λ r. r.at) flow.now.resets) }
    requires small { All IsSmallReset flow.now.resets }
    requires few { length list.now.pages ≤ most_entries }
    ensures { IfOk result (λ v. v.items ≡ numbers_of flow.now.main list.now.pages flow.now.resets) }
{
    let values = values_on(alloc, &flow.main, list, flow.resets.as_slice())?;
    let mut numbers = Vec::new(alloc);
    let mut number = 0;
    for value in &values {
        number = number_after(*value, number);
        numbers.push(number)?;
    }
    Ok(numbers)
}
