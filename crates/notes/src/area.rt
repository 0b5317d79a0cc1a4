//! The area of notes, and how many solids of a list stand on a page.

ghost use Rattle.std.specs.Prelude.{◌≡◌, pos, ◌+◌, ◌<◌, ◌≤◌, ◌^◌, ◌≤ℤ◌, ◌+ℤ◌, length, All, FitsSigned, slice_get, Some, ◌⊎◌};
ghost use Rattle.std.specs.Int.{int_max, w64};
ghost use Rattle.bk_num.specs.Limits.{most_entries};
ghost use Rattle.notes.specs.Notes.{HaveBottoms, IsSmallNote, area_of, must_of, placed_bottom, placed_height, IsCarryCount, IsPlaced};

use crate::reach::Reach;
use crate::solid::NoteSolid;
use bk_num::limits::SEPARATOR;
use boxes::page::{Placed, PlacedNote};

/// The greater of two numbers of solids whose area is within the room, where the area of the greater one is given.
fn number_after(number: usize, next: usize, area: i64, room: i64) -> usize
    requires order { number ≤ next }
    ensures one { (result ≡ next) ⊎ (result ≡ number) }
    ensures fits { number < result → area ≤ℤ room }
    ensures most { area ≤ℤ room → result ≡ next }
{
    if area <= room { next } else { number }
}

/// A solid of a list.
fn solid_at(list: &[NoteSolid], at: usize) -> NoteSolid
    requires at { at < length list.now }
    requires small { All IsSmallNote list.now }
    ensures solid { slice_get list.now at ≡ Some result }
    ensures small { IsSmallNote result }
{
    list[at]
}

/// The area of the first `n` solids of a list, in units: the separator's room, and their greatest bottom, at least 0;
/// 0 where there are none.
pub fn area(list: &[NoteSolid], n: usize) -> i64
    requires n { n ≤ length list.now }
    requires few { length list.now ≤ most_entries }
    requires small { All IsSmallNote list.now }
    ensures area { result ≡ area_of list.now n }
    ensures low { pos 0 ≤ℤ result }
    ensures high { result ≤ℤ pos (2 ^ 60) }
{
    let mut reach = Reach::START;
    for at in 0..n {
        reach.place_note(&solid_at(list, at));
    }
    if n == 0 { 0 } else { reach.area() }
}

/// The bottom of a placed solid.
fn bottom_of(placed: &Placed) -> i64
    requires { FitsSigned w64 (placed.now.top +ℤ placed.now.height) }
    ensures { result ≡ placed.now.top +ℤ placed.now.height }
{
    placed.top + placed.height
}

/// A height of a note area that reaches at least to the bottom of a placed solid.
fn height_with(notes: &[PlacedNote], at: usize, height: i64) -> i64
    requires at { at < length notes.now }
    requires fits { FitsSigned w64 (placed_bottom (slice_get notes.now at)) }
    ensures { result ≡ int_max height (placed_bottom (slice_get notes.now at)) }
{
    height.max(bottom_of(&notes[at].1))
}

/// The height of the note area in which solids are placed, in units of 1/64 px: it begins with the separator's room,
/// and reaches to their greatest bottom.
pub fn placed_height(notes: &[PlacedNote]) -> i64
    requires { HaveBottoms notes.now }
    ensures { result ≡ placed_height notes.now }
{
    let mut height = SEPARATOR;
    for at in 0..notes.len() {
        height = height_with(notes, at, height);
    }
    height
}

/// How many solids of the first `carried` a page whose frame has this height places at least: the greatest number whose
/// area is at most half the height, at least 1, and 0 where nothing is carried.
pub fn carry_count(list: &[NoteSolid], carried: usize, height: i64) -> usize
    requires carried { carried ≤ length list.now }
    requires few { length list.now ≤ most_entries }
    requires small { All IsSmallNote list.now }
    ensures { IsCarryCount list.now carried height result }
{
    if carried == 0 {
        return 0;
    }
    let mut reach = Reach::START;
    let mut count = 0;
    for at in 0..carried {
        reach.place_note(&solid_at(list, at));
        let area = reach.area();
        count = number_after(count, at + 1, area + area, height);
    }
    count.max(1)
}

/// How many solids have to stand on a page: `c`, and up to the first one of the last note that is called on it.
pub fn must(list: &[NoteSolid], c: usize) -> usize
    requires { c ≤ length list.now }
    ensures must { result ≡ must_of list.now c }
    ensures within { result ≤ length list.now }
{
    let mut last = c;
    for at in 0..list.len() {
        if list[at].begins && at + 1 > last {
            last = at + 1;
        }
    }
    last
}

/// The greatest number of solids, from `least` on, whose area is within the room, and `least` where there is none.
pub fn placed(list: &[NoteSolid], least: usize, room: i64) -> usize
    requires least { least ≤ length list.now }
    requires few { length list.now ≤ most_entries }
    requires small { All IsSmallNote list.now }
    ensures { IsPlaced list.now least room result }
{
    let mut reach = Reach::START;
    let mut number = 0;
    for at in 0..list.len() {
        reach.place_note(&solid_at(list, at));
        number = number_after(number, at + 1, reach.area(), room);
    }
    number.max(least)
}
