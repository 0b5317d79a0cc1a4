//! How much room notes take, and how many of their solids stand on a page.

ghost use Rattle.std.specs.Prelude.{◌≤◌, All};
ghost use Rattle.notes.specs.Notes.{IsSmallNote};

use crate::notation::unknown;
use bk_num::name::NoMem;
use notes::area::{area, carry_count, must, placed};
use notes::solid::NoteSolid;
use rows::number;
use std::alloc::Global;

/// The most that a gap or a height is.
const MOST: i64 = 1_000_000;

/// A solid: its gap, its height, and `begins` where a note begins with it; without words one of no height.
fn solid(words: Option<&str>) -> NoteSolid
    ensures { IsSmallNote result }
{
    let (gap, rest) = words.unwrap_or("").split_once(' ').unwrap_or(("0", "0"));
    let (height, begins) = match rest.strip_suffix(" begins") {
        Some(height) => (height, true),
        None => (rest, false),
    };
    NoteSolid {
        gap: number(gap).clamp(-MOST, MOST),
        height: number(height).clamp(0, MOST),
        begins,
    }
}

/// The first six solids of a list, with commas between them; those that it lacks have no height.
fn solids(list: &str) -> [NoteSolid; 6]
    ensures { All IsSmallNote result }
{
    let mut words = list.split(',');
    let (a, b, c) = (
        solid(words.next()),
        solid(words.next()),
        solid(words.next()),
    );
    let (d, e, f) = (
        solid(words.next()),
        solid(words.next()),
        solid(words.next()),
    );
    [a, b, c, d, e, f]
}

/// A number of solids.
fn few(word: &str) -> usize
    ensures { result ≤ 6 }
{
    number(word).clamp(0, 6) as usize
}

fn whole(count: usize) -> i64 {
    i64::try_from(count).unwrap_or(-1)
}

/// How many solids have to stand on a page that has so many, and at least so many.
fn must_of(list: &str, count: usize, least: usize) -> usize
    requires { count ≤ 6 }
{
    must(&solids(list)[..count], least.min(count))
}

/// What is asked of a list, as a number.
fn number_of(parts: &[&str]) -> Option<i64> {
    match parts {
        ["area", list, count] => Some(area(&solids(list), few(count))),
        ["carry", list, carried, height] => {
            let count = carry_count(&solids(list), few(carried), number(height));
            Some(whole(count))
        }
        ["must", list, count, least] => Some(whole(must_of(list, few(count), few(least)))),
        ["placed", list, least, room] => {
            let count = placed(&solids(list), few(least), number(room));
            Some(whole(count))
        }
        _ => None,
    }
}

/// The answer to a question about a list of notes' solids.
pub(crate) fn answer(alloc: Global, parts: &[&str]) -> Result<String, NoMem> {
    match number_of(parts) {
        Some(number) => Ok(format!(in alloc; "{number}")?),
        None => unknown(alloc),
    }
}
