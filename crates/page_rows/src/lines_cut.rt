//! Cuts of a page of six lines of one leaf, of 1,000 units each, in a block that keeps two lines together.

ghost use Rattle.std.specs.Prelude.{◌≡◌, All, None};
ghost use Rattle.cuts.specs.Areas.{IsArea};
ghost use Rattle.cuts.specs.Rows.{AreForcedBetween, IsSmallRow};

use crate::notation::unknown;
use bk_num::ids::NameId;
use bk_num::name::NoMem;
use cuts::cut::cut_noted;
use cuts::look::Look;
use cuts::row::{PageRoom, SolidRow};
use rows::number;
use seams::seam_info::{Class, SeamInfo};
use std::alloc::Global;

/// A line with a gap of 100 where it is the page's first.
const fn line(class: Class) -> SolidRow
    ensures small { IsSmallRow result }
    ensures free { result.seam.forced ≡ None }
{
    SolidRow {
        seam: SeamInfo {
            class,
            forced: None,
            whole_gap: 0,
            kept_gap: 100,
            head: 0,
            tail: 0,
            avoid: false,
            name: NameId(0),
        },
        height: 1000,
        widows: 2,
        orphans: 2,
    }
}

/// Six lines of one leaf.
#[tactic(auto, using(cuts::proofs::PointLemmas::free_between))]
fn leaf() -> [SolidRow; 6]
    ensures small { All IsSmallRow result }
    ensures between { AreForcedBetween result }
{
    [
        line(Class::A),
        line(Class::B),
        line(Class::B),
        line(Class::B),
        line(Class::B),
        line(Class::B),
    ]
}

/// An area of notes.
fn area(word: Option<&str>) -> i64
    ensures { IsArea result }
{
    number(word.unwrap_or("0")).clamp(0, 1_000_000)
}

/// The areas of the notes after each of the six lines.
fn areas(part: &str) -> [i64; 6]
    ensures { All IsArea result }
{
    let mut words = part.split(' ');
    [
        area(words.next()),
        area(words.next()),
        area(words.next()),
        area(words.next()),
        area(words.next()),
        area(words.next()),
    ]
}

/// The room of a page: `kept` or `dropped` for the gap at its top, its height, and the area of the carried notes.
fn room(kept: &str, height: &str, carried: &str) -> PageRoom
    ensures { IsArea result.carried }
{
    PageRoom {
        kept: kept == "kept",
        height: number(height),
        carried: area(Some(carried)),
    }
}

/// The cut of the six lines, as a level and a number of lines.
fn cut(areas: &[i64; 6], room: &PageRoom) -> (u8, usize)
    requires areas { All IsArea areas.now }
    requires carried { IsArea room.now.carried }
{
    let rows = leaf();
    let cut = cut_noted(&rows, 6, areas, room);
    (cut.level.number(), cut.count)
}

/// How many of the lines are read until the cut is told.
fn lines_read(areas: &[i64; 6], room: &PageRoom) -> usize
    requires areas { All IsArea areas.now }
    requires carried { IsArea room.now.carried }
{
    let rows = leaf();
    let mut look = Look::start();
    let mut area = 0;
    for at in 0..6 {
        look.take(&rows[at], area, room);
        if look.is_enough() {
            return at + 1;
        }
        area = areas[at];
    }
    6
}

/// The answer to a question about the six lines.
pub(crate) fn answer(alloc: Global, parts: &[&str]) -> Result<String, NoMem> {
    match parts {
        ["cut", notes, kept, height, carried] => {
            let (level, count) = cut(&areas(notes), &room(kept, height, carried));
            Ok(format!(in alloc; "{level} {count}")?)
        }
        ["read", notes, kept, height, carried] => {
            let count = lines_read(&areas(notes), &room(kept, height, carried));
            Ok(format!(in alloc; "{count}")?)
        }
        _ => unknown(alloc),
    }
}
