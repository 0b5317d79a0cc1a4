//! Columns: the frames of pages that hold several.

ghost use Rattle.std.specs.Prelude.{◌≡◌, ◌+◌, ◌-◌, ◌*◌, ◌<◌, ◌≤◌, ◌≤ℤ◌, ◌+ℤ◌, ◌*ℤ◌, ◌^◌, pos, neg_ℤ, refl};
ghost use Rattle.std.specs.Int.{int_max};
ghost use Rattle.bk_num.specs.Units.{floor_div};
ghost use Rattle.bk_num.specs.Limits.{most_pages};
ghost use Rattle.boxes.specs.Frames.{IsGoodFrame, IsPerPage, column_at, page_at};
ghost use Rattle.columns.specs.Columns.{AreColumns, IsNearFrame, column_frames, column_of, column_width, is_free_column};
ghost use Rattle.columns.specs.Near.{columns_wide};
ghost use Rattle.columns.specs.Steps.{IsNextFirst, column_within, column_free};

use bk_num::ids::NameId;
use boxes::frames::{Demand, Frame, Frames, PageKind, meets_side, side_of};
use boxes::table::PageTable;
use page_seq::pages::Pages;

/// Pages that hold so many frames side by side, with a gap between them in units. Page 1 is a right page.
#[derive(Drop)]
pub struct Columns {
    pages: Pages,
    count: u32,
    gap: i64,
    ghost good: { AreColumns pages.table.rows count gap },
}

/// The page of a frame.
fn page_of(count: u32, index: u32) -> u32
    requires per { IsPerPage count }
    requires low { 1 ≤ index }
    requires high { index ≤ most_pages + 20 }
    ensures page { result ≡ page_at count index }
    ensures low { 1 ≤ result }
    ensures high { result ≤ index }
{
    (index + (count - 1)) / count
}

/// Which frame of its page it is, from 0.
fn place_on_page(count: u32, index: u32) -> u32
    requires per { IsPerPage count }
    requires high { index ≤ most_pages + 20 }
    ensures place { result ≡ column_at count index }
    ensures within { result < count }
{
    (index + (count - 1)) % count
}

/// How many frames stand before the next one that is the first of its page.
fn left_on_page(count: u32, index: u32) -> u32
    requires per { IsPerPage count }
    requires high { index ≤ most_pages + 1 }
    ensures { IsNextFirst count index result }
{
    let place = place_on_page(count, index);
    if place == 0 { 0 } else { count - place }
}

/// So many times some units.
fn times(number: u32, units: i64) -> i64
    requires few { number ≤ 8 }
    requires low { pos 0 ≤ℤ units }
    requires high { units ≤ℤ pos (2 ^ 31) }
    ensures value { result ≡ pos number *ℤ units }
    ensures low { pos 0 ≤ℤ result }
    ensures high { result ≤ℤ pos (2 ^ 34) }
{
    i64::from(number) * units
}

/// One of so many equal parts, rounded down, and at least 0.
fn part(units: i64, count: u32) -> i64
    requires count { 1 ≤ count }
    requires low { neg_ℤ (pos (2 ^ 40)) ≤ℤ units }
    requires high { units ≤ℤ pos (2 ^ 40) }
    ensures part { result ≡ int_max (pos 0) (floor_div units count) }
    ensures low { pos 0 ≤ℤ result }
    ensures high { result ≤ℤ int_max (pos 0) units }
{
    units.div_euclid(i64::from(count)).max(0)
}

/// The width of each column of a frame.
fn column_width(count: u32, gap: i64, width: i64) -> i64
    requires per { IsPerPage count }
    requires gap_low { pos 0 ≤ℤ gap }
    requires gap_high { gap ≤ℤ pos 64000 }
    requires low { pos 0 ≤ℤ width }
    requires high { width ≤ℤ pos (2 ^ 30) }
    ensures width { result ≡ column_width count gap width }
    ensures low { pos 0 ≤ℤ result }
    ensures high { result ≤ℤ width }
{
    let gaps = times(count - 1, gap);
    part(width - gaps, count)
}

/// Where the column of a frame at a place begins.
fn column_left(left: i64, place: u32, step: i64) -> i64
    requires low { neg_ℤ (pos (2 ^ 39)) ≤ℤ left }
    requires high { left ≤ℤ pos (2 ^ 39) }
    requires place { place ≤ 8 }
    requires step_low { pos 0 ≤ℤ step }
    requires step_high { step ≤ℤ pos (2 ^ 31) }
    ensures left { result ≡ left +ℤ pos place *ℤ step }
    ensures low { neg_ℤ (pos (2 ^ 40)) ≤ℤ result }
    ensures high { result ≤ℤ pos (2 ^ 40) }
{
    left + times(place, step)
}

/// A column of a frame.
fn column_of(count: u32, gap: i64, frame: Frame, place: u32) -> Frame
    requires per { IsPerPage count }
    requires gap_low { pos 0 ≤ℤ gap }
    requires gap_high { gap ≤ℤ pos 64000 }
    requires place { place < count }
    requires frame { IsGoodFrame frame }
    requires near { IsNearFrame frame }
    ensures column { result ≡ column_of count gap frame place }
    ensures good { IsGoodFrame result }
{
    let width = column_width(count, gap, frame.width);
    Frame {
        left: column_left(frame.left, place, width + gap),
        top: frame.top,
        width,
        height: frame.height,
    }
}

impl Columns {
    /// Columns of the frames of a table: from 1 to 8 on each page, with gaps from 0 to 64,000 units between them. It
    /// takes no memory.
    pub fn new(table: PageTable, count: u32, gap: i64) -> Columns
        requires { AreColumns table.rows count gap }
        ensures pages { result.pages.table ≡ table }
        ensures count { result.count ≡ count }
        ensures gap { result.gap ≡ gap }
    {
        Columns {
            pages: Pages::new(table),
            count,
            gap,
        }
    }
}

impl Frames for Columns {
    ghost per = { λ c. c.count };

    ghost view = { λ c. column_frames c.pages.table.rows c.count c.gap };

    ghost bound = { λ c. 2 * c.count - 1 };

    ghost is_free = { λ c. is_free_column };

    ghost within = { λ c. λ index. λ d. column_within c.good.per index d };

    ghost free = { λ c. λ index. λ d. column_free c.count index d };

    ghost few = { λ c. c.good.per };

    ghost by_page = { λ c. λ index. λ d. refl };

    ghost kinds = { λ c. (refl, refl, refl) };

    ghost wide = { λ c. columns_wide c.pages.table.rows c.count c.gap };

    fn empty_before(&self, index: u32, demand: Demand) -> u32 {
        let left = left_on_page(self.count, index);
        match demand {
            Demand::Column => 0,
            Demand::Page => left,
            Demand::Left | Demand::Right => {
                let page = page_of(self.count, index + left);
                if meets_side(side_of(page), demand) {
                    left
                } else {
                    left + self.count
                }
            }
        }
    }

    fn frame(&self, index: u32, name: NameId, kind: PageKind) -> Frame {
        let page = page_of(self.count, index);
        let frame = self.pages.frame(page, name, kind);
        column_of(
            self.count,
            self.gap,
            frame,
            place_on_page(self.count, index),
        )
    }

    fn per_page(&self) -> u32 {
        self.count
    }
}
