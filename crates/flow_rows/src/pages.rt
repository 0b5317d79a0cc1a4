//! Frames and page boxes.

use crate::answers::unknown;
use crate::plain::numbers;
use bk_num::ids::NameId;
use bk_num::items::Items;
use bk_num::name::NoMem;
use boxes::frames::{Demand, Frame, Frames, OneFrame, PageKind};
use boxes::table::{PageCell, PageRow, PageTable};
use std::alloc::Global;

const FRAME: Frame = Frame {
    left: 10,
    top: -20,
    width: 5120,
    height: 3840,
};

fn demand_of(word: &str) -> Demand {
    match word {
        "column" => Demand::Column,
        "left" => Demand::Left,
        "right" => Demand::Right,
        _ => Demand::Page,
    }
}

/// How many pages stand empty before one that meets a demand, and the frame of the page where all have one frame.
pub(crate) fn empty_before(alloc: Global, index: &str, demand: &str) -> Result<String, NoMem> {
    let index = index.parse::<u32>().unwrap_or(0);
    if index < 1 || index > 100_000 {
        return unknown(alloc);
    }
    let frames = OneFrame { frame: FRAME };
    let count = frames.empty_before(index, demand_of(demand));
    let frame = frames.frame(index, NameId(0), PageKind::Flow);
    let (left, top, width, height) = (frame.left, frame.top, frame.width, frame.height);
    Ok(format!(in alloc; "{count}, {left} {top} {width} {height}")?)
}

/// A page box 5 units high, which its width tells from others.
fn cell(widths: &[i64], place: usize) -> PageCell {
    PageCell {
        width: widths.get(place).copied().unwrap_or(0),
        height: 5,
        right: 0,
        bottom: 0,
        frame: FRAME,
    }
}

fn row(widths: &[i64]) -> PageRow {
    PageRow {
        cells: [
            cell(widths, 0),
            cell(widths, 1),
            cell(widths, 2),
            cell(widths, 3),
            cell(widths, 4),
            cell(widths, 5),
        ],
    }
}

/// Page boxes by their widths: of no name, and of one name.
fn table(alloc: Global, plain: &str, named: &str) -> Result<PageTable, NoMem> {
    let plain = row(numbers(alloc, plain)?.as_slice());
    let named = row(numbers(alloc, named)?.as_slice());
    let mut rows = Vec::new(alloc);
    rows.push(plain)?;
    rows.push(named)?;
    Ok(PageTable {
        rows: Items::of(rows),
    })
}

fn kind_of(word: &str) -> PageKind {
    match word {
        "blank" => PageKind::Blank,
        "notes" => PageKind::Notes,
        _ => PageKind::Flow,
    }
}

/// The size of the page box of an index, a name and a kind.
fn size(table: &PageTable, index: &str, name: &str, kind: &str) -> (i64, i64) {
    if table.rows.as_slice().is_empty() {
        return (0, 0);
    }
    let index = index.parse::<u32>().unwrap_or(0);
    let name = NameId(name.parse::<u32>().unwrap_or(0));
    table.size(index, name, kind_of(kind))
}

fn sizes(
    alloc: Global,
    table: &PageTable,
    index: &str,
    name: &str,
    kind: &str,
) -> Result<String, NoMem> {
    let copy = table.copy(alloc)?;
    let (width, height) = size(table, index, name, kind);
    let (copied_width, copied_height) = size(&copy, index, name, kind);
    Ok(format!(in alloc; "{width} {height}, {copied_width} {copied_height}")?)
}

/// The size of a page box in a table, and in a copy of the table.
pub(crate) fn page_box(alloc: Global, parts: &[&str]) -> Result<String, NoMem> {
    let [_, plain, named, index, name, kind] = parts else {
        return unknown(alloc);
    };
    let table = table(alloc, plain, named)?;
    sizes(alloc, &table, index, name, kind)
}
