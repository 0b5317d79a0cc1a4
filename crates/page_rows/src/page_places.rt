//! The frames of a table, the sides of pages, the pages of places, and page numbers.

ghost use Rattle.std.specs.Prelude.{◌≤◌, IfOk};
ghost use Rattle.std.specs.List.{All};
ghost use Rattle.boxes.specs.Frames.{IsGoodFrame};
ghost use Rattle.columns.specs.Columns.{IsNearFrame};
ghost use Rattle.page_seq.specs.Frames.{HasCells, HasGoodCells, IsGoodTable};

use crate::notation::{count, pages_of, position, tree_in_short, units, unknown};
use bk_num::ids::NameId;
use bk_num::items::Items;
use bk_num::name::NoMem;
use boxes::flow::{Flow, Reset};
use boxes::frames::{Demand, Frame, Frames, PageKind};
use boxes::page::PageList;
use boxes::place::Position;
use boxes::table::{PageCell, PageRow, PageTable};
use boxes::tree::BoxTree;
use page_seq::finder::PageFinder;
use page_seq::numbers::numbers;
use page_seq::pages::{Pages, side};
use page_seq::places::{anchor_of, pages_of as pages_at};
use std::alloc::Global;

/// A cell that the height of its frame tells from others.
fn cell(height: u8) -> PageCell
    ensures good { IsGoodFrame result.frame }
    ensures near { IsNearFrame result.frame }
{
    PageCell {
        width: 100,
        height: 100,
        right: 0,
        bottom: 0,
        frame: Frame {
            left: 5,
            top: 0,
            width: 100,
            height: i64::from(height),
        },
    }
}

/// A row whose cells are numbered from a height on.
fn row(first: u8) -> PageRow
    requires { first ≤ 100 }
    ensures good { HasGoodCells result }
    ensures near { HasCells IsNearFrame result }
{
    PageRow {
        cells: [
            cell(first),
            cell(first + 1),
            cell(first + 2),
            cell(first + 3),
            cell(first + 4),
            cell(first + 5),
        ],
    }
}

/// The pages of no name and of one name: cells from 10 and from 20 on.
pub(crate) fn table(alloc: Global) -> Result<PageTable, NoMem>
    ensures good { IfOk result (λ table. IsGoodTable table.rows) }
    ensures near { IfOk result (λ table. All (HasCells IsNearFrame) table.rows) }
{
    let rows = Vec::from_array(alloc, [row(10), row(20)])?;
    Ok(PageTable {
        rows: Items::of(rows),
    })
}

pub(crate) fn kind_of(word: &str) -> PageKind {
    match word {
        "blank" => PageKind::Blank,
        "notes" => PageKind::Notes,
        _ => PageKind::Flow,
    }
}

/// The index of a page, from 1 on.
pub(crate) fn index_of(word: &str) -> u32
    ensures low { 1 ≤ result }
    ensures high { result ≤ 1000 }
{
    count(word).clamp(1, 1000)
}

/// The height of the frame of a page by its index, its name and its kind.
fn frame(alloc: Global, index: &str, name: &str, kind: &str) -> Result<String, NoMem> {
    let pages = Pages::new(table(alloc)?);
    let frame = pages.frame(index_of(index), NameId(count(name)), kind_of(kind));
    Ok(format!(in alloc; "{}", frame.height)?)
}

/// The side of a page, and how many pages are left empty before it where any page, a left one or a right one is asked
/// for.
fn side_at(alloc: Global, index: u32) -> Result<String, NoMem>
    requires low { 1 ≤ index }
    requires high { index ≤ 1000 }
{
    let pages = Pages::new(table(alloc)?);
    let any = pages.empty_before(index, Demand::Page);
    let left = pages.empty_before(index, Demand::Left);
    let right = pages.empty_before(index, Demand::Right);
    Ok(format!(in alloc; "{:?} {any} {left} {right}", side(index))?)
}

/// Where a solid is sought for a place, and the page that it belongs to, as each of two calls has it.
fn place_in(alloc: Global, tree: &BoxTree, pages: &str, at: Position) -> Result<String, NoMem> {
    let list = pages_of(alloc, pages)?;
    let finder = PageFinder::new(alloc, &list)?;
    let found = pages_at(alloc, tree, &list, &[at])?;
    let Position { event, offset } = anchor_of(tree, at);
    let page = finder.page_of(tree, at);
    Ok(format!(in alloc; "{event}.{offset} {:?} {page}", found.as_slice())?)
}

fn place(alloc: Global, tree: &str, pages: &str, at: &str) -> Result<String, NoMem> {
    let tree = tree_in_short(alloc, tree)?;
    place_in(alloc, &tree, pages, position(at))
}

/// The numbers of pages of a tree with one reset.
fn numbered(
    alloc: Global,
    tree: BoxTree,
    list: &PageList,
    value: u16,
    at: Position,
) -> Result<Vec<i64>, NoMem> {
    let value = i64::from(value);
    let resets = Vec::from_array(alloc, [Reset { value, at }])?;
    let flow = Flow {
        main: tree,
        notes: Items::new(alloc),
        starts: Items::new(alloc),
        strings: Items::new(alloc),
        resets: Items::of(resets),
    };
    if list.pages.as_slice().len() > 100 {
        return Err(NoMem);
    }
    numbers(alloc, &flow, list)
}

/// The same of a tree in short.
fn numbered_in(
    alloc: Global,
    tree: &str,
    list: &PageList,
    value: &str,
    at: &str,
) -> Result<Vec<i64>, NoMem> {
    let tree = tree_in_short(alloc, tree)?;
    numbered(alloc, tree, list, units(value), position(at))
}

fn numbers_on(
    alloc: Global,
    tree: &str,
    pages: &str,
    value: &str,
    at: &str,
) -> Result<Vec<i64>, NoMem> {
    let list = pages_of(alloc, pages)?;
    numbered_in(alloc, tree, &list, value, at)
}

fn numbers_of(
    alloc: Global,
    tree: &str,
    pages: &str,
    value: &str,
    at: &str,
) -> Result<String, NoMem> {
    let numbers = numbers_on(alloc, tree, pages, value, at)?;
    Ok(format!(in alloc; "{:?}", numbers.as_slice())?)
}

/// The answer to a question about frames, places or numbers.
pub(crate) fn answer(alloc: Global, parts: &[&str]) -> Result<String, NoMem> {
    match parts {
        ["frame", index, name, kind] => frame(alloc, index, name, kind),
        ["side", index] => side_at(alloc, index_of(index)),
        ["place", tree, pages, at] => place(alloc, tree, pages, at),
        ["numbers", tree, pages, value, at] => numbers_of(alloc, tree, pages, value, at),
        _ => unknown(alloc),
    }
}
