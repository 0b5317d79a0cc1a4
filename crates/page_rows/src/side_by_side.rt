//! Frames side by side on a page, and the pages of a list of frames.

ghost use Rattle.std.specs.Prelude.{◌≤◌, ◌≤ℤ◌, pos};
ghost use Rattle.boxes.specs.Frames.{IsPerPage};

use crate::notation::{count, pages_of, units, unknown};
use crate::page_places::{index_of, kind_of, table};
use bk_num::ids::NameId;
use bk_num::name::NoMem;
use boxes::frames::{Demand, Frames, PageKind};
use boxes::page::{Page, Placed, PlacedNote};
use columns::columns::Columns;
use page_seq::fold::fold;
use std::alloc::{AllocError, Global};

/// How many frames stand on a page, from 1 to 8.
fn per_of(word: &str) -> u32
    ensures { IsPerPage result }
{
    count(word).clamp(1, 8)
}

/// A gap from 0 to 64,000 units.
fn gap_of(word: &str) -> i64
    ensures low { pos 0 ≤ℤ result }
    ensures high { result ≤ℤ pos 64000 }
{
    i64::from(units(word).min(64_000))
}

/// Columns of frames that are 100 units wide and begin at 5.
fn columns_of(alloc: Global, per: &str, gap: &str) -> Result<Columns, NoMem> {
    Ok(Columns::new(table(alloc)?, per_of(per), gap_of(gap)))
}

/// The left, the width and the height of a frame by its index, its name and its kind. The height tells its page.
fn column(
    alloc: Global,
    columns: &Columns,
    index: &str,
    name: &str,
    kind: &str,
) -> Result<String, NoMem> {
    let frame = columns.frame(index_of(index), NameId(count(name)), kind_of(kind));
    let (left, width, height) = (frame.left, frame.width, frame.height);
    Ok(format!(in alloc; "{left} {width} {height}")?)
}

/// How many frames are left empty before the frame of an index where a column, a page, a left one or a right one is
/// asked for, and how many stand on a page.
fn met(alloc: Global, columns: &Columns, index: &str) -> Result<String, NoMem> {
    let index = index_of(index);
    let column = columns.empty_before(index, Demand::Column);
    let page = columns.empty_before(index, Demand::Page);
    let left = columns.empty_before(index, Demand::Left);
    let right = columns.empty_before(index, Demand::Right);
    let per = columns.per_page();
    Ok(format!(in alloc; "{column} {page} {left} {right} {per}")?)
}

fn push_solids(answer: &mut String, solids: &[Placed]) -> Result<(), AllocError> {
    for solid in solids {
        write!(answer, " {}.{}", solid.at.event, solid.at.offset)?;
    }
    Ok(())
}

fn push_notes(answer: &mut String, notes: &[PlacedNote]) -> Result<(), AllocError> {
    for (note, _) in notes {
        write!(answer, " note{note}")?;
    }
    Ok(())
}

/// A page: its index, its kind, its name, the height of its frame, its level, and where its solids begin.
fn push_page(answer: &mut String, page: &Page) -> Result<(), AllocError> {
    let (index, kind, name) = (page.index, page.kind, page.name.0);
    let (height, level) = (page.frame.height, page.level);
    write!(answer, "{index} {kind:?} {name} {height} {level}")?;
    push_solids(answer, page.solids.as_slice())?;
    push_notes(answer, page.notes.as_slice())
}

/// Pages with `/` between them, or `none`.
fn push_pages(answer: &mut String, pages: &[Page]) -> Result<(), AllocError> {
    if pages.is_empty() {
        return answer.push_str("none");
    }
    for page in pages {
        if !answer.is_empty() {
            answer.push_str(" / ")?;
        }
        push_page(answer, page)?;
    }
    Ok(())
}

/// The pages of a list of frames.
fn folded(alloc: Global, per: &str, frames: &str) -> Result<String, NoMem> {
    let list = pages_of(alloc, frames)?;
    if list.pages.as_slice().len() > 1000 {
        return Err(NoMem);
    }
    let pages = fold(alloc, &list, per_of(per))?;
    let mut answer = String::new(alloc);
    push_pages(&mut answer, pages.pages.as_slice())?;
    Ok(answer)
}

/// The answer to a question about columns.
fn of_columns(alloc: Global, columns: &Columns, parts: &[&str]) -> Result<String, NoMem> {
    match parts {
        ["column", _, _, index, name, kind] => column(alloc, columns, index, name, kind),
        ["met", _, index] => met(alloc, columns, index),
        _ => unknown(alloc),
    }
}

/// The columns of a question: so many, with a gap between them.
fn asked_columns(alloc: Global, parts: &[&str]) -> Result<Columns, NoMem> {
    match parts {
        ["column", per, gap, ..] => columns_of(alloc, per, gap),
        _ => columns_of(alloc, parts.get(1).unwrap_or(&""), "16"),
    }
}

/// The answer to a question about columns or folded lists.
pub(crate) fn answer(alloc: Global, parts: &[&str]) -> Result<String, NoMem> {
    if let ["fold", per, frames] = parts {
        return folded(alloc, per, frames);
    }
    let columns = asked_columns(alloc, parts)?;
    of_columns(alloc, &columns, parts)
}
