//! The page of any place, by a search among the ends of pages.

ghost use Rattle.std.specs.Prelude.{◌≡◌, ◌||◌, if◌then◌else◌, IfOk};
ghost use Rattle.page_seq.specs.Finder.{AreEndsOf, page_by};
ghost use Rattle.page_seq.specs.Places.{NeverFall, anchor_of, first_place, has_end_after, is_before};

use crate::places::{anchor_of, is_before, last_page};
use bk_num::name::NoMem;
use boxes::page::{Page, PageList};
use boxes::place::Position;
use boxes::tree::BoxTree;
use std::alloc::Global;
use std::marker::Model;

/// The pages of a list by the ends of their solids. Contracts see these ends.
#[derive(Drop)]
pub struct PageFinder {
    ends: Vec<Position>,
    last: usize,
}

impl Model for PageFinder {
    ghost use Rattle.page_seq.specs.Finder.{Ends};

    ghost Value = { Ends };

    ghost use Rattle.page_seq.specs.Finder.{ends_in, NeverFallIn};

    ghost view = { ends_in };

    ghost invariant = { NeverFallIn };
}

/// The later one of two places.
fn later(a: Position, b: Position) -> Position
    ensures { result ≡ (if is_before a b then b else a) }
{
    if is_before(a, b) { b } else { a }
}

/// The furthest one of a place and the ends of a page's solids.
fn furthest(page: &Page, from: Position) -> Position
    ensures { (at : Position) → is_before at result ≡ (is_before at from || has_end_after at page.now) }
{
    let mut end = from;
    for solid in page.solids.as_slice() {
        end = later(end, solid.end);
    }
    end
}

/// For each page the furthest end of its solids and of those on pages before it.
fn ends_of(alloc: Global, pages: &[Page]) -> Result<Vec<Position>, NoMem>
    ensures first { IfOk result (λ v. (at : Position) →
        first_place (is_before at) v.items ≡ first_place (has_end_after at) pages.now) }
    ensures order { IfOk result (λ v. NeverFall v.items) }
{
    let mut ends = Vec::new(alloc);
    let mut end = Position {
        event: 0,
        offset: 0,
    };
    for page in pages {
        end = furthest(page, end);
        ends.push(end)?;
    }
    Ok(ends)
}

/// The first of some ends that stands after a place.
fn first_after(ends: &[Position], at: Position) -> Option<usize>
    requires { NeverFall ends.now }
    ensures { result ≡ first_place (is_before at) ends.now }
{
    let number = ends.partition_point(|end| !is_before(at, *end));
    if number < ends.len() {
        Some(number)
    } else {
        None
    }
}

impl PageFinder {
    /// The finder of a page list: one walk along its solids. It keeps a place for each page.
    pub fn new(alloc: Global, list: &PageList) -> Result<PageFinder, NoMem>
        ensures { IfOk result (λ f. AreEndsOf list.now.pages f) }
    {
        let pages = list.pages.as_slice();
        Ok(PageFinder {
            ends: ends_of(alloc, pages)?,
            last: last_page(pages),
        })
    }

    /// The page that what stands at a place of the main tree belongs to, by its place in the list, from 0. It costs a
    /// binary search, and no memory.
    pub fn page_of(&self, tree: &BoxTree, at: Position) -> usize
        ensures { result ≡ page_by self.now (anchor_of tree.now at) }
    {
        first_after(self.ends.as_slice(), anchor_of(tree, at)).unwrap_or(self.last)
    }
}
