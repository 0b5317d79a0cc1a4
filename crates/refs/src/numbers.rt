//! The numbers of the pages on which elements begin.

ghost use Rattle.std.specs.Prelude.{◌≡◌, ◌≤◌, List, Some, None, length, map, slice_get, unwrap_or, IfOk};
ghost use Rattle.std.specs.List.{All};
ghost use Rattle.bk_num.specs.Limits.{most_entries};
ghost use Rattle.boxes.specs.declared.page.Page.{Page};
ghost use Rattle.page_seq.specs.Numbers.{IsSmallReset};
ghost use Rattle.page_seq.specs.Places.{NeverFall};
ghost use Rattle.refs.specs.Begins.{page_of_note, page_of_start};
ghost use Rattle.refs.specs.Kept.{AreNumbersOf};
ghost use Rattle.refs.specs.Tables.{number_at, number_from};

use crate::begins::begins_of;
use bk_num::name::NoMem;
use boxes::flow::{Flow, Note, Start};
use boxes::page::PageList;
use page_seq::finder::PageFinder;
use page_seq::numbers::numbers;
use std::alloc::Global;

/// What is known of the pages of a flow.
#[derive(Drop)]
pub(crate) struct PageNumbers {
    /// The page of each place of the main tree.
    pub finder: PageFinder,
    /// For each note the page on which it begins, by its place in the list.
    pub notes: Vec<Option<usize>>,
    /// The number of each page.
    pub numbers: Vec<i64>,
}

/// The page on which a note begins, if one is known.
fn begins_on(notes: &[Option<usize>], number: usize) -> Option<usize>
    ensures { result ≡ unwrap_or (slice_get notes.now number) None }
{
    notes.get(number).copied().flatten()
}

fn number_at(numbers: &[i64], page: usize) -> i64
    ensures { result ≡ number_at numbers.now page }
{
    numbers.get(page).copied().unwrap_or(0)
}

impl PageNumbers {
    /// What is known of a page list of a flow: one walk along its solids and its notes.
    pub(crate) fn new(alloc: Global, flow: &Flow, list: &PageList) -> Result<PageNumbers, NoMem>
        requires order { NeverFall (map (λ r. r.at) flow.now.resets) }
        requires small { All IsSmallReset flow.now.resets }
        requires few { length list.now.pages ≤ most_entries }
        ensures { IfOk result (λ known. AreNumbersOf flow.now list.now.pages known) }
    {
        Ok(PageNumbers {
            finder: PageFinder::new(alloc, list)?,
            notes: begins_of(alloc, list, flow.notes.as_slice().len())?,
            numbers: numbers(alloc, flow, list)?,
        })
    }

    /// The page on which a note begins, and that of its call where no page has a solid of it.
    fn page_of_note(&self, flow: &Flow, number: usize, note: &Note) -> usize
        requires { slice_get flow.now.notes number ≡ Some note.now }
        ensures { (pages : List Page) → AreNumbersOf flow.now pages self.now →
            result ≡ page_of_note flow.now pages number note.now }
    {
        match begins_on(self.notes.as_slice(), number) {
            Some(page) => page,
            None => self.finder.page_of(&flow.main, note.call),
        }
    }

    /// The page on which an element begins.
    fn page_of(&self, flow: &Flow, start: Start) -> usize
        ensures { (pages : List Page) → AreNumbersOf flow.now pages self.now →
            result ≡ page_of_start flow.now pages start }
    {
        if let Some(number) = start.note {
            if let Some(note) = flow.notes.as_slice().get(number as usize) {
                return self.page_of_note(flow, number as usize, note);
            }
        }
        self.finder.page_of(&flow.main, start.at)
    }

    /// The number of the page on which an element begins, and 0 for one that doesn't begin.
    pub(crate) fn number_of(&self, flow: &Flow, start: Option<Start>) -> i64
        ensures { (pages : List Page) → AreNumbersOf flow.now pages self.now →
            result ≡ number_from flow.now pages start }
    {
        match start {
            Some(start) => number_at(self.numbers.as_slice(), self.page_of(flow, start)),
            None => 0,
        }
    }
}
