//! The pages on which notes begin.

ghost use Rattle.std.specs.Prelude.{◌≡◌, ◌==◌, IfOk};
ghost use Rattle.page_seq.specs.Noted.{has_note};
ghost use Rattle.refs.specs.Kept.{AreNotedOn, begins_of};

use bk_num::name::NoMem;
use boxes::page::{Page, PageList};
use std::alloc::Global;

/// Writes a page as the one on which a note begins, where none is known.
fn note_on(begins: &mut [Option<usize>], note: usize, page: usize)
    ensures { AreNotedOn (λ n. note == n) page begins.old begins.new }
{
    if note < begins.len() && begins[note].is_none() {
        begins[note] = Some(page);
    }
}

/// Writes a page as the one on which each note begins that has a solid there and on no page before.
fn notes_on(begins: &mut [Option<usize>], page: &Page, number: usize)
    ensures { AreNotedOn (λ n. has_note n page.now) number begins.old begins.new }
{
    for placed in page.notes.as_slice() {
        note_on(begins, placed.0 as usize, number);
    }
}

/// For each of so many notes the page on which it begins, by its place in the list. It goes once along the notes of the
/// pages.
pub(crate) fn begins_of(
    alloc: Global,
    list: &PageList,
    count: usize,
) -> Result<Vec<Option<usize>>, NoMem>
    ensures { IfOk result (λ v. v.items ≡ begins_of list.now.pages count) }
{
    let pages = list.pages.as_slice();
    let mut begins = vec![in alloc; None; count]?;
    for number in 0..pages.len() {
        notes_on(&mut begins, &pages[number], number);
    }
    Ok(begins)
}
