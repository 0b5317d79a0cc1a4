//! The pages to which places of the main tree belong.

ghost use Rattle.std.specs.Prelude.{◌≡◌, ◌≤◌, length, map, if◌then◌else◌, IfOk};
ghost use Rattle.page_seq.specs.Owners.{HaveOwners};
ghost use Rattle.page_seq.specs.Places.{NeverFall, anchor_of, has_end_after, has_solid, is_before, last_page, page_at, page_of};

use bk_num::name::NoMem;
use boxes::page::{Page, PageList};
use boxes::place::{Event, Position};
use boxes::tree::BoxTree;
use std::alloc::Global;

/// Whether a place stands before another one.
pub fn is_before(a: Position, b: Position) -> bool
    ensures { result ≡ is_before a b }
{
    a.event < b.event || (a.event == b.event && a.offset < b.offset)
}

/// The place at which a solid is sought for a place: that of the next event at the end of a leaf's text.
pub fn anchor_of(tree: &BoxTree, at: Position) -> Position
    ensures { result ≡ anchor_of tree.now at }
{
    if at.event >= tree.count() {
        return at;
    }
    let Event::Leaf(number) = tree.event(at.event) else {
        return at;
    };
    if tree.leaf(number).text.as_str().len() <= at.offset as usize {
        Position {
            event: at.event + 1,
            offset: 0,
        }
    } else {
        at
    }
}

/// Whether a solid of a page holds a place or stands after it. The page's last solids are asked first.
fn has_end_after(page: &Page, at: Position) -> bool
    ensures { result ≡ has_end_after at page.now }
{
    let solids = page.solids.as_slice();
    let count = solids.len();
    for passed in 0..count {
        if is_before(at, solids[count - 1 - passed].end) {
            return true;
        }
    }
    false
}

fn has_solid(page: &Page) -> bool
    ensures { result ≡ has_solid page.now }
{
    !page.solids.as_slice().is_empty()
}

fn last_or(last: usize, number: usize, here: bool) -> usize
    ensures { result ≡ (if here then number else last) }
{
    if here { number } else { last }
}

/// The last page that holds a solid, and the first page where none holds any.
pub(crate) fn last_page(pages: &[Page]) -> usize
    ensures last { result ≡ last_page pages.now }
    ensures within { result ≤ length pages.now }
{
    let mut last = 0;
    for (number, page) in pages.iter().enumerate() {
        last = last_or(last, number, has_solid(page));
    }
    last
}

/// The page that a place belongs to, which is none of those before `first`.
fn page_from(pages: &[Page], first: usize, last: usize, at: Position) -> usize
    requires first { first ≤ page_at pages.now at }
    requires last { last ≡ last_page pages.now }
    requires within { last ≤ length pages.now }
    ensures { result ≡ page_at pages.now at }
{
    for number in first..last {
        if has_end_after(&pages[number], at) {
            return number;
        }
    }
    last
}

/// The pages that places belong to, by their places in the list, from 0. It takes time in proportion to the list and
/// the places.
pub fn pages_of(
    alloc: Global,
    tree: &BoxTree,
    list: &PageList,
    places: &[Position],
) -> Result<Vec<usize>, NoMem>
    requires { NeverFall places.now }
    ensures { IfOk result (λ v. v.items ≡ map (page_of tree.now list.now.pages) places.now) }
{
    let pages = list.pages.as_slice();
    let last = last_page(pages);
    let mut numbers = Vec::new(alloc);
    let mut number = 0;
    for place in places {
        number = page_from(pages, number, last, anchor_of(tree, *place));
        numbers.push(number)?;
    }
    Ok(numbers)
}

/// On a page list whose solids ascend, the page of a place has the solid to which what stands at the place belongs: the
/// one that holds it, else the next one, else the last one.
pub fn places_have_owners()
    ensures { HaveOwners }
{}
