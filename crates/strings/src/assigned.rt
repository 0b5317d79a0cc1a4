//! The assignments of running strings, made once for all pages.

ghost use Rattle.std.specs.Prelude.{◌≡◌, ◌≤◌, ◌<◌, ℕ, List, Some, None, false, length, map, option_map, slice_get, slice_index_or, IfOk};
ghost use Rattle.std.specs.List.{last_or};
ghost use Rattle.std.specs.Option.{option_map_or};
ghost use Rattle.page_seq.specs.Places.{NeverFall, page_of};
ghost use Rattle.strings.specs.Assigned.{AreStrings, IsTextFrom, PagesNeverFall, before_page, on_page, shown_from, shown_of};
ghost use Rattle.strings.specs.Shown.{starts_page};
ghost use Rattle.strings.specs.StringFields.{mark_on, marks_in, marks_with};

use crate::named::{Named, add, marks_named};
use crate::shown::{Shown, text_of};
use bk_num::name::NoMem;
use boxes::flow::{Assign, Flow};
use boxes::page::{Page, PageList};
use boxes::place::Position;
use boxes::tree::BoxTree;
use indexmap::IndexMap;
use page_seq::places::{anchor_of, is_before, pages_of};
use std::alloc::Global;
use std::marker::Model;
use style::content::Keyword;

/// An assignment: its place in the flow's list, the page that it belongs to, by its place in the page list, and whether
/// it stands on that page's first solid.
#[derive(Clone, Copy, Debug)]
pub struct Mark {
    pub assign: usize,
    pub page: usize,
    pub starts: bool,
}

/// The assignments of running strings with the pages that they belong to. Contracts see each name with its assignments,
/// in their order.
#[derive(Drop)]
pub struct Strings {
    named: Named,
}

impl Model for Strings {
    ghost use Rattle.strings.specs.Assigned.{Named};

    ghost Value = { Named };

    ghost use Rattle.strings.specs.StringFields.{named_of, AreInOrder};

    ghost view = { named_of };

    ghost invariant = { AreInOrder };
}

/// Where assignments stand.
fn places_of(alloc: Global, assigns: &[Assign]) -> Result<Vec<Position>, NoMem>
    ensures { IfOk result (λ v. v.items ≡ map (λ a. a.at) assigns.now) }
{
    Ok(assigns.iter().map(|assign| assign.at).collect(alloc)?)
}

/// The page of each assignment.
fn numbers_of(alloc: Global, flow: &Flow, list: &PageList) -> Result<Vec<usize>, NoMem>
    requires { NeverFall (map (λ a. a.at) flow.now.strings) }
    ensures { IfOk result (λ v. v.items ≡
        map (page_of flow.now.main list.now.pages) (map (λ a. a.at) flow.now.strings)) }
{
    let places = places_of(alloc, flow.strings.as_slice())?;
    pages_of(alloc, &flow.main, list, places.as_slice())
}

/// Whether an assignment that belongs to a page stands on its first solid: that one holds it or stands after it, or is
/// the page's only one.
fn is_first_solid(tree: &BoxTree, page: &Page, assign: &Assign) -> bool
    ensures { result ≡ starts_page tree.now (Some page.now) (Some assign.now) }
{
    let at = anchor_of(tree, assign.at);
    match page.solids.as_slice() {
        [] => false,
        [first, rest @ ..] => rest.is_empty() || is_before(at, first.end),
    }
}

/// Whether an assignment stands on the first solid of the page that it belongs to.
fn starts_page(tree: &BoxTree, pages: &[Page], page: usize, assign: &Assign) -> bool
    ensures { result ≡ starts_page tree.now (slice_get pages.now page) (Some assign.now) }
{
    match pages.get(page) {
        Some(page) => is_first_solid(tree, page, assign),
        None => false,
    }
}

fn mark_on(tree: &BoxTree, pages: &[Page], assign: &Assign, place: usize, page: usize) -> Mark
    ensures { result ≡ mark_on tree.now pages.now assign.now place page }
{
    Mark {
        assign: place,
        page,
        starts: starts_page(tree, pages, page, assign),
    }
}

/// How many assignments stand on pages before this one.
fn count_before(marks: &[Mark], page: usize) -> usize
    requires { PagesNeverFall marks.now }
    ensures within { result ≤ length marks.now }
    ensures before { (k : ℕ) (d : Mark) → k < result → (slice_index_or marks.now k d).page < page }
    ensures after { (k : ℕ) (d : Mark) → result ≤ k → k < length marks.now →
        page ≤ (slice_index_or marks.now k d).page }
{
    marks.partition_point(|mark| mark.page < page)
}

/// How many assignments stand on pages up to this one.
fn count_up_to(marks: &[Mark], page: usize) -> usize
    requires { PagesNeverFall marks.now }
    ensures within { result ≤ length marks.now }
    ensures before { (k : ℕ) (d : Mark) → k < result → (slice_index_or marks.now k d).page ≤ page }
    ensures after { (k : ℕ) (d : Mark) → result ≤ k → k < length marks.now →
        page < (slice_index_or marks.now k d).page }
{
    marks.partition_point(|mark| mark.page <= page)
}

fn first_of(marks: &[Mark]) -> Option<usize>
    ensures { result ≡ option_map (λ m. m.assign) (slice_get marks.now 0) }
{
    marks.first().map(|mark| mark.assign)
}

fn last_of(marks: &[Mark]) -> Option<usize>
    ensures { result ≡ option_map (λ m. m.assign) (last_or None marks.now) }
{
    marks.last().map(|mark| mark.assign)
}

fn does_start(marks: &[Mark]) -> bool
    ensures { result ≡ option_map_or (λ m. m.starts) (slice_get marks.now 0) false }
{
    marks.first().is_some_and(|mark| mark.starts)
}

/// What a page knows of a string by the string's assignments on it and before it.
fn shown_of(here: &[Mark], before: &[Mark]) -> Shown
    ensures { result ≡ shown_of here.now before.now }
{
    Shown {
        first: first_of(here),
        last: last_of(here),
        entry: last_of(before),
        starts: does_start(here),
    }
}

/// What a page knows of a string by all of the string's assignments.
fn shown_among(marks: &[Mark], page: usize) -> Shown
    requires { PagesNeverFall marks.now }
    ensures { result ≡ shown_of (on_page page marks.now) (before_page page marks.now) }
{
    let from = count_before(marks, page);
    let to = count_up_to(marks, page);
    let (up_to, _) = marks.split_at(to);
    let (before, here) = up_to.split_at(from);
    shown_of(here, before)
}

/// The assignments of each name, with their pages.
fn by_name(alloc: Global, flow: &Flow, list: &PageList) -> Result<Named, NoMem>
    requires { NeverFall (map (λ a. a.at) flow.now.strings) }
    ensures { IfOk result (λ named. (name : List ℕ) →
        marks_in named name ≡ marks_with flow.now.main list.now.pages flow.now.strings name) }
{
    let assigns = flow.strings.as_slice();
    let pages = list.pages.as_slice();
    let numbers = numbers_of(alloc, flow, list)?;
    let mut named = IndexMap::new(alloc);
    for place in 0..assigns.len() {
        let assign = &assigns[place];
        let mark = mark_on(&flow.main, pages, assign, place, numbers[place]);
        add(&mut named, alloc, assign.name.as_str(), mark)?;
    }
    Ok(named)
}

impl Strings {
    /// The assignments of a flow's strings on a page list: one walk along the pages and the assignments. It keeps each
    /// name once, and a few words for each assignment.
    pub fn new(alloc: Global, flow: &Flow, list: &PageList) -> Result<Strings, NoMem>
        requires { NeverFall (map (λ a. a.at) flow.now.strings) }
        ensures { IfOk result (λ s. AreStrings flow.now.main list.now.pages flow.now.strings s) }
    {
        Ok(Strings {
            named: by_name(alloc, flow, list)?,
        })
    }

    /// What a page knows of a string: one look-up of the name, and two binary searches among its assignments. The page
    /// is named by its place in the list, from 0.
    pub fn shown(&self, page: usize, name: &str) -> Shown
        ensures { result ≡ shown_from self.now page name.now }
    {
        shown_among(marks_named(&self.named, name), page)
    }

    /// What `string()` gives on a page (css-gcpm-3, 1.1.2), from the flow whose strings these are. It takes no memory,
    /// and the time of `shown`.
    pub fn text<'f>(&self, flow: &'f Flow, page: usize, name: &str, keyword: Keyword) -> &'f str
        ensures { IsTextFrom flow.now.main flow.now.strings self.now page name.now keyword result.now }
    {
        text_of(flow.strings.as_slice(), self.shown(page, name).by(keyword))
    }
}
