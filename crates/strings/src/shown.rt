//! Running strings on pages.

ghost use Rattle.std.specs.Prelude.{◌≡◌, ◌<◌, Some, length, map, IfOk};
ghost use Rattle.page_seq.specs.Places.{NeverFall};
ghost use Rattle.strings.specs.Shown.{assign_at, shown_by, string_of, unless, value_of};

use crate::assigned::Strings;
use bk_num::name::{Name, NoMem};
use boxes::flow::{Assign, Flow};
use boxes::page::PageList;
use std::alloc::Global;
use style::content::Keyword;

/// What a page knows of a string. Assignments are named by their places in the flow's list.
#[derive(Clone, Copy, Debug, PartialEq, Eq)]
pub struct Shown {
    /// The first and the last assignment on the page.
    pub first: Option<usize>,
    pub last: Option<usize>,
    /// The assignment that holds where the page begins.
    pub entry: Option<usize>,
    /// Whether the first assignment belongs to the page's first solid.
    pub starts: bool,
}

fn unless(first: Option<usize>, other: Option<usize>) -> Option<usize>
    ensures { result ≡ unless first other }
{
    match first {
        Some(_) => None,
        None => other,
    }
}

impl Shown {
    /// Which assignment the page shows by a keyword: none is the empty text (css-gcpm-3, 1.1.2).
    pub fn by(&self, keyword: Keyword) -> Option<usize>
        ensures { result ≡ shown_by keyword self.now }
    {
        match keyword {
            Keyword::First => self.first.or(self.entry),
            Keyword::Start => {
                if self.starts {
                    self.first.or(self.entry)
                } else {
                    self.entry
                }
            }
            Keyword::Last => self.last.or(self.entry),
            Keyword::FirstExcept => unless(self.first, self.entry),
        }
    }
}

/// The text of an assignment, and the empty text without one.
pub(crate) fn text_of(assigns: &[Assign], shown: Option<usize>) -> &str
    ensures { result.now ≡ value_of (assign_at assigns.now shown) }
{
    let Some(at) = shown else {
        return "";
    };
    match assigns.get(at) {
        Some(assign) => assign.value.as_str(),
        None => "",
    }
}

/// What `string()` gives on a page, which is named by its place in the list, from 0 (css-gcpm-3, 1.1.2): for `first`
/// the page's first assignment, else the one before the page; for `start` the page's first assignment where it stands
/// on the page's first solid, else the one before; for `last` the page's last assignment, else the one before; for
/// `first-except` nothing on a page that assigns, else the one before. The text is empty before any assignment. It goes
/// through all assignments and pages: for more than one text make `Strings`.
pub fn string_on(
    alloc: Global,
    flow: &Flow,
    list: &PageList,
    page: usize,
    name: &str,
    keyword: Keyword,
) -> Result<Name, NoMem>
    requires order { NeverFall (map (λ a. a.at) flow.now.strings) }
    requires page { page < length list.now.pages }
    ensures { IfOk result (λ text. text ≡
        string_of flow.now.main list.now.pages flow.now.strings page name.now keyword) }
{
    let strings = Strings::new(alloc, flow, list)?;
    Name::new(alloc, strings.text(flow, page, name, keyword))
}
