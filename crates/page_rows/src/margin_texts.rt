//! What margin boxes print on the pages of a book of three pages, whose numbers are 4, 9 and 10. Its seven paragraphs
//! have a line each, and the first, the fifth and the sixth set the string `s`.

ghost use Rattle.std.specs.Prelude.{◌≡◌, ◌<◌, length, map, IfOk};
ghost use Rattle.page_seq.specs.Places.{NeverFall};
ghost use Rattle.strings.specs.Assigned.{AreStrings};
ghost use Rattle.margin_box.specs.Conditions.{CanShowMargins};

use crate::notation::{faces_of, pages_of, tree_in_short, unknown};
use crate::page_rules::rules_of;
use crate::running_strings::{PARAGRAPHS, assign, flow_of, page_at};
use bk_num::items::Items;
use bk_num::name::NoMem;
use boxes::flow::{Assign, Flow};
use boxes::page::PageList;
use css_page::rules::PageRule;
use margin_box::items::{MarginText, Margins, margin_items};
use metrics::Faces;
use page_ctx::resolve::{PageStyles, resolve};
use rows::{escaped, unescaped};
use std::alloc::{AllocError, Global};
use strings::assigned::Strings;
use style::lists::Families;
use style::names::Names;

/// A face whose characters are half as wide as it is high, three quarters of it above the baseline; at 16 px a
/// character has 512 units, and a line of 20 px has its baseline 896 units below its top.
const METRICS: &str = "bookmetrics 1
face test normal 400 16 12 4 8
face test normal 700 16 8 8 16
";

/// The events of the lines of each page.
const PAGES: &str = "2 5 8/11 14 17/20";

fn strings(alloc: Global) -> Result<Vec<Assign>, NoMem>
    ensures { IfOk result (λ strings. NeverFall (map (λ a. a.at) strings.items)) }
{
    let first = assign(alloc, "s", "A", 1)?;
    let second = assign(alloc, "s", "B", 13)?;
    let third = assign(alloc, "s", "C", 16)?;
    Ok(Vec::from_array(alloc, [first, second, third])?)
}

fn flow(alloc: Global) -> Result<Flow, NoMem>
    ensures { IfOk result (λ flow. NeverFall (map (λ a. a.at) flow.strings)) }
{
    let strings = strings(alloc)?;
    let main = tree_in_short(alloc, PARAGRAPHS)?;
    Ok(flow_of(main, alloc, Items::of(strings)))
}

fn list(alloc: Global) -> Result<PageList, NoMem>
    ensures { IfOk result (λ list. length list.pages ≡ 3) }
{
    let list = pages_of(alloc, PAGES)?;
    if list.pages.as_slice().len() == 3 {
        Ok(list)
    } else {
        Err(NoMem)
    }
}

/// What the margin boxes of a book are printed with, but for their styles and strings.
#[derive(Clone, Copy)]
struct Book<'a> {
    faces: &'a Faces,
    flow: &'a Flow,
    list: &'a PageList,
}

fn margins_of<'a>(book: Book<'a>, strings: &'a Strings, styles: &'a PageStyles<'a>) -> Margins<'a>
    requires strings { AreStrings book.flow.now.main book.list.now.pages book.flow.now.strings strings.now }
    requires pages { length book.list.now.pages ≡ 3 }
    ensures can { CanShowMargins result }
    ensures pages { length result.list.now.pages ≡ 3 }
{
    Margins {
        faces: book.faces,
        flow: book.flow,
        list: book.list,
        numbers: &[4, 9, 10],
        strings,
        styles,
    }
}

/// Adds an item: its text, its left and its baseline.
fn push_item(line: &mut String, item: &MarginText) -> Result<(), AllocError> {
    if !line.is_empty() {
        line.push_str(", ")?;
    }
    let (text, style) = (item.text.as_str(), item.style);
    write!(line, "'{text}' {} {}", style.x, style.y)
}

/// Items, each with its text, its left and its baseline; `nothing` where there is none.
fn items_of(alloc: Global, items: &[MarginText]) -> Result<String, AllocError> {
    let mut line = String::new(alloc);
    for item in items {
        push_item(&mut line, item)?;
    }
    if line.is_empty() {
        return String::from_str(alloc, "nothing");
    }
    escaped(alloc, line.as_str())
}

/// What the margin boxes of a page print.
fn printed_on(alloc: Global, margins: &Margins<'_>, page: usize) -> Result<String, NoMem>
    requires can { CanShowMargins margins.now }
    requires page { page < length margins.now.list.now.pages }
{
    let items = margin_items(alloc, margins, page)?;
    Ok(items_of(alloc, items.as_slice())?)
}

/// What the margin boxes of a page of a book print in these styles.
fn printed_of(
    alloc: Global,
    book: Book<'_>,
    styles: &PageStyles<'_>,
    page: usize,
) -> Result<String, NoMem>
    requires strings { NeverFall (map (λ a. a.at) book.flow.now.strings) }
    requires pages { length book.list.now.pages ≡ 3 }
    requires page { page < 3 }
{
    let strings = Strings::new(alloc, book.flow, book.list)?;
    let margins = margins_of(book, &strings, styles);
    printed_on(alloc, &margins, page)
}

/// The same of the list of pages that the book has.
fn printed_with(
    alloc: Global,
    faces: &Faces,
    flow: &Flow,
    styles: &PageStyles<'_>,
    page: usize,
) -> Result<String, NoMem>
    requires strings { NeverFall (map (λ a. a.at) flow.now.strings) }
    requires page { page < 3 }
{
    let list = list(alloc)?;
    let book = Book {
        faces,
        flow,
        list: &list,
    };
    printed_of(alloc, book, styles, page)
}

/// The same of its flow.
fn printed_among(
    alloc: Global,
    faces: &Faces,
    styles: &PageStyles<'_>,
    page: usize,
) -> Result<String, NoMem>
    requires { page < 3 }
{
    let flow = flow(alloc)?;
    printed_with(alloc, faces, &flow, styles, page)
}

/// What the margin boxes of a page of the book print in these styles.
fn printed_in(alloc: Global, styles: &PageStyles<'_>, page: usize) -> Result<String, NoMem>
    requires { page < 3 }
{
    let faces = faces_of(alloc, METRICS)?;
    printed_among(alloc, &faces, styles, page)
}

/// What the margin boxes of a page of the book print by these rules, where pages have these names.
fn printed_for(
    alloc: Global,
    rules: &[PageRule],
    names: &Names,
    page: usize,
) -> Result<String, NoMem>
    requires { page < 3 }
{
    let serif = Families::serif(alloc)?;
    let styles = resolve(alloc, rules, names, &serif)?;
    printed_in(alloc, &styles, page)
}

/// What the margin boxes of a page of the book print by these rules.
fn printed_by(alloc: Global, rules: &[PageRule], page: usize) -> Result<String, NoMem>
    requires { page < 3 }
{
    let names = Names::new(alloc);
    printed_for(alloc, rules, &names, page)
}

/// What the margin boxes of a page of the book print by a sheet.
fn printed(alloc: Global, sheet: &str, page: usize) -> Result<String, NoMem> {
    let sheet = unescaped(alloc, sheet)?;
    let rules = rules_of(alloc, sheet.as_str())?;
    if page < 3 {
        printed_by(alloc, rules.as_slice(), page)
    } else {
        unknown(alloc)
    }
}

/// The answer to a question about margin boxes.
pub(crate) fn answer(alloc: Global, parts: &[&str]) -> Result<String, NoMem> {
    match parts {
        ["margins", sheet, page] => printed(alloc, sheet, page_at(page)),
        _ => unknown(alloc),
    }
}
