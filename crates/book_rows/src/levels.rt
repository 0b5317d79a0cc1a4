//! The levels at which the pages of a book end, which no listing shows.

ghost use Rattle.std.specs.Prelude.{◌≡◌, ◌<◌, IfOk};
ghost use Rattle.book.specs.Laid.{AreGoodStyles};

use crate::books::Section;
use crate::files::{METRICS, files_of};
use bk_num::name::{Name, NoMem};
use bk_num::steps::Steps;
use book::document::{BookTexts, ColumnGrid, Output, read_document};
use book::styled::{Styled, in_styles};
use boxes::page::{Page, PageList};
use page_ctx::resolve::resolve;
use page_ctx::strings_asked::asked_strings;
use page_seq::pages::Pages;
use passes::settle::{Input, settle};
use std::alloc::Global;
use std::marker::Brand;
use std::str;
use std::sync::ledger::{Blank, Ledger};
use style::lists::Families;

/// The text of a file.
fn text_of<'a>(files: &'a [(Name, Vec<u8>)], name: &str) -> &'a str {
    for (named, bytes) in files {
        if named.as_str() == name {
            return str::from_utf8(bytes.as_slice()).unwrap_or("?");
        }
    }
    ""
}

/// A document in its styles, by its HTML and its sheet.
fn styled_of<'x>(alloc: Global, html: &'x str, sheets: &'x [String]) -> Result<Box<Styled>, NoMem>
    ensures { IfOk result (λ s. AreGoodStyles s.value) }
{
    let texts = BookTexts {
        passes: 8,
        grid: ColumnGrid { columns: 1, gap: 0 },
        output: Output::Listing,
        metrics: METRICS,
        patterns: None,
        html,
        sheets,
    };
    match read_document(alloc, texts) {
        Ok(document) => in_styles(alloc, document),
        Err(_) => Err(NoMem),
    }
}

/// The frames that the page rules of a document give.
fn frames_of(alloc: Global, styled: &Styled) -> Result<Pages, NoMem> {
    let initial = Families::serif(alloc)?;
    match resolve(alloc, styled.rules.as_slice(), &styled.names, &initial) {
        Ok(boxes) => Ok(Pages::new(boxes.table)),
        Err(e) => Err(e),
    }
}

/// The pages on which a document in its styles settles in these frames.
fn settled_pages<L: Ledger>(
    alloc: Global,
    styled: &Styled,
    frames: &Pages,
    steps: &mut Steps<L>,
) -> Result<PageList, NoMem>
    requires { AreGoodStyles styled.now }
{
    let asked = asked_strings(alloc, styled.rules.as_slice())?;
    let input = Input {
        dom: &styled.dom,
        styles: &styled.styles,
        counters: &styled.counters,
        asked: &asked,
        faces: &styled.faces,
        patterns: styled.patterns.as_ref(),
    };
    match settle(alloc, &input, frames, 8, steps) {
        Ok(settled) => Ok(settled.pages),
        Err(_) => Err(NoMem),
    }
}

/// The same, with this counter.
fn pages_of<L: Ledger>(
    alloc: Global,
    styled: &Styled,
    frames: &Pages,
    token: Blank,
) -> Result<PageList, NoMem>
    requires good { AreGoodStyles styled.now }
    requires name { token.name ≡ L.name }
    requires parts { token.parts ≡ L.parts }
    requires some { 0 < L.parts }
{
    let mut steps = Steps::<L>::zero(token);
    settled_pages(alloc, styled, frames, &mut steps)
}

/// The same, with a counter of its own.
fn listed(alloc: Global, styled: &Styled, frames: &Pages) -> Result<PageList, NoMem>
    requires { AreGoodStyles styled.now }
{
    pages_of::<Brand>(alloc, styled, frames, Blank::new(1))
}

/// Puts a page at the end: its level, how many lines and edges of the flow stand on it, and the notes that begin on it.
fn push_page(printed: &mut String, page: &Page) -> Result<(), NoMem> {
    let solids = page.solids.as_slice().len();
    write!(printed, "{}/{solids}", page.level)?;
    for (note, solid) in page.notes.as_slice() {
        if solid.at.offset == 0 {
            write!(printed, "+{note}")?;
        }
    }
    Ok(())
}

/// Puts the pages of a document at the end.
fn push_pages(printed: &mut String, pages: &[Page]) -> Result<(), NoMem> {
    printed.push_str("\n== levels\n")?;
    for (at, page) in pages.iter().enumerate() {
        if at > 0 {
            printed.push(' ')?;
        }
        push_page(printed, page)?;
    }
    Ok(printed.push('\n')?)
}

/// Puts the levels of the pages of a document in its styles at the end.
fn push_styled(printed: &mut String, alloc: Global, styled: &Styled) -> Result<(), NoMem>
    requires { AreGoodStyles styled.now }
{
    let frames = frames_of(alloc, styled)?;
    match listed(alloc, styled, &frames) {
        Ok(list) => push_pages(printed, list.pages.as_slice()),
        Err(e) => Err(e),
    }
}

/// Puts the levels of the pages of a document at the end, by its HTML and its sheet.
fn push_document(
    printed: &mut String,
    alloc: Global,
    html: &str,
    sheets: &[String],
) -> Result<(), NoMem> {
    match styled_of(alloc, html, sheets) {
        Ok(styled) => push_styled(printed, alloc, &styled),
        Err(e) => Err(e),
    }
}

/// A list of one text.
fn one_text(alloc: Global, text: &str) -> Result<Vec<String>, NoMem> {
    let mut texts = Vec::new(alloc);
    texts.push(String::from_str(alloc, text)?)?;
    Ok(texts)
}

/// Puts the levels of the pages of a book at the end, by its files.
fn push_files(printed: &mut String, alloc: Global, files: &[(Name, Vec<u8>)]) -> Result<(), NoMem> {
    let sheets = one_text(alloc, text_of(files, "sheet"))?;
    push_document(printed, alloc, text_of(files, "html"), &sheets)
}

/// Puts the levels of a book's pages at the end.
pub(crate) fn push_levels(
    printed: &mut String,
    alloc: Global,
    sections: &[Section<'_>],
) -> Result<(), NoMem> {
    let files = files_of(alloc, sections)?;
    push_files(printed, alloc, files.as_slice())
}
