//! The sheets of a run, read within their limits.

ghost use Rattle.std.specs.Prelude.{◌≡◌, ℕ, ◌+◌, ◌<◌, ◌≤◌, List, ◌++◌, Some, length, map, slice_get, IfOk, OnOk};
ghost use Rattle.std.specs.List.{AllZip};
ghost use Rattle.bk_num.specs.Limits.{most_sheets};
ghost use Rattle.sheets.specs.List.{sheet_in};
ghost use Rattle.sheets.specs.Sheets.{author_texts, element_sheets};
ghost use Rattle.sheets.specs.Files.{file_texts};
ghost use Rattle.sheets.specs.Readings.{SheetOf, AreReadings};
ghost use Rattle.sheets.specs.Sources as spec;

use crate::author::{AuthorSheet, read_author};
use crate::default_sheet::default_sheet;
use crate::list::{ElementSheet, list_sheets};
use bk_io::texts::without_mark;
use bk_num::items::Items;
use bk_num::limits::MOST_SHEETS;
use bk_num::name::NoMem;
use cascade::sheet::ReadSheet;
use css_page::rules::PageRule;
use css_rules::sheet::SheetErr;
use dom::Dom;
use std::alloc::{AllocError, Global};
use thiserror::Error;

/// The sheets of a run as they are read, in the order of the cascade (the default one, those of files, and those of
/// `style` elements in tree order), and the page rules of all of them in that order.
#[derive(Drop)]
pub struct Sheets {
    pub read: Items<ReadSheet>,
    pub pages: Items<PageRule>,
}

/// Why the sheets of a run aren't read.
#[derive(Clone, Copy, Debug, PartialEq, Eq, Error)]
pub enum SheetsErr {
    /// There are more than 16.
    #[error("too many sheets")]
    Sheets,
    /// One has more than 20,000 rules.
    #[error("too many rules")]
    Rules,
    #[error("no memory")]
    NoMemory,
}

impl From<AllocError> for SheetsErr {
    ghost use Rattle.std.specs.Prelude.{◌≡◌};
    ghost use Rattle.sheets.specs.declared.read.SheetsErr.TheVariants.{NoMemory};

    ghost from_gives = { λ _ e. e ≡ NoMemory };

    fn from(_e: AllocError) -> SheetsErr {
        SheetsErr::NoMemory
    }
}

impl From<NoMem> for SheetsErr {
    ghost use Rattle.std.specs.Prelude.{◌≡◌};
    ghost use Rattle.sheets.specs.declared.read.SheetsErr.TheVariants.{NoMemory};

    ghost from_gives = { λ _ e. e ≡ NoMemory };

    fn from(_e: NoMem) -> SheetsErr {
        SheetsErr::NoMemory
    }
}

/// Reads the sheet of a file or of an element.
fn author(alloc: Global, text: &str) -> Result<AuthorSheet, SheetsErr>
    ensures read { IfOk result (λ a. spec.IsReadFrom (spec.author_source text.now) a.read) }
    ensures pages { IfOk result (λ a. spec.ArePageRulesOf text.now a.pages) }
    ensures answer { (reading : List ℕ → SheetOf) → AreReadings reading → spec.IsAuthorOf (reading text.now) result }
{
    match read_author(alloc, text) {
        Ok(author) => Ok(author),
        Err(SheetErr::Rules) => Err(SheetsErr::Rules),
        Err(SheetErr::NoMemory) => Err(SheetsErr::NoMemory),
    }
}

/// Moves the page rules of a sheet after those of the sheets before it.
fn append(pages: &mut Vec<PageRule>, more: Items<PageRule>) -> Result<(), NoMem>
    ensures { OnOk result (pages.new.items ≡ pages.old.items ++ more) }
{
    let mut more = more.into_vec();
    pages.append(&mut more)?;
    Ok(())
}

/// The text of a sheet: those of files, less a leading U+FEFF, come before those of elements.
fn text_at<'a>(files: &'a [String], listed: &'a [ElementSheet], number: usize) -> &'a str
    requires { number < length files.now + length listed.now }
    ensures { slice_get (author_texts (map sheet_in listed.now) (file_texts files.now)) number ≡ Some result.now }
{
    if number < files.len() {
        without_mark(files[number].as_str())
    } else {
        listed[number - files.len()].text.as_str()
    }
}

/// Reads the sheets of files and those of elements, after the default one.
fn read_listed(
    alloc: Global,
    files: &[String],
    listed: &[ElementSheet],
) -> Result<Sheets, SheetsErr>
    requires { length files.now + length listed.now ≤ most_sheets }
    ensures read { IfOk result (λ s. AllZip spec.IsReadFrom (spec.sources_of
        (author_texts (map sheet_in listed.now) (file_texts files.now))) s.read) }
    ensures pages { IfOk result (λ s. spec.ArePageRules (spec.authors_of
        (author_texts (map sheet_in listed.now) (file_texts files.now))) s.pages) }
    ensures few { (reading : List ℕ → SheetOf) → AreReadings reading →
        spec.AreFew reading (author_texts (map sheet_in listed.now) (file_texts files.now)) result }
{
    let mut read = Items::new(alloc);
    read.push(default_sheet(alloc)?)?;
    let mut pages = Vec::new(alloc);
    for number in 0..files.len() + listed.len() {
        let AuthorSheet {
            read: own,
            pages: more,
        } = author(alloc, text_at(files, listed, number))?;
        read.push(own)?;
        append(&mut pages, more)?;
    }
    Ok(Sheets {
        read,
        pages: Items::of(pages),
    })
}

/// Reads the sheets of a run: those of files, and those of a document's `style` elements whose `media` is read.
/// `Sheets` comes exactly where they are more than 16, and `Rules` where they are not and one has more than 20,000
/// rules.
pub fn read_sheets(alloc: Global, dom: &Dom, files: &[String]) -> Result<Sheets, SheetsErr>
    ensures read { IfOk result (λ s. AllZip spec.IsReadFrom (spec.sources_of
        (author_texts (element_sheets dom.now) (file_texts files.now))) s.read) }
    ensures pages { IfOk result (λ s. spec.ArePageRules (spec.authors_of
        (author_texts (element_sheets dom.now) (file_texts files.now))) s.pages) }
    ensures answer { (reading : List ℕ → SheetOf) → AreReadings reading →
        spec.AreRead reading (author_texts (element_sheets dom.now) (file_texts files.now)) result }
{
    if files.len() > MOST_SHEETS as usize {
        return Err(SheetsErr::Sheets);
    }
    let most = MOST_SHEETS - files.len() as u32;
    let Some(listed) = list_sheets(alloc, dom, most)? else {
        return Err(SheetsErr::Sheets);
    };
    read_listed(alloc, files, listed.as_slice())
}
