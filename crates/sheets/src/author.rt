//! An author's sheet: what it is read as.

ghost use Rattle.std.specs.Prelude.{◌≡◌, ◌++◌, ℕ, List, map, option_to_list, IfOk, OnOk};
ghost use Rattle.std.specs.List.{filter_map};
ghost use Rattle.css_rules.specs.Pages.{page_in};
ghost use Rattle.css_rules.specs.Sheet.{rules_in, pages_in};
ghost use Rattle.css_page.specs.Rules.{rule_of as page_rule_of};
ghost use Rattle.cascade.specs.Sheets.{IsReadSheet, sheet_of};
ghost use Rattle.sheets.specs.Readings as spec;
ghost use Rattle.sheets.specs.Sources.{IsAuthor, ArePageRulesOf};

use bk_num::items::Items;
use bk_num::name::NoMem;
use cascade::sheet::{Origin, ReadSheet, read_rules};
use css_page::rules::{PageRule, read_page_rule};
use css_rules::pages::PageSlice;
use css_rules::sheet::{Sheet, SheetErr, one_reading, read_sheet};
use std::alloc::Global;

/// An author's sheet as it is read, and its page rules.
#[derive(Drop)]
pub struct AuthorSheet {
    pub read: ReadSheet,
    pub pages: Items<PageRule>,
}

/// Reads a page rule, and appends it where its selectors have a reading.
fn push_page(alloc: Global, rules: &mut Items<PageRule>, page: &PageSlice<'_>) -> Result<(), NoMem>
    ensures { OnOk result (rules.new ≡ rules.old ++ option_to_list (page_rule_of (page_in page.now))) }
{
    match read_page_rule(alloc, page)? {
        Some(rule) => rules.push(rule),
        None => Ok(()),
    }
}

/// Reads page rules, without those whose selectors have no reading.
fn read_pages(alloc: Global, pages: &[PageSlice<'_>]) -> Result<Items<PageRule>, NoMem>
    ensures { IfOk result (λ rules. rules ≡ filter_map page_rule_of (map page_in pages.now)) }
{
    let mut rules = Items::new(alloc);
    for page in pages {
        push_page(alloc, &mut rules, page)?;
    }
    Ok(rules)
}

/// What a sheet is read as.
fn author_of(alloc: Global, sheet: &Sheet<'_>) -> Result<AuthorSheet, NoMem>
    ensures read { IfOk result (λ a. a.read ≡ sheet_of Origin.Author (rules_in sheet.now)) }
    ensures pages { IfOk result (λ a. a.pages ≡ filter_map page_rule_of (pages_in sheet.now)) }
{
    Ok(AuthorSheet {
        read: read_rules(alloc, sheet, Origin::Author)?,
        pages: read_pages(alloc, &sheet.pages)?,
    })
}

/// Reads an author's sheet. `Rules` comes exactly where it has more than 20,000 rules. A page rule whose selectors have
/// no reading is left out. Each value is read once.
pub fn read_author(alloc: Global, text: &str) -> Result<AuthorSheet, SheetErr>
    ensures read { IfOk result (λ a. IsReadSheet Origin.Author text.now a.read) }
    ensures pages { IfOk result (λ a. ArePageRulesOf text.now a.pages) }
    ensures answer { (reading : List ℕ → spec.SheetOf) → spec.AreReadings reading → IsAuthor (reading text.now) result }
{
    one_reading();
    match read_sheet(alloc, text) {
        Ok(sheet) => match author_of(alloc, &sheet) {
            Ok(author) => Ok(author),
            Err(_) => Err(SheetErr::NoMemory),
        },
        Err(SheetErr::Rules) => Err(SheetErr::Rules),
        Err(SheetErr::NoMemory) => Err(SheetErr::NoMemory),
    }
}
