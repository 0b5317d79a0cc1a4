//! The sheets of documents and of runs.

use crate::documents::document;
use crate::printed::{Written, print_all};
use crate::rules::repeated;
use crate::unanswered::{Answered, Unanswered, done};
use cascade::sheet::{ReadRule, ReadSheet};
use css_page::rules::PageRule;
use dom::Dom;
use rows::{part, parts_from};
use sheets::default_sheet::default_sheet;
use sheets::read::{Sheets, SheetsErr, read_sheets};
use sheets::{ElementSheet, list_sheets};
use std::alloc::{AllocError, Global};

/// The sheets of `style` elements: the number of each element, and its text.
fn listed(into: &mut String, sheets: &[ElementSheet]) -> Written {
    for sheet in sheets {
        write!(into, "{} '{}' ", sheet.element.0, sheet.text.as_str())?;
    }
    Ok(())
}

fn elements_of(alloc: Global, into: &mut String, dom: &Dom, most: u32) -> Answered {
    match list_sheets(alloc, dom, most)? {
        Some(found) => done(listed(into, found.as_slice())),
        None => done(into.push_str("refused")),
    }
}

fn style_elements(alloc: Global, into: &mut String, most: &str, html: &str) -> Answered {
    let dom = document(alloc, html)?;
    elements_of(alloc, into, &dom, most.parse::<u32>().unwrap_or(0))
}

/// How many selectors and declarations a ruleset has, with a `!` for each declaration that is important.
fn count(into: &mut String, rule: &ReadRule) -> Written {
    let (selectors, decls) = (rule.selectors.items.as_slice(), rule.decls.as_slice());
    write!(into, "{}/{}", selectors.len(), decls.len())?;
    for decl in decls {
        into.push_str(if decl.important { "!" } else { "" })?;
    }
    into.push_str(" ")
}

/// The same of each ruleset of a sheet, after the sheet's origin.
fn counts(into: &mut String, sheet: &ReadSheet) -> Written {
    write!(into, "{:?} ", sheet.origin)?;
    for rule in sheet.rules.as_slice() {
        count(into, rule)?;
    }
    Ok(())
}

fn of_default(alloc: Global, into: &mut String) -> Answered {
    let sheet = default_sheet(alloc)?;
    done(counts(into, &sheet))
}

/// The selectors of page rules, with `@` before those of each.
fn page_rules(into: &mut String, rules: &[PageRule]) -> Written {
    for rule in rules {
        into.push_str("@")?;
        print_all(into, rule.selectors.as_slice())?;
    }
    Ok(())
}

/// How many sheets a run has, and the selectors of their page rules.
fn whole_run(into: &mut String, sheets: &Sheets) -> Written {
    write!(into, "{} sheets ", sheets.read.as_slice().len())?;
    page_rules(into, sheets.pages.as_slice())
}

/// One file.
fn files_of(alloc: Global, file: &[&str]) -> Result<Vec<String>, AllocError> {
    let mut files = Vec::new(alloc);
    files.push(repeated(alloc, file)?)?;
    Ok(files)
}

fn of_run(alloc: Global, into: &mut String, dom: &Dom, file: &[&str]) -> Answered {
    let files = files_of(alloc, file)?;
    match read_sheets(alloc, dom, &files) {
        Ok(sheets) => done(whole_run(into, &sheets)),
        Err(SheetsErr::Sheets) => done(into.push_str("too many sheets")),
        Err(SheetsErr::Rules) => done(into.push_str("too many rules")),
        Err(SheetsErr::NoMemory) => Err(Unanswered::NoMemory),
    }
}

/// The sheets of a document, and of a file whose pieces are repeated.
fn of_texts(alloc: Global, into: &mut String, html: &str, file: &[&str]) -> Answered {
    let dom = document(alloc, html)?;
    of_run(alloc, into, &dom, file)
}

/// What is asked of sheets.
pub(crate) fn answer(alloc: Global, into: &mut String, parts: &[&str]) -> Answered {
    let first = part(parts, 1);
    match part(parts, 0) {
        "style_elements" => style_elements(alloc, into, first, part(parts, 2)),
        "default_sheet" => of_default(alloc, into),
        _ => of_texts(alloc, into, first, parts_from(parts, 2)),
    }
}
