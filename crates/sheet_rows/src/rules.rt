//! Rules, declarations and media lists of css_rules.

use crate::printed;
use crate::unanswered::{Answered, Unanswered, done};
use css_rules::decls::{DeclSlice, read_decls};
use css_rules::media::media_read;
use css_rules::pages::PageSlice;
use css_rules::sheet::{Rule, Sheet, SheetErr, read_sheet};
use rows::{part, parts_from, push_all};
use std::alloc::{AllocError, Global};

/// Each declaration as `name:value;`, with `!` where it is important.
fn declarations(into: &mut String, decls: &[DeclSlice<'_>]) -> Result<(), AllocError> {
    for decl in decls {
        let mark = if decl.important { "!;" } else { ";" };
        push_all(into, &[decl.name, ":", decl.value, mark])?;
    }
    Ok(())
}

/// A ruleset as `selectors{..}`.
fn rule(into: &mut String, rule: &Rule<'_>) -> Result<(), AllocError> {
    push_all(into, &[rule.selectors, "{"])?;
    declarations(into, &rule.decls)?;
    into.push_str("}")
}

/// A page rule as `@selectors{..}`, with its boxes in `[ ]`.
fn page(into: &mut String, page: &PageSlice<'_>) -> Result<(), AllocError> {
    push_all(into, &["@", page.selectors, "{"])?;
    declarations(into, &page.decls)?;
    for (name, decls) in &page.boxes {
        push_all(into, &["[", name, " "])?;
        declarations(into, decls)?;
        into.push_str("]")?;
    }
    into.push_str("}")
}

fn whole_sheet(into: &mut String, sheet: &Sheet<'_>) -> Result<(), AllocError> {
    for one in &sheet.rules {
        rule(into, one)?;
    }
    for one in &sheet.pages {
        page(into, one)?;
    }
    Ok(())
}

/// The sheet of a text, or that it is refused.
fn sheet(alloc: Global, into: &mut String, text: &str) -> Answered {
    match read_sheet(alloc, text) {
        Ok(sheet) => done(whole_sheet(into, &sheet)),
        Err(SheetErr::Rules) => done(into.push_str("refused")),
        Err(SheetErr::NoMemory) => Err(Unanswered::NoMemory),
    }
}

/// How many rulesets the sheet of a text has, or that it is refused.
fn rule_count(alloc: Global, into: &mut String, text: &str) -> Answered {
    match read_sheet(alloc, text) {
        Ok(sheet) => done(printed::shown(into, &sheet.rules.len())),
        Err(SheetErr::Rules) => done(into.push_str("refused")),
        Err(SheetErr::NoMemory) => Err(Unanswered::NoMemory),
    }
}

fn style_attribute(alloc: Global, into: &mut String, text: &str) -> Answered {
    let decls = read_decls(alloc, text)?;
    done(declarations(into, &decls))
}

fn push_times(text: &mut String, piece: &str, times: i64) -> Result<(), AllocError> {
    for _ in 0..times {
        text.push_str(piece)?;
    }
    Ok(())
}

/// The text of pieces, each with the number of times that it stands there.
pub(crate) fn repeated(alloc: Global, pieces: &[&str]) -> Result<String, AllocError> {
    let mut text = String::new(alloc);
    for pair in pieces.chunks(2) {
        if let [piece, times] = pair {
            push_times(&mut text, piece, rows::number(times))?;
        }
    }
    Ok(text)
}

/// What is asked of a long text.
fn of_long(alloc: Global, into: &mut String, call: &str, pieces: &[&str]) -> Answered {
    let text = repeated(alloc, pieces)?;
    match call {
        "long_media" => done(printed::yes_or_no(into, media_read(text.as_str()))),
        _ => rule_count(alloc, into, text.as_str()),
    }
}

/// What is asked of rules.
pub(crate) fn answer(alloc: Global, into: &mut String, parts: &[&str]) -> Answered {
    let text = part(parts, 1);
    match part(parts, 0) {
        "rules" => sheet(alloc, into, text),
        "decls" => style_attribute(alloc, into, text),
        "media" => done(printed::yes_or_no(into, media_read(text))),
        call => of_long(alloc, into, call, parts_from(parts, 1)),
    }
}
