//! Which declarations win, by the cascade.

use crate::documents::document;
use crate::printed::{Printed, Written, print_all};
use crate::unanswered::{Answered, Unanswered, done};
use bk_num::ids::NodeId;
use bk_num::values::Pseudo;
use cascade::choice::{AppliedDecls, choose};
use cascade::decl::ReadDecl;
use cascade::sheet::{Origin, ReadSheet, read_rules};
use cascade::table::{NodeWinners, WinnerTable};
use cascade::weight::DeclWeight;
use cascade::winners::{all_winners, winners};
use css_rules::decls::{DeclSlice, read_decls};
use css_rules::sheet::read_sheet;
use css_values::decls::read_decl;
use dom::Dom;
use rows::{part, parts_from};
use std::alloc::{AllocError, Global};
use style::long::Long;

fn whole(text: &str) -> u32 {
    text.parse::<u32>().unwrap_or(0)
}

/// The weight of a rule, by whether it is the author's and the numbers of its specificity and its place.
fn weight_of(author: bool, numbers: &[u32]) -> DeclWeight {
    DeclWeight {
        important: false,
        author,
        styled: false,
        ids: nth(numbers, 1),
        classes: nth(numbers, 2),
        types: nth(numbers, 3),
        rule: u64::from(nth(numbers, 4)),
        decl: 0,
        place: 0,
    }
}

fn nth(numbers: &[u32], place: usize) -> u32 {
    if place < numbers.len() {
        numbers[place]
    } else {
        0
    }
}

/// The weight of a style attribute, or of a rule: its origin, specificity and place.
fn weight(alloc: Global, text: &str) -> Result<DeclWeight, AllocError> {
    if text == "style" {
        return Ok(DeclWeight::of_style());
    }
    let mut numbers = Vec::new(alloc);
    for word in text.split(' ') {
        numbers.push(whole(word))?;
    }
    Ok(weight_of(text.starts_with("author"), &numbers))
}

/// Puts a declaration at the end, where it has a reading.
fn push_read(alloc: Global, into: &mut Vec<ReadDecl>, slice: &DeclSlice<'_>) -> Answered {
    if let Some(decl) = read_decl(alloc, slice.name, slice.value)? {
        into.push(ReadDecl {
            longs: decl.longs,
            important: slice.important,
        })?;
    }
    Ok(())
}

fn push_all_read(alloc: Global, into: &mut Vec<ReadDecl>, slices: &[DeclSlice<'_>]) -> Answered {
    for slice in slices {
        push_read(alloc, into, slice)?;
    }
    Ok(())
}

fn declarations(alloc: Global, text: &str) -> Result<Vec<ReadDecl>, Unanswered> {
    let slices = read_decls(alloc, text)?;
    let mut decls = Vec::new(alloc);
    match push_all_read(alloc, &mut decls, &slices) {
        Ok(()) => Ok(decls),
        Err(e) => Err(e),
    }
}

fn all_declarations(alloc: Global, texts: &[&str]) -> Result<Vec<Vec<ReadDecl>>, Unanswered> {
    let mut all = Vec::new(alloc);
    for text in texts {
        all.push(declarations(alloc, text)?)?;
    }
    Ok(all)
}

/// The declarations of rules, with their weights.
fn applied<'a>(
    alloc: Global,
    weights: &str,
    all: &'a [Vec<ReadDecl>],
) -> Result<Vec<AppliedDecls<'a>>, AllocError> {
    let mut rules = Vec::new(alloc);
    for (text, decls) in weights.split(", ").zip(all) {
        let weight = weight(alloc, text)?;
        rules.push(AppliedDecls { weight, decls })?;
    }
    Ok(rules)
}

/// What wins among the declarations of rules of these weights.
fn won(alloc: Global, into: &mut String, weights: &str, all: &[Vec<ReadDecl>]) -> Answered {
    let rules = applied(alloc, weights, all)?;
    match choose(alloc, &rules) {
        Ok(longs) => done(print_all(into, longs.as_slice())),
        Err(_) => Err(Unanswered::NoMemory),
    }
}

fn chosen(alloc: Global, into: &mut String, weights: &str, texts: &[&str]) -> Answered {
    let all = all_declarations(alloc, texts)?;
    won(alloc, into, weights, &all)
}

fn push_sheet(alloc: Global, into: &mut Vec<ReadSheet>, text: &str, origin: Origin) -> Answered {
    let sheet = read_sheet(alloc, text)?;
    match read_rules(alloc, &sheet, origin) {
        Ok(read) => Ok(into.push(read)?),
        Err(_) => Err(Unanswered::NoMemory),
    }
}

/// The default sheet and the author's.
fn both_sheets(alloc: Global, defaults: &str, author: &str) -> Result<Vec<ReadSheet>, Unanswered> {
    let mut sheets = Vec::new(alloc);
    push_sheet(alloc, &mut sheets, defaults, Origin::Default)?;
    push_sheet(alloc, &mut sheets, author, Origin::Author)?;
    Ok(sheets)
}

/// The colour among some winners, `-` where there is none.
fn color_in(into: &mut String, longs: &[Long]) -> Written {
    for long in longs {
        if let Long::Color(given) = long {
            return given.print(into);
        }
    }
    into.push_str("- ")
}

/// The colours of a node and of its pseudo-elements.
fn colors_of(into: &mut String, node: &NodeWinners) -> Written {
    color_in(into, node.own.as_slice())?;
    color_in(into, node.before.as_slice())?;
    color_in(into, node.after.as_slice())?;
    color_in(into, node.call.as_slice())?;
    color_in(into, node.marker.as_slice())
}

fn table_of(alloc: Global, html: &str, sheets: &[ReadSheet]) -> Result<WinnerTable, Unanswered> {
    let dom = document(alloc, html)?;
    match all_winners(alloc, &dom, sheets) {
        Ok(all) => Ok(all),
        Err(_) => Err(Unanswered::NoMemory),
    }
}

fn colors_in(into: &mut String, all: &WinnerTable, node: NodeId) -> Answered {
    if node.0 as usize >= all.len() {
        return Err(Unanswered::Unknown);
    }
    done(colors_of(into, all.of(node)))
}

/// The same, of the list of all nodes.
fn colors_in_all(
    alloc: Global,
    into: &mut String,
    html: &str,
    sheets: &[ReadSheet],
    node: NodeId,
) -> Answered {
    let all = table_of(alloc, html, sheets)?;
    colors_in(into, &all, node)
}

const PSEUDOS: [Pseudo; 5] = [
    Pseudo::Element,
    Pseudo::Before,
    Pseudo::After,
    Pseudo::Call,
    Pseudo::Marker,
];

/// The colour of a node or of one of its pseudo-elements.
fn color_of(
    alloc: Global,
    into: &mut String,
    dom: &Dom,
    sheets: &[ReadSheet],
    node: NodeId,
    pseudo: Pseudo,
) -> Answered {
    if node.0 >= dom.len() {
        return Err(Unanswered::Unknown);
    }
    match winners(alloc, dom, sheets, node, pseudo) {
        Ok(found) => done(color_in(into, found.longs.as_slice())),
        Err(_) => Err(Unanswered::NoMemory),
    }
}

/// The colours of a node and of its pseudo-elements, each asked for by itself.
fn colors_of_each(
    alloc: Global,
    into: &mut String,
    dom: &Dom,
    sheets: &[ReadSheet],
    node: NodeId,
) -> Answered {
    for pseudo in &PSEUDOS {
        color_of(alloc, into, dom, sheets, node, *pseudo)?;
    }
    Ok(())
}

fn colors_at(
    alloc: Global,
    into: &mut String,
    html: &str,
    sheets: &[ReadSheet],
    node: NodeId,
) -> Answered {
    let dom = document(alloc, html)?;
    colors_of_each(alloc, into, &dom, sheets, node)
}

/// What wins for a node, by the default sheet and the author's.
fn colors_by(
    alloc: Global,
    into: &mut String,
    call: &str,
    node: NodeId,
    texts: [&str; 3],
) -> Answered {
    let [html, defaults, author] = texts;
    let sheets = both_sheets(alloc, defaults, author)?;
    match call {
        "winners" => colors_in_all(alloc, into, html, &sheets, node),
        _ => colors_at(alloc, into, html, &sheets, node),
    }
}

/// What is asked of the cascade.
pub(crate) fn answer(alloc: Global, into: &mut String, parts: &[&str]) -> Answered {
    let first = part(parts, 1);
    match part(parts, 0) {
        "choose" => chosen(alloc, into, first, parts_from(parts, 2)),
        call => {
            let texts = [part(parts, 2), part(parts, 3), part(parts, 4)];
            colors_by(alloc, into, call, NodeId(whole(first)), texts)
        }
    }
}
