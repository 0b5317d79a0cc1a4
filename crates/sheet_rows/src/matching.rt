//! Selectors, and the nodes that they match.

use crate::documents::document;
use crate::printed::{Printed, Written, print_all};
use crate::unanswered::{Answered, Unanswered, done};
use bk_num::ids::NodeId;
use bk_num::values::Pseudo;
use dom::Dom;
use match_table::all::{MatchTable, match_all};
use rows::part;
use selectors::grammar::read_selectors;
use selectors::matching::matches;
use selectors::specificity::specificity;
use selectors::types::{Selector, SelectorList, pseudo};
use std::alloc::Global;

/// The specificity, and the pseudo-element that the selector names.
impl Printed for Selector {
    fn print(&self, into: &mut String) -> Written {
        let (ids, classes, types) = specificity(self);
        write!(into, "{ids},{classes},{types}")?;
        match pseudo(self) {
            Pseudo::Element => into.push_str(" "),
            named => write!(into, "::{named:?} "),
        }
    }
}

fn list(alloc: Global, text: &str) -> Result<SelectorList, Unanswered> {
    match read_selectors(alloc, text)? {
        Some(list) => Ok(list),
        None => Err(Unanswered::NoReading),
    }
}

fn specificities(alloc: Global, into: &mut String, text: &str) -> Answered {
    let list = list(alloc, text)?;
    done(print_all(into, list.items.as_slice()))
}

/// Whether one of the selectors matches a node.
fn is_matched(dom: &Dom, node: NodeId, selectors: &[Selector]) -> bool {
    if node.0 >= dom.len() {
        return false;
    }
    for selector in selectors {
        if matches(dom, node, selector) {
            return true;
        }
    }
    false
}

/// The numbers of the nodes that one of the selectors matches.
fn matched(into: &mut String, dom: &Dom, selectors: &[Selector]) -> Written {
    for number in 0..dom.len() {
        if is_matched(dom, NodeId(number), selectors) {
            write!(into, "{number} ")?;
        }
    }
    Ok(())
}

/// The places of the selectors of a group.
fn members(into: &mut String, places: &[u32]) -> Written {
    for place in places {
        write!(into, "{place} ")?;
    }
    Ok(())
}

/// The places of the selectors of some groups, group by group.
fn places_in(into: &mut String, table: &MatchTable, groups: &[u32]) -> Written {
    for group in groups {
        members(into, table.places(*group))?;
    }
    Ok(())
}

/// The places of the selectors that match, after each node's number.
fn places(into: &mut String, dom: &Dom, table: &MatchTable) -> Answered {
    for number in 0..dom.len() {
        if number as usize >= table.len() {
            return Err(Unanswered::Unknown);
        }
        write!(into, "{number}: ")?;
        places_in(into, table, table.of(NodeId(number)))?;
    }
    Ok(())
}

/// How many selectors are in some groups.
fn count_in(table: &MatchTable, groups: &[u32]) -> u64 {
    let mut count = 0u64;
    for group in groups {
        count = count.saturating_add(table.places(*group).len() as u64);
    }
    count
}

/// How many pairs of a selector and a node match.
fn pairs(into: &mut String, dom: &Dom, table: &MatchTable) -> Written {
    let mut count = 0u64;
    for number in 0..dom.len() {
        if (number as usize) < table.len() {
            count = count.saturating_add(count_in(table, table.of(NodeId(number))));
        }
    }
    write!(into, "{count}")
}

/// All matches of some selectors in one call.
fn table_of(alloc: Global, dom: &Dom, list: &[Selector]) -> Result<MatchTable, Unanswered> {
    let mut selectors: Vec<&Selector> = Vec::new(alloc);
    for selector in list {
        selectors.push(selector)?;
    }
    match match_all(alloc, dom, &selectors) {
        Ok(table) => Ok(table),
        Err(_) => Err(Unanswered::NoMemory),
    }
}

fn of_table(
    alloc: Global,
    into: &mut String,
    call: &str,
    dom: &Dom,
    list: &[Selector],
) -> Answered {
    let table = table_of(alloc, dom, list)?;
    match call {
        "table" => places(into, dom, &table),
        _ => done(pairs(into, dom, &table)),
    }
}

/// What is asked of selectors and a document.
fn of_document(
    alloc: Global,
    into: &mut String,
    call: &str,
    html: &str,
    list: &[Selector],
) -> Answered {
    let dom = document(alloc, html)?;
    match call {
        "match" => done(matched(into, &dom, list)),
        _ => of_table(alloc, into, call, &dom, list),
    }
}

fn of_texts(alloc: Global, into: &mut String, call: &str, text: &str, html: &str) -> Answered {
    let list = list(alloc, text)?;
    of_document(alloc, into, call, html, list.items.as_slice())
}

/// What is asked of selectors.
pub(crate) fn answer(alloc: Global, into: &mut String, parts: &[&str]) -> Answered {
    match part(parts, 0) {
        "selector" => specificities(alloc, into, part(parts, 1)),
        call => of_texts(alloc, into, call, part(parts, 1), part(parts, 2)),
    }
}
