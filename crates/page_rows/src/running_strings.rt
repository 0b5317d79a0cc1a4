//! What the keywords of `string()` give on pages, in a flow of seven paragraphs of a line each. The first opens at
//! event 1, and each three events after the one before it.

ghost use Rattle.std.specs.Prelude.{◌≡◌, ◌<◌, map, IfOk};
ghost use Rattle.page_seq.specs.Places.{NeverFall};

use crate::notation::{count, pages_of, tree_in_short, unknown};
use bk_num::items::Items;
use bk_num::name::{Name, NoMem};
use boxes::flow::{Assign, Flow};
use boxes::page::PageList;
use boxes::place::Position;
use boxes::tree::BoxTree;
use std::alloc::{AllocError, Global};
use strings::assigned::Strings;
use strings::shown::string_on;
use style::content::Keyword;

/// The paragraphs.
pub(crate) const PARAGRAPHS: &str = "(;=A;=x;=y;=z;=B;=C;=w;)";

const KEYWORDS: [Keyword; 4] = [
    Keyword::First,
    Keyword::Start,
    Keyword::Last,
    Keyword::FirstExcept,
];

/// A string that is set at the start of an event.
pub(crate) fn assign(alloc: Global, name: &str, value: &str, event: u32) -> Result<Assign, NoMem>
    ensures event { IfOk result (λ a. a.at.event ≡ event) }
    ensures offset { IfOk result (λ a. a.at.offset ≡ 0) }
{
    let name = Name::new(alloc, name)?;
    let value = Name::new(alloc, value)?;
    let at = Position { event, offset: 0 };
    Ok(Assign { name, value, at })
}

/// A flow of the paragraphs with these assignments.
pub(crate) fn flow_of(main: BoxTree, alloc: Global, strings: Items<Assign>) -> Flow
    ensures { result.strings ≡ strings }
{
    Flow {
        main,
        notes: Items::new(alloc),
        starts: Items::new(alloc),
        strings,
        resets: Items::new(alloc),
    }
}

/// The paragraphs A, B and C set the string `s`. The paragraphs x and z set the string `t`.
fn book(alloc: Global) -> Result<Flow, NoMem>
    ensures { IfOk result (λ flow. NeverFall (map (λ a. a.at) flow.strings)) }
{
    let strings = Vec::from_array(
        alloc,
        [
            assign(alloc, "s", "A", 1)?,
            assign(alloc, "t", "X", 4)?,
            assign(alloc, "t", "Z", 10)?,
            assign(alloc, "s", "B", 13)?,
            assign(alloc, "s", "C", 16)?,
        ],
    )?;
    let main = tree_in_short(alloc, PARAGRAPHS)?;
    Ok(flow_of(main, alloc, Items::of(strings)))
}

/// The flow with its assignments, or without, for `unset`.
fn flow(alloc: Global, which: &str) -> Result<Flow, NoMem>
    ensures { IfOk result (λ flow. NeverFall (map (λ a. a.at) flow.strings)) }
{
    if which != "unset" {
        return book(alloc);
    }
    let main = tree_in_short(alloc, PARAGRAPHS)?;
    Ok(flow_of(main, alloc, Items::new(alloc)))
}

fn push_text(line: &mut String, text: &str) -> Result<(), AllocError> {
    let space = if line.is_empty() { "" } else { " " };
    write!(line, "{space}'{text}'")
}

/// The texts of the four keywords on a page.
fn texts(
    alloc: Global,
    flow: &Flow,
    list: &PageList,
    page: usize,
    name: &str,
) -> Result<String, NoMem>
    requires { NeverFall (map (λ a. a.at) flow.now.strings) }
{
    let strings = Strings::new(alloc, flow, list)?;
    let mut line = String::new(alloc);
    for keyword in &KEYWORDS {
        push_text(&mut line, strings.text(flow, page, name, *keyword))?;
    }
    Ok(line)
}

/// The same, each text by a call of its own.
fn texts_alone(
    alloc: Global,
    flow: &Flow,
    list: &PageList,
    page: usize,
    name: &str,
) -> Result<String, NoMem>
    requires { NeverFall (map (λ a. a.at) flow.now.strings) }
{
    let mut line = String::new(alloc);
    for keyword in &KEYWORDS {
        if page < list.pages.as_slice().len() {
            let text = string_on(alloc, flow, list, page, name, *keyword)?;
            push_text(&mut line, text.as_str())?;
        }
    }
    Ok(line)
}

/// The first and the last assignment on a page, the one that holds where it begins, and whether the first stands at its
/// first solid.
fn assigned(
    alloc: Global,
    flow: &Flow,
    list: &PageList,
    page: usize,
    name: &str,
) -> Result<String, NoMem>
    requires { NeverFall (map (λ a. a.at) flow.now.strings) }
{
    let strings = Strings::new(alloc, flow, list)?;
    let shown = strings.shown(page, name);
    Ok(format!(in alloc;
        "{:?} {:?} {:?} {}",
        shown.first, shown.last, shown.entry, shown.starts
    )?)
}

/// The answer about a string of a flow on a page of a list.
fn on_pages(alloc: Global, flow: &Flow, list: &PageList, parts: &[&str]) -> Result<String, NoMem>
    requires { NeverFall (map (λ a. a.at) flow.now.strings) }
{
    match parts {
        ["strings", _, _, name, page] => texts(alloc, flow, list, page_at(page), name),
        ["string_on", _, _, name, page] => texts_alone(alloc, flow, list, page_at(page), name),
        ["assigned", _, _, name, page] => assigned(alloc, flow, list, page_at(page), name),
        _ => unknown(alloc),
    }
}

/// The place of a page in a list, by its number from 1 on.
pub(crate) fn page_at(word: &str) -> usize {
    count(word).saturating_sub(1) as usize
}

/// The answer to a question about strings.
pub(crate) fn answer(alloc: Global, parts: &[&str]) -> Result<String, NoMem> {
    let list = pages_of(alloc, parts.get(2).unwrap_or(&"none"))?;
    let flow = flow(alloc, parts.get(1).unwrap_or(&""))?;
    on_pages(alloc, &flow, &list, parts)
}
