//! Tables of page references: elements on pages and in notes, and where tables differ.

ghost use Rattle.std.specs.Prelude.{map, IfOk};
ghost use Rattle.std.specs.List.{All};
ghost use Rattle.page_seq.specs.Numbers.{IsSmallReset};
ghost use Rattle.page_seq.specs.Places.{NeverFall};
ghost use Rattle.refs.specs.Tables.{NodesAscend};

use crate::notation::{count, pages_of, position, tree_in_short, unknown};
use bk_num::ids::NodeId;
use bk_num::items::Items;
use bk_num::name::NoMem;
use boxes::flow::{Flow, Note, Reset, Start};
use boxes::page::PageList;
use boxes::place::Position;
use gen_text::table::Table;
use refs::difference::first_difference;
use refs::opening::opening;
use refs::shown::shown;
use std::alloc::Global;

/// The events are: 0 a root, 1 a box, 2 its text of nine characters, 3 its end, 4 a box, 5 its text, 6 its end, 7 a
/// box, 8 its text, 9 its end, 10 the root's end.
const TREE: &str = "(;=aaaa bbbb;=c;=d;)";

/// The places at which notes of one text are called: in the first text, at the end of the second, at the third.
const CALLS: [&str; 3] = ["2.4", "5.1", "8"];

/// The starts of elements: a node, the number of the note in which it stands or `-`, and its place. Node 3 has a second
/// one.
const STARTS: [(u32, &str, &str); 10] = [
    (2, "-", "0"),
    (12, "-", "7"),
    (3, "-", "2.5"),
    (5, "0", "0"),
    (6, "0", "1.2"),
    (8, "-", "4"),
    (9, "1", "0"),
    (13, "2", "1"),
    (14, "-", "10"),
    (3, "-", "8"),
];

fn note(alloc: Global, call: &str) -> Result<Note, NoMem> {
    Ok(Note {
        call: position(call),
        body: tree_in_short(alloc, "(;note;)")?,
    })
}

fn add_notes(alloc: Global, notes: &mut Items<Note>) -> Result<(), NoMem> {
    for call in &CALLS {
        notes.push(note(alloc, call)?)?;
    }
    Ok(())
}

fn add_starts(starts: &mut Items<Start>) -> Result<(), NoMem> {
    for (node, note, at) in &STARTS {
        starts.push(Start {
            node: NodeId(*node),
            note: note.parse::<u32>().ok(),
            at: position(at),
        })?;
    }
    Ok(())
}

/// The second box sets the page number to 8.
fn resets(alloc: Global) -> Result<Vec<Reset>, NoMem>
    ensures order { IfOk result (λ resets. NeverFall (map (λ r. r.at) resets.items)) }
    ensures small { IfOk result (λ resets. All IsSmallReset resets.items) }
{
    let at = Position {
        event: 4,
        offset: 0,
    };
    Ok(Vec::from_array(alloc, [Reset { value: 8, at }])?)
}

/// A flow with three notes, ten starts of elements and one reset.
fn flow(alloc: Global) -> Result<Flow, NoMem>
    ensures order { IfOk result (λ flow. NeverFall (map (λ r. r.at) flow.resets)) }
    ensures small { IfOk result (λ flow. All IsSmallReset flow.resets) }
{
    let main = tree_in_short(alloc, TREE)?;
    let mut flow = Flow {
        main,
        notes: Items::new(alloc),
        starts: Items::new(alloc),
        strings: Items::new(alloc),
        resets: Items::new(alloc),
    };
    add_notes(alloc, &mut flow.notes)?;
    add_starts(&mut flow.starts)?;
    flow.resets = Items::of(resets(alloc)?);
    Ok(flow)
}

/// The nodes of these numbers, ascending.
fn nodes(alloc: Global, numbers: &str) -> Result<Vec<NodeId>, NoMem>
    ensures { IfOk result (λ v. NodesAscend v.items) }
{
    let mut list = Vec::new(alloc);
    for number in numbers.split_whitespace() {
        list.push(NodeId(count(number)))?;
    }
    list.sort_by_key(|node| node.0)?;
    Ok(list)
}

/// The table that pages of the flow show for some nodes.
fn table_on(alloc: Global, list: &PageList, nodes: &[NodeId]) -> Result<Table, NoMem>
    requires { NodesAscend nodes.now }
{
    if list.pages.as_slice().len() > 100 {
        return Err(NoMem);
    }
    let flow = flow(alloc)?;
    shown(alloc, &flow, list, nodes)
}

/// The table of pages in short, or that before there are pages, for `opening`.
fn table(alloc: Global, pages: &str, numbers: &str) -> Result<Table, NoMem> {
    let nodes = nodes(alloc, numbers)?;
    if pages == "opening" {
        return opening(alloc, nodes.as_slice());
    }
    let list = pages_of(alloc, pages)?;
    table_on(alloc, &list, nodes.as_slice())
}

/// Each node of a table with its number.
fn printed(alloc: Global, table: &Table) -> Result<String, NoMem> {
    let mut line = String::from_str(alloc, "table")?;
    for entry in table.as_slice() {
        write!(line, " {}:{}", entry.node.0, entry.number)?;
    }
    Ok(line)
}

/// Each node of the table of pages with its number.
fn numbers(alloc: Global, pages: &str, nodes: &str) -> Result<String, NoMem> {
    let table = table(alloc, pages, nodes)?;
    printed(alloc, &table)
}

/// The place of the first difference of two tables, from 0.
fn difference(alloc: Global, a: &Table, b: &Table) -> Result<String, NoMem> {
    match first_difference(a, b) {
        Some(place) => Ok(format!(in alloc; "{place}")?),
        None => Ok(String::from_str(alloc, "none")?),
    }
}

/// The first difference of a table to that of other pages for other nodes.
fn changed(alloc: Global, old: &Table, pages: &str, nodes: &str) -> Result<String, NoMem> {
    let next = table(alloc, pages, nodes)?;
    difference(alloc, old, &next)
}

/// The first difference of the tables of pages and nodes, which are two each.
fn differing(alloc: Global, pages: [&str; 2], nodes: [&str; 2]) -> Result<String, NoMem> {
    let old = table(alloc, pages[0], nodes[0])?;
    changed(alloc, &old, pages[1], nodes[1])
}

/// The answer to a question about tables.
pub(crate) fn answer(alloc: Global, parts: &[&str]) -> Result<String, NoMem> {
    match parts {
        ["shown", pages, nodes] => numbers(alloc, pages, nodes),
        ["changed", before, pages, nodes] => differing(alloc, [before, pages], [nodes, nodes]),
        ["difference", nodes, others] => differing(alloc, ["opening"; 2], [nodes, others]),
        _ => unknown(alloc),
    }
}
