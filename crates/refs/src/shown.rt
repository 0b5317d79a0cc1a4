//! The table that a page list shows.

ghost use Rattle.std.specs.Prelude.{◌≡◌, ◌≤◌, length, map, IfOk};
ghost use Rattle.std.specs.List.{All};
ghost use Rattle.bk_num.specs.Limits.{most_entries};
ghost use Rattle.page_seq.specs.Numbers.{IsSmallReset};
ghost use Rattle.page_seq.specs.Places.{NeverFall};
ghost use Rattle.refs.specs.Tables.{NodesAscend, table_of};

use crate::numbers::PageNumbers;
use crate::starts::{start_at, starts_of};
use bk_num::ids::NodeId;
use bk_num::items::Items;
use bk_num::name::NoMem;
use boxes::flow::Flow;
use boxes::page::PageList;
use gen_text::table::{Entry, Table};
use std::alloc::Global;

/// The table that a page list shows: for each node the number of the page on which its element begins, by the resets of
/// page numbers. An element in a note begins on the page of the note's first solid, and where no page has one, on that
/// of the note's call. A node that doesn't begin in the flow has the number 0. It goes once along the pages, and costs
/// a binary search for each start of the flow and two for each node.
pub fn shown(alloc: Global, flow: &Flow, list: &PageList, nodes: &[NodeId]) -> Result<Table, NoMem>
    requires nodes { NodesAscend nodes.now }
    requires order { NeverFall (map (λ r. r.at) flow.now.resets) }
    requires small { All IsSmallReset flow.now.resets }
    requires few { length list.now.pages ≤ most_entries }
    ensures { IfOk result (λ t. t ≡ table_of flow.now list.now.pages nodes.now) }
{
    let known = PageNumbers::new(alloc, flow, list)?;
    let found = starts_of(alloc, flow.starts.as_slice(), nodes)?;
    let mut entries = Vec::new(alloc);
    for node in nodes {
        let start = start_at(found.as_slice(), nodes, *node);
        entries.push(Entry {
            node: *node,
            number: known.number_of(flow, start),
        })?;
    }
    Ok(Table::of(Items::of(entries)))
}
