//! The table before there are pages.

ghost use Rattle.std.specs.Prelude.{◌≡◌, IfOk};
ghost use Rattle.refs.specs.Tables.{NodesAscend, opening_of};

use bk_num::ids::NodeId;
use bk_num::items::Items;
use bk_num::name::NoMem;
use gen_text::table::{Entry, Table};
use std::alloc::Global;

/// The table before there are pages: 0 for each node.
pub fn opening(alloc: Global, nodes: &[NodeId]) -> Result<Table, NoMem>
    requires { NodesAscend nodes.now }
    ensures { IfOk result (λ t. t ≡ opening_of nodes.now) }
{
    let mut entries = Vec::new(alloc);
    for node in nodes {
        entries.push(Entry {
            node: *node,
            number: 0,
        })?;
    }
    Ok(Table::of(Items::of(entries)))
}
