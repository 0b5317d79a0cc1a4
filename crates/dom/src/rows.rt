//! The rows of a document: where each node stands.
ghost use Rattle.std.specs.Prelude.{vec_len, IfOk, IfSome, ◌≡◌, ◌<◌, ◌∷◌, [], Some};
ghost use Rattle.dom.specs.Links.{linked_at, root_row, child_row};

use bk_num::name::NoMem;
use std::alloc::Global;
use std::marker::Model;

/// The number of no node.
const NONE: u32 = 0xFFFF_FFFF;

/// A node's number, or none, in four bytes. Contracts see the number.
#[derive(Drop)]
pub(crate) struct NodeLink {
    number: u32,
}

impl Model for NodeLink {
    ghost use Rattle.std.specs.Prelude.{Option, ℕ};

    ghost Value = { Option ℕ };

    ghost use Rattle.dom.specs.LinkFields.{number_of};

    ghost view = { number_of };
}

impl NodeLink {
    pub(crate) fn new(number: Option<u32>) -> NodeLink
        requires { IfSome number (λ n. n < 4294967295) }
        ensures { result ≡ number }
    {
        match number {
            Some(n) => NodeLink { number: n },
            None => NodeLink { number: NONE },
        }
    }

    pub(crate) fn get(&self) -> Option<u32>
        ensures { result ≡ self.now }
    {
        if self.number == NONE {
            return None;
        }
        Some(self.number)
    }
}

/// Where a node stands: its parent, its depth, its links, and the counts of the elements before it among its siblings
/// and among its children.
#[derive(Drop)]
pub(crate) struct Row {
    pub(crate) parent: NodeLink,
    pub(crate) first_child: NodeLink,
    pub(crate) last_child: NodeLink,
    pub(crate) next: NodeLink,
    pub(crate) prev: NodeLink,
    pub(crate) elements_before: u32,
    pub(crate) elements: u32,
    pub(crate) depth: u8,
}

/// Where node 0 stands.
pub(crate) fn root_row() -> Row
    ensures { result ≡ root_row }
{
    Row {
        parent: NodeLink::new(None),
        first_child: NodeLink::new(None),
        last_child: NodeLink::new(None),
        next: NodeLink::new(None),
        prev: NodeLink::new(None),
        elements_before: 0,
        elements: 0,
        depth: 1,
    }
}

/// Where node 0 stands, alone.
pub(crate) fn root_rows(alloc: Global) -> Result<Vec<Row>, NoMem>
    ensures { IfOk result (λ rows. rows.items ≡ root_row ∷ []) }
{
    let mut rows = Vec::new(alloc);
    rows.push(root_row())?;
    Ok(rows)
}

/// Where the next child of an element of this depth stands, after its last child and the element children that it has.
pub(crate) fn child_row(parent: u32, depth: u8, last: Option<u32>, before: u32) -> Row
    requires parent { parent < 4294967295 }
    requires depth { depth < 255 }
    requires last { IfSome last (λ l. l < 4294967295) }
    ensures { result ≡ child_row parent depth last before }
{
    Row {
        parent: NodeLink::new(Some(parent)),
        first_child: NodeLink::new(None),
        last_child: NodeLink::new(None),
        next: NodeLink::new(None),
        prev: NodeLink::new(last),
        elements_before: before,
        elements: 0,
        depth: depth + 1,
    }
}

/// Makes the node at `index` known to the node before it and to its parent, which then has this many element children.
pub(crate) fn link(rows: &mut Vec<Row>, parent: u32, last: Option<u32>, index: u32, elements: u32)
    requires parent { parent < vec_len rows.old }
    requires last { IfSome last (λ l. l < vec_len rows.old) }
    requires index { index < 4294967295 }
    ensures { rows.new.items ≡ linked_at rows.old.items parent last index elements }
{
    match last {
        Some(before) => {
            let row = &mut rows[before as usize];
            row.next = NodeLink::new(Some(index));
        }
        None => {
            let row = &mut rows[parent as usize];
            row.first_child = NodeLink::new(Some(index));
        }
    }
    let row = &mut rows[parent as usize];
    row.last_child = NodeLink::new(Some(index));
    row.elements = elements;
}
