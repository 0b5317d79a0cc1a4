//! Which nodes a selector matches: one pass over the nodes in the order of their numbers.

ghost use Rattle.std.specs.Prelude.{◌≡◌, ◌<◌, ◌&&◌, ℕ, suc, false, length, IfOk, IfSome, IfNone, option_map, Some, None, slice_get};
ghost use Rattle.selectors.specs.Match.{joins_by, parent_of};
ghost use Rattle.selectors.specs.Sets as sets;
ghost use Rattle.selectors.specs.Walk.{prev_element};
ghost use Rattle.match_table.specs.Columns.{IsCell, AreCells};

use bk_num::ids::NodeId;
use bk_num::name::NoMem;
use selectors::document::TypedDocument;
use selectors::matching::{count, fitting, joins_by, parent_of};
use selectors::sets::{has, union, with};
use selectors::types::{Join, Selector};
use selectors::walk::prev_element;
use std::alloc::Global;

/// What reaches a node of a selector's compounds, what reaches a node that it lies in, and what an earlier element
/// sibling.
#[derive(Clone, Copy)]
pub(crate) struct Cell {
    pub(crate) reach: u16,
    pub(crate) above: u16,
    pub(crate) before: u16,
}

/// A node that nothing reaches.
const NOTHING: Cell = Cell {
    reach: 0,
    above: 0,
    before: 0,
};

/// The compounds that stand after a found one by this join.
#[tactic(auto, using(selectors::proofs::SetLemmas::has_none))]
fn after(selector: &Selector, join: Join, found: u16) -> u16
    ensures first { sets.has result 0 ≡ false }
    ensures later { (k : ℕ) → sets.has result (suc k) ≡ (joins_by selector.now join k && sets.has found k) }
{
    let mut wanted = 0;
    for k in 1..count(selector) {
        if joins_by(selector, join, k - 1) && has(found, k - 1) {
            wanted = with(wanted, k);
        }
    }
    wanted
}

/// The cell of a node, or nothing where there is no node.
pub(crate) fn cell_of(cells: &[Cell], node: Option<NodeId>) -> Cell
    requires { IfSome node (λ n. n.0 < length cells.now) }
    ensures none { IfNone node (result ≡ NOTHING) }
    ensures some { IfSome node (λ n. slice_get cells.now n.0 ≡ Some result) }
{
    match node {
        Some(node) => cells[node.0 as usize],
        None => NOTHING,
    }
}

/// The element sibling just before a node, which has a lesser number.
fn prev(document: &TypedDocument<'_>, node: NodeId) -> Option<NodeId>
    requires { node.0 < length document.now }
    ensures value { option_map (λ n. n.0) result ≡ prev_element document.now node.0 }
    ensures below { IfSome result (λ p. p.0 < node.0) }
{
    let dom = document.dom();
    // Its clause says that the nodes are a tree, so that siblings before have lesser numbers.
    let _len = dom.len();
    prev_element(dom, node)
}

/// What reaches a node, by the cells of the nodes before it.
fn reach_node(
    document: &TypedDocument<'_>,
    selector: &Selector,
    cells: &[Cell],
    node: NodeId,
) -> Cell
    requires node { node.0 < length document.now }
    requires count { length cells.now ≡ node.0 }
    requires cells { AreCells document.now selector.now cells.now }
    ensures { IsCell document.now selector.now node.0 result }
{
    let outer = cell_of(cells, parent_of(document, node));
    let beside = cell_of(cells, prev(document, node));
    let above = union(outer.above, outer.reach);
    let before = union(beside.before, beside.reach);
    let vertical = union(
        after(selector, Join::Child, outer.reach),
        after(selector, Join::Inside, above),
    );
    let level = union(
        after(selector, Join::Next, beside.reach),
        after(selector, Join::Later, before),
    );
    let wanted = with(union(vertical, level), 0);
    Cell {
        reach: fitting(selector, document, node, wanted),
        above,
        before,
    }
}

/// The cells of all nodes.
pub(crate) fn all_cells(
    alloc: Global,
    document: &TypedDocument<'_>,
    selector: &Selector,
) -> Result<Vec<Cell>, NoMem>
    ensures count { IfOk result (λ v. length v.items ≡ length document.now) }
    ensures cells { IfOk result (λ v. AreCells document.now selector.now v.items) }
{
    let mut cells = Vec::new(alloc);
    for index in 0..document.dom().len() {
        let next = reach_node(document, selector, &cells, NodeId(index));
        cells.push(next)?;
    }
    Ok(cells)
}
