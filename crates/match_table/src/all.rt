//! Matches many selectors against all nodes of a document in one pass.

ghost use Rattle.std.specs.Prelude.{◌≡◌, ◌<◌, ◌-◌, ◌↔◌, [], get_or, length, map, slice_get, Some, IfOk, OnOk, IsTrue};
ghost use Rattle.match_table.specs.All.{AreMatchLists};
ghost use Rattle.match_table.specs.Index.{AreNoted};
ghost use Rattle.std.specs.List.{list_any};
ghost use Rattle.selectors.specs.Match.{Matches, is_join};
ghost use Rattle.selectors.specs.declared.types.Join.TheVariants as join;
ghost use Rattle.match_table.specs.Rows as spec;

use crate::columns::{all_cells, cell_of};
use crate::groups::groups_of;
use crate::index::{Words, empty_lists, nodes_by_word, number_of_key, words_of_keys};
use crate::types::wanted_places;
use bk_num::ids::NodeId;
use bk_num::items::Items;
use bk_num::name::NoMem;
use dom::Dom;
use selectors::document::TypedDocument;
use selectors::matching::matches_in;
use selectors::sets::has;
use selectors::types::{Join, Selector};
use std::alloc::Global;
use std::marker::Model;

/// For each node the selectors that match it. Equal selectors are in groups, so that what is kept doesn't grow with
/// nodes times equal selectors. Contracts see for each node the numbers of groups, and for each group the places of its
/// selectors.
#[derive(Drop)]
pub struct MatchTable {
    rows: Vec<Items<u32>>,
    groups: Vec<Items<u32>>,
}

impl Model for MatchTable {
    ghost use Rattle.match_table.specs.All.{Matched};

    ghost Value = { Matched };

    ghost view = { λ t. record { rows = t.rows.items; groups = t.groups.items } };
}

impl MatchTable {
    /// How many nodes the document has.
    pub fn len(&self) -> usize
        ensures { result ≡ length self.now.rows }
    {
        self.rows.len()
    }

    /// The numbers of the groups of selectors that match a node, in ascending order.
    pub fn of(&self, node: NodeId) -> &[u32]
        requires { node.0 < length self.now.rows }
        ensures { slice_get self.now.rows node.0 ≡ Some result.now }
    {
        self.rows[node.0 as usize].as_slice()
    }

    /// The places of the selectors of a group, which are equal, in ascending order; none where there is no such group.
    pub fn places(&self, group: u32) -> &[u32]
        ensures { result.now ≡ get_or self.now.groups group [] }
    {
        places_at(&self.groups, group as usize)
    }
}

fn places_at(groups: &[Items<u32>], group: usize) -> &[u32]
    ensures { result.now ≡ get_or groups.now group [] }
{
    if group < groups.len() {
        groups[group].as_slice()
    } else {
        &[]
    }
}

/// Whether a place stands at the end of a list.
fn ends_with_place(row: &[u32], place: u32) -> bool
    ensures { result ≡ spec.is_same place (slice_get row.now (length row.now - 1)) }
{
    match row.last() {
        Some(last) => *last == place,
        None => false,
    }
}

/// Puts a place at the end of a list, unless it stands there.
#[tactic(auto, unfolding(crate::specs::Rows::with_last))]
fn put_last(row: &mut Items<u32>, place: u32) -> Result<(), NoMem>
    ensures { OnOk result (row.new ≡ spec.with_last row.old place) }
{
    if ends_with_place(row.as_slice(), place) {
        return Ok(());
    }
    row.push(place)
}

/// Puts a place into the list of a node that is hit.
#[tactic(auto, unfolding(crate::specs::Rows::with_place))]
fn put_if(rows: &mut Vec<Items<u32>>, hit: bool, node: usize, place: u32) -> Result<(), NoMem>
    requires { IsTrue hit → node < length rows.old.items }
    ensures placed { OnOk result (rows.new.items ≡ spec.placed_if hit rows.old.items node place) }
    ensures count { length rows.new.items ≡ length rows.old.items }
{
    if !hit {
        return Ok(());
    }
    put_last(&mut rows[node], place)
}

/// Whether there is a node of this number which a selector matches.
fn is_matched(document: &TypedDocument<'_>, node: u32, selector: &Selector) -> bool
    ensures { IsTrue result ↔ ((node < length document.now) × Matches document.now selector.now node) }
{
    if node < document.dom().len() {
        matches_in(document, NodeId(node), selector)
    } else {
        false
    }
}

/// Puts a selector's place into the lists of those nodes, among some candidates, that it matches.
fn mark_listed(
    rows: &mut Vec<Items<u32>>,
    document: &TypedDocument<'_>,
    selector: &Selector,
    place: u32,
    nodes: &[u32],
) -> Result<(), NoMem>
    requires count { length rows.old.items ≡ length document.now }
    requires below { spec.AreBelow place rows.old.items }
    requires candidates { spec.HasCandidates document.now selector.now nodes.now }
    ensures marked { OnOk result (spec.AreMarked document.now selector.now place rows.old.items rows.new.items) }
    ensures count { length rows.new.items ≡ length rows.old.items }
{
    for node in nodes {
        let hit = is_matched(document, *node, selector);
        put_if(rows, hit, *node as usize, place)?;
    }
    Ok(())
}

/// Puts a selector's place into the lists of the nodes that it matches, which one pass over all nodes finds.
fn mark_column(
    alloc: Global,
    rows: &mut Vec<Items<u32>>,
    document: &TypedDocument<'_>,
    selector: &Selector,
    place: u32,
) -> Result<(), NoMem>
    requires count { length rows.old.items ≡ length document.now }
    requires below { spec.AreBelow place rows.old.items }
    ensures marked { OnOk result (spec.AreMarked document.now selector.now place rows.old.items rows.new.items) }
    ensures count { length rows.new.items ≡ length rows.old.items }
{
    let cells = all_cells(alloc, document, selector)?;
    let last = selector.parts().len() - 1;
    for node in 0..document.dom().len() {
        let cell = cell_of(&cells, Some(NodeId(node)));
        let hit = has(cell.reach, last);
        put_if(rows, hit, node as usize, place)?;
    }
    Ok(())
}

/// Whether a selector goes back over all siblings before a node.
fn has_later(selector: &Selector) -> bool
    ensures { result ≡ list_any (is_join join.Later) selector.now.joins }
{
    selector
        .joins()
        .iter()
        .any(|join| matches!(join, Join::Later))
}

/// Puts a selector's place into the lists of the nodes that it matches. A selector whose last compound asks
/// for ids, classes or a type tries the nodes that have the rarest of them, and any other goes over all nodes, as does
/// one with a `~`, which would else go back over all siblings of each candidate.
fn mark(
    alloc: Global,
    rows: &mut Vec<Items<u32>>,
    document: &TypedDocument<'_>,
    selector: &Selector,
    place: u32,
    words: &Words<'_>,
    lists: &[Items<u32>],
) -> Result<(), NoMem>
    requires count { length rows.old.items ≡ length document.now }
    requires below { spec.AreBelow place rows.old.items }
    requires lists { length lists.now ≡ length words.now }
    requires noted { AreNoted document.now words.now lists.now (length document.now) }
    ensures marked { OnOk result (spec.AreMarked document.now selector.now place rows.old.items rows.new.items) }
    ensures count { length rows.new.items ≡ length rows.old.items }
{
    if !has_later(selector) {
        if let Some(number) = number_of_key(selector, words, lists) {
            return mark_listed(rows, document, selector, place, lists[number].as_slice());
        }
    }
    mark_column(alloc, rows, document, selector, place)
}

/// For each node the numbers of the selectors that match it, by the nodes that have the words of the selectors.
fn rows_by_words(
    alloc: Global,
    document: &TypedDocument<'_>,
    selectors: &[&Selector],
    words: &Words<'_>,
    lists: &[Items<u32>],
) -> Result<Vec<Items<u32>>, NoMem>
    requires lists { length lists.now ≡ length words.now }
    requires noted { AreNoted document.now words.now lists.now (length document.now) }
    ensures count { IfOk result (λ v. length v.items ≡ length document.now) }
    ensures lists { IfOk result (λ v. spec.AreMatchRows document.now (map (λ s. s.now) selectors.now) v.items) }
{
    let Ok(count) = u32::try_from(selectors.len()) else {
        return Err(NoMem);
    };
    let mut rows = empty_lists(alloc, document.dom().len() as usize)?;
    for place in 0..count {
        let selector = selectors[place as usize];
        mark(alloc, &mut rows, document, selector, place, words, lists)?;
    }
    Ok(rows)
}

/// For each node the numbers of the selectors that match it.
fn rows_of(
    alloc: Global,
    document: &TypedDocument<'_>,
    selectors: &[&Selector],
) -> Result<Vec<Items<u32>>, NoMem>
    ensures count { IfOk result (λ v. length v.items ≡ length document.now) }
    ensures lists { IfOk result (λ v. spec.AreMatchRows document.now (map (λ s. s.now) selectors.now) v.items) }
{
    let words = words_of_keys(alloc, selectors)?;
    let lists = nodes_by_word(alloc, document.dom(), &words)?;
    rows_by_words(alloc, document, selectors, &words, &lists)
}

/// For each node the numbers of the selectors that match it, each once and in ascending order.
fn match_each(alloc: Global, dom: &Dom, selectors: &[&Selector]) -> Result<Vec<Items<u32>>, NoMem>
    ensures count { IfOk result (λ v. length v.items ≡ length dom.now) }
    ensures lists { IfOk result (λ v. spec.AreMatchRows dom.now (map (λ s. s.now) selectors.now) v.items) }
{
    let places = wanted_places(alloc, dom, selectors)?;
    let rows = rows_of(alloc, &TypedDocument::with_places(dom, &places), selectors)?;
    Ok(rows)
}

/// For each node the groups of equal selectors that match it (Selectors 3, 8), each once and in ascending order. Equal
/// selectors are matched once, and selectors find the nodes that they may match by id, class or type, so that the work
/// is in proportion to the nodes, to the selectors and to those candidates.
pub fn match_all(alloc: Global, dom: &Dom, selectors: &[&Selector]) -> Result<MatchTable, NoMem>
    ensures count { IfOk result (λ t. length t.rows ≡ length dom.now) }
    ensures lists { IfOk result (λ t. AreMatchLists dom.now (map (λ s. s.now) selectors.now) t) }
{
    let groups = groups_of(alloc, selectors)?;
    let rows = match_each(alloc, dom, &groups.firsts)?;
    Ok(MatchTable {
        rows,
        groups: groups.into_places(),
    })
}
