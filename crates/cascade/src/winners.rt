//! The winning declarations of nodes and of their pseudo-elements.

ghost use Rattle.std.specs.Prelude.{◌≡◌, ◌<◌, ◌++◌, length, map, IfOk, OnOk};
ghost use Rattle.match_table.specs.All.{AreMatchLists};
ghost use Rattle.cascade.specs.Document.{style_decls, IsDeclaredAt, AreAllWinners};
ghost use Rattle.cascade.specs.Winners.{AreWinners};
ghost use Rattle.cascade.specs.Sharing.{AddsChosen, AreChosenAt, IsChosenAt, SharesFound, places_in};
ghost use Rattle.cascade.specs.Selected as spec;

use crate::alike::SameMatches;
use crate::decl::ReadDecl;
use crate::selected::{Selected, selected_in, winners_by};
use crate::sheet::{ReadSheet, read_all};
use crate::table::{NodeWinners, WinnerTable};
use bk_num::ids::NodeId;
use bk_num::items::Items;
use bk_num::name::NoMem;
use bk_num::values::Pseudo;
use css_rules::decls::read_decls;
use dom::Dom;
use match_table::all::{MatchTable, match_all};
use selectors::matching::matches;
use selectors::types::Selector;
use std::alloc::Global;
use style::long::Long;

/// The winning declarations of an element or of a pseudo-element: one for each longhand that is declared, in the order
/// of the longhands.
#[derive(Drop)]
pub struct WinnerMap {
    pub longs: Items<Long>,
}

/// The declarations of a node's style attribute.
fn style_decls(alloc: Global, dom: &Dom, node: NodeId) -> Result<Items<ReadDecl>, NoMem>
    requires { node.0 < length dom.now }
    ensures { IfOk result (λ decls. decls ≡ style_decls dom.now node.0) }
{
    match dom.attr(node, "style") {
        Some(text) => {
            let slices = read_decls(alloc, text)?;
            read_all(alloc, &slices)
        }
        None => Ok(Items::new(alloc)),
    }
}

/// Appends the place of a selector that matches.
fn push_if(places: &mut Vec<u32>, hit: bool, place: u32) -> Result<(), NoMem>
    ensures { OnOk result (places.new.items ≡ spec.pushed_if hit places.old.items place) }
{
    if hit {
        places.push(place)?;
    }
    Ok(())
}

/// The places of the selectors that match a node.
fn places_at(
    alloc: Global,
    dom: &Dom,
    node: NodeId,
    selected: &[Selected<'_>],
) -> Result<Vec<u32>, NoMem>
    requires { node.0 < length dom.now }
    ensures { IfOk result (λ v. spec.ArePlaces dom.now (map spec.selected_in selected.now) node.0 v.items) }
{
    let Ok(count) = u32::try_from(selected.len()) else {
        return Err(NoMem);
    };
    let mut places = Vec::new(alloc);
    for place in 0..count {
        let hit = matches(dom, node, selected[place as usize].selector);
        push_if(&mut places, hit, place)?;
    }
    Ok(places)
}

/// What wins for an element, for one of its pseudo-elements, or for a text, which has none (CSS 2.1, 6.4): of the
/// declarations of the rules whose selectors match the node and name the pseudo-element, and of the element's style
/// attribute, for each longhand the greatest by importance, origin, style attribute, specificity and order. It tries
/// each selector.
pub fn winners(
    alloc: Global,
    dom: &Dom,
    sheets: &[ReadSheet],
    node: NodeId,
    pseudo: Pseudo,
) -> Result<WinnerMap, NoMem>
    requires { node.0 < length dom.now }
    ensures { IfOk result (λ w. AreWinners (IsDeclaredAt dom.now sheets.now node.0 pseudo) w.longs) }
{
    let selected = selected_in(alloc, sheets)?;
    let places = places_at(alloc, dom, node, &selected)?;
    let styled = style_decls(alloc, dom, node)?;
    let longs = winners_by(alloc, &selected, &places, styled.as_slice(), pseudo)?;
    Ok(WinnerMap { longs })
}

/// What wins for a node and for each of its pseudo-elements, where some selectors match the node.
fn node_winners<'s: 't, 't>(
    alloc: Global,
    selected: &[Selected<'s>],
    places: &[u32],
    styled: &'t [ReadDecl],
) -> Result<NodeWinners, NoMem>
    ensures { IfOk result (λ w. spec.AreChosen (map spec.selected_in selected.now) places.now styled.now w) }
{
    let own = winners_by(alloc, selected, places, styled, Pseudo::Element)?;
    let before = winners_by(alloc, selected, places, styled, Pseudo::Before)?;
    let after = winners_by(alloc, selected, places, styled, Pseudo::After)?;
    let call = winners_by(alloc, selected, places, styled, Pseudo::Call)?;
    let marker = winners_by(alloc, selected, places, styled, Pseudo::Marker)?;
    Ok(NodeWinners {
        own,
        before,
        after,
        call,
        marker,
    })
}

/// Appends some places.
fn push_places(places: &mut Vec<u32>, more: &[u32]) -> Result<(), NoMem>
    ensures { OnOk result (places.new.items ≡ places.old.items ++ more.now) }
{
    places.extend_from_slice(more)?;
    Ok(())
}

/// The places of the selectors of some groups.
fn places_in(alloc: Global, matched: &MatchTable, groups: &[u32]) -> Result<Vec<u32>, NoMem>
    ensures { IfOk result (λ v. v.items ≡ places_in matched.now.groups groups.now) }
{
    let mut places = Vec::new(alloc);
    for group in groups {
        push_places(&mut places, matched.places(*group))?;
    }
    Ok(places)
}

/// What wins for a node, and for each of its pseudo-elements, by the selectors that match the node.
fn winners_at(
    alloc: Global,
    dom: &Dom,
    selected: &[Selected<'_>],
    matched: &MatchTable,
    node: NodeId,
) -> Result<NodeWinners, NoMem>
    requires node { node.0 < length dom.now }
    requires count { length matched.now.rows ≡ length dom.now }
    ensures { IfOk result (λ w. IsChosenAt dom.now (map spec.selected_in selected.now) matched.now node.0 w) }
{
    let places = places_in(alloc, matched, matched.of(node))?;
    let styled = style_decls(alloc, dom, node)?;
    node_winners(alloc, selected, &places, styled.as_slice())
}

/// Adds what wins for a node, which is kept once for nodes that are alike.
fn add_winners<'a>(
    alloc: Global,
    dom: &'a Dom,
    selected: &[Selected<'_>],
    matched: &'a MatchTable,
    alike: &mut SameMatches<'a>,
    all: &mut WinnerTable,
    node: NodeId,
) -> Result<(), NoMem>
    requires node { node.0 < length dom.now }
    requires count { length matched.now.rows ≡ length dom.now }
    requires rows { length all.old.winners ≡ node.0 }
    ensures chosen { OnOk result (AddsChosen dom.now (map spec.selected_in selected.now) matched.now node.0
        all.old.winners all.new.winners) }
    ensures shares { OnOk result (SharesFound dom.now matched.now.rows node.0 alike.old alike.new all.old all.new) }
{
    if let Some(earlier) = alike.earlier(dom, matched, node) {
        return all.push_like(earlier);
    }
    all.push(winners_at(alloc, dom, selected, matched, node)?)?;
    alike.note(dom, matched, node)
}

fn selectors_of<'s>(alloc: Global, selected: &[Selected<'s>]) -> Result<Vec<&'s Selector>, NoMem>
    ensures { IfOk result (λ v. map (λ s. s.now) v.items ≡ spec.selectors_of (map spec.selected_in selected.now)) }
{
    let mut selectors = Vec::new(alloc);
    for one in selected {
        selectors.push(one.selector)?;
    }
    Ok(selectors)
}

/// For each node the groups of equal selectors that match it.
fn matches_of(alloc: Global, dom: &Dom, selected: &[Selected<'_>]) -> Result<MatchTable, NoMem>
    ensures count { IfOk result (λ t. length t.rows ≡ length dom.now) }
    ensures lists { IfOk result (λ t. AreMatchLists dom.now (spec.selectors_of (map spec.selected_in selected.now)) t) }
{
    let selectors = selectors_of(alloc, selected)?;
    match_all(alloc, dom, &selectors)
}

/// What wins for each node by the selectors that match it.
fn winners_by_matches(
    alloc: Global,
    dom: &Dom,
    selected: &[Selected<'_>],
    matched: &MatchTable,
) -> Result<WinnerTable, NoMem>
    requires { length matched.now.rows ≡ length dom.now }
    ensures count { IfOk result (λ t. length t.winners ≡ length dom.now) }
    ensures chosen { IfOk result (λ t. AreChosenAt dom.now (map spec.selected_in selected.now) matched.now t.winners) }
{
    let mut alike = SameMatches::new(alloc);
    let mut all = WinnerTable::new(alloc);
    for index in 0..dom.len() {
        let node = NodeId(index);
        add_winners(alloc, dom, selected, matched, &mut alike, &mut all, node)?;
    }
    Ok(all)
}

/// What wins for each node of a document and for each of its pseudo-elements: at each the same as `winners` gives. All
/// selectors are matched in one call, equal ones once. What wins is chosen once, and a style attribute read once, for
/// all nodes with the same style attribute that the same selectors match. No value is read again.
pub fn all_winners(alloc: Global, dom: &Dom, sheets: &[ReadSheet]) -> Result<WinnerTable, NoMem>
    ensures { IfOk result (λ t. AreAllWinners dom.now sheets.now t.winners) }
{
    let selected = selected_in(alloc, sheets)?;
    let matched = matches_of(alloc, dom, &selected)?;
    let all = winners_by_matches(alloc, dom, &selected, &matched)?;
    Ok(all)
}
