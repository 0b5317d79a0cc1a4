//! Goes along a page's solids and writes down the boxes in which they stand.

ghost use Rattle.std.specs.Prelude.{◌≡◌, ◌+◌, ◌<◌, ◌≤◌, ◌-◌, ◌^◌, Some, length, take, All, IfOk, OnOk, slice_get};
ghost use Rattle.std.specs.List.{flat_map};
ghost use Rattle.std.specs.Option.{ForSome};
ghost use Rattle.bk_num.specs.Numbers.{last_of};
ghost use Rattle.bk_num.specs.Limits.{most_open};
ghost use Rattle.boxes.specs.Tree.{depth_of, open_before};
ghost use Rattle.notes.specs.Near.{IsNearSolid};
ghost use Rattle.paint.specs.Bounds.{IsGoodOrigin, IsNearPart};
ghost use Rattle.paint.specs.Order.{AreInOrder};
ghost use Rattle.paint.specs.Pages.{rects_of};
ghost use Rattle.paint.specs.Parts.{AddsSolid, AreGathered, HaveNone, IsAt, IsGrown, LeavesTo, end_by, first_event, part_rects};

use crate::again::stand_again;
use crate::extent::extent_of;
use crate::item::SolidOrigin;
use crate::parts::{Fragment, Reached, extend, merge, open_part};
use bk_num::ids::last_of;
use bk_num::limits::MOST_OPEN;
use bk_num::name::NoMem;
use boxes::page::Placed;
use boxes::place::Event;
use boxes::span::write_chain;
use boxes::tree::BoxTree;
use std::alloc::Global;

/// Appends open boxes, each inside the next one, the outermost first.
fn open_all(
    parts: &mut Vec<Fragment>,
    tree: &BoxTree,
    chain: &[u32],
    event: u32,
    origin: &SolidOrigin,
) -> Result<(), NoMem>
    requires none { length parts.old.items ≡ 0 }
    requires within { event ≤ length tree.now.events }
    requires depth { depth_of tree.now.events ≤ most_open }
    requires origin { IsGoodOrigin origin.now }
    requires chain { chain.now ≡ open_before tree.now.events event }
    ensures at { OnOk result (IsAt tree.now origin.now.width parts.new.items
        (record { event = event; inner = last_of (length parts.new.items) })) }
    ensures none { OnOk result (HaveNone parts.new.items) }
{
    // a tree is known to be one by its count
    let _count = tree.count();
    let mut left = chain.len();
    while left > 0 {
        left -= 1;
        let number = chain[left];
        let inner = last_of(parts.len());
        open_part(parts, tree, inner, tree.opens_at(number), number, origin)?;
    }
    Ok(())
}

/// Writes the numbers of the boxes that are open before an event, the innermost first, and answers how many they are.
fn write_open(tree: &BoxTree, event: u32, chain: &mut [u32]) -> usize
    requires within { event ≤ length tree.now.events }
    requires room { length chain.old ≡ most_open }
    requires depth { depth_of tree.now.events ≤ most_open }
    ensures few { result ≤ most_open }
    ensures chain { take result chain.new ≡ open_before tree.now.events event }
{
    // a tree is known to be one by its count
    let _count = tree.count();
    match tree.around(event) {
        None => 0,
        Some(index) => write_chain(tree, index, chain),
    }
}

/// Begins at an event: appends the boxes around it to an empty list.
fn begin(
    parts: &mut Vec<Fragment>,
    tree: &BoxTree,
    event: u32,
    origin: &SolidOrigin,
) -> Result<Reached, NoMem>
    requires none { length parts.old.items ≡ 0 }
    requires within { event ≤ length tree.now.events }
    requires depth { depth_of tree.now.events ≤ most_open }
    requires origin { IsGoodOrigin origin.now }
    ensures at { IfOk result (λ now. IsAt tree.now origin.now.width parts.new.items now) }
    ensures event { IfOk result (λ now. now.event ≡ event) }
    ensures none { OnOk result (HaveNone parts.new.items) }
{
    let mut chain = [0; MOST_OPEN as usize];
    let count = write_open(tree, event, &mut chain);
    open_all(parts, tree, &chain[..count], event, origin)?;
    Ok(Reached {
        event,
        inner: last_of(parts.len()),
    })
}

/// The place of the box around the box at a place.
fn outer_of(parts: &[Fragment], inner: Option<usize>) -> Option<usize>
    requires { ForSome inner (λ i. i < length parts.now) }
    ensures { LeavesTo parts.now inner result }
{
    match inner {
        None => None,
        Some(place) => parts[place].outer,
    }
}

/// Goes past an event, and answers the place of the innermost box that is open after it.
fn pass(
    parts: &mut Vec<Fragment>,
    tree: &BoxTree,
    inner: Option<usize>,
    at: u32,
    origin: &SolidOrigin,
) -> Result<Option<usize>, NoMem>
    requires within { at < length tree.now.events }
    requires depth { depth_of tree.now.events ≤ most_open }
    requires origin { IsGoodOrigin origin.now }
    requires at { IsAt tree.now origin.now.width parts.old.items (record { event = at; inner = inner }) }
    ensures at { IfOk result (λ now. IsAt tree.now origin.now.width parts.new.items
        (record { event = at + 1; inner = now })) }
    ensures grown { OnOk result (IsGrown parts.old.items parts.new.items) }
{
    // a tree is known to be one by its count
    let _count = tree.count();
    match tree.event(at) {
        Event::Opens(number) => {
            let place = parts.len();
            open_part(parts, tree, inner, at, number, origin)?;
            Ok(Some(place))
        }
        Event::Closes(_) => Ok(outer_of(parts, inner)),
        Event::Leaf(_) => Ok(inner),
    }
}

/// Goes on to an event.
fn pass_to(
    parts: &mut Vec<Fragment>,
    tree: &BoxTree,
    reached: Reached,
    to: u32,
    origin: &SolidOrigin,
) -> Result<Option<usize>, NoMem>
    requires order { reached.event ≤ to }
    requires within { to ≤ length tree.now.events }
    requires depth { depth_of tree.now.events ≤ most_open }
    requires origin { IsGoodOrigin origin.now }
    requires at { IsAt tree.now origin.now.width parts.old.items reached }
    ensures at { IfOk result (λ now. IsAt tree.now origin.now.width parts.new.items
        (record { event = to; inner = now })) }
    ensures grown { OnOk result (IsGrown parts.old.items parts.new.items) }
{
    let mut inner = reached.inner;
    for at in reached.event..to {
        inner = pass(parts, tree, inner, at, origin)?;
    }
    Ok(inner)
}

/// After an event where it opens a box, else before it.
fn end_at(event: Event, at: u32) -> u32
    requires { at < 2 ^ 32 - 1 }
    ensures { result ≡ end_by (Some event) at }
{
    match event {
        Event::Opens(_) => at + 1,
        _ => at,
    }
}

/// Goes on to a solid, and writes it down.
fn add_solid(
    parts: &mut Vec<Fragment>,
    tree: &BoxTree,
    reached: Reached,
    solid: &Placed,
    origin: &SolidOrigin,
) -> Result<Reached, NoMem>
    requires depth { depth_of tree.now.events ≤ most_open }
    requires origin { IsGoodOrigin origin.now }
    requires solid { IsNearSolid solid.now }
    requires within { solid.now.at.event < length tree.now.events }
    requires order { reached.event ≤ end_by (slice_get tree.now.events solid.now.at.event) solid.now.at.event }
    requires at { IsAt tree.now origin.now.width parts.old.items reached }
    ensures at { IfOk result (λ now. IsAt tree.now origin.now.width parts.new.items now) }
    ensures event { IfOk result (λ now. now.event ≡
        end_by (slice_get tree.now.events solid.now.at.event) solid.now.at.event) }
    ensures within { IfOk result (λ now. now.event ≤ length tree.now.events) }
    ensures solid { OnOk result (AddsSolid tree.now.events solid.now parts.old.items parts.new.items) }
{
    // an event's number is below its tree's count
    let _count = tree.count();
    let at = solid.at.event;
    let event = tree.event(at);
    let to = end_at(event, at);
    let inner = pass_to(parts, tree, reached, to, origin)?;
    extend(parts, inner, event, extent_of(solid));
    Ok(Reached { event: to, inner })
}

/// The event of the first solid.
fn first_event(solids: &[Placed]) -> u32
    ensures { result ≡ first_event solids.now }
{
    match solids {
        [] => 0,
        [first, ..] => first.at.event,
    }
}

/// Appends to an empty list the boxes in which solids stand, in the order in which they open, each with the solids
/// whose innermost box it is.
fn gather(
    parts: &mut Vec<Fragment>,
    tree: &BoxTree,
    origin: &SolidOrigin,
    solids: &[Placed],
) -> Result<Reached, NoMem>
    requires none { length parts.old.items ≡ 0 }
    requires depth { depth_of tree.now.events ≤ most_open }
    requires origin { IsGoodOrigin origin.now }
    requires solids { All IsNearSolid solids.now }
    requires order { AreInOrder tree.now 0 solids.now }
    ensures { IfOk result (λ at. AreGathered tree.now origin.now.width solids.now parts.new.items at) }
{
    let mut reached = begin(parts, tree, first_event(solids), origin)?;
    for solid in solids {
        reached = add_solid(parts, tree, reached, solid, origin)?;
    }
    Ok(reached)
}

/// The boxes in which solids stand, in the order in which they open, each with how far it reaches, and before which
/// event those open that the page's start parts.
#[derive(Drop)]
pub(crate) struct Fragments {
    pub parts: Vec<Fragment>,
    pub from: u32,
}

/// The fragments of the boxes in which solids stand. Time goes with the solids, the boxes that are open at the first,
/// and the events up to the last, and where a box clones, with the runs before the first and behind the last.
pub(crate) fn fragments_of(
    alloc: Global,
    tree: &BoxTree,
    origin: &SolidOrigin,
    solids: &[Placed],
) -> Result<Fragments, NoMem>
    requires depth { depth_of tree.now.events ≤ most_open }
    requires origin { IsGoodOrigin origin.now }
    requires solids { All IsNearSolid solids.now }
    requires order { AreInOrder tree.now 0 solids.now }
    ensures rects { IfOk result (λ v. flat_map (part_rects tree.now origin.now v.from) v.parts.items
        ≡ rects_of tree.now origin.now solids.now) }
    ensures there { IfOk result (λ v. All (λ p. p.number < length tree.now.boxes) v.parts.items) }
    ensures near { IfOk result (λ v. All IsNearPart v.parts.items) }
{
    // a tree is known to be one by its count
    let _count = tree.count();
    let mut parts = Vec::new(alloc);
    let reached = gather(&mut parts, tree, origin, solids)?;
    merge(&mut parts);
    let from = stand_again(&mut parts, tree, origin, solids, reached);
    Ok(Fragments { parts, from })
}
