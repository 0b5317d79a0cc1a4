//! Edges that stand again where a page's start or its end parts their boxes.

ghost use Rattle.std.specs.Prelude.{◌≡◌, ◌<◌, ◌≤◌, ℕ, suc, Some, length, slice_get, All};
ghost use Rattle.std.specs.List.{flat_map, list_any};
ghost use Rattle.std.specs.Option.{ForSome};
ghost use Rattle.bk_num.specs.Limits.{most_open};
ghost use Rattle.boxes.specs.Clones.{open_through};
ghost use Rattle.boxes.specs.Contents.{IsGoodBox};
ghost use Rattle.boxes.specs.Tree.{depth_of, open_before};
ghost use Rattle.seams.specs.Runs.{events_in};
ghost use Rattle.boxes.specs.declared.page.Placed.{Placed};
ghost use Rattle.notes.specs.Near.{IsNearSolid};
ghost use Rattle.paint.specs.Bounds.{IsNearBottom, IsNearExtent, IsNearFoot, IsNearPart, IsNearReach};
ghost use Rattle.paint.specs.Clones.{bottom_with, ends_inside, first_solid, last_solid, lower_again, lowest, parted_behind, run_before, run_behind};
ghost use Rattle.paint.specs.Opens.{IsWide};
ghost use Rattle.paint.specs.Order.{AreInOrder, StandsIn};
ghost use Rattle.paint.specs.Pages.{rects_of};
ghost use Rattle.paint.specs.Parts.{AreClosedAgain, AreOpenSomewhere, AreReached, IsClosedAgain, IsInnermost, IsUnclosed, begin_of, clones_at, end_by, foot_in, left_by, part_head, part_rects, with_foot, with_head};
ghost use Rattle.paint.specs.declared.parts.Fragment.{Fragment};

use crate::extent::VerticalExtent;
use crate::item::SolidOrigin;
use crate::parts::{Fragment, Reached};
use bk_num::sides::BoxSide;
use boxes::page::Placed;
use boxes::place::Event;
use boxes::props::BoxProps;
use boxes::span::frame_units;
use boxes::tree::BoxTree;
use seams::run::{run_end, run_start, solid_after, solid_before};

/// Where the run before a solid begins; before a line inside its leaf there is none.
fn begin_before(tree: &BoxTree, solid: &Placed) -> u32
    requires within { solid.now.at.event < length tree.now.events }
    ensures { result ≡ (run_before tree.now solid.now).0 }
{
    if solid.at.offset == 0 {
        return run_start(tree, solid_before(tree, solid.at.event));
    }
    solid.at.event
}

/// Whether a solid is a line that ends inside its leaf.
fn ends_inside(tree: &BoxTree, solid: &Placed) -> bool
    requires within { solid.now.at.event < length tree.now.events }
    ensures { result ≡ ends_inside tree.now solid.now }
{
    match tree.event(solid.at.event) {
        Event::Leaf(_) => solid.end.event == solid.at.event,
        _ => false,
    }
}

/// Where the run behind a solid begins and ends; behind a line that ends inside its leaf there is none.
fn run_behind(tree: &BoxTree, solid: &Placed) -> (u32, u32)
    requires within { solid.now.at.event < length tree.now.events }
    ensures value { result ≡ run_behind tree.now solid.now }
    ensures order { result.0 ≤ result.1 }
    ensures within { result.1 ≤ length tree.now.events }
{
    // a tree is known to be one by its count
    let _count = tree.count();
    let at = solid.at.event;
    if ends_inside(tree, solid) {
        return (at, at);
    }
    (
        run_start(tree, Some(at)),
        run_end(tree, solid_after(tree, at + 1)),
    )
}

/// The place of the innermost box that is left where a box closes: that of the box around it, if it is that one.
fn left_by(parts: &[Fragment], inner: Option<usize>, number: u32) -> Option<usize>
    requires { ForSome inner (λ i. i < length parts.now) }
    ensures { result ≡ left_by parts.now inner number }
{
    match inner {
        None => None,
        Some(place) => if parts[place].number == number {
            parts[place].outer
        } else {
            inner
        },
    }
}

/// The place of the innermost box that is open through a run, where that of the innermost one before it is known.
fn through(
    parts: &[Fragment],
    tree: &BoxTree,
    inner: Option<usize>,
    from: u32,
    to: u32,
) -> Option<usize>
    requires order { from ≤ to }
    requires within { to ≤ length tree.now.events }
    requires inner { IsInnermost parts.now (open_before tree.now.events from) inner }
    ensures { IsInnermost parts.now (open_through tree.now from (events_in tree.now from to)) result }
{
    // a tree is known to be one by its count
    let _count = tree.count();
    let mut inner = inner;
    for at in from..to {
        if let Event::Closes(number) = tree.event(at) {
            inner = left_by(parts, inner, number);
        }
    }
    inner
}

/// Down to where a box reaches: its solids and the clone boxes inside it.
fn lowest(inner: Option<i64>, extent: VerticalExtent) -> i64
    ensures { result ≡ lowest inner extent }
{
    match inner {
        None => extent.bottom,
        Some(bottom) => bottom.max(extent.bottom),
    }
}

/// The lower edge that a box has again, if it clones: below its solids and the clone boxes inside it.
fn foot_of(props: &BoxProps, part: &Fragment, inner: Option<i64>) -> Option<VerticalExtent>
    requires good { IsGoodBox props.now }
    requires wide { IsWide part.now.around }
    requires reach { ForSome part.now.reach IsNearReach }
    requires inner { ForSome inner (IsNearBottom most_open) }
    ensures value { result ≡ lower_again (Some props.now) part.now.around.width inner part.now.reach }
    ensures near { (n : ℕ) → ForSome inner (IsNearBottom n) → ForSome result (IsNearFoot (suc n)) }
{
    let Some(extent) = part.reach else {
        return None;
    };
    if props.clones {
        let top = lowest(inner, extent);
        return Some(VerticalExtent {
            top,
            bottom: top + frame_units(props, BoxSide::Bottom, part.around.width),
        });
    }
    None
}

/// A box that has a lower edge again, where it has one.
fn with_foot(part: Fragment, foot: Option<VerticalExtent>) -> Fragment
    ensures { result ≡ with_foot foot part }
{
    match (foot, part.reach) {
        (None, _) => part,
        (Some(_), None) => Fragment {
            lower: foot,
            ..part
        },
        (Some(edge), Some(extent)) => Fragment {
            reach: Some(VerticalExtent {
                top: extent.top,
                bottom: edge.bottom,
            }),
            lower: foot,
            ..part
        },
    }
}

/// Down to where the clone boxes reach, with a box more around those inside it.
fn bottom_with(inner: Option<i64>, foot: Option<VerticalExtent>) -> Option<i64>
    ensures { result ≡ bottom_with inner foot }
{
    match foot {
        None => inner,
        Some(edge) => Some(edge.bottom),
    }
}

/// Gives the box at a place its lower edge again, if it clones, and answers down to where the clone boxes reach.
fn close_part(
    parts: &mut Vec<Fragment>,
    tree: &BoxTree,
    place: usize,
    inner: Option<i64>,
) -> Option<i64>
    requires place { place < length parts.old.items }
    requires part { (p : Fragment) → slice_get parts.old.items place ≡ Some p → IsUnclosed tree.now p }
    requires inner { ForSome inner (IsNearBottom most_open) }
    ensures closed { IsClosedAgain tree.now parts.old.items place inner parts.new.items result }
    ensures near { (n : ℕ) (p : Fragment) → slice_get parts.old.items place ≡ Some p →
        ForSome inner (IsNearBottom n) → ForSome (foot_in tree.now inner p) (IsNearFoot (suc n)) }
{
    // a tree is known to be one by its count
    let _count = tree.count();
    let part = parts[place];
    let foot = foot_of(tree.props(part.number), &part, inner);
    parts[place] = with_foot(part, foot);
    bottom_with(inner, foot)
}

/// The place of the box around the box at a place.
fn outer_at(parts: &[Fragment], place: usize) -> Option<usize>
    requires { place < length parts.now }
    ensures { (p : Fragment) → slice_get parts.now place ≡ Some p → result ≡ p.outer }
{
    parts[place].outer
}

/// Gives the clone boxes among those that a page's end parts their lower edges again, from the innermost out.
fn close_all(
    parts: &mut Vec<Fragment>,
    tree: &BoxTree,
    origin: &SolidOrigin,
    solids: &[Placed],
    inner: Option<usize>,
)
    requires depth { depth_of tree.now.events ≤ most_open }
    requires near { All IsNearSolid solids.now }
    requires reached { AreReached tree.now origin.now.width solids.now parts.old.items }
    requires inner { IsInnermost parts.old.items (parted_behind tree.now (last_solid solids.now)) inner }
    requires opened { AreOpenSomewhere tree.now (parted_behind tree.now (last_solid solids.now)) }
    ensures closed { AreClosedAgain tree.now origin.now.width solids.now parts.old.items parts.new.items }
    ensures near { All IsNearPart parts.new.items }
{
    // a tree is known to be one by its count
    let _count = tree.count();
    let mut next = inner;
    let mut bottom = None;
    while let Some(place) = next {
        next = outer_at(parts, place);
        bottom = close_part(parts, tree, place, bottom);
    }
}

/// Gives the clone boxes that a page's end parts their lower edges again, where the place of the innermost box in which
/// its last solid stands is known.
fn close_again(
    parts: &mut Vec<Fragment>,
    tree: &BoxTree,
    origin: &SolidOrigin,
    solids: &[Placed],
    reached: Reached,
)
    requires depth { depth_of tree.now.events ≤ most_open }
    requires near { All IsNearSolid solids.now }
    requires stand { All (StandsIn tree.now) solids.now }
    requires reached { AreReached tree.now origin.now.width solids.now parts.old.items }
    requires behind { (s : Placed) → last_solid solids.now ≡ Some s →
        reached.event ≡ end_by (slice_get tree.now.events s.at.event) s.at.event }
    requires inner { IsInnermost parts.old.items (open_before tree.now.events reached.event) reached.inner }
    ensures closed { AreClosedAgain tree.now origin.now.width solids.now parts.old.items parts.new.items }
    ensures near { All IsNearPart parts.new.items }
{
    // a tree is known to be one by its count
    let _count = tree.count();
    if let Some(last) = solids.last() {
        let (from, to) = run_behind(tree, last);
        let inner = through(parts, tree, reached.inner, from, to);
        close_all(parts, tree, origin, solids, inner);
    }
}

/// Whether one of some boxes clones.
fn any_clones(tree: &BoxTree, parts: &[Fragment]) -> bool
    requires { All (λ p. p.number < length tree.now.boxes) parts.now }
    ensures { result ≡ list_any (λ p. clones_at tree.now p.number) parts.now }
{
    for part in parts {
        if tree.props(part.number).clones {
            return true;
        }
    }
    false
}

/// Where the run before a page's first solid begins.
fn begin_of(tree: &BoxTree, solids: &[Placed]) -> u32
    requires { All (StandsIn tree.now) solids.now }
    ensures { result ≡ begin_of tree.now (first_solid solids.now) }
{
    match solids {
        [] => 0,
        [first, ..] => begin_before(tree, first),
    }
}

/// Gives the clone boxes that a page's end parts their lower edges again, and answers before which event those open
/// that its start parts; where no box clones, nothing is done.
pub(crate) fn stand_again(
    parts: &mut Vec<Fragment>,
    tree: &BoxTree,
    origin: &SolidOrigin,
    solids: &[Placed],
    reached: Reached,
) -> u32
    requires depth { depth_of tree.now.events ≤ most_open }
    requires near { All IsNearSolid solids.now }
    requires order { AreInOrder tree.now 0 solids.now }
    requires reached { AreReached tree.now origin.now.width solids.now parts.old.items }
    requires behind { (s : Placed) → last_solid solids.now ≡ Some s →
        reached.event ≡ end_by (slice_get tree.now.events s.at.event) s.at.event }
    requires inner { IsInnermost parts.old.items (open_before tree.now.events reached.event) reached.inner }
    ensures rects { flat_map (part_rects tree.now origin.now result) parts.new.items
        ≡ rects_of tree.now origin.now solids.now }
    ensures there { All (λ p. p.number < length tree.now.boxes) parts.new.items }
    ensures near { All IsNearPart parts.new.items }
{
    // a tree is known to be one by its count
    let _count = tree.count();
    if any_clones(tree, parts) {
        close_again(parts, tree, origin, solids, reached);
        return begin_of(tree, solids);
    }
    0
}

/// Where a box has its upper edge again, if it clones and opens before an event.
fn head_of(props: &BoxProps, part: &Fragment, from: u32) -> Option<VerticalExtent>
    requires { IsNearPart part.now }
    ensures value { result ≡ part_head from part.now props.now }
    ensures near { ForSome result IsNearExtent }
{
    if part.event >= from || !props.clones {
        return None;
    }
    Some(VerticalExtent {
        top: part.above,
        bottom: part.inside,
    })
}

/// A box that has its upper edge again, if it clones and opens before an event.
pub(crate) fn with_head(props: &BoxProps, part: &Fragment, from: u32) -> Fragment
    requires { IsNearPart part.now }
    ensures value { result ≡ with_head (part_head from part.now props.now) part.now }
    ensures near { IsNearPart result }
{
    let head = head_of(props, part, from);
    match (head, part.reach) {
        (None, _) => *part,
        (Some(_), None) => Fragment {
            upper: head,
            ..*part
        },
        (Some(edge), Some(extent)) => Fragment {
            reach: Some(VerticalExtent {
                top: edge.top,
                bottom: extent.bottom,
            }),
            upper: head,
            ..*part
        },
    }
}
