//! The boxes in which a page's solids stand, each with the place of the box around it.

ghost use Rattle.std.specs.Prelude.{◌≡◌, ◌<◌, ◌++◌, ◌∷◌, [], ◌^◌, ◌≤ℤ◌, pos, suc, length, Some, OnOk};
ghost use Rattle.std.specs.Option.{ForSome};
ghost use Rattle.bk_num.specs.Limits.{most_open};
ghost use Rattle.boxes.specs.Clones.{clone_edge};
ghost use Rattle.boxes.specs.Contents.{IsGoodBox};
ghost use Rattle.boxes.specs.Tree.{open_before};
ghost use Rattle.paint.specs.Opens.{IsContentWithin, IsWide};
ghost use Rattle.paint.specs.Parts.{AreMerged, Extends, HaveOuters, IsHandedOn, IsRoomOf, bare_of, content_at, inside_at, part_in, with_solid};

use crate::extent::{VerticalExtent, join};
use crate::item::SolidOrigin;
use bk_num::name::NoMem;
use bk_num::sides::BoxSide;
use boxes::place::Event;
use boxes::props::BoxProps;
use boxes::span::{Content, content_in, frame_units};
use boxes::tree::BoxTree;

/// A box: the event that opens it, its number, the place of the box around it and that one's content, and its own
/// content; the top borders and paddings, in units, of the clone boxes around it, and with its own; then how far its
/// solids reach, and its upper and its lower edge.
#[derive(Clone, Copy, Debug)]
pub struct Fragment {
    pub event: u32,
    pub number: u32,
    pub outer: Option<usize>,
    pub around: Content,
    pub content: Content,
    pub above: i64,
    pub inside: i64,
    pub reach: Option<VerticalExtent>,
    pub upper: Option<VerticalExtent>,
    pub lower: Option<VerticalExtent>,
}

/// How far one has gone: the event before which one stands, and the place of the innermost box that is open there.
#[derive(Clone, Copy, Debug)]
pub struct Reached {
    pub event: u32,
    pub inner: Option<usize>,
}

/// The content of the box at a place, or the frame's.
fn content_at(parts: &[Fragment], inner: Option<usize>, origin: &SolidOrigin) -> Content
    requires { ForSome inner (λ i. i < length parts.now) }
    ensures { result ≡ content_at origin.now.width parts.now inner }
{
    match inner {
        None => Content {
            left: 0,
            width: origin.width,
        },
        Some(place) => parts[place].content,
    }
}

/// The top borders and paddings of the clone boxes among the box at a place and those around it.
fn inside_at(parts: &[Fragment], inner: Option<usize>) -> i64
    requires { ForSome inner (λ i. i < length parts.now) }
    ensures { result ≡ inside_at parts.now inner }
{
    match inner {
        None => 0,
        Some(place) => parts[place].inside,
    }
}

/// The top border and padding of a box that stand again where a page parts it: none where it is sliced.
fn top_edge(props: &BoxProps, around: Content) -> i64
    requires good { IsGoodBox props.now }
    requires wide { IsWide around }
    ensures value { result ≡ clone_edge BoxSide.Top (Some props.now) around.width }
    ensures low { pos 0 ≤ℤ result }
    ensures high { result ≤ℤ pos (2 ^ 28) }
{
    if props.clones {
        frame_units(props, BoxSide::Top, around.width)
    } else {
        0
    }
}

/// Appends a box that an event opens inside the box at a place.
pub(crate) fn open_part(
    parts: &mut Vec<Fragment>,
    tree: &BoxTree,
    inner: Option<usize>,
    event: u32,
    number: u32,
    origin: &SolidOrigin,
) -> Result<(), NoMem>
    requires number { number < length tree.now.boxes }
    requires inner { ForSome inner (λ i. i < length parts.old.items) }
    requires few { length (open_before tree.now.events event) < most_open }
    requires around { IsContentWithin (length (open_before tree.now.events event))
        (content_at origin.now.width parts.old.items inner) }
    requires above { IsRoomOf (length (open_before tree.now.events event)) (inside_at parts.old.items inner) }
    ensures part { OnOk result (parts.new.items ≡ parts.old.items
        ++ part_in tree.now origin.now.width parts.old.items inner event number ∷ []) }
    ensures content { OnOk result (IsContentWithin (suc (length (open_before tree.now.events event)))
        (part_in tree.now origin.now.width parts.old.items inner event number).content) }
    ensures inside { OnOk result (IsRoomOf (suc (length (open_before tree.now.events event)))
        (part_in tree.now origin.now.width parts.old.items inner event number).inside) }
{
    // a tree is known to be one by its count
    let _count = tree.count();
    let around = content_at(parts, inner, origin);
    let above = inside_at(parts, inner);
    let props = tree.props(number);
    parts.push(Fragment {
        event,
        number,
        outer: inner,
        around,
        content: content_in(props, around),
        above,
        inside: above + top_edge(props, around),
        reach: None,
        upper: None,
        lower: None,
    })?;
    Ok(())
}

/// A box with a solid more whose innermost box it is.
fn with_solid(part: Fragment, event: Event, extent: VerticalExtent) -> Fragment
    ensures { result ≡ with_solid event extent part }
{
    let reach = join(part.reach, Some(extent));
    match event {
        Event::Opens(_) => Fragment {
            reach,
            upper: join(part.upper, Some(extent)),
            ..part
        },
        Event::Closes(_) => Fragment {
            reach,
            lower: join(part.lower, Some(extent)),
            ..part
        },
        Event::Leaf(_) => Fragment { reach, ..part },
    }
}

/// Writes a solid down at its innermost box.
pub(crate) fn extend(
    parts: &mut Vec<Fragment>,
    inner: Option<usize>,
    event: Event,
    extent: VerticalExtent,
)
    requires { ForSome inner (λ i. i < length parts.old.items) }
    ensures { Extends parts.old.items inner event extent parts.new.items }
{
    if let Some(place) = inner {
        parts[place] = with_solid(parts[place], event, extent);
    }
}

/// Hands a box's reach on to the box around it.
fn hand_on(parts: &mut Vec<Fragment>, at: usize)
    requires place { at < length parts.old.items }
    requires outers { HaveOuters parts.old.items }
    ensures { IsHandedOn parts.old.items at parts.new.items }
{
    let part = parts[at];
    if let Some(outer) = part.outer {
        parts[outer].reach = join(parts[outer].reach, part.reach);
    }
}

/// Hands each box's reach on, from the last box to the first.
pub(crate) fn merge(parts: &mut Vec<Fragment>)
    requires outers { HaveOuters parts.old.items }
    ensures rest { bare_of parts.new.items ≡ bare_of parts.old.items }
    ensures merged { AreMerged parts.old.items parts.new.items }
{
    let mut at = parts.len();
    while at > 0 {
        at -= 1;
        hand_on(parts, at);
    }
}
