//! Boxes that are open one in another, with the places of their contents.

ghost use Rattle.std.specs.Prelude.{◌≡◌, ◌==◌, ◌≤◌, ℕ, ℤ, List, pos, ◌≤ℤ◌, ◌^◌, length};
ghost use Rattle.bk_num.specs.Numbers.{IsWithin};
ghost use Rattle.boxes.specs.Contents.{IsGoodBox};
ghost use Rattle.boxes.specs.Tree.{Tree, rest_of};
ghost use Rattle.paint.specs.Bounds.{IsGoodOrigin};
ghost use Rattle.paint.specs.Opens.{AreBoxesWithin, IsContentWithin, IsNear, IsWide, border_in, border_width, boxes_from, content_along, opens_of};

use crate::item::SolidOrigin;
use bk_num::sides::BoxSide;
use boxes::props::BoxProps;
use boxes::span::{Content, content_width_in, frame_units, left_margin_in};

/// An open box: its number and its content.
#[derive(Clone, Copy, Debug)]
pub struct PlacedBox {
    pub number: u32,
    pub content: Content,
}

/// How wide the border box of a box is in a containing block of a width, in units.
fn border_width(props: &BoxProps, width: i64) -> i64
    requires good { IsGoodBox props.now }
    requires low { pos 0 ≤ℤ width }
    requires high { width ≤ℤ pos (2 ^ 40) }
    ensures value { result ≡ border_width props.now width }
    ensures within { IsWithin (2 ^ 42) result }
{
    content_width_in(props, width)
        + (frame_units(props, BoxSide::Left, width) + frame_units(props, BoxSide::Right, width))
}

/// The border box of a box in the content of the box around it.
#[tactic(auto, unfolding(crate::specs::Opens::border_in))]
pub(crate) fn border_in(props: &BoxProps, outer: &Content) -> Content
    requires good { IsGoodBox props.now }
    requires wide { IsWide outer.now }
    requires near { IsNear outer.now }
    ensures value { result ≡ border_in props.now outer.now }
    ensures left { IsWithin (2 ^ 61) result.left }
    ensures width { IsWithin (2 ^ 42) result.width }
{
    Content {
        left: outer.left + left_margin_in(props, outer.width),
        width: border_width(props, outer.width),
    }
}

/// The content of the innermost of some open boxes, the outermost first; the frame's where none is open.
pub(crate) fn innermost(opens: &[PlacedBox], origin: &SolidOrigin) -> Content
    requires origin { IsGoodOrigin origin.now }
    requires bounded { AreBoxesWithin opens.now }
    ensures value { (t : Tree) (boxes : List ℕ) → opens.now ≡ opens_of t origin.now.width boxes →
        result ≡ content_along t origin.now.width boxes }
    ensures bounded { IsContentWithin (length opens.now) result }
    ensures wide { IsWide result }
    ensures near { IsNear result }
{
    match opens.last() {
        None => Content {
            left: 0,
            width: origin.width,
        },
        Some(open) => open.content,
    }
}

/// The content of the box around the innermost of some open boxes; the frame's where there is none.
pub(crate) fn outer(opens: &[PlacedBox], origin: &SolidOrigin) -> Content
    requires origin { IsGoodOrigin origin.now }
    requires bounded { AreBoxesWithin opens.now }
    ensures value { (t : Tree) (boxes : List ℕ) → opens.now ≡ opens_of t origin.now.width boxes →
        result ≡ content_along t origin.now.width (rest_of boxes) }
    ensures wide { IsWide result }
    ensures near { IsNear result }
{
    let count = opens.len();
    if count == 0 {
        return innermost(opens, origin);
    }
    innermost(&opens[..count - 1], origin)
}

fn has_number(opened: &PlacedBox, number: u32) -> bool
    ensures { result ≡ (opened.now.number == number) }
{
    opened.number == number
}

/// The left of the content of the open box of a number, sought from the innermost one; 0 where there is none.
pub(crate) fn left_of(opens: &[PlacedBox], number: u32) -> i64
    requires bounded { AreBoxesWithin opens.now }
    ensures value { (t : Tree) (measure : ℤ) (boxes : List ℕ) → opens.now ≡ opens_of t measure boxes →
        result ≡ (content_along t measure (boxes_from number boxes)).left }
    ensures within { IsWithin (2 ^ 60) result }
{
    let mut at = opens.len();
    while at > 0 {
        at -= 1;
        if has_number(&opens[at], number) {
            return opens[at].content.left;
        }
    }
    0
}
