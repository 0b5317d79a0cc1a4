//! What is kept of an open box.

ghost use Rattle.std.specs.Prelude.{◌≡◌, ℕ, ◌+◌, ◌^◌, ◌≤ℤ◌, ◌+ℤ◌, pos, Some};
ghost use Rattle.boxes.specs.Clones.{IsRoom, clone_edge};
ghost use Rattle.boxes.specs.Contents.{IsGoodBox};
ghost use Rattle.boxes.specs.Spans.{width_in_block};
ghost use Rattle.seams.specs.Widths.{IsBounded};

use bk_num::sides::BoxSide;
use boxes::props::BoxProps;
use boxes::span::{content_width_in, frame_units};

/// An open box, in units: the width of its content, and the sums of the top and of the bottom borders and paddings
/// that stand again where a page parts it, its own and those of the boxes around it.
#[derive(Clone, Copy)]
pub struct OpenBox {
    pub width: i64,
    pub head: i64,
    pub tail: i64,
}

/// A box that opens inside another one (CSS 2.1, 10.3.3; css-break-3, 5.4).
pub(crate) fn opened_in(props: &BoxProps, outer: OpenBox) -> OpenBox
    requires good { IsGoodBox props.now }
    requires low { pos 0 ≤ℤ outer.width }
    requires high { outer.width ≤ℤ pos (2 ^ 40) }
    requires head { IsRoom outer.head }
    requires tail { IsRoom outer.tail }
    ensures width { result.width ≡ width_in_block props.now outer.width }
    ensures head { result.head ≡ outer.head +ℤ clone_edge BoxSide.Top (Some props.now) outer.width }
    ensures tail { result.tail ≡ outer.tail +ℤ clone_edge BoxSide.Bottom (Some props.now) outer.width }
    ensures bounded { (depth : ℕ) → IsBounded depth outer → IsBounded (depth + 1) result }
{
    let width = content_width_in(props, outer.width);
    if !props.clones {
        return OpenBox {
            width,
            head: outer.head,
            tail: outer.tail,
        };
    }
    OpenBox {
        width,
        head: outer.head + frame_units(props, BoxSide::Top, outer.width),
        tail: outer.tail + frame_units(props, BoxSide::Bottom, outer.width),
    }
}
