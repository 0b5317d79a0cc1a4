//! Items of a page with borrowed texts.

ghost use Rattle.std.specs.Prelude.{◌≡◌, ◌^◌};
ghost use Rattle.bk_num.specs.Numbers.{IsWithin};
ghost use Rattle.notes.specs.Near.{IsNearSolid};
ghost use Rattle.paint.specs.Areas.{area_of, style_of};
ghost use Rattle.paint.specs.Bounds.{IsGoodOrigin};

use bk_num::ids::FaceId;
use bk_num::px::Px;
use bk_num::values::Color;
use boxes::leaf::Span;
use boxes::page::Placed;
use boxes::span::Content;
use boxes::tree::BoxTree;
use metrics::Faces;

/// A rectangle on a page, in units of 1/64 px from the page's top left.
#[derive(Clone, Copy, Debug, PartialEq, Eq)]
pub struct Area {
    pub x: i64,
    pub y: i64,
    pub w: i64,
    pub h: i64,
}

/// Where a text stands, its left and its baseline in units of 1/64 px from the page's top left, and how it is painted.
#[derive(Clone, Copy, Debug)]
pub struct TextPlace {
    pub x: i64,
    pub y: i64,
    pub face: FaceId,
    pub size: Px,
    pub color: Color,
}

/// A record of a page's listing: what `boxes::item::Item` is with texts of its own. A text is borrowed from the flow,
/// and a face is named by its number.
#[derive(Debug, Drop)]
pub enum ItemRef<'a> {
    Rect { area: Area, color: Color },
    Edge { opens: bool, area: Area },
    Line { area: Area },
    Text { style: TextPlace, text: &'a str },
    Hyphen { style: TextPlace },
}

/// Where solids stand: the left and the top that their places count from, and the width of their frame, in units.
#[derive(Clone, Copy, Debug)]
pub struct SolidOrigin {
    pub left: i64,
    pub top: i64,
    pub width: i64,
}

/// The style of a span at a left, on a baseline.
pub(crate) fn style_at(span: &Span, x: i64, y: i64) -> TextPlace
    ensures { result ≡ style_of x y span.now }
{
    TextPlace {
        x,
        y,
        face: span.face,
        size: span.size,
        color: span.color,
    }
}

/// The area of a solid whose content or border box has a left and a width.
pub(crate) fn area_at(origin: &SolidOrigin, content: &Content, s: &Placed) -> Area
    requires origin { IsGoodOrigin origin.now }
    requires left { IsWithin (2 ^ 61) content.now.left }
    requires solid { IsNearSolid s.now }
    ensures { result ≡ area_of origin.now content.now s.now }
{
    Area {
        x: origin.left + content.left,
        y: origin.top + s.top,
        w: content.width,
        h: s.height,
    }
}

/// What is painted: a tree whose solids stand from an origin, in the faces of its texts.
#[derive(Clone, Copy)]
pub(crate) struct Canvas<'a> {
    pub faces: &'a Faces,
    pub tree: &'a BoxTree,
    pub origin: SolidOrigin,
}
