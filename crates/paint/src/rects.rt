//! Items of backgrounds and borders.

ghost use Rattle.std.specs.Prelude.{◌≡◌, ◌<◌, ◌∷◌, [], ◌^◌, length, All, OnOk, Some};
ghost use Rattle.std.specs.List.{flat_map};
ghost use Rattle.std.specs.Option.{ForSome};
ghost use Rattle.bk_num.specs.Numbers.{IsWithin};
ghost use Rattle.boxes.specs.Contents.{IsGoodBox};
ghost use Rattle.boxes.specs.Spans.{units_at};
ghost use Rattle.notes.specs.Near.{IsNearSolid};
ghost use Rattle.paint.specs.Bounds.{IsGoodOrigin, IsNearArea, IsNearExtent, IsNearPart};
ghost use Rattle.paint.specs.Conditions.{CanBePainted};
ghost use Rattle.paint.specs.Opens as spec;
ghost use Rattle.paint.specs.Order.{AreInOrder};
ghost use Rattle.paint.specs.Pages.{rects_of};
ghost use Rattle.paint.specs.Parts.{own_rects, part_rects};
ghost use Rattle.paint.specs.Rects.{background_rects, border_rects, box_rects, edge_rects, fragment_area, left_area, lower_top, right_area, side_rects, upper_top};
ghost use Rattle.paint.specs.Views.{Adds, HaveItemFaces, rect_item};

use crate::again::with_head;
use crate::extent::VerticalExtent;
use crate::gather::fragments_of;
use crate::item::{Area, Canvas, ItemRef, SolidOrigin};
use crate::opens::border_in;
use crate::parts::Fragment;
use bk_num::name::NoMem;
use bk_num::sides::{BoxSide, at_side};
use bk_num::values::Color;
use boxes::page::Placed;
use boxes::props::BoxProps;
use boxes::span::Content;
use metrics::Faces;
use std::alloc::Global;

/// Adds a rectangle.
pub(crate) fn push_rect<'a>(
    out: &mut Vec<ItemRef<'a>>,
    faces: &Faces,
    area: Area,
    color: Color,
) -> Result<(), NoMem>
    requires faces { HaveItemFaces faces.now out.old.items }
    ensures items { OnOk result (Adds faces.now out.old.items (rect_item area color ∷ []) out.new.items) }
    ensures faces { OnOk result (HaveItemFaces faces.now out.new.items) }
{
    // named by the clauses alone
    let _faces = faces;
    if out.push(ItemRef::Rect { area, color }).is_err() {
        return Err(NoMem);
    }
    Ok(())
}

/// Adds the background of a fragment, unless it is transparent.
#[tactic(auto, unfolding(crate::specs::Rects::background_rects))]
fn push_background<'a>(
    out: &mut Vec<ItemRef<'a>>,
    faces: &Faces,
    color: Option<Color>,
    area: Area,
) -> Result<(), NoMem>
    requires faces { HaveItemFaces faces.now out.old.items }
    ensures items { OnOk result (Adds faces.now out.old.items (background_rects color area) out.new.items) }
    ensures faces { OnOk result (HaveItemFaces faces.now out.new.items) }
{
    match color {
        None => Ok(()),
        Some(color) => push_rect(out, faces, area, color),
    }
}

/// Adds a border, unless it has no width.
#[tactic(auto, unfolding(crate::specs::Rects::border_rects))]
fn push_border<'a>(
    out: &mut Vec<ItemRef<'a>>,
    faces: &Faces,
    width: i64,
    color: Color,
    area: Area,
) -> Result<(), NoMem>
    requires faces { HaveItemFaces faces.now out.old.items }
    ensures items { OnOk result (Adds faces.now out.old.items (border_rects width (Some color) area) out.new.items) }
    ensures faces { OnOk result (HaveItemFaces faces.now out.new.items) }
{
    if width == 0 {
        Ok(())
    } else {
        push_rect(out, faces, area, color)
    }
}

/// Adds an upper or a lower border of a fragment from its top on, if its edge stands on the page.
#[tactic(auto, unfolding(crate::specs::Rects::edge_rects))]
fn push_edge<'a>(
    out: &mut Vec<ItemRef<'a>>,
    faces: &Faces,
    width: i64,
    color: Color,
    area: Area,
    top: Option<i64>,
) -> Result<(), NoMem>
    requires faces { HaveItemFaces faces.now out.old.items }
    ensures items { OnOk result (Adds faces.now out.old.items (edge_rects width (Some color) area top) out.new.items) }
    ensures faces { OnOk result (HaveItemFaces faces.now out.new.items) }
{
    match top {
        None => Ok(()),
        Some(y) => push_border(
            out,
            faces,
            width,
            color,
            Area {
                x: area.x,
                y,
                w: area.w,
                h: width,
            },
        ),
    }
}

/// The width of a border, in units.
fn border_at(props: &BoxProps, side: BoxSide) -> i64
    ensures value { result ≡ units_at props.now.border side }
    ensures within { IsWithin (2 ^ 27) result }
{
    i64::from(at_side(&props.border, side).units())
}

/// The area of a left border of a fragment.
fn left_area(area: Area, width: i64) -> Area
    ensures { result ≡ left_area area width }
{
    Area {
        x: area.x,
        y: area.y,
        w: width,
        h: area.h,
    }
}

/// The area of a right border of a fragment.
fn right_area(area: Area, width: i64) -> Area
    requires area { IsNearArea area }
    requires width { IsWithin (2 ^ 27) width }
    ensures { result ≡ right_area area width }
{
    Area {
        x: area.x + area.w - width,
        y: area.y,
        w: width,
        h: area.h,
    }
}

/// Where the borders of a fragment stand: itself, the right border, and the tops of the upper and the lower one, each
/// if its edge stands on the page.
#[derive(Clone, Copy)]
struct BorderPlaces {
    area: Area,
    right: Area,
    upper: Option<i64>,
    lower: Option<i64>,
}

/// Adds the borders of a box, top, right, bottom and left.
fn push_sides<'a>(
    out: &mut Vec<ItemRef<'a>>,
    faces: &Faces,
    props: &BoxProps,
    sides: &BorderPlaces,
) -> Result<(), NoMem>
    requires faces { HaveItemFaces faces.now out.old.items }
    requires right { sides.now.right ≡ right_area sides.now.area (units_at props.now.border BoxSide.Right) }
    ensures items { OnOk result (Adds faces.now out.old.items
        (side_rects props.now sides.now.area sides.now.upper sides.now.lower) out.new.items) }
    ensures faces { OnOk result (HaveItemFaces faces.now out.new.items) }
{
    let top = border_at(props, BoxSide::Top);
    let right = border_at(props, BoxSide::Right);
    let bottom = border_at(props, BoxSide::Bottom);
    let left = border_at(props, BoxSide::Left);
    let colors = &props.colors;
    push_edge(
        out,
        faces,
        top,
        at_side(colors, BoxSide::Top),
        sides.area,
        sides.upper,
    )?;
    push_border(
        out,
        faces,
        right,
        at_side(colors, BoxSide::Right),
        sides.right,
    )?;
    push_edge(
        out,
        faces,
        bottom,
        at_side(colors, BoxSide::Bottom),
        sides.area,
        sides.lower,
    )?;
    push_border(
        out,
        faces,
        left,
        at_side(colors, BoxSide::Left),
        left_area(sides.area, left),
    )?;
    Ok(())
}

/// The area of a fragment of a box.
fn fragment_area(origin: &SolidOrigin, border: &Content, extent: VerticalExtent) -> Area
    requires origin { IsGoodOrigin origin.now }
    requires left { IsWithin (2 ^ 61) border.now.left }
    requires width { IsWithin (2 ^ 42) border.now.width }
    requires extent { IsNearExtent extent }
    ensures value { result ≡ fragment_area origin.now border.now extent }
    ensures near { IsNearArea result }
{
    Area {
        x: origin.left + border.left,
        y: origin.top + extent.top,
        w: border.width,
        h: extent.bottom - extent.top,
    }
}

/// The top of an upper border, if its edge stands on the page.
fn upper_top(origin: &SolidOrigin, upper: Option<VerticalExtent>) -> Option<i64>
    requires origin { IsGoodOrigin origin.now }
    requires near { ForSome upper IsNearExtent }
    ensures { result ≡ upper_top origin.now upper }
{
    match upper {
        None => None,
        Some(edge) => Some(origin.top + edge.top),
    }
}

/// The top of a lower border, which ends at the bottom of its edge, if that stands on the page.
fn lower_top(origin: &SolidOrigin, width: i64, lower: Option<VerticalExtent>) -> Option<i64>
    requires origin { IsGoodOrigin origin.now }
    requires width { IsWithin (2 ^ 27) width }
    requires near { ForSome lower IsNearExtent }
    ensures { result ≡ lower_top origin.now width lower }
{
    match lower {
        None => None,
        Some(edge) => Some(origin.top + edge.bottom - width),
    }
}

/// Where the borders of a part of a box stand.
fn sides_of(origin: &SolidOrigin, props: &BoxProps, part: &Fragment, area: Area) -> BorderPlaces
    requires origin { IsGoodOrigin origin.now }
    requires part { IsNearPart part.now }
    requires near { IsNearArea area }
    ensures area { result.area ≡ area }
    ensures right { result.right ≡ right_area area (units_at props.now.border BoxSide.Right) }
    ensures upper { result.upper ≡ upper_top origin.now part.now.upper }
    ensures lower { result.lower ≡ lower_top origin.now (units_at props.now.border BoxSide.Bottom) part.now.lower }
{
    BorderPlaces {
        area,
        right: right_area(area, border_at(props, BoxSide::Right)),
        upper: upper_top(origin, part.upper),
        lower: lower_top(origin, border_at(props, BoxSide::Bottom), part.lower),
    }
}

/// Adds the rectangles of a box that reaches so far: its background, then its borders.
#[tactic(auto, unfolding(crate::specs::Rects::box_rects))]
fn push_fragment<'a>(
    out: &mut Vec<ItemRef<'a>>,
    canvas: &Canvas<'a>,
    props: &BoxProps,
    part: &Fragment,
    extent: VerticalExtent,
) -> Result<(), NoMem>
    requires good { IsGoodBox props.now }
    requires origin { IsGoodOrigin canvas.now.origin }
    requires part { IsNearPart part.now }
    requires extent { IsNearExtent extent }
    requires faces { HaveItemFaces canvas.now.faces.now out.old.items }
    ensures items { OnOk result (Adds canvas.now.faces.now out.old.items
        (box_rects props.now (fragment_area canvas.now.origin (spec.border_in props.now part.now.around) extent)
        (upper_top canvas.now.origin part.now.upper) (lower_top canvas.now.origin
        (units_at props.now.border BoxSide.Bottom) part.now.lower)) out.new.items) }
    ensures faces { OnOk result (HaveItemFaces canvas.now.faces.now out.new.items) }
{
    let area = fragment_area(&canvas.origin, &border_in(props, &part.around), extent);
    let sides = sides_of(&canvas.origin, props, part, area);
    push_background(out, canvas.faces, props.background, area)?;
    push_sides(out, canvas.faces, props, &sides)?;
    Ok(())
}

/// Adds the rectangles of a box, if it reaches anywhere.
#[tactic(auto, unfolding(crate::specs::Rects::fragment_rects))]
fn push_own<'a>(
    out: &mut Vec<ItemRef<'a>>,
    canvas: &Canvas<'a>,
    props: &BoxProps,
    part: &Fragment,
) -> Result<(), NoMem>
    requires good { IsGoodBox props.now }
    requires origin { IsGoodOrigin canvas.now.origin }
    requires part { IsNearPart part.now }
    requires faces { HaveItemFaces canvas.now.faces.now out.old.items }
    ensures items { OnOk result (Adds canvas.now.faces.now out.old.items
        (own_rects canvas.now.origin props.now part.now) out.new.items) }
    ensures faces { OnOk result (HaveItemFaces canvas.now.faces.now out.new.items) }
{
    match part.reach {
        None => Ok(()),
        Some(extent) => push_fragment(out, canvas, props, part, extent),
    }
}

/// Adds the rectangles of a box that was met, which is parted at the page's start if it opens before an event.
fn push_part<'a>(
    out: &mut Vec<ItemRef<'a>>,
    canvas: &Canvas<'a>,
    part: &Fragment,
    from: u32,
) -> Result<(), NoMem>
    requires there { part.now.number < length canvas.now.tree.now.boxes }
    requires origin { IsGoodOrigin canvas.now.origin }
    requires part { IsNearPart part.now }
    requires faces { HaveItemFaces canvas.now.faces.now out.old.items }
    ensures items { OnOk result (Adds canvas.now.faces.now out.old.items
        (part_rects canvas.now.tree.now canvas.now.origin from part.now) out.new.items) }
    ensures faces { OnOk result (HaveItemFaces canvas.now.faces.now out.new.items) }
{
    // a tree is known to be one by its count
    let _count = canvas.tree.count();
    let props = canvas.tree.props(part.number);
    let part = with_head(props, part, from);
    push_own(out, canvas, props, &part)
}

/// Adds the rectangles of boxes, in order.
fn push_parts<'a>(
    out: &mut Vec<ItemRef<'a>>,
    canvas: &Canvas<'a>,
    parts: &[Fragment],
    from: u32,
) -> Result<(), NoMem>
    requires there { All (λ p. p.number < length canvas.now.tree.now.boxes) parts.now }
    requires origin { IsGoodOrigin canvas.now.origin }
    requires near { All IsNearPart parts.now }
    requires faces { HaveItemFaces canvas.now.faces.now out.old.items }
    ensures items { OnOk result (Adds canvas.now.faces.now out.old.items
        (flat_map (part_rects canvas.now.tree.now canvas.now.origin from) parts.now) out.new.items) }
    ensures faces { OnOk result (HaveItemFaces canvas.now.faces.now out.new.items) }
{
    for part in parts {
        push_part(out, canvas, part, from)?;
    }
    Ok(())
}

/// Adds the backgrounds and borders of the boxes in which solids of a tree stand, in the order in which they open.
pub(crate) fn push_rects<'a>(
    alloc: Global,
    out: &mut Vec<ItemRef<'a>>,
    canvas: &Canvas<'a>,
    solids: &[Placed],
) -> Result<(), NoMem>
    requires tree { CanBePainted canvas.now.faces.now canvas.now.tree.now }
    requires origin { IsGoodOrigin canvas.now.origin }
    requires solids { All IsNearSolid solids.now }
    requires order { AreInOrder canvas.now.tree.now 0 solids.now }
    requires faces { HaveItemFaces canvas.now.faces.now out.old.items }
    ensures items { OnOk result (Adds canvas.now.faces.now out.old.items
        (rects_of canvas.now.tree.now canvas.now.origin solids.now) out.new.items) }
    ensures faces { OnOk result (HaveItemFaces canvas.now.faces.now out.new.items) }
{
    let fragments = fragments_of(alloc, canvas.tree, &canvas.origin, solids)?;
    push_parts(out, canvas, &fragments.parts, fragments.from)?;
    Ok(())
}
