//! Where the margin boxes of a page stand.

ghost use Rattle.std.specs.Prelude.{◌≡◌, ◌-ℤ◌, All};
ghost use Rattle.page_ctx.specs.Bounds.{IsGoodCell};
ghost use Rattle.margin_box.specs.Areas as spec;

use boxes::table::PageCell;
use css_rules::margin_boxes::MARGIN_BOXES;
use paint::item::Area;

fn area(x: i64, y: i64, w: i64, h: i64) -> Area
    ensures { result ≡ spec.area x y w h }
{
    Area { x, y, w, h }
}

/// The areas of the margin boxes of a page, where its right margin begins at a distance from the page's left, and its
/// bottom margin at one from the page's top.
fn areas_by(cell: &PageCell, right: i64, bottom: i64) -> [Area; MARGIN_BOXES]
    requires right { right ≡ cell.now.width -ℤ cell.now.right }
    requires bottom { bottom ≡ cell.now.height -ℤ cell.now.bottom }
    ensures { result ≡ spec.areas_of cell.now }
{
    let frame = cell.frame;
    let above = area(frame.left, 0, frame.width, frame.top);
    let beside_right = area(right, frame.top, cell.right, frame.height);
    let below = area(frame.left, bottom, frame.width, cell.bottom);
    let beside_left = area(0, frame.top, frame.left, frame.height);
    [
        area(0, 0, frame.left, frame.top),
        above,
        above,
        above,
        area(right, 0, cell.right, frame.top),
        beside_right,
        beside_right,
        beside_right,
        area(right, bottom, cell.right, cell.bottom),
        below,
        below,
        below,
        area(0, bottom, frame.left, cell.bottom),
        beside_left,
        beside_left,
        beside_left,
    ]
}

/// The areas of the margin boxes of a page, from its top left corner clockwise as they are listed, in units from the
/// page's top left (css-page-3, page-margin boxes). They and their places are within 2^41 units.
pub fn areas_of(cell: &PageCell) -> [Area; MARGIN_BOXES]
    requires { IsGoodCell cell.now }
    ensures value { result ≡ spec.areas_of cell.now }
    ensures good { All spec.IsGoodArea result }
{
    areas_by(cell, cell.width - cell.right, cell.height - cell.bottom)
}
