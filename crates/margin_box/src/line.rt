//! Where the one line of a margin box stands: its left and its baseline.

ghost use Rattle.std.specs.Prelude.{◌≡◌, ◌<◌, pos, ◌≤ℤ◌, ◌^◌, length};
ghost use Rattle.bk_num.specs.Numbers.{IsWithin};
ghost use Rattle.metrics.specs.Widths.{text_width};
ghost use Rattle.line_fill.specs.Widths.{pen_of};
ghost use Rattle.line_place.specs.Extents.{span_extent};
ghost use Rattle.margin_box.specs.Areas.{IsGoodArea};
ghost use Rattle.margin_box.specs.Placing as spec;

use crate::place::{along_height, along_width, begin_in};
use bk_num::values::Align;
use boxes::leaf::Span;
use css_page::values::Upright;
use line_place::extent::{Extent, span_extent};
use metrics::Faces;
use paint::item::Area;

/// Where the line of a text begins in its box, from the page's left, in units.
pub(crate) fn line_left(faces: &Faces, span: &Span, area: &Area, align: Align, text: &str) -> i64
    requires face { span.now.face.0 < length faces.now }
    requires size { pos 0 ≤ℤ span.now.size }
    requires area { IsGoodArea area.now }
    ensures { result ≡ spec.line_left area.now align (text_width (pen_of faces.now span.now) text.now) }
{
    let width = faces.pen(span.face, span.size).text_width(text) as i64;
    begin_in(along_width(align), area.x, area.w, width)
}

/// Where a line of a height begins in its box, from the page's top.
fn line_top(area: &Area, upright: Upright, height: i64) -> i64
    requires area { IsGoodArea area.now }
    requires height { IsWithin (2 ^ 32) height }
    ensures value { result ≡ spec.begin_in (spec.along_height upright) area.now.y area.now.h height }
    ensures bound { IsWithin (2 ^ 62) result }
{
    begin_in(along_height(upright), area.y, area.h, height)
}

/// The baseline of a line of a height in its box, from the page's top.
fn baseline_in(area: &Area, upright: Upright, extent: Extent) -> i64
    requires area { IsGoodArea area.now }
    requires height { IsWithin (2 ^ 32) extent.height }
    requires baseline { IsWithin (2 ^ 31) extent.baseline }
    ensures { result ≡ spec.line_baseline area.now upright extent }
{
    line_top(area, upright, extent.height) + extent.baseline
}

/// The baseline of a line in its box, from the page's top, in units.
pub(crate) fn line_baseline(faces: &Faces, span: &Span, area: &Area, upright: Upright) -> i64
    requires face { span.now.face.0 < length faces.now }
    requires size { pos 0 ≤ℤ span.now.size }
    requires area { IsGoodArea area.now }
    ensures { result ≡ spec.line_baseline area.now upright (span_extent faces.now span.now) }
{
    baseline_in(area, upright, span_extent(faces, span))
}
