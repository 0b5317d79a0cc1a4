//! Page boxes, their margins and their frames.

ghost use Rattle.std.specs.Prelude.{◌≡◌, ◌≤ℤ◌, ◌+ℤ◌, ◌-ℤ◌, ◌^◌, pos, neg_ℤ, map, option_map};
ghost use Rattle.std.specs.Option.{option_and_then};
ghost use Rattle.bk_num.specs.Numbers.{IsWithin};
ghost use Rattle.boxes.specs.Frames.{IsGoodFrame};
ghost use Rattle.computed_values.specs.Values.{held};
ghost use Rattle.page_ctx.specs.Bounds.{IsGoodCell};
ghost use Rattle.page_ctx.specs.Winners.{candidate_in, value_of};
ghost use Rattle.page_ctx.specs.declared.property.PageProperty.TheVariants as property;
ghost use Rattle.page_ctx.specs.Cells as spec;

use crate::property::PageProperty;
use crate::winner::{PageCandidate, value_of};
use bk_num::limits::{PAGE_HEIGHT, PAGE_MARGIN, PAGE_WIDTH};
use bk_num::px::Px;
use bk_num::sides::{BoxSide, Sides};
use boxes::frames::Frame;
use boxes::table::PageCell;
use computed_values::lengths::{held, px, units_of};
use css_page::values::PageLong;
use style::initial::medium_size;
use style::long::Given;
use style::values::Measure;

/// A length of the page's font size, not negative.
fn length_by(font: Px, measure: &Measure) -> Px
    ensures value { result ≡ spec.length_by font measure.now }
    ensures low { pos 0 ≤ℤ result }
{
    held(units_of(font, medium_size(), px(0), measure))
}

/// The width of the page box.
fn width_by(font: Px, found: Option<&PageLong>) -> Px
    ensures value { result ≡ spec.width_by font (option_map (λ l. l.now) found.entry) }
    ensures low { pos 0 ≤ℤ result }
{
    match found {
        Some(PageLong::Size(Given::Value(size))) => length_by(font, &size.width),
        _ => px(PAGE_WIDTH),
    }
}

/// Its height.
fn height_by(font: Px, found: Option<&PageLong>) -> Px
    ensures value { result ≡ spec.height_by font (option_map (λ l. l.now) found.entry) }
    ensures low { pos 0 ≤ℤ result }
{
    match found {
        Some(PageLong::Size(Given::Value(size))) => length_by(font, &size.height),
        _ => px(PAGE_HEIGHT),
    }
}

/// The declared value of a margin.
fn margin_of(long: &PageLong) -> Option<&Given<Measure>>
    ensures { option_map (λ g. g.now) result ≡ spec.margin_of long.now }
{
    match long {
        PageLong::MarginTop(given)
        | PageLong::MarginRight(given)
        | PageLong::MarginBottom(given)
        | PageLong::MarginLeft(given) => Some(given),
        _ => None,
    }
}

/// The declared value of the margin that wins, if one does.
fn declared_margin(found: Option<&PageLong>) -> Option<&Given<Measure>>
    ensures { option_map (λ g. g.now) result ≡
        option_and_then spec.margin_of (option_map (λ l. l.now) found.entry) }
{
    margin_of(found?)
}

/// A used margin.
fn used_margin(font: Px, base: Px, measure: &Measure) -> Px
    ensures { result ≡ spec.used_margin font base measure.now }
{
    match measure {
        Measure::Auto => px(0),
        _ => units_of(font, medium_size(), base, measure),
    }
}

/// The margin that a declaration gives.
fn given_margin(font: Px, base: Px, given: Option<&Given<Measure>>) -> Px
    ensures { result ≡ spec.given_margin font base (option_map (λ g. g.now) given.entry) }
{
    match given {
        Some(Given::Value(measure)) => used_margin(font, base, measure),
        _ => px(PAGE_MARGIN),
    }
}

/// The margin that wins, or the initial one.
fn margin_by(font: Px, base: Px, found: Option<&PageLong>) -> Px
    ensures { result ≡ spec.margin_by font base (option_map (λ l. l.now) found.entry) }
{
    given_margin(font, base, declared_margin(found))
}

/// What a percentage of a margin is of.
fn base_of(width: Px, height: Px, side: BoxSide) -> Px
    ensures { result ≡ spec.base_of width height side }
{
    match side {
        BoxSide::Top | BoxSide::Bottom => height,
        BoxSide::Right | BoxSide::Left => width,
    }
}

/// The margin on a side.
fn margin_at(font: Px, width: Px, height: Px, side: BoxSide, declared: &[PageCandidate<'_>]) -> Px
    ensures { result ≡ spec.margin_by font (spec.base_of width height side)
        (value_of (property.Margin side) (map candidate_in declared.now)) }
{
    let base = base_of(width, height, side);
    margin_by(font, base, value_of(PageProperty::Margin(side), declared))
}

/// The margins.
fn margins_by(font: Px, width: Px, height: Px, declared: &[PageCandidate<'_>]) -> Sides<Px>
    ensures { result ≡ spec.margins_by font width height (map candidate_in declared.now) }
{
    Sides {
        top: margin_at(font, width, height, BoxSide::Top, declared),
        right: margin_at(font, width, height, BoxSide::Right, declared),
        bottom: margin_at(font, width, height, BoxSide::Bottom, declared),
        left: margin_at(font, width, height, BoxSide::Left, declared),
    }
}

/// At least 0.
fn at_least_0(room: i64) -> i64
    requires { room ≤ℤ pos 402653184 }
    ensures value { result ≡ held room }
    ensures low { pos 0 ≤ℤ result }
    ensures high { result ≤ℤ pos 402653184 }
{
    room.max(0)
}

/// A length less a margin.
fn less(room: i64, margin: Px) -> i64
    requires low { neg_ℤ (pos 1073741824) ≤ℤ room }
    requires high { room ≤ℤ pos 1073741824 }
    ensures value { result ≡ room -ℤ margin }
    ensures low { (room -ℤ pos 134217728) ≤ℤ result }
    ensures high { result ≤ℤ (room +ℤ pos 134217728) }
{
    room - margin.wide_units()
}

/// What the margins leave of a length, at least 0.
fn between(whole: Px, before: Px, after: Px) -> i64
    ensures value { result ≡ spec.between whole before after }
    ensures low { pos 0 ≤ℤ result }
    ensures high { result ≤ℤ pos 402653184 }
{
    at_least_0(less(less(whole.wide_units(), before), after))
}

/// The page box less its margins.
fn frame_with(width: Px, height: Px, margins: &Sides<Px>) -> Frame
    ensures frame { result ≡ spec.frame_with width height margins.now }
    ensures good { IsGoodFrame result }
    ensures left { IsWithin (2 ^ 39) result.left }
{
    Frame {
        left: margins.left.wide_units(),
        top: margins.top.wide_units(),
        width: between(width, margins.left, margins.right),
        height: between(height, margins.top, margins.bottom),
    }
}

/// A page box with its margins and its frame.
fn cell_with(width: Px, height: Px, margins: &Sides<Px>) -> PageCell
    requires width { pos 0 ≤ℤ width }
    requires height { pos 0 ≤ℤ height }
    ensures cell { result ≡ spec.cell_with width height margins.now }
    ensures good { IsGoodCell result }
{
    PageCell {
        width: width.wide_units(),
        height: height.wide_units(),
        right: margins.right.wide_units(),
        bottom: margins.bottom.wide_units(),
        frame: frame_with(width, height, margins),
    }
}

/// The page box by what is declared for a page with this font size.
pub(crate) fn cell_by(font: Px, declared: &[PageCandidate<'_>]) -> PageCell
    requires { font ≡ spec.font_size_of (map candidate_in declared.now) }
    ensures cell { result ≡ spec.cell_by (map candidate_in declared.now) }
    ensures good { IsGoodCell result }
{
    let size = value_of(PageProperty::Size, declared);
    let width = width_by(font, size);
    let height = height_by(font, size);
    cell_with(width, height, &margins_by(font, width, height, declared))
}
