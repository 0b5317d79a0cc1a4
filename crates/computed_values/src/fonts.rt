//! Sizes and weights of fonts, and heights of lines (CSS 2.1, 10.8.1, 15.6 and 15.7).

ghost use Rattle.std.specs.Prelude.{◌≡◌, ◌≤ℤ◌, pos};
ghost use Rattle.style.specs.Initial.{normal_weight};
ghost use Rattle.style.specs.Ranges.{IsHeight};
ghost use Rattle.style.specs.Styles.{initial_style};
ghost use Rattle.computed_values.specs.Values as spec;

use crate::lengths::{held, held_number, units_of};
use bk_num::decimal::Decimal;
use bk_num::length::part_of;
use bk_num::px::Px;
use style::initial::{medium_size, normal_height, normal_weight};
use style::long::Given;
use style::values::{FontSize, GivenHeight, LineHeight, Weight};

/// A font size below a parent's, never negative: `em`, `ex` and percentages are of the parent's, `rem` of the root's.
pub fn size_of(parent: Px, root: Px, size: &FontSize) -> Px
    ensures size { result ≡ spec.size_of parent root size.now }
    ensures least { pos 0 ≤ℤ result }
{
    match size {
        FontSize::Size(measure) => held(units_of(parent, root, parent, measure)),
        FontSize::Smaller => held(part_of(Decimal::new(5, 0), parent.units() as i64, 6)),
        FontSize::Larger => held(part_of(Decimal::new(6, 0), parent.units() as i64, 5)),
    }
}

/// The font size that a declaration gives below a parent's; the initial one is 16 px.
pub fn chosen_size(given: &Given<FontSize>, parent: Px, root: Px) -> Px
    ensures size { result ≡ spec.given_by (spec.size_of parent root) given.now parent initial_style.font_size }
    ensures least { pos 0 ≤ℤ parent → pos 0 ≤ℤ result }
{
    match given {
        Given::Value(size) => size_of(parent, root, size),
        Given::Inherit => parent,
        Given::Initial => medium_size(),
    }
}

/// A weight below a parent's: `bolder` is 300 more, at most 900, and `lighter` 300 less, at least 100.
pub fn weight_of(parent: u16, weight: &Weight) -> u16
    ensures { result ≡ spec.weight_of parent weight.now }
{
    match weight {
        Weight::Number(number) => *number,
        Weight::Bolder => (parent as u32 + 300).min(900) as u16,
        Weight::Lighter => parent.saturating_sub(300).max(100),
    }
}

/// The weight that a declaration gives below a parent's; the initial one is 400.
pub fn chosen_weight(given: &Given<Weight>, parent: u16) -> u16
    ensures { result ≡ spec.given_by (spec.weight_of parent) given.now parent normal_weight }
{
    match given {
        Given::Value(weight) => weight_of(parent, weight),
        Given::Inherit => parent,
        Given::Initial => normal_weight(),
    }
}

/// A height of lines, never negative: a number stays one, `em`, `ex` and percentages are of the font size, `rem` of the
/// root's.
fn height_of(font: Px, root: Px, height: &GivenHeight) -> LineHeight
    ensures height { result ≡ spec.height_of font root height.now }
    ensures least { IsHeight result }
{
    match height {
        GivenHeight::Number(number) => LineHeight::Number(held_number(number)),
        GivenHeight::Size(measure) => LineHeight::Px(held(units_of(font, root, font, measure))),
    }
}

/// The height of lines that a declaration gives; the initial one is 1.25 of the font size.
pub fn chosen_height(
    given: &Given<GivenHeight>,
    inherited: &LineHeight,
    font: Px,
    root: Px,
) -> LineHeight
    ensures height { result ≡
        spec.given_by (spec.height_of font root) given.now inherited.now initial_style.line_height }
    ensures least { IsHeight inherited.now → IsHeight result }
{
    match given {
        Given::Value(height) => height_of(font, root, height),
        Given::Inherit => *inherited,
        Given::Initial => LineHeight::Number(normal_height()),
    }
}

/// The used height of lines: a number is of the font size.
pub fn used_line_height(size: Px, height: &LineHeight) -> Px
    ensures height { result ≡ spec.used_line_height size height.now }
    ensures least { pos 0 ≤ℤ size → IsHeight height.now → pos 0 ≤ℤ result }
{
    match height {
        LineHeight::Number(number) => part_of(*number, size.units() as i64, 1),
        LineHeight::Px(length) => *length,
    }
}
