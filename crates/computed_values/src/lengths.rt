//! Lengths (CSS 2.1, 4.3.2; css-values-3, 5.1). A value out of its property's range is held at the nearest one in it.

ghost use Rattle.std.specs.Prelude.{◌≡◌, ◌≤◌, unsigned_abs};
ghost use Rattle.bk_num.specs.Limits.{most_length};
ghost use Rattle.computed_values.specs.Values as spec;

use bk_num::decimal::Decimal;
use bk_num::length::{Len, part_of};
use bk_num::px::Px;
use style::values::{BorderStyle, Measure};

/// A length of so many units of 1/64 px, at most the greatest length either way.
#[tactic(auto, unfolding(bk_num::specs::Units::clamped))]
pub fn px(units: i32) -> Px
    requires { unsigned_abs units ≤ most_length }
    ensures { result ≡ units }
{
    Px::from_units(units as i64)
}

/// The length, at least 0.
pub fn held(length: Px) -> Px
    ensures { result ≡ spec.held length }
{
    px(length.units().max(0))
}

/// The number, at least 0.
pub(crate) fn held_number(number: &Decimal) -> Decimal
    ensures { result ≡ spec.held_number number.now }
{
    Decimal::new(number.units().max(0), number.places())
}

/// A length in units: `em` and `ex` are of the font size, `rem` of the root's, and a percentage of a base, which is
/// `auto` too.
pub fn units_of(font: Px, root: Px, base: Px, measure: &Measure) -> Px
    ensures { result ≡ spec.units_of font root base measure.now }
{
    match measure {
        Measure::Px(length) => *length,
        Measure::Em(number) => part_of(*number, font.units() as i64, 1),
        Measure::Rem(number) => part_of(*number, root.units() as i64, 1),
        Measure::Ex(number) => part_of(*number, font.units() as i64, 2),
        Measure::Percent(number) => part_of(*number, base.units() as i64, 100),
        Measure::Auto => base,
    }
}

/// A length, a percentage or `auto` as a style has it.
pub fn len_of(font: Px, root: Px, measure: &Measure) -> Len
    ensures { result ≡ spec.len_of font root measure.now }
{
    match measure {
        Measure::Percent(number) => Len::Percent(*number),
        Measure::Auto => Len::Auto,
        _ => Len::Px(units_of(font, root, px(0), measure)),
    }
}

/// The same length, but 0 for `auto`.
pub fn without_auto(len: &Len) -> Len
    ensures { result ≡ spec.without_auto len.now }
{
    match len {
        Len::Auto => Len::Px(px(0)),
        Len::Px(length) => Len::Px(*length),
        Len::Percent(number) => Len::Percent(*number),
    }
}

/// The same length, but at least 0.
pub fn held_len(len: &Len) -> Len
    ensures { result ≡ spec.held_len len.now }
{
    match len {
        Len::Auto => Len::Auto,
        Len::Px(length) => Len::Px(held(*length)),
        Len::Percent(number) => Len::Percent(held_number(number)),
    }
}

/// The width of a border of a style: 0 where the style is none or hidden.
pub fn width_of(style: BorderStyle, width: Px) -> Px
    ensures { result ≡ spec.width_of style width }
{
    match style {
        BorderStyle::Off | BorderStyle::Hidden => px(0),
        BorderStyle::Solid => width,
    }
}
