//! Lengths made of decimal numbers: of absolute units, and of parts of a base.

ghost use Rattle.std.specs.Prelude.{◌≡◌, ◌+◌, ◌*◌, ◌^◌, ◌<◌, ◌≤◌, ℤ, pos, unsigned_abs, ◌*ℤ◌};
ghost use Rattle.bk_num.specs.Units.{rounded};
ghost use Rattle.bk_num.specs.Lengths.{part, units_per, used_of};

use crate::decimal::Decimal;
use crate::px::{Px, clamp_wide};

/// The absolute units of length (CSS 2.1, 4.3.2).
#[derive(Clone, Copy, Debug, PartialEq, Eq)]
pub enum Unit {
    Px,
    In,
    Cm,
    Mm,
    Pt,
    Pc,
}

/// A length as a style has it: fixed, a part of a containing block, or `auto`.
#[derive(Clone, Copy, Debug)]
pub enum Len {
    Px(Px),
    Percent(Decimal),
    Auto,
}

impl Len {
    /// The used length against a base in units; None exactly for `Auto`.
    pub fn used(self, base: i64) -> Option<Px>
        requires { unsigned_abs base ≤ 2 ^ 40 }
        ensures { result ≡ used_of self base }
    {
        match self {
            Len::Px(length) => Some(length),
            Len::Percent(d) => Some(part_of(d, base, 100)),
            Len::Auto => None,
        }
    }
}

/// The nearest whole number of units of d times base over den, halves up, clamped.
pub fn part_of(d: Decimal, base: i64, den: u32) -> Px
    requires some { 0 < den }
    requires base { unsigned_abs base ≤ 2 ^ 40 }
    ensures { result ≡ part d base den }
{
    let bottom = 10u64.pow(d.places() as u32) * den as u64;
    clamp_wide(round_div(product(d.units(), base), bottom))
}

/// A number of this unit as a length: the nearest, halves up, clamped.
pub fn px_of(d: Decimal, unit: Unit) -> Px
    ensures { result ≡ part d (pos (units_per unit).0) (units_per unit).1 }
{
    let (units, per) = units_over(unit);
    part_of(d, units, per)
}

/// How many units of 1/64 px a unit of length has, as a fraction.
fn units_over(unit: Unit) -> (i64, u32)
    ensures top { result.0 ≡ pos (units_per unit).0 }
    ensures bottom { result.1 ≡ (units_per unit).1 }
    ensures most { unsigned_abs result.0 ≤ 2 ^ 40 }
    ensures some { 0 < result.1 }
{
    match unit {
        Unit::Px => (64, 1),
        Unit::In => (6144, 1),
        Unit::Cm => (614400, 254),
        Unit::Mm => (614400, 2540),
        Unit::Pt => (256, 3),
        Unit::Pc => (1024, 1),
    }
}

/// floor(top over bottom, plus one half).
#[tactic(auto, unfolding(crate::specs::Units::rounded))]
fn round_div(top: i128, bottom: u64) -> i128
    requires some { 0 < bottom }
    requires small { unsigned_abs top < 2 ^ 100 }
    ensures { result ≡ rounded top bottom }
{
    let twice = 2 * (bottom as i128);
    (2 * top + bottom as i128).div_euclid(twice)
}

fn product(a: i64, b: i64) -> i128
    ensures { result ≡ a *ℤ b }
{
    a as i128 * b as i128
}
