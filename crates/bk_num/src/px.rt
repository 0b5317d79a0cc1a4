//! Lengths in whole units of 1/64 px.

ghost use Rattle.std.specs.Prelude.{◌≡◌, ◌<◌, ◌≤◌, ◌^◌, pos, neg_ℤ, unsigned_abs, ◌≤ℤ◌, ◌*ℤ◌};
ghost use Rattle.bk_num.specs.Limits.{most_length};
ghost use Rattle.bk_num.specs.Units.{clamped, floor_div};

use crate::limits::MOST_LENGTH;
use std::marker::Model;

/// A length in units of 1/64 px, within plus or minus 2^27 units.
#[derive(Clone, Copy, Debug, PartialEq, Eq, PartialOrd, Ord)]
pub struct Px(i32);

impl Model for Px {
    ghost use Rattle.std.specs.Prelude.{ℤ, ◌≤◌, unsigned_abs};
    ghost use Rattle.bk_num.specs.Limits.{most_length};

    ghost Value = { ℤ };

    ghost view = { λ p. p.0 };

    ghost invariant = { λ p. unsigned_abs p.0 ≤ most_length };

    ghost inverse = { λ z. record { 0 = z } };
}

impl Px {
    /// The length nearest to this number of units.
    #[tactic(auto, unfolding(crate::specs::Units::clamped))]
    pub fn from_units(n: i64) -> Px
        ensures { result ≡ clamped n }
    {
        Px(n.clamp(-i64::from(MOST_LENGTH), i64::from(MOST_LENGTH)) as i32)
    }

    /// How many units it has, at most 2^27 either way.
    pub fn units(self) -> i32
        ensures value { result ≡ self }
        ensures bound { unsigned_abs result ≤ most_length }
    {
        self.0
    }

    /// How many units it has, as a wide number.
    pub fn wide_units(self) -> i64
        ensures value { result ≡ self }
        ensures low { neg_ℤ (pos (2 ^ 27)) ≤ℤ result }
        ensures high { result ≤ℤ pos (2 ^ 27) }
    {
        i64::from(self.units())
    }
}

/// floor(a times size over per_em), clamped.
pub fn scale_floor(a: u32, size: Px, per_em: u32) -> Px
    requires some { 0 < per_em }
    requires most { a ≤ 16384 }
    requires size { pos 0 ≤ℤ size }
    ensures { result ≡ clamped (floor_div (pos a *ℤ size) per_em) }
{
    Px::from_units((a as i64 * size.units() as i64).div_euclid(per_em as i64))
}

/// The length nearest to a wide number of units.
#[tactic(auto, unfolding(crate::specs::Units::clamped))]
pub(crate) fn clamp_wide(n: i128) -> Px
    ensures { result ≡ clamped n }
{
    Px(n.clamp(-i128::from(MOST_LENGTH), i128::from(MOST_LENGTH)) as i32)
}
