//! Decimal numbers, as style sheets have them.

ghost use Rattle.std.specs.Prelude.{◌≡◌, ◌^◌, ◌<◌, ◌≤◌, unsigned_abs};

use std::marker::Model;

/// A decimal number: `units` over ten to the power of `places`. Contracts see a `Number`.
#[derive(Clone, Copy, Debug, PartialEq, Eq)]
pub struct Decimal {
    units: i64,
    places: u8,
}

impl Model for Decimal {
    ghost use Rattle.std.specs.Prelude.{◌^◌, ◌<◌, ◌≤◌, unsigned_abs};
    ghost use Rattle.bk_num.specs.Numbers.{Number};

    ghost Value = { Number };

    ghost view = { λ d. record { units = d.units; places = d.places } };

    ghost invariant = { λ d. (d.places ≤ 6) × (unsigned_abs d.units < 10 ^ 15) };

    ghost inverse = { λ n. record { units = n.units; places = n.places } };
}

impl Decimal {
    /// The number with these units and so many decimal places.
    pub fn new(units: i64, places: u8) -> Decimal
        requires few { places ≤ 6 }
        requires small { unsigned_abs units < 10 ^ 15 }
        ensures units { result.units ≡ units }
        ensures places { result.places ≡ places }
    {
        Decimal { units, places }
    }

    /// How many units it has: its value times ten to the power of `places`.
    pub fn units(&self) -> i64
        ensures value { result ≡ self.now.units }
        ensures small { unsigned_abs result < 10 ^ 15 }
    {
        self.units
    }

    /// How many decimal places it has.
    pub fn places(&self) -> u8
        ensures value { result ≡ self.now.places }
        ensures few { result ≤ 6 }
    {
        self.places
    }
}
