//! The collapsing of adjoining vertical margins (CSS 2.1, 8.3.1). Nothing here takes memory.
#![tactic(auto)]

ghost use Rattle.std.specs.Prelude.{◌≡◌, ◌^◌, ◌≤ℤ◌, ◌+ℤ◌, pos, neg_ℤ};
ghost use Rattle.std.specs.Int.{int_max, int_min};
ghost use Rattle.margins.specs.Gaps.{gap_of};

use bk_num::px::Px;

/// A used margin, in units of 1/64 px.
#[derive(Clone, Copy, Debug, PartialEq, Eq)]
pub struct Margin {
    pub units: i64,
}

/// The greatest positive margin and the most negative one of some margins, in units of 1/64 px.
#[derive(Clone, Copy, Debug, PartialEq, Eq)]
pub struct Extremes {
    pub high: i64,
    pub low: i64,
}

impl Extremes {
    /// Those of no margin.
    pub const NONE: Extremes = Extremes { high: 0, low: 0 };

    /// Takes one more margin.
    pub fn add(&mut self, margin: Margin)
        ensures high { self.new.high ≡ int_max self.old.high margin.units }
        ensures low { self.new.low ≡ int_min self.old.low margin.units }
    {
        self.high = self.high.max(margin.units);
        self.low = self.low.min(margin.units);
    }

    /// The gap that the margins make.
    pub fn gap(&self) -> i64
        requires high { self.now.high ≤ℤ pos (2 ^ 60) }
        requires low { neg_ℤ (pos (2 ^ 60)) ≤ℤ self.now.low }
        requires positive { pos 0 ≤ℤ self.now.high }
        requires negative { self.now.low ≤ℤ pos 0 }
        ensures { result ≡ (self.now.high +ℤ self.now.low) }
    {
        self.high + self.low
    }
}

/// The gap that margins make, in units of 1/64 px: the greatest positive one plus the most negative one, and 0 where
/// there are none.
pub fn gap(list: &[Px]) -> i64
    ensures value { result ≡ gap_of list.now }
    ensures low { neg_ℤ (pos (2 ^ 27)) ≤ℤ result }
    ensures high { result ≤ℤ pos (2 ^ 27) }
{
    let mut extremes = Extremes::NONE;
    for at in 0..list.len() {
        extremes.add(Margin {
            units: i64::from(list[at].units()),
        });
    }
    extremes.gap()
}
