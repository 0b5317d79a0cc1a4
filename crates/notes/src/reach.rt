//! How far solids reach that stand one below the other.

ghost use Rattle.std.specs.Prelude.{◌≡◌, pos, ◌^◌, ◌≤ℤ◌, ◌+ℤ◌};
ghost use Rattle.std.specs.Int.{int_max};
ghost use Rattle.bk_num.specs.Limits.{separator};
ghost use Rattle.bk_num.specs.Numbers.{IsWithin};
ghost use Rattle.notes.specs.Notes.{IsSmallNote};

use crate::solid::NoteSolid;
use bk_num::limits::SEPARATOR;

/// The bottom of the last solid, and the greatest bottom so far, in units of 1/64 px.
#[derive(Clone, Copy, Debug, PartialEq, Eq)]
pub struct Reach {
    pub bottom: i64,
    pub extent: i64,
}

impl Reach {
    /// Before any solid.
    pub const START: Reach = Reach {
        bottom: 0,
        extent: 0,
    };

    /// Places a solid below, with a gap above it, and gives its top. A gap at a page's top may hold what stands again
    /// there, so it may be above 2^32.
    pub fn place(&mut self, gap: i64, height: i64) -> i64
        requires bottom { IsWithin (2 ^ 60) self.old.bottom }
        requires gap { IsWithin (2 ^ 41) gap }
        requires height { IsWithin (2 ^ 32) height }
        ensures top { result ≡ self.old.bottom +ℤ gap }
        ensures bottom { self.new.bottom ≡ (self.old.bottom +ℤ gap) +ℤ height }
        ensures extent { self.new.extent ≡ int_max self.old.extent self.new.bottom }
    {
        let top = self.bottom + gap;
        self.bottom = top + height;
        self.extent = self.extent.max(self.bottom);
        top
    }

    /// Places a solid of a note below, and gives its top.
    pub fn place_note(&mut self, solid: &NoteSolid) -> i64
        requires bottom { IsWithin (2 ^ 60) self.old.bottom }
        requires small { IsSmallNote solid.now }
        ensures top { result ≡ self.old.bottom +ℤ solid.now.gap }
        ensures bottom { self.new.bottom ≡ (self.old.bottom +ℤ solid.now.gap) +ℤ solid.now.height }
        ensures extent { self.new.extent ≡ int_max self.old.extent self.new.bottom }
    {
        self.place(solid.gap, solid.height)
    }

    /// The area of notes whose solids, of which there are some, reach so far.
    pub fn area(&self) -> i64
        requires low { pos 0 ≤ℤ self.now.extent }
        requires high { self.now.extent ≤ℤ pos (2 ^ 59) }
        ensures area { result ≡ separator +ℤ self.now.extent }
        ensures low { pos 0 ≤ℤ result }
        ensures high { result ≤ℤ pos (2 ^ 60) }
    {
        SEPARATOR + self.extent
    }
}
