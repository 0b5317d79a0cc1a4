//! Frames of pages by a table of page boxes.

ghost use Rattle.std.specs.Prelude.{◌≡◌, refl};
ghost use Rattle.boxes.specs.Frames.{meets_by_parity, is_free_demand};
ghost use Rattle.boxes.specs.Sides.{parity_within, parity_by_page, free_met, one_per_page};
ghost use Rattle.page_seq.specs.Frames.{IsGoodTable, frame_of};
ghost use Rattle.page_seq.specs.GoodFrames.{good_frame};

use bk_num::ids::NameId;
pub use boxes::frames::side_of as side;
use boxes::frames::{Demand, Frame, Frames, PageKind, empty_by_side};
use boxes::table::PageTable;

/// Pages whose frames stand in a table. Odd pages are right pages.
#[derive(Drop)]
pub struct Pages {
    pub table: PageTable,
    ghost good: { IsGoodTable table.rows },
}

impl Pages {
    /// The pages of a table. It takes no memory.
    pub fn new(table: PageTable) -> Pages
        requires { IsGoodTable table.rows }
        ensures { result.table ≡ table }
    {
        Pages { table }
    }
}

impl Frames for Pages {
    ghost per = { λ p. 1 };

    ghost view = { λ p. record { meets = meets_by_parity; frame_of = frame_of p.table.rows } };

    ghost bound = { λ p. 1 };

    ghost is_free = { λ p. is_free_demand };

    ghost within = { λ p. λ index. λ d. parity_within index d };

    ghost free = { λ p. λ index. λ d. free_met index d };

    ghost few = { λ p. one_per_page };

    ghost by_page = { λ p. λ index. λ d. parity_by_page index d };

    ghost kinds = { λ p. (refl, refl, refl) };

    ghost wide = { λ p. λ index. λ name. λ kind. (good_frame p.table.rows p.good index name kind).width_low };

    fn empty_before(&self, index: u32, demand: Demand) -> u32 {
        empty_by_side(index, demand)
    }

    fn frame(&self, index: u32, name: NameId, kind: PageKind) -> Frame {
        self.table.cell(index, name, kind).frame
    }

    fn per_page(&self) -> u32 {
        1
    }
}
