//! Cuts of pages.

use bk_num::items::Items;
use boxes::frames::Demand;
use boxes::page::{Placed, PlacedNote};
use boxes::place::Position;
use note_list::carried::CarriedNotes;

/// Where a page begins, and whether the kept gap stands above its first solid.
#[derive(Clone, Copy, Debug, PartialEq, Eq)]
pub struct CutFrom {
    pub at: Position,
    pub kept: bool,
}

/// A page's cut: where the next page begins, whether the flow ends here, the demand of a forced break, the level of
/// the break, and what the page places and carries.
#[derive(Drop)]
pub struct Cut {
    pub to: Position,
    pub ended: bool,
    pub forced: Option<Demand>,
    pub level: u8,
    pub solids: Items<Placed>,
    pub notes: Items<PlacedNote>,
    pub carried: CarriedNotes,
}
