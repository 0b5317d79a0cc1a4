//! The stops of a paragraph, and a plan over them.

use bk_num::items::Items;

/// A place where a line may end. Widths are measured from the paragraph's start.
#[derive(Clone, Copy, Debug)]
pub struct Stop {
    /// The width up to here of what a line that ends here has, without a hyphen.
    pub seen: i64,
    /// The advance of the hyphen that such a line shows, 0 where it shows none.
    pub hyphen: i64,
    /// The width up to where the line begins that begins here.
    pub next: i64,
}

/// The measure of the first line, and that of each other one.
#[derive(Clone, Copy, Debug)]
pub struct Measures {
    pub first: i64,
    pub rest: i64,
}

/// A plan of a paragraph's lines.
#[derive(Drop)]
pub struct Plan {
    /// The stops at which its lines end, by their numbers from 1 on.
    pub ends: Items<u32>,
    /// What it costs.
    pub cost: u128,
    /// Of the start and of each stop the least cost of a plan from there on, None where there is none.
    pub potentials: Items<Option<u128>>,
}
