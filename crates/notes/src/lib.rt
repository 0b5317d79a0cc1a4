//! How many solids of its notes a page holds. Pure functions; they take no memory.
#![tactic(auto)]

pub mod area;
pub mod laws;
pub mod reach;
pub mod solid;
