//! Lists of values by names.
#![tactic(auto)]

pub mod laws;
pub mod lists;
pub mod names;
