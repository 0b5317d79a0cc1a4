//! Lengths, names, lists, the project's limits and the counter of steps.
#![tactic(auto)]

pub mod chars;
pub mod decimal;
pub mod ids;
pub mod items;
pub mod laws;
pub mod length;
pub mod limits;
pub mod name;
pub mod px;
pub mod sides;
pub mod steps;
pub mod values;
pub mod written;
