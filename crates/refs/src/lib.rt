//! Tables of page references: the numbers of the pages on which elements begin.
#![tactic(auto)]

mod begins;
pub mod difference;
pub mod laws;
mod numbers;
pub mod opening;
pub mod shown;
mod starts;
