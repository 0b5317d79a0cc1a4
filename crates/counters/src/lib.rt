//! Counters of a document, and how their numbers are printed.
#![tactic(auto)]

pub mod at;
mod events;
mod gather;
pub mod laws;
mod log;
pub mod marker;
pub mod number;
pub mod numeral;
pub mod scopes;
pub mod spots;
