//! The one page list of a flow with its notes, and what holds of it.
#![tactic(auto)]

pub mod cut;
pub mod laws;
