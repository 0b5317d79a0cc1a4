//! Running strings: which value of a named string a page shows.
#![tactic(auto)]

pub mod assigned;
pub mod laws;
mod named;
pub mod shown;
