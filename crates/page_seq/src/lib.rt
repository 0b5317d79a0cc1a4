//! Pages in their order: frames by a table, the page that a place belongs to, and page numbers.
#![tactic(auto)]

pub mod finder;
pub mod fold;
pub mod laws;
pub mod numbers;
pub mod pages;
pub mod places;
