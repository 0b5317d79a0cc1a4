//! The notes of a page: which are called on it, and the solids of those and of the carried ones.
#![tactic(auto)]

pub mod calls;
pub mod carried;
pub mod laws;
mod left;
pub mod list;
mod place;
mod read;
pub mod solid;
