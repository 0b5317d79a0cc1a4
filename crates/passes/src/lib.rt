//! Lays a document out in passes, until its page references show the numbers of the very pages on which they stand.
#![tactic(auto)]

pub mod laws;
mod pass;
pub mod settle;
