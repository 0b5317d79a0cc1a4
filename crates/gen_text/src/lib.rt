//! Generated text: numbers of pages by a table, and the targets of references.
#![tactic(auto)]

pub mod eval;
pub mod laws;
pub mod own;
pub mod parts;
pub mod references;
pub mod table;
pub mod target;
pub mod texts;
