//! Hyphenation by Liang's patterns: a text of patterns, and the points of a word.
#![tactic(auto)]

pub mod fault;
pub mod laws;
mod pattern;
pub mod patterns;
mod raise;
mod read;
mod tree;

pub use fault::PatErr;
pub use patterns::Patterns;
pub use read::read_patterns;
