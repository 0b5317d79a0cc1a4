//! Trees from a short description, for the tests of layout.
#![tactic(auto)]

pub mod leaf;
pub mod shape;
pub mod tree;
