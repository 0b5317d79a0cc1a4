//! The tokens of a style sheet (CSS 2.1, 4.1), without memory, and their escapes undone.
#![tactic(auto)]

pub mod kind;
pub mod laws;
pub mod lengths;
pub mod marks;
pub mod numbers;
pub mod plain;
pub mod tokens;
pub mod value;
pub mod words;
