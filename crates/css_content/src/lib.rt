//! Reads lists of content, of counters and of named strings.
#![tactic(auto)]

pub mod content;
pub mod counters;
pub mod strings;
pub mod words;
