//! Soft hyphens at the points of words.
#![tactic(auto)]

pub mod hyphenate;
pub mod hyphenator;
pub mod laws;
mod letter;
mod texts;
mod walk;
mod word;
