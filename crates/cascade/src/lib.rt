//! The cascade: which declaration wins for each longhand of a node (CSS 2.1, 6.4).
#![tactic(auto)]

mod alike;
pub mod choice;
pub mod decl;
pub mod laws;
mod selected;
pub mod sheet;
pub mod table;
pub mod weight;
pub mod winners;
