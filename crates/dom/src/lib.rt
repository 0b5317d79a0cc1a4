//! A document as a tree of elements and texts, kept in one list of nodes.
#![tactic(auto)]

mod dom;
mod ids;
pub mod laws;
mod names;
mod rows;
mod store;
mod texts;
mod walk;

pub use dom::{Dom, DomErr};
pub use walk::{Step, Walk};
