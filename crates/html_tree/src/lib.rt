//! The tree of an HTML text.
#![tactic(auto)]

pub mod laws;
mod opened;
mod references;
mod rules;
mod scopes;
mod text;
mod tree;

pub use dom::{Dom, DomErr};
pub use tree::read_html;
