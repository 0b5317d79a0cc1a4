//! Computed styles of a document's nodes.
#![tactic(auto)]

mod alike;
pub mod apply;
pub mod context;
pub mod document;
pub mod laws;
pub mod styled;
mod values;
pub mod walk;
