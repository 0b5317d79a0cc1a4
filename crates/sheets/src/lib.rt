//! The style sheets of a document and of a run: their list, the default sheet, and what they are read as within their
//! limits.
#![tactic(auto)]

pub mod author;
pub mod default_sheet;
pub mod default_text;
mod elements;
pub mod laws;
mod list;
pub mod read;

pub use elements::media_of;
pub use list::{ElementSheet, list_sheets};
