//! What of a book's sheets and of its document has no reading or does nothing: the parts of a sheet without a reading
//! and the families without a face, in the order of the text and each with its line, and elements that do nothing.
#![tactic(auto)]

pub mod elements;
pub mod families;
pub mod finding;
pub mod laws;
pub mod lines;
pub mod part;
pub mod reader;
mod reading;
pub mod sheet;
mod steps;
