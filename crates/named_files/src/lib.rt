//! The files that the words of the command line name, and their texts.
#![tactic(auto)]

mod fault;
mod file;
mod read;

pub use fault::FileFault;
pub use file::{FileOf, file_words};
pub use read::{FileTexts, read_files};
