//! What the words of the command line ask for, as `clap` reads them.
#![tactic(auto)]

mod commands;
mod fault;
mod program;
mod read;
mod request;
pub mod status;
mod values;

pub use fault::{WordsErr, WordsFault};
pub use program::program_words;
pub use read::read_words;
pub use request::{Format, Request};
