//! The call behind the program: from words and files to a listing.
#![tactic(auto)]

mod boxed;
mod counts;
pub mod document;
mod files;
pub mod laws;
mod lay_out;
pub mod message;
pub mod outcome;
pub mod run;
pub mod styled;
mod target;
