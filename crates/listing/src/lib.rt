//! The listing of a page list: the records of its pages, which go to a sink through a buffer of fixed size.
#![tactic(auto)]

mod fields;
mod listing_bytes;
pub mod pages;
pub mod print;
pub mod records;
pub mod write;
