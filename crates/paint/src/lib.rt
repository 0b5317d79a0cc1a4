//! The items of a page: what it prints, each at its place.
#![tactic(auto)]

mod again;
mod bounds;
mod edges;
pub mod extent;
mod gather;
pub mod item;
pub mod laws;
mod leads;
mod lines;
mod note_area;
pub mod opens;
pub mod order;
pub mod parts;
pub mod place;
mod rects;
mod runs;
mod solids;
mod trees;
mod walk;
