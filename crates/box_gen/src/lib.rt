//! The flow of a document: blocks, and the inline text in them (CSS 2.1, 9.2).
#![tactic(auto)]

pub mod build;
mod builder;
pub mod faced;
mod hyphens;
pub mod inline;
mod input;
pub mod laws;
pub mod leaf;
pub mod marker;
mod notes;
mod pieces;
pub mod props;
mod put;
pub mod represented;
pub mod run;
mod style_faces;
pub mod text_style;
pub mod words;
