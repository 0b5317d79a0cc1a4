//! The rules of a style sheet (CSS 2.1, 4 and 7.2; css-page, 4 and 5), as slices of its text.
#![tactic(auto)]

pub mod brackets;
pub mod decls;
pub mod margin_boxes;
pub mod media;
pub mod pages;
pub mod parts;
pub mod sheet;
