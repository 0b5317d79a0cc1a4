//! The margin boxes of pages: what they print, and where (css-page-3, page-margin boxes).
#![tactic(auto)]

pub mod areas;
pub mod faces;
pub mod items;
pub mod keys;
mod line;
pub mod place;
mod text;
