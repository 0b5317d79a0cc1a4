//! Pages by the page rules of all sheets: their boxes, their frames and the styles of their margin boxes (css-page-3).
#![tactic(auto)]

pub mod applied;
mod asked;
pub mod cells;
pub mod classes;
mod groups;
mod index;
pub mod laws;
pub mod margin_style;
pub mod margins;
pub mod property;
pub mod resolve;
mod settings;
pub mod strings_asked;
pub mod weight;
pub mod winner;
