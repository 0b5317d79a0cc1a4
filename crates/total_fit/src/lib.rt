//! The lines of a paragraph as a whole: its plan of least cost, and the certificate that none costs less.
#![tactic(auto)]

pub mod best;
pub mod check;
mod choice;
pub mod laws;
mod line;
pub mod plan;
