//! Page rules: which pages they take, what they declare, and what their margin boxes declare (css-page-3; css-gcpm-3).
#![tactic(auto)]

pub mod decls;
pub mod properties;
pub mod rules;
pub mod selectors;
pub mod sizes;
pub mod values;
