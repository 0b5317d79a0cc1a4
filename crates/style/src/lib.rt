//! Styles: the longhands, declared values of them, and computed styles.
#![tactic(auto)]

pub mod content;
pub mod initial;
pub mod lists;
pub mod long;
pub mod longhand;
pub mod names;
pub mod ranking;
pub mod style;
pub mod styles;
pub mod values;
