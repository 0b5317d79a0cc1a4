//! Reads declarations: the properties, their grammars, and the longhands that they give.
#![tactic(auto)]

pub mod borders;
pub mod colors;
pub mod decls;
pub mod fonts;
pub mod keywords;
pub mod measures;
pub mod properties;
pub mod shorthands;
pub mod sides;
pub mod values;
