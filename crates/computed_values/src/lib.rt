//! Computed values of declared ones (CSS 2.1, 6.1.2), of elements and of pages alike. Nothing here takes memory.
#![tactic(auto)]

pub mod fonts;
pub mod given;
pub mod lengths;
