//! Tokens of an HTML text that borrow from it.
#![tactic(auto)]

mod attrs;
mod classes;
mod raw;
mod scan;
mod tokens;

pub use attrs::Attrs;
pub use tokens::{Token, TokenKind, Tokens};
