//! Reads words of CSS: the tokens of a text one after another, tests on them, and tables of words.
#![tactic(auto)]

pub mod lists;
pub mod reader;
pub mod table;
pub mod unread;
pub mod words;
