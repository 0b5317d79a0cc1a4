//! Named files to read and streams to write, with a written meaning, their real and in-memory forms, and texts of
//! files.
#![tactic(auto)]

pub mod buffer;
pub mod dir_shelf;
pub mod escape;
pub mod mem_shelf;
pub mod mem_sink;
pub mod put_all;
pub mod read_all;
pub mod read_text;
mod retry;
pub mod shelf;
pub mod sink;
pub mod std_sink;
pub mod still_shelf;
pub mod still_sink;
pub mod texts;
