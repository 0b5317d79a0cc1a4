//! Why the files give no texts.

use crate::file::FileOf;
use bk_io::read_text::TextErr;
use thiserror::Error;

/// The file that gives no text, and why.
#[derive(Clone, Copy, Debug, PartialEq, Eq, Error)]
#[error("{why}")]
pub struct FileFault {
    pub file: FileOf,
    pub why: TextErr,
}
