//! Reads the text of a file.

ghost use Rattle.std.specs.Prelude.{◌≡◌, ◌≢◌, ◌≤◌, IfErr, IfOk, string_len};
ghost use Rattle.bk_io.specs.Reads.{HasTextFault, IsTextOf};

use crate::read_all::{ReadErr, read_all};
use crate::shelf::Shelf;
use crate::texts::text_from;
use std::alloc::Global;
use thiserror::Error;

/// Why a file gives no text.
#[derive(Clone, Copy, Debug, PartialEq, Eq, Error)]
pub enum TextErr {
    /// It could not be read.
    #[error("cannot read")]
    Failed,
    /// It has more bytes than it may have.
    #[error("too large")]
    TooLarge,
    /// It isn't UTF-8; `at` is the length of its longest prefix that is.
    #[error("not UTF-8")]
    NotUtf8 { at: u64 },
    /// Memory ran out.
    #[error("no memory")]
    NoMemory,
}

/// The text of the file with this name, a leading U+FEFF included, where it has at most so many bytes.
pub fn read_text<S: Shelf>(
    alloc: Global,
    shelf: &mut S,
    name: &str,
    limit: u64,
) -> Result<String, TextErr>
    ensures told { S.told shelf.new ≡ S.told shelf.old }
    ensures count { result ≢ Err TextErr.Failed → S.faults shelf.new ≡ S.faults shelf.old }
    ensures text { IfOk result (IsTextOf (S.told shelf.old name.now) limit) }
    ensures small { IfOk result (λ t. string_len t ≤ limit) }
    ensures later { S.faults shelf.old ≤ S.faults shelf.new }
    ensures fault { IfErr result (HasTextFault (S.told shelf.old name.now) name.now limit (S.faults shelf.old)
        (S.faults shelf.new) (S.last_fault shelf.new)) }
{
    let bytes = match read_all(alloc, shelf, name, limit) {
        Ok(bytes) => bytes,
        Err(ReadErr::Failed) => return Err(TextErr::Failed),
        Err(ReadErr::TooLarge) => return Err(TextErr::TooLarge),
        Err(ReadErr::NoMemory) => return Err(TextErr::NoMemory),
    };
    match text_from(bytes) {
        Ok(text) => Ok(text),
        Err(at) => Err(TextErr::NotUtf8 { at: at as u64 }),
    }
}
