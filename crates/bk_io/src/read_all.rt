ghost use Rattle.std.specs.Prelude.{◌≡◌, ◌≢◌, ◌<◌, length};
ghost use Rattle.bk_io.specs.Shelf.{ReadAnswers, HasFault};

use crate::shelf::{FetchErr, Shelf};
use std::alloc::{AllocError, Global};
use thiserror::Error;

/// Why a file was not read.
#[derive(Clone, Copy, Debug, PartialEq, Eq, Error)]
pub enum ReadErr {
    #[error("cannot read")]
    Failed,
    #[error("too large")]
    TooLarge,
    #[error("no memory")]
    NoMemory,
}

/// How many bytes a fetch asks for at most.
const PIECE: usize = 65536;

impl From<AllocError> for ReadErr {
    ghost use Rattle.bk_io.specs.declared.read_all.ReadErr.TheVariants.{NoMemory};

    ghost from_gives = { λ _ e. e ≡ NoMemory };

    fn from(_e: AllocError) -> ReadErr {
        ReadErr::NoMemory
    }
}

impl From<FetchErr> for ReadErr {
    ghost use Rattle.bk_io.specs.Shelf.{read_err_of};

    ghost from_gives = { λ e r. r ≡ read_err_of e };

    fn from(e: FetchErr) -> ReadErr {
        match e {
            FetchErr::Failed => ReadErr::Failed,
            FetchErr::NoMemory => ReadErr::NoMemory,
        }
    }
}

/// The bytes of the file with this name, where it has at most so many. They are fetched piece by piece.
fn read_pieces<S: Shelf>(
    alloc: Global,
    shelf: &mut S,
    name: &str,
    limit: u64,
    piece: &mut [u8],
) -> Result<Vec<u8>, ReadErr>
    requires { 0 < length piece.old }
    ensures told { S.told shelf.new ≡ S.told shelf.old }
    ensures count { result ≢ Err ReadErr.Failed → S.faults shelf.new ≡ S.faults shelf.old }
    ensures answers { ReadAnswers (S.told shelf.old name.now) limit result }
    ensures fault { HasFault (S.told shelf.old name.now) name.now (S.faults shelf.old) (S.faults shelf.new)
        (S.last_fault shelf.new) (result ≡ Err ReadErr.Failed) }
{
    let mut bytes = Vec::new(alloc);
    loop {
        let count = shelf.fetch(name, bytes.len() as u64, piece)?;
        if count == 0 {
            return Ok(bytes);
        }
        bytes.extend_from_slice(&piece[..count])?;
        if bytes.len() as u64 > limit {
            return Err(ReadErr::TooLarge);
        }
    }
}

/// The bytes of the file with this name, where it has at most so many. It takes memory for a piece beside them, and
/// little of the stack.
pub fn read_all<S: Shelf>(
    alloc: Global,
    shelf: &mut S,
    name: &str,
    limit: u64,
) -> Result<Vec<u8>, ReadErr>
    ensures told { S.told shelf.new ≡ S.told shelf.old }
    ensures count { result ≢ Err ReadErr.Failed → S.faults shelf.new ≡ S.faults shelf.old }
    ensures answers { ReadAnswers (S.told shelf.old name.now) limit result }
    ensures fault { HasFault (S.told shelf.old name.now) name.now (S.faults shelf.old) (S.faults shelf.new)
        (S.last_fault shelf.new) (result ≡ Err ReadErr.Failed) }
{
    let mut piece = vec![in alloc; 0; PIECE]?;
    read_pieces(alloc, shelf, name, limit, piece.as_mut_slice())
}
