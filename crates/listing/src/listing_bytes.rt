//! The bytes of a listing, kept in memory until all are there.

ghost use Rattle.std.specs.Prelude.{◌≡◌, [], Some};
ghost use Rattle.std.specs.Io.KnownBytes.{WriteAppends};
ghost use Rattle.bk_io.specs.Sink.{HasCause, Takes};

use bk_io::sink::{Failed, Sink};
use std::alloc::Global;

/// The bytes of a listing, and how often there was no memory for more of them.
#[derive(Drop)]
pub(crate) struct ListingBytes {
    bytes: Vec<u8>,
    refused: u64,
}

impl ListingBytes {
    /// A listing of no bytes.
    pub(crate) fn new(alloc: Global) -> ListingBytes
        ensures { result.bytes.items ≡ [] }
    {
        ListingBytes {
            bytes: Vec::new(alloc),
            refused: 0,
        }
    }

    /// The bytes so far.
    pub(crate) fn as_slice(&self) -> &[u8]
        ensures { result.now ≡ self.now.bytes.items }
    {
        self.bytes.as_slice()
    }
}

impl Sink for ListingBytes {
    ghost taken = { λ s. Some s.bytes.items };

    ghost faults = { λ s. s.refused };

    /// Takes the whole piece, and fails exactly where memory runs out.
    fn put(&mut self, piece: &[u8]) -> Result<usize, Failed>
        ensures count { Takes piece.now result }
        ensures bytes { WriteAppends (Some self.old.bytes.items) (Some self.new.bytes.items) result piece.now }
        ensures cause { HasCause self.old.refused self.new.refused result }
    {
        if self.bytes.extend_from_slice(piece).is_err() {
            self.refused = self.refused.saturating_add(1);
            return Err(Failed);
        }
        Ok(piece.len())
    }
}
