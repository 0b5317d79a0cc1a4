//! A stream into memory that fails only where no room is left.

ghost use Rattle.std.specs.Prelude.{◌≡◌, ◌-◌, ◌<◌, ◌≤◌, ◌↔◌, [], length, IfOk, IsErr, min, Some};
ghost use Rattle.std.specs.Io.KnownBytes.{WriteAppends};
ghost use Rattle.bk_io.specs.Memory.{faults_after};
ghost use Rattle.bk_io.specs.Sink.{Takes, HasCause};

use crate::sink::{Failed, Sink};
use bk_num::name::NoMem;
use std::alloc::Global;
use std::marker::Model;

/// A stream into memory. Contracts see the bytes taken, the room for all bytes, and the count of faults.
#[derive(Drop)]
pub struct StillSink {
    bytes: Vec<u8>,
    room: usize,
    faults: u64,
}

impl Model for StillSink {
    ghost use Rattle.std.specs.Prelude.{◌≤◌, vec_len, vec_capacity};
    ghost use Rattle.bk_io.specs.Memory.{Taken};

    ghost Value = { Taken };

    ghost view = { λ s. record { bytes = s.bytes.items; room = s.room; faults = s.faults } };

    ghost invariant = { λ s. (vec_len s.bytes ≤ s.room) × (s.room ≤ vec_capacity s.bytes) };
}

impl StillSink {
    /// A sink with room for so many bytes, for which it takes the memory now.
    pub fn new(alloc: Global, room: usize) -> Result<StillSink, NoMem>
        ensures { IfOk result (λ s. s ≡ record { bytes = []; room = room; faults = 0 }) }
    {
        let bytes = Vec::with_capacity(alloc, room)?;
        Ok(StillSink {
            bytes,
            room,
            faults: 0,
        })
    }

    /// The bytes taken so far.
    pub fn bytes(&self) -> &[u8]
        ensures { result.now ≡ self.now.bytes }
    {
        self.bytes.as_slice()
    }
}

impl Sink for StillSink {
    ghost taken = { λ s. Some s.bytes };

    ghost faults = { λ s. s.faults };

    /// Takes what there is room for, and fails exactly where the piece isn't empty and no room is left.
    fn put(&mut self, piece: &[u8]) -> Result<usize, Failed>
        ensures count { Takes piece.now result }
        ensures bytes { WriteAppends (Some self.old.bytes) (Some self.new.bytes) result piece.now }
        ensures cause { HasCause self.old.faults self.new.faults result }

        ensures most { IfOk result (λ n. n ≡ min (length piece.now) (self.old.room - length self.old.bytes)) }
        ensures full { IsErr result ↔ ((0 < length piece.now) × (length self.old.bytes ≡ self.old.room)) }
        ensures room { self.new.room ≡ self.old.room }
        ensures faults { self.new.faults ≡ faults_after self.old.faults result }
    {
        let count = piece.len().min(self.room - self.bytes.len());
        if count == 0 && !piece.is_empty() {
            self.faults = self.faults.saturating_add(1);
            return Err(Failed);
        }
        self.bytes.extend_from_slice(&piece[..count]).unwrap();
        Ok(count)
    }
}
