//! A stream into memory that also fails at listed calls.

ghost use Rattle.std.specs.Prelude.{◌≡◌, ◌+◌, ◌-◌, ◌^◌, ◌<◌, ◌≤◌, ◌↔◌, [], length, IfOk, IsErr, min, Some, Contains, ◌⊎◌};
ghost use Rattle.std.specs.Io.KnownBytes.{WriteAppends};
ghost use Rattle.bk_io.specs.Memory.{faults_after};
ghost use Rattle.bk_io.specs.Sink.{Takes, HasCause};

use crate::sink::{Failed, Sink};
use bk_num::name::NoMem;
use std::alloc::Global;
use std::marker::Model;

/// A stream into memory that takes so many bytes a call at most, and fails at the listed calls, counted from 1.
#[derive(Drop)]
pub struct MemSink {
    bytes: Vec<u8>,
    room: usize,
    step: usize,
    fail: Vec<u64>,
    calls: u64,
    faults: u64,
}

impl Model for MemSink {
    ghost use Rattle.std.specs.Prelude.{◌<◌, ◌≤◌, vec_len, vec_capacity};
    ghost use Rattle.bk_io.specs.Memory.{FailingTaken};

    ghost Value = { FailingTaken };

    ghost view = { λ s. record {
      bytes = s.bytes.items;
      room = s.room;
      step = s.step;
      fail = s.fail.items;
      calls = s.calls;
      faults = s.faults;
    } };

    ghost invariant = { λ s. (vec_len s.bytes ≤ s.room) × (s.room ≤ vec_capacity s.bytes) × (0 < s.step) };
}

impl MemSink {
    /// A sink with room for so many bytes, for which it takes the memory now.
    pub fn new(alloc: Global, room: usize, step: usize, fail: Vec<u64>) -> Result<MemSink, NoMem>
        requires { 0 < step }
        ensures { IfOk result (λ s. s ≡ record {
          bytes = [];
          room = room;
          step = step;
          fail = fail.items;
          calls = 0;
          faults = 0;
        }) }
    {
        let bytes = Vec::with_capacity(alloc, room)?;
        Ok(MemSink {
            bytes,
            room,
            step,
            fail,
            calls: 0,
            faults: 0,
        })
    }

    /// The bytes taken so far.
    pub fn bytes(&self) -> &[u8]
        ensures { result.now ≡ self.now.bytes }
    {
        self.bytes.as_slice()
    }
}

impl Sink for MemSink {
    ghost taken = { λ s. Some s.bytes };

    ghost faults = { λ s. s.faults };

    /// Takes the least of the piece, the room left and a step. It fails at the listed calls, and where the piece isn't
    /// empty and no room is left.
    fn put(&mut self, piece: &[u8]) -> Result<usize, Failed>
        ensures count { Takes piece.now result }
        ensures bytes { WriteAppends (Some self.old.bytes) (Some self.new.bytes) result piece.now }
        ensures cause { HasCause self.old.faults self.new.faults result }

        ensures most { IfOk result (λ n. n ≡ min (min (length piece.now)
            (self.old.room - length self.old.bytes)) self.old.step) }
        ensures full { IsErr result ↔ (Contains self.old.fail self.new.calls
            ⊎ ((0 < length piece.now) × (length self.old.bytes ≡ self.old.room))) }
        ensures faults { self.new.faults ≡ faults_after self.old.faults result }
        ensures calls { self.new.calls ≡ min (self.old.calls + 1) (2 ^ 64 - 1) }
        ensures room { (self.new.room ≡ self.old.room) × (self.new.step ≡ self.old.step)
            × (self.new.fail ≡ self.old.fail) }
    {
        self.calls = self.calls.saturating_add(1);
        if self.fail.contains(&self.calls) {
            self.faults = self.faults.saturating_add(1);
            return Err(Failed);
        }
        let count = piece.len().min(self.room - self.bytes.len()).min(self.step);
        if count == 0 && !piece.is_empty() {
            self.faults = self.faults.saturating_add(1);
            return Err(Failed);
        }
        self.bytes.extend_from_slice(&piece[..count]).unwrap();
        Ok(count)
    }
}
