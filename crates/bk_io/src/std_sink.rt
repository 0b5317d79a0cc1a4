//! A standard stream. What becomes of the bytes is trusted, not proved.

ghost use Rattle.std.specs.Prelude.{None};
ghost use Rattle.bk_io.specs.Sink.{Takes};

use crate::retry::{MOST_TRIES, is_passing, pause};
use crate::sink::{Failed, Sink};
use std::io::Write;
use std::time::Clock;

/// A stream of the system. It tells nothing of the bytes taken.
#[derive(Drop)]
pub struct StdSink<'a, C: Clock, W: Write> {
    clock: &'a C,
    stream: W,
    faults: u64,
}

impl<'a, C: Clock, W: Write> StdSink<'a, C, W> {
    /// A sink that writes to this stream, and waits by this clock.
    pub fn new(clock: &'a C, stream: W) -> StdSink<'a, C, W> {
        StdSink {
            clock,
            stream,
            faults: 0,
        }
    }
}

/// Writes once. A write that a signal interrupts or that would have to wait is made again, up to 6,000 times.
fn write_piece<C: Clock, W: Write>(clock: &C, stream: &mut W, piece: &[u8]) -> Result<usize, Failed>
    ensures { Takes piece.now result }
{
    for _ in 0..MOST_TRIES {
        match stream.write(piece) {
            Ok(count) if count > 0 || piece.is_empty() => return Ok(count),
            Err(e) if is_passing(e.kind()) => pause(clock, e.kind()),
            _ => break,
        }
    }
    Err(Failed)
}

impl<C: Clock, W: Write> Sink for StdSink<'_, C, W> {
    ghost taken = { λ _. None };

    ghost faults = { λ s. s.faults };

    fn put(&mut self, piece: &[u8]) -> Result<usize, Failed> {
        let written = write_piece(self.clock, &mut self.stream, piece);
        if written.is_err() {
            self.faults = self.faults.saturating_add(1);
        }
        written
    }
}
