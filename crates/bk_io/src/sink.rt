ghost use Rattle.std.specs.Prelude.{ℕ, List, Option};
ghost use Rattle.std.specs.Io.KnownBytes.{WriteAppends};
ghost use Rattle.bk_io.specs.Sink.{Takes, HasCause};

use thiserror::Error;

/// A put that took nothing.
#[derive(Clone, Copy, Debug, PartialEq, Eq, Error)]
#[error("cannot write")]
pub struct Failed;

/// A stream to write.
pub trait Sink {
    // the bytes taken so far, where they are told
    ghost taken: { Self → Option (List ℕ) };

    // how often it has failed
    ghost faults: { Self → ℕ };

    fn put(&mut self, piece: &[u8]) -> Result<usize, Failed>
        ensures count { Takes piece.now result }
        ensures bytes { WriteAppends (taken self.old) (taken self.new) result piece.now }
        ensures cause { HasCause (faults self.old) (faults self.new) result };
}
