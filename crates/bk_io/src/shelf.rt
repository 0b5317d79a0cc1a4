ghost use Rattle.std.specs.Prelude.{◌≡◌, ℕ, ◌<◌, ◌≤◌, List, length, take, IfOk, Option};
ghost use Rattle.bk_io.specs.Shelf.{Told, HasFault, IfHolds, Fetches};

use thiserror::Error;

/// Why a fetch gave nothing.
#[derive(Clone, Copy, Debug, PartialEq, Eq, Error)]
pub enum FetchErr {
    #[error("cannot read")]
    Failed,
    #[error("no memory")]
    NoMemory,
}

/// Files by their names.
pub trait Shelf {
    // what is told of each name
    ghost told: { Self → List ℕ → Told };

    // how often it has failed
    ghost faults: { Self → ℕ };

    // the name for which the count last rose, where that is told
    ghost last_fault: { Self → Option (List ℕ) };

    fn fetch(&mut self, name: &str, from: u64, into: &mut [u8]) -> Result<usize, FetchErr>
        requires { 0 < length into.old }
        ensures bound { IfOk result (λ n. n ≤ length into.new) }
        ensures told { told self.new ≡ told self.old }
        ensures read { IfOk result (λ _. faults self.new ≡ faults self.old) }
        ensures answers { IfOk result (λ n. IfHolds (told self.old name.now)
            (λ file. Fetches file from (take n into.new))) }
        ensures fault { HasFault (told self.old name.now) name.now (faults self.old) (faults self.new)
            (last_fault self.new) (result ≡ Err FetchErr.Failed) }
        ensures no_memory { result ≡ Err FetchErr.NoMemory → faults self.new ≡ faults self.old };
}
