//! Why a text isn't read.

use bk_num::name::NoMem;
use std::alloc::{AllocError, AllocFailed};

/// Why a text isn't read.
#[derive(Clone, Copy, Debug, PartialEq, Eq)]
pub enum Unread {
    /// The grammar has no reading of it.
    NoReading,
    NoMemory,
}

impl From<NoMem> for Unread {
    ghost use Rattle.std.specs.Prelude.{◌≡◌};
    ghost use Rattle.css_words.specs.declared.unread.Unread.{Unread};

    ghost from_gives = { λ _ e. e ≡ Unread.NoMemory };

    fn from(_e: NoMem) -> Unread {
        Unread::NoMemory
    }
}

impl From<AllocError> for Unread {
    ghost use Rattle.std.specs.Prelude.{◌≡◌};
    ghost use Rattle.css_words.specs.declared.unread.Unread.{Unread};

    ghost from_gives = { λ _ e. e ≡ Unread.NoMemory };

    fn from(_e: AllocError) -> Unread {
        Unread::NoMemory
    }
}

impl<T: Drop> From<AllocFailed<T>> for Unread {
    ghost use Rattle.std.specs.Prelude.{◌≡◌};
    ghost use Rattle.css_words.specs.declared.unread.Unread.{Unread};

    ghost from_gives = { λ _ e. e ≡ Unread.NoMemory };

    fn from(_e: AllocFailed<T>) -> Unread {
        Unread::NoMemory
    }
}
