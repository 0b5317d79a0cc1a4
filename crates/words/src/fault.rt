//! Why words are not read.

ghost use Rattle.std.specs.Prelude.{◌≡◌};

use std::alloc::AllocError;
use thiserror::Error;

/// Why the words ask for nothing that the program does.
#[derive(Clone, Copy, Debug, PartialEq, Eq, Error)]
pub enum WordsFault {
    /// There is no word.
    #[error("no command")]
    NoCommand,
    /// The first word is neither `format` nor `sample`.
    #[error("unknown command")]
    UnknownCommand,
    /// The words ask for help.
    #[error("help")]
    Help,
    /// The command doesn't take the words after its name.
    #[error("words that the command doesn't take")]
    Refused,
}

/// Why words are not read.
#[derive(Clone, Copy, Debug, PartialEq, Eq, Error)]
pub enum WordsErr {
    #[error("{0}")]
    Fault(WordsFault),
    #[error("no memory")]
    NoMemory,
}

impl From<AllocError> for WordsErr {
    ghost use Rattle.words.specs.declared.fault.WordsErr.TheVariants.{NoMemory};

    ghost from_gives = { λ _ e. e ≡ NoMemory };

    fn from(_e: AllocError) -> WordsErr {
        WordsErr::NoMemory
    }
}
