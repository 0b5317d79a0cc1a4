//! Why a patterns text has no reading.

use bk_num::name::NoMem;
use thiserror::Error;

/// Why there are no patterns.
#[derive(Clone, Copy, Debug, PartialEq, Eq, Error)]
pub enum PatErr {
    /// The first line, from 1, that has no reading.
    #[error("line {line}")]
    Line { line: u32 },
    #[error("no memory")]
    NoMemory,
}

impl From<NoMem> for PatErr {
    ghost use Rattle.std.specs.Prelude.{◌≡◌};
    ghost use Rattle.hyphen.specs.declared.fault.PatErr.TheVariants.{NoMemory};

    ghost from_gives = { λ _ e. e ≡ NoMemory };

    fn from(_e: NoMem) -> PatErr {
        PatErr::NoMemory
    }
}
