//! What a run comes to.

ghost use Rattle.std.specs.Prelude.{◌≡◌};
ghost use Rattle.unread.specs.Status.{status_of};

use bk_io::read_text::TextErr;
use named_files::{FileFault, FileOf};
use words::{WordsErr, WordsFault, status};

/// The exit status where something was found.
const FOUND: u8 = 1;

/// What a run comes to.
#[derive(Clone, Copy)]
pub enum Outcome {
    /// Nothing was found.
    Clean,
    /// Something was found, and its lines were written.
    Found,
    /// The words ask for help.
    Help,
    /// The words ask for nothing that the program does.
    Usage,
    /// A file could not be read.
    CannotRead(FileOf),
    /// A file has more than 16,777,216 bytes.
    TooLarge(FileOf),
    /// A file isn't UTF-8.
    NotUtf8(FileOf),
    /// The metrics text has no reading: its first bad line, from 1.
    BadMetrics(u32),
    /// There are more than 400,000 nodes, elements more than 200 deep, or more than 16 sheets.
    Limit,
    /// The lines could not be written.
    CannotWrite,
    /// Memory ran out.
    NoMemory,
}

impl From<WordsErr> for Outcome {
    ghost use Rattle.std.specs.Prelude.{◌≡◌};
    ghost use Rattle.unread.specs.Causes.{words_refusal};

    ghost from_gives = { λ e o. o ≡ words_refusal e };

    fn from(e: WordsErr) -> Outcome {
        match e {
            WordsErr::Fault(WordsFault::Help) => Outcome::Help,
            WordsErr::Fault(_) => Outcome::Usage,
            WordsErr::NoMemory => Outcome::NoMemory,
        }
    }
}

impl From<FileFault> for Outcome {
    ghost use Rattle.std.specs.Prelude.{◌≡◌};
    ghost use Rattle.unread.specs.Causes.{file_refusal};

    ghost from_gives = { λ e o. o ≡ file_refusal e.file e.why };

    fn from(e: FileFault) -> Outcome {
        match e.why {
            TextErr::Failed => Outcome::CannotRead(e.file),
            TextErr::TooLarge => Outcome::TooLarge(e.file),
            TextErr::NotUtf8 { .. } => Outcome::NotUtf8(e.file),
            TextErr::NoMemory => Outcome::NoMemory,
        }
    }
}

impl Outcome {
    /// The exit status of the program.
    pub fn status(&self) -> u8
        ensures { result ≡ status_of self.now }
    {
        match self {
            Outcome::Clean | Outcome::Help => status::DONE,
            Outcome::Found => FOUND,
            Outcome::CannotRead(_) => status::CANNOT_READ,
            Outcome::Usage => status::USAGE,
            Outcome::NotUtf8(_) => status::NOT_UTF8,
            Outcome::BadMetrics(_) => status::BAD_METRICS,
            Outcome::CannotWrite => status::CANNOT_WRITE,
            Outcome::TooLarge(_) | Outcome::Limit => status::PAST_LIMIT,
            Outcome::NoMemory => status::NO_MEMORY,
        }
    }
}
