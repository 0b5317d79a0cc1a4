//! What a run answers.

ghost use Rattle.std.specs.Prelude.{◌≡◌};
ghost use Rattle.book.specs.Message.{status_of};

use bk_io::read_text::TextErr;
use bk_num::name::Name;
use metrics::MetricsWhy;
use named_files::FileFault;
pub use named_files::FileOf;
pub use words::WordsFault;
use words::{WordsErr, status};

/// What a run answers.
#[derive(Drop, PartialEq)]
pub enum Outcome {
    /// All was laid out and put: how many pages, and the pass in which page references settled.
    Done {
        pages: u32,
        passes: u32,
    },
    /// The words ask for nothing that the program does.
    NotRead {
        kind: WordsFault,
    },
    /// A file could not be read.
    ReadFault {
        file: FileOf,
    },
    /// A file has more than 16,777,216 bytes.
    TooLarge {
        file: FileOf,
    },
    /// A file isn't UTF-8; `at` is the length of its longest prefix that is.
    NotUtf8 {
        file: FileOf,
        at: u64,
    },
    /// The metrics text has no reading: its first bad line, from 1, and the first test that this line fails.
    BadMetrics {
        line: u32,
        why: MetricsWhy,
    },
    /// The patterns text has no reading: its first bad line, from 1.
    BadPatterns {
        line: u32,
    },
    /// A number passes its limit.
    Limit {
        what: LimitOf,
    },
    /// Page references don't settle within the limit of passes: the id of the first element that one leads to whose
    /// numbers in the last two passes differ, and these numbers.
    NotSettled {
        target: Name,
        before: i64,
        after: i64,
    },
    /// The listing could not be written; a prefix of it was.
    WriteFault,
    /// Memory ran out.
    NoMemory,
}

/// What is limited: 400,000 nodes, elements 200 deep, 16 sheets, 20,000 rules of a sheet, 33,554,432 bytes of text,
/// 100,000 frames of pages.
#[derive(Clone, Copy, Debug, PartialEq, Eq)]
pub enum LimitOf {
    Nodes,
    Depth,
    Sheets,
    Rules,
    Text,
    Pages,
}

impl From<WordsErr> for Outcome {
    ghost use Rattle.std.specs.Prelude.{◌≡◌};
    ghost use Rattle.book.specs.Refusals.{words_refusal};

    ghost from_gives = { λ e o. o ≡ words_refusal e };

    fn from(e: WordsErr) -> Outcome {
        match e {
            WordsErr::Fault(kind) => Outcome::NotRead { kind },
            WordsErr::NoMemory => Outcome::NoMemory,
        }
    }
}

impl From<FileFault> for Outcome {
    ghost use Rattle.std.specs.Prelude.{◌≡◌};
    ghost use Rattle.book.specs.Refusals.{file_refusal};

    ghost from_gives = { λ e o. o ≡ file_refusal e.file e.why };

    fn from(e: FileFault) -> Outcome {
        let file = e.file;
        match e.why {
            TextErr::Failed => Outcome::ReadFault { file },
            TextErr::TooLarge => Outcome::TooLarge { file },
            TextErr::NotUtf8 { at } => Outcome::NotUtf8 { file, at },
            TextErr::NoMemory => Outcome::NoMemory,
        }
    }
}

impl Outcome {
    /// The exit status of the program.
    pub fn status(&self) -> u8
        ensures { result ≡ status_of self.now }
    {
        match self {
            Outcome::Done { .. } => status::DONE,
            Outcome::NotRead {
                kind: WordsFault::Help,
            } => status::DONE,
            Outcome::ReadFault { .. } => status::CANNOT_READ,
            Outcome::NotRead { .. } => status::USAGE,
            Outcome::NotUtf8 { .. } => status::NOT_UTF8,
            Outcome::BadMetrics { .. } => status::BAD_METRICS,
            Outcome::BadPatterns { .. } => status::BAD_PATTERNS,
            Outcome::NotSettled { .. } => status::NOT_SETTLED,
            Outcome::WriteFault => status::CANNOT_WRITE,
            Outcome::TooLarge { .. } => status::PAST_LIMIT,
            Outcome::Limit { .. } => status::PAST_LIMIT,
            Outcome::NoMemory => status::NO_MEMORY,
        }
    }
}
