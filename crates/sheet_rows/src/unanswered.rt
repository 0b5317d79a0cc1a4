//! Why a question has no answer.

use bk_num::name::NoMem;
use css_rules::sheet::SheetErr;
use css_words::unread::Unread;
use dom::DomErr;
use std::alloc::{AllocError, AllocFailed};

/// Why a question has no answer in words.
#[derive(Clone, Copy, Debug)]
pub(crate) enum Unanswered {
    /// Its text has no reading.
    NoReading,
    /// It has no known form.
    Unknown,
    NoMemory,
}

/// Whether an answer was written.
pub(crate) type Answered = Result<(), Unanswered>;

/// What was answered, where an answer was written whole.
pub(crate) fn done(written: Result<(), AllocError>) -> Answered {
    match written {
        Ok(()) => Ok(()),
        Err(_) => Err(Unanswered::NoMemory),
    }
}

impl From<AllocError> for Unanswered {
    fn from(_e: AllocError) -> Unanswered {
        Unanswered::NoMemory
    }
}

impl<T: Drop> From<AllocFailed<T>> for Unanswered {
    fn from(_e: AllocFailed<T>) -> Unanswered {
        Unanswered::NoMemory
    }
}

impl From<NoMem> for Unanswered {
    fn from(_e: NoMem) -> Unanswered {
        Unanswered::NoMemory
    }
}

impl From<Unread> for Unanswered {
    fn from(e: Unread) -> Unanswered {
        match e {
            Unread::NoReading => Unanswered::NoReading,
            Unread::NoMemory => Unanswered::NoMemory,
        }
    }
}

impl From<DomErr> for Unanswered {
    fn from(e: DomErr) -> Unanswered {
        match e {
            DomErr::NoMemory => Unanswered::NoMemory,
            _ => Unanswered::Unknown,
        }
    }
}

impl From<SheetErr> for Unanswered {
    fn from(e: SheetErr) -> Unanswered {
        match e {
            SheetErr::NoMemory => Unanswered::NoMemory,
            SheetErr::Rules => Unanswered::Unknown,
        }
    }
}
