//! The exit statuses of the programs, each number once. Specs name the same numbers.

ghost use Rattle.words.specs.Statuses.{StatusesAgree};

/// All is done, or help was asked for.
pub const DONE: u8 = 0;

/// A file can't be read.
pub const CANNOT_READ: u8 = 1;

/// The words ask for nothing that the program does.
pub const USAGE: u8 = 2;

/// A file isn't UTF-8.
pub const NOT_UTF8: u8 = 3;

/// The patterns text has no reading.
pub const BAD_PATTERNS: u8 = 4;

/// The metrics text has no reading.
pub const BAD_METRICS: u8 = 5;

/// Page references don't settle.
pub const NOT_SETTLED: u8 = 6;

/// An output can't be written.
pub const CANNOT_WRITE: u8 = 7;

/// A file is too large, or another limit is passed.
pub const PAST_LIMIT: u8 = 8;

/// There is no memory.
pub const NO_MEMORY: u8 = 9;

/// The statuses are those that specs name.
pub fn statuses_agree()
    ensures { StatusesAgree }
{}
