//! Calls of the system that are made again.

use std::io::ErrorKind;
use std::thread;
use std::time::{Clock, Duration};

/// How often a call is made at most. A stream that stays unready is waited for a minute.
pub(crate) const MOST_TRIES: u32 = 6000;

/// How long a stream that isn't ready is left alone, in milliseconds.
const PAUSE: u64 = 10;

/// Whether a call that failed so is made again: a signal interrupted it (POSIX, EINTR), or the stream wasn't ready for
/// a call that doesn't wait (EAGAIN).
pub(crate) fn is_passing(kind: ErrorKind) -> bool {
    matches!(kind, ErrorKind::Interrupted | ErrorKind::WouldBlock)
}

/// Waits before a call is made again, where its stream wasn't ready.
pub(crate) fn pause<C: Clock>(clock: &C, kind: ErrorKind) {
    if kind == ErrorKind::WouldBlock {
        thread::sleep(clock, Duration::from_millis(PAUSE));
    }
}
