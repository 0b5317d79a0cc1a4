//! The line of an answer.

use crate::outcome::Outcome;
use bk_io::put_all::put_texts;
use bk_io::sink::{Failed, Sink};
use bk_num::limits::MOST_FILE_BYTES;
use itoa::Buffer;
use named_files::{FileOf, file_words};

/// How the program is called.
const USAGE: &str =
    "unread: usage: unread format [--passes N] [--columns N] [--gap PX] [--patterns FILE] METRICS HTML [CSS ...]\n";

/// Puts a line that tells of a file.
fn put_file_line<E: Sink>(
    err: &mut E,
    before: &'static str,
    file: FileOf,
    after: &'static str,
) -> Result<(), Failed> {
    let mut buffer = Buffer::new();
    let (word, number) = file_words(file, &mut buffer);
    put_texts(err, &["unread: ", before, word, number, after])
}

/// Puts the line that tells which file is too large.
fn put_large_line<E: Sink>(err: &mut E, file: FileOf) -> Result<(), Failed> {
    let (mut first, mut second) = (Buffer::new(), Buffer::new());
    let (word, number) = file_words(file, &mut first);
    let most = second.format(MOST_FILE_BYTES);
    put_texts(
        err,
        &[
            "unread: ",
            word,
            number,
            " has more than ",
            most,
            " bytes\n",
        ],
    )
}

fn put_metrics_line<E: Sink>(err: &mut E, line: u32) -> Result<(), Failed> {
    let mut buffer = Buffer::new();
    put_texts(
        err,
        &["unread: metrics line ", buffer.format(line), " not read\n"],
    )
}

/// Puts the line of an answer, where it has one.
pub(crate) fn put_message<E: Sink>(err: &mut E, outcome: Outcome) -> Result<(), Failed> {
    match outcome {
        Outcome::Clean | Outcome::Found => Ok(()),
        Outcome::Help | Outcome::Usage => put_texts(err, &[USAGE]),
        Outcome::CannotRead(file) => put_file_line(err, "cannot read ", file, "\n"),
        Outcome::TooLarge(file) => put_large_line(err, file),
        Outcome::NotUtf8(file) => put_file_line(err, "", file, " is not UTF-8\n"),
        Outcome::BadMetrics(line) => put_metrics_line(err, line),
        Outcome::Limit => put_texts(err, &["unread: limit of nodes, depth or sheets\n"]),
        Outcome::CannotWrite => put_texts(err, &["unread: cannot write\n"]),
        Outcome::NoMemory => put_texts(err, &["unread: no memory\n"]),
    }
}
