//! Rows about shelves and sinks: files in memory and real ones that are read, and streams that are written.

use crate::files::count;
use bk_io::dir_shelf::DirShelf;
use bk_io::mem_shelf::MemShelf;
use bk_io::mem_sink::MemSink;
use bk_io::put_all::put_all;
use bk_io::read_all::{ReadErr, read_all};
use bk_io::shelf::Shelf;
use bk_io::sink::Sink;
use bk_io::std_sink::StdSink;
use bk_io::still_shelf::StillShelf;
use bk_io::still_sink::StillSink;
use bk_num::name::{Name, NoMem};
use rows::question_of;
use std::alloc::Global;
use std::io::{Error, ErrorKind, Write};
use std::{fs, io, process, str};

/// A text of a row: `N*TEXT+END` stands for N times the text, and its end.
fn text_of(alloc: Global, part: &str) -> Result<String, NoMem> {
    let Some((times, rest)) = part.split_once('*') else {
        return Ok(String::from_str(alloc, part)?);
    };
    let (piece, end) = rest.split_once('+').unwrap_or((rest, ""));
    let mut text = String::new(alloc);
    for _ in 0..count(times) {
        text.push_str(piece)?;
    }
    text.push_str(end)?;
    Ok(text)
}

/// A text as an answer: a long one by its first character, so many times, and the rest.
fn shown(alloc: Global, bytes: &[u8]) -> Result<String, NoMem> {
    let text = str::from_utf8(bytes).unwrap_or("?");
    let first = text.chars().next().unwrap_or(' ');
    let rest = text.trim_start_matches(first);
    let times = text.len().saturating_sub(rest.len());
    if times < 40 {
        return Ok(format!(in alloc; "\"{text}\"")?);
    }
    Ok(format!(in alloc; "{times}*{first}+{rest}")?)
}

/// What a whole read gave.
fn shown_read(alloc: Global, read: Result<Vec<u8>, ReadErr>) -> Result<String, NoMem> {
    match read {
        Ok(bytes) => shown(alloc, bytes.as_slice()),
        Err(err) => Ok(format!(in alloc; "{err}")?),
    }
}

/// Files of a row, `NAME=TEXT` each.
fn files(alloc: Global, parts: &[&str]) -> Result<Vec<(Name, Vec<u8>)>, NoMem> {
    let mut files = Vec::new(alloc);
    for part in parts {
        let (name, text) = part.split_once('=').unwrap_or((*part, ""));
        let bytes = text_of(alloc, text)?.into_bytes();
        files.push((Name::new(alloc, name)?, bytes))?;
    }
    Ok(files)
}

/// A whole read of files in memory, of which one call may fail.
fn read(
    alloc: Global,
    name: &str,
    limit: u64,
    failing: &str,
    parts: &[&str],
) -> Result<String, NoMem> {
    let files = files(alloc, parts)?;
    if failing.is_empty() {
        let read = read_all(alloc, &mut StillShelf::new(files), name, limit);
        return shown_read(alloc, read);
    }
    let fail = Vec::from_slice(alloc, &[count(failing)])?;
    let read = read_all(alloc, &mut MemShelf::new(files, fail), name, limit);
    shown_read(alloc, read)
}

/// What puts of pieces gave, each as a whole.
fn put_pieces<S: Sink>(alloc: Global, sink: &mut S, pieces: &[&str]) -> Result<String, NoMem> {
    let mut answers = String::new(alloc);
    for piece in pieces {
        match put_all(sink, piece.as_bytes()) {
            Ok(()) => answers.push_str("ok, ")?,
            Err(err) => write!(answers, "{err}, ")?,
        }
    }
    Ok(answers)
}

/// Pieces that are put on a stream with room for so many bytes.
fn put(alloc: Global, room: u64, pieces: &[&str]) -> Result<String, NoMem> {
    let mut sink = StillSink::new(alloc, room as usize)?;
    let mut answers = put_pieces(alloc, &mut sink, pieces)?;
    answers.push_str(shown(alloc, sink.bytes())?.as_str())?;
    Ok(answers)
}

/// Pieces that are put on a stream with room for 100 bytes that takes so many a call, and fails at one call.
fn put_in_steps(alloc: Global, step: u64, failing: &str, pieces: &[&str]) -> Result<String, NoMem> {
    let fail = Vec::from_slice(alloc, &[count(failing)])?;
    let mut sink = MemSink::new(alloc, 100, step.max(1) as usize, fail)?;
    let mut answers = put_pieces(alloc, &mut sink, pieces)?;
    answers.push_str(shown(alloc, sink.bytes())?.as_str())?;
    Ok(answers)
}

/// How many bytes of each piece a sink takes.
fn taken<S: Sink>(alloc: Global, sink: &mut S, pieces: &[&str]) -> Result<String, NoMem> {
    let mut answers = String::new(alloc);
    for piece in pieces {
        match sink.put(piece.as_bytes()) {
            Ok(taken) => write!(answers, "{taken}, ")?,
            Err(err) => write!(answers, "{err}, ")?,
        }
    }
    Ok(answers)
}

/// Pieces that are put on a stream of the system.
fn stream(rt: &HostRuntime, pieces: &[&str]) -> Result<String, NoMem> {
    let alloc = rt.alloc();
    let mut bytes = Vec::<u8>::new(alloc);
    let mut answers = taken(alloc, &mut StdSink::new(rt, &mut bytes), pieces)?;
    answers.push_str(shown(alloc, bytes.as_slice())?.as_str())?;
    Ok(answers)
}

/// A stream into memory that fails so often before each write, in passing.
#[derive(Drop)]
struct Passing<'a> {
    bytes: &'a mut Vec<u8>,
    kind: ErrorKind,
    times: u64,
    left: u64,
}

impl Write for Passing<'_> {
    fn write(&mut self, piece: &[u8]) -> io::Result<usize> {
        if self.left > 0 {
            self.left -= 1;
            return Err(Error::from(self.kind));
        }
        self.left = self.times;
        self.bytes.write(piece)
    }

    fn flush(&mut self) -> io::Result<()> {
        Ok(())
    }
}

/// Pieces that are put on a stream that fails so often before each write, in passing.
fn put_passing(
    rt: &HostRuntime,
    kind: ErrorKind,
    times: u64,
    pieces: &[&str],
) -> Result<String, NoMem> {
    let alloc = rt.alloc();
    let mut bytes = Vec::<u8>::new(alloc);
    let stream = Passing {
        bytes: &mut bytes,
        kind,
        times,
        left: times,
    };
    let mut answers = taken(alloc, &mut StdSink::new(rt, stream), pieces)?;
    answers.push_str(shown(alloc, bytes.as_slice())?.as_str())?;
    Ok(answers)
}

/// Pieces that are put on a stream of the system that has no room.
fn full(rt: &HostRuntime, pieces: &[&str]) -> Result<String, NoMem> {
    let mut none = [0u8; 0];
    let mut answers = taken(rt.alloc(), &mut StdSink::new(rt, &mut none[..]), pieces)?;
    answers.push_str("no room")?;
    Ok(answers)
}

/// What a real file has from some places on, at most two bytes each, after it was read whole on the same shelf.
fn fetched(
    alloc: Global,
    shelf: &mut impl Shelf,
    name: &str,
    places: &[&str],
) -> Result<String, NoMem> {
    let mut answers = shown_read(alloc, read_all(alloc, shelf, name, 70000))?;
    let mut piece = [0u8; 2];
    for place in places {
        answers.push_str(", ")?;
        match shelf.fetch(name, count(place), &mut piece) {
            Ok(read) => answers.push_str(shown(alloc, &piece[..read])?.as_str())?,
            Err(err) => write!(answers, "{err}")?,
        }
    }
    Ok(answers)
}

/// Writes a text to a real file, and tells whether it was written.
fn write_text(rt: &HostRuntime, name: &str, text: &str) -> Result<bool, NoMem> {
    let bytes = text_of(rt.alloc(), text)?;
    Ok(fs::write(rt, name, bytes.as_str()).is_ok())
}

/// What a read of a real file gives.
fn read_real(rt: &HostRuntime, name: &str) -> Result<String, NoMem> {
    let alloc = rt.alloc();
    let read = read_all(alloc, &mut DirShelf::new(alloc, rt), name, 70000);
    shown_read(alloc, read)
}

/// What a real file has from some places on.
fn fetch_real(rt: &HostRuntime, name: &str, places: &[&str]) -> Result<String, NoMem> {
    let alloc = rt.alloc();
    fetched(alloc, &mut DirShelf::new(alloc, rt), name, places)
}

/// What a real file gives when it was removed, if it can be.
fn push_removed(answers: &mut String, rt: &HostRuntime, name: &str) -> Result<(), NoMem> {
    if fs::remove_file(rt, name).is_err() {
        return Ok(());
    }
    answers.push_str(", then ")?;
    Ok(answers.push_str(read_real(rt, name)?.as_str())?)
}

/// A real file with a text, which is read whole and from some places on, and then once more when it isn't there.
fn real_at(rt: &HostRuntime, name: &str, text: &str, places: &[&str]) -> Result<String, NoMem> {
    let written = write_text(rt, name, text)?;
    let mut answers = fetch_real(rt, name, places)?;
    if written {
        push_removed(&mut answers, rt, name)?;
    }
    Ok(answers)
}

/// The same, in a place of its own.
fn real(rt: &HostRuntime, text: &str, places: &[&str]) -> Result<String, NoMem> {
    let name = format!(in rt.alloc(); "/tmp/book_rows-{}", process::id(rt.process()))?;
    real_at(rt, name.as_str(), text, places)
}

/// The answer to a question about files and streams in memory, `?` where it has no such form.
fn of_memory(alloc: Global, parts: &[&str]) -> Result<String, NoMem> {
    match parts {
        ["read", name, limit, failing, files @ ..] => {
            read(alloc, name, count(limit), failing, files)
        }
        ["put", room, pieces @ ..] => put(alloc, count(room), pieces),
        ["put in steps", step, failing, pieces @ ..] => {
            put_in_steps(alloc, count(step), failing, pieces)
        }
        _ => Ok(String::from_str(alloc, "?")?),
    }
}

/// The answer to a question.
fn answer(rt: &HostRuntime, parts: &[&str]) -> Result<String, NoMem> {
    match parts {
        ["stream", pieces @ ..] => stream(rt, pieces),
        ["full stream", pieces @ ..] => full(rt, pieces),
        ["interrupted stream", times, pieces @ ..] => {
            put_passing(rt, ErrorKind::Interrupted, count(times), pieces)
        }
        ["unready stream", times, pieces @ ..] => {
            put_passing(rt, ErrorKind::WouldBlock, count(times), pieces)
        }
        ["real file", text, places @ ..] => real(rt, text, places),
        _ => of_memory(rt.alloc(), parts),
    }
}

/// Puts a row at the end, with its answer in place of the one that is wanted; any other line as it is.
fn push_row(printed: &mut String, rt: &HostRuntime, line: &str) -> Result<(), NoMem> {
    let Some(question) = question_of(line) else {
        return Ok(printed.push_str(line)?);
    };
    let parts: Vec<&str> = question.split('|').collect(rt.alloc())?;
    printed.push_str(question)?;
    printed.push_str(" => ")?;
    Ok(printed.push_str(answer(rt, parts.as_slice())?.as_str())?)
}

/// A text of rows with answers in place of those that are wanted.
pub(crate) fn answered(rt: &HostRuntime, text: &str) -> Result<String, NoMem> {
    let mut printed = String::new(rt.alloc());
    for line in text.lines() {
        push_row(&mut printed, rt, line)?;
        printed.push('\n')?;
    }
    Ok(printed)
}
