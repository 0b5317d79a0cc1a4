//! The real files, by their paths. What they hold is trusted, not proved.

ghost use Rattle.std.specs.Prelude.{◌≡◌, ◌≤◌, length, IfOk, None};
ghost use Rattle.bk_io.specs.Shelf.{untold};

use crate::retry::{MOST_TRIES, is_passing, pause};
use crate::shelf::{FetchErr, Shelf};
use bk_num::name::Name;
use std::alloc::Global;
use std::fs;
use std::io::{Read, Seek, SeekFrom};
use std::rt::Files;
use std::time::Clock;

/// The files of the system. It tells nothing of their bytes.
#[derive(Drop)]
pub struct DirShelf<'a, R: Files + Clock> {
    alloc: Global,
    runtime: &'a R,
    opened: Option<Opened<R::File>>,
    faults: u64,
}

/// The file that the last fetch read, and where it left off, so that a pipe can be read on.
#[derive(Drop)]
struct Opened<F> {
    name: Name,
    file: F,
    at: u64,
}

impl<'a, R: Files + Clock> DirShelf<'a, R> {
    /// The files that this runtime opens. It takes no memory.
    pub fn new(alloc: Global, runtime: &'a R) -> DirShelf<'a, R> {
        DirShelf {
            alloc,
            runtime,
            opened: None,
            faults: 0,
        }
    }

    /// Opens a file at a place.
    fn open(&self, name: &str, from: u64) -> Result<Opened<R::File>, FetchErr> {
        let owned = match Name::new(self.alloc, name) {
            Ok(owned) => owned,
            Err(_) => return Err(FetchErr::NoMemory),
        };
        let Ok(mut file) = fs::open(self.runtime, name) else {
            return Err(FetchErr::Failed);
        };
        if from > 0 && file.seek(SeekFrom::Start(from)).is_err() {
            return Err(FetchErr::Failed);
        }
        Ok(Opened {
            name: owned,
            file,
            at: from,
        })
    }

    /// The file that the last fetch read, where it left off there. Another one is closed.
    fn left_off(&mut self, name: &str, from: u64) -> Option<Opened<R::File>>
        ensures { self.new.faults ≡ self.old.faults }
    {
        self.opened
            .take()
            .filter(|opened| opened.at == from && opened.name.as_str() == name)
    }

    /// Reads once. A read that a signal interrupts or that would have to wait is made again, up to 6,000 times.
    fn read_file(&self, file: &mut R::File, into: &mut [u8]) -> Result<usize, FetchErr>
        ensures { IfOk result (λ n. n ≤ length into.new) }
    {
        for _ in 0..MOST_TRIES {
            match file.read(into) {
                Ok(count) => return Ok(count),
                Err(e) if is_passing(e.kind()) => pause(self.runtime, e.kind()),
                Err(_) => break,
            }
        }
        Err(FetchErr::Failed)
    }

    /// Reads on where the last fetch left off, or opens the file, once the last one is closed.
    fn read(&mut self, name: &str, from: u64, into: &mut [u8]) -> Result<usize, FetchErr>
        ensures bound { IfOk result (λ n. n ≤ length into.new) }
        ensures faults { self.new.faults ≡ self.old.faults }
    {
        let mut opened = match self.left_off(name, from) {
            Some(opened) => opened,
            None => self.open(name, from)?,
        };
        let count = self.read_file(&mut opened.file, into)?;
        opened.at = from.saturating_add(count as u64);
        self.opened = Some(opened);
        Ok(count)
    }
}

impl<R: Files + Clock> Shelf for DirShelf<'_, R> {
    ghost told = { λ _ _. untold };

    ghost faults = { λ s. s.faults };

    ghost last_fault = { λ _. None };

    fn fetch(&mut self, name: &str, from: u64, into: &mut [u8]) -> Result<usize, FetchErr> {
        let read = self.read(name, from, into);
        if let Err(FetchErr::Failed) = read {
            self.faults = self.faults.saturating_add(1);
        }
        read
    }
}
