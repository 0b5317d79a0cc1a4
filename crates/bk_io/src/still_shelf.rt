//! Files in memory that are always read.

ghost use Rattle.std.specs.Prelude.{◌≡◌, ◌-◌, ◌<◌, ◌≤◌, length, take, drop, min, IfOk, IfSome, IfNone, slice_index_or, slice_get, Ok, None, Some};
ghost use Rattle.std.specs.Option.{option_map};
ghost use Rattle.bk_io.specs.Memory.{files_in, told_of, fetched};
ghost use Rattle.bk_io.specs.Shelf.{absent, holds, HasFault, IfHolds, Fetches};

use crate::shelf::{FetchErr, Shelf};
use bk_num::name::Name;
use std::marker::Model;

/// Files in memory. Contracts see the list of their names and bytes; the first file of a name counts.
#[derive(Drop)]
pub struct StillShelf {
    files: Vec<(Name, Vec<u8>)>,
}

impl Model for StillShelf {
    ghost use Rattle.bk_io.specs.Memory.{Files, files_in};

    ghost Value = { Files };

    ghost view = { λ s. files_in s.files.items };
}

impl StillShelf {
    /// A shelf of these files. It takes no memory.
    pub fn new(files: Vec<(Name, Vec<u8>)>) -> StillShelf
        ensures { result ≡ files_in files.items }
    {
        StillShelf { files }
    }
}

impl Shelf for StillShelf {
    ghost told = { λ s name. told_of s name };

    ghost faults = { λ _. 0 };

    ghost last_fault = { λ _. None };

    /// Never fails for a name that is there, and takes no memory.
    fn fetch(&mut self, name: &str, from: u64, into: &mut [u8]) -> Result<usize, FetchErr>
        requires { 0 < length into.old }
        ensures bound { IfOk result (λ n. n ≤ length into.new) }
        ensures answers { IfOk result (λ n. IfHolds (told_of self.old name.now)
            (λ file. Fetches file from (take n into.new))) }
        ensures fault { HasFault (told_of self.old name.now) name.now 0 0 None (result ≡ Err FetchErr.Failed) }
        ensures no_memory { result ≡ Err FetchErr.NoMemory → ⊥ }

        ensures told { self.new ≡ self.old }
        ensures given { (file : _) → told_of self.old name.now ≡ holds file →
            result ≡ Ok (fetched (length file) from (length into.old)) }
    {
        match place_of(&self.files, name) {
            None => Err(FetchErr::Failed),
            Some(i) => Ok(copy_from(&self.files[i].1, from, into)),
        }
    }
}

/// The place of the first file of this name.
pub(crate) fn place_of(files: &[(Name, Vec<u8>)], name: &str) -> Option<usize>
    ensures here { IfSome result (λ i. (i < length files.now)
        × ((d : _) → told_of (files_in files.now) name.now ≡ holds (slice_index_or files.now i d).1.items)) }
    ensures named { IfSome result (λ i. option_map (λ f. f.0) (slice_get files.now i) ≡ Some name.now) }
    ensures none { IfNone result (told_of (files_in files.now) name.now ≡ absent) }
{
    for (i, file) in files.iter().enumerate() {
        if file.0.as_str() == name {
            return Some(i);
        }
    }
    None
}

/// Copies what a file has from a place on, as far as there is room.
pub(crate) fn copy_from(file: &[u8], from: u64, into: &mut [u8]) -> usize
    ensures bound { result ≡ fetched (length file.now) from (length into.old) }
    ensures bytes { take result into.new ≡ take result (drop from file.now) }
{
    if from >= file.len() as u64 {
        return 0;
    }
    let rest = &file[from as usize..];
    let count = rest.len().min(into.len());
    into[..count].copy_from_slice(&rest[..count]);
    count
}
