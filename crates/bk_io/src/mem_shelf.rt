//! Files in memory that fail to be read at listed calls.

ghost use Rattle.std.specs.Prelude.{◌≡◌, ◌+◌, ◌-◌, ◌^◌, ◌<◌, ◌≤◌, length, take, min, IfOk, Contains, Ok, None};
ghost use Rattle.bk_io.specs.Memory.{files_in, told_of, fetched, HasFaultMore, HasSameFaults};
ghost use Rattle.bk_io.specs.Shelf.{absent, holds, HasFault, IfHolds, Fetches};

use crate::shelf::{FetchErr, Shelf};
use crate::still_shelf::{copy_from, place_of};
use bk_num::name::Name;
use std::marker::Model;

/// Files in memory, of which the listed calls, counted from 1, fail where their name is there.
#[derive(Drop)]
pub struct MemShelf {
    files: Vec<(Name, Vec<u8>)>,
    fail: Vec<u64>,
    calls: u64,
    faults: u64,
    last: Option<usize>,
}

impl Model for MemShelf {
    ghost use Rattle.bk_io.specs.Memory.{Failing};

    ghost Value = { Failing };

    ghost use Rattle.bk_io.specs.MemShelfFields.{failing_of};

    ghost view = { failing_of };
}

impl MemShelf {
    /// A shelf of these files. It takes no memory.
    pub fn new(files: Vec<(Name, Vec<u8>)>, fail: Vec<u64>) -> MemShelf
        ensures { result ≡ record {
          files = files_in files.items;
          fail = fail.items;
          calls = 0;
          faults = 0;
          last = None;
        } }
    {
        MemShelf {
            files,
            fail,
            calls: 0,
            faults: 0,
            last: None,
        }
    }
}

impl Shelf for MemShelf {
    ghost told = { λ s name. told_of s.files name };

    ghost faults = { λ s. s.faults };

    ghost last_fault = { λ s. s.last };

    /// Fails exactly at the listed calls for names that are there, and for absent names. It takes no memory.
    fn fetch(&mut self, name: &str, from: u64, into: &mut [u8]) -> Result<usize, FetchErr>
        requires { 0 < length into.old }
        ensures bound { IfOk result (λ n. n ≤ length into.new) }
        ensures answers { IfOk result (λ n. IfHolds (told_of self.old.files name.now)
            (λ file. Fetches file from (take n into.new))) }
        ensures fault { HasFault
            (told_of self.old.files name.now) name.now self.old.faults self.new.faults self.new.last
            (result ≡ Err FetchErr.Failed) }
        ensures no_memory { result ≡ Err FetchErr.NoMemory → ⊥ }

        ensures told { (self.new.files ≡ self.old.files) × (self.new.fail ≡ self.old.fail) }
        ensures calls { self.new.calls ≡ min (self.old.calls + 1) (2 ^ 64 - 1) }
        ensures given { (file : _) → told_of self.old.files name.now ≡ holds file →
            ¬ (Contains self.old.fail self.new.calls) → result ≡ Ok (fetched (length file) from (length into.old)) }
        ensures listed { (file : _) → told_of self.old.files name.now ≡ holds file →
            Contains self.old.fail self.new.calls → result ≡ Err FetchErr.Failed }
        ensures counted { (file : _) → told_of self.old.files name.now ≡ holds file →
            Contains self.old.fail self.new.calls → HasFaultMore self.old self.new name.now }
        ensures read { IfOk result (λ _. HasSameFaults self.old self.new) }
        ensures absent { told_of self.old.files name.now ≡ absent → HasSameFaults self.old self.new }
    {
        self.calls = self.calls.saturating_add(1);
        let Some(i) = place_of(&self.files, name) else {
            return Err(FetchErr::Failed);
        };
        if self.fail.contains(&self.calls) {
            self.faults = self.faults.saturating_add(1);
            self.last = Some(i);
            return Err(FetchErr::Failed);
        }
        Ok(copy_from(&self.files[i].1, from, into))
    }
}
