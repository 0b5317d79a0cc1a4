//! Names, each kept once and known by its number.
ghost use Rattle.std.specs.Prelude.{◌≡◌, ◌<◌, Some, slice_get, length, position, IfOk, OnOk, OnErr};
ghost use Rattle.std.specs.Str.{bytes_eq};
ghost use Rattle.bk_num.specs.Names.{with_name};
ghost use Rattle.dom.specs.NameLists.{place_of, AreOnce};

use bk_num::name::NoMem;
use indexmap::IndexSet;
use std::alloc::Global;
use std::marker::Model;

/// The most names.
const MOST: usize = 0xFFFF_FFFF;

/// Names in the order of their first use, none twice. Contracts see the list.
#[derive(Drop)]
pub(crate) struct Names {
    set: IndexSet<String>,
}

impl Model for Names {
    ghost use Rattle.std.specs.Prelude.{List, ℕ};

    ghost Value = { List (List ℕ) };

    ghost use Rattle.dom.specs.NameFields.{names_of, AreSoundNames};

    ghost view = { names_of };

    ghost invariant = { AreSoundNames };
}

impl Names {
    pub(crate) fn new(alloc: Global) -> Names {
        Names {
            set: IndexSet::new(alloc),
        }
    }

    /// The number of a name, if it was used.
    pub(crate) fn number(&self, name: &str) -> Option<u32>
        ensures number { result ≡ position (bytes_eq name.now) self.now }
        ensures once { AreOnce self.now }
    {
        match self.set.get_index_of(name) {
            Some(index) => Some(index as u32),
            None => None,
        }
    }

    /// The number of a name, which is a new one where the name was not used.
    pub(crate) fn intern(&mut self, alloc: Global, name: &str) -> Result<u32, NoMem>
        ensures names { OnOk result (self.new ≡ with_name self.old name.now) }
        ensures number { IfOk result (λ n. n ≡ place_of self.old name.now) }
        ensures err { OnErr result (self.new ≡ self.old) }
        ensures once { AreOnce self.old }
    {
        if let Some(number) = self.number(name) {
            return Ok(number);
        }
        let number = self.set.len();
        if number >= MOST {
            return Err(NoMem);
        }
        let Ok(key) = String::from_str(alloc, name) else {
            return Err(NoMem);
        };
        if self.set.insert(key).is_err() {
            return Err(NoMem);
        }
        Ok(number as u32)
    }

    /// The name of a number.
    pub(crate) fn get(&self, number: u32) -> &str
        requires { number < length self.now }
        ensures { slice_get self.now number ≡ Some result.now }
    {
        match self.set.get_index(number as usize) {
            Some(name) => name.as_str(),
            None => "",
        }
    }
}
