//! The names of pages.

ghost use Rattle.std.specs.Prelude.{◌≡◌, ◌+◌, ◌<◌, ◌≤◌, [], ◌∷◌, IfOk, OnOk, OnErr, Some, option_map, map, length, slice_get};
ghost use Rattle.std.specs.String.{string_bytes, string_eq};
ghost use Rattle.indexmap.specs.IndexSet.{insert_key};
ghost use Rattle.bk_num.specs.Names.{with_name};

use bk_num::ids::NameId;
use bk_num::name::NoMem;
use indexmap::IndexSet;
use std::alloc::Global;
use std::marker::Model;

/// The names of pages, in the order in which they were first seen. Contracts see the list of their texts; the first one
/// is empty, for no name.
#[derive(Drop)]
pub struct Names {
    names: IndexSet<String>,
}

impl Model for Names {
    ghost use Rattle.std.specs.Prelude.{List, ℕ};

    ghost Value = { List (List ℕ) };

    ghost use Rattle.style.specs.PageNames.{texts_of, IsShort};

    ghost view = { texts_of };

    ghost invariant = { IsShort };
}

impl Names {
    /// No name but the empty one.
    pub fn new(alloc: Global) -> Names
        ensures { result ≡ [] ∷ [] }
    {
        Names {
            names: IndexSet::new(alloc),
        }
    }

    /// How many names there are, the empty one among them.
    pub fn len(&self) -> u32
        ensures { result ≡ length self.now }
    {
        self.names.len() as u32 + 1
    }

    /// The text of a name, which is empty for 0; None exactly from `len` on.
    pub fn text(&self, name: NameId) -> Option<&str>
        ensures { option_map (λ s. s.now) result ≡ slice_get self.now name.0 }
    {
        let names = &self.names;
        if name.0 == 0 {
            return Some("");
        }
        match names.get_index(name.0 as usize - 1) {
            Some(text) => Some(text.as_str()),
            None => None,
        }
    }

    /// The number of a name, which is added where it isn't there.
    pub fn number(&mut self, alloc: Global, name: &str) -> Result<NameId, NoMem>
        ensures named { IfOk result (λ n. slice_get self.new n.0 ≡ Some name.now) }
        ensures ok { OnOk result (self.new ≡ with_name self.old name.now) }
        ensures err { OnErr result (self.new ≡ self.old) }
    {
        if self.names.len() >= MOST_NAMES {
            return Err(NoMem);
        }
        if name.is_empty() {
            return Ok(NameId(0));
        }
        let Ok(text) = String::from_str(alloc, name) else {
            return Err(NoMem);
        };
        match insert(&mut self.names, text) {
            Ok(index) => Ok(NameId(index as u32 + 1)),
            Err(_) => Err(NoMem),
        }
    }
}

/// The names but the empty one have numbers of 32 bits.
const MOST_NAMES: usize = 4294967294;

/// The place of a text among the keys, where it is added if it isn't there.
fn insert(names: &mut IndexSet<String>, text: String) -> Result<usize, NoMem>
    ensures at { IfOk result (λ i. slice_get (map (λ s. string_bytes s) names.new.keys) i ≡ Some (string_bytes text)) }
    ensures within { IfOk result (λ i. i < length names.new.keys) }
    ensures keys { OnOk result (names.new.keys ≡ insert_key string_eq names.old.keys text) }
    ensures len { length names.new.keys ≤ length names.old.keys + 1 }
    ensures err { OnErr result (names.new.keys ≡ names.old.keys) }
{
    match names.insert_full(text) {
        Ok((index, _)) => Ok(index),
        Err(_) => Err(NoMem),
    }
}
