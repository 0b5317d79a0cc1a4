//! Places by the numbers of leaves.

ghost use Rattle.std.specs.Prelude.{◌≡◌, ◌≤◌, [], Some, ℕ, length, nat_eq, OnOk, OnErr, if◌then◌else◌};
ghost use Rattle.cursor.specs.KeptLines.{LeafAtMeasure, leaf_eq, place_in};
ghost use Rattle.cursor.specs.LeafPlaces.{first_in, goes_first, noted_at};

use bk_num::name::NoMem;
use std::alloc::Global;
use std::collections::HashMap;
use std::marker::Model;

/// A leaf of a tree: the number of the tree among those that are laid out, and that of the leaf in it.
#[derive(Clone, Copy)]
pub struct LeafNumber {
    pub tree: u32,
    pub leaf: u32,
}

/// The place of a leaf at a measure in units.
#[derive(Clone, Copy)]
pub(crate) struct NotedPlace {
    pub measure: i64,
    pub at: u32,
}

/// The place that is noted for the leaf with a number.
fn noted_at(firsts: &[Option<NotedPlace>], leaf: u32) -> Option<NotedPlace>
    ensures { result ≡ noted_at firsts.now leaf }
{
    firsts.get(leaf as usize).copied().flatten()
}

/// The place of a leaf at a measure, among those of the main tree, which has the number 0.
fn first_in(firsts: &[Option<NotedPlace>], number: LeafNumber, measure: i64) -> Option<u32>
    ensures { result ≡ first_in firsts.now (number.tree, number.leaf, measure) }
{
    if number.tree != 0 {
        return None;
    }
    match noted_at(firsts, number.leaf) {
        Some(noted) if noted.measure == measure => Some(noted.at),
        _ => None,
    }
}

/// Whether the place of a leaf at a measure goes among those of the main tree: no other measure of it is there.
fn goes_first(firsts: &[Option<NotedPlace>], number: LeafNumber, measure: i64) -> bool
    ensures { result ≡ goes_first firsts.now (number.tree, number.leaf, measure) }
{
    let is_free = match noted_at(firsts, number.leaf) {
        Some(noted) => noted.measure == measure,
        None => true,
    };
    number.tree == 0 && is_free
}

/// Adds leaves without a place, up to a number of them.
#[tactic(auto, using(crate::proofs::NotedLemmas::padded))]
fn lengthen(firsts: &mut Vec<Option<NotedPlace>>, len: usize) -> Result<(), NoMem>
    ensures long { OnOk result (len ≤ length firsts.new.items) }
    ensures stays { OnOk result ((k : ℕ) → noted_at firsts.new.items k ≡ noted_at firsts.old.items k) }
    ensures same { OnErr result (firsts.new.items ≡ firsts.old.items) }
{
    if len <= firsts.len() {
        return Ok(());
    }
    match firsts.resize(len, None) {
        Ok(()) => Ok(()),
        Err(_) => Err(NoMem),
    }
}

/// Notes a place for the leaf with a number.
fn put(firsts: &mut Vec<Option<NotedPlace>>, leaf: u32, place: NotedPlace) -> Result<(), NoMem>
    ensures put { OnOk result ((k : ℕ) → noted_at firsts.new.items k
        ≡ (if nat_eq k leaf then Some place else noted_at firsts.old.items k)) }
    ensures same { OnErr result (firsts.new.items ≡ firsts.old.items) }
{
    let at = leaf as usize;
    lengthen(firsts, at + 1)?;
    firsts[at] = Some(place);
    Ok(())
}

/// Places that are noted for leaves at measures in units. The main tree has most lines: a leaf of it is found by its
/// number, at the measure that was asked for first. All else is found by a hash. Contracts see the places as a list.
#[derive(Drop)]
pub(crate) struct LeafPlaces {
    firsts: Vec<Option<NotedPlace>>,
    others: HashMap<(u32, u32, i64), u32>,
}

impl Model for LeafPlaces {
    ghost use Rattle.std.specs.Prelude.{◌++◌, List, ℕ};
    ghost use Rattle.cursor.specs.KeptLines.{LeafAtMeasure};
    ghost use Rattle.cursor.specs.LeafPlaces.{entries_from};

    ghost Value = { List (LeafAtMeasure × ℕ) };

    ghost view = { λ p. entries_from 0 p.firsts.items ++ p.others.entries };
}

impl LeafPlaces {
    /// No places. It takes no memory.
    pub fn new(alloc: Global) -> LeafPlaces
        ensures { result ≡ [] }
    {
        LeafPlaces {
            firsts: Vec::new(alloc),
            others: HashMap::new(alloc),
        }
    }

    /// The place of a leaf at a measure, if it is noted.
    pub fn get(&self, number: LeafNumber, measure: i64) -> Option<u32>
        ensures { result ≡ place_in self.now (number.tree, number.leaf, measure) }
    {
        if let Some(at) = first_in(self.firsts.as_slice(), number, measure) {
            return Some(at);
        }
        self.others
            .get(&(number.tree, number.leaf, measure))
            .copied()
    }

    /// Notes the place of a leaf at a measure.
    pub fn note(&mut self, number: LeafNumber, measure: i64, at: u32) -> Result<(), NoMem>
        ensures noted { OnOk result ((q : LeafAtMeasure) → place_in self.new q
            ≡ (if leaf_eq (number.tree, number.leaf, measure) q then Some at else place_in self.old q)) }
        ensures same { OnErr result (self.new ≡ self.old) }
    {
        if goes_first(self.firsts.as_slice(), number, measure) {
            let place = NotedPlace { measure, at };
            return put(&mut self.firsts, number.leaf, place);
        }
        let key = (number.tree, number.leaf, measure);
        let Ok(_) = self.others.insert(key, at) else {
            return Err(NoMem);
        };
        Ok(())
    }

    /// Forgets all places. It takes no memory.
    pub fn clear(&mut self)
        ensures { self.new ≡ [] }
    {
        self.firsts.clear();
        self.others.clear();
    }
}
