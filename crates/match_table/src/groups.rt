//! Groups of equal selectors, so that each is matched once.

ghost use Rattle.std.specs.Prelude.{◌≡◌, ◌<◌, ◌++◌, ◌∷◌, [], Some, get_or, length, map, slice_get, slice_set, IfOk, IfSome, OnOk};
ghost use Rattle.match_table.specs.Groups as spec;

use crate::fingerprint::fingerprint;
use crate::same::is_same;
use bk_num::items::Items;
use bk_num::name::NoMem;
use indexmap::IndexMap;
use selectors::types::Selector;
use std::alloc::Global;

/// Groups of equal selectors: the first of each, and the places of all in it. A group is found by the fingerprint of
/// its selectors. Where unequal selectors have one fingerprint, only the last group of them is found, so that equal
/// ones may be in several groups.
#[derive(Drop)]
pub(crate) struct Groups<'s> {
    pub(crate) firsts: Vec<&'s Selector>,
    places: Vec<Items<u32>>,
    numbers: IndexMap<u64, u32>,
}

/// A list of one place.
fn one_place(alloc: Global, place: u32) -> Result<Items<u32>, NoMem>
    ensures { IfOk result (λ v. v ≡ place ∷ []) }
{
    let mut places = Items::new(alloc);
    places.push(place)?;
    Ok(places)
}

impl<'s> Groups<'s> {
    fn new(alloc: Global) -> Groups<'s>
        ensures firsts { result.firsts.items ≡ [] }
        ensures places { result.places.items ≡ [] }
    {
        Groups {
            firsts: Vec::new(alloc),
            places: Vec::new(alloc),
            numbers: IndexMap::new(alloc),
        }
    }

    /// A group whose selectors are equal to this one, if its fingerprint leads to one.
    fn find(&self, selector: &Selector, print: u64) -> Option<usize>
        ensures within { IfSome result (λ g. g < length self.now.firsts.items) }
        ensures same { IfSome result (λ g. slice_get (map (λ s. s.now) self.now.firsts.items) g ≡ Some selector.now) }
    {
        let number = *self.numbers.get(&print)? as usize;
        if number < self.firsts.len() && is_same(self.firsts[number], selector) {
            Some(number)
        } else {
            None
        }
    }

    /// Puts a place into a group.
    fn join(&mut self, group: usize, place: u32) -> Result<(), NoMem>
        requires { group < length self.old.places.items }
        ensures firsts { self.new.firsts.items ≡ self.old.firsts.items }
        ensures places { OnOk result (self.new.places.items ≡ slice_set self.old.places.items group
            (get_or self.old.places.items group [] ++ place ∷ [])) }
    {
        self.places[group].push(place)
    }

    /// Notes the number of the next group by a fingerprint.
    fn note(&mut self, print: u64) -> Result<(), NoMem>
        ensures firsts { self.new.firsts ≡ self.old.firsts }
        ensures places { self.new.places ≡ self.old.places }
    {
        let Ok(number) = u32::try_from(self.firsts.len()) else {
            return Err(NoMem);
        };
        match self.numbers.insert(print, number) {
            Ok(_) => Ok(()),
            Err(_) => Err(NoMem),
        }
    }

    /// Makes a group of one selector.
    fn start(
        &mut self,
        alloc: Global,
        selector: &'s Selector,
        place: u32,
        print: u64,
    ) -> Result<(), NoMem>
        ensures firsts { OnOk result (map (λ s. s.now) self.new.firsts.items ≡
            map (λ s. s.now) self.old.firsts.items ++ selector.entry.now ∷ []) }
        ensures places { OnOk result (self.new.places.items ≡ self.old.places.items ++ (place ∷ []) ∷ []) }
    {
        self.note(print)?;
        self.firsts.push(selector)?;
        self.places.push(one_place(alloc, place)?)?;
        Ok(())
    }

    /// Puts the place of a selector into the group of those that are equal to it, or into a new one.
    fn add(&mut self, alloc: Global, selector: &'s Selector, place: u32) -> Result<(), NoMem>
        requires { length self.old.places.items ≡ length self.old.firsts.items }
        ensures { OnOk result (spec.IsAdded selector.entry.now place (map (λ s. s.now) self.old.firsts.items)
            self.old.places.items (map (λ s. s.now) self.new.firsts.items) self.new.places.items) }
    {
        let print = fingerprint(selector);
        match self.find(selector, print) {
            Some(group) => self.join(group, place),
            None => self.start(alloc, selector, place, print),
        }
    }

    /// For each group the places of its selectors. It takes no memory.
    pub(crate) fn into_places(self) -> Vec<Items<u32>>
        ensures { result.items ≡ self.entry.places.items }
    {
        let Groups { places, .. } = self;
        places
    }
}

/// The groups of equal selectors.
pub(crate) fn groups_of<'s>(alloc: Global, selectors: &[&'s Selector]) -> Result<Groups<'s>, NoMem>
    ensures { IfOk result (λ g. spec.AreGrouped (map (λ s. s.now) selectors.now) (length selectors.now)
        (map (λ s. s.now) g.firsts.items) g.places.items) }
{
    let Ok(count) = u32::try_from(selectors.len()) else {
        return Err(NoMem);
    };
    let mut groups = Groups::new(alloc);
    for place in 0..count {
        groups.add(alloc, selectors[place as usize], place)?;
    }
    Ok(groups)
}
