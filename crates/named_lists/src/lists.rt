//! Lists of values by names: each name is kept once, with the values that were added under it.

ghost use Rattle.std.specs.Prelude.{◌≡◌, ◌<◌, ◌+◌, [], false, OnErr, OnOk, length, map};
ghost use Rattle.std.specs.Str.{bytes_eq};
ghost use Rattle.std.specs.List.{list_any, position};
ghost use Rattle.std.specs.String.{string_bytes};
ghost use Rattle.named_lists.specs.Lists.{items_of, list_at, lists_in, no_lists, with_item, with_item_at, with_new};
ghost use Rattle.bk_num.specs.Names.{with_name};

use bk_num::items::Items;
use bk_num::name::NoMem;
use indexmap::IndexSet;
use std::alloc::Global;
use std::marker::Model;

/// A list of values for each name. Contracts see the names in the order in which they came, and the list of each.
#[derive(Drop)]
pub struct NamedLists<T> {
    names: IndexSet<String>,
    lists: Vec<Items<T>>,
}

impl<T> Model for NamedLists<T> {
    ghost use Rattle.std.specs.Prelude.{◌≡◌, length, map};
    ghost use Rattle.std.specs.String.{string_bytes};
    ghost use Rattle.named_lists.specs.Lists.{ListsOf, lists_in};

    ghost Value = { ListsOf T };

    ghost view = { λ l. lists_in (map (λ k. string_bytes k) l.names.keys) l.lists.items };

    ghost invariant = { λ l. length l.names.keys ≡ length l.lists.items };
}

/// The list of a number.
fn list_at<T>(lists: &[Items<T>], index: Option<usize>) -> &[T]
    ensures { result.now ≡ list_at lists.now index }
{
    let Some(index) = index else {
        return &[];
    };
    match lists.get(index) {
        Some(list) => list.as_slice(),
        None => &[],
    }
}

/// The number of a name in a set.
pub fn number_of(names: &IndexSet<String>, name: &str) -> Option<usize>
    ensures { result ≡ position (bytes_eq name.now) (map (λ k. string_bytes k) names.now.keys) }
{
    names.get_index_of(name)
}

/// Adds a value to the list of a number.
fn push_at<T: Drop>(lists: &mut Vec<Items<T>>, index: usize, item: T) -> Result<(), NoMem>
    requires { index < length lists.old.items }
    ensures ok { OnOk result (lists.new.items ≡ with_item_at lists.old.items index item) }
    ensures len { length lists.new.items ≡ length lists.old.items }
{
    let list = &mut lists[index];
    list.push(item)
}

/// Adds a list of one value.
fn push_list<T: Drop>(alloc: Global, lists: &mut Vec<Items<T>>, item: T) -> Result<(), NoMem>
    ensures ok { OnOk result (lists.new.items ≡ with_new lists.old.items item) }
    ensures err { OnErr result (lists.new.items ≡ lists.old.items) }
{
    let mut list = Items::new(alloc);
    list.push(item)?;
    lists.push(list)?;
    Ok(())
}

/// Adds a name that isn't there.
fn add_name(alloc: Global, names: &mut IndexSet<String>, name: &str) -> Result<(), NoMem>
    requires { list_any (bytes_eq name.now) (map (λ k. string_bytes k) names.old.keys) ≡ false }
    ensures names { OnOk result (map (λ k. string_bytes k) names.new.keys ≡
        with_name (map (λ k. string_bytes k) names.old.keys) name.now) }
    ensures len { OnOk result (length names.new.keys ≡ length names.old.keys + 1) }
    ensures err { OnErr result (names.new.keys ≡ names.old.keys) }
{
    let text = String::from_str(alloc, name)?;
    match names.insert_full(text) {
        Ok(_) => Ok(()),
        Err(_) => Err(NoMem),
    }
}

/// Adds a name that isn't there, with a list of one value.
fn add<T: Drop>(
    alloc: Global,
    names: &mut IndexSet<String>,
    lists: &mut Vec<Items<T>>,
    name: &str,
    item: T,
) -> Result<(), NoMem>
    requires new { list_any (bytes_eq name.now) (map (λ k. string_bytes k) names.old.keys) ≡ false }
    requires len { length names.old.keys ≡ length lists.old.items }
    ensures names { OnOk result (map (λ k. string_bytes k) names.new.keys ≡
        with_name (map (λ k. string_bytes k) names.old.keys) name.now) }
    ensures lists { OnOk result (lists.new.items ≡ with_new lists.old.items item) }
    ensures len { length names.new.keys ≡ length lists.new.items }
{
    push_list(alloc, lists, item)?;
    match add_name(alloc, names, name) {
        Ok(_) => Ok(()),
        Err(_) => {
            lists.pop();
            Err(NoMem)
        }
    }
}

impl<T> NamedLists<T> {
    /// No names.
    pub fn new(alloc: Global) -> NamedLists<T>
        ensures { result ≡ no_lists }
    {
        NamedLists {
            names: IndexSet::new(alloc),
            lists: Vec::new(alloc),
        }
    }

    /// The values of a name in the order in which they were added; none where there is no such name. It costs a look-up
    /// of the name.
    pub fn of(&self, name: &str) -> &[T]
        ensures { result.now ≡ items_of self.now name.now }
    {
        list_at(&self.lists, number_of(&self.names, name))
    }

    /// The names, and the list of each by its name's number. It takes no memory.
    pub fn into_parts(self) -> (IndexSet<String>, Vec<Items<T>>)
        ensures { lists_in (map (λ k. string_bytes k) result.0.keys) result.1.items ≡ self }
    {
        let NamedLists { names, lists } = self;
        (names, lists)
    }
}

impl<T: Drop> NamedLists<T> {
    /// Adds a value under a name, of which a copy is made where it is new. It costs a look-up of the name.
    pub fn push(&mut self, alloc: Global, name: &str, item: T) -> Result<(), NoMem>
        ensures { OnOk result (self.new ≡ with_item self.old (name.now, item)) }
    {
        match number_of(&self.names, name) {
            Some(index) => push_at(&mut self.lists, index, item),
            None => add(alloc, &mut self.names, &mut self.lists, name, item),
        }
    }
}
