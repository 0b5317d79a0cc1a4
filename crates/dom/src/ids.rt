//! The first element of each id.
ghost use Rattle.std.specs.Prelude.{◌≡◌, List, ℕ, Some, true, is_some, OnOk, if◌then◌else◌};
ghost use Rattle.std.specs.Str.{bytes_eq};
ghost use Rattle.indexmap.specs.IndexMap.{get_by_text};
ghost use Rattle.dom.specs.Ids.{first_in};

use bk_num::name::NoMem;
use indexmap::IndexMap;
use std::alloc::Global;

/// Ids with their first elements; an id has none while there is only room for it.
pub(crate) type Ids = IndexMap<String, Option<u32>>;

/// The first element of an id.
pub(crate) fn first(ids: &Ids, id: &str) -> Option<u32>
    ensures { result ≡ first_in ids.now id.now }
{
    match ids.get(id) {
        Some(node) => *node,
        None => None,
    }
}

/// Makes room for an id.
pub(crate) fn make_room(ids: &mut Ids, alloc: Global, id: &str) -> Result<(), NoMem>
    ensures room { OnOk result (is_some (get_by_text ids.new id.now) ≡ true) }
    ensures same { (k : List ℕ) → first_in ids.new k ≡ first_in ids.old k }
{
    if ids.contains_key(id) {
        return Ok(());
    }
    let Ok(key) = String::from_str(alloc, id) else {
        return Err(NoMem);
    };
    if ids.insert(key, None).is_err() {
        return Err(NoMem);
    }
    Ok(())
}

/// Makes an element the first of an id for which there is room.
pub(crate) fn set_first(ids: &mut Ids, id: &str, node: u32)
    requires { is_some (get_by_text ids.old id.now) ≡ true }
    ensures { (k : List ℕ) → first_in ids.new k ≡ (if bytes_eq id.now k then Some node else first_in ids.old k) }
{
    if let Some(first) = ids.get_mut(id) {
        *first = Some(node);
    }
}
