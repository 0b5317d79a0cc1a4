//! Assignments by the names of their strings.

ghost use Rattle.std.specs.Prelude.{◌≡◌, List, ℕ, true, is_some, OnOk};
ghost use Rattle.std.specs.Str.{bytes_eq};
ghost use Rattle.indexmap.specs.IndexMap.{get_by_text};
ghost use Rattle.strings.specs.StringFields.{marks_in, with_mark};

use crate::assigned::Mark;
use bk_num::items::Items;
use bk_num::name::NoMem;
use indexmap::IndexMap;
use std::alloc::Global;

/// The assignments of each name, in their order.
pub(crate) type Named = IndexMap<String, Items<Mark>>;

/// The assignments of a name.
pub(crate) fn marks_named<'a>(named: &'a Named, name: &str) -> &'a [Mark]
    ensures { result.now ≡ marks_in named.now name.now }
{
    match named.get(name) {
        Some(marks) => marks.as_slice(),
        None => &[],
    }
}

/// Makes room for a name.
fn make_room(named: &mut Named, alloc: Global, name: &str) -> Result<(), NoMem>
    ensures room { OnOk result (is_some (get_by_text named.new name.now) ≡ true) }
    ensures same { (q : List ℕ) → marks_in named.new q ≡ marks_in named.old q }
{
    if named.contains_key(name) {
        return Ok(());
    }
    let Ok(key) = String::from_str(alloc, name) else {
        return Err(NoMem);
    };
    if named.insert(key, Items::new(alloc)).is_err() {
        return Err(NoMem);
    }
    Ok(())
}

/// Adds an assignment to those of a name for which there is room.
fn push(named: &mut Named, name: &str, mark: Mark) -> Result<(), NoMem>
    requires { is_some (get_by_text named.old name.now) ≡ true }
    ensures { OnOk result ((q : List ℕ) →
        marks_in named.new q ≡ with_mark (marks_in named.old q) mark (bytes_eq name.now q)) }
{
    let Some(marks) = named.get_mut(name) else {
        unreachable!();
    };
    marks.push(mark)?;
    Ok(())
}

/// Adds an assignment to those of its name.
pub(crate) fn add(named: &mut Named, alloc: Global, name: &str, mark: Mark) -> Result<(), NoMem>
    ensures { OnOk result ((q : List ℕ) →
        marks_in named.new q ≡ with_mark (marks_in named.old q) mark (bytes_eq name.now q)) }
{
    make_room(named, alloc, name)?;
    push(named, name, mark)
}
