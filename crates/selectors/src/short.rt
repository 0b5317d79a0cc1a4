//! Lists that most often have no value, or one.

ghost use Rattle.std.specs.Prelude.{◌≡◌, ◌++◌, ◌∷◌, [], OnErr, OnOk, IfOk};

use bk_num::name::NoMem;
use std::alloc::Global;
use std::marker::Model;

/// A list that takes the room of a pointer where it has no value, and no more than it needs where it has one. Contracts
/// see the list.
#[derive(Drop)]
pub struct Few<T> {
    items: Option<Box<Vec<T>>>,
}

impl<T> Model for Few<T> {
    ghost use Rattle.std.specs.Prelude.{List, []};
    ghost use Rattle.std.specs.Option.{option_map_or};

    ghost Value = { List T };

    ghost view = { λ f. option_map_or (λ b. b.value.items) f.items [] };
}

impl<T> Few<T> {
    /// The list without values. It takes no memory.
    pub fn new() -> Few<T>
        ensures { result ≡ [] }
    {
        Few { items: None }
    }

    /// The values in order.
    pub fn as_slice(&self) -> &[T]
        ensures { result.now ≡ self.now }
    {
        match &self.items {
            Some(items) => items.as_slice(),
            None => &[],
        }
    }
}

impl<T: Drop> Few<T> {
    /// Adds a value at the end. After a refusal the list is as before.
    pub fn push(&mut self, alloc: Global, item: T) -> Result<(), NoMem>
        ensures ok { OnOk result (self.new ≡ self.old ++ item ∷ []) }
        ensures err { OnErr result (self.new ≡ self.old) }
    {
        match &mut self.items {
            Some(items) => match items.push(item) {
                Ok(_) => Ok(()),
                Err(_) => Err(NoMem),
            },
            None => {
                self.items = Some(boxed(alloc, item)?);
                Ok(())
            }
        }
    }
}

/// A list of one value, with room for no more.
fn boxed<T: Drop>(alloc: Global, item: T) -> Result<Box<Vec<T>>, NoMem>
    ensures { IfOk result (λ b. b.value.items ≡ item ∷ []) }
{
    let mut items = Vec::with_capacity(alloc, 1)?;
    items.push(item)?;
    Ok(Box::new(alloc, items)?)
}
