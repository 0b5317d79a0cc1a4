//! Elements that must have the same styles.

ghost use Rattle.std.specs.Prelude.{◌≡◌, ◌<◌, ◌∷◌, ◌++◌, [], IfSome, OnOk, length, option_map};
ghost use Rattle.std.specs.Map.{lookup};
ghost use Rattle.indexmap.specs.IndexMap.{insert_entry};
ghost use Rattle.computed.specs.Alike.{IsDeciding, IsLike, deciding_of, found_for, is_same, noted_as};

use bk_num::ids::NodeId;
use bk_num::name::NoMem;
use cascade::table::WinnerTable;
use dom::Dom;
use indexmap::IndexMap;
use std::alloc::Global;
use std::marker::Model;

/// What decides an element's styles: its parent's and what wins for it, each by the number of a node that has the same.
#[derive(Clone, Copy, PartialEq, Eq, Hash)]
pub(crate) struct Deciding {
    parent: u32,
    winners: u32,
}

/// For each node one that has the same styles, itself or one before it; and elements by what decides their styles, of
/// which it is asked for one that may be like another. Contracts see both.
#[derive(Drop)]
pub(crate) struct SameStyles {
    firsts: Vec<u32>,
    known: IndexMap<Deciding, u32>,
}

impl Model for SameStyles {
    ghost use Rattle.computed.specs.Alike.{KeptStyles, kept_of};

    ghost Value = { KeptStyles };

    ghost view = { kept_of };
}

/// The element that was noted for what decides its styles.
fn find(known: &IndexMap<Deciding, u32>, deciding: Deciding) -> Option<u32>
    ensures { result ≡ lookup (is_same deciding) known.now.entries }
{
    match known.get(&deciding) {
        Some(node) => Some(*node),
        None => None,
    }
}

/// Notes an element for what decides its styles, in the place of one that was noted for the same.
fn put(known: &mut IndexMap<Deciding, u32>, deciding: Deciding, node: u32) -> Result<(), NoMem>
    ensures { OnOk result (known.new.entries ≡ insert_entry is_same known.old.entries deciding node) }
{
    match known.insert(deciding, node) {
        Ok(_) => Ok(()),
        Err(_) => Err(NoMem),
    }
}

impl SameStyles {
    pub(crate) fn new(alloc: Global) -> SameStyles
        ensures { result ≡ record { firsts = []; known = [] } }
    {
        SameStyles {
            firsts: Vec::new(alloc),
            known: IndexMap::new(alloc),
        }
    }

    /// What decides the styles of an element below the root.
    fn deciding(&self, dom: &Dom, winners: &WinnerTable, node: NodeId) -> Option<Deciding>
        requires node { node.0 < length dom.now }
        requires count { length winners.now.winners ≡ length dom.now }
        ensures value { result ≡ deciding_of dom.now winners.now self.now.firsts node.0 }
        ensures decides { IfSome result (λ d. IsDeciding dom.now winners.now.winners self.now.firsts node.0 d) }
    {
        if dom.name(node).is_none() {
            return None;
        }
        let parent = *self.firsts.get(dom.parent(node)?.0 as usize)?;
        let winners = winners.first(node).0;
        Some(Deciding { parent, winners })
    }

    /// A node before this one that must have the same styles, if one was noted.
    pub(crate) fn earlier(&self, dom: &Dom, winners: &WinnerTable, node: NodeId) -> Option<NodeId>
        requires node { node.0 < length dom.now }
        requires count { length winners.now.winners ≡ length dom.now }
        ensures found { option_map (λ e. e.0) result ≡ found_for dom.now winners.now self.now node.0 }
        ensures like { IfSome result (λ e. IsLike dom.now winners.now.winners self.now.firsts e.0 node.0) }
    {
        let mine = self.deciding(dom, winners, node)?;
        let earlier = NodeId(find(&self.known, mine)?);
        if earlier.0 >= node.0 {
            return None;
        }
        let others = self.deciding(dom, winners, earlier)?;
        if others.parent == mine.parent && others.winners == mine.winners {
            Some(earlier)
        } else {
            None
        }
    }

    /// Notes a node, which is like an earlier one.
    pub(crate) fn note_like(&mut self, earlier: NodeId) -> Result<(), NoMem>
        ensures firsts { OnOk result (self.new.firsts ≡ self.old.firsts ++ earlier.0 ∷ []) }
        ensures known { self.new.known ≡ self.old.known }
    {
        self.firsts.push(earlier.0)?;
        Ok(())
    }

    /// Notes a node, which is like none before it.
    pub(crate) fn note(
        &mut self,
        dom: &Dom,
        winners: &WinnerTable,
        node: NodeId,
    ) -> Result<(), NoMem>
        requires node { node.0 < length dom.now }
        requires count { length winners.now.winners ≡ length dom.now }
        ensures firsts { OnOk result (self.new.firsts ≡ self.old.firsts ++ node.0 ∷ []) }
        ensures known { OnOk result (self.new.known
            ≡ noted_as (deciding_of dom.now winners.now self.old.firsts node.0) node.0 self.old.known) }
    {
        if let Some(deciding) = self.deciding(dom, winners, node) {
            put(&mut self.known, deciding, node.0)?;
        }
        self.firsts.push(node.0)?;
        Ok(())
    }
}
