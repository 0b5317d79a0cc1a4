//! What is left of notes from page to page.

ghost use Rattle.std.specs.Prelude.{◌≡◌, ◌==◌, ◌<◌, ◌≤◌, ◌∷◌, ◌++◌, [], Some, List, length, slice_get, All, OnOk};
ghost use Rattle.boxes.specs.declared.flow.Note.{Note};
ghost use Rattle.note_list.specs.Calls.{start_place};
ghost use Rattle.note_list.specs.declared.carried.Carried.{Carried};

use bk_num::name::NoMem;
use boxes::flow::Flow;
use boxes::place::Position;
use boxes::tree::BoxTree;
use std::alloc::Global;
use std::collections::VecDeque;
use std::marker::Model;

/// What is left of a note that a page didn't place whole: its number, and where it goes on in its body.
#[derive(Clone, Copy, Debug, PartialEq, Eq)]
pub struct Carried {
    pub note: u32,
    pub at: Position,
}

/// All of a note.
pub(crate) fn whole(note: u32) -> Carried
    ensures { result ≡ record { note = note; at = start_place } }
{
    Carried {
        note,
        at: Position {
            event: 0,
            offset: 0,
        },
    }
}

/// The body of a note.
pub(crate) fn body_of(flow: &Flow, note: u32) -> &BoxTree
    requires { note < length flow.now.notes }
    ensures { (n : Note) → slice_get flow.now.notes note ≡ Some n → result.now ≡ n.body }
{
    &flow.notes.as_slice()[note as usize].body
}

/// What is left of notes, in the order of their calls. Contracts see the list. A page takes from its front and adds at
/// its end, and moves nothing that stands between.
#[derive(Drop)]
pub struct CarriedNotes {
    parts: VecDeque<Carried>,
}

impl Model for CarriedNotes {
    ghost use Rattle.std.specs.Prelude.{List};
    ghost use Rattle.note_list.specs.declared.carried.Carried.{Carried};

    ghost Value = { List Carried };

    ghost view = { λ c. c.parts.items };
}

impl CarriedNotes {
    /// Nothing. It takes no memory.
    pub fn new(alloc: Global) -> CarriedNotes
        ensures { result ≡ [] }
    {
        CarriedNotes {
            parts: VecDeque::new(alloc),
        }
    }

    /// Whether nothing is left.
    pub fn is_empty(&self) -> bool
        ensures { result ≡ (length self.now == 0) }
    {
        self.parts.is_empty()
    }

    /// Of how many notes something is left.
    pub fn len(&self) -> usize
        ensures { result ≡ length self.now }
    {
        self.parts.len()
    }

    /// What is left of the note at a place of the list, which counts from 0.
    pub fn part(&self, at: usize) -> Carried
        requires { at < length self.now }
        ensures { slice_get self.now at ≡ Some result }
    {
        self.parts[at]
    }

    /// What is left of the first note.
    fn first(&self) -> Option<Carried>
        ensures { result ≡ slice_get self.now 0 }
    {
        self.parts.front().copied()
    }

    /// Adds what is left of a note before all others.
    pub(crate) fn push_front(&mut self, part: Carried) -> Result<(), NoMem>
        ensures { OnOk result (self.new ≡ part ∷ self.old) }
    {
        self.parts.push_front(part)?;
        Ok(())
    }

    /// Adds what is left of a note after all others.
    pub(crate) fn push_back(&mut self, part: Carried) -> Result<(), NoMem>
        ensures { OnOk result (self.new ≡ self.old ++ part ∷ []) }
    {
        self.parts.push_back(part)?;
        Ok(())
    }

    /// Takes away the notes that stand first and whose numbers are below one.
    pub(crate) fn drop_below(&mut self, next: u32)
        ensures below { (below : List Carried) × (self.old ≡ below ++ self.new) × All (λ c. c.note < next) below }
        ensures first { (c : Carried) → slice_get self.new 0 ≡ Some c → next ≤ c.note }
    {
        while let Some(part) = self.first() {
            if part.note >= next {
                return;
            }
            self.parts.pop_front();
        }
    }
}
