//! The solids of a page's notes.

ghost use Rattle.std.specs.Prelude.{◌≡◌, true, false, Some, slice_get, IfOk};
ghost use Rattle.boxes.specs.Tree.{Tree};
ghost use Rattle.cursor.specs.Fields.{solid_view};
ghost use Rattle.cursor.specs.Remainder.{IsSmallSolid};
ghost use Rattle.note_list.specs.Lists.{is_first, noted, note_rows};
ghost use Rattle.notes.specs.Notes.{IsSmallNote};
ghost use Rattle.seams.specs.Runs.{is_solid_at, solid_after};

use crate::carried::Carried;
use bk_num::name::NoMem;
use boxes::page::SolidKind;
use boxes::place::Position;
use cursor::Solid;
use notes::solid::NoteSolid;
use std::alloc::Global;

/// A line or an edge of a note in a page's list: where it stands in the note's body, and the gap above it with its
/// height, in units of 1/64 px.
#[derive(Clone, Copy, Debug, PartialEq, Eq)]
pub struct NotedSolid {
    pub note: u32,
    pub at: Position,
    pub end: Position,
    pub kind: SolidKind,
    pub row: NoteSolid,
}

/// Whether the first solid of a body is at an event.
fn is_at(first: Option<u32>, event: u32) -> bool
    ensures hit { result ≡ true → first ≡ Some event }
    ensures miss { result ≡ false → ¬ (first ≡ Some event) }
{
    first == Some(event)
}

/// Whether a solid is the first one of a body, whose first solid is at an event.
pub(crate) fn is_first(first: Option<u32>, at: Position) -> bool
    ensures { (body : Tree) → first ≡ solid_after body 0 →
        is_solid_at body.boxes (slice_get body.events at.event) ≡ true → result ≡ is_first body at }
{
    at.offset == 0 && is_at(first, at.event)
}

/// A solid of a part of a note, as the list of a page has it.
pub(crate) fn noted(part: Carried, called: bool, first: bool, solid: &Solid<'_>) -> NotedSolid
    requires { IsSmallSolid (solid_view solid.now) }
    ensures solid { (body : Tree) → first ≡ is_first body solid.now.placed_at →
        result ≡ noted body (record { note = part.note; at = part.at; called = called }) (solid_view solid.now) }
    ensures end { result.end ≡ solid.now.end }
    ensures note { result.note ≡ part.note }
    ensures small { IsSmallNote result.row }
{
    NotedSolid {
        note: part.note,
        at: solid.placed_at,
        end: solid.end,
        kind: solid.kind,
        row: NoteSolid {
            gap: if first { 0 } else { solid.seam.whole_gap },
            height: solid.height,
            begins: called && first,
        },
    }
}

/// The gaps and heights of solids.
pub(crate) fn note_rows(alloc: Global, solids: &[NotedSolid]) -> Result<Vec<NoteSolid>, NoMem>
    ensures { IfOk result (λ v. v.items ≡ note_rows solids.now) }
{
    Ok(solids.iter().map(|solid| solid.row).collect(alloc)?)
}
