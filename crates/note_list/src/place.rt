//! What a page places of its list of notes.

ghost use Rattle.std.specs.Prelude.{◌≡◌, ℤ, List, Some, ◌-◌, ◌<◌, ◌≤◌};
ghost use Rattle.std.specs.Prelude.{◌≤ℤ◌, ◌++◌, All, length, max, min, slice_get, take, IfOk};
ghost use Rattle.bk_num.specs.Limits.{most_entries, separator};
ghost use Rattle.cuts.specs.Areas.{cut_number};
ghost use Rattle.metrics.specs.Face.{FontFace};
ghost use Rattle.notes.specs.Near.{IsNearSolid};
ghost use Rattle.note_list.specs.Conditions.{IsAtSolid, IsHeld, NotesAscend};
ghost use Rattle.note_list.specs.Lists.{AreNoted, called_parts, carried_parts, placed_notes, note_rows};
ghost use Rattle.note_list.specs.Places.{CanPlace, IsFront, IsPlacing, least_of};
ghost use Rattle.note_list.specs.Reads.{IsReadFor};
ghost use Rattle.note_list.specs.declared.solid.NotedSolid.{NotedSolid};
ghost use Rattle.notes.specs.Notes.{IsCarryCount, IsPlaced, IsSmallNote, area_of, must_of};

use crate::carried::CarriedNotes;
use crate::left::left_after;
use crate::list::{NoteList, NoteRoom, PlacedList};
use crate::solid::{NotedSolid, note_rows};
use bk_num::items::Items;
use bk_num::limits::SEPARATOR;
use bk_num::name::NoMem;
use boxes::flow::Flow;
use boxes::page::{Placed, PlacedNote};
use cuts::cut::CutLevel;
use notes::area::{must, placed};
use notes::reach::Reach;
use std::alloc::Global;

/// How many solids, before the first one of a note from a number on.
fn count_below(solids: &[NotedSolid], to: u32) -> usize
    ensures within { result ≤ length solids.now }
    ensures below { All (λ s. s.note < to) (take result solids.now) }
    ensures stops { (s : NotedSolid) → slice_get solids.now result ≡ Some s → to ≤ s.note }
{
    for at in 0..solids.len() {
        if solids[at].note >= to {
            return at;
        }
    }
    solids.len()
}

/// How many of some solids are carried ones that have to stand, at most all.
fn own_of(own: usize, count: usize) -> usize
    ensures { result ≡ min own count }
{
    if own < count { own } else { count }
}

/// How many solids a page places at least, of which `own` carried ones have to stand on it.
fn least_of(level: CutLevel, must: usize, own: usize) -> usize
    ensures { result ≡ least_of (cut_number level) must own own }
{
    match level {
        CutLevel::Drops(_) => must,
        CutLevel::Loose => own,
        CutLevel::Over => own.min(1),
    }
}

/// How many of some solids are placed, of which `own` carried ones have to stand.
fn number_of(
    alloc: Global,
    solids: &[NotedSolid],
    own: usize,
    room: &NoteRoom,
) -> Result<usize, NoMem>
    requires own { own ≤ length solids.now }
    requires few { length solids.now ≤ most_entries }
    requires small { All IsSmallNote (note_rows solids.now) }
    ensures { IfOk result (λ number.
        IsPlaced (note_rows solids.now)
        (least_of (cut_number room.now.level) (must_of (note_rows solids.now) own) own own)
        room.now.room number) }
{
    let list = note_rows(alloc, solids)?;
    let rows = list.as_slice();
    let least = least_of(room.level, must(rows, own), own);
    Ok(placed(rows, least, room.room))
}

/// A solid at a top, in units of 1/64 px from the top of the note area.
fn place_at(solid: &NotedSolid, top: i64) -> PlacedNote
    ensures { result ≡ (
      solid.now.note,
      record {
        at = solid.now.at;
        end = solid.now.end;
        top = top;
        height = solid.now.row.height;
        kind = solid.now.kind;
      },
    ) }
{
    (
        solid.note,
        Placed {
            at: solid.at,
            end: solid.end,
            top,
            height: solid.row.height,
            kind: solid.kind,
        },
    )
}

fn solid_at(solids: &[NotedSolid], at: usize) -> NotedSolid
    requires at { at < length solids.now }
    requires small { All IsSmallNote (note_rows solids.now) }
    ensures solid { slice_get solids.now at ≡ Some result }
    ensures small { IsSmallNote result.row }
{
    solids[at]
}

/// Solids on their page, one below the other.
fn place_all(alloc: Global, solids: &[NotedSolid]) -> Result<Items<PlacedNote>, NoMem>
    requires few { length solids.now ≤ most_entries }
    requires small { All IsSmallNote (note_rows solids.now) }
    ensures { IfOk result (λ items. items ≡ placed_notes separator solids.now) }
{
    let mut items = Items::of(Vec::with_capacity(alloc, solids.len())?);
    let mut reach = Reach {
        bottom: SEPARATOR,
        extent: SEPARATOR,
    };
    for at in 0..solids.len() {
        let solid = solid_at(solids, at);
        let top = reach.place_note(&solid.row);
        items.push(place_at(&solid, top))?;
    }
    Ok(items)
}

/// The last of some solids.
fn last_of(solids: &[NotedSolid]) -> Option<NotedSolid>
    ensures { result ≡ slice_get solids.now (length solids.now - 1) }
{
    solids.last().copied()
}

impl NoteList {
    /// What a page places of the notes that are carried to it, which go on at solids, and of those that are called on
    /// it, `from` the first and up to `room.to`; later ones may have been read.
    pub fn place(
        &self,
        alloc: Global,
        flow: &Flow,
        carried: CarriedNotes,
        from: u32,
        room: &NoteRoom,
    ) -> Result<PlacedList, NoMem>
        requires { CanPlace flow.now carried from self.now room.now }
        ensures placed { IfOk result (λ p. (faces : List FontFace) (width : ℤ) (own list later : List NotedSolid) →
            AreNoted faces flow.now.notes width (carried_parts carried) own →
            AreNoted faces flow.now.notes width (carried_parts carried ++ called_parts from room.now.to) list →
            All (λ s. room.now.to ≤ s.note) later → IsReadFor room.now.room (list ++ later) self.now →
            IsCarryCount (note_rows own) (length own) room.now.height self.now.own →
            (cut_number room.now.level ≤ 2 →
            area_of (note_rows list) (must_of (note_rows list) self.now.own) ≤ℤ room.now.room) →
            IsPlacing list (cut_number room.now.level) self.now.own (length own) room.now.room p) }
        ensures front { IfOk result (λ p. IsFront self.now.solids.items p.notes) }
        ensures held { IfOk result (λ p. All (IsHeld flow.now.notes) p.left) }
        ensures order { IfOk result (λ p. NotesAscend p.left) }
        ensures below { IfOk result (λ p. All (λ c. c.note < max from room.now.to) p.left) }
        ensures stands { IfOk result (λ p. All (IsAtSolid flow.now.notes) p.left) }
        ensures near { IfOk result (λ p. All (λ n. IsNearSolid n.1) p.notes) }
    {
        let solids = self.solids.as_slice();
        let (read, _) = solids.split_at(count_below(solids, room.to));
        let own = own_of(self.own, read.len());
        let number = number_of(alloc, read, own, room)?;
        let (placed, _) = read.split_at(number);
        Ok(PlacedList {
            notes: place_all(alloc, placed)?,
            left: left_after(flow, carried, from, room.to, last_of(placed))?,
        })
    }
}
