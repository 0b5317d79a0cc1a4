//! How the list of a page's notes is read.

ghost use Rattle.std.specs.Prelude.{◌≡◌, ◌+◌, ◌<◌, ◌≤◌, ◌<ℤ◌, ◌≤ℤ◌, ◌++◌, ◌∷◌, [], ◌&&◌, ℤ, List, true, false, Some, is_some, length, slice_get, All, OnOk};
ghost use Rattle.bk_num.specs.Limits.{most_entries};
ghost use Rattle.boxes.specs.Frames.{IsGoodFrame};
ghost use Rattle.boxes.specs.Tree.{Holds};
ghost use Rattle.boxes.specs.declared.flow.Note.{Note};
ghost use Rattle.cursor.specs.Asks.{KeepsHeld, TakesSteps};
ghost use Rattle.cursor.specs.KeptLines.{AreLinesOf, StayPlaced};
ghost use Rattle.cuts.specs.Areas.{IsArea};
ghost use Rattle.line_fill.specs.Kept.{AreKept};
ghost use Rattle.note_list.specs.Calls.{start_place};
ghost use Rattle.note_list.specs.Conditions.{CanBeCut, CanBePaged, IsHeld};
ghost use Rattle.note_list.specs.Kept.{AreFlowLines, AreHeldNow};
ghost use Rattle.note_list.specs.Lists.{AreNoted, carried_parts, note_rows};
ghost use Rattle.note_list.specs.Reads.{CanGrow, EndInNotes, HasReadOn, IsPageList, IsReadOf, IsReady};
ghost use Rattle.note_list.specs.Known.{StepsForNotes};
ghost use Rattle.note_list.specs.Short.{IsShortList};
ghost use Rattle.note_list.specs.declared.solid.NotedSolid.{NotedSolid};
ghost use Rattle.notes.specs.Notes.{IsCarryCount, IsSmallNote, area_of};
ghost use Rattle.seams.specs.Runs.{solid_after};

use crate::carried::{Carried, CarriedNotes, body_of};
use crate::list::NoteList;
use crate::solid::{NotedSolid, is_first, note_rows, noted};
use bk_num::limits::MOST_ENTRIES;
use bk_num::name::NoMem;
use bk_num::steps::Steps;
use boxes::flow::Flow;
use boxes::frames::Frame;
use boxes::tree::BoxTree;
use cursor::{KeptLines, next_solid_kept};
use metrics::Faces;
use notes::area::{area, carry_count, must};
use notes::reach::Reach;
use seams::run::solid_after;
use seams::seam::widths_at;
use seams::widths::Widths;
use std::alloc::Global;
use std::sync::ledger::Ledger;

/// Whether a called note begins with a solid of a body.
fn begins(body: &BoxTree, called: bool) -> bool
    ensures { result ≡ (called && is_some (solid_after body.now 0)) }
{
    called && solid_after(body, 0).is_some()
}

/// The area of the solids that have to stand on a page, with one solid more.
fn needed_with(needed: i64, area: i64, begins: bool) -> i64
    ensures all { begins ≡ true → result ≡ area }
    ensures same { begins ≡ false → result ≡ needed }
{
    if begins { area } else { needed }
}

/// Whether an area is higher than a height.
fn is_above(area: i64, height: i64) -> bool
    ensures above { result ≡ true → height <ℤ area }
    ensures within { result ≡ false → area ≤ℤ height }
{
    area > height
}

impl NoteList {
    /// The list without solids.
    pub(crate) fn new(alloc: Global) -> NoteList
        ensures none { result.solids.items ≡ [] }
        ensures over { result.over ≡ false }
        ensures begun { result.begun ≡ false }
        ensures ready { IsReady result }
    {
        NoteList {
            solids: Vec::new(alloc),
            reach: Reach::START,
            over: false,
            begun: false,
            own: 0,
            own_area: 0,
            needed: 0,
        }
    }

    /// The area of all solids that are read.
    pub(crate) fn area(&self) -> i64
        requires ready { IsReady self.now }
        ensures area { result ≡ area_of (note_rows self.now.solids.items) (length self.now.solids.items) }
        ensures small { IsArea result }
    {
        if self.solids.is_empty() {
            0
        } else {
            self.reach.area()
        }
    }

    /// Whether no solid more may be added: a list has at most 2^26.
    fn is_full(&self) -> bool
        ensures full { result ≡ true → most_entries ≤ length self.now.solids.items }
        ensures room { result ≡ false → length self.now.solids.items < most_entries }
    {
        self.solids.len() >= MOST_ENTRIES as usize
    }

    /// Adds a solid, and tells whether the area of all is above a height then.
    fn add(&mut self, solid: NotedSolid, height: i64) -> Result<(), NoMem>
        requires ready { IsReady self.old }
        requires small { IsSmallNote solid.row }
        ensures ready { OnOk result (IsReady self.new) }
        ensures solids { OnOk result (self.new.solids.items ≡ self.old.solids.items ++ solid ∷ []) }
        ensures over { OnOk result (self.new.over ≡ true →
            height <ℤ area_of (note_rows self.new.solids.items) (length self.new.solids.items)) }
        ensures short { OnOk result (self.old.over ≡ false → IsShortList height self.old →
            IsShortList height self.new) }
        ensures begun { OnOk result (self.new.begun ≡ self.old.begun) }
        ensures own { OnOk result (self.new.own ≡ self.old.own) }
    {
        if self.is_full() {
            return Err(NoMem);
        }
        self.reach.place_note(&solid.row);
        let area = self.reach.area();
        self.needed = needed_with(self.needed, area, solid.row.begins);
        self.over = is_above(area, height);
        self.solids.push(solid)?;
        Ok(())
    }

    /// Reads a note on, from a place of its body, up to the first solid with which the area of all is above a height.
    /// Its lines are kept by the number after its own.
    fn read_body<L: Ledger>(
        &mut self,
        body: &BoxTree,
        faces: &Faces,
        part: Carried,
        called: bool,
        frame: Frame,
        widths: &mut Widths,
        lines: &mut KeptLines,
        steps: &mut Steps<L>,
    ) -> Result<(), NoMem>
        requires body { CanBeCut faces.now body.now }
        requires frame { IsGoodFrame frame }
        requires holds { Holds body.now part.at }
        requires list { CanGrow self.old }
        requires few { part.note < most_entries }
        requires lines { AreLinesOf faces.now (part.note + 1) body.now lines.old }
        ensures kept { AreKept faces.now lines.new.kept }
        ensures placed { StayPlaced (part.note + 1) body.now lines.old lines.new }
        ensures keeps { KeepsHeld lines.old.kept lines.new.kept }
        ensures takes { OnOk result (TakesSteps lines.old.kept lines.new.kept steps.old steps.new) }
        ensures now { OnOk result ((notes : List Note) (note : Note) → slice_get notes part.note ≡ Some note →
            note.body ≡ body.now → AreHeldNow notes frame.width lines.old.kept self.old.solids.items →
            AreHeldNow notes frame.width lines.new.kept self.new.solids.items) }
        ensures ready { OnOk result (IsReady self.new) }
        ensures read { OnOk result (HasReadOn faces.now body.now frame.width frame.height
            (record { note = part.note; at = part.at; called = called }) self.old self.new) }
        ensures begun { OnOk result (self.new.begun ≡ self.old.begun) }
        ensures own { OnOk result (self.new.own ≡ self.old.own) }
        ensures ends { OnOk result ((notes : List Note) (note : Note) → slice_get notes part.note ≡ Some note →
            note.body ≡ body.now →
            EndInNotes notes self.old → EndInNotes notes self.new) }
        ensures short { OnOk result (IsShortList frame.height self.old → IsShortList frame.height self.new) }
        ensures lines { OnOk result ((notes : List Note) (note : Note) → slice_get notes part.note ≡ Some note →
            note.body ≡ body.now → StepsForNotes notes frame.width lines.old.kept self.old.solids.items
            self.new.solids.items steps.old steps.new) }
    {
        let number = part.note + 1;
        let first = solid_after(body, 0);
        widths_at(body, part.at, frame.width, widths);
        let mut at = part.at;
        'solids: loop {
            let Ok(next) = next_solid_kept(
                number,
                body,
                faces,
                at,
                frame.width,
                widths,
                lines,
                steps,
            ) else {
                return Err(NoMem);
            };
            let Some(solid) = next else {
                return Ok(());
            };
            at = solid.end;
            let is_first = is_first(first, solid.placed_at);
            self.add(noted(part, called, is_first, &solid), frame.height)?;
            if self.over {
                return Ok(());
            }
        }
    }

    /// Reads a note on, from a place of its body, as far as the list has room. A called note is read from its start.
    pub(crate) fn read<L: Ledger>(
        &mut self,
        flow: &Flow,
        faces: &Faces,
        part: Carried,
        called: bool,
        frame: Frame,
        widths: &mut Widths,
        lines: &mut KeptLines,
        steps: &mut Steps<L>,
    ) -> Result<(), NoMem>
        requires flow { CanBePaged faces.now flow.now }
        requires frame { IsGoodFrame frame }
        requires held { IsHeld flow.now.notes part }
        requires start { called ≡ true → part.at ≡ start_place }
        requires list { IsPageList flow.now.notes self.old }
        requires kept { AreFlowLines faces.now flow.now lines.old }
        ensures kept { AreFlowLines faces.now flow.now lines.new }
        ensures keeps { KeepsHeld lines.old.kept lines.new.kept }
        ensures takes { OnOk result (TakesSteps lines.old.kept lines.new.kept steps.old steps.new) }
        ensures now { OnOk result
            (AreHeldNow flow.now.notes frame.width lines.old.kept self.old.solids.items →
            AreHeldNow flow.now.notes frame.width lines.new.kept self.new.solids.items) }
        ensures ready { OnOk result (IsReady self.new) }
        ensures ends { OnOk result (EndInNotes flow.now.notes self.new) }
        ensures own { OnOk result (self.new.own ≡ self.old.own) }
        ensures list { OnOk result ((list : List NotedSolid) → IsReadOf frame.height list self.old →
            (more : List NotedSolid) ×
            AreNoted faces.now flow.now.notes frame.width
            (record { note = part.note; at = part.at; called = called } ∷ []) more ×
            IsReadOf frame.height (list ++ more) self.new) }
        ensures short { OnOk result (IsShortList frame.height self.old → IsShortList frame.height self.new) }
        ensures lines { OnOk result (StepsForNotes flow.now.notes frame.width lines.old.kept
            self.old.solids.items self.new.solids.items steps.old steps.new) }
    {
        let body = body_of(flow, part.note);
        if self.over {
            self.begun = begins(body, called) | self.begun;
            return Ok(());
        }
        self.read_body(body, faces, part, called, frame, widths, lines, steps)?;
        Ok(())
    }

    /// Reads what is carried, no further than the list has room.
    pub(crate) fn read_carried<L: Ledger>(
        &mut self,
        flow: &Flow,
        faces: &Faces,
        carried: &CarriedNotes,
        frame: Frame,
        widths: &mut Widths,
        lines: &mut KeptLines,
        steps: &mut Steps<L>,
    ) -> Result<(), NoMem>
        requires flow { CanBePaged faces.now flow.now }
        requires frame { IsGoodFrame frame }
        requires carried { All (IsHeld flow.now.notes) carried.now }
        requires list { IsPageList flow.now.notes self.old }
        requires kept { AreFlowLines faces.now flow.now lines.old }
        ensures kept { AreFlowLines faces.now flow.now lines.new }
        ensures keeps { KeepsHeld lines.old.kept lines.new.kept }
        ensures takes { OnOk result (TakesSteps lines.old.kept lines.new.kept steps.old steps.new) }
        ensures now { OnOk result
            (AreHeldNow flow.now.notes frame.width lines.old.kept self.old.solids.items →
            AreHeldNow flow.now.notes frame.width lines.new.kept self.new.solids.items) }
        ensures ready { OnOk result (IsReady self.new) }
        ensures ends { OnOk result (EndInNotes flow.now.notes self.new) }
        ensures list { OnOk result ((list : List NotedSolid) → IsReadOf frame.height list self.old →
            (more : List NotedSolid) ×
            AreNoted faces.now flow.now.notes frame.width (carried_parts carried.now) more ×
            IsReadOf frame.height (list ++ more) self.new) }
        ensures short { OnOk result (IsShortList frame.height self.old → IsShortList frame.height self.new) }
        ensures lines { OnOk result (StepsForNotes flow.now.notes frame.width lines.old.kept
            self.old.solids.items self.new.solids.items steps.old steps.new) }
    {
        for at in 0..carried.len() {
            if self.over {
                return Ok(());
            }
            self.read(
                flow,
                faces,
                carried.part(at),
                false,
                frame,
                widths,
                lines,
                steps,
            )?;
        }
        Ok(())
    }

    /// Has as many of the solids stand on the page as a page of this height places at least, where all are carried.
    pub(crate) fn hold(&mut self, alloc: Global, height: i64) -> Result<(), NoMem>
        requires ready { IsReady self.old }
        ensures ready { OnOk result (IsReady self.new) }
        ensures counts { OnOk result
            (IsCarryCount (note_rows self.new.solids.items) (length self.new.solids.items) height self.new.own) }
        ensures solids { OnOk result (self.new.solids.items ≡ self.old.solids.items) }
        ensures over { OnOk result (self.new.over ≡ self.old.over) }
        ensures begun { OnOk result (self.new.begun ≡ self.old.begun) }
    {
        let list = note_rows(alloc, self.solids.as_slice())?;
        let rows = list.as_slice();
        self.own = carry_count(rows, rows.len(), height);
        self.own_area = area(rows, self.own);
        self.needed = area(rows, must(rows, self.own));
        Ok(())
    }
}
