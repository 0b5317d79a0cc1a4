//! The list of a page's notes, read as far as the page can use it.

ghost use Rattle.std.specs.Prelude.{◌≡◌, ℤ, List, ◌≤◌, ◌++◌, [], All, length, IfOk, OnOk};
ghost use Rattle.boxes.specs.Frames.{IsGoodFrame};
ghost use Rattle.cursor.specs.Asks.{KeepsHeld, TakesSteps};
ghost use Rattle.cuts.specs.Areas.{IsArea, Tells};
ghost use Rattle.note_list.specs.Conditions.{CanBePaged, IsHeld};
ghost use Rattle.note_list.specs.Kept.{AreFlowLines, AreHeldNow};
ghost use Rattle.note_list.specs.Lists.{AreNoted, called_parts, note_rows};
ghost use Rattle.note_list.specs.Reads.{EndInNotes, IsCarriedList, IsPageList, IsReadOf, IsReady};
ghost use Rattle.note_list.specs.Known.{StepsForNotes};
ghost use Rattle.note_list.specs.Short.{IsShortList};
ghost use Rattle.note_list.specs.declared.solid.NotedSolid.{NotedSolid};
ghost use Rattle.notes.specs.Notes.{area_of, must_of};

use crate::carried::{CarriedNotes, whole};
use crate::solid::NotedSolid;
use bk_num::items::Items;
use bk_num::name::NoMem;
use bk_num::steps::Steps;
use boxes::flow::Flow;
use boxes::frames::Frame;
use boxes::page::PlacedNote;
use cursor::KeptLines;
use cuts::cut::CutLevel;
use metrics::Faces;
use notes::reach::Reach;
use seams::widths::Widths;
use std::alloc::Global;
use std::sync::ledger::Ledger;

/// The solids of a page's notes, in order, read up to the first one with which their area is above the frame's height,
/// and how far these reach. `own` carried solids have to stand on the page and take `own_area`, and `needed` is the
/// area of the solids read that have to; `begun` tells whether a called note begins after those. Lengths are in units
/// of 1/64 px.
#[derive(Drop)]
pub struct NoteList {
    pub(crate) solids: Vec<NotedSolid>,
    pub(crate) reach: Reach,
    pub(crate) over: bool,
    pub(crate) begun: bool,
    pub(crate) own: usize,
    pub(crate) own_area: i64,
    pub(crate) needed: i64,
}

/// What a page places of its list of notes, and what is carried on.
#[derive(Drop)]
pub struct PlacedList {
    pub notes: Items<PlacedNote>,
    pub left: CarriedNotes,
}

/// How a page is cut, as far as its notes are concerned: its level, the number of the first note that is called after
/// its cut, its frame's height, and the room for the note area, in units of 1/64 px.
#[derive(Clone, Copy, Debug)]
pub struct NoteRoom {
    pub level: CutLevel,
    pub to: u32,
    pub height: i64,
    pub room: i64,
}

impl NoteList {
    /// The list of the notes that are carried to a page of a frame. The widths are those of any boxes, as room to read
    /// with. A line takes a step only where it isn't kept, and is kept from then on.
    pub fn carried<L: Ledger>(
        alloc: Global,
        flow: &Flow,
        faces: &Faces,
        carried: &CarriedNotes,
        frame: Frame,
        widths: &mut Widths,
        lines: &mut KeptLines,
        steps: &mut Steps<L>,
    ) -> Result<NoteList, NoMem>
        requires flow { CanBePaged faces.now flow.now }
        requires frame { IsGoodFrame frame }
        requires carried { All (IsHeld flow.now.notes) carried.now }
        requires kept { AreFlowLines faces.now flow.now lines.old }
        ensures kept { AreFlowLines faces.now flow.now lines.new }
        ensures keeps { KeepsHeld lines.old.kept lines.new.kept }
        ensures takes { IfOk result (λ l. TakesSteps lines.old.kept lines.new.kept steps.old steps.new) }
        ensures now { IfOk result (λ l. AreHeldNow flow.now.notes frame.width lines.new.kept l.solids.items) }
        ensures ready { IfOk result IsReady }
        ensures ends { IfOk result (EndInNotes flow.now.notes) }
        ensures list { IfOk result (λ l. IsCarriedList faces.now flow.now.notes frame carried.now l) }
        ensures short { IfOk result (IsShortList frame.height) }
        ensures lines { IfOk result (λ l. StepsForNotes flow.now.notes frame.width lines.old.kept [] l.solids.items
            steps.old steps.new) }
    {
        let mut list = NoteList::new(alloc);
        list.read_carried(flow, faces, carried, frame, widths, lines, steps)?;
        list.hold(alloc, frame.height)?;
        Ok(list)
    }

    /// Adds the notes from a number up to another, which are called on the page. The widths are those of any boxes.
    pub fn call<L: Ledger>(
        &mut self,
        flow: &Flow,
        faces: &Faces,
        from: u32,
        to: u32,
        frame: Frame,
        widths: &mut Widths,
        lines: &mut KeptLines,
        steps: &mut Steps<L>,
    ) -> Result<(), NoMem>
        requires flow { CanBePaged faces.now flow.now }
        requires frame { IsGoodFrame frame }
        requires within { to ≤ length flow.now.notes }
        requires list { IsPageList flow.now.notes self.old }
        requires kept { AreFlowLines faces.now flow.now lines.old }
        ensures kept { AreFlowLines faces.now flow.now lines.new }
        ensures keeps { KeepsHeld lines.old.kept lines.new.kept }
        ensures takes { OnOk result (TakesSteps lines.old.kept lines.new.kept steps.old steps.new) }
        ensures now { OnOk result
            (AreHeldNow flow.now.notes frame.width lines.old.kept self.old.solids.items →
            AreHeldNow flow.now.notes frame.width lines.new.kept self.new.solids.items) }
        ensures ready { OnOk result (IsReady self.new) }
        ensures ends { OnOk result (EndInNotes flow.now.notes self.new) }
        ensures own { OnOk result (self.new.own ≡ self.old.own) }
        ensures list { OnOk result ((list : List NotedSolid) → IsReadOf frame.height list self.old →
            (more : List NotedSolid) ×
            AreNoted faces.now flow.now.notes frame.width (called_parts from to) more ×
            IsReadOf frame.height (list ++ more) self.new) }
        ensures short { OnOk result (IsShortList frame.height self.old → IsShortList frame.height self.new) }
        ensures lines { OnOk result (StepsForNotes flow.now.notes frame.width lines.old.kept
            self.old.solids.items self.new.solids.items steps.old steps.new) }
    {
        for note in from..to {
            self.read(flow, faces, whole(note), true, frame, widths, lines, steps)?;
        }
        Ok(())
    }

    /// The area of the carried solids that have to stand on the page, in units of 1/64 px.
    pub fn own_area(&self) -> i64
        requires ready { IsReady self.now }
        ensures area { (height : ℤ) (list : List NotedSolid) → IsReadOf height list self.now →
            result ≡ area_of (note_rows list) self.now.own }
        ensures small { IsArea result }
    {
        self.own_area
    }

    /// The area of all solids that have to stand on the page, in units of 1/64 px, or any number above the frame's
    /// height where that area is.
    pub fn needed(&self) -> i64
        requires ready { IsReady self.now }
        ensures told { (height : ℤ) (list : List NotedSolid) → IsReadOf height list self.now →
            Tells height result (area_of (note_rows list) (must_of (note_rows list) self.now.own)) }
        ensures small { IsArea result }
    {
        if self.begun { self.area() } else { self.needed }
    }
}
