//! The notes of a page after the flow.

ghost use Rattle.std.specs.Prelude.{◌<◌, IfOk, All, None, length, []};
ghost use Rattle.boxes.specs.Frames.{IsGoodFrame};
ghost use Rattle.cursor.specs.Asks.{KeepsHeld, TakesSteps};
ghost use Rattle.note_list.specs.Conditions.{AreCarried, CanBePaged, IsAtSolid};
ghost use Rattle.note_list.specs.Kept.{AreFlowLines, NotesHeldNow};
ghost use Rattle.page_list.specs.Cuts.{IsNotesCut, place_after};
ghost use Rattle.page_list.specs.Looked.{LooksAtNotes};
ghost use Rattle.page_list.specs.Pages.{AreNear};

use bk_num::name::NoMem;
use bk_num::steps::Steps;
use boxes::flow::Flow;
use boxes::frames::Frame;
use cursor::KeptLines;
use cuts::cut::CutLevel;
use metrics::Faces;
use note_list::carried::CarriedNotes;
use note_list::list::{NoteList, NoteRoom, PlacedList};
use seams::widths::Widths;
use std::alloc::Global;
use std::sync::ledger::Ledger;

/// What a page of notes after the flow places of what is carried to it, and what is left: the greatest number of solids
/// that fits, at least one. It takes no more steps than such a page may look at lines that aren't held. The widths are
/// those of any boxes, as room to read with.
pub fn next_notes<L: Ledger>(
    alloc: Global,
    flow: &Flow,
    faces: &Faces,
    carried: CarriedNotes,
    frame: Frame,
    widths: &mut Widths,
    lines: &mut KeptLines,
    steps: &mut Steps<L>,
) -> Result<PlacedList, NoMem>
    requires flow { CanBePaged faces.now flow.now }
    requires carried { AreCarried flow.now (place_after flow.now.main None) carried }
    requires stands { All (IsAtSolid flow.now.notes) carried }
    requires some { 0 < length carried }
    requires frame { IsGoodFrame frame }
    requires kept { AreFlowLines faces.now flow.now lines.old }
    ensures kept { AreFlowLines faces.now flow.now lines.new }
    ensures keeps { KeepsHeld lines.old.kept lines.new.kept }
    ensures takes { IfOk result (λ p. TakesSteps lines.old.kept lines.new.kept steps.old steps.new) }
    ensures now { IfOk result (λ p. NotesHeldNow flow.now.notes frame.width lines.new.kept p.notes) }
    ensures cut { IfOk result (λ p. IsNotesCut faces.now flow.now frame carried p.notes p.left) }
    ensures carried { IfOk result (λ p. AreCarried flow.now (place_after flow.now.main None) p.left) }
    ensures stands { IfOk result (λ p. All (IsAtSolid flow.now.notes) p.left) }
    ensures near { IfOk result (λ p. AreNear [] p.notes) }
    ensures lines { IfOk result (λ p. LooksAtNotes faces.now flow.now frame carried lines.old.kept steps.old
        steps.new) }
{
    let list = NoteList::carried(alloc, flow, faces, &carried, frame, widths, lines, steps)?;
    let all = flow.notes.as_slice().len() as u32;
    let room = NoteRoom {
        level: CutLevel::Over,
        to: all,
        height: frame.height,
        room: frame.height,
    };
    list.place(alloc, flow, carried, all, &room)
}
