//! The notes of a page, while its solids are read.

ghost use Rattle.std.specs.Prelude.{◌≡◌, ◌+◌, ◌≤◌, true, false, ℤ, List, [], ◌∷◌, ◌++◌, IfOk, OnOk, length, All};
ghost use Rattle.bk_num.specs.Limits.{most_entries};
ghost use Rattle.boxes.specs.Frames.{IsGoodFrame};
ghost use Rattle.boxes.specs.Tree.{Holds};
ghost use Rattle.boxes.specs.declared.place.Position.{Position};
ghost use Rattle.cursor.specs.Asks.{KeepsHeld, TakesSteps};
ghost use Rattle.cuts.specs.Areas.{IsArea, area_after};
ghost use Rattle.note_list.specs.Conditions.{AreCarried, CanBePaged};
ghost use Rattle.note_list.specs.declared.carried.Carried.{Carried};
ghost use Rattle.note_list.specs.Kept.{AreFlowLines, AreHeldNow};
ghost use Rattle.note_list.specs.Reads.{IsPageList};
ghost use Rattle.note_list.specs.Known.{StepsForNotes};
ghost use Rattle.note_list.specs.Short.{IsShortList};
ghost use Rattle.fragment.specs.Reads.{AreRead, called_by};

use bk_num::name::NoMem;
use bk_num::steps::Steps;
use boxes::flow::Flow;
use boxes::frames::Frame;
use boxes::place::Position;
use cursor::KeptLines;
use metrics::Faces;
use note_list::calls::{called_before, called_by};
use note_list::carried::CarriedNotes;
use note_list::list::NoteList;
use seams::run::solid_after;
use seams::widths::Widths;
use std::alloc::Global;
use std::sync::ledger::Ledger;

/// Room for the areas after the solids of most pages, so that their list seldom grows.
const AREAS_AT_FIRST: usize = 64;

/// The notes of a page: their list, how many notes are called up to the last solid that is read, and, after each solid,
/// the area of the notes that have to stand on the page where it ends there, in units of 1/64 px.
#[derive(Drop)]
pub(crate) struct PageNotes {
    pub list: NoteList,
    pub called: u32,
    pub areas: Vec<i64>,
}

/// How many notes are called where a page ends with a solid, where the first `called` are.
fn called_with(flow: &Flow, called: u32, end: Position) -> u32
    requires holds { Holds flow.now.main end }
    requires few { length flow.now.notes ≤ most_entries }
    requires called { called ≤ called_by flow.now.main flow.now.notes end }
    ensures { result ≡ called_by flow.now.main flow.now.notes end }
{
    match solid_after(&flow.main, end.event) {
        Some(_) => called_by(flow, called, end),
        None => flow.notes.as_slice().len() as u32,
    }
}

impl PageNotes {
    /// The notes that are carried to a page, before any solid is read.
    pub(crate) fn start<L: Ledger>(
        alloc: Global,
        flow: &Flow,
        faces: &Faces,
        at: Position,
        carried: &CarriedNotes,
        frame: Frame,
        widths: &mut Widths,
        lines: &mut KeptLines,
        steps: &mut Steps<L>,
    ) -> Result<PageNotes, NoMem>
        requires flow { CanBePaged faces.now flow.now }
        requires holds { Holds flow.now.main at }
        requires carried { AreCarried flow.now at carried.now }
        requires frame { IsGoodFrame frame }
        requires kept { AreFlowLines faces.now flow.now lines.old }
        ensures kept { AreFlowLines faces.now flow.now lines.new }
        ensures keeps { KeepsHeld lines.old.kept lines.new.kept }
        ensures takes { IfOk result (λ p. TakesSteps lines.old.kept lines.new.kept steps.old steps.new) }
        ensures now { IfOk result (λ p. AreHeldNow flow.now.notes frame.width lines.new.kept p.list.solids.items) }
        ensures read { IfOk result (AreRead faces.now flow.now frame at carried.now []) }
        ensures short { IfOk result (λ p. IsShortList frame.height p.list) }
        ensures lines { IfOk result (λ p. StepsForNotes flow.now.notes frame.width lines.old.kept []
            p.list.solids.items steps.old steps.new) }
    {
        Ok(PageNotes {
            list: NoteList::carried(alloc, flow, faces, carried, frame, widths, lines, steps)?,
            called: called_before(flow, at),
            areas: Vec::with_capacity(alloc, AREAS_AT_FIRST)?,
        })
    }

    /// Reads the notes that are called in a solid, which ends at a place, or after it where it is the flow's last one.
    pub(crate) fn take<L: Ledger>(
        &mut self,
        flow: &Flow,
        faces: &Faces,
        end: Position,
        frame: Frame,
        widths: &mut Widths,
        lines: &mut KeptLines,
        steps: &mut Steps<L>,
    ) -> Result<(), NoMem>
        requires flow { CanBePaged faces.now flow.now }
        requires holds { Holds flow.now.main end }
        requires frame { IsGoodFrame frame }
        requires list { IsPageList flow.now.notes self.old.list }
        requires called { self.old.called ≤ called_by flow.now.main flow.now.notes end }
        requires kept { AreFlowLines faces.now flow.now lines.old }
        ensures kept { AreFlowLines faces.now flow.now lines.new }
        ensures keeps { KeepsHeld lines.old.kept lines.new.kept }
        ensures takes { OnOk result (TakesSteps lines.old.kept lines.new.kept steps.old steps.new) }
        ensures now { OnOk result
            (AreHeldNow flow.now.notes frame.width lines.old.kept self.old.list.solids.items →
            AreHeldNow flow.now.notes frame.width lines.new.kept self.new.list.solids.items) }
        ensures called { OnOk result (self.new.called ≡ called_by flow.now.main flow.now.notes end) }
        ensures own { OnOk result (self.new.list.own ≡ self.old.list.own) }
        ensures areas { OnOk result ((area : ℤ) × (self.new.areas.items ≡ self.old.areas.items ++ area ∷ [])) }
        ensures read { OnOk result ((at : Position) (carried : List Carried) (ends : List Position) →
            AreRead faces.now flow.now frame at carried ends self.old →
            AreRead faces.now flow.now frame at carried (ends ++ end ∷ []) self.new) }
        ensures short { OnOk result (IsShortList frame.height self.old.list → IsShortList frame.height self.new.list) }
        ensures lines { OnOk result (StepsForNotes flow.now.notes frame.width lines.old.kept
            self.old.list.solids.items self.new.list.solids.items steps.old steps.new) }
    {
        let to = called_with(flow, self.called, end);
        self.list
            .call(flow, faces, self.called, to, frame, widths, lines, steps)?;
        self.called = to;
        if self.areas.push(self.list.needed()).is_err() {
            return Err(NoMem);
        }
        Ok(())
    }

    /// The same where the page's solids end inside its frame with that one. Else no later point has room, whatever is
    /// called before it, and nothing is read.
    pub(crate) fn take_inside<L: Ledger>(
        &mut self,
        inside: bool,
        flow: &Flow,
        faces: &Faces,
        end: Position,
        frame: Frame,
        widths: &mut Widths,
        lines: &mut KeptLines,
        steps: &mut Steps<L>,
    ) -> Result<(), NoMem>
        requires flow { CanBePaged faces.now flow.now }
        requires holds { Holds flow.now.main end }
        requires frame { IsGoodFrame frame }
        requires list { IsPageList flow.now.notes self.old.list }
        requires called { self.old.called ≤ called_by flow.now.main flow.now.notes end }
        requires kept { AreFlowLines faces.now flow.now lines.old }
        ensures kept { AreFlowLines faces.now flow.now lines.new }
        ensures keeps { KeepsHeld lines.old.kept lines.new.kept }
        ensures takes { OnOk result (TakesSteps lines.old.kept lines.new.kept steps.old steps.new) }
        ensures now { OnOk result
            (AreHeldNow flow.now.notes frame.width lines.old.kept self.old.list.solids.items →
            AreHeldNow flow.now.notes frame.width lines.new.kept self.new.list.solids.items) }
        ensures called { OnOk result (self.new.called ≤ called_by flow.now.main flow.now.notes end) }
        ensures own { OnOk result (self.new.list.own ≡ self.old.list.own) }
        ensures areas { OnOk result (inside ≡ true →
            (area : ℤ) × (self.new.areas.items ≡ self.old.areas.items ++ area ∷ [])) }
        ensures read { OnOk result (inside ≡ true → (at : Position) (carried : List Carried) (ends : List Position) →
            AreRead faces.now flow.now frame at carried ends self.old →
            AreRead faces.now flow.now frame at carried (ends ++ end ∷ []) self.new) }
        ensures same { OnOk result (inside ≡ false → self.new ≡ self.old) }
        ensures short { OnOk result (IsShortList frame.height self.old.list → IsShortList frame.height self.new.list) }
        ensures lines { OnOk result (StepsForNotes flow.now.notes frame.width lines.old.kept
            self.old.list.solids.items self.new.list.solids.items steps.old steps.new) }
    {
        if !inside {
            return Ok(());
        }
        self.take(flow, faces, end, frame, widths, lines, steps)
    }

    /// The area of the notes that have to stand on the page where it ends with the last solid with which they are read;
    /// 0 before any.
    pub(crate) fn area(&self) -> i64
        requires { All IsArea self.now.areas.items }
        ensures area { result ≡ area_after self.now.areas.items (length self.now.areas.items) }
        ensures small { IsArea result }
    {
        match self.areas.last() {
            Some(area) => *area,
            None => 0,
        }
    }
}
