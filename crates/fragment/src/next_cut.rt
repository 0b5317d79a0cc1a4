//! The cut of the next page.

ghost use Rattle.std.specs.Prelude.{IfOk, All, ◌≤◌, []};
ghost use Rattle.boxes.specs.Frames.{IsGoodFrame};
ghost use Rattle.boxes.specs.Tree.{Holds};
ghost use Rattle.cursor.specs.Asks.{KeepsHeld, TakesSteps};
ghost use Rattle.fragment.specs.Ahead.{IsAhead};
ghost use Rattle.fragment.specs.Conditions.{BeginsPage};
ghost use Rattle.fragment.specs.Kept.{IsPageHeld};
ghost use Rattle.fragment.specs.Misses.{NoLaterFits};
ghost use Rattle.note_list.specs.Conditions.{AreCarried, CanBePaged, IsAtSolid};
ghost use Rattle.note_list.specs.Kept.{AreFlowLines};
ghost use Rattle.page_list.specs.Cuts.{IsFlowCut};
ghost use Rattle.page_list.specs.Inside.{AreInside};
ghost use Rattle.page_list.specs.Looked.{LooksAtFlow};
ghost use Rattle.page_list.specs.Pages.{AreNear};

use crate::ahead::Ahead;
use crate::cut_solids::{cut_end, cut_solids};
use crate::laws::no_later_point_fits;
use crate::page_notes::PageNotes;
use crate::page_widths::PageWidths;
use crate::prefix::prefix;
use bk_num::name::NoMem;
use bk_num::steps::Steps;
use boxes::flow::Flow;
use boxes::frames::Frame;
use cursor::KeptLines;
use cuts::row::PageRoom;
use metrics::Faces;
use note_list::carried::{Carried, CarriedNotes};
use page_list::cut::{Cut, CutFrom};
use std::alloc::Global;
use std::sync::ledger::Ledger;

/// The cut of a page, what is carried to which goes on at solids. Any boxes may be open at first. It takes no more
/// steps than such a page may look at lines that aren't held. What was read ahead isn't sought again.
pub(crate) fn cut_page<'t, L: Ledger>(
    alloc: Global,
    flow: &'t Flow,
    faces: &Faces,
    from: CutFrom,
    carried: CarriedNotes,
    frame: Frame,
    ahead: &mut Ahead<'t>,
    widths: &mut PageWidths,
    lines: &mut KeptLines,
    steps: &mut Steps<L>,
) -> Result<Cut, NoMem>
    requires flow { CanBePaged faces.now flow.now }
    requires page { BeginsPage flow.now from.at carried frame }
    requires kept { AreFlowLines faces.now flow.now lines.old }
    requires ahead { IsAhead faces.now flow.now.main lines.old.kept ahead.old }
    ensures kept { AreFlowLines faces.now flow.now lines.new }
    ensures keeps { KeepsHeld lines.old.kept lines.new.kept }
    ensures takes { IfOk result (λ cut. TakesSteps lines.old.kept lines.new.kept steps.old steps.new) }
    ensures now { IfOk result (λ cut. IsPageHeld flow.now frame.width lines.new.kept cut.solids cut.notes) }
    ensures ahead { IfOk result (λ cut. IsAhead faces.now flow.now.main lines.new.kept ahead.new) }
    ensures cut { IfOk result (λ cut. IsFlowCut faces.now flow.now frame from carried cut) }
    ensures holds { IfOk result (λ cut. Holds flow.now.main cut.to) }
    ensures carried { IfOk result (λ cut. AreCarried flow.now cut.to cut.carried) }
    ensures stands { IfOk result (λ cut. All (IsAtSolid flow.now.notes) cut.carried) }
    ensures near { IfOk result (λ cut. AreNear cut.solids cut.notes) }
    ensures inside { IfOk result (λ cut. cut.level ≤ 2 → AreInside frame.height cut.notes cut.solids) }
    ensures lines { IfOk result (λ cut. LooksAtFlow faces.now flow.now frame from carried lines.old.kept steps.old
        steps.new) }
{
    let mut notes = PageNotes::start(
        alloc,
        flow,
        faces,
        from.at,
        &carried,
        frame,
        &mut widths.notes,
        lines,
        steps,
    )?;
    let called = notes.called;
    let room = PageRoom {
        kept: from.kept,
        height: frame.height,
        carried: notes.list.own_area(),
    };
    ahead.begin(from.at, frame.width);
    let count = prefix(
        flow, faces, from, frame, &room, &mut notes, ahead, widths, lines, steps,
    )?;
    if count == 0 {
        notes.take(flow, faces, from.at, frame, &mut widths.notes, lines, steps)?;
        return cut_end(alloc, flow, carried, called, &notes, &room);
    }
    let solids = ahead.page(count);
    let rows = ahead.page_rows(count);
    let joined = ahead.joined_from(count);
    let cut = cut_solids(
        alloc, flow, solids, rows, joined, carried, called, &notes, &room,
    )?;
    ahead.end(cut.solids.as_slice().len());
    Ok(cut)
}

/// The cut of the next page of a flow, by kept lines: it is that of `next_cut`. A line takes a step only where it isn't
/// held, and is held from then on; there are no more steps than such a page may look at lines that aren't held. The
/// flow's main tree has the number 0 among the kept lines, and each note's body the number after its own. Where memory
/// is wanting further lines may be held.
pub fn next_cut_kept<L: Ledger>(
    alloc: Global,
    flow: &Flow,
    faces: &Faces,
    from: CutFrom,
    carried: &[Carried],
    frame: Frame,
    lines: &mut KeptLines,
    steps: &mut Steps<L>,
) -> Result<Cut, NoMem>
    requires flow { CanBePaged faces.now flow.now }
    requires holds { Holds flow.now.main from.at }
    requires carried { AreCarried flow.now from.at carried.now }
    requires frame { IsGoodFrame frame }
    requires kept { AreFlowLines faces.now flow.now lines.old }
    ensures kept { AreFlowLines faces.now flow.now lines.new }
    ensures keeps { KeepsHeld lines.old.kept lines.new.kept }
    ensures takes { IfOk result (λ cut. TakesSteps lines.old.kept lines.new.kept steps.old steps.new) }
    ensures now { IfOk result (λ cut. IsPageHeld flow.now frame.width lines.new.kept cut.solids cut.notes) }
    ensures cut { IfOk result (λ cut. IsFlowCut faces.now flow.now frame from carried.now cut) }
    ensures holds { IfOk result (λ cut. Holds flow.now.main cut.to) }
    ensures carried { IfOk result (λ cut. AreCarried flow.now cut.to cut.carried) }
    ensures stands { IfOk result (λ cut. All (IsAtSolid flow.now.notes) cut.carried) }
    ensures near { IfOk result (λ cut. AreNear cut.solids cut.notes) }
    ensures inside { IfOk result (λ cut. cut.level ≤ 2 → AreInside frame.height cut.notes cut.solids) }
    ensures misses { NoLaterFits faces.now flow.now frame from carried.now }
    ensures lines { IfOk result (λ cut. LooksAtFlow faces.now flow.now frame from carried.now lines.old.kept steps.old
        steps.new) }
{
    no_later_point_fits();
    let settled = CarriedNotes::settled(alloc, flow, carried)?;
    let mut ahead = Ahead::none(alloc);
    let mut widths = PageWidths::none();
    cut_page(
        alloc,
        flow,
        faces,
        from,
        settled,
        frame,
        &mut ahead,
        &mut widths,
        lines,
        steps,
    )
}

/// The cut of the next page of a flow, whose page has a frame and has to place what is carried to it: where it ends, at
/// which level, what it places, with tops within 2^60 units and heights from 0 to 2^32, and what it carries on. At
/// levels 0 to 2 each solid ends inside the frame, above the notes. No later point of the page fits once the solids
/// before one have no room, and no more steps are taken than such a page may look at lines.
pub fn next_cut<L: Ledger>(
    alloc: Global,
    flow: &Flow,
    faces: &Faces,
    from: CutFrom,
    carried: &[Carried],
    frame: Frame,
    steps: &mut Steps<L>,
) -> Result<Cut, NoMem>
    requires flow { CanBePaged faces.now flow.now }
    requires holds { Holds flow.now.main from.at }
    requires carried { AreCarried flow.now from.at carried.now }
    requires frame { IsGoodFrame frame }
    ensures cut { IfOk result (λ cut. IsFlowCut faces.now flow.now frame from carried.now cut) }
    ensures holds { IfOk result (λ cut. Holds flow.now.main cut.to) }
    ensures carried { IfOk result (λ cut. AreCarried flow.now cut.to cut.carried) }
    ensures stands { IfOk result (λ cut. All (IsAtSolid flow.now.notes) cut.carried) }
    ensures near { IfOk result (λ cut. AreNear cut.solids cut.notes) }
    ensures inside { IfOk result (λ cut. cut.level ≤ 2 → AreInside frame.height cut.notes cut.solids) }
    ensures misses { NoLaterFits faces.now flow.now frame from carried.now }
    ensures lines { IfOk result (λ cut. LooksAtFlow faces.now flow.now frame from carried.now [] steps.old steps.new) }
{
    let mut lines = KeptLines::new(alloc);
    next_cut_kept(alloc, flow, faces, from, carried, frame, &mut lines, steps)
}
