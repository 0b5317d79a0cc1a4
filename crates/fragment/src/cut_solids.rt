//! The cut of a page by the solids that are read.

ghost use Rattle.std.specs.Prelude.{◌≡◌, ℕ, pos, ◌<◌, ◌≤◌, ◌^◌, ◌≤ℤ◌, ◌+ℤ◌, ◌-ℤ◌, ◌⊎◌, length, All, drop, map, take, slice_get, IfOk, []};
ghost use Rattle.bk_num.specs.Limits.{most_entries};
ghost use Rattle.bk_num.specs.Numbers.{IsWithin};
ghost use Rattle.boxes.specs.Clones.{IsRoom};
ghost use Rattle.boxes.specs.Tree.{Holds};
ghost use Rattle.cursor.specs.Fields.{solid_view};
ghost use Rattle.cursor.specs.Remainder.{IsSmallSolid};
ghost use Rattle.cuts.specs.Areas.{AreAreas, AreTold, IsArea, area_after, cut_number};
ghost use Rattle.cuts.specs.Cuts.{NoteLists, IsPageCut};
ghost use Rattle.cuts.specs.Prefixes.{AreJoined};
ghost use Rattle.note_list.specs.Calls.{called_before};
ghost use Rattle.note_list.specs.Conditions.{AreCarried, IsAtSolid};
ghost use Rattle.note_list.specs.Places.{IsFront};
ghost use Rattle.notes.specs.Near.{IsNearSolid};
ghost use Rattle.fragment.specs.Conditions.{ArePageSolids, CanCut};
ghost use Rattle.fragment.specs.CutsAt.{CutsAt};
ghost use Rattle.fragment.specs.Solids.{foot_from};
ghost use Rattle.page_list.specs.Cuts.{first_gap, place_after, placed_from, rows_of};
ghost use Rattle.page_list.specs.Pages.{AreNear};
ghost use Rattle.page_seq.specs.Places.{NeverFall};

use crate::page_notes::PageNotes;
use crate::rows::{forced_after, place_after};
use crate::tops::{PlacedSolids, place_all};
use bk_num::items::Items;
use bk_num::name::NoMem;
use boxes::flow::Flow;
use boxes::place::Position;
use boxes::tree::BoxTree;
use cursor::solid::Solid;
use cuts::cut::{CutLevel, RowCut, cut_noted, tail_at};
use cuts::row::{PageRoom, SolidRow};
use note_list::calls::called_before;
use note_list::carried::CarriedNotes;
use note_list::list::NoteRoom;
use page_list::cut::Cut;
use seams::level::Dropped;
use std::alloc::Global;

/// After how many of the solids that are read a page is cut, and at which level.
fn cut_rows(
    tree: &BoxTree,
    solids: &[Solid<'_>],
    rows: &[SolidRow],
    joined: usize,
    areas: &[i64],
    room: &PageRoom,
) -> RowCut
    requires solids { ArePageSolids tree.now solids.now rows.now }
    requires joined { AreJoined (drop joined rows.now) }
    requires areas { All IsArea areas.now }
    requires carried { IsArea room.now.carried }
    ensures best { (list : NoteLists) (c : ℕ) →
        AreAreas room.now.kept (rows_of tree.now (map solid_view solids.now)) room.now.height list c areas.now
        room.now.carried →
        IsPageCut room.now.kept (rows_of tree.now (map solid_view solids.now)) room.now.height list c
        (cut_number result.level) result.count }
    ensures some { 0 < result.count }
    ensures within { result.count ≤ length solids.now }
{
    // that the tree is one that can be built
    let _count = tree.count();
    cut_noted(rows, joined, areas, room)
}

/// The first solids of a page with their tops.
fn place_first(
    alloc: Global,
    solids: &[Solid<'_>],
    count: usize,
    kept: bool,
) -> Result<PlacedSolids, NoMem>
    requires some { 0 < count }
    requires within { count ≤ length solids.now }
    requires few { length solids.now ≤ most_entries }
    requires small { All (λ s. IsSmallSolid (solid_view s)) solids.now }
    ensures solids { IfOk result (λ p.
        p.items.items ≡ placed_from (first_gap kept (map solid_view solids.now))
        (take count (map solid_view solids.now))) }
    ensures near { IfOk result (λ p. All IsNearSolid p.items.items) }
    ensures foot { IfOk result (λ p. p.foot ≡ foot_from (pos 0) p.items.items) }
    ensures low { IfOk result (λ p. pos 0 ≤ℤ p.foot) }
    ensures high { IfOk result (λ p. p.foot ≤ℤ pos (2 ^ 61)) }
{
    place_all(alloc, &solids[..count], kept)
}

/// The room for the note area below solids that reach so far and what stands again behind them, in a frame of a height.
fn room_below(height: i64, foot: i64, tail: i64) -> i64
    requires height { IsWithin (2 ^ 40) height }
    requires foot { IsWithin (2 ^ 61) foot }
    requires tail { IsRoom tail }
    ensures room { result ≡ height -ℤ (foot +ℤ tail) }
{
    height - (foot + tail)
}

/// The cut of a page by one or more solids, which from the number `joined` on are lines that go on with the leaf of the
/// solid before them. `called` notes are called before it.
pub(crate) fn cut_solids(
    alloc: Global,
    flow: &Flow,
    solids: &[Solid<'_>],
    rows: &[SolidRow],
    joined: usize,
    carried: CarriedNotes,
    called: u32,
    notes: &PageNotes,
    room: &PageRoom,
) -> Result<Cut, NoMem>
    requires solids { ArePageSolids flow.now.main solids.now rows.now }
    requires joined { AreJoined (drop joined rows.now) }
    requires cut { CanCut flow.now carried called notes.now room.now }
    requires area { IsArea room.now.carried }
    requires called { (j : ℕ) → 0 < j → called ≤ called_before flow.now.main flow.now.notes
        (place_after flow.now.main (slice_get (map solid_view solids.now) j)) }
    requires calls { NeverFall (map (λ n. n.call) flow.now.notes) }
    ensures cut { IfOk result (CutsAt flow.now room.now.kept room.now.height carried called
        (λ list. AreAreas room.now.kept (rows_of flow.now.main (map solid_view solids.now)) room.now.height
        list notes.now.list.own notes.now.areas.items room.now.carried)
        notes.now.list (map solid_view solids.now)) }
    ensures holds { IfOk result (λ cut. Holds flow.now.main cut.to) }
    ensures carried { IfOk result (λ cut. AreCarried flow.now cut.to cut.carried) }
    ensures stands { IfOk result (λ cut. All (IsAtSolid flow.now.notes) cut.carried) }
    ensures front { IfOk result (λ cut. IsFront notes.now.list.solids.items cut.notes) }
    ensures near { IfOk result (λ cut. AreNear cut.solids cut.notes) }
{
    let areas = notes.areas.as_slice();
    let cut = cut_rows(&flow.main, solids, rows, joined, areas, room);
    let placed = place_first(alloc, solids, cut.count, room.kept)?;
    let tail = tail_at(rows, cut.count);
    let to = place_after(&flow.main, solids, cut.count);
    let left = NoteRoom {
        level: cut.level,
        to: called_before(flow, to),
        height: room.height,
        room: room_below(room.height, placed.foot, tail),
    };
    let noted = notes.list.place(alloc, flow, carried, called, &left)?;
    Ok(Cut {
        to,
        ended: cut.count == solids.len(),
        forced: forced_after(solids, cut.count),
        level: cut.level.number(),
        solids: Items::of(placed.items),
        notes: noted.notes,
        carried: noted.left,
    })
}

/// The level of a page on which no solid stands: 0 where the notes that have to stand on it fit, 3 where the carried
/// ones do, and else 4.
fn end_level(area: i64, room: &PageRoom) -> CutLevel
    ensures fits { cut_number result ≡ 0 → area ≤ℤ room.now.height }
    ensures loose { cut_number result ≡ 3 → (¬ (area ≤ℤ room.now.height)) × (room.now.carried ≤ℤ room.now.height) }
    ensures first { cut_number result ≡ 4 → (¬ (area ≤ℤ room.now.height)) × (¬ (room.now.carried ≤ℤ room.now.height)) }
    ensures one { (cut_number result ≡ 0) ⊎ (cut_number result ≡ 3) ⊎ (cut_number result ≡ 4) }
{
    if area <= room.height {
        CutLevel::Drops(Dropped::Nothing)
    } else if room.carried <= room.height {
        CutLevel::Loose
    } else {
        CutLevel::Over
    }
}

/// The cut of a page where no solid is left: all notes are called on it.
pub(crate) fn cut_end(
    alloc: Global,
    flow: &Flow,
    carried: CarriedNotes,
    called: u32,
    notes: &PageNotes,
    room: &PageRoom,
) -> Result<Cut, NoMem>
    requires cut { CanCut flow.now carried called notes.now room.now }
    requires all { notes.now.called ≡ length flow.now.notes }
    requires called { called ≤ length flow.now.notes }
    ensures cut { IfOk result (CutsAt flow.now room.now.kept room.now.height carried called
        (λ list. AreTold room.now.height list notes.now.list.own 0
        (area_after notes.now.areas.items (length notes.now.areas.items)) room.now.carried)
        notes.now.list []) }
    ensures holds { IfOk result (λ cut. Holds flow.now.main cut.to) }
    ensures carried { IfOk result (λ cut. AreCarried flow.now cut.to cut.carried) }
    ensures stands { IfOk result (λ cut. All (IsAtSolid flow.now.notes) cut.carried) }
    ensures front { IfOk result (λ cut. IsFront notes.now.list.solids.items cut.notes) }
    ensures near { IfOk result (λ cut. AreNear cut.solids cut.notes) }
{
    let left = NoteRoom {
        level: end_level(notes.area(), room),
        to: notes.called,
        height: room.height,
        room: room.height,
    };
    let noted = notes.list.place(alloc, flow, carried, called, &left)?;
    Ok(Cut {
        to: Position {
            event: flow.main.count(),
            offset: 0,
        },
        ended: true,
        forced: None,
        level: left.level.number(),
        solids: Items::of(Vec::new(alloc)),
        notes: noted.notes,
        carried: noted.left,
    })
}
