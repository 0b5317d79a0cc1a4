//! The solids that tell a page's cut.

ghost use Rattle.std.specs.Prelude.{◌≡◌, ◌≤◌, ◌≤ℤ◌, ◌<ℤ◌, ◌⊎◌, Bool, length, List, None, [], is_some, IfOk, true, false};
ghost use Rattle.cursor.specs.Asks.{KeepsHeld, TakesSteps};
ghost use Rattle.cuts.specs.Prefixes.{IsStacked};
ghost use Rattle.cuts.specs.Rows.{rows_extent};
ghost use Rattle.cuts.specs.declared.row.SolidRow.{SolidRow};
ghost use Rattle.note_list.specs.Kept.{AreFlowLines, AreHeldNow};
ghost use Rattle.note_list.specs.declared.carried.Carried.{Carried};
ghost use Rattle.fragment.specs.Ahead.{IsPageAhead, page_of, page_views};
ghost use Rattle.fragment.specs.Conditions.{CanRead};
ghost use Rattle.fragment.specs.Reads.{AreRead, AreReadInside, IsPagePrefix, StepsForPage};
ghost use Rattle.note_list.specs.Short.{IsShortList};
ghost use Rattle.page_list.specs.Looked.{AreFewLines};

use crate::ahead::Ahead;
use crate::page_notes::PageNotes;
use crate::page_widths::PageWidths;
use bk_num::name::NoMem;
use bk_num::steps::Steps;
use boxes::flow::Flow;
use boxes::frames::Frame;
use cursor::KeptLines;
use cuts::look::Look;
use cuts::row::{PageRoom, SolidRow};
use metrics::Faces;
use page_list::cut::CutFrom;
use std::sync::ledger::Ledger;

/// Whether a page ends before a solid whatever fits: its seam is forced, and it isn't the page's first solid.
fn ends_page(row: &SolidRow, is_first: bool) -> bool
    ensures forced { result ≡ true → (is_first ≡ false) × (is_some row.now.seam.forced ≡ true) }
    ensures free { result ≡ false → is_first ≡ false → row.now.seam.forced ≡ None }
{
    !is_first && row.seam.forced.is_some()
}

/// Whether the notes that are called in a solid are read: where the page doesn't end before it whatever fits, and the
/// solids up to it end inside a frame of a height.
fn reads_notes(look: &Look, ends: bool, height: i64) -> bool
    ensures inside { result ≡ true → (ends ≡ false) × ((kept : Bool) (rows : List SolidRow) →
        IsStacked kept height rows look.now → rows_extent kept rows (length rows) ≤ℤ height) }
    ensures past { result ≡ false → (ends ≡ true) ⊎ ((kept : Bool) (rows : List SolidRow) →
        IsStacked kept height rows look.now → height <ℤ rows_extent kept rows (length rows)) }
{
    !ends && look.is_inside(height)
}

/// How many of the solids of a flow tell a page's cut: those up to the first forced seam after the first one, or up to
/// the first point without room, and as many lines after it as widows ask for; else all that are left. The notes called
/// in them are read with them, as far as they end inside the frame and before a forced seam. They have no more lines
/// than the page may look at, and steps are taken for lines of theirs and of the notes alone, as far as these aren't
/// held. Of the lines below the frame those that are read already are passed at once.
pub(crate) fn prefix<'t, L: Ledger>(
    flow: &'t Flow,
    faces: &Faces,
    from: CutFrom,
    frame: Frame,
    room: &PageRoom,
    notes: &mut PageNotes,
    ahead: &mut Ahead<'t>,
    widths: &mut PageWidths,
    lines: &mut KeptLines,
    steps: &mut Steps<L>,
) -> Result<usize, NoMem>
    requires { CanRead faces.now flow.now from frame room.now notes.old ahead.old lines.old }
    ensures kept { AreFlowLines faces.now flow.now lines.new }
    ensures keeps { KeepsHeld lines.old.kept lines.new.kept }
    ensures takes { IfOk result (λ v. TakesSteps lines.old.kept lines.new.kept steps.old steps.new) }
    ensures ahead { IfOk result (λ v.
        IsPageAhead faces.now flow.now.main frame.width lines.new.kept from.at ahead.new) }
    ensures within { IfOk result (λ v. v ≤ length (page_of ahead.new)) }
    ensures noted { IfOk result (λ v. AreHeldNow flow.now.notes frame.width lines.old.kept notes.old.list.solids.items →
        AreHeldNow flow.now.notes frame.width lines.new.kept notes.new.list.solids.items) }
    ensures own { IfOk result (λ v. notes.new.list.own ≡ notes.old.list.own) }
    ensures read { IfOk result (λ v. (carried : List Carried) →
        AreRead faces.now flow.now frame from.at carried [] notes.old →
        AreReadInside faces.now flow.now frame from carried (page_views ahead.new v) notes.new) }
    ensures prefix { IfOk result (λ v. IsPagePrefix faces.now flow.now.main frame from.at from.kept notes.old.list.own
        notes.new.areas.items room.now.carried (page_views ahead.new v)) }
    ensures few { IfOk result (λ v. AreFewLines faces.now flow.now.main frame from (page_views ahead.new v)) }
    ensures short { IfOk result (λ v.
        IsShortList frame.height notes.old.list → IsShortList frame.height notes.new.list) }
    ensures lines { IfOk result (λ v. StepsForPage flow.now frame.width lines.old.kept (page_views ahead.new v)
        notes.old.list.solids.items notes.new.list.solids.items steps.old steps.new) }
{
    let tree = &flow.main;
    // the count tells that the tree is one that can be built
    let _count = tree.count();
    let mut count = 0;
    let mut look = Look::start();
    ahead.settle(tree, from.at, &mut widths.flow);
    loop {
        let Ok(ended) = ahead.read(tree, faces, from.at, count, &mut widths.flow, lines, steps)
        else {
            return Err(NoMem);
        };
        if ended {
            return Ok(count);
        }
        let row = *ahead.row(count);
        let ends = ends_page(&row, count == 0);
        look.take(&row, notes.area(), room);
        let inside = reads_notes(&look, ends, room.height);
        count += 1;
        let end = ahead.end_of(from.at, count);
        notes.take_inside(
            inside,
            flow,
            faces,
            end,
            frame,
            &mut widths.notes,
            lines,
            steps,
        )?;
        if ends {
            return Ok(count);
        }
        count += look.pass(ahead.joined_at(count), room.height);
        if look.is_enough() {
            return Ok(count);
        }
    }
}
