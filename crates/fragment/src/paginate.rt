//! The pages of a flow.

ghost use Rattle.std.specs.Prelude.{◌≡◌, ℕ, ◌+◌, ◌<◌, ◌≤◌, [], All, length, true, false, IfOk, IfErr};
ghost use Rattle.bk_num.specs.Limits.{most_pages};
ghost use Rattle.cursor.specs.Asks.{KeepsHeld, TakesSteps};
ghost use Rattle.fragment.specs.Kept.{ArePagesHeld};
ghost use Rattle.fragment.specs.Misses.{NoPageFitsLater};
ghost use Rattle.fragment.specs.Runs.{EndsFlow, HasLooked, LooksOn};
ghost use Rattle.line_fill.specs.Kept.{AreKept};
ghost use Rattle.note_list.specs.Conditions.{CanBePaged};
ghost use Rattle.note_list.specs.Kept.{AreFlowLines};
ghost use Rattle.page_list.specs.Bounds.{HasText, HasTexts, HaveTexts, most_pages_of};
ghost use Rattle.page_list.specs.Inside.{EndInside};
ghost use Rattle.page_list.specs.Laws.{HoldsMain};
ghost use Rattle.page_list.specs.LookedPages.{LooksAtPages};
ghost use Rattle.page_list.specs.Noted.{BeginInTime, HoldsNotes};
ghost use Rattle.page_list.specs.Pages.{AddsBlanks, HaveNearTops, IsPaged, LeavesSome, blank_of, flow_page_of, meets_at, notes_page_of};
ghost use Rattle.page_list.specs.Parted.{HoldsBreaks};

use crate::ahead::Ahead;
use crate::laws::no_later_point_fits;
use crate::next_cut::cut_page;
use crate::next_notes::next_notes;
use crate::page_widths::PageWidths;
use bk_num::ids::NameId;
use bk_num::items::Items;
use bk_num::limits::MOST_PAGES;
use bk_num::steps::Steps;
use boxes::flow::{Flow, Note};
use boxes::frames::{Demand, Frame, Frames, PageKind};
use boxes::page::{Page, PageList, PlacedNote};
use boxes::place::{Event, Position};
use boxes::tree::BoxTree;
use cursor::KeptLines;
use metrics::Faces;
use note_list::carried::CarriedNotes;
use note_list::list::PlacedList;
use page_list::cut::{Cut, CutFrom};
use page_list::laws::{
    breaks_hold, main_stands_once, notes_begin_in_time, notes_stand_once, pages_are_few,
    pages_end_inside,
};
use seams::seam::{name_at_seam, seam};
use seams::widths::Widths;
use std::alloc::Global;
use std::sync::ledger::Ledger;
use thiserror::Error;

/// Why there are no pages.
#[derive(Clone, Copy, Debug, PartialEq, Eq, Error)]
pub enum PageErr {
    /// 100,000 pages leave something unplaced.
    #[error("too many pages")]
    Pages,
    #[error("no memory")]
    NoMemory,
}

/// The pages up to the flow's end, the name of the last one, and what it carries on.
#[derive(Drop)]
pub(crate) struct FlowPages {
    pub(crate) pages: Vec<Page>,
    pub(crate) name: NameId,
    pub(crate) carried: CarriedNotes,
}

/// A flow page, from its cut, and what is carried on.
fn page_of(index: u32, name: NameId, frame: Frame, cut: Cut) -> (Page, CarriedNotes)
    ensures page { result.0 ≡ flow_page_of index name frame cut }
    ensures carried { result.1 ≡ cut.carried }
{
    let Cut {
        level,
        solids,
        notes,
        carried,
        ..
    } = cut;
    let page = Page {
        index,
        kind: PageKind::Flow,
        name,
        frame,
        solids,
        notes,
        level,
    };
    (page, carried)
}

/// A blank page.
fn blank_of(alloc: Global, index: u32, name: NameId, frame: Frame) -> Page
    ensures { result ≡ blank_of index name frame }
{
    Page {
        index,
        kind: PageKind::Blank,
        name,
        frame,
        solids: Items::of(Vec::new(alloc)),
        notes: Items::of(Vec::new(alloc)),
        level: 0,
    }
}

/// A page of notes after the flow.
fn notes_page_of(
    alloc: Global,
    index: u32,
    name: NameId,
    frame: Frame,
    notes: Items<PlacedNote>,
) -> Page
    ensures { result ≡ notes_page_of index name frame notes }
{
    Page {
        index,
        kind: PageKind::Notes,
        name,
        frame,
        solids: Items::of(Vec::new(alloc)),
        notes,
        level: 0,
    }
}

/// How many blank pages stand before the page that meets a demand.
fn empty_before<Fr: Frames>(frames: &Fr, index: u32, demand: Option<Demand>) -> u32
    requires low { 1 ≤ index }
    requires high { index ≤ most_pages + 1 }
    ensures meets { meets_at (Fr.view frames.now) (index + result) demand ≡ true }
    ensures least { (k : ℕ) → k < result →
        meets_at (Fr.view frames.now) (index + k) demand ≡ false }
{
    match demand {
        None => 0,
        Some(asked) => frames.empty_before(index, asked),
    }
}

/// Adds blank pages up to the first page that meets a demand, and answers its index. `Pages` comes where that page
/// would be one too many.
fn add_blanks<Fr: Frames>(
    alloc: Global,
    pages: &mut Vec<Page>,
    frames: &Fr,
    index: u32,
    name: NameId,
    demand: Option<Demand>,
) -> Result<u32, PageErr>
    requires count { length pages.old.items + 1 ≡ index }
    requires high { index ≤ most_pages + 1 }
    ensures count { IfOk result (λ to. length pages.new.items + 1 ≡ to) }
    ensures few { IfOk result (λ to. to ≤ most_pages) }
    ensures meets { IfOk result (λ to. meets_at (Fr.view frames.now) to demand ≡
        true) }
    ensures blanks { IfOk result
        (λ to. AddsBlanks (Fr.view frames.now) name demand index to pages.old.items
        pages.new.items) }
    ensures many { IfErr result (λ err. err ≡ PageErr.Pages →
        AddsBlanks (Fr.view frames.now) name demand index (most_pages + 1)
        pages.old.items pages.new.items) }
{
    let empty = empty_before(frames, index, demand);
    for k in 0..empty {
        if pages.len() >= MOST_PAGES as usize {
            return Err(PageErr::Pages);
        }
        let at = index + k;
        let frame = frames.frame(at, name, PageKind::Blank);
        if pages.push(blank_of(alloc, at, name, frame)).is_err() {
            return Err(PageErr::NoMemory);
        }
    }
    if pages.len() >= MOST_PAGES as usize {
        return Err(PageErr::Pages);
    }
    Ok(index + empty)
}

/// The leaf of an event has a text, whose characters are counted.
fn has_text(tree: &BoxTree, event: u32)
    requires { event < length tree.now.events }
    ensures { HasText tree.now event }
{
    // the count tells that the tree is one that can be built
    let _count = tree.count();
    if let Event::Leaf(number) = tree.event(event) {
        // a text that is read is known to be UTF-8
        let _text = tree.leaf(number).text.as_str();
    }
}

/// So has each leaf of a tree.
fn have_texts(tree: &BoxTree)
    ensures { HaveTexts tree.now }
{
    for event in 0..tree.count() {
        has_text(tree, event);
    }
}

/// So has each leaf of the bodies of notes.
fn have_note_texts(notes: &[Note])
    ensures { All (λ n. HaveTexts n.body) notes.now }
{
    for at in 0..notes.len() {
        have_texts(&notes[at].body);
    }
}

/// And each leaf of a flow.
fn has_texts(flow: &Flow)
    ensures { HasTexts flow.now }
{
    have_texts(&flow.main);
    have_note_texts(flow.notes.as_slice());
}

/// The pages up to the flow's end, each ended by its best cut, with blank pages where a side is asked.
fn flow_pages<Fr: Frames, L: Ledger>(
    alloc: Global,
    flow: &Flow,
    faces: &Faces,
    frames: &Fr,
    lines: &mut KeptLines,
    steps: &mut Steps<L>,
) -> Result<FlowPages, PageErr>
    requires flow { CanBePaged faces.now flow.now }
    requires kept { AreFlowLines faces.now flow.now lines.old }
    ensures kept { AreFlowLines faces.now flow.now lines.new }
    ensures keeps { KeepsHeld lines.old.kept lines.new.kept }
    ensures takes { IfOk result (λ p. TakesSteps lines.old.kept lines.new.kept steps.old steps.new) }
    ensures held { IfOk result (λ p. ArePagesHeld flow.now lines.new.kept p.pages.items) }
    ensures pages { IfOk result (λ p. EndsFlow faces.now flow.now (Fr.view frames.now) p) }
    ensures tops { IfOk result (λ p. HaveNearTops p.pages.items) }
    ensures looks { IfOk result (HasLooked faces.now flow.now (Fr.view frames.now) lines.old.kept steps.old steps.new) }
    ensures many { IfErr result (λ err. err ≡ PageErr.Pages →
        LeavesSome faces.now flow.now (Fr.view frames.now) most_pages) }
{
    let tree = &flow.main;
    // the count tells that the tree is one that can be built
    let _count = tree.count();
    let mut pages = Vec::new(alloc);
    let mut from = CutFrom {
        at: Position {
            event: 0,
            offset: 0,
        },
        kept: true,
    };
    let mut index = 1;
    let mut demand = seam(tree, from.at, 0).forced;
    let mut carried = CarriedNotes::new(alloc);
    let mut ahead = Ahead::none(alloc);
    let mut widths = PageWidths::none();
    for turn in 0..MOST_PAGES {
        // the invariant counts the turns
        let _turn = turn;
        let name = name_at_seam(tree, from.at);
        index = match add_blanks(alloc, &mut pages, frames, index, name, demand) {
            Ok(to) => to,
            Err(err) => return Err(err),
        };
        let frame = frames.frame(index, name, PageKind::Flow);
        let Ok(cut) = cut_page(
            alloc,
            flow,
            faces,
            from,
            carried,
            frame,
            &mut ahead,
            &mut widths,
            lines,
            steps,
        ) else {
            return Err(PageErr::NoMemory);
        };
        let ended = cut.ended;
        let next = CutFrom {
            at: cut.to,
            kept: cut.forced.is_some(),
        };
        demand = cut.forced;
        let (page, left) = page_of(index, name, frame, cut);
        if pages.push(page).is_err() {
            return Err(PageErr::NoMemory);
        }
        if ended {
            return Ok(FlowPages {
                pages,
                name,
                carried: left,
            });
        }
        carried = left;
        from = next;
        index += 1;
    }
    Err(PageErr::Pages)
}

/// Adds pages of notes after the flow, until nothing is carried.
fn with_notes<Fr: Frames, L: Ledger>(
    alloc: Global,
    flow: &Flow,
    faces: &Faces,
    frames: &Fr,
    made: FlowPages,
    lines: &mut KeptLines,
    steps: &mut Steps<L>,
) -> Result<PageList, PageErr>
    requires flow { CanBePaged faces.now flow.now }
    requires pages { EndsFlow faces.now flow.now (Fr.view frames.now) made }
    requires tops { HaveNearTops made.pages.items }
    requires held { ArePagesHeld flow.now lines.old.kept made.pages.items }
    requires kept { AreFlowLines faces.now flow.now lines.old }
    ensures kept { AreFlowLines faces.now flow.now lines.new }
    ensures keeps { KeepsHeld lines.old.kept lines.new.kept }
    ensures takes { IfOk result (λ p. TakesSteps lines.old.kept lines.new.kept steps.old steps.new) }
    ensures held { IfOk result (λ list. ArePagesHeld flow.now lines.new.kept list.pages) }
    ensures pages { IfOk result (λ list. IsPaged faces.now flow.now (Fr.view frames.now) list.pages) }
    ensures tops { IfOk result (λ list. HaveNearTops list.pages) }
    ensures few { IfOk result (λ list. length list.pages ≤ most_pages) }
    ensures looks { IfOk result (λ list. LooksOn faces.now flow.now (Fr.view frames.now) lines.old.kept made list.pages
        steps.old steps.new) }
    ensures many { IfErr result (λ err. err ≡ PageErr.Pages →
        LeavesSome faces.now flow.now (Fr.view frames.now) most_pages) }
{
    let FlowPages {
        mut pages,
        name,
        mut carried,
    } = made;
    let mut widths = Widths::none();
    for turn in 0..=MOST_PAGES {
        // the invariant counts the turns
        let _turn = turn;
        if carried.is_empty() {
            return Ok(PageList {
                pages: Items::of(pages),
            });
        }
        if pages.len() >= MOST_PAGES as usize {
            return Err(PageErr::Pages);
        }
        let index = pages.len() as u32 + 1;
        let frame = frames.frame(index, name, PageKind::Notes);
        let Ok(placed) = next_notes(
            alloc,
            flow,
            faces,
            carried,
            frame,
            &mut widths,
            lines,
            steps,
        ) else {
            return Err(PageErr::NoMemory);
        };
        let PlacedList { notes, left } = placed;
        if pages
            .push(notes_page_of(alloc, index, name, frame, notes))
            .is_err()
        {
            return Err(PageErr::NoMemory);
        }
        carried = left;
    }
    Err(PageErr::Pages)
}

/// The page list of a flow.
fn pages_of<Fr: Frames, L: Ledger>(
    alloc: Global,
    flow: &Flow,
    faces: &Faces,
    frames: &Fr,
    lines: &mut KeptLines,
    steps: &mut Steps<L>,
) -> Result<PageList, PageErr>
    requires flow { CanBePaged faces.now flow.now }
    requires kept { AreFlowLines faces.now flow.now lines.old }
    ensures kept { AreFlowLines faces.now flow.now lines.new }
    ensures keeps { KeepsHeld lines.old.kept lines.new.kept }
    ensures takes { IfOk result (λ p. TakesSteps lines.old.kept lines.new.kept steps.old steps.new) }
    ensures held { IfOk result (λ list. ArePagesHeld flow.now lines.new.kept list.pages) }
    ensures pages { IfOk result (λ list. IsPaged faces.now flow.now (Fr.view frames.now) list.pages) }
    ensures tops { IfOk result (λ list. HaveNearTops list.pages) }
    ensures few { IfOk result (λ list. length list.pages ≤ most_pages) }
    ensures lines { IfOk result (λ list. LooksAtPages faces.now flow.now (Fr.view frames.now) lines.old.kept list.pages
        steps.old steps.new) }
    ensures many { IfErr result (λ err. err ≡ PageErr.Pages →
        LeavesSome faces.now flow.now (Fr.view frames.now) most_pages) }
{
    let made = flow_pages(alloc, flow, faces, frames, lines, steps)?;
    with_notes(alloc, flow, faces, frames, made, lines, steps)
}

/// The pages of a flow, by kept lines: they are those of `paginate`. A line takes a step only where it isn't held, and
/// is held from then on, and no more steps are taken than the pages may look at lines that aren't held. What was noted
/// of the places of leaves is forgotten: other trees may have been kept. Where memory is wanting, or the pages are too
/// many, further lines may be held.
pub fn paginate_kept<Fr: Frames, L: Ledger>(
    alloc: Global,
    flow: &Flow,
    faces: &Faces,
    frames: &Fr,
    lines: &mut KeptLines,
    steps: &mut Steps<L>,
) -> Result<PageList, PageErr>
    requires flow { CanBePaged faces.now flow.now }
    requires kept { AreKept faces.now lines.old.kept }
    ensures kept { AreFlowLines faces.now flow.now lines.new }
    ensures keeps { KeepsHeld lines.old.kept lines.new.kept }
    ensures takes { IfOk result (λ p. TakesSteps lines.old.kept lines.new.kept steps.old steps.new) }
    ensures held { IfOk result (λ list. ArePagesHeld flow.now lines.new.kept list.pages) }
    ensures pages { IfOk result (λ list. IsPaged faces.now flow.now (Fr.view frames.now) list.pages) }
    ensures main { IfOk result (λ list. HoldsMain flow.now list.pages) }
    ensures notes { IfOk result (λ list. HoldsNotes flow.now list.pages) }
    ensures begins { IfOk result (λ list. BeginInTime flow.now list.pages) }
    ensures breaks { IfOk result (λ list. HoldsBreaks flow.now.main (Fr.view frames.now) list.pages) }
    ensures inside { IfOk result (λ list. EndInside list.pages) }
    ensures misses { NoPageFitsLater faces.now flow.now }
    ensures bound { IfOk result (λ list.
        length list.pages ≤ most_pages_of (Fr.is_free frames.now) (Fr.bound frames.now) flow.now) }
    ensures tops { IfOk result (λ list. HaveNearTops list.pages) }
    ensures few { IfOk result (λ list. length list.pages ≤ most_pages) }
    ensures lines { IfOk result (λ list. LooksAtPages faces.now flow.now (Fr.view frames.now) lines.old.kept list.pages
        steps.old steps.new) }
    ensures many { IfErr result (λ err. err ≡ PageErr.Pages →
        LeavesSome faces.now flow.now (Fr.view frames.now) most_pages) }
{
    main_stands_once();
    notes_stand_once();
    notes_begin_in_time();
    breaks_hold();
    pages_end_inside();
    no_later_point_fits();
    pages_are_few();
    has_texts(flow);
    lines.forget();
    pages_of(alloc, flow, faces, frames, lines, steps)
}

/// The pages of a flow with its notes, each ended by its best cut, with blank pages where a side is asked, and pages of
/// notes after its end. Each edge stands once and in order, and the lines part the text of each leaf in order, in the
/// main tree and, note after note, in the notes; no note begins before its call. On no page a later point fits once one
/// misses. Tops are within 2^60 units, and heights from 0 to 2^32. `Pages` comes exactly where 100,000 pages leave
/// something unplaced.
pub fn paginate<Fr: Frames, L: Ledger>(
    alloc: Global,
    flow: &Flow,
    faces: &Faces,
    frames: &Fr,
    steps: &mut Steps<L>,
) -> Result<PageList, PageErr>
    requires flow { CanBePaged faces.now flow.now }
    ensures pages { IfOk result (λ list. IsPaged faces.now flow.now (Fr.view frames.now) list.pages) }
    ensures main { IfOk result (λ list. HoldsMain flow.now list.pages) }
    ensures notes { IfOk result (λ list. HoldsNotes flow.now list.pages) }
    ensures begins { IfOk result (λ list. BeginInTime flow.now list.pages) }
    ensures breaks { IfOk result (λ list. HoldsBreaks flow.now.main (Fr.view frames.now) list.pages) }
    ensures inside { IfOk result (λ list. EndInside list.pages) }
    ensures misses { NoPageFitsLater faces.now flow.now }
    ensures bound { IfOk result (λ list.
        length list.pages ≤ most_pages_of (Fr.is_free frames.now) (Fr.bound frames.now) flow.now) }
    ensures tops { IfOk result (λ list. HaveNearTops list.pages) }
    ensures few { IfOk result (λ list. length list.pages ≤ most_pages) }
    ensures lines { IfOk result (λ list. LooksAtPages faces.now flow.now (Fr.view frames.now) [] list.pages
        steps.old steps.new) }
    ensures many { IfErr result (λ err. err ≡ PageErr.Pages →
        LeavesSome faces.now flow.now (Fr.view frames.now) most_pages) }
{
    let mut lines = KeptLines::new(alloc);
    paginate_kept(alloc, flow, faces, frames, &mut lines, steps)
}
