//! Whether a page is one of a flow, as far as painting asks it.

ghost use Rattle.std.specs.Prelude.{◌≡◌, ◌<◌, ◌-◌, length, slice_get, slice_index, MatchBool, ◌⊎◌};
ghost use Rattle.std.specs.List.{Contains};
ghost use Rattle.boxes.specs.Contents.{IsGoodLeaf};
ghost use Rattle.line_fill.specs.LineEnd.{IsEndPlace, IsLineBetween};
ghost use Rattle.paint.specs.Items.{line_of};
ghost use Rattle.paint.specs.Order.{AreInOrder, AreNotesInOrder, IsLineIn, IsPageOf, StandsIn, StandsInNote};

use crate::bounds::is_bounded_page;
use crate::lines::end_in;
use boxes::flow::{Flow, Note};
use boxes::leaf::Leaf;
use boxes::page::{Page, Placed, PlacedNote};
use boxes::place::Event;
use boxes::tree::BoxTree;

/// Whether a newline stands before a place of a text, or at its beginning where the place is that.
fn follows_newline(text: &[u8], at: u32) -> bool
    ensures { MatchBool result (slice_index text.now (at - 1) ≡ 10) (¬ (slice_index text.now (at - 1) ≡ 10)) }
{
    text.get((at as usize).saturating_sub(1)) == Some(&b'\n')
}

/// Whether a place is among some.
fn is_among(places: &[u32], at: u32) -> bool
    ensures { MatchBool result (Contains places.now at) (¬ (Contains places.now at)) }
{
    places.contains(&at)
}

/// Whether lines of a leaf may end at a place.
fn is_end_place(leaf: &Leaf, at: u32) -> bool
    ensures { MatchBool result (IsEndPlace leaf.now at) (¬ (IsEndPlace leaf.now at)) }
{
    let text = leaf.text.as_str();
    at as usize == text.len()
        || follows_newline(text.as_bytes(), at)
        || is_among(leaf.places.as_slice(), at)
        || is_among(leaf.graphemes.as_slice(), at)
}

/// Whether lines of a leaf may begin at a place.
fn is_begin_place(leaf: &Leaf, at: u32) -> bool
    ensures { MatchBool result ((at ≡ 0) ⊎ IsEndPlace leaf.now at) (¬ ((at ≡ 0) ⊎ IsEndPlace leaf.now at)) }
{
    at == 0 || is_end_place(leaf, at)
}

/// Whether a line of a leaf may stand between two places.
fn is_line_between(leaf: &Leaf, from: u32, to: u32) -> bool
    ensures { MatchBool result (IsLineBetween leaf.now from to) (¬ (IsLineBetween leaf.now from to)) }
{
    from < to
        && to as usize <= leaf.text.as_str().len()
        && is_begin_place(leaf, from)
        && is_end_place(leaf, to)
}

/// Whether a solid is a line of a leaf between two places.
fn is_line_of(leaf: &Leaf, s: &Placed) -> bool
    requires { IsGoodLeaf leaf.now }
    ensures { MatchBool result (IsLineBetween leaf.now s.now.at.offset (line_of leaf.now s.now).to)
        (¬ (IsLineBetween leaf.now s.now.at.offset (line_of leaf.now s.now).to)) }
{
    is_line_between(leaf, s.at.offset, end_in(leaf, s))
}

/// Whether a solid is a line of the leaf at its event, if the event is one.
fn is_line_in(tree: &BoxTree, s: &Placed) -> bool
    requires { s.now.at.event < length tree.now.events }
    ensures { MatchBool result (IsLineIn tree.now s.now) (¬ (IsLineIn tree.now s.now)) }
{
    // a tree is known to be one by its count
    let _count = tree.count();
    match tree.event(s.at.event) {
        Event::Leaf(number) => is_line_of(tree.leaf(number), s),
        Event::Opens(_) | Event::Closes(_) => true,
    }
}

/// Whether a solid stands in a tree.
fn stands_in(tree: &BoxTree, s: &Placed) -> bool
    ensures { MatchBool result (StandsIn tree.now s.now) (¬ (StandsIn tree.now s.now)) }
{
    s.at.event < tree.count() && is_line_in(tree, s)
}

/// Whether solids stand in a tree, in the order of its events.
fn are_in_order(tree: &BoxTree, solids: &[Placed]) -> bool
    ensures { MatchBool result (AreInOrder tree.now 0 solids.now) (¬ (AreInOrder tree.now 0 solids.now)) }
{
    let mut from = 0;
    for s in solids {
        if s.at.event < from || !stands_in(tree, s) {
            return false;
        }
        from = s.at.event;
    }
    true
}

/// Whether a solid stands in the body of the note of a number.
fn stands_in_note(notes: &[Note], number: u32, s: &Placed) -> bool
    ensures { MatchBool result (StandsInNote (slice_get notes.now number) s.now)
        (¬ (StandsInNote (slice_get notes.now number) s.now)) }
{
    match notes.get(number as usize) {
        None => false,
        Some(note) => stands_in(&note.body, s),
    }
}

/// Whether solids of notes stand in their bodies, note after note and in order.
fn are_notes_in_order(notes: &[Note], placed: &[PlacedNote]) -> bool
    ensures { MatchBool result (AreNotesInOrder notes.now 0 0 placed.now)
        (¬ (AreNotesInOrder notes.now 0 0 placed.now)) }
{
    let mut note = 0;
    let mut from = 0;
    for (number, s) in placed {
        let falls = *number < note || (*number == note && s.at.event < from);
        if falls || !stands_in_note(notes, *number, s) {
            return false;
        }
        note = *number;
        from = s.at.event;
    }
    true
}

/// Whether a page is one that `place` takes: it stands within bounds, its solids in the main tree and those of its
/// notes in their bodies, in order, and each line between two places. Its time goes with the solids and the places at
/// which lines of their leaves may end.
pub fn is_page_of(flow: &Flow, page: &Page) -> bool
    ensures { MatchBool result (IsPageOf flow.now page.now) (¬ (IsPageOf flow.now page.now)) }
{
    is_bounded_page(page)
        && are_in_order(&flow.main, page.solids.as_slice())
        && are_notes_in_order(flow.notes.as_slice(), page.notes.as_slice())
}
