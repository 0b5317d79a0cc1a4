//! Which notes are called before a place.

ghost use Rattle.std.specs.Prelude.{◌≡◌, ◌≤◌, None, Some, map, length, IfSome};
ghost use Rattle.std.specs.List.{prefix_len};
ghost use Rattle.bk_num.specs.Limits.{most_entries};
ghost use Rattle.boxes.specs.Tree.{Holds};
ghost use Rattle.note_list.specs.Calls.{called_before, end_before};
ghost use Rattle.page_seq.specs.Places.{NeverFall, anchor_of, is_before};
ghost use Rattle.seams.specs.Runs.{solid_before};

use boxes::flow::{Flow, Note};
use boxes::place::Position;
use boxes::tree::BoxTree;
use page_seq::places::{anchor_of, is_before};
use seams::run::solid_after;

/// The last solid of some events.
fn last_solid(tree: &BoxTree, from: u32, to: u32) -> Option<u32>
    requires order { from ≤ to }
    requires within { to ≤ length tree.now.events }
    ensures some { IfSome result (λ k. solid_before tree.now to ≡ Some k) }
    ensures none { result ≡ None → solid_before tree.now to ≡ solid_before tree.now from }
{
    let mut last = None;
    let mut at = from;
    while let Some(event) = solid_after(tree, at) {
        if event >= to {
            return last;
        }
        last = Some(event);
        at = event + 1;
    }
    last
}

/// The last solid before an event, sought in twice as many events each time.
fn solid_before(tree: &BoxTree, end: u32) -> Option<u32>
    requires { end ≤ length tree.now.events }
    ensures { result ≡ solid_before tree.now end }
{
    let mut from = end;
    while from > 0 {
        from = from.saturating_sub(end - from + 1);
        let last = last_solid(tree, from, end);
        if last.is_some() {
            return last;
        }
    }
    None
}

/// Where the last solid before a place ends.
fn end_before(tree: &BoxTree, at: Position) -> Position
    requires { Holds tree.now at }
    ensures { result ≡ end_before tree.now at }
{
    if at.offset > 0 {
        return at;
    }
    // the count tells that the tree is one that can be built
    let _count = tree.count();
    match solid_before(tree, at.event) {
        Some(event) => Position {
            event: event + 1,
            offset: 0,
        },
        None => Position {
            event: 0,
            offset: 0,
        },
    }
}

/// Whether a note is called before the end of a solid.
fn is_called(tree: &BoxTree, note: &Note, end: Position) -> bool
    ensures { result ≡ is_before (anchor_of tree.now note.now.call) end }
{
    is_before(anchor_of(tree, note.call), end)
}

/// How many notes are called before a place of the main tree, by the order of their calls: a walk of the run before
/// that place, and a binary search among the calls.
pub fn called_before(flow: &Flow, at: Position) -> u32
    requires holds { Holds flow.now.main at }
    requires calls { NeverFall (map (λ n. n.call) flow.now.notes) }
    requires count { length flow.now.notes ≤ most_entries }
    ensures { result ≡ called_before flow.now.main flow.now.notes at }
{
    let notes = flow.notes.as_slice();
    if at.event == flow.main.count() {
        return notes.len() as u32;
    }
    let end = end_before(&flow.main, at);
    notes.partition_point(|note| is_called(&flow.main, note, end)) as u32
}

/// How many notes are called before the end of a solid, where the first `called` are: it takes time in proportion to
/// the others.
pub fn called_by(flow: &Flow, called: u32, end: Position) -> u32
    requires called { called ≤ prefix_len (λ n. is_before (anchor_of flow.now.main n.call) end) flow.now.notes }
    requires count { length flow.now.notes ≤ most_entries }
    ensures { result ≡ prefix_len (λ n. is_before (anchor_of flow.now.main n.call) end) flow.now.notes }
{
    let notes = flow.notes.as_slice();
    for at in called as usize..notes.len() {
        if !is_called(&flow.main, &notes[at], end) {
            return at as u32;
        }
    }
    notes.len() as u32
}
