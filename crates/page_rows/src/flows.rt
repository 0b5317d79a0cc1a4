//! Flows in short, and their pages.

ghost use Rattle.std.specs.Prelude.{◌≡◌, ◌<◌, ◌≤◌, ◌+◌, ℕ, All, Some, false, length, map, slice_get, IfOk};
ghost use Rattle.bk_num.specs.Limits.{most_entries};
ghost use Rattle.boxes.specs.Clones.{AreSliced};
ghost use Rattle.boxes.specs.Frames.{IsGoodFrame};
ghost use Rattle.boxes.specs.declared.flow.Note.{Note};
ghost use Rattle.cursor.specs.Conditions.{IsGreedy};
ghost use Rattle.note_list.specs.Conditions.{CanBeCut, CanBePaged};
ghost use Rattle.page_seq.specs.Places.{NeverFall, is_before};

use bk_num::items::Items;
use bk_num::limits::MOST_ENTRIES;
use bk_num::name::NoMem;
use bk_num::steps::Steps;
use boxes::flow::{Flow, Note};
use boxes::frames::{Frame, OneFrame};
use boxes::page::PageList;
use boxes::place::Position;
use fragment::paginate::paginate;
use metrics::Faces;
use page_seq::places::is_before;
use std::alloc::Global;
use std::marker::Brand;
use std::sync::ledger::{Blank, Ledger};
use tree_fixtures::tree::{Step, tree_of};

/// A face whose characters have half an em.
pub const METRICS: &str = "bookmetrics 1\nface test normal 400 16 12 4 8\n";

/// A note in short: the place of its call, and how its body is made.
#[derive(Debug, Drop)]
pub struct NoteInShort<'a> {
    pub call: Position,
    pub body: Vec<Step<'a>>,
}

/// A note, whose body can be cut.
fn note_of(alloc: Global, faces: &Faces, note: &NoteInShort<'_>) -> Result<Note, NoMem>
    requires some { 0 < length faces.now }
    ensures body { IfOk result (λ n. CanBeCut faces.now n.body) }
    ensures sliced { IfOk result (λ n. AreSliced n.body.boxes) }
    ensures call { IfOk result (λ n. n.call ≡ note.now.call) }
{
    let body = tree_of(alloc, note.body.as_slice(), false)?;
    // that the tree is one that can be built
    let _count = body.count();
    Ok(Note {
        call: note.call,
        body,
    })
}

/// Whether a call stands before the last one of a list.
fn falls(list: &[Note], call: Position) -> bool
    ensures { result ≡ false → (k : ℕ) (a : Note) → k + 1 ≡ length list.now → slice_get list.now k ≡ Some a →
        is_before call a.call ≡ false }
{
    match list.last() {
        Some(last) => is_before(call, last.call),
        None => false,
    }
}

/// Notes in the order of their calls. An error where a call stands before the one before it.
fn notes_of(alloc: Global, faces: &Faces, notes: &[NoteInShort<'_>]) -> Result<Vec<Note>, NoMem>
    requires some { 0 < length faces.now }
    ensures bodies { IfOk result (λ v. All (λ n. CanBeCut faces.now n.body) v.items) }
    ensures sliced { IfOk result (λ v. All (λ n. AreSliced n.body.boxes) v.items) }
    ensures calls { IfOk result (λ v. NeverFall (map (λ n. n.call) v.items)) }
    ensures count { IfOk result (λ v. length v.items ≤ most_entries) }
{
    let mut list = Vec::new(alloc);
    for note in notes {
        let note = note_of(alloc, faces, note)?;
        if falls(&list, note.call) || list.len() >= MOST_ENTRIES as usize {
            return Err(NoMem);
        }
        list.push(note)?;
    }
    Ok(list)
}

/// The flow of a tree in short, with notes in the order of their calls. An error where a call stands before the one
/// before it.
pub fn flow_with_notes(
    alloc: Global,
    faces: &Faces,
    steps: &[Step<'_>],
    notes: &[NoteInShort<'_>],
) -> Result<Flow, NoMem>
    requires some { 0 < length faces.now }
    ensures paged { IfOk result (λ flow. CanBePaged faces.now flow) }
    ensures greedy { IfOk result (λ flow. IsGreedy flow.main) }
{
    let tree = tree_of(alloc, steps, true)?;
    // that the tree is one that can be built
    let _count = tree.count();
    let list = notes_of(alloc, faces, notes)?;
    Ok(Flow {
        main: tree,
        notes: Items::of(list),
        starts: Items::of(Vec::new(alloc)),
        strings: Items::of(Vec::new(alloc)),
        resets: Items::of(Vec::new(alloc)),
    })
}

/// The flow of a tree in short, without notes.
pub fn flow_of(alloc: Global, faces: &Faces, steps: &[Step<'_>]) -> Result<Flow, NoMem>
    requires some { 0 < length faces.now }
    ensures paged { IfOk result (λ flow. CanBePaged faces.now flow) }
{
    flow_with_notes(alloc, faces, steps, &[])
}

/// A frame of a width and a height in units.
pub fn frame(width: u16, height: u16) -> Frame
    ensures { IsGoodFrame result }
{
    Frame {
        left: 0,
        top: 0,
        width: i64::from(width),
        height: i64::from(height),
    }
}

/// The pages of a flow in frames of a width and a height.
fn pages_of<L: Ledger>(
    alloc: Global,
    flow: &Flow,
    faces: &Faces,
    size: (u16, u16),
    token: Blank,
) -> Option<PageList>
    requires name { token.name ≡ L.name }
    requires parts { token.parts ≡ L.parts }
    requires counted { 0 < L.parts }
    requires flow { CanBePaged faces.now flow.now }
{
    let mut steps = Steps::<L>::zero(token);
    let frames = OneFrame {
        frame: frame(size.0, size.1),
    };
    paginate(alloc, flow, faces, &frames, &mut steps).ok()
}

/// The same, with a counter of its own.
pub fn paged(alloc: Global, flow: &Flow, faces: &Faces, size: (u16, u16)) -> Option<PageList>
    requires flow { CanBePaged faces.now flow.now }
{
    pages_of::<Brand>(alloc, flow, faces, size, Blank::new(1))
}
