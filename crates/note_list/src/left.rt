//! What is left of the notes of a page.

ghost use Rattle.std.specs.Prelude.{◌≡◌, ◌<◌, ◌≤◌, ◌++◌, ◌∷◌, [], ℕ, ℤ, List, Some, length, All, IfOk, IfSome, OnOk};
ghost use Rattle.std.specs.List.{flat_map};
ghost use Rattle.bk_num.specs.Limits.{most_entries};
ghost use Rattle.metrics.specs.Face.{FontFace};
ghost use Rattle.note_list.specs.Conditions.{IsAtSolid, IsHeld, NotesAscend};
ghost use Rattle.note_list.specs.Left.{left_after_last, left_at, left_from, left_of_last, left_part, next_of, whole_notes};
ghost use Rattle.note_list.specs.Lists.{AreNoted, NotePart, carried_parts};
ghost use Rattle.note_list.specs.declared.solid.NotedSolid.{NotedSolid};

use crate::carried::{Carried, CarriedNotes, body_of, whole};
use crate::solid::NotedSolid;
use bk_num::name::NoMem;
use boxes::flow::Flow;
use boxes::place::Position;
use seams::run::solid_after;
use std::alloc::Global;

/// Where a note goes on at a solid at or after a place of its body.
fn going_on(part: Carried, event: u32) -> Carried
    ensures { result ∷ [] ≡ left_at part (Some event) }
{
    let offset = if event == part.at.event {
        part.at.offset
    } else {
        0
    };
    Carried {
        note: part.note,
        at: Position { event, offset },
    }
}

/// Adds what is left of a note from a place of its body on.
fn push_part(left: &mut CarriedNotes, flow: &Flow, part: Carried) -> Result<(), NoMem>
    requires { IsHeld flow.now.notes part }
    ensures { OnOk result (left.new ≡ left.old ++ left_part flow.now.notes part) }
{
    match solid_after(body_of(flow, part.note), part.at.event) {
        Some(event) => left.push_back(going_on(part, event)),
        None => Ok(()),
    }
}

/// Adds what is left of a note where its number is `next` or above.
fn push_from(left: &mut CarriedNotes, flow: &Flow, next: u32, part: Carried) -> Result<(), NoMem>
    requires { IsHeld flow.now.notes part }
    ensures { OnOk result (left.new ≡ left.old ++ left_from flow.now.notes next part) }
{
    if part.note < next {
        return Ok(());
    }
    push_part(left, flow, part)?;
    Ok(())
}

fn push_called(
    left: &mut CarriedNotes,
    flow: &Flow,
    next: u32,
    from: u32,
    to: u32,
) -> Result<(), NoMem>
    requires order { from ≤ to }
    requires within { to ≤ length flow.now.notes }
    ensures { OnOk result (left.new ≡ left.old ++ flat_map (left_from flow.now.notes next) (whole_notes from to)) }
{
    for note in from..to {
        push_from(left, flow, next, whole(note))?;
    }
    Ok(())
}

/// The number after that of the note of the last solid that is placed.
fn next_of(last: Option<NotedSolid>) -> u32
    requires { IfSome last (λ s. s.note < most_entries) }
    ensures { result ≡ next_of last }
{
    match last {
        Some(solid) => solid.note + 1,
        None => 0,
    }
}

/// Adds what is left of the note of the last solid that is placed, before all others.
fn push_last(left: &mut CarriedNotes, flow: &Flow, last: Option<NotedSolid>) -> Result<(), NoMem>
    requires { IfSome last (λ s. IsHeld flow.now.notes (record { note = s.note; at = s.end })) }
    ensures { OnOk result (left.new ≡ left_of_last flow.now.notes last ++ left.old) }
{
    let Some(solid) = last else {
        return Ok(());
    };
    let part = Carried {
        note: solid.note,
        at: solid.end,
    };
    match solid_after(body_of(flow, part.note), part.at.event) {
        Some(event) => left.push_front(going_on(part, event)),
        None => Ok(()),
    }
}

/// What is left after the last solid that is placed, of the carried notes, which go on at solids, and of those called
/// from a number up to another. Only what is placed or called is read.
pub(crate) fn left_after(
    flow: &Flow,
    carried: CarriedNotes,
    from: u32,
    to: u32,
    last: Option<NotedSolid>,
) -> Result<CarriedNotes, NoMem>
    requires stands { All (IsAtSolid flow.now.notes) carried }
    requires ascend { NotesAscend carried }
    requires order { from ≤ to }
    requires within { to ≤ length flow.now.notes }
    requires few { length flow.now.notes ≤ most_entries }
    requires last { IfSome last (λ s. IsHeld flow.now.notes (record { note = s.note; at = s.end })) }
    ensures { IfOk result (λ left. left ≡ left_after_last flow.now.notes carried from to last) }
{
    let mut left = carried;
    let next = next_of(last);
    left.drop_below(next);
    push_last(&mut left, flow, last)?;
    push_called(&mut left, flow, next, from, to)?;
    Ok(left)
}

impl CarriedNotes {
    /// What is left of notes from places of their bodies on: each that has a solid from there on goes on at the first
    /// one. It is as good as those places: they have the same lists.
    pub fn settled(alloc: Global, flow: &Flow, parts: &[Carried]) -> Result<CarriedNotes, NoMem>
        requires held { All (IsHeld flow.now.notes) parts.now }
        requires order { NotesAscend parts.now }
        ensures held { IfOk result (λ c. All (IsHeld flow.now.notes) c) }
        ensures stands { IfOk result (λ c. All (IsAtSolid flow.now.notes) c) }
        ensures order { IfOk result (λ c. NotesAscend c) }
        ensures below { IfOk result (λ c. (to : ℕ) → All (λ p. p.note < to) parts.now → All (λ p. p.note < to) c) }
        ensures lists { IfOk result (λ c.
            (faces : List FontFace) (width : ℤ) (more : List NotePart) (list : List NotedSolid) →
            AreNoted faces flow.now.notes width (carried_parts c ++ more) list →
            AreNoted faces flow.now.notes width (carried_parts parts.now ++ more) list) }
    {
        let mut left = CarriedNotes::new(alloc);
        for part in parts {
            push_part(&mut left, flow, *part)?;
        }
        Ok(left)
    }
}
