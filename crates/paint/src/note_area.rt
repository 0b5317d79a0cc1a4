//! Items of the note area of a page.

ghost use Rattle.std.specs.Prelude.{◌≡◌, ◌+◌, ◌≤◌, ◌∷◌, [], OnOk, Some, All, pos, ◌≤ℤ◌, ◌^◌, length, ◌<◌, slice_get};
ghost use Rattle.std.specs.List.{flat_map, range_with_len};
ghost use Rattle.boxes.specs.Frames.{IsGoodFrame};
ghost use Rattle.notes.specs.Notes.{placed_height};
ghost use Rattle.boxes.specs.declared.flow.Note.{Note};
ghost use Rattle.notes.specs.Near.{IsNearSolid};
ghost use Rattle.paint.specs.Bounds.{IsGoodOrigin};
ghost use Rattle.paint.specs.Conditions.{CanNotesBePainted};
ghost use Rattle.paint.specs.Groups.{GoesOn};
ghost use Rattle.paint.specs.Items.{for_some};
ghost use Rattle.paint.specs.Order.{AreNotesInOrder, AreOfNote};
ghost use Rattle.paint.specs.Pages.{area_items, area_origin, note_items, separator_area, separator_at, tree_items};
ghost use Rattle.paint.specs.Views.{Adds, HaveItemFaces, items_in};

use crate::item::{Area, Canvas, ItemRef, SolidOrigin};
use crate::rects::push_rect;
use crate::trees::push_tree;
use bk_num::limits::SEPARATOR;
use bk_num::name::NoMem;
use bk_num::values::BLACK;
use boxes::flow::Note;
use boxes::frames::Frame;
use boxes::page::{Placed, PlacedNote};
use metrics::Faces;
use notes::area::placed_height;
use std::alloc::Global;

/// The height of the note area in which solids are placed, in units.
fn area_height(notes: &[PlacedNote]) -> i64
    requires { All (λ note. IsNearSolid note.1) notes.now }
    ensures value { result ≡ placed_height notes.now }
    ensures low { pos 0 ≤ℤ result }
    ensures high { result ≤ℤ pos (2 ^ 60 + 2 ^ 32) }
{
    placed_height(notes)
}

/// What the places of a page's note solids count from.
fn area_origin(frame: &Frame, notes: &[PlacedNote]) -> SolidOrigin
    requires frame { IsGoodFrame frame.now }
    requires solids { All (λ note. IsNearSolid note.1) notes.now }
    ensures value { result ≡ area_origin frame.now notes.now }
    ensures good { IsGoodOrigin result }
{
    let height = area_height(notes);
    SolidOrigin {
        left: frame.left,
        top: frame.top + frame.height - height,
        width: frame.width,
    }
}

/// Where the separator stands.
fn separator_area(origin: &SolidOrigin) -> Area
    requires { IsGoodOrigin origin.now }
    ensures { result ≡ separator_area origin.now }
{
    Area {
        x: origin.left,
        y: origin.top + SEPARATOR.div_euclid(2),
        w: origin.width.div_euclid(3),
        h: 64,
    }
}

/// Adds the separator.
fn push_separator<'a>(
    out: &mut Vec<ItemRef<'a>>,
    faces: &Faces,
    origin: &SolidOrigin,
) -> Result<(), NoMem>
    requires origin { IsGoodOrigin origin.now }
    requires faces { HaveItemFaces faces.now out.old.items }
    ensures items { OnOk result (Adds faces.now out.old.items (separator_at origin.now ∷ []) out.new.items) }
    ensures faces { OnOk result (HaveItemFaces faces.now out.new.items) }
{
    push_rect(out, faces, separator_area(origin), BLACK)
}

/// The note of a number.
fn note_at(notes: &[Note], number: usize) -> &Note
    requires { number < length notes.now }
    ensures { slice_get notes.now number ≡ Some result.now }
{
    &notes[number]
}

/// A note, and those of its solids that were met.
#[derive(Drop)]
struct Group {
    number: usize,
    solids: Vec<Placed>,
}

/// Adds what is painted of a note.
fn push_note<'a>(
    alloc: Global,
    out: &mut Vec<ItemRef<'a>>,
    faces: &'a Faces,
    notes: &'a [Note],
    origin: SolidOrigin,
    group: &Group,
) -> Result<(), NoMem>
    requires bodies { CanNotesBePainted faces.now notes.now }
    requires origin { IsGoodOrigin origin }
    requires solids { AreOfNote notes.now group.now.number group.now.solids.items }
    requires number { group.now.number < length notes.now }
    requires faces { HaveItemFaces faces.now out.old.items }
    ensures items { OnOk result (Adds faces.now out.old.items
        (for_some (λ (note : Note). tree_items faces.now note.body origin group.now.solids.items)
        (slice_get notes.now group.now.number)) out.new.items) }
    ensures faces { OnOk result (HaveItemFaces faces.now out.new.items) }
{
    let note = note_at(notes, group.number);
    let canvas = Canvas {
        faces,
        tree: &note.body,
        origin,
    };
    push_tree(alloc, out, &canvas, &group.solids)?;
    Ok(())
}

/// Turns to a later note, or stays: adds what is painted of the note that was met.
fn turn_to<'a>(
    alloc: Global,
    out: &mut Vec<ItemRef<'a>>,
    faces: &'a Faces,
    notes: &'a [Note],
    origin: SolidOrigin,
    group: &mut Group,
    next: usize,
) -> Result<(), NoMem>
    requires bodies { CanNotesBePainted faces.now notes.now }
    requires origin { IsGoodOrigin origin }
    requires solids { AreOfNote notes.now group.old.number group.old.solids.items }
    requires later { group.old.number ≤ next }
    requires most { next ≤ length notes.now }
    requires faces { HaveItemFaces faces.now out.old.items }
    ensures items { OnOk result (GoesOn faces.now notes.now origin
        (items_in faces.now out.old.items) group.old.number group.old.solids.items
        (items_in faces.now out.new.items) group.new.number group.new.solids.items) }
    ensures number { OnOk result (group.new.number ≡ next) }
    ensures solids { OnOk result (All IsNearSolid group.new.solids.items) }
    ensures faces { OnOk result (HaveItemFaces faces.now out.new.items) }
{
    if next == group.number {
        return Ok(());
    }
    push_note(alloc, out, faces, notes, origin, group)?;
    group.number = next;
    group.solids.clear();
    Ok(())
}

/// Adds what is painted of notes, in order, from an origin.
fn push_notes<'a>(
    alloc: Global,
    out: &mut Vec<ItemRef<'a>>,
    faces: &'a Faces,
    notes: &'a [Note],
    origin: SolidOrigin,
    placed: &[PlacedNote],
) -> Result<(), NoMem>
    requires bodies { CanNotesBePainted faces.now notes.now }
    requires origin { IsGoodOrigin origin }
    requires solids { All (λ note. IsNearSolid note.1) placed.now }
    requires order { AreNotesInOrder notes.now 0 0 placed.now }
    requires faces { HaveItemFaces faces.now out.old.items }
    ensures items { OnOk result (Adds faces.now out.old.items
        (flat_map (note_items faces.now notes.now origin placed.now)
        (range_with_len 0 (length notes.now))) out.new.items) }
    ensures faces { OnOk result (HaveItemFaces faces.now out.new.items) }
{
    let mut group = Group {
        number: 0,
        solids: Vec::new(alloc),
    };
    for (number, s) in placed {
        turn_to(
            alloc,
            out,
            faces,
            notes,
            origin,
            &mut group,
            *number as usize,
        )?;
        group.solids.push(*s)?;
    }
    turn_to(alloc, out, faces, notes, origin, &mut group, notes.len())?;
    Ok(())
}

/// Adds the items of the note area of a page.
pub(crate) fn push_area<'a>(
    alloc: Global,
    out: &mut Vec<ItemRef<'a>>,
    faces: &'a Faces,
    notes: &'a [Note],
    frame: &Frame,
    placed: &[PlacedNote],
) -> Result<(), NoMem>
    requires bodies { CanNotesBePainted faces.now notes.now }
    requires frame { IsGoodFrame frame.now }
    requires solids { All (λ note. IsNearSolid note.1) placed.now }
    requires order { AreNotesInOrder notes.now 0 0 placed.now }
    requires faces { HaveItemFaces faces.now out.old.items }
    ensures items { OnOk result (Adds faces.now out.old.items
        (area_items faces.now notes.now frame.now placed.now) out.new.items) }
    ensures faces { OnOk result (HaveItemFaces faces.now out.new.items) }
{
    if placed.is_empty() {
        return Ok(());
    }
    let origin = area_origin(frame, placed);
    push_separator(out, faces, &origin)?;
    push_notes(alloc, out, faces, notes, origin, placed)?;
    Ok(())
}
