//! The next solid of a tree, where lines are kept.

ghost use Rattle.std.specs.Prelude.{◌≡◌, ◌+◌, ◌≤◌, ◌^◌, pos, ◌≤ℤ◌, None, Some, slice_get, IfOk, IfSome, MatchOption, MatchResult, OnErr};
ghost use Rattle.std.specs.Option.{option_map};
ghost use Rattle.boxes.specs.Tree.{Holds};
ghost use Rattle.boxes.specs.declared.place.Event.TheVariants as event;
ghost use Rattle.line_fill.specs.Kept.{AreKept, HoldsSame};
ghost use Rattle.cursor.specs.Asks.{AsksForLine, AsksNext, IsHeldNow, KeepsHeld, TakesSteps};
ghost use Rattle.cursor.specs.Conditions.{CanBeLaidOut, IsNext};
ghost use Rattle.cursor.specs.Fields.{solid_view};
ghost use Rattle.cursor.specs.KeptLines.{AreLinesOf, StayPlaced};
ghost use Rattle.cursor.specs.Remainder.{IsSmallSolid, IsSolid, steps_of};
ghost use Rattle.seams.specs.Runs.{solid_after};
ghost use Rattle.seams.specs.Widths.{widths_at};

use crate::edges::{close_solid, open_solid};
use crate::kept_lines::KeptLines;
use crate::leaf_places::LeafNumber;
use crate::leaves::{LeafAt, begin_of};
use crate::lines::solid_of;
use crate::solid::Solid;
use bk_num::name::NoMem;
use bk_num::steps::Steps;
use boxes::page::SolidKind;
use boxes::place::{Event, Position};
use boxes::tree::BoxTree;
use metrics::Faces;
use seams::run::solid_after;
use seams::seam::{seam_along, widths_at};
use seams::widths::Widths;
use std::sync::ledger::Ledger;

/// The line of a leaf that is the first solid at or after a place, from the kept ones where it is held. Where memory is
/// wanting the widths are again those at that place.
#[tactic(auto, using(crate::proofs::AskLemmas::keeps_asked, crate::proofs::AskLemmas::keeps_same))]
fn line_solid_kept<'t, L: Ledger>(
    number: u32,
    tree: &'t BoxTree,
    faces: &Faces,
    found: LeafAt,
    from: Position,
    width: i64,
    widths: &mut Widths,
    lines: &mut KeptLines,
    steps: &mut Steps<L>,
) -> Result<Solid<'t>, NoMem>
    requires tree { CanBeLaidOut faces.now tree.now }
    requires next { IsNext tree.now width from widths.old found.event }
    requires leaf { slice_get tree.now.events found.event ≡ Some (event.Leaf found.number) }
    requires lines { AreLinesOf faces.now number tree.now lines.old }
    ensures solid { IfOk result (λ s. IsSolid faces.now tree.now width from (solid_view s)) }
    ensures small { IfOk result (λ s. IsSmallSolid (solid_view s)) }
    ensures kind { IfOk result (λ s. s.kind ≡ SolidKind.Line) }
    ensures placed { IfOk result (λ s. Holds tree.now s.placed_at) }
    ensures holds { IfOk result (λ s. Holds tree.now s.end) }
    ensures widths { MatchResult result (λ s. widths.new ≡ widths_at tree.now width s.end)
        (λ e. widths.new ≡ widths_at tree.now width from) }
    ensures kept { AreKept faces.now lines.new.kept }
    ensures places { StayPlaced number tree.now lines.old lines.new }
    ensures keeps { KeepsHeld lines.old.kept lines.new.kept }
    ensures asked { IfOk result (λ s. AsksForLine tree.now width (solid_view s) lines.old.kept lines.new.kept
        steps.old steps.new) }
    ensures same { OnErr result (HoldsSame lines.old.kept lines.new.kept) }
    ensures most { steps.new ≤ steps.old + 1 }
{
    // the count tells that the tree is one that can be built
    let _count = tree.count();
    let at = begin_of(found, from);
    let leaf = tree.leaf(found.number);
    // a text that is read is known to be UTF-8, so that a line of it begins at a character
    let _text = leaf.text.as_str();
    let seam = seam_along(tree, at, width, widths);
    let measure = widths.innermost(width);
    let of = LeafNumber {
        tree: number,
        leaf: found.number,
    };
    let Ok(line) = lines.line(faces, tree, of, leaf, at.offset, measure, steps) else {
        widths_at(tree, from, width, widths);
        return Err(NoMem);
    };
    Ok(solid_of(faces, leaf, at, line, seam))
}

/// The first solid at or after a place of a tree with a number, in a frame of a width in units from 0 to 2^30, or None
/// at the tree's end. A line is taken from the kept ones, and takes a step where it isn't held. The widths are those at
/// that place (`seams::seam::widths_at`), and become those at the solid's end; where memory is wanting they stay.
#[tactic(auto, using(crate::proofs::AskLemmas::keeps_all, crate::proofs::StepLemmas::takes_none))]
pub fn next_solid_kept<'t, L: Ledger>(
    number: u32,
    tree: &'t BoxTree,
    faces: &Faces,
    from: Position,
    width: i64,
    widths: &mut Widths,
    lines: &mut KeptLines,
    steps: &mut Steps<L>,
) -> Result<Option<Solid<'t>>, NoMem>
    requires tree { CanBeLaidOut faces.now tree.now }
    requires holds { Holds tree.now from }
    requires low { pos 0 ≤ℤ width }
    requires high { width ≤ℤ pos (2 ^ 30) }
    requires widths { widths.old ≡ widths_at tree.now width from }
    requires lines { AreLinesOf faces.now number tree.now lines.old }
    ensures solid { IfOk result (λ o. MatchOption o (solid_after tree.now from.event ≡ None)
        (λ s. IsSolid faces.now tree.now width from (solid_view s))) }
    ensures placed { IfOk result (λ o. IfSome o (λ s. Holds tree.now s.placed_at)) }
    ensures holds { IfOk result (λ o. IfSome o (λ s. Holds tree.now s.end)) }
    ensures widths { IfOk result (λ o. MatchOption o (widths.new ≡ widths.old)
        (λ s. widths.new ≡ widths_at tree.now width s.end)) }
    ensures stays { OnErr result (widths.new ≡ widths.old) }
    ensures small { IfOk result (λ o. IfSome o (λ s. IsSmallSolid (solid_view s))) }
    ensures kept { AreKept faces.now lines.new.kept }
    ensures places { StayPlaced number tree.now lines.old lines.new }
    ensures keeps { KeepsHeld lines.old.kept lines.new.kept }
    ensures now { IfOk result (λ o. IfSome o (λ s. IsHeldNow tree.now width lines.new.kept s.placed_at)) }
    ensures asks { IfOk result (λ o. AsksNext tree.now width (option_map solid_view o) lines.old.kept lines.new.kept
        steps.old steps.new) }
    ensures takes { IfOk result (λ o. TakesSteps lines.old.kept lines.new.kept steps.old steps.new) }
    ensures step { IfOk result (λ o. MatchOption o (steps.new ≡ steps.old)
        (λ s. steps.new ≤ steps.old + steps_of (solid_view s))) }
    ensures same { OnErr result (HoldsSame lines.old.kept lines.new.kept) }
    ensures most { steps.new ≤ steps.old + 1 }
{
    // the count tells that the tree is one that can be built
    let _count = tree.count();
    let Some(event) = solid_after(tree, from.event) else {
        return Ok(None);
    };
    match tree.event(event) {
        Event::Leaf(index) => {
            let found = LeafAt {
                event,
                number: index,
            };
            match line_solid_kept(
                number, tree, faces, found, from, width, widths, lines, steps,
            ) {
                Ok(solid) => Ok(Some(solid)),
                Err(err) => Err(err),
            }
        }
        Event::Opens(index) => Ok(Some(open_solid(tree, from, event, index, width, widths))),
        Event::Closes(index) => Ok(Some(close_solid(tree, from, event, index, width, widths))),
    }
}
