//! Solids one after the other, from a place on.

ghost use Rattle.std.specs.Prelude.{◌≡◌, ◌+◌, ◌≤◌, ◌^◌, pos, ◌≤ℤ◌, IfOk, IfSome, MatchOption, MatchResult, OnErr};
ghost use Rattle.std.specs.Option.{option_map};
ghost use Rattle.boxes.specs.Tree.{Holds};
ghost use Rattle.line_fill.specs.Kept.{AreKept, HoldsSame};
ghost use Rattle.cursor.specs.Asks.{AsksNext};
ghost use Rattle.cursor.specs.Conditions.{CanBeLaidOut, IsGreedy};
ghost use Rattle.cursor.specs.Cursors.{CanGoOn, next_place};
ghost use Rattle.cursor.specs.Fields.{solid_view};
ghost use Rattle.cursor.specs.KeptLines.{AreLinesOf, StayPlaced};
ghost use Rattle.cursor.specs.Remainder.{IsSmallSolid, IsSolid, steps_of};
ghost use Rattle.seams.specs.Runs.{solid_after};

use crate::kept_lines::KeptLines;
use crate::next::next_solid;
use crate::next_kept::next_solid_kept;
use crate::solid::Solid;
use bk_num::name::NoMem;
use bk_num::steps::Steps;
use boxes::place::Position;
use boxes::tree::BoxTree;
use metrics::Faces;
use seams::run::solid_after;
use seams::seam::widths_at;
use seams::widths::Widths;
use std::marker::Model;
use std::sync::ledger::Ledger;

/// A walk over the solids of a tree, in a frame of a width in units. It takes no memory: the widths of the boxes that
/// are open where it stands go along in it. To go back, a new one is made at an earlier mark.
#[derive(Drop)]
pub struct Cursor<'t> {
    tree: &'t BoxTree,
    faces: &'t Faces,
    width: i64,
    at: Position,
    widths: Widths,
}

impl<'t> Model for Cursor<'t> {
    ghost use Rattle.cursor.specs.Cursors.{CursorView};

    ghost Value = { CursorView };

    ghost use Rattle.cursor.specs.CursorFields.{IsSound, cursor_of};

    ghost view = { cursor_of };

    ghost invariant = { IsSound };
}

impl<'t> Cursor<'t> {
    /// A walk from a place of a tree on, in a frame of a width in units from 0 to 2^30. It is a walk over the boxes
    /// that are open there.
    pub fn resume(tree: &'t BoxTree, faces: &'t Faces, at: Position, width: i64) -> Cursor<'t>
        requires tree { CanBeLaidOut faces.now tree.now }
        requires holds { Holds tree.now at }
        requires low { pos 0 ≤ℤ width }
        requires high { width ≤ℤ pos (2 ^ 30) }
        ensures { result ≡ record { tree = tree.now; faces = faces.now; width = width; at = at } }
    {
        let mut widths = Widths::none();
        widths_at(tree, at, width, &mut widths);
        Cursor {
            tree,
            faces,
            width,
            at,
            widths,
        }
    }

    /// Where the next solid stands, or the tree's end. A walk that is made there goes on with that solid, in a frame of
    /// any width.
    pub fn mark(&self) -> Position
        ensures place { result ≡ next_place self.now.tree self.now.at }
        ensures holds { Holds self.now.tree result }
    {
        let tree = self.tree;
        let at = self.at;
        let Some(event) = solid_after(tree, at.event) else {
            return Position {
                event: tree.count(),
                offset: 0,
            };
        };
        if event == at.event {
            at
        } else {
            Position { event, offset: 0 }
        }
    }

    /// The next solid, or None exactly at the tree's end. It takes no memory, a step for a line, and none for an edge
    /// or at the end. No leaf's lines are chosen as a whole, which would take memory; `next_kept` asks nothing of that.
    pub fn next<L: Ledger>(&mut self, steps: &mut Steps<L>) -> Option<Solid<'t>>
        requires greedy { IsGreedy self.old.tree }
        ensures solid { MatchOption result (solid_after self.old.tree self.old.at.event ≡ None)
            (λ s. IsSolid self.old.faces self.old.tree self.old.width self.old.at (solid_view s)) }
        ensures goes { MatchOption result (self.new ≡ self.old)
            (λ s. self.new ≡ record self.old { at = s.end }) }
        ensures small { IfSome result (λ s. IsSmallSolid (solid_view s)) }
        ensures step { MatchOption result (steps.new ≡ steps.old)
            (λ s. steps.new ≡ steps.old + steps_of (solid_view s)) }
        ensures on { CanGoOn self.new }
    {
        let (tree, faces) = (self.tree, self.faces);
        let (at, width) = (self.at, self.width);
        match next_solid(tree, faces, at, width, &mut self.widths, steps) {
            None => None,
            Some(solid) => {
                self.at = solid.end;
                Some(solid)
            }
        }
    }

    /// The next solid of a tree with a number, or None exactly at the tree's end, where a line is taken from the kept
    /// ones: it takes a step where it isn't held. Where memory is wanting the walk and the lines that are held are as
    /// before.
    pub fn next_kept<L: Ledger>(
        &mut self,
        number: u32,
        lines: &mut KeptLines,
        steps: &mut Steps<L>,
    ) -> Result<Option<Solid<'t>>, NoMem>
        requires { AreLinesOf self.old.faces number self.old.tree lines.old }
        ensures solid { IfOk result (λ o. MatchOption o (solid_after self.old.tree self.old.at.event ≡ None)
            (λ s. IsSolid self.old.faces self.old.tree self.old.width self.old.at (solid_view s))) }
        ensures goes { MatchResult result
            (λ o. MatchOption o (self.new ≡ self.old) (λ s. self.new ≡ record self.old { at = s.end }))
            (λ e. self.new ≡ self.old) }
        ensures small { IfOk result (λ o. IfSome o (λ s. IsSmallSolid (solid_view s))) }
        ensures kept { AreKept self.old.faces lines.new.kept }
        ensures places { StayPlaced number self.old.tree lines.old lines.new }
        ensures asks { IfOk result (λ o. AsksNext self.old.tree self.old.width (option_map solid_view o)
            lines.old.kept lines.new.kept steps.old steps.new) }
        ensures same { OnErr result (HoldsSame lines.old.kept lines.new.kept) }
        ensures most { steps.new ≤ steps.old + 1 }
        ensures on { CanGoOn self.new }
    {
        let (tree, faces) = (self.tree, self.faces);
        let (at, width) = (self.at, self.width);
        match next_solid_kept(
            number,
            tree,
            faces,
            at,
            width,
            &mut self.widths,
            lines,
            steps,
        ) {
            Ok(None) => Ok(None),
            Ok(Some(solid)) => {
                self.at = solid.end;
                Ok(Some(solid))
            }
            Err(err) => Err(err),
        }
    }
}
