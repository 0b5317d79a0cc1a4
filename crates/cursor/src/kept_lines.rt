//! Kept lines, with the places of the leaves of some trees.

ghost use Rattle.std.specs.Prelude.{◌≡◌, ◌+◌, ◌<◌, ◌≤◌, ◌^◌, [], List, ℕ, length, slice_get, Some, unsigned_abs, IfOk, OnOk, OnErr};
ghost use Rattle.std.specs.List.{All};
ghost use Rattle.std.specs.Str.{IsCharBoundary};
ghost use Rattle.metrics.specs.Face.{FontFace};
ghost use Rattle.boxes.specs.Contents.{IsGoodLeaf};
ghost use Rattle.boxes.specs.Tree.{Tree};
ghost use Rattle.boxes.specs.declared.leaf.Leaf.{Leaf};
ghost use Rattle.line_fill.specs.LineEnd.{IsLine};
ghost use Rattle.line_fill.specs.Keys.{key_of};
ghost use Rattle.line_fill.specs.Kept.{AreKept, Asked, HasAsked, HasTurned, Holds, HoldsSame, IsLeafAt, asked_of};
ghost use Rattle.cursor.specs.KeptLines.{AreLinesOf, ArePlaced, StayPlaced, lines_with};

use crate::leaf_places::{LeafNumber, LeafPlaces};
use bk_num::name::NoMem;
use bk_num::steps::Steps;
use boxes::leaf::Leaf;
use boxes::line::Line;
use boxes::tree::BoxTree;
use line_fill::kept::Kept;
use metrics::Faces;
use std::alloc::Global;
use std::marker::Model;
use std::sync::ledger::Ledger;

/// The place of a tree's leaf at a measure in units. It is noted, so that the leaf is sought by its text once.
fn place(
    alloc: Global,
    kept: &mut Kept,
    places: &mut LeafPlaces,
    tree: &BoxTree,
    number: LeafNumber,
    measure: i64,
) -> Result<u32, NoMem>
    requires leaf { number.leaf < length tree.now.leaves }
    requires placed { ArePlaced number.tree tree.now (lines_with kept.old places.old) }
    ensures at { IfOk result (λ at. (leaf : Leaf) → slice_get tree.now.leaves number.leaf ≡ Some leaf →
        IsLeafAt kept.new at (key_of leaf) measure) }
    ensures same { HoldsSame kept.old kept.new }
    ensures placed { StayPlaced number.tree tree.now (lines_with kept.old places.old)
        (lines_with kept.new places.new) }
{
    if let Some(at) = places.get(number, measure) {
        return Ok(at);
    }
    let leaf = tree.share(number.leaf)?;
    let at = kept.place(alloc, &leaf, measure)?;
    places.note(number, measure, at)?;
    Ok(at)
}

/// Lines that are kept from one pass to the next, for the trees of a flow, each of which has a number of its own in a
/// pass: where a leaf is kept at a measure is sought by its text once in a pass, and found by numbers from then on.
#[derive(Drop)]
pub struct KeptLines {
    alloc: Global,
    kept: Kept,
    places: LeafPlaces,
}

impl Model for KeptLines {
    ghost use Rattle.cursor.specs.KeptLines.{KeptLinesView, lines_with};

    ghost Value = { KeptLinesView };

    ghost view = { λ k. lines_with k.kept k.places };
}

impl KeptLines {
    /// No lines. It takes no memory.
    pub fn new(alloc: Global) -> KeptLines
        ensures value { result.kept ≡ [] }
        ensures kept { (faces : List FontFace) → AreKept faces result.kept }
        ensures none { (a : Asked) → Holds result.kept a → ⊥ }
        ensures placed { (number : ℕ) (t : Tree) → ArePlaced number t result }
    {
        KeptLines {
            alloc,
            kept: Kept::new(alloc),
            places: LeafPlaces::new(alloc),
        }
    }

    /// The line of a tree's leaf that begins at an offset, at a measure in units. It takes one step where neither this
    /// pass nor the one before asked for it, and else none.
    pub fn line<L: Ledger>(
        &mut self,
        faces: &Faces,
        tree: &BoxTree,
        number: LeafNumber,
        leaf: &Leaf,
        from: u32,
        measure: i64,
        steps: &mut Steps<L>,
    ) -> Result<Line, NoMem>
        requires leaf { slice_get tree.now.leaves number.leaf ≡ Some leaf.now }
        requires good { IsGoodLeaf leaf.now }
        requires faced { All (λ s. s.face.0 < length faces.now) leaf.now.spans }
        requires from { from < length leaf.now.text }
        requires measure { unsigned_abs measure ≤ 2 ^ 40 }
        requires lines { AreLinesOf faces.now number.tree tree.now self.old }
        ensures line { IfOk result (λ line. IsLine faces.now leaf.now from measure line) }
        ensures end { IfOk result (λ line. IsCharBoundary leaf.now.text line.to) }
        ensures kept { AreKept faces.now self.new.kept }
        ensures asked { OnOk result (HasAsked (asked_of leaf.now from measure) self.old.kept self.new.kept) }
        ensures held { OnOk result (Holds self.old.kept (asked_of leaf.now from measure) → steps.new ≡ steps.old) }
        ensures fresh { OnOk result ((Holds self.old.kept (asked_of leaf.now from measure) → ⊥) →
            steps.new ≡ steps.old + 1) }
        ensures same { OnErr result (HoldsSame self.old.kept self.new.kept) }
        ensures most { steps.new ≤ steps.old + 1 }
        ensures placed { StayPlaced number.tree tree.now self.old self.new }
    {
        let at = place(
            self.alloc,
            &mut self.kept,
            &mut self.places,
            tree,
            number,
            measure,
        )?;
        self.kept.line_in(faces, at, leaf, from, measure, steps)
    }

    /// Forgets the places, so that the numbers may stand for other trees. The lines stay. It takes no memory.
    pub fn forget(&mut self)
        ensures same { self.new.kept ≡ self.old.kept }
        ensures placed { (number : ℕ) (t : Tree) → ArePlaced number t self.new }
    {
        self.places.clear();
    }

    /// This pass becomes the pass before, and the places are forgotten: trees are built anew. It takes no memory.
    pub fn turn(&mut self)
        ensures turned { HasTurned self.old.kept self.new.kept }
        ensures kept { (faces : List FontFace) → AreKept faces self.old.kept → AreKept faces self.new.kept }
        ensures placed { (number : ℕ) (t : Tree) → ArePlaced number t self.new }
    {
        self.kept.turn();
        self.places.clear();
    }
}
