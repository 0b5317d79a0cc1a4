//! The solids that are read, from page to page.

ghost use Rattle.std.specs.Prelude.{◌≡◌, ℕ, ℤ, ◌+◌, ◌<◌, ◌≤◌, ◌≤ℤ◌, ◌^◌, ◌++◌, ◌∷◌, [], pos, length, drop, take, slice_get, List, Some, None, IfOk, OnOk, MatchOption, true, false};
ghost use Rattle.bk_num.specs.Limits.{most_open};
ghost use Rattle.boxes.specs.Tree.{Holds, Tree, depth_of};
ghost use Rattle.boxes.specs.declared.place.Position.{Position};
ghost use Rattle.cursor.specs.Asks.{AsksNext, KeepsHeld, TakesSteps};
ghost use Rattle.cursor.specs.Conditions.{CanBeLaidOut};
ghost use Rattle.cursor.specs.KeptLines.{AreLinesOf, StayPlaced};
ghost use Rattle.cursor.specs.Remainder.{SolidView, steps_of};
ghost use Rattle.cursor.specs.declared.solid.Solid.{Solid};
ghost use Rattle.cuts.specs.Prefixes.{AreJoined};
ghost use Rattle.fragment.specs.Ahead.{AreJoinedWithin, CanReadOn, IsAhead, IsPageAhead, end_of, page_of};
ghost use Rattle.line_fill.specs.Kept.{AreKept};
ghost use Rattle.line_fill.specs.declared.kept.KeptLeaf.{KeptLeaf};
ghost use Rattle.metrics.specs.Face.{FontFace};
ghost use Rattle.seams.specs.Runs.{solid_after};
ghost use Rattle.seams.specs.Widths.{widths_at};

use crate::rows::row_of;
use bk_num::name::NoMem;
use bk_num::steps::Steps;
use boxes::place::Position;
use boxes::tree::BoxTree;
use cursor::solid::Solid;
use cursor::{KeptLines, next_solid_kept};
use cuts::row::SolidRow;
use metrics::Faces;
use seams::seam::widths_at;
use seams::widths::Widths;
use std::alloc::Global;
use std::sync::ledger::Ledger;

/// The numbers of solids that are lines which go on with the leaf of the solid before them, one after the other.
#[derive(Clone, Copy)]
pub(crate) struct JoinedLines {
    pub from: usize,
    pub to: usize,
}

impl JoinedLines {
    /// No line.
    const NONE: JoinedLines = JoinedLines { from: 0, to: 0 };

    /// With the solid after all others, which has a number.
    fn with(self, number: usize, joins: bool) -> JoinedLines
        requires { number < 2 ^ 63 }
        ensures apart { joins ≡ false → result ≡ self }
        ensures next { joins ≡ true → self.to ≡ number → (result.from ≡ self.from) × (result.to ≡ number + 1) }
        ensures first { joins ≡ true → (self.to ≡ number → ⊥) → (result.from ≡ number) × (result.to ≡ number + 1) }
    {
        if !joins {
            return self;
        }
        let from = if self.to == number { self.from } else { number };
        JoinedLines {
            from,
            to: number + 1,
        }
    }
}

/// Takes the first items of a list away. Those that are left move to its start.
fn remove_first<T: Copy>(items: &mut Vec<T>, count: usize)
    requires { count ≤ length items.old.items }
    ensures { items.new.items ≡ drop count items.old.items }
{
    let count_in_all = items.len();
    items.copy_within(count..count_in_all, 0);
    items.truncate(count_in_all - count);
}

/// The solids that are read, in a frame of a width in units, one after the other, each with what a cut reads of it.
/// `first` is the number of the first one of a page: those before it stand on earlier pages.
#[derive(Drop)]
pub(crate) struct Ahead<'t> {
    pub solids: Vec<Solid<'t>>,
    pub rows: Vec<SolidRow>,
    pub joined: JoinedLines,
    pub width: i64,
    pub first: usize,
}

impl<'t> Ahead<'t> {
    /// Nothing is read. It takes no memory.
    pub(crate) fn none(alloc: Global) -> Ahead<'t>
        ensures { (faces : List FontFace) (t : Tree) (kept : List KeptLeaf) → IsAhead faces t kept result }
    {
        Ahead {
            solids: Vec::new(alloc),
            rows: Vec::new(alloc),
            joined: JoinedLines::NONE,
            width: 0,
            first: 0,
        }
    }

    /// Whether the solids from the first one on begin at a place, in a frame of a width.
    fn begins(&self, at: Position, width: i64) -> bool
        ensures { result ≡ true → (s : Solid) × (slice_get self.now.solids.items self.now.first ≡ Some s) ×
            (s.placed_at ≡ at) × (self.now.width ≡ width) }
    {
        self.first < self.solids.len()
            && self.solids[self.first].placed_at == at
            && self.width == width
    }

    /// Nothing is read in a frame of a width.
    fn clear(&mut self, width: i64)
        ensures solids { self.new.solids.items ≡ [] }
        ensures rows { self.new.rows.items ≡ [] }
        ensures joined { (self.new.joined.from ≡ 0) × (self.new.joined.to ≡ 0) }
        ensures width { self.new.width ≡ width }
        ensures first { self.new.first ≡ 0 }
    {
        self.solids.clear();
        self.rows.clear();
        self.joined = JoinedLines::NONE;
        self.width = width;
        self.first = 0;
    }

    /// Forgets the solids before the first one.
    fn forget(&mut self)
        requires within { self.old.first ≤ length self.old.solids.items }
        requires rows { length self.old.rows.items ≡ length self.old.solids.items }
        ensures solids { self.new.solids.items ≡ drop self.old.first self.old.solids.items }
        ensures rows { self.new.rows.items ≡ drop self.old.first self.old.rows.items }
        ensures joined { AreJoinedWithin self.old.joined self.old.rows.items →
            AreJoinedWithin self.new.joined self.new.rows.items }
        ensures width { self.new.width ≡ self.old.width }
        ensures first { self.new.first ≡ 0 }
    {
        remove_first(&mut self.solids, self.first);
        remove_first(&mut self.rows, self.first);
        self.joined = JoinedLines {
            from: self.joined.from.saturating_sub(self.first),
            to: self.joined.to.saturating_sub(self.first),
        };
        self.first = 0;
    }

    /// A page begins at a place, in a frame of a width. What was read for other places or widths is forgotten, and what
    /// stands on earlier pages once it is more than half of all.
    pub(crate) fn begin(&mut self, at: Position, width: i64)
        requires { length self.old.rows.items ≡ length self.old.solids.items }
        ensures { (faces : List FontFace) (t : Tree) (kept : List KeptLeaf) → IsAhead faces t kept self.old →
            IsPageAhead faces t width kept at self.new }
    {
        if !self.begins(at, width) {
            self.clear(width);
            return;
        }
        if self.first <= self.solids.len() / 2 {
            return;
        }
        self.forget();
    }

    /// The page ends after so many of its solids.
    pub(crate) fn end(&mut self, count: usize)
        ensures { (faces : List FontFace) (t : Tree) (width : ℤ) (kept : List KeptLeaf) (from : Position) →
            IsPageAhead faces t width kept from self.old → IsAhead faces t kept self.new }
    {
        self.first = self.first.saturating_add(count).min(self.solids.len());
    }

    /// A solid of the page.
    fn solid(&self, number: usize) -> &Solid<'t>
        requires { self.now.first + number < length self.now.solids.items }
        ensures { slice_get self.now.solids.items (self.now.first + number) ≡ Some result.now }
    {
        &self.solids[self.first + number]
    }

    /// Where the first solids of the page end, which begins at a place.
    pub(crate) fn end_of(&self, from: Position, count: usize) -> Position
        requires { self.now.first + count ≤ length self.now.solids.items }
        ensures { result ≡ end_of from (page_of self.now) count }
    {
        if count == 0 {
            from
        } else {
            self.solid(count - 1).end
        }
    }

    /// What a cut reads of a solid of the page.
    pub(crate) fn row(&self, number: usize) -> &SolidRow
        requires { self.now.first + number < length self.now.rows.items }
        ensures { slice_get self.now.rows.items (self.now.first + number) ≡ Some result.now }
    {
        &self.rows[self.first + number]
    }

    /// How many lines go on with their leaf from a solid of the page on, as far as that is known.
    pub(crate) fn joined_at(&self, number: usize) -> usize
        requires within { self.now.first + number ≤ length self.now.rows.items }
        requires joined { AreJoinedWithin self.now.joined self.now.rows.items }
        ensures within { (self.now.first + number) + result ≤ length self.now.rows.items }
        ensures joined { (k : ℕ) → k ≤ result →
            AreJoined (take k (drop (self.now.first + number) self.now.rows.items)) }
    {
        let at = self.first + number;
        if at < self.joined.from {
            return 0;
        }
        self.joined.to.saturating_sub(at)
    }

    /// From which of the page's first solids on all are known to be lines that go on with the leaf of the solid before
    /// them; their count where that is known of none.
    pub(crate) fn joined_from(&self, count: usize) -> usize
        requires within { self.now.first + count ≤ length self.now.rows.items }
        requires joined { AreJoinedWithin self.now.joined self.now.rows.items }
        ensures { AreJoined (drop result (take count (drop self.now.first self.now.rows.items))) }
    {
        if self.joined.to < self.first + count {
            return count;
        }
        self.joined.from.saturating_sub(self.first)
    }

    /// Adds what a cut reads of the next solid.
    fn push_row(&mut self, row: SolidRow) -> Result<(), NoMem>
        ensures solids { self.new.solids.items ≡ self.old.solids.items }
        ensures rows { OnOk result (self.new.rows.items ≡ self.old.rows.items ++ row ∷ []) }
        ensures joined { OnOk result (AreJoinedWithin self.old.joined self.old.rows.items →
            AreJoinedWithin self.new.joined self.new.rows.items) }
        ensures width { self.new.width ≡ self.old.width }
        ensures first { self.new.first ≡ self.old.first }
    {
        self.joined = self.joined.with(self.rows.len(), row.joins());
        self.rows.push(row)?;
        Ok(())
    }

    /// Reads on, up to a solid of the page, which begins at a place: whether the flow ends before it. Its main tree's
    /// next solid is sought, as `next_solid_kept` finds it, only where it isn't read yet. The widths are those at the
    /// end of all that is read.
    pub(crate) fn read<L: Ledger>(
        &mut self,
        tree: &'t BoxTree,
        faces: &Faces,
        from: Position,
        number: usize,
        widths: &mut Widths,
        lines: &mut KeptLines,
        steps: &mut Steps<L>,
    ) -> Result<bool, NoMem>
        requires tree { CanBeLaidOut faces.now tree.now }
        requires holds { Holds tree.now from }
        requires page { CanReadOn faces.now tree.now lines.old.kept from widths.old self.old }
        requires number { number ≤ length (page_of self.old) }
        requires lines { AreLinesOf faces.now 0 tree.now lines.old }
        ensures width { self.new.width ≡ self.old.width }
        ensures ahead { IfOk result (λ ended.
            IsPageAhead faces.now tree.now self.old.width lines.new.kept from self.new) }
        ensures more { IfOk result (λ ended. (more : List SolidView) × (page_of self.new ≡ page_of self.old ++ more)) }
        ensures there { IfOk result (λ ended. ended ≡ false → number < length (page_of self.new)) }
        ensures none { IfOk result (λ ended. ended ≡ true → (self.new ≡ self.old) ×
            (solid_after tree.now (end_of from (page_of self.old) number).event ≡ None)) }
        ensures last { IfOk result (λ ended. ended ≡ true → steps.new ≡ steps.old) }
        ensures widths { IfOk result (λ ended. widths.new ≡ widths_at tree.now self.old.width
            (end_of from (page_of self.new) (length (page_of self.new)))) }
        ensures kept { AreKept faces.now lines.new.kept }
        ensures places { StayPlaced 0 tree.now lines.old lines.new }
        ensures keeps { KeepsHeld lines.old.kept lines.new.kept }
        ensures asks { IfOk result (λ ended. AsksNext tree.now self.old.width (slice_get (page_of self.new) number)
            lines.old.kept lines.new.kept steps.old steps.new) }
        ensures takes { IfOk result (λ ended. TakesSteps lines.old.kept lines.new.kept steps.old steps.new) }
        ensures step { IfOk result (λ ended. MatchOption (slice_get (page_of self.new) number) (steps.new ≡ steps.old)
            (λ s. steps.new ≤ steps.old + steps_of s)) }
    {
        // the count tells that the tree is one that can be built
        let _count = tree.count();
        let count = self.solids.len() - self.first;
        if number < count {
            return Ok(false);
        }
        let at = self.end_of(from, count);
        let Ok(next) = next_solid_kept(0, tree, faces, at, self.width, widths, lines, steps) else {
            return Err(NoMem);
        };
        let Some(solid) = next else {
            return Ok(true);
        };
        self.push_row(row_of(tree, &solid))?;
        if self.solids.push(solid).is_err() {
            return Err(NoMem);
        }
        Ok(false)
    }

    /// The widths become those at the end of all that is read of the page, which begins at a place.
    pub(crate) fn settle(&self, tree: &BoxTree, from: Position, widths: &mut Widths)
        requires within { self.now.first ≤ length self.now.solids.items }
        requires holds { Holds tree.now (end_of from (page_of self.now) (length (page_of self.now))) }
        requires depth { depth_of tree.now.events ≤ most_open }
        requires low { pos 0 ≤ℤ self.now.width }
        requires high { self.now.width ≤ℤ pos (2 ^ 30) }
        ensures { widths.new ≡ widths_at tree.now self.now.width
            (end_of from (page_of self.now) (length (page_of self.now))) }
    {
        // the count tells that the tree is one that can be built
        let _count = tree.count();
        let at = self.end_of(from, self.solids.len() - self.first);
        widths_at(tree, at, self.width, widths);
    }

    /// The first solids of the page.
    pub(crate) fn page(&self, count: usize) -> &[Solid<'t>]
        requires { self.now.first + count ≤ length self.now.solids.items }
        ensures { result.now ≡ take count (drop self.now.first self.now.solids.items) }
    {
        &self.solids[self.first..self.first + count]
    }

    /// What a cut reads of them.
    pub(crate) fn page_rows(&self, count: usize) -> &[SolidRow]
        requires { self.now.first + count ≤ length self.now.rows.items }
        ensures { result.now ≡ take count (drop self.now.first self.now.rows.items) }
    {
        &self.rows[self.first..self.first + count]
    }
}
