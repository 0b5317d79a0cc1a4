//! The boxes that are open at a place.

ghost use Rattle.std.specs.Prelude.{◌≡◌, ℕ, ℤ, List, [], ◌∷◌, ◌++◌, ◌+◌, ◌<◌, ◌≤◌, ◌^◌, ◌≤ℤ◌, pos, length, slice_get, Some, All};
ghost use Rattle.bk_num.specs.Limits.{most_open};
ghost use Rattle.boxes.specs.Clones.{IsRoom};
ghost use Rattle.boxes.specs.Tree.{Tree, depth_of, open_before, rest_of};
ghost use Rattle.seams.specs.Runs.{width_in};
ghost use Rattle.seams.specs.Widths.{IsBounded, innermost_in, widths_of};

use crate::open_box::{OpenBox, opened_in};
use bk_num::limits::MOST_OPEN;
use boxes::span::write_chain;
use boxes::tree::BoxTree;
use std::marker::Model;

/// The boxes that are open at a place of a tree, in a frame of a width: how wide their contents are, and what of them
/// stands again where a page parts them, in units. It is kept from event to event: a box that opens takes one step from
/// the box around it. Contracts see the boxes, the outermost first.
#[derive(Drop)]
pub struct Widths {
    boxes: [OpenBox; MOST_OPEN as usize],
    count: usize,
}

impl Model for Widths {
    ghost use Rattle.std.specs.Prelude.{◌≡◌, List, length, take, ◌≤◌};
    ghost use Rattle.bk_num.specs.Limits.{most_open};
    ghost use Rattle.seams.specs.Widths.{AreBounded};
    ghost use Rattle.seams.specs.declared.open_box.OpenBox.{OpenBox};

    ghost Value = { List OpenBox };

    ghost view = { λ w. take w.count w.boxes };

    ghost invariant = { λ w. (length w.boxes ≡ most_open) × (w.count ≤ most_open) ×
        AreBounded (take w.count w.boxes) };
}

impl Widths {
    /// No box is open.
    #[inline]
    pub fn none() -> Widths
        ensures { result ≡ [] }
    {
        let frame = OpenBox {
            width: 0,
            head: 0,
            tail: 0,
        };
        Widths {
            boxes: [frame; MOST_OPEN as usize],
            count: 0,
        }
    }

    /// How many boxes are open.
    pub(crate) fn count(&self) -> usize
        ensures count { result ≡ length self.now }
        ensures few { result ≤ most_open }
    {
        self.count
    }

    /// One of the boxes, by its number from the outermost.
    fn at(&self, index: usize) -> OpenBox
        requires { index < length self.now }
        ensures value { slice_get self.now index ≡ Some result }
        ensures bounded { IsBounded (index + 1) result }
    {
        // the count tells that the boxes are few
        let _count = self.count();
        self.boxes[index]
    }

    fn push(&mut self, opened: OpenBox)
        requires room { length self.old < most_open }
        requires bounded { IsBounded (length self.old + 1) opened }
        ensures { self.new ≡ self.old ++ opened ∷ [] }
    {
        self.boxes[self.count] = opened;
        self.count += 1;
    }

    /// The innermost of the outermost boxes, so many of them, and the frame where they are none: in it nothing stands
    /// again.
    pub(crate) fn at_depth(&self, depth: usize, measure: i64) -> OpenBox
        requires depth { depth ≤ length self.now }
        requires measure_low { pos 0 ≤ℤ measure }
        requires measure_high { measure ≤ℤ pos (2 ^ 30) }
        ensures value { (t : Tree) (inner outer : List ℕ) → self.now ≡ widths_of t measure (inner ++ outer) →
            depth ≡ length outer → result ≡ innermost_in t measure outer }
        ensures bounded { IsBounded depth result }
        ensures high { result.width ≤ℤ pos (2 ^ 40) }
        ensures head { IsRoom result.head }
        ensures tail { IsRoom result.tail }
    {
        // the count tells that the boxes are few
        let _count = self.count();
        if depth == 0 {
            return OpenBox {
                width: measure,
                head: 0,
                tail: 0,
            };
        }
        self.at(depth - 1)
    }

    /// The width of the innermost open box, and the frame's where none is open.
    pub fn innermost(&self, measure: i64) -> i64
        requires measure_low { pos 0 ≤ℤ measure }
        requires measure_high { measure ≤ℤ pos (2 ^ 30) }
        ensures width { (t : Tree) (boxes : List ℕ) → self.now ≡ widths_of t measure boxes →
            result ≡ width_in t measure boxes }
        ensures low { pos 0 ≤ℤ result }
        ensures high { result ≤ℤ pos (2 ^ 40) }
    {
        self.at_depth(self.count(), measure).width
    }

    /// The width of the box around the innermost open one, and the frame's where there is none.
    pub fn outer(&self, measure: i64) -> i64
        requires measure_low { pos 0 ≤ℤ measure }
        requires measure_high { measure ≤ℤ pos (2 ^ 30) }
        ensures width { (t : Tree) (boxes : List ℕ) → self.now ≡ widths_of t measure boxes →
            result ≡ width_in t measure (rest_of boxes) }
        ensures low { pos 0 ≤ℤ result }
        ensures high { result ≤ℤ pos (2 ^ 40) }
    {
        let count = self.count();
        if count <= 1 {
            return measure;
        }
        self.at_depth(count - 1, measure).width
    }

    /// Opens a box inside the innermost open one.
    pub(crate) fn open_box(&mut self, tree: &BoxTree, index: u32, measure: i64)
        requires number { index < length tree.now.boxes }
        requires room { length self.old < most_open }
        requires measure_low { pos 0 ≤ℤ measure }
        requires measure_high { measure ≤ℤ pos (2 ^ 30) }
        ensures { (boxes : List ℕ) → self.old ≡ widths_of tree.now measure boxes →
            self.new ≡ widths_of tree.now measure (index ∷ boxes) }
    {
        // the count tells that the tree is one that can be built
        let _count = tree.count();
        let outer = self.at_depth(self.count(), measure);
        self.push(opened_in(tree.props(index), outer));
    }

    /// Closes the innermost open box.
    pub(crate) fn close_box(&mut self)
        ensures { (t : Tree) (measure : ℤ) (boxes : List ℕ) → self.old ≡ widths_of t measure boxes →
            self.new ≡ widths_of t measure (rest_of boxes) }
    {
        if self.count > 0 {
            self.count -= 1;
        }
    }

    /// Closes all boxes.
    fn close_all(&mut self)
        ensures { self.new ≡ [] }
    {
        self.count = 0;
    }

    /// Opens boxes, each inside the next one.
    fn open_all(&mut self, tree: &BoxTree, chain: &[u32], measure: i64)
        requires none { self.old ≡ [] }
        requires few { length chain.now ≤ most_open }
        requires boxes { All (λ b. b < length tree.now.boxes) chain.now }
        requires measure_low { pos 0 ≤ℤ measure }
        requires measure_high { measure ≤ℤ pos (2 ^ 30) }
        ensures { self.new ≡ widths_of tree.now measure chain.now }
    {
        let mut at = chain.len();
        while at > 0 {
            at -= 1;
            self.open_box(tree, chain[at], measure);
        }
    }

    /// Goes to an event, or to the end: the boxes become those that are open before it. It is a walk over them.
    pub(crate) fn move_to(&mut self, tree: &BoxTree, event: u32, measure: i64)
        requires within { event ≤ length tree.now.events }
        requires depth { depth_of tree.now.events ≤ most_open }
        requires measure_low { pos 0 ≤ℤ measure }
        requires measure_high { measure ≤ℤ pos (2 ^ 30) }
        ensures { self.new ≡ widths_of tree.now measure (open_before tree.now.events event) }
    {
        // the count tells that the tree is one that can be built
        let _count = tree.count();
        self.close_all();
        if let Some(index) = tree.around(event) {
            let mut chain = [0; MOST_OPEN as usize];
            let count = write_chain(tree, index, &mut chain);
            self.open_all(tree, &chain[..count], measure);
        }
    }
}
