//! Trees in short.

ghost use Rattle.std.specs.Prelude.{◌≡◌, false, ◌≤◌, ◌+◌, ◌^◌, All, IfOk, OnOk};
ghost use Rattle.bk_num.specs.Limits.{most_open};
ghost use Rattle.boxes.specs.Clones.{AreSliced};
ghost use Rattle.boxes.specs.Tree.{IsWhole, depth_of};
ghost use Rattle.tree_fixtures.specs.Leaves.{IsShortLeaf, bytes_of};

use crate::leaf::leaf_of;
use crate::shape::{Shape, props_of};
use bk_num::limits::{MOST_EVENTS, MOST_OPEN, MOST_TEXT_BYTES};
use bk_num::name::NoMem;
use boxes::tree::BoxTree;
use std::alloc::Global;

/// A step of the making of a tree: a box opens, a text stands in it, or the innermost box closes.
#[derive(Clone, Copy, Debug)]
pub enum Step<'a> {
    Open(Shape),
    Text(&'a str),
    Close,
}

/// Opens a box where one may open, sliced where none may stand again.
fn open(tree: &mut BoxTree, shape: &Shape, clones: bool) -> Result<(), NoMem>
    ensures leaves { OnOk result (tree.new.leaves ≡ tree.old.leaves) }
    ensures sliced { OnOk result (clones ≡ false → AreSliced tree.old.boxes → AreSliced tree.new.boxes) }
{
    if tree.count() >= MOST_EVENTS || !tree.takes_box() {
        return Err(NoMem);
    }
    tree.add_box(props_of(shape, clones))?;
    Ok(())
}

/// Adds a leaf where one may stand, and answers how many bytes it has.
fn fill(alloc: Global, tree: &mut BoxTree, text: &str) -> Result<u64, NoMem>
    requires leaves { All IsShortLeaf tree.old.leaves }
    ensures leaves { IfOk result (λ n. All IsShortLeaf tree.new.leaves) }
    ensures bytes { IfOk result (λ n. bytes_of tree.new.leaves ≡ bytes_of tree.old.leaves + n) }
    ensures few { IfOk result (λ n. n ≤ 1000) }
    ensures boxes { IfOk result (λ n. tree.new.boxes ≡ tree.old.boxes) }
{
    let leaf = leaf_of(alloc, text)?;
    if tree.count() >= MOST_EVENTS || !tree.takes_leaf() {
        return Err(NoMem);
    }
    tree.add_leaf(leaf)?;
    Ok(text.len() as u64)
}

/// Closes the innermost box, where one is open.
fn close(tree: &mut BoxTree) -> Result<(), NoMem>
    ensures leaves { OnOk result (tree.new.leaves ≡ tree.old.leaves) }
    ensures boxes { OnOk result (tree.new.boxes ≡ tree.old.boxes) }
{
    if tree.count() < MOST_EVENTS && tree.around(tree.count()).is_some() {
        tree.close_box()
    } else {
        Err(NoMem)
    }
}

/// Takes a step, and answers how many bytes of text it adds.
fn take(alloc: Global, tree: &mut BoxTree, step: &Step<'_>, clones: bool) -> Result<u64, NoMem>
    requires leaves { All IsShortLeaf tree.old.leaves }
    ensures leaves { IfOk result (λ n. All IsShortLeaf tree.new.leaves) }
    ensures bytes { IfOk result (λ n. bytes_of tree.new.leaves ≡ bytes_of tree.old.leaves + n) }
    ensures few { IfOk result (λ n. n ≤ 1000) }
    ensures sliced { IfOk result (λ n. clones ≡ false → AreSliced tree.old.boxes → AreSliced tree.new.boxes) }
{
    match step {
        Step::Open(shape) => {
            open(tree, shape, clones)?;
            Ok(0)
        }
        Step::Text(text) => fill(alloc, tree, text),
        Step::Close => {
            close(tree)?;
            Ok(0)
        }
    }
}

/// The tree that the steps make; its boxes are sliced where none may stand again. An error where they make no whole
/// tree, where more boxes are open at once or more bytes of text stand in it than a flow may have, or where memory is
/// wanting.
pub fn tree_of(alloc: Global, steps: &[Step<'_>], clones: bool) -> Result<BoxTree, NoMem>
    ensures whole { IfOk result (λ tree. IsWhole tree.events) }
    ensures depth { IfOk result (λ tree. depth_of tree.events ≤ most_open) }
    ensures leaves { IfOk result (λ tree. All IsShortLeaf tree.leaves) }
    ensures bytes { IfOk result (λ tree. bytes_of tree.leaves ≤ 2 ^ 25) }
    ensures sliced { IfOk result (λ tree. clones ≡ false → AreSliced tree.boxes) }
{
    let mut tree = BoxTree::new(alloc);
    let mut bytes = 0;
    for step in steps {
        bytes += take(alloc, &mut tree, step, clones)?;
        if bytes > MOST_TEXT_BYTES {
            return Err(NoMem);
        }
    }
    if tree.is_whole() && tree.depth() <= MOST_OPEN {
        Ok(tree)
    } else {
        Err(NoMem)
    }
}
