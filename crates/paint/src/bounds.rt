//! Whether a page stands within the bounds of what is painted.

ghost use Rattle.std.specs.Prelude.{MatchBool, All};
ghost use Rattle.boxes.specs.Frames.{IsGoodFrame};
ghost use Rattle.notes.specs.Near.{IsNearSolid};
ghost use Rattle.paint.specs.Bounds.{IsBoundedPage};

use boxes::frames::Frame;
use boxes::page::{Page, Placed, PlacedNote};

/// How far to each side a frame may begin, and how high it may be, in units.
const FRAME: i64 = 1 << 40;

/// How wide a frame may be.
const WIDEST: i64 = 1 << 30;

/// How far up and down a solid may stand.
const FARTHEST: i64 = 1 << 60;

/// How high a solid may be.
const HIGHEST: i64 = 1 << 32;

/// Whether a frame is within the bounds of frames.
fn is_good_frame(frame: &Frame) -> bool
    ensures { MatchBool result (IsGoodFrame frame.now) (¬ (IsGoodFrame frame.now)) }
{
    frame.height >= 0
        && frame.height <= FRAME
        && frame.width >= 0
        && frame.width <= WIDEST
        && frame.left >= -FRAME
        && frame.left <= FRAME
        && frame.top >= -FRAME
        && frame.top <= FRAME
}

/// Whether a solid is near enough.
fn is_near(s: &Placed) -> bool
    ensures { MatchBool result (IsNearSolid s.now) (¬ (IsNearSolid s.now)) }
{
    s.top >= -FARTHEST && s.top <= FARTHEST && s.height >= 0 && s.height <= HIGHEST
}

/// Whether each of some solids is.
fn are_near(solids: &[Placed]) -> bool
    ensures { MatchBool result (All IsNearSolid solids.now) (¬ (All IsNearSolid solids.now)) }
{
    for s in solids {
        if !is_near(s) {
            return false;
        }
    }
    true
}

/// Whether each solid of some notes is.
fn are_notes_near(notes: &[PlacedNote]) -> bool
    ensures { MatchBool result (All (λ note. IsNearSolid note.1) notes.now)
        (¬ (All (λ note. IsNearSolid note.1) notes.now)) }
{
    for (_number, s) in notes {
        if !is_near(s) {
            return false;
        }
    }
    true
}

/// Whether a page stands within the bounds that `place` asks: its frame within those of frames, each solid's top
/// within 2^60 units and its height from 0 to 2^32. Its time goes with the solids.
pub(crate) fn is_bounded_page(page: &Page) -> bool
    ensures { MatchBool result (IsBoundedPage page.now) (¬ (IsBoundedPage page.now)) }
{
    is_good_frame(&page.frame)
        && are_near(page.solids.as_slice())
        && are_notes_near(page.notes.as_slice())
}
