//! What a cut reads of solids.

ghost use Rattle.std.specs.Prelude.{◌≡◌, ◌≤◌, length, map, slice_get};
ghost use Rattle.cursor.specs.Fields.{solid_view};
ghost use Rattle.page_list.specs.Cuts.{forced_after, place_after, row_of};

use boxes::frames::Demand;
use boxes::place::Position;
use boxes::tree::BoxTree;
use cursor::solid::Solid;
use cuts::row::SolidRow;
use seams::level::least_lines;

/// What a cut reads of a solid.
pub(crate) fn row_of(tree: &BoxTree, solid: &Solid<'_>) -> SolidRow
    requires { solid.now.placed_at.event ≤ length tree.now.events }
    ensures { result ≡ row_of tree.now (solid_view solid.now) }
{
    let kept = least_lines(tree, solid.placed_at.event);
    SolidRow {
        seam: solid.seam,
        height: solid.height,
        widows: kept.widows,
        orphans: kept.orphans,
    }
}

/// Where a page that is cut after some solids leaves off.
pub(crate) fn place_after(tree: &BoxTree, solids: &[Solid<'_>], count: usize) -> Position
    ensures { result ≡ place_after tree.now (slice_get (map solid_view solids.now) count) }
{
    if count < solids.len() {
        solids[count].placed_at
    } else {
        Position {
            event: tree.count(),
            offset: 0,
        }
    }
}

/// The demand of the seam at a cut.
pub(crate) fn forced_after(solids: &[Solid<'_>], count: usize) -> Option<Demand>
    ensures { result ≡ forced_after (slice_get (map solid_view solids.now) count) }
{
    if count < solids.len() {
        solids[count].seam.forced
    } else {
        None
    }
}
