//! The solids of a page with their tops.

ghost use Rattle.std.specs.Prelude.{◌≡◌, pos, ◌<◌, ◌≤◌, ◌^◌, ◌≤ℤ◌, ◌+ℤ◌, length, All, map, IfOk, OnOk, ◌∷◌, ◌++◌, []};
ghost use Rattle.std.specs.Int.{int_max};
ghost use Rattle.bk_num.specs.Limits.{most_entries};
ghost use Rattle.bk_num.specs.Numbers.{IsWithin};
ghost use Rattle.cursor.specs.Fields.{solid_view};
ghost use Rattle.cursor.specs.Remainder.{IsSmallSolid};
ghost use Rattle.fragment.specs.Solids.{foot_from};
ghost use Rattle.page_list.specs.Cuts.{first_gap, placed_at, placed_from};

use bk_num::name::NoMem;
use boxes::page::Placed;
use cursor::solid::Solid;
use cuts::row::gap_above;
use notes::reach::Reach;
use std::alloc::Global;

/// The solids of a page with their tops, and the greatest of their bottoms, at least 0, in units of 1/64 px.
#[derive(Drop)]
pub(crate) struct PlacedSolids {
    pub items: Vec<Placed>,
    pub foot: i64,
}

/// A solid on its page.
fn place(solid: &Solid<'_>, top: i64) -> Placed
    ensures { result ≡ placed_at top (solid_view solid.now) }
{
    Placed {
        at: solid.placed_at,
        end: solid.end,
        top,
        height: solid.height,
        kind: solid.kind,
    }
}

/// Adds a solid below the others, with a gap above it.
fn push_below(
    items: &mut Vec<Placed>,
    reach: &mut Reach,
    solid: &Solid<'_>,
    gap: i64,
) -> Result<(), NoMem>
    requires small { IsSmallSolid (solid_view solid.now) }
    requires bottom { IsWithin (2 ^ 60) reach.old.bottom }
    requires gap { IsWithin (2 ^ 41) gap }
    ensures placed { OnOk result (items.new.items ≡
        items.old.items ++ placed_at (reach.old.bottom +ℤ gap) (solid_view solid.now) ∷ []) }
    ensures bottom { reach.new.bottom ≡ (reach.old.bottom +ℤ gap) +ℤ solid.now.height }
    ensures extent { reach.new.extent ≡ int_max reach.old.extent reach.new.bottom }
{
    let top = reach.place(gap, solid.height);
    items.push(place(solid, top))?;
    Ok(())
}

/// The solids of a page with their tops.
pub(crate) fn place_all(
    alloc: Global,
    solids: &[Solid<'_>],
    kept: bool,
) -> Result<PlacedSolids, NoMem>
    requires some { 0 < length solids.now }
    requires few { length solids.now ≤ most_entries }
    requires small { All (λ s. IsSmallSolid (solid_view s)) solids.now }
    ensures items { IfOk result (λ p. p.items.items ≡
        placed_from (first_gap kept (map solid_view solids.now)) (map solid_view solids.now)) }
    ensures foot { IfOk result (λ p. p.foot ≡ foot_from (pos 0) p.items.items) }
    ensures low { IfOk result (λ p. pos 0 ≤ℤ p.foot) }
    ensures high { IfOk result (λ p. p.foot ≤ℤ pos (2 ^ 61)) }
{
    let mut items = Vec::with_capacity(alloc, solids.len())?;
    let mut reach = Reach::START;
    let head = &solids[0];
    let first = gap_above(&head.seam, true, kept);
    push_below(&mut items, &mut reach, head, first)?;
    for at in 1..solids.len() {
        let solid = &solids[at];
        let gap = gap_above(&solid.seam, false, kept);
        push_below(&mut items, &mut reach, solid, gap)?;
    }
    Ok(PlacedSolids {
        items,
        foot: reach.extent,
    })
}
