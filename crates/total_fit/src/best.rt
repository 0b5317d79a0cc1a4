//! The plan of least cost.

ghost use Rattle.std.specs.Prelude.{◌≡◌, IfNone, IfOk, IfSome, IsSome};
ghost use Rattle.total_fit.specs.Certificates.{IsCertified};
ghost use Rattle.total_fit.specs.Choices.{AreLeastReaches};
ghost use Rattle.total_fit.specs.Lines.{AreGoodMeasures, AreGoodStops};
ghost use Rattle.total_fit.specs.Plans.{ArePotentials, HasNoPlan, IsBest, plan_cost, potential_of};

use crate::choice::{best_line, cost_of, least_reaches, potential_at};
use crate::plan::{Measures, Plan, Stop};
use bk_num::items::Items;
use bk_num::name::NoMem;
use std::alloc::Global;

/// The potentials of the start and of each stop, from the last one back.
fn least_costs(
    alloc: Global,
    stops: &[Stop],
    measures: Measures,
    reaches: &[i64],
) -> Result<Vec<Option<u128>>, NoMem>
    requires good { AreGoodStops stops.now }
    requires measures { AreGoodMeasures measures }
    requires reaches { AreLeastReaches stops.now reaches.now }
    ensures { IfOk result (λ potentials. ArePotentials stops.now measures potentials.items) }
{
    let mut potentials = vec![in alloc; Some(0u128); stops.len() + 1]?;
    let mut from = stops.len();
    while from > 0 {
        from -= 1;
        potentials[from] = cost_of(best_line(
            stops,
            measures,
            reaches,
            potentials.as_slice(),
            from,
        ));
    }
    Ok(potentials)
}

/// The ends of the best plan: from the start on, the best line and then the best one from its end on.
fn best_ends(
    alloc: Global,
    stops: &[Stop],
    measures: Measures,
    reaches: &[i64],
    potentials: &[Option<u128>],
) -> Result<Vec<u32>, NoMem>
    requires good { AreGoodStops stops.now }
    requires measures { AreGoodMeasures measures }
    requires reaches { AreLeastReaches stops.now reaches.now }
    requires potentials { ArePotentials stops.now measures potentials.now }
    requires there { IsSome (potential_of potentials.now 0) }
    ensures { IfOk result (λ ends. IsBest stops.now measures ends.items) }
{
    let mut ends = Vec::new(alloc);
    let mut at = 0;
    while let Some(best) = best_line(stops, measures, reaches, potentials, at) {
        at = best.end;
        ends.push(at as u32)?;
    }
    Ok(ends)
}

/// The plan of least cost, and of several the one that is greatest at the first end where two differ. None where no
/// plan has lines that all fit: at most `first` wide the first one, and at most `rest` each other.
pub fn best_plan(
    alloc: Global,
    stops: &[Stop],
    first: i64,
    rest: i64,
) -> Result<Option<Plan>, NoMem>
    requires stops { AreGoodStops stops.now }
    requires measures { AreGoodMeasures (record { first = first; rest = rest }) }
    ensures none { IfOk result (λ found. IfNone found (HasNoPlan stops.now (record { first = first; rest = rest }))) }
    ensures best { IfOk result (λ found. IfSome found (λ plan.
        IsBest stops.now (record { first = first; rest = rest }) plan.ends)) }
    ensures cost { IfOk result (λ found. IfSome found (λ plan.
        plan.cost ≡ plan_cost stops.now (record { first = first; rest = rest }) plan.ends)) }
    ensures potentials { IfOk result (λ found. IfSome found (λ plan.
        ArePotentials stops.now (record { first = first; rest = rest }) plan.potentials)) }
    ensures certified { IfOk result (λ found. IfSome found (λ plan.
        IsCertified stops.now (record { first = first; rest = rest }) plan.ends plan.cost plan.potentials)) }
{
    let measures = Measures { first, rest };
    let reaches = least_reaches(alloc, stops)?;
    let potentials = least_costs(alloc, stops, measures, reaches.as_slice())?;
    let Some(cost) = potential_at(potentials.as_slice(), 0) else {
        return Ok(None);
    };
    let ends = best_ends(
        alloc,
        stops,
        measures,
        reaches.as_slice(),
        potentials.as_slice(),
    )?;
    Ok(Some(Plan {
        ends: Items::of(ends),
        cost,
        potentials: Items::of(potentials),
    }))
}
