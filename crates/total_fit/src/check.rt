//! The check of a plan by its potentials.

ghost use Rattle.std.specs.Prelude.{◌≡◌, ℕ, ◌+◌, ◌<◌, ◌≤◌, ◌↔◌, IsTrue, Some, length};
ghost use Rattle.total_fit.specs.Certificates.{Follows, HoldAtLines, HoldsAtLine, IsAtMostThrough, IsCertified, IsStep};
ghost use Rattle.total_fit.specs.Lines.{AreGoodMeasures, AreGoodStops};
ghost use Rattle.total_fit.specs.Plans.{CostsLeast};

use crate::choice::potential_at;
use crate::line::line_cost;
use crate::plan::{Measures, Plan, Stop};

/// Whether a potential is this number.
fn is_value(found: Option<u128>, value: u128) -> bool
    ensures { IsTrue result ↔ (found ≡ Some value) }
{
    match found {
        Some(there) => there == value,
        None => false,
    }
}

/// Whether there is a potential, at most the cost of a line and of what comes after it, whose sum is below 2^128.
fn is_at_most_through(line: u128, rest: u128, potential: Option<u128>) -> bool
    ensures { IsTrue result ↔ IsAtMostThrough line rest potential }
{
    let Some(sum) = line.checked_add(rest) else {
        return false;
    };
    match potential {
        Some(cost) => cost <= sum,
        None => false,
    }
}

/// Whether the potentials hold at the line from one stop to another.
fn holds_at_line(
    stops: &[Stop],
    measures: Measures,
    potentials: &[Option<u128>],
    from: usize,
    to: usize,
) -> bool
    requires good { AreGoodStops stops.now }
    requires measures { AreGoodMeasures measures }
    requires count { length potentials.now ≡ length stops.now + 1 }
    requires order { from < to }
    requires within { to ≤ length stops.now }
    ensures { IsTrue result ↔ HoldsAtLine stops.now measures potentials.now from to }
{
    let Some(line) = line_cost(stops, measures, from, to) else {
        return true;
    };
    let Some(rest) = potential_at(potentials, to) else {
        return true;
    };
    is_at_most_through(line, rest, potential_at(potentials, from))
}

/// Whether the potentials hold at each line to a stop.
fn hold_up_to(stops: &[Stop], measures: Measures, potentials: &[Option<u128>], to: usize) -> bool
    requires good { AreGoodStops stops.now }
    requires measures { AreGoodMeasures measures }
    requires count { length potentials.now ≡ length stops.now + 1 }
    requires within { to ≤ length stops.now }
    ensures { IsTrue result ↔ ((i : ℕ) → i < to → HoldsAtLine stops.now measures potentials.now i to) }
{
    for from in 0..to {
        if !holds_at_line(stops, measures, potentials, from, to) {
            return false;
        }
    }
    true
}

/// Whether the potentials hold at each line.
fn hold_at_lines(stops: &[Stop], measures: Measures, potentials: &[Option<u128>]) -> bool
    requires good { AreGoodStops stops.now }
    requires measures { AreGoodMeasures measures }
    requires count { length potentials.now ≡ length stops.now + 1 }
    ensures { IsTrue result ↔ HoldAtLines stops.now measures potentials.now }
{
    for to in 0..stops.len() + 1 {
        if !hold_up_to(stops, measures, potentials, to) {
            return false;
        }
    }
    true
}

/// Whether a plan goes on by the line from one stop to another, at which the potential is exact.
fn is_step(
    stops: &[Stop],
    measures: Measures,
    potentials: &[Option<u128>],
    from: usize,
    to: usize,
) -> bool
    requires good { AreGoodStops stops.now }
    requires measures { AreGoodMeasures measures }
    requires count { length potentials.now ≡ length stops.now + 1 }
    requires within { from ≤ length stops.now }
    ensures { IsTrue result ↔ IsStep stops.now measures potentials.now from to }
{
    if to <= from || stops.len() < to {
        return false;
    }
    let Some(line) = line_cost(stops, measures, from, to) else {
        return false;
    };
    let Some(rest) = potential_at(potentials, to) else {
        return false;
    };
    match line.checked_add(rest) {
        Some(sum) => is_value(potential_at(potentials, from), sum),
        None => false,
    }
}

/// Whether the ends are those of a plan along which the potentials are exact.
fn follow(stops: &[Stop], measures: Measures, potentials: &[Option<u128>], ends: &[u32]) -> bool
    requires good { AreGoodStops stops.now }
    requires measures { AreGoodMeasures measures }
    requires count { length potentials.now ≡ length stops.now + 1 }
    ensures { IsTrue result ↔ Follows stops.now measures potentials.now 0 ends.now }
{
    let mut at = 0;
    for end in ends {
        let to = *end as usize;
        if !is_step(stops, measures, potentials, at, to) {
            return false;
        }
        at = to;
    }
    at == stops.len()
}

/// Whether the ends are those of a plan of this cost, of which the potentials are a certificate.
fn is_certified(
    stops: &[Stop],
    measures: Measures,
    ends: &[u32],
    cost: u128,
    potentials: &[Option<u128>],
) -> bool
    requires good { AreGoodStops stops.now }
    requires measures { AreGoodMeasures measures }
    ensures { IsTrue result ↔ IsCertified stops.now measures ends.now cost potentials.now }
{
    if potentials.len() != stops.len() + 1 {
        return false;
    }
    if !is_value(potential_at(potentials, stops.len()), 0) {
        return false;
    }
    if !is_value(potential_at(potentials, 0), cost) {
        return false;
    }
    if !follow(stops, measures, potentials, ends) {
        return false;
    }
    hold_at_lines(stops, measures, potentials)
}

/// Whether these are the ends of a plan, with its cost and with potentials that show that no plan costs less. It takes
/// no memory.
pub fn checked(stops: &[Stop], first: i64, rest: i64, plan: &Plan) -> bool
    requires stops { AreGoodStops stops.now }
    requires measures { AreGoodMeasures (record { first = first; rest = rest }) }
    ensures exact { IsTrue result ↔
        IsCertified stops.now (record { first = first; rest = rest }) plan.now.ends plan.now.cost plan.now.potentials }
    ensures least { IsTrue result → CostsLeast stops.now (record { first = first; rest = rest }) plan.now.ends }
{
    let measures = Measures { first, rest };
    is_certified(
        stops,
        measures,
        plan.ends.as_slice(),
        plan.cost,
        plan.potentials.as_slice(),
    )
}
