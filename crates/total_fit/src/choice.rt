//! The best line from a stop on, where it is known what the later stops cost.

ghost use Rattle.std.specs.Prelude.{◌≡◌, ◌+◌, ◌<◌, ◌≤◌, length, IfOk};
ghost use Rattle.total_fit.specs.Choices.{AreLeastReaches, CanChoose, IsChoice, cost_in};
ghost use Rattle.total_fit.specs.Lines.{AreGoodStops};
ghost use Rattle.total_fit.specs.Plans.{potential_of};

use crate::line::{begin_at, line_cost, measure_at, reach_at};
use crate::plan::{Measures, Stop};
use bk_num::name::NoMem;
use std::alloc::Global;

/// The stop at which a line ends, and the least cost of a plan that begins with this line.
#[derive(Clone, Copy, Debug)]
pub(crate) struct Choice {
    pub(crate) end: usize,
    pub(crate) cost: u128,
}

/// The potential of a stop.
pub(crate) fn potential_at(potentials: &[Option<u128>], number: usize) -> Option<u128>
    requires { number < length potentials.now }
    ensures { result ≡ potential_of potentials.now number }
{
    potentials[number]
}

/// The cost of a choice.
pub(crate) fn cost_of(best: Option<Choice>) -> Option<u128>
    ensures { result ≡ cost_in best }
{
    match best {
        Some(choice) => Some(choice.cost),
        None => None,
    }
}

/// At each number how far the lines to later stops reach at least. Where that is too far, none of them fits.
pub(crate) fn least_reaches(alloc: Global, stops: &[Stop]) -> Result<Vec<i64>, NoMem>
    requires { AreGoodStops stops.now }
    ensures { IfOk result (λ reaches. AreLeastReaches stops.now reaches.items) }
{
    let mut reaches = vec![in alloc; i64::MAX; stops.len()]?;
    let mut least = i64::MAX;
    let mut at = stops.len();
    while at > 0 {
        least = least.min(reach_at(stops, at));
        at -= 1;
        reaches[at] = least;
    }
    Ok(reaches)
}

/// The better one of a choice and the line to the next stop; of equals that line, since it is longer.
fn better(
    stops: &[Stop],
    measures: Measures,
    potentials: &[Option<u128>],
    from: usize,
    at: usize,
    best: Option<Choice>,
) -> Option<Choice>
    requires can { CanChoose stops.now measures potentials.now from }
    requires order { from ≤ at }
    requires within { at < length stops.now }
    requires so_far { IsChoice stops.now measures potentials.now from at best }
    ensures { IsChoice stops.now measures potentials.now from (at + 1) result }
{
    let Some(line) = line_cost(stops, measures, from, at + 1) else {
        return best;
    };
    let Some(rest) = potential_at(potentials, at + 1) else {
        return best;
    };
    let cost = line + rest;
    match best {
        Some(choice) if choice.cost < cost => best,
        _ => Some(Choice { end: at + 1, cost }),
    }
}

/// The best line from a stop on. None where no line that fits has a plan after it.
pub(crate) fn best_line(
    stops: &[Stop],
    measures: Measures,
    reaches: &[i64],
    potentials: &[Option<u128>],
    from: usize,
) -> Option<Choice>
    requires can { CanChoose stops.now measures potentials.now from }
    requires reaches { AreLeastReaches stops.now reaches.now }
    requires from { from ≤ length stops.now }
    ensures { IsChoice stops.now measures potentials.now from (length stops.now) result }
{
    let farthest = begin_at(stops, from) + measure_at(measures, from);
    let mut best = None;
    let mut at = from;
    while at < stops.len() {
        if reaches[at] > farthest {
            return best;
        }
        best = better(stops, measures, potentials, from, at, best);
        at += 1;
    }
    best
}
