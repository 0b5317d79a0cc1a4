//! How wide a line is, and what it costs.

ghost use Rattle.std.specs.Prelude.{◌≡◌, ◌+◌, ◌-◌, ◌^◌, ◌<◌, ◌≤◌, ◌≤ℤ◌, pos, length};
ghost use Rattle.bk_num.specs.Numbers.{IsWithin};
ghost use Rattle.total_fit.specs.Lines.{AreGoodMeasures, AreGoodStops, IsGoodStop, IsLineCost};
ghost use Rattle.total_fit.specs.Lines.{begin_of, hyphen_cost, measure_of, reach_of, stop_of, width_of};

use crate::plan::{Measures, Stop};

/// What a shown hyphen costs: the square of 16 px.
const HYPHEN_COST: u128 = 1_048_576;

/// The stop of a number.
pub(crate) fn stop_at(stops: &[Stop], number: usize) -> Stop
    requires good { AreGoodStops stops.now }
    requires some { 1 ≤ number }
    requires within { number ≤ length stops.now }
    ensures stop { result ≡ stop_of stops.now number }
    ensures good { IsGoodStop result }
{
    stops[number - 1]
}

/// How far a line reaches that ends at a stop.
pub(crate) fn reach_at(stops: &[Stop], number: usize) -> i64
    requires good { AreGoodStops stops.now }
    requires some { 1 ≤ number }
    requires within { number ≤ length stops.now }
    ensures reach { result ≡ reach_of (stop_of stops.now number) }
    ensures small { IsWithin (2 ^ 61) result }
{
    let stop = stop_at(stops, number);
    stop.seen + stop.hyphen
}

/// Where the line begins that begins at a stop.
pub(crate) fn begin_at(stops: &[Stop], number: usize) -> i64
    requires good { AreGoodStops stops.now }
    requires within { number ≤ length stops.now }
    ensures begin { result ≡ begin_of stops.now number }
    ensures small { IsWithin (2 ^ 60) result }
{
    if number == 0 {
        0
    } else {
        stop_at(stops, number).next
    }
}

/// The measure of the line that begins at a stop.
pub(crate) fn measure_at(measures: Measures, number: usize) -> i64
    requires good { AreGoodMeasures measures }
    ensures measure { result ≡ measure_of measures number }
    ensures small { IsWithin (2 ^ 41) result }
{
    if number == 0 {
        measures.first
    } else {
        measures.rest
    }
}

/// The width of the line from one stop to another.
#[tactic(auto, unfolding(crate::specs::Lines::width_of))]
fn line_width(stops: &[Stop], from: usize, to: usize) -> i64
    requires good { AreGoodStops stops.now }
    requires order { from < to }
    requires within { to ≤ length stops.now }
    ensures width { result ≡ width_of stops.now from to }
    ensures low { pos 0 ≤ℤ result }
{
    let width = reach_at(stops, to) - begin_at(stops, from);
    if width < 0 { 0 } else { width }
}

/// What a line costs for the hyphen at its end.
fn cost_of_hyphen(hyphen: i64) -> u128
    ensures { result ≡ hyphen_cost hyphen }
{
    if hyphen == 0 { 0 } else { HYPHEN_COST }
}

/// The cost of the line from one stop to another. None where it doesn't fit.
#[tactic(auto, unfolding(crate::specs::Lines::Fits, crate::specs::Lines::cost_of))]
pub(crate) fn line_cost(stops: &[Stop], measures: Measures, from: usize, to: usize) -> Option<u128>
    requires good { AreGoodStops stops.now }
    requires measures { AreGoodMeasures measures }
    requires order { from < to }
    requires within { to ≤ length stops.now }
    ensures { IsLineCost stops.now measures from to result }
{
    let width = line_width(stops, from, to);
    let measure = measure_at(measures, from);
    if width > measure {
        None
    } else if to == stops.len() {
        Some(0)
    } else {
        let left = u128::from((measure - width).unsigned_abs());
        Some(left * left + cost_of_hyphen(stop_at(stops, to).hyphen))
    }
}
