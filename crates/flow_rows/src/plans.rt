//! Plans of paragraphs, over stops by hand.

ghost use Rattle.std.specs.Prelude.{◌^◌, IfOk};
ghost use Rattle.std.specs.List.{All};
ghost use Rattle.bk_num.specs.Numbers.{IsWithin};
ghost use Rattle.total_fit.specs.Lines.{IsGoodStop};

use crate::answers::unknown;
use bk_num::items::Items;
use bk_num::name::NoMem;
use rows::{number, part};
use std::alloc::Global;
use total_fit::best::best_plan;
use total_fit::check::checked;
use total_fit::plan::{Plan, Stop};

/// A width, within 2^60 units.
fn width(word: &str) -> i64
    ensures { IsWithin (2 ^ 60) result }
{
    number(word).clamp(-(1 << 60), 1 << 60)
}

/// A measure, within 2^41 units.
fn measure(word: &str) -> i64
    ensures { IsWithin (2 ^ 41) result }
{
    number(word).clamp(-(1 << 41), 1 << 41)
}

/// A stop: what is seen up to it, its hyphen, and where the next line begins.
fn stop(part: &str) -> Stop
    ensures { IsGoodStop result }
{
    let mut words = part.split_whitespace();
    let seen = width(words.next().unwrap_or(""));
    let hyphen = width(words.next().unwrap_or(""));
    let next = width(words.next().unwrap_or(""));
    Stop { seen, hyphen, next }
}

/// The stops of a part, with commas between them.
fn stops_of(alloc: Global, part: &str) -> Result<Vec<Stop>, NoMem>
    ensures { IfOk result (λ stops. All IsGoodStop stops.items) }
{
    let mut stops = Vec::new(alloc);
    for piece in part.split(',') {
        stops.push(stop(piece))?;
    }
    Ok(stops)
}

fn ends_of(alloc: Global, part: &str) -> Result<Items<u32>, NoMem> {
    let mut ends = Vec::new(alloc);
    for word in part.split_whitespace() {
        ends.push(word.parse::<u32>().unwrap_or(0))?;
    }
    Ok(Items::of(ends))
}

/// The potentials of a part, `-` for a stop without one.
fn potentials_of(alloc: Global, part: &str) -> Result<Items<Option<u128>>, NoMem> {
    let mut potentials = Vec::new(alloc);
    for word in part.split_whitespace() {
        potentials.push(word.parse::<u128>().ok())?;
    }
    Ok(Items::of(potentials))
}

fn push_ends(answer: &mut String, ends: &[u32]) -> Result<(), NoMem> {
    let mut between = "";
    for end in ends {
        write!(answer, "{between}{end}").map_err(|_| NoMem)?;
        between = " ";
    }
    Ok(())
}

fn push_potentials(answer: &mut String, potentials: &[Option<u128>]) -> Result<(), NoMem> {
    for potential in potentials {
        match potential {
            Some(cost) => write!(answer, " {cost}").map_err(|_| NoMem)?,
            None => answer.push_str(" -")?,
        }
    }
    Ok(())
}

/// A plan: its ends, its cost and its potentials.
fn shown(alloc: Global, plan: &Plan) -> Result<String, NoMem> {
    let mut answer = String::new(alloc);
    let cost = plan.cost;
    push_ends(&mut answer, plan.ends.as_slice())?;
    write!(answer, "; {cost};").map_err(|_| NoMem)?;
    push_potentials(&mut answer, plan.potentials.as_slice())?;
    Ok(answer)
}

/// The best plan of some stops at two measures.
pub(crate) fn planned(alloc: Global, measures: &str, stops: &str) -> Result<String, NoMem> {
    let stops = stops_of(alloc, stops)?;
    if stops.is_empty() || stops.len() > 4096 {
        return unknown(alloc);
    }
    let (first, rest) = measures.split_once(' ').unwrap_or(("", ""));
    match best_plan(alloc, stops.as_slice(), measure(first), measure(rest))? {
        Some(plan) => shown(alloc, &plan),
        None => Ok(String::from_str(alloc, "none")?),
    }
}

/// Whether a plan is one of these stops, and its potentials show that none costs less.
fn is_checked(measures: &str, stops: &[Stop], plan: &Plan) -> bool
    requires { All IsGoodStop stops.now }
{
    if stops.is_empty() || stops.len() > 4096 {
        return false;
    }
    let (first, rest) = measures.split_once(' ').unwrap_or(("", ""));
    checked(stops, measure(first), measure(rest), plan)
}

/// What the check of a plan comes to.
pub(crate) fn judged(alloc: Global, parts: &[&str]) -> Result<String, NoMem> {
    let stops = stops_of(alloc, part(parts, 2))?;
    let plan = Plan {
        ends: ends_of(alloc, part(parts, 3))?,
        cost: part(parts, 4).parse::<u128>().unwrap_or(0),
        potentials: potentials_of(alloc, part(parts, 5))?,
    };
    let is_right = is_checked(part(parts, 1), stops.as_slice(), &plan);
    Ok(String::from_str(alloc, if is_right { "true" } else { "false" })?)
}
