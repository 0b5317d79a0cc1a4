//! Seams, and what a break there drops. Frames are 5,120 units wide.

use crate::answers::unknown;
use crate::trees::position;
use bk_num::ids::NameId;
use bk_num::limits::MOST_OPEN;
use bk_num::name::NoMem;
use boxes::frames::Demand;
use boxes::place::Position;
use boxes::tree::BoxTree;
use seams::level::{least_lines, level, too_few};
use seams::seam::seam;
use seams::seam_info::{Class, SeamInfo};
use std::alloc::Global;
use style::names::Names;

fn class_word(class: Class) -> &'static str {
    match class {
        Class::A => "A",
        Class::B => "B",
        Class::NoBreak => "none",
    }
}

fn demand_word(demand: Option<Demand>) -> &'static str {
    match demand {
        Some(Demand::Column) => "column",
        Some(Demand::Page) => "page",
        Some(Demand::Left) => "left",
        Some(Demand::Right) => "right",
        None => "-",
    }
}

fn avoid_word(avoid: bool) -> &'static str {
    if avoid { "avoid" } else { "-" }
}

fn found(tree: &BoxTree, at: Position) -> Option<SeamInfo> {
    if tree.is_whole() && tree.holds(at) && tree.depth() <= MOST_OPEN {
        Some(seam(tree, at, 5120))
    } else {
        None
    }
}

/// The seam before an event or inside a leaf: its class, the demand of a forced break, both gaps, whether a break is to
/// be avoided, and the page name in quotes.
pub(crate) fn seam_at(
    alloc: Global,
    tree: &BoxTree,
    names: &Names,
    at: &str,
) -> Result<String, NoMem> {
    let Some(seam) = found(tree, position(at)) else {
        return unknown(alloc);
    };
    let (class, forced) = (class_word(seam.class), demand_word(seam.forced));
    let (whole, kept) = (seam.whole_gap, seam.kept_gap);
    let avoid = avoid_word(seam.avoid);
    let name = names.text(seam.name).unwrap_or("?");
    Ok(format!(in alloc; "{class} {forced} {whole} {kept} {avoid} \"{name}\"")?)
}

/// What stands again above and below a break at a seam.
pub(crate) fn room_at(alloc: Global, tree: &BoxTree, at: &str) -> Result<String, NoMem> {
    let Some(seam) = found(tree, position(at)) else {
        return unknown(alloc);
    };
    let (head, tail) = (seam.head, seam.tail);
    Ok(format!(in alloc; "{head} {tail}")?)
}

/// A seam without gaps, by its class and words for what it asks.
fn given_seam(part: &str) -> SeamInfo {
    let class = match part.split(' ').next() {
        Some("A") => Class::A,
        Some("B") => Class::B,
        _ => Class::NoBreak,
    };
    let forced = if part.contains("left") {
        Some(Demand::Left)
    } else if part.contains("column") {
        Some(Demand::Column)
    } else {
        None
    };
    SeamInfo {
        class,
        forced,
        whole_gap: 0,
        kept_gap: 0,
        head: 0,
        tail: 0,
        avoid: part.contains("avoid"),
        name: NameId(0),
    }
}

/// The level of a break at a seam with so many lines before and after it, and whether these are few.
pub(crate) fn level_at(
    alloc: Global,
    tree: &BoxTree,
    at: &str,
    seam: &str,
    lines: &str,
) -> Result<String, NoMem> {
    let at = position(at);
    if at.event > tree.count() {
        return unknown(alloc);
    }
    let (before, after) = lines.split_once(' ').unwrap_or((lines, "0"));
    let before = before.parse::<u32>().unwrap_or(0);
    let after = after.parse::<u32>().unwrap_or(0);
    let kept = least_lines(tree, at.event);
    let few = if too_few(kept.orphans, kept.widows, before as usize, after as usize) {
        "few"
    } else {
        "enough"
    };
    match level(tree, at, &given_seam(seam), before, after) {
        Some(level) => Ok(format!(in alloc; "{level} {few}")?),
        None => Ok(format!(in alloc; "none {few}")?),
    }
}
