//! Trees of boxes: their events, what is read at them, and how they are made.

ghost use Rattle.std.specs.Prelude.{◌<◌, ◌≤ℤ◌, ◌^◌, length, pos};
ghost use Rattle.boxes.specs.Tree.{IsClosed};

use crate::answers::unknown;
use crate::flows::push_leaf;
use bk_num::limits::{MOST_EVENTS, MOST_OPEN};
use bk_num::name::NoMem;
use boxes::place::{Event, Position};
use boxes::span::{content_width_in, span_of_box};
use boxes::tree::BoxTree;
use rows::{number, part, push_all};
use std::alloc::Global;
use tree_fixtures::leaf::leaf_of;
use tree_fixtures::shape::{PLAIN, props_of};

/// A place: an event, and a byte offset after `+`.
pub(crate) fn position(part: &str) -> Position {
    let (event, offset) = part.split_once('+').unwrap_or((part, "0"));
    Position {
        event: event.parse::<u32>().unwrap_or(u32::MAX),
        offset: offset.parse::<u32>().unwrap_or(u32::MAX),
    }
}

/// A number after what stands between, `-` for none.
fn push_number(answer: &mut String, between: &str, number: Option<u32>) -> Result<(), NoMem> {
    match number {
        Some(number) => write!(answer, "{between}{number}").map_err(|_| NoMem),
        None => write!(answer, "{between}-").map_err(|_| NoMem),
    }
}

/// The opening of a box, and the event that opens it.
fn push_opening(answer: &mut String, tree: &BoxTree, index: u32) -> Result<(), NoMem>
    requires { index < length tree.now.boxes }
{
    write!(answer, "({index}@{}", tree.opens_at(index)).map_err(|_| NoMem)
}

/// The closing of a box, and the event that closes it.
fn push_closing(answer: &mut String, tree: &BoxTree, index: u32) -> Result<(), NoMem>
    requires number { index < length tree.now.boxes }
    requires closed { IsClosed tree.now.events index }
{
    write!(answer, "){index}@{}", tree.closes_at(index)).map_err(|_| NoMem)
}

fn push_text(alloc: Global, answer: &mut String, tree: &BoxTree, number: u32) -> Result<(), NoMem>
    requires { number < length tree.now.leaves }
{
    push_leaf(alloc, answer, tree.leaf(number))
}

fn push_event(alloc: Global, answer: &mut String, tree: &BoxTree, at: u32) -> Result<(), NoMem> {
    if at >= tree.count() {
        return Ok(());
    }
    match tree.event(at) {
        Event::Opens(index) => push_opening(answer, tree, index),
        Event::Closes(index) => push_closing(answer, tree, index),
        Event::Leaf(number) => push_text(alloc, answer, tree, number),
    }
}

/// Each event, a box with its number and the event that opens or closes it.
fn events(alloc: Global, tree: &BoxTree) -> Result<String, NoMem> {
    let mut answer = String::new(alloc);
    let mut between = "";
    for at in 0..tree.count() {
        answer.push_str(between)?;
        push_event(alloc, &mut answer, tree, at)?;
        between = " ";
    }
    Ok(answer)
}

/// The innermost box that is open before each event, and at the end.
fn around(alloc: Global, tree: &BoxTree) -> Result<String, NoMem> {
    let mut answer = String::new(alloc);
    for at in 0..tree.count() {
        push_number(&mut answer, "", tree.around(at))?;
        answer.push(' ')?;
    }
    push_number(&mut answer, "", tree.around(tree.count()))?;
    Ok(answer)
}

/// The ends of the first-child chain and of the last-child chain at each event.
fn chains(alloc: Global, tree: &BoxTree) -> Result<String, NoMem> {
    let mut answer = String::new(alloc);
    answer.push_str("first")?;
    for at in 0..tree.count() {
        push_number(&mut answer, " ", tree.first_child_end(at))?;
    }
    answer.push_str(", last")?;
    for at in 0..tree.count() {
        push_number(&mut answer, " ", tree.last_child_end(at))?;
    }
    Ok(answer)
}

/// The box around a box, whether it is kept together, and its `widows`.
fn push_box(answer: &mut String, tree: &BoxTree, index: u32) -> Result<(), NoMem>
    requires { index < length tree.now.boxes }
{
    write!(answer, "{index}").map_err(|_| NoMem)?;
    push_number(answer, " in ", tree.outer(index))?;
    let kept = if tree.is_kept(index) { " kept" } else { "" };
    write!(answer, "{kept} widows {}, ", tree.props(index).widows).map_err(|_| NoMem)
}

fn push_box_at(answer: &mut String, tree: &BoxTree, at: u32) -> Result<(), NoMem> {
    if at >= tree.count() {
        return Ok(());
    }
    match tree.event(at) {
        Event::Opens(index) => push_box(answer, tree, index),
        _ => Ok(()),
    }
}

/// Each box, and how many are open at once at most.
fn all_boxes(alloc: Global, tree: &BoxTree) -> Result<String, NoMem> {
    let mut answer = String::new(alloc);
    for at in 0..tree.count() {
        push_box_at(&mut answer, tree, at)?;
    }
    write!(answer, "depth {}", tree.depth()).map_err(|_| NoMem)?;
    Ok(answer)
}

/// Whether a tree has each of some places.
fn holds(alloc: Global, tree: &BoxTree, places: &str) -> Result<String, NoMem> {
    let mut answer = String::new(alloc);
    for (number, place) in places.split(' ').enumerate() {
        if number > 0 {
            answer.push(' ')?;
        }
        answer.push_str(if tree.holds(position(place)) {
            "yes"
        } else {
            "no"
        })?;
    }
    Ok(answer)
}

/// Where the content of a box begins and how wide it is in a frame of a width.
fn span(tree: &BoxTree, index: u32, width: i64) -> Option<(i64, i64)>
    requires { index < length tree.now.boxes }
{
    if tree.depth() <= MOST_OPEN && 0 <= width && width <= 1_000_000 {
        Some(span_of_box(tree, index, width))
    } else {
        None
    }
}

fn span_at(tree: &BoxTree, at: u32, width: i64) -> Option<(i64, i64)> {
    if at >= tree.count() {
        return None;
    }
    match tree.event(at) {
        Event::Opens(index) => span(tree, index, width),
        _ => None,
    }
}

fn width_of(tree: &BoxTree, index: u32, width: i64) -> i64
    requires number { index < length tree.now.boxes }
    requires low { pos 0 ≤ℤ width }
    requires high { width ≤ℤ pos (2 ^ 40) }
{
    // a tree is known to be one by its count, and its boxes to be good by that
    let _count = tree.count();
    content_width_in(tree.props(index), width)
}

/// How wide the content of a box is in a containing block of a width.
fn width_at(tree: &BoxTree, at: u32, width: i64) -> Option<i64> {
    if at >= tree.count() || width < 0 || width > 1_000_000 {
        return None;
    }
    match tree.event(at) {
        Event::Opens(index) => Some(width_of(tree, index, width)),
        _ => None,
    }
}

fn span_text(alloc: Global, tree: &BoxTree, width: i64, at: &str) -> Result<String, NoMem> {
    match span_at(tree, position(at).event, width) {
        Some((left, width)) => Ok(format!(in alloc; "{left} {width}")?),
        None => unknown(alloc),
    }
}

fn width_text(alloc: Global, tree: &BoxTree, width: i64, at: &str) -> Result<String, NoMem> {
    match width_at(tree, position(at).event, width) {
        Some(width) => Ok(format!(in alloc; "{width}")?),
        None => unknown(alloc),
    }
}

/// The answer to a question of a tree.
pub(crate) fn answer(
    alloc: Global,
    tree: &BoxTree,
    call: &str,
    asked: &[&str],
) -> Result<String, NoMem> {
    let (first, at) = (part(asked, 0), part(asked, 1));
    match call {
        "events" => events(alloc, tree),
        "around" => around(alloc, tree),
        "chains" => chains(alloc, tree),
        "boxes" => all_boxes(alloc, tree),
        "holds" => holds(alloc, tree, first),
        "span" => span_text(alloc, tree, number(first), at),
        _ => width_text(alloc, tree, number(first), at),
    }
}

/// Opens a box where one may open.
fn open(tree: &mut BoxTree) -> Result<(), NoMem> {
    if tree.count() < MOST_EVENTS && tree.takes_box() {
        tree.add_box(props_of(&PLAIN, true))?;
    }
    Ok(())
}

/// Adds a text where one may stand.
fn fill(alloc: Global, tree: &mut BoxTree, text: &str) -> Result<(), NoMem> {
    let leaf = leaf_of(alloc, text)?;
    if tree.count() < MOST_EVENTS && tree.takes_leaf() {
        tree.add_leaf(leaf)?;
    }
    Ok(())
}

/// Closes the innermost box, where one is open.
fn close(tree: &mut BoxTree) -> Result<(), NoMem> {
    if tree.count() < MOST_EVENTS && tree.around(tree.count()).is_some() {
        tree.close_box()?;
    }
    Ok(())
}

fn take(alloc: Global, tree: &mut BoxTree, step: &str) -> Result<(), NoMem> {
    match step {
        "(" => open(tree),
        ")" => close(tree),
        text => fill(alloc, tree, text),
    }
}

/// What a tree that is being made takes next: a box, a leaf, or nothing, since it is whole or a leaf stands there.
fn state(tree: &BoxTree) -> &'static str {
    match (tree.takes_box(), tree.takes_leaf(), tree.is_whole()) {
        (true, true, false) => "box/leaf",
        (true, false, false) => "box",
        (false, true, false) => "leaf",
        (false, false, true) => "whole",
        (false, false, false) => "nothing",
        _ => "?",
    }
}

fn push_states(
    alloc: Global,
    tree: &mut BoxTree,
    answer: &mut String,
    steps: &str,
) -> Result<(), NoMem> {
    answer.push_str(state(tree))?;
    for step in steps.split(' ') {
        take(alloc, tree, step)?;
        push_all(answer, &[" ", state(tree)])?;
    }
    Ok(())
}

/// What a tree takes before each of its steps and after the last.
pub(crate) fn states(alloc: Global, steps: &str) -> Result<String, NoMem> {
    let mut tree = BoxTree::new(alloc);
    let mut answer = String::new(alloc);
    match push_states(alloc, &mut tree, &mut answer, steps) {
        Ok(()) => Ok(answer),
        Err(NoMem) => Err(NoMem),
    }
}
