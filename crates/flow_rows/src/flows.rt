//! A flow in short: its events, its notes, and where its elements begin.

use bk_num::name::NoMem;
use boxes::flow::{Flow, Note, Start};
use boxes::leaf::Leaf;
use boxes::place::{Event, Position};
use boxes::tree::BoxTree;
use rows::escaped;
use std::alloc::Global;

/// A text in quotes.
pub(crate) fn push_quoted(alloc: Global, answer: &mut String, text: &str) -> Result<(), NoMem> {
    let text = escaped(alloc, text)?;
    write!(answer, "\"{text}\"").map_err(|_| NoMem)
}

/// The markers of a leaf in brackets, and its text.
pub(crate) fn push_leaf(alloc: Global, answer: &mut String, leaf: &Leaf) -> Result<(), NoMem> {
    for lead in leaf.leads.as_slice() {
        write!(answer, "[{}]", lead.text.as_str()).map_err(|_| NoMem)?;
    }
    push_quoted(alloc, answer, leaf.text.as_str())
}

/// A bracket for a box, or a leaf.
fn push_event(alloc: Global, answer: &mut String, tree: &BoxTree, at: u32) -> Result<(), NoMem> {
    if at >= tree.count() {
        return Ok(());
    }
    match tree.event(at) {
        Event::Opens(_) => Ok(answer.push('(')?),
        Event::Closes(_) => Ok(answer.push(')')?),
        Event::Leaf(number) => push_leaf(alloc, answer, tree.leaf(number)),
    }
}

fn push_tree(alloc: Global, answer: &mut String, tree: &BoxTree) -> Result<(), NoMem> {
    for at in 0..tree.count() {
        push_event(alloc, answer, tree, at)?;
    }
    Ok(())
}

/// A place: the event, and the offset if it isn't 0.
fn push_place(answer: &mut String, at: Position) -> Result<(), NoMem> {
    write!(answer, "{}", at.event).map_err(|_| NoMem)?;
    if at.offset > 0 {
        write!(answer, "+{}", at.offset).map_err(|_| NoMem)?;
    }
    Ok(())
}

/// A note: where it is called, and its body.
fn push_note(alloc: Global, answer: &mut String, note: &Note) -> Result<(), NoMem> {
    answer.push_str(" !")?;
    push_place(answer, note.call)?;
    push_tree(alloc, answer, &note.body)
}

/// Where an element begins: its number, the place, and the note if it is in one.
fn push_start(answer: &mut String, start: &Start) -> Result<(), NoMem> {
    write!(answer, " {}@", start.node.0).map_err(|_| NoMem)?;
    push_place(answer, start.at)?;
    match start.note {
        Some(note) => write!(answer, "^{note}").map_err(|_| NoMem),
        None => Ok(()),
    }
}

/// A flow in short.
pub(crate) fn flow_text(alloc: Global, flow: &Flow) -> Result<String, NoMem> {
    let mut answer = String::new(alloc);
    push_tree(alloc, &mut answer, &flow.main)?;
    for note in flow.notes.as_slice() {
        push_note(alloc, &mut answer, note)?;
    }
    for start in flow.starts.as_slice() {
        push_start(&mut answer, start)?;
    }
    Ok(answer)
}
