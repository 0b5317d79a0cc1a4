//! The pages of trees, their solids, and cuts of pages that begin inside them.

ghost use Rattle.std.specs.Prelude.{◌≡◌, ◌<◌, length, IfOk};
ghost use Rattle.cursor.specs.Conditions.{CanBeLaidOut, IsGreedy};
ghost use Rattle.note_list.specs.Conditions.{CanBePaged};

use crate::flows::{METRICS, NoteInShort, flow_with_notes, frame, paged};
use crate::notation::{faces_of, position, steps_of, units, unknown};
use bk_num::name::NoMem;
use bk_num::steps::Steps;
use boxes::flow::Flow;
use boxes::frames::PageKind;
use boxes::page::{Page, Placed, PlacedNote, SolidKind};
use boxes::place::Position;
use boxes::tree::BoxTree;
use cursor::{Cursor, Solid, remainder};
use fragment::next_cut::next_cut;
use metrics::Faces;
use note_list::carried::{Carried, CarriedNotes};
use page_list::cut::{Cut, CutFrom};
use rows::{escaped, unescaped};
use std::alloc::{AllocError, Global};
use std::marker::Brand;
use std::sync::ledger::{Blank, Ledger};

/// The start of a tree.
const START: Position = Position {
    event: 0,
    offset: 0,
};

/// A solid: where it begins and ends, its top and its height, and the box whose edge it is.
fn push_solid(line: &mut String, solid: &Placed) -> Result<(), AllocError> {
    let (at, end) = (solid.at, solid.end);
    write!(
        line,
        " {}.{}-{}.{}@{}+{}",
        at.event, at.offset, end.event, end.offset, solid.top, solid.height
    )?;
    match solid.kind {
        SolidKind::OpenEdge(block) => write!(line, "<{block}"),
        SolidKind::CloseEdge(block) => write!(line, ">{block}"),
        SolidKind::Line => Ok(()),
    }
}

/// The solids of a page.
fn push_solids(line: &mut String, solids: &[Placed]) -> Result<(), AllocError> {
    for solid in solids {
        push_solid(line, solid)?;
    }
    Ok(())
}

/// The solids of notes, each with the number of its note.
fn push_notes(line: &mut String, notes: &[PlacedNote]) -> Result<(), AllocError> {
    for (note, solid) in notes {
        write!(line, " note{note}")?;
        push_solid(line, solid)?;
    }
    Ok(())
}

/// Where solids begin, and their tops.
fn push_tops(line: &mut String, solids: &[Placed]) -> Result<(), AllocError> {
    for solid in solids {
        let Position { event, offset } = solid.at;
        write!(line, " {event}.{offset}@{}", solid.top)?;
    }
    Ok(())
}

fn kind_word(kind: PageKind) -> &'static str {
    match kind {
        PageKind::Flow => "flow",
        PageKind::Blank => "blank",
        PageKind::Notes => "notes",
    }
}

/// A page whole: its index, kind, name and level, and its solids.
fn push_page(line: &mut String, page: &Page) -> Result<(), AllocError> {
    let kind = kind_word(page.kind);
    write!(
        line,
        "{} {kind} {} {}:",
        page.index, page.name.0, page.level
    )?;
    push_solids(line, page.solids.as_slice())?;
    push_notes(line, page.notes.as_slice())
}

/// A page in short: its kind and level, and the tops of its solids.
fn push_short(line: &mut String, page: &Page) -> Result<(), AllocError> {
    write!(line, "{} {}:", kind_word(page.kind), page.level)?;
    push_tops(line, page.solids.as_slice())
}

/// Adds a page, whole or in short, after ` / ` where one stands before it.
fn push_next(line: &mut String, page: &Page, whole: bool) -> Result<(), AllocError> {
    if !line.is_empty() {
        line.push_str(" / ")?;
    }
    if whole {
        push_page(line, page)
    } else {
        push_short(line, page)
    }
}

/// The pages of a flow, whole or in short, with `/` between them.
fn printed(alloc: Global, pages: &[Page], whole: bool) -> Result<String, NoMem> {
    let mut line = String::new(alloc);
    for page in pages {
        push_next(&mut line, page, whole)?;
    }
    Ok(line)
}

/// The note of a part: the place of its call, a colon, and its tree.
fn note<'a>(alloc: Global, part: &'a str) -> Result<NoteInShort<'a>, NoMem> {
    let (call, tree) = part.split_once(':').unwrap_or(("0", part));
    Ok(NoteInShort {
        call: position(call),
        body: steps_of(alloc, tree)?,
    })
}

/// The notes of a part, with `&` between them; no text is no note.
fn notes<'a>(alloc: Global, part: &'a str) -> Result<Vec<NoteInShort<'a>>, NoMem> {
    let mut list = Vec::new(alloc);
    if !part.is_empty() {
        for part in part.split('&') {
            list.push(note(alloc, part)?)?;
        }
    }
    Ok(list)
}

/// The flow of a tree and of notes in short.
fn flow_in(alloc: Global, faces: &Faces, tree: &str, body: &str) -> Result<Flow, NoMem>
    requires some { 0 < length faces.now }
    ensures paged { IfOk result (λ flow. CanBePaged faces.now flow) }
    ensures greedy { IfOk result (λ flow. IsGreedy flow.main) }
{
    let steps = steps_of(alloc, tree)?;
    let notes = notes(alloc, body)?;
    flow_with_notes(alloc, faces, steps.as_slice(), notes.as_slice())
}

/// The pages of a flow in frames of a width and a height.
fn pages(
    alloc: Global,
    flow: &Flow,
    faces: &Faces,
    size: &str,
    whole: bool,
) -> Result<String, NoMem>
    requires flow { CanBePaged faces.now flow.now }
{
    let (width, height) = size.split_once(' ').unwrap_or((size, "0"));
    match paged(alloc, flow, faces, (units(width), units(height))) {
        Some(list) => printed(alloc, list.pages.as_slice(), whole),
        None => Err(NoMem),
    }
}

/// A solid of a tree: what it is, where it begins, its height, and its text.
fn push_of_tree(line: &mut String, solid: &Solid<'_>) -> Result<(), AllocError> {
    let Position { event, offset } = solid.placed_at;
    let kind = if solid.line.is_some() { "line" } else { "edge" };
    write!(
        line,
        " {kind} {event}.{offset}+{} '{}'",
        solid.height, solid.text
    )
}

/// The solid that comes first from a place on, and after `:` all of them.
fn solids_counted<L: Ledger>(
    alloc: Global,
    tree: &BoxTree,
    faces: &Faces,
    from: Position,
    token: Blank,
) -> Result<String, NoMem>
    requires name { token.name ≡ L.name }
    requires parts { token.parts ≡ L.parts }
    requires some { 0 < L.parts }
    requires tree { CanBeLaidOut faces.now tree.now }
    requires greedy { IsGreedy tree.now }
{
    let mut steps = Steps::<L>::zero(token);
    let mut line = String::from_str(alloc, "first")?;
    if !tree.holds(from) {
        return Ok(line);
    }
    let mut cursor = Cursor::resume(tree, faces, from, 5120);
    if let Some(solid) = cursor.next(&mut steps) {
        push_of_tree(&mut line, &solid)?;
    }
    line.push_str(":")?;
    let solids = remainder(alloc, tree, faces, from, 5120, &mut steps)?;
    for solid in &solids {
        push_of_tree(&mut line, solid)?;
    }
    Ok(line)
}

/// The same, with a counter of its own.
fn solids(alloc: Global, tree: &BoxTree, faces: &Faces, from: Position) -> Result<String, NoMem>
    requires tree { CanBeLaidOut faces.now tree.now }
    requires greedy { IsGreedy tree.now }
{
    solids_counted::<Brand>(alloc, tree, faces, from, Blank::new(1))
}

/// A walk in short: the width of its frame, and how many solids it hands out.
type Walk = (u16, u16);

fn walk_of(words: &str) -> Walk {
    let (width, count) = words.split_once(' ').unwrap_or((words, "0"));
    (units(width), units(count))
}

/// Where a walk begins that is resumed at a place, its first solids, up to a number, with `none` for each that isn't
/// there, and the mark after them.
fn push_walk<L: Ledger>(
    line: &mut String,
    tree: &BoxTree,
    faces: &Faces,
    from: Position,
    walk: Walk,
    steps: &mut Steps<L>,
) -> Result<Position, NoMem>
    requires tree { CanBeLaidOut faces.now tree.now }
    requires greedy { IsGreedy tree.now }
{
    if !tree.holds(from) {
        return Ok(from);
    }
    let (width, count) = walk;
    let mut cursor = Cursor::resume(tree, faces, from, width.into());
    let Position { event, offset } = cursor.mark();
    write!(line, "from {event}.{offset}:")?;
    for _ in 0..count {
        match cursor.next(steps) {
            Some(solid) => push_of_tree(line, &solid)?,
            None => line.push_str(" none")?,
        }
    }
    Ok(cursor.mark())
}

/// The first solids of a tree in a frame of a width, and those of a walk that is resumed after them in a frame of
/// another width.
fn walks_counted<L: Ledger>(
    alloc: Global,
    tree: &BoxTree,
    faces: &Faces,
    walks: (Walk, Walk),
    token: Blank,
) -> Result<String, NoMem>
    requires name { token.name ≡ L.name }
    requires parts { token.parts ≡ L.parts }
    requires some { 0 < L.parts }
    requires tree { CanBeLaidOut faces.now tree.now }
    requires greedy { IsGreedy tree.now }
{
    let (first, second) = walks;
    let mut steps = Steps::<L>::zero(token);
    let mut line = String::new(alloc);
    let mark = push_walk(&mut line, tree, faces, START, first, &mut steps)?;
    line.push_str(" ")?;
    push_walk(&mut line, tree, faces, mark, second, &mut steps)?;
    Ok(line)
}

/// The same, with a counter of its own.
fn walks(
    alloc: Global,
    tree: &BoxTree,
    faces: &Faces,
    from: &str,
    on: &str,
) -> Result<String, NoMem>
    requires tree { CanBeLaidOut faces.now tree.now }
    requires greedy { IsGreedy tree.now }
{
    let walks = (walk_of(from), walk_of(on));
    walks_counted::<Brand>(alloc, tree, faces, walks, Blank::new(1))
}

/// The cut of a page of two lines from a place on.
fn cut_of<L: Ledger>(
    alloc: Global,
    flow: &Flow,
    faces: &Faces,
    at: Position,
    token: Blank,
) -> Option<Cut>
    requires name { token.name ≡ L.name }
    requires parts { token.parts ≡ L.parts }
    requires counted { 0 < L.parts }
    requires flow { CanBePaged faces.now flow.now }
{
    if !flow.main.holds(at) {
        return None;
    }
    let mut steps = Steps::<L>::zero(token);
    let from = CutFrom { at, kept: false };
    next_cut(alloc, flow, faces, from, &[], frame(5120, 2560), &mut steps).ok()
}

/// The same, with a counter of its own.
fn cut_from(alloc: Global, flow: &Flow, faces: &Faces, at: Position) -> Option<Cut>
    requires flow { CanBePaged faces.now flow.now }
{
    cut_of::<Brand>(alloc, flow, faces, at, Blank::new(1))
}

/// What is left of notes: the number of each, and where it goes on in its body.
fn push_carried(line: &mut String, carried: &CarriedNotes) -> Result<(), AllocError> {
    for place in 0..carried.len() {
        let Carried { note, at } = carried.part(place);
        write!(line, " {note}@{}.{}", at.event, at.offset)?;
    }
    Ok(())
}

/// Where a page of two lines ends, whether the flow ends there, its level, how many solids it places, and what it
/// carries on.
fn cut(alloc: Global, flow: &Flow, faces: &Faces, at: Position) -> Result<String, NoMem>
    requires flow { CanBePaged faces.now flow.now }
{
    let Some(cut) = cut_from(alloc, flow, faces, at) else {
        return unknown(alloc);
    };
    let (Position { event, offset }, count) = (cut.to, cut.solids.as_slice().len());
    let (ended, level) = (cut.ended, cut.level);
    let mut line = format!(in alloc; "{event}.{offset} {ended} {level} {count}")?;
    push_carried(&mut line, &cut.carried)?;
    Ok(line)
}

/// The answer to a question about a flow.
fn of_flow(alloc: Global, faces: &Faces, flow: &Flow, parts: &[&str]) -> Result<String, NoMem>
    requires flow { CanBePaged faces.now flow.now }
    requires greedy { IsGreedy flow.now.main }
{
    match parts {
        ["tops", _, size] => pages(alloc, flow, faces, size, false),
        ["pages", _, _, size] => pages(alloc, flow, faces, size, true),
        ["solids", _, from] => solids(alloc, &flow.main, faces, position(from)),
        ["walks", _, from, on] => walks(alloc, &flow.main, faces, from, on),
        ["cut_at", _, at] | ["cut_at", _, at, _] => cut(alloc, flow, faces, position(at)),
        _ => unknown(alloc),
    }
}

/// The answer to a question about a tree and notes in short.
fn of_tree(alloc: Global, tree: &str, body: &str, parts: &[&str]) -> Result<String, NoMem> {
    let faces = faces_of(alloc, METRICS)?;
    let flow = flow_in(alloc, &faces, tree, body)?;
    of_flow(alloc, &faces, &flow, parts)
}

/// The notes of a question.
fn notes_in(alloc: Global, parts: &[&str]) -> Result<String, AllocError> {
    match parts {
        ["pages", _, notes, _] | ["cut_at", _, _, notes] => unescaped(alloc, notes),
        _ => Ok(String::new(alloc)),
    }
}

/// The answer to a question about a tree, with characters that a line doesn't show.
fn unescaped_answer(alloc: Global, parts: &[&str]) -> Result<String, NoMem> {
    let tree = unescaped(alloc, parts.get(1).unwrap_or(&""))?;
    let body = notes_in(alloc, parts)?;
    of_tree(alloc, tree.as_str(), body.as_str(), parts)
}

/// The answer to a question about a tree.
pub(crate) fn answer(alloc: Global, parts: &[&str]) -> Result<String, NoMem> {
    let answer = unescaped_answer(alloc, parts)?;
    Ok(escaped(alloc, answer.as_str())?)
}
