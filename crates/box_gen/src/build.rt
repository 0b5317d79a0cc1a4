//! The flow of a document.

ghost use Rattle.std.specs.Prelude.{◌≡◌, ◌<◌, ◌≤◌, ◌++◌, [], ◌∷◌, length, map, option_map, IfErr, IfOk, OnOk};
ghost use Rattle.std.specs.List.{All};
ghost use Rattle.bk_num.specs.Limits.{most_entries, most_events, most_open, most_text_bytes};
ghost use Rattle.boxes.specs.Tree.{IsWhole, depth_of};
ghost use Rattle.box_gen.specs.Flow as spec;
ghost use Rattle.bk_num.specs.declared.values.Pseudo.TheVariants as pseudo;
ghost use Rattle.box_gen.specs.Flow.{
  assigns_at,
  bodies_of,
  built_of,
  calls_of,
  flow_of,
  note_starts,
  notes_by,
  own_starts,
  page_resets,
  page_values,
  resets_at,
  starts_in_note,
};
ghost use Rattle.gen_text.specs.Texts.{source_in as text_source};
ghost use Rattle.page_seq.specs.Numbers.{IsSmallReset};
ghost use Rattle.page_seq.specs.Places.{NeverFall};
ghost use Rattle.style.specs.Nodes.{style_at};
ghost use Rattle.style.specs.Styles.{initial_style};
ghost use Rattle.box_gen.specs.Faces.{AreFaced};
ghost use Rattle.box_gen.specs.Notes.{AreNotesOf, IsGoodBody, bytes_in, events_in};
ghost use Rattle.box_gen.specs.Sites.{built_in};
ghost use Rattle.box_gen.specs.Given.{source_given};
ghost use Rattle.box_gen.specs.KnownFaces.{KnowsFaces};
ghost use Rattle.box_gen.specs.Sources.{AreInRange, AreWithin, IsInput, IsRootShown, source_in, source_of};
ghost use Rattle.soft_hyphens.specs.Words.{points_in};

use crate::builder::FlowBuilder;
use crate::inline::BuildErr;
use crate::input::{FlowInput, is_note_element};
use crate::notes::{Walker, walk_through};
use crate::put::Site;
use crate::style_faces::{StyleFaces, style_faces};
use crate::words::hyphenator_of;
use bk_num::items::Items;
use bk_num::name::{Name, NoMem};
use bk_num::values::Pseudo;
use boxes::flow::{Assign, Flow, Note, Reset, Start};
use boxes::place::Position;
use gen_text::texts::{Texts, assigned_strings};
use hyphen::Patterns;
use metrics::Faces;
use soft_hyphens::hyphenator::Hyphenator;
use std::alloc::Global;
use style::lists::is_page_counter;
use style::style::Style;

/// Adds running strings that are assigned at a place.
fn push_assigned(
    assigned: Items<(Name, Name)>,
    at: Position,
    strings: &mut Vec<Assign>,
) -> Result<(), NoMem>
    ensures { OnOk result (strings.new.items ≡ strings.old.items ++ assigns_at at assigned) }
{
    let assigned = assigned.into_vec();
    for (name, value) in assigned {
        strings.push(Assign { name, value, at })?;
    }
    Ok(())
}

/// Adds the running strings that are assigned where an element begins.
fn push_strings_of(
    alloc: Global,
    input: &FlowInput,
    start: &Start,
    strings: &mut Vec<Assign>,
) -> Result<(), NoMem>
    requires { start.now.node.0 < length input.now.texts.now.dom.now }
    ensures { OnOk result (strings.new.items ≡ strings.old.items ++
        assigns_at start.now.at ((source_in input.now).assigned start.now.node.0)) }
{
    let assigned = assigned_strings(alloc, input.texts, start.node)?;
    push_assigned(assigned, start.at, strings)
}

/// The running strings that are assigned where elements begin.
fn strings_of(alloc: Global, input: &FlowInput, starts: &[Start]) -> Result<Vec<Assign>, NoMem>
    requires { AreWithin input.now.texts.now.dom.now starts.now }
    ensures { IfOk result (λ v. v.items ≡ spec.strings_of (source_in input.now) starts.now) }
{
    let mut strings = Vec::new(alloc);
    for start in starts {
        push_strings_of(alloc, input, start, &mut strings)?;
    }
    Ok(strings)
}

/// Adds a reset, if the counter is that of pages.
fn push_reset(
    counter: &Name,
    value: i64,
    at: Position,
    resets: &mut Vec<Reset>,
) -> Result<(), NoMem>
    ensures { OnOk result (resets.new.items ≡ resets.old.items ++
        resets_at at (page_values ((counter.now, value) ∷ []))) }
{
    if is_page_counter(counter.as_str()) {
        resets.push(Reset { value, at })?;
    }
    Ok(())
}

/// Adds the resets of the page number at a place.
fn push_resets(counters: &[(Name, i64)], at: Position, resets: &mut Vec<Reset>) -> Result<(), NoMem>
    ensures { OnOk result (resets.new.items ≡ resets.old.items ++ resets_at at (page_values counters.now)) }
{
    for (counter, value) in counters {
        push_reset(counter, *value, at, resets)?;
    }
    Ok(())
}

/// Adds the resets of the page number at an element.
fn push_resets_of(input: &FlowInput, start: &Start, resets: &mut Vec<Reset>) -> Result<(), NoMem>
    ensures list { OnOk result (resets.new.items ≡ resets.old.items ++
        resets_at start.now.at
        (page_resets (style_at input.now.texts.now.styles.now start.now.node.0 pseudo.Element))) }
    ensures small { OnOk result (All IsSmallReset resets.old.items → All IsSmallReset resets.new.items) }
{
    match input.texts.styles.of(start.node, Pseudo::Element) {
        None => Ok(()),
        Some(style) => {
            push_resets(style.counter_reset.as_slice(), start.at, resets)?;
            Ok(())
        }
    }
}

/// The resets of the page number where elements begin.
fn resets_of(alloc: Global, input: &FlowInput, starts: &[Start]) -> Result<Vec<Reset>, NoMem>
    ensures list { IfOk result (λ v. v.items ≡ spec.resets_of (source_in input.now) starts.now) }
    ensures small { IfOk result (λ v. All IsSmallReset v.items) }
{
    let mut resets = Vec::new(alloc);
    for start in starts {
        push_resets_of(input, start, &mut resets)?;
    }
    Ok(resets)
}

/// Adds the place of an element to those at which notes are called, or else to those at which elements begin.
fn part_place(
    input: &FlowInput,
    place: Start,
    calls: &mut Vec<Position>,
    starts: &mut Vec<Start>,
) -> Result<(), NoMem>
    ensures calls { OnOk result (calls.new.items ≡ calls.old.items ++ calls_of (source_in input.now) (place ∷ [])) }
    ensures starts { OnOk result (starts.new.items ≡
        starts.old.items ++ own_starts (source_in input.now) (place ∷ [])) }
{
    if is_note_element(input, place.node) {
        calls.push(place.at)?;
    } else {
        starts.push(place)?;
    }
    Ok(())
}

/// Parts the places of elements: where note elements are called, and where the others begin.
fn parted(
    alloc: Global,
    input: &FlowInput,
    places: Vec<Start>,
) -> Result<(Vec<Position>, Vec<Start>), NoMem>
    ensures calls { IfOk result (λ r. r.0.items ≡ calls_of (source_in input.now) places.items) }
    ensures starts { IfOk result (λ r. r.1.items ≡ own_starts (source_in input.now) places.items) }
{
    let mut calls = Vec::new(alloc);
    let mut starts = Vec::new(alloc);
    for place in places {
        part_place(input, place, &mut calls, &mut starts)?;
    }
    Ok((calls, starts))
}

/// Adds where elements begin in a note with a number.
fn push_note_starts(number: u32, of: &[Start], starts: &mut Vec<Start>) -> Result<(), NoMem>
    ensures { OnOk result (starts.new.items ≡ starts.old.items ++ starts_in_note number of.now) }
{
    for start in of {
        starts.push(Start {
            node: start.node,
            note: Some(number),
            at: start.at,
        })?;
    }
    Ok(())
}

/// Adds a note with a number, and where elements begin in it.
fn push_note(
    number: u32,
    call: Position,
    body: Site,
    notes: &mut Vec<Note>,
    starts: &mut Vec<Start>,
) -> Result<(), NoMem>
    ensures notes { OnOk result (notes.new.items ≡ notes.old.items ++ notes_by (call ∷ []) (built_in body ∷ [])) }
    ensures starts { OnOk result (starts.new.items ≡ starts.old.items ++ starts_in_note number body.starts.items) }
{
    push_note_starts(number, &body.starts, starts)?;
    notes.push(Note {
        call,
        body: body.tree,
    })?;
    Ok(())
}

/// Takes the notes of calls and their bodies, and adds where elements begin in them.
fn notes_of(
    alloc: Global,
    calls: &[Position],
    bodies: Vec<Site>,
    starts: &mut Vec<Start>,
) -> Result<Vec<Note>, NoMem>
    requires each { length bodies.items ≡ length calls.now }
    requires few { length bodies.items ≤ most_events }
    ensures notes { IfOk result (λ v. v.items ≡ notes_by calls.now (map built_in bodies.items)) }
    ensures starts { OnOk result (starts.new.items ≡ starts.old.items ++ note_starts 0 (map built_in bodies.items)) }
{
    let mut notes = Vec::new(alloc);
    let mut number = 0;
    for body in bodies {
        push_note(number, calls[number as usize], body, &mut notes, starts)?;
        number += 1;
    }
    Ok(notes)
}

/// What stands at places of a flow, beside its main tree: the notes that are called, where elements begin, the running
/// strings that are assigned and the resets of the page number.
#[derive(Drop)]
struct Anchors {
    notes: Vec<Note>,
    starts: Vec<Start>,
    strings: Vec<Assign>,
    resets: Vec<Reset>,
}

/// The strings and the resets where elements begin.
fn set_at(
    alloc: Global,
    input: &FlowInput,
    starts: &[Start],
) -> Result<(Vec<Assign>, Vec<Reset>), NoMem>
    requires { AreWithin input.now.texts.now.dom.now starts.now }
    ensures strings { IfOk result (λ r. r.0.items ≡ spec.strings_of (source_in input.now) starts.now) }
    ensures resets { IfOk result (λ r. r.1.items ≡ spec.resets_of (source_in input.now) starts.now) }
    ensures small { IfOk result (λ r. All IsSmallReset r.1.items) }
{
    let strings = strings_of(alloc, input, starts)?;
    let resets = resets_of(alloc, input, starts)?;
    Ok((strings, resets))
}

/// What stands at the places of elements in the main tree, where the bodies of the notes that are called are given.
fn anchors_of(
    alloc: Global,
    input: &FlowInput,
    places: Vec<Start>,
    bodies: Vec<Site>,
) -> Result<Anchors, NoMem>
    requires within { AreWithin input.now.texts.now.dom.now places.items }
    requires each { length bodies.items ≡ length (calls_of (source_in input.now) places.items) }
    requires few { length bodies.items ≤ most_events }
    ensures notes { IfOk result (λ a. a.notes.items ≡
        notes_by (calls_of (source_in input.now) places.items) (map built_in bodies.items)) }
    ensures starts { IfOk result (λ a. a.starts.items ≡
        own_starts (source_in input.now) places.items ++ note_starts 0 (map built_in bodies.items)) }
    ensures strings { IfOk result (λ a. a.strings.items ≡
        spec.strings_of (source_in input.now) (own_starts (source_in input.now) places.items)) }
    ensures resets { IfOk result (λ a. a.resets.items ≡
        spec.resets_of (source_in input.now) (own_starts (source_in input.now) places.items)) }
    ensures small { IfOk result (λ a. All IsSmallReset a.resets.items) }
{
    let (calls, starts) = parted(alloc, input, places)?;
    let (strings, resets) = set_at(alloc, input, &starts)?;
    let mut starts = starts;
    let notes = notes_of(alloc, &calls, bodies, &mut starts)?;
    Ok(Anchors {
        notes,
        starts,
        strings,
        resets,
    })
}

/// The flow of what is built.
fn finish(alloc: Global, input: &FlowInput, walker: Walker) -> Result<Flow, NoMem>
    requires within { AreWithin input.now.texts.now.dom.now walker.main.site.starts.items }
    requires main { built_of (source_in input.now) ≡ built_in walker.main.site }
    requires bodies { map built_in walker.bodies.items ≡ bodies_of (source_in input.now) }
    requires few { length walker.bodies.items ≤ most_events }
    ensures flow { IfOk result (λ flow. flow ≡ flow_of (source_in input.now)) }
    ensures small { IfOk result (λ flow. All IsSmallReset flow.resets) }
{
    let Walker { main, bodies, .. } = walker;
    let FlowBuilder { site, .. } = main;
    let Site { tree, starts, .. } = site;
    let anchors = anchors_of(alloc, input, starts, bodies)?;
    Ok(Flow {
        main: tree,
        notes: Items::of(anchors.notes),
        starts: Items::of(anchors.starts),
        strings: Items::of(anchors.strings),
        resets: Items::of(anchors.resets),
    })
}

/// The flow of what is given: its walks, and what is built by them.
fn flow_by(alloc: Global, input: &FlowInput) -> Result<Flow, BuildErr>
    requires { IsInput input.now }
    ensures flow { IfOk result (λ flow. flow ≡ flow_of (source_in input.now)) }
    ensures bodies { IfOk result (λ flow. All (IsGoodBody input.now.faces.now) flow.notes) }
    ensures few { IfOk result (λ flow. bytes_in flow ≤ most_text_bytes) }
    ensures events { IfOk result (λ flow. events_in flow ≤ most_events) }
    ensures count { IfOk result (λ flow. length flow.notes ≤ most_entries) }
    ensures small { IfOk result (λ flow. All IsSmallReset flow.resets) }
    ensures cause { IfErr result (λ e. e ≡ BuildErr.Text → most_text_bytes < bytes_in (flow_of (source_in input.now))) }
{
    prove!(input.texts.dom.len() > 0);
    prove!(input.faces.len() > 0);
    let walker = walk_through(alloc, input)?;
    match finish(alloc, input, walker) {
        Ok(flow) => Ok(flow),
        Err(_) => Err(BuildErr::NoMemory),
    }
}

/// What a flow is made from, as it is given, and the initial style.
#[derive(Clone, Copy)]
struct Given<'a> {
    texts: Texts<'a>,
    faces: &'a Faces,
    hyphenator: Option<&'a Hyphenator<'a>>,
    initial: &'a Style,
}

/// The flow of what is given, where the faces of its styles are known.
fn flow_in_faces(alloc: Global, given: &Given<'_>, known: &StyleFaces<'_>) -> Result<Flow, BuildErr>
    requires ranges { AreInRange given.now.texts.styles.now }
    requires initial { known.now.initial.style ≡ initial_style }
    requires faces { known.now.initial.faces ≡ given.now.faces.now }
    requires known { KnowsFaces given.now.texts.styles.now given.now.faces.now known.now }
    ensures flow { IfOk result (λ flow. flow ≡ flow_of (source_given given.now)) }
    ensures bodies { IfOk result (λ flow. All (IsGoodBody given.now.faces.now) flow.notes) }
    ensures few { IfOk result (λ flow. bytes_in flow ≤ most_text_bytes) }
    ensures events { IfOk result (λ flow. events_in flow ≤ most_events) }
    ensures count { IfOk result (λ flow. length flow.notes ≤ most_entries) }
    ensures small { IfOk result (λ flow. All IsSmallReset flow.resets) }
    ensures cause { IfErr result (λ e. e ≡ BuildErr.Text → most_text_bytes <
        bytes_in (flow_of (source_given given.now))) }
{
    let input = FlowInput {
        texts: &given.texts,
        faces: given.faces,
        known,
        hyphenator: given.hyphenator,
        in_note: false,
    };
    match flow_by(alloc, &input) {
        Ok(flow) => Ok(flow),
        Err(e) => Err(e),
    }
}

/// The flow of what is given: its styles choose their faces, and its nodes are walked.
fn flow_of_given(alloc: Global, given: &Given<'_>) -> Result<Flow, BuildErr>
    requires ranges { AreInRange given.now.texts.styles.now }
    requires initial { given.now.initial.now ≡ initial_style }
    ensures flow { IfOk result (λ flow. flow ≡ flow_of (source_given given.now)) }
    ensures bodies { IfOk result (λ flow. All (IsGoodBody given.now.faces.now) flow.notes) }
    ensures few { IfOk result (λ flow. bytes_in flow ≤ most_text_bytes) }
    ensures events { IfOk result (λ flow. events_in flow ≤ most_events) }
    ensures count { IfOk result (λ flow. length flow.notes ≤ most_entries) }
    ensures small { IfOk result (λ flow. All IsSmallReset flow.resets) }
    ensures cause { IfErr result (λ e. e ≡ BuildErr.Text → most_text_bytes <
        bytes_in (flow_of (source_given given.now))) }
{
    match style_faces(alloc, given.texts.styles, given.initial, given.faces) {
        Ok(known) => flow_in_faces(alloc, given, &known),
        Err(_) => Err(BuildErr::NoMemory),
    }
}

/// The flow of a document, as `build` makes it, by what hyphenates its words: words that it knows are not looked up in
/// patterns again.
///
/// # Errors
///
/// Those of `build`.
pub fn build_by(
    alloc: Global,
    texts: &Texts<'_>,
    faces: &Faces,
    hyphenator: Option<&Hyphenator<'_>>,
) -> Result<Flow, BuildErr>
    requires { AreInRange texts.now.styles.now }
    ensures flow { IfOk result (λ flow. flow ≡
        flow_of (source_of (text_source texts.now) faces.now
        (points_in (option_map (λ h. h.now) hyphenator.entry)))) }
    ensures whole { IsRootShown texts.now.styles.now → IfOk result (λ flow. IsWhole flow.main.events) }
    ensures depth { IfOk result (λ flow. depth_of flow.main.events ≤ most_open) }
    ensures faced { IfOk result (λ flow. AreFaced faces.now flow.main.leaves) }
    ensures bodies { IfOk result (λ flow. All (IsGoodBody faces.now) flow.notes) }
    ensures notes { IfOk result (λ flow.
        AreNotesOf (source_of (text_source texts.now) faces.now
        (points_in (option_map (λ h. h.now) hyphenator.entry))) flow.notes) }
    ensures calls { IfOk result (λ flow. NeverFall (map (λ n. n.call) flow.notes)) }
    ensures few { IfOk result (λ flow. bytes_in flow ≤ most_text_bytes) }
    ensures events { IfOk result (λ flow. events_in flow ≤ most_events) }
    ensures count { IfOk result (λ flow. length flow.notes ≤ most_entries) }
    ensures strings { IfOk result (λ flow. NeverFall (map (λ a. a.at) flow.strings)) }
    ensures resets { IfOk result (λ flow. NeverFall (map (λ r. r.at) flow.resets)) }
    ensures small { IfOk result (λ flow. All IsSmallReset flow.resets) }
    ensures cause { IfErr result (λ e. e ≡ BuildErr.Text → most_text_bytes <
        bytes_in (flow_of (source_of (text_source texts.now) faces.now
        (points_in (option_map (λ h. h.now) hyphenator.entry))))) }
{
    prove!(texts.dom.len() > 0);
    prove!(faces.len() > 0);
    let Ok(initial) = Style::initial(alloc) else {
        return Err(BuildErr::NoMemory);
    };
    let given = Given {
        texts: *texts,
        faces,
        hyphenator,
        initial: &initial,
    };
    match flow_of_given(alloc, &given) {
        Ok(flow) => Ok(flow),
        Err(e) => Err(e),
    }
}

/// The flow of a document by what its texts are generated from, set in some faces. Its main tree is whole where the
/// root is shown, and so are the bodies of its notes; each has at most 2,048 boxes open at once, and its faces are
/// there. Where patterns are given, U+00AD stands at the points of the words that are hyphenated.
///
/// A document of `n` nodes is walked once; each character of it is passed once, and what is left of it is copied once,
/// and once more in a leaf with words that are hyphenated. A text is generated where its run is put, and let go before
/// the next one is made; a string is made only where pages ask for it.
///
/// # Errors
///
/// `Text` exactly where the leaves, those of notes among them, have more than 33,554,432 bytes, before the leaf that
/// passes this number is made.
pub fn build(
    alloc: Global,
    texts: &Texts<'_>,
    faces: &Faces,
    patterns: Option<&Patterns>,
) -> Result<Flow, BuildErr>
    requires { AreInRange texts.now.styles.now }
    ensures flow { IfOk result (λ flow. flow ≡
        flow_of (source_of (text_source texts.now) faces.now
        (points_in (option_map (λ p. p.now) patterns.entry)))) }
    ensures whole { IsRootShown texts.now.styles.now → IfOk result (λ flow. IsWhole flow.main.events) }
    ensures depth { IfOk result (λ flow. depth_of flow.main.events ≤ most_open) }
    ensures faced { IfOk result (λ flow. AreFaced faces.now flow.main.leaves) }
    ensures bodies { IfOk result (λ flow. All (IsGoodBody faces.now) flow.notes) }
    ensures notes { IfOk result (λ flow.
        AreNotesOf (source_of (text_source texts.now) faces.now
        (points_in (option_map (λ p. p.now) patterns.entry))) flow.notes) }
    ensures calls { IfOk result (λ flow. NeverFall (map (λ n. n.call) flow.notes)) }
    ensures few { IfOk result (λ flow. bytes_in flow ≤ most_text_bytes) }
    ensures events { IfOk result (λ flow. events_in flow ≤ most_events) }
    ensures count { IfOk result (λ flow. length flow.notes ≤ most_entries) }
    ensures strings { IfOk result (λ flow. NeverFall (map (λ a. a.at) flow.strings)) }
    ensures resets { IfOk result (λ flow. NeverFall (map (λ r. r.at) flow.resets)) }
    ensures small { IfOk result (λ flow. All IsSmallReset flow.resets) }
    ensures cause { IfErr result (λ e. e ≡ BuildErr.Text → most_text_bytes <
        bytes_in (flow_of (source_of (text_source texts.now) faces.now
        (points_in (option_map (λ p. p.now) patterns.entry))))) }
{
    let hyphenator = hyphenator_of(alloc, patterns);
    build_by(alloc, texts, faces, hyphenator.as_ref())
}
