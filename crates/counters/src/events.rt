//! What an element or a pseudo-element does to counters (CSS 2.1, 12.4), and which counters its content asks for.

ghost use Rattle.std.specs.Prelude.{◌≡◌, ◌&&◌, ◌++◌, if◌then◌else◌, codes, ◌∷◌, [], IfOk, OnOk};
ghost use Rattle.std.specs.List.{flat_map};
ghost use Rattle.counters.specs.Document.{by_element, by_generated, changes_at, increments_in, named, not_page, note_count, note_start, resets_in, use_of, uses_by, uses_in};
ghost use Rattle.counters.specs.Log.{changes_in, placed};
ghost use Rattle.counters.specs.Markers.{has_marker};
ghost use Rattle.counters.specs.Numerals.{is_numeral};

use crate::log::{Change, EventPlace, Log, push_change};
use crate::marker::has_marker;
use crate::numeral::is_numeral;
use crate::scopes::Act;
use bk_num::ids::NodeId;
use bk_num::name::NoMem;
use bk_num::values::Pseudo;
use std::alloc::Global;
use style::content::{Content, Part};
use style::lists::{CounterList, StringSets};
use style::style::Style;
use style::styles::Styles;

fn push_resets<'s>(
    alloc: Global,
    place: EventPlace,
    list: &'s CounterList,
    into: &mut Log<'s>,
) -> Result<(), NoMem>
    ensures { OnOk result (into.new ≡ into.old ++ placed place (resets_in list.entry.now)) }
{
    let mut changes = Vec::new(alloc);
    for entry in list.as_slice() {
        push_change(&mut changes, entry.0.as_str(), Act::Reset(entry.1))?;
    }
    into.put(alloc, place, changes)
}

fn push_increments<'s>(
    alloc: Global,
    place: EventPlace,
    list: &'s CounterList,
    into: &mut Log<'s>,
) -> Result<(), NoMem>
    ensures { OnOk result (into.new ≡ into.old ++ placed place (increments_in list.entry.now)) }
{
    let mut changes = Vec::new(alloc);
    for entry in list.as_slice() {
        push_change(&mut changes, entry.0.as_str(), Act::Add(entry.1))?;
    }
    into.put(alloc, place, changes)
}

fn push_use<'s>(changes: &mut Vec<Change<'s>>, part: &'s Part) -> Result<(), NoMem>
    ensures { OnOk result (changes_in changes.new.items ≡
        changes_in changes.old.items ++ not_page (uses_by part.entry.now)) }
{
    match part {
        Part::Counter(name, _) => push_change(changes, name.as_str(), Act::Add(0)),
        Part::Counters(name, _, _) => push_change(changes, name.as_str(), Act::Add(0)),
        _ => Ok(()),
    }
}

fn push_uses<'s>(changes: &mut Vec<Change<'s>>, content: &'s Content) -> Result<(), NoMem>
    ensures { OnOk result (changes_in changes.new.items ≡
        changes_in changes.old.items ++ not_page (uses_in content.entry.now)) }
{
    for part in content.as_slice() {
        push_use(changes, part)?;
    }
    Ok(())
}

/// The counter whose values a part prints, if it prints any.
fn name_of(part: &Part) -> Option<&str> {
    match part {
        Part::Counter(name, _) => Some(name.as_str()),
        Part::Counters(name, _, _) => Some(name.as_str()),
        Part::Target(_, name, _) => Some(name.as_str()),
        _ => None,
    }
}

/// Notes the counters that a content asks for.
fn ask_all(alloc: Global, content: &Content, into: &mut Log<'_>) -> Result<(), NoMem>
    ensures { OnOk result (into.new ≡ into.old) }
{
    for part in content.as_slice() {
        if let Some(name) = name_of(part) {
            into.ask(alloc, name)?;
        }
    }
    Ok(())
}

fn push_content<'s>(
    alloc: Global,
    place: EventPlace,
    content: &'s Content,
    into: &mut Log<'s>,
) -> Result<(), NoMem>
    ensures { OnOk result (into.new ≡ into.old ++ placed place (uses_in content.entry.now)) }
{
    let mut changes = Vec::new(alloc);
    push_uses(&mut changes, content)?;
    ask_all(alloc, content, into)?;
    into.put(alloc, place, changes)
}

/// The uses of all named strings, and the counters that they ask for.
fn string_uses<'s>(
    alloc: Global,
    sets: &'s StringSets,
    into: &mut Log<'_>,
) -> Result<Vec<Change<'s>>, NoMem>
    ensures uses { IfOk result (λ v. changes_in v.items ≡ not_page (flat_map (λ e. uses_in e.1) sets.entry.now)) }
    ensures same { OnOk result (into.new ≡ into.old) }
{
    let mut changes = Vec::new(alloc);
    for entry in sets.as_slice() {
        push_uses(&mut changes, &entry.1)?;
        ask_all(alloc, &entry.1, into)?;
    }
    Ok(changes)
}

fn push_string_uses<'s>(
    alloc: Global,
    place: EventPlace,
    sets: &'s StringSets,
    into: &mut Log<'s>,
) -> Result<(), NoMem>
    ensures { OnOk result (into.new ≡
        into.old ++ placed place (flat_map (λ e. uses_in e.1) sets.entry.now)) }
{
    let changes = string_uses(alloc, sets, into)?;
    into.put(alloc, place, changes)
}

/// Appends one change at a place.
fn push_one<'s>(
    alloc: Global,
    place: EventPlace,
    name: &'s str,
    act: Act,
    into: &mut Log<'s>,
) -> Result<(), NoMem>
    ensures { OnOk result (into.new ≡ into.old ++ placed place ((name.entry.now, act) ∷ [])) }
{
    let mut changes = Vec::new(alloc);
    push_change(&mut changes, name, act)?;
    into.put(alloc, place, changes)
}

fn has_numeral(root: bool, style: &Style) -> bool
    ensures { result ≡ (has_marker root style.now && is_numeral style.now.list_style_type) }
{
    has_marker(root, style) && is_numeral(style.list_style_type)
}

fn push_marker_use(
    alloc: Global,
    place: EventPlace,
    numeral: bool,
    into: &mut Log<'_>,
) -> Result<(), NoMem>
    ensures { OnOk result (into.new ≡
        into.old ++ placed place (if numeral then use_of (codes "list-item") else [])) }
{
    if numeral {
        into.ask(alloc, "list-item")?;
        return push_one(alloc, place, "list-item", Act::Add(0), into);
    }
    Ok(())
}

fn push_note_start(
    alloc: Global,
    place: EventPlace,
    root: bool,
    into: &mut Log<'_>,
) -> Result<(), NoMem>
    ensures { OnOk result (into.new ≡ into.old ++ placed place (note_start root)) }
{
    if root {
        return push_one(alloc, place, "footnote", Act::Reset(0), into);
    }
    Ok(())
}

fn push_note_count(
    alloc: Global,
    place: EventPlace,
    note: bool,
    into: &mut Log<'_>,
) -> Result<(), NoMem>
    ensures { OnOk result (into.new ≡ into.old ++ placed place (note_count note)) }
{
    if note {
        return push_one(alloc, place, "footnote", Act::Add(1), into);
    }
    Ok(())
}

fn push_element<'s>(
    alloc: Global,
    place: EventPlace,
    root: bool,
    note: bool,
    style: &'s Style,
    into: &mut Log<'s>,
) -> Result<(), NoMem>
    ensures { OnOk result (into.new ≡ into.old ++ placed place (by_element root note style.entry.now)) }
{
    push_note_start(alloc, place, root, into)?;
    push_resets(alloc, place, &style.counter_reset, into)?;
    push_increments(alloc, place, &style.counter_increment, into)?;
    push_note_count(alloc, place, note, into)?;
    push_string_uses(alloc, place, &style.string_set, into)?;
    push_marker_use(alloc, place, has_numeral(root, style), into)
}

fn push_generated<'s>(
    alloc: Global,
    place: EventPlace,
    style: &'s Style,
    into: &mut Log<'s>,
) -> Result<(), NoMem>
    ensures { OnOk result (into.new ≡ into.old ++ placed place (by_generated style.entry.now)) }
{
    push_resets(alloc, place, &style.counter_reset, into)?;
    push_increments(alloc, place, &style.counter_increment, into)?;
    match &style.content {
        Some(content) => push_content(alloc, place, content, into),
        None => Ok(()),
    }
}

/// Appends what an element or a pseudo-element does, in order.
pub(crate) fn push_changes<'s>(
    alloc: Global,
    place: EventPlace,
    styles: &'s Styles,
    node: NodeId,
    pseudo: Pseudo,
    into: &mut Log<'s>,
) -> Result<(), NoMem>
    ensures { OnOk result (into.new ≡
        into.old ++ named place.at place.end (changes_at styles.entry.now node.0 pseudo)) }
{
    if !styles.is_shown(node) {
        return Ok(());
    }
    let Some(style) = styles.of(node, pseudo) else {
        return Ok(());
    };
    match pseudo {
        Pseudo::Element => push_element(
            alloc,
            place,
            node.0 == 0,
            styles.is_note(node),
            style,
            into,
        ),
        _ => push_generated(alloc, place, style, into),
    }
}
