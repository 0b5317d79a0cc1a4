//! The styles of a document's nodes, in one pass over the list of nodes.

ghost use Rattle.std.specs.Prelude.{◌≡◌, ◌<◌, [], ◌∷◌, None, Some, true, IfOk, OnOk, option_map, unwrap_or, length};
ghost use Rattle.style.specs.Nodes.{change_last};
ghost use Rattle.style.specs.Styles.{initial_style};
ghost use Rattle.computed.specs.Names.{with_names};
ghost use Rattle.computed.specs.Walk.{parent_row, style_above, root_above, is_shown_below, is_note_below, is_in_note_below, font_of, AreStyles, Extends, Adds, AddsElement};
ghost use Rattle.computed.specs.Alike.{AddsNext, NotesFound};
ghost use Rattle.computed.specs.Rows.{with_option, styles_in, all_put, AreGenerated, generated_names};

use crate::alike::SameStyles;
use crate::styled::{boxed, is_displayed, pseudo_style, style_of};
use bk_num::ids::NodeId;
use bk_num::name::NoMem;
use bk_num::px::Px;
use bk_num::values::Pseudo;
use cascade::table::{NodeWinners, WinnerTable};
use dom::Dom;
use std::alloc::Global;
use style::initial::medium_size;
use style::names::Names;
use style::style::Style;
use style::styles::Styles;

/// The styles of a document's nodes and the names of its pages, by the winners of each node. Names are numbered in the
/// order in which they are first seen. Elements with the same winners whose parents share their styles share them too.
pub fn styles_of(alloc: Global, dom: &Dom, winners: &WinnerTable) -> Result<(Styles, Names), NoMem>
    requires { length winners.now.winners ≡ length dom.now }
    ensures { IfOk result (λ r. AreStyles r.1 dom.now winners.now.winners r.0) }
{
    let above_root = boxed(alloc, Style::initial(alloc)?)?;
    let mut styles = Styles::new(alloc);
    let mut names = Names::new(alloc);
    add_all(alloc, dom, winners, &above_root, &mut styles, &mut names)?;
    Ok((styles, names))
}

/// Adds the styles of all nodes.
fn add_all(
    alloc: Global,
    dom: &Dom,
    winners: &WinnerTable,
    initial: &Style,
    styles: &mut Styles,
    names: &mut Names,
) -> Result<(), NoMem>
    requires count { length winners.now.winners ≡ length dom.now }
    requires styles { styles.old ≡ [] }
    requires names { names.old ≡ [] ∷ [] }
    requires initial { initial.now ≡ initial_style }
    ensures { OnOk result (AreStyles names.new dom.now winners.now.winners styles.new) }
{
    let mut alike = SameStyles::new(alloc);
    for index in 0..dom.len() {
        let node = NodeId(index);
        add_next(
            alloc, dom, winners, initial, styles, names, &mut alike, node,
        )?;
    }
    Ok(())
}

/// Adds the styles of a node, which are shared with an earlier one that must have the same.
fn add_next(
    alloc: Global,
    dom: &Dom,
    winners: &WinnerTable,
    initial: &Style,
    styles: &mut Styles,
    names: &mut Names,
    alike: &mut SameStyles,
    node: NodeId,
) -> Result<(), NoMem>
    requires node { node.0 < length dom.now }
    requires count { length winners.now.winners ≡ length dom.now }
    requires rows { length styles.old ≡ node.0 }
    requires initial { initial.now ≡ initial_style }
    ensures adds { OnOk result (AddsNext names.old names.new dom.now winners.now.winners node.0 alike.old.firsts
        alike.new.firsts styles.old styles.new) }
    ensures notes { OnOk result (NotesFound dom.now winners.now node.0 alike.old alike.new) }
    ensures names { Extends names.old names.new }
{
    if let Some(earlier) = alike.earlier(dom, winners, node) {
        styles.add_like(earlier)?;
        return alike.note_like(earlier);
    }
    add_node(alloc, dom, initial, styles, names, node, winners.of(node))?;
    alike.note(dom, winners, node)
}

/// Adds the styles of a node.
fn add_node(
    alloc: Global,
    dom: &Dom,
    initial: &Style,
    styles: &mut Styles,
    names: &mut Names,
    node: NodeId,
    winners: &NodeWinners,
) -> Result<(), NoMem>
    requires node { node.0 < length dom.now }
    requires initial { initial.now ≡ initial_style }
    ensures adds { OnOk result (Adds names.old names.new dom.now node.0 winners.now styles.old styles.new) }
    ensures names { Extends names.old names.new }
{
    if dom.name(node).is_none() {
        return styles.add_text();
    }
    add_element(alloc, initial, styles, names, dom.parent(node), winners)
}

/// Adds the styles of an element and of its pseudo-elements.
fn add_element(
    alloc: Global,
    initial: &Style,
    styles: &mut Styles,
    names: &mut Names,
    parent: Option<NodeId>,
    winners: &NodeWinners,
) -> Result<(), NoMem>
    requires { initial.now ≡ initial_style }
    ensures adds { OnOk result (AddsElement names.old names.new (option_map (λ n. n.0) parent) winners.now styles.old
        styles.new) }
    ensures names { Extends names.old names.new }
{
    let root = root_above(styles, &parent);
    let above = style_above(styles, initial, &parent);
    let own = style_of(alloc, names, above, root, winners.own.as_slice())?;
    let style: &Style = &own;
    let size = size_for(&root, style);
    let shown = is_shown_below(styles, &parent, style);
    let note = is_note_below(styles, &parent, style);
    let in_note = is_in_note_below(styles, &parent, note);
    let generated = generate(alloc, names, style, &size, shown, note, winners)?;
    styles.add_element(Box::into_inner(own), shown, note, in_note)?;
    put_all(styles, generated)
}

/// The styles of an element's pseudo-elements.
#[derive(Drop)]
pub(crate) struct GeneratedStyles {
    before: Option<Box<Style>>,
    after: Option<Box<Style>>,
    call: Option<Box<Style>>,
    marker: Option<Box<Style>>,
}

fn generate(
    alloc: Global,
    names: &mut Names,
    own: &Style,
    root: &Px,
    shown: bool,
    note: bool,
    winners: &NodeWinners,
) -> Result<GeneratedStyles, NoMem>
    ensures styles { IfOk result (λ g. AreGenerated names.new own.now root.now shown note winners.now (styles_in g)) }
    ensures numbered { IfOk result (λ g. names.new ≡ with_names names.old (generated_names winners.now (styles_in g))) }
    ensures names { Extends names.old names.new }
{
    let before = pseudo_style(alloc, names, own, root, shown, winners.before.as_slice())?;
    let after = pseudo_style(alloc, names, own, root, shown, winners.after.as_slice())?;
    let call = pseudo_style(alloc, names, own, root, note, winners.call.as_slice())?;
    let marker = pseudo_style(alloc, names, own, root, note, winners.marker.as_slice())?;
    Ok(GeneratedStyles {
        before,
        after,
        call,
        marker,
    })
}

/// Gives the last node the styles of its pseudo-elements.
fn put_all(styles: &mut Styles, generated: GeneratedStyles) -> Result<(), NoMem>
    requires { 0 < length styles.old }
    ensures { OnOk result (styles.new ≡ all_put (styles_in generated) styles.old) }
{
    let GeneratedStyles {
        before,
        after,
        call,
        marker,
    } = generated;
    put_some(styles, Pseudo::Before, before)?;
    put_some(styles, Pseudo::After, after)?;
    put_some(styles, Pseudo::Call, call)?;
    put_some(styles, Pseudo::Marker, marker)
}

/// Gives the last node the style of a pseudo-element, where there is one.
fn put_some(styles: &mut Styles, pseudo: Pseudo, style: Option<Box<Style>>) -> Result<(), NoMem>
    requires { 0 < length styles.old }
    ensures put { OnOk result (styles.new ≡ change_last (with_option pseudo (option_map (λ b. b.value) style))
        styles.old) }
    ensures some { OnOk result (0 < length styles.new) }
{
    match style {
        Some(style) => styles.put(pseudo, Box::into_inner(style)),
        None => Ok(()),
    }
}

/// The root's font size for an element with a parent.
fn root_above(styles: &Styles, parent: &Option<NodeId>) -> Option<Px>
    ensures { result ≡ root_above styles.now (option_map (λ n. n.0) parent.now) }
{
    match parent {
        Some(_) => Some(font_of(styles.of(NodeId(0), Pseudo::Element))),
        None => None,
    }
}

fn font_of(style: Option<&Style>) -> Px
    ensures { result ≡ font_of (option_map (λ s. s.now) style.entry) }
{
    match style {
        Some(style) => style.font_size,
        None => medium_size(),
    }
}

fn size_for(root: &Option<Px>, style: &Style) -> Px
    ensures { result ≡ unwrap_or root.now style.now.font_size }
{
    match root {
        Some(size) => *size,
        None => style.font_size,
    }
}

/// The parent's style, and for the root the initial one.
fn style_above<'a>(styles: &'a Styles, initial: &'a Style, parent: &Option<NodeId>) -> &'a Style
    requires { initial.now ≡ initial_style }
    ensures { result.now ≡ style_above (parent_row styles.now (option_map (λ n. n.0) parent.now)) }
{
    match parent {
        Some(node) => own_style(styles.of(*node, Pseudo::Element), initial),
        None => initial,
    }
}

fn own_style<'a>(style: Option<&'a Style>, initial: &'a Style) -> &'a Style
    ensures { result.now ≡ unwrap_or (option_map (λ s. s.now) style.entry) initial.now }
{
    match style {
        Some(style) => style,
        None => initial,
    }
}

fn is_shown_below(styles: &Styles, parent: &Option<NodeId>, style: &Style) -> bool
    ensures { result ≡ is_shown_below (option_map (λ n. n.0) parent.now) styles.now style.now }
{
    match parent {
        Some(node) => styles.is_shown(*node) && is_displayed(style.display),
        None => true,
    }
}

fn is_note_below(styles: &Styles, parent: &Option<NodeId>, style: &Style) -> bool
    ensures { result ≡ is_note_below (option_map (λ n. n.0) parent.now) styles.now style.now }
{
    match parent {
        Some(node) => {
            is_shown_below(styles, parent, style) && style.float && !styles.is_in_note(*node)
        }
        None => false,
    }
}

fn is_in_note_below(styles: &Styles, parent: &Option<NodeId>, note: bool) -> bool
    ensures { result ≡ is_in_note_below (option_map (λ n. n.0) parent.now) styles.now note }
{
    match parent {
        Some(node) => note || styles.is_in_note(*node),
        None => false,
    }
}
