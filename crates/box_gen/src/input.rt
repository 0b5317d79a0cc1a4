//! What a flow is made from.

ghost use Rattle.std.specs.Prelude.{◌≡◌, true, IfSome, Some, option_map};
ghost use Rattle.bk_num.specs.declared.values.Pseudo.TheVariants as pseudo;
ghost use Rattle.style.specs.Nodes.{style_at};
ghost use Rattle.box_gen.specs.Kinds.{HasRange, IsSetIn, role_in, shown_in};
ghost use Rattle.box_gen.specs.Sources.{IsInput, IsInRange, IsNodeOf, source_in};
ghost use Rattle.box_gen.specs.Trees as spec;
ghost use Rattle.box_gen.specs.Walk.{element_style, style_around};

use crate::faced::FacedStyle;
use crate::style_faces::StyleFaces;
use bk_num::ids::NodeId;
use bk_num::values::Pseudo;
use gen_text::texts::Texts;
use metrics::Faces;
use soft_hyphens::hyphenator::Hyphenator;
use style::style::Style;
use style::values::Display;

/// A document with what its texts are generated from, the faces that set it, its styles and the initial one with their
/// faces, what hyphenates its words, and whether what is meant stands in a note.
#[derive(Clone, Copy)]
pub(crate) struct FlowInput<'a> {
    pub(crate) texts: &'a Texts<'a>,
    pub(crate) faces: &'a Faces,
    pub(crate) known: &'a StyleFaces<'a>,
    pub(crate) hyphenator: Option<&'a Hyphenator<'a>>,
    pub(crate) in_note: bool,
}

/// What a node is to the flow.
#[derive(Clone, Copy)]
pub(crate) enum NodeKind<'a> {
    Text(&'a str),
    Hidden,
    Inline(&'a FacedStyle<'a>),
    Block(&'a FacedStyle<'a>),
    Note(&'a FacedStyle<'a>),
}

/// The same in a note.
pub(crate) fn within_note<'a>(input: &FlowInput<'a>) -> FlowInput<'a>
    ensures same { result ≡ record input.now { in_note = true } }
{
    FlowInput {
        in_note: true,
        ..*input
    }
}

fn is_block_level(display: Display) -> bool
    ensures { result ≡ spec.is_block_level display }
{
    match display {
        Display::Block | Display::ListItem => true,
        Display::Inline | Display::Hidden => false,
    }
}

/// Whether a shown element is a block, the root or another one.
fn is_block(root: bool, style: &Style) -> bool
    ensures { result ≡ spec.is_block root style.now }
{
    root || !style.float && is_block_level(style.display)
}

/// Whether an element is one that floats to the notes, unless it is in one.
pub(crate) fn is_note_element(input: &FlowInput, node: NodeId) -> bool
    ensures { result ≡ spec.is_note_element (source_in input.now) node.0 }
{
    node.0 != 0 && !input.in_note && input.texts.styles.is_note(node)
}

/// The style of a node, or of a pseudo-element of it, with its face; None exactly where it has none.
pub(crate) fn faced_at<'a>(
    input: &FlowInput<'a>,
    node: NodeId,
    pseudo: Pseudo,
) -> Option<&'a FacedStyle<'a>>
    requires { IsInput input.now }
    ensures value { option_map (λ s. s.now.style) result ≡ style_at input.now.texts.now.styles.now node.0 pseudo }
    ensures faces { IfSome result (λ s. s.now.faces ≡ input.now.faces.now) }
{
    let number = input.known.table.number(node, pseudo)?;
    input.known.styles.get(number as usize)
}

/// The style of an element.
fn own_style<'a>(input: &FlowInput<'a>, node: NodeId) -> Option<&'a FacedStyle<'a>>
    requires { IsInput input.now }
    ensures value { option_map (λ s. s.now.style) result ≡
        style_at input.now.texts.now.styles.now node.0 pseudo.Element }
    ensures faces { IfSome result (λ s. s.now.faces ≡ input.now.faces.now) }
    ensures range { IfSome result (λ s. IsInRange s.now.style) }
{
    match faced_at(input, node, Pseudo::Element) {
        Some(faced) => Some(faced),
        None => None,
    }
}

/// The style of an element that is shown.
fn shown_style<'a>(input: &FlowInput<'a>, node: NodeId) -> Option<&'a FacedStyle<'a>>
    requires { IsInput input.now }
    ensures value { option_map (λ s. s.now.style) result ≡ shown_in input.now.texts.now.styles.now node.0 }
    ensures faces { IfSome result (λ s. s.now.faces ≡ input.now.faces.now) }
    ensures range { IfSome result (λ s. IsInRange s.now.style) }
{
    if input.texts.styles.is_shown(node) {
        own_style(input, node)
    } else {
        None
    }
}

/// What a node is to the flow.
pub(crate) fn kind_of<'a>(input: &FlowInput<'a>, node: NodeId) -> NodeKind<'a>
    requires { IsNodeOf input.now node.0 }
    ensures role { role_in result ≡ spec.role_of (source_in input.now) node.0 }
    ensures faces { IsSetIn input.now.faces.now result }
    ensures range { HasRange result }
{
    if let Some(text) = input.texts.dom.text(node) {
        return NodeKind::Text(text);
    }
    match shown_style(input, node) {
        None => NodeKind::Hidden,
        Some(faced) => {
            if is_note_element(input, node) {
                NodeKind::Note(faced)
            } else if is_block(node.0 == 0, faced.style()) {
                NodeKind::Block(faced)
            } else {
                NodeKind::Inline(faced)
            }
        }
    }
}

/// The style of an element, or the initial one.
pub(crate) fn style_of<'a>(input: &FlowInput<'a>, node: NodeId) -> &'a FacedStyle<'a>
    requires { IsInput input.now }
    ensures value { result.now.style ≡ element_style (source_in input.now) (Some node.0) }
    ensures faces { result.now.faces ≡ input.now.faces.now }
    ensures range { IsInRange result.now.style }
{
    if let Some(faced) = own_style(input, node) {
        return faced;
    }
    &input.known.initial
}

/// The style of the element around a node.
pub(crate) fn style_around<'a>(input: &FlowInput<'a>, node: NodeId) -> &'a FacedStyle<'a>
    requires { IsNodeOf input.now node.0 }
    ensures value { result.now.style ≡ style_around (source_in input.now) node.0 }
    ensures faces { result.now.faces ≡ input.now.faces.now }
{
    match input.texts.dom.parent(node) {
        Some(parent) => style_of(input, parent),
        None => &input.known.initial,
    }
}
