//! An element's own text, which `content()` prints (css-gcpm-3, "string-set").

ghost use Rattle.std.specs.Prelude.{◌≡◌, ◌<◌, ◌++◌, IfOk, OnOk, OnErr, length, option_map, string_bytes};
ghost use Rattle.counters.specs.Document.{leaves};
ghost use Rattle.css_tok.specs.Lengths.{is_blank};
ghost use Rattle.dom.specs.Nodes.{parent_at, parents_of};
ghost use Rattle.dom.specs.Walk.{node_of};
ghost use Rattle.gen_text.specs.Own.{added, added_by_char, ending_after, ending_by, is_left_out, own_text, spaced, step_after, step_beyond, step_inside, step_out, text_of_step};
ghost use Rattle.gen_text.specs.Parts.{attribute_text};

use crate::table::print_text;
use bk_num::ids::NodeId;
use bk_num::name::NoMem;
use css_tok::lengths::is_blank;
use dom::{Dom, Step};
use std::alloc::Global;
use style::styles::Styles;

/// How a text ends, of which the words are kept: before its first word, with a word, or with white space after one.
#[derive(Clone, Copy, Debug, PartialEq, Eq)]
pub enum Ending {
    Nothing,
    Word,
    Space,
}

/// Appends what `content()` prints: the texts below an element in tree order, without those of elements that aren't
/// shown and of note elements, each run of white space as one space, trimmed. It costs the nodes below the element, but
/// for those below elements that are left out, and looks at each character of their texts once.
///
/// # Errors
///
/// `NoMem`, and then `into` is as before.
pub fn print_own(
    alloc: Global,
    dom: &Dom,
    styles: &Styles,
    element: NodeId,
    into: &mut String,
) -> Result<(), NoMem>
    requires { element.0 < length dom.now }
    ensures ok { OnOk result (string_bytes into.new ≡ string_bytes into.old ++ own_text dom.now styles.now element.0) }
    ensures err { OnErr result (string_bytes into.new ≡ string_bytes into.old) }
{
    let text = own_text(alloc, dom, styles, element)?;
    print_text(text.as_str(), into)
}

/// An element's own text.
fn own_text(alloc: Global, dom: &Dom, styles: &Styles, element: NodeId) -> Result<String, NoMem>
    requires { element.0 < length dom.now }
    ensures { IfOk result (λ text. string_bytes text ≡ own_text dom.now styles.now element.0) }
{
    // a document is a tree
    let _ = dom.len();
    let mut text = String::new(alloc);
    let mut ending = Ending::Nothing;
    let mut step = inside(dom, element);
    'steps: while !goes_out(step, element) {
        push_step(dom, step, &mut ending, &mut text)?;
        step = after(dom, styles, step);
    }
    Ok(text)
}

/// Appends what the text of a step adds.
fn push_step(dom: &Dom, step: Step, ending: &mut Ending, into: &mut String) -> Result<(), NoMem>
    requires { node_of step < length dom.now }
    ensures ok { OnOk result (string_bytes into.new ≡ string_bytes into.old ++
        added ending.old (text_of_step dom.now step)) }
    ensures ending { OnOk result (ending.new ≡ ending_after ending.old (text_of_step dom.now step)) }
{
    match step {
        Step::Enter(node) => push_text(dom.text(node), ending, into),
        Step::Leave(_) => Ok(()),
    }
}

fn push_text(text: Option<&str>, ending: &mut Ending, into: &mut String) -> Result<(), NoMem>
    ensures ok { OnOk result (string_bytes into.new ≡ string_bytes into.old ++
        added ending.old (attribute_text (option_map (λ s. s.now) text.entry))) }
    ensures ending { OnOk result (ending.new ≡
        ending_after ending.old (attribute_text (option_map (λ s. s.now) text.entry))) }
{
    match text {
        Some(text) => push_words(text, ending, into),
        None => Ok(()),
    }
}

/// Appends what more of a text adds.
fn push_words(text: &str, ending: &mut Ending, into: &mut String) -> Result<(), NoMem>
    ensures ok { OnOk result (string_bytes into.new ≡ string_bytes into.old ++ added ending.old text.now) }
    ensures ending { OnOk result (ending.new ≡ ending_after ending.old text.now) }
{
    for c in text.chars() {
        push_char(c, ending, into)?;
    }
    Ok(())
}

/// Appends what a character adds.
fn push_char(c: char, ending: &mut Ending, into: &mut String) -> Result<(), NoMem>
    ensures ok { OnOk result (string_bytes into.new ≡ string_bytes into.old ++ added_by_char ending.old c) }
    ensures ending { OnOk result (ending.new ≡ ending_by ending.old c) }
{
    if is_white(c) {
        *ending = ending.spaced();
        return Ok(());
    }
    if matches!(ending, Ending::Space) {
        into.push(' ')?;
    }
    into.push(c)?;
    *ending = Ending::Word;
    Ok(())
}

/// Whether a character is white space (CSS 2.1, 4.1.1; HTML, "ASCII whitespace").
#[tactic(auto, using(crate::proofs::WordLemmas::blank_high))]
fn is_white(c: char) -> bool
    ensures { result ≡ is_blank c }
{
    c.is_ascii() && is_blank(c as u8)
}

impl Ending {
    /// How the text ends, once more white space has come.
    fn spaced(self) -> Ending
        ensures { result ≡ spaced self }
    {
        match self {
            Ending::Nothing => Ending::Nothing,
            Ending::Word | Ending::Space => Ending::Space,
        }
    }
}

/// The step after one, past all below an element that is left out.
fn after(dom: &Dom, styles: &Styles, step: Step) -> Step
    requires { node_of step < length dom.now }
    ensures { result ≡ step_after dom.now styles.now step }
{
    match step {
        Step::Enter(node) if is_left_out(dom, styles, node) => Step::Leave(node),
        Step::Enter(node) => inside(dom, node),
        Step::Leave(node) => beyond(dom, node),
    }
}

/// Whether a step goes out of a node.
fn goes_out(step: Step, node: NodeId) -> bool
    ensures { result ≡ leaves node.0 step }
{
    match step {
        Step::Enter(_) => false,
        Step::Leave(at) => at.0 == node.0,
    }
}

/// Whether a node is an element that isn't shown, or a note element.
fn is_left_out(dom: &Dom, styles: &Styles, node: NodeId) -> bool
    requires { node.0 < length dom.now }
    ensures { result ≡ is_left_out dom.now styles.now node.0 }
{
    dom.name(node).is_some() && (!styles.is_shown(node) || styles.is_note(node))
}

/// The first step below a node, or out of it where it has no children.
fn inside(dom: &Dom, node: NodeId) -> Step
    requires { node.0 < length dom.now }
    ensures { result ≡ step_inside dom.now node.0 }
{
    match dom.first_child(node) {
        Some(child) => Step::Enter(child),
        None => Step::Leave(node),
    }
}

/// The step after a node is left: into the next sibling, or out of the parent.
fn beyond(dom: &Dom, node: NodeId) -> Step
    requires { node.0 < length dom.now }
    ensures { result ≡ step_beyond dom.now node.0 }
{
    match dom.next_sibling(node) {
        Some(sibling) => Step::Enter(sibling),
        None => out(dom, node),
    }
}

/// The step out of a node's parent.
fn out(dom: &Dom, node: NodeId) -> Step
    requires { node.0 < length dom.now }
    ensures { result ≡ step_out node.0 (parent_at (parents_of dom.now) node.0) }
{
    match dom.parent(node) {
        Some(parent) => Step::Leave(parent),
        None => Step::Leave(node),
    }
}
