//! What the pseudo-elements of a document print, and what its elements assign to named strings, made for one node at a
//! time (CSS 2.1, 12.1 and 12.2; css-gcpm-3, "string-set").

ghost use Rattle.std.specs.Prelude.{◌≡◌, ◌<◌, ◌++◌, ◌∷◌, [], IfOk, OnOk, length, slice_get};
ghost use Rattle.bk_num.specs.declared.values.Pseudo.TheVariants as pseudo;
ghost use Rattle.gen_text.specs.Content.{text_of};
ghost use Rattle.gen_text.specs.Texts.{assigned_of, assigned_strings, assigns, content_of, content_of_some, generated_text, place_at, source_in};
ghost use Rattle.style.specs.Nodes.{style_at};

use crate::eval::eval;
use crate::table::Table;
use bk_num::ids::NodeId;
use bk_num::items::Items;
use bk_num::name::{Name, NoMem};
use bk_num::values::Pseudo;
use counters::at::CounterAt;
use dom::Dom;
use indexmap::IndexSet;
use named_lists::names::has_name;
use std::alloc::Global;
use style::content::Content;
use style::styles::Styles;

/// What texts are generated from: a document with its styles and counters, the numbers of pages, and the names of the
/// strings that pages ask for.
#[derive(Clone, Copy)]
pub struct Texts<'a> {
    pub dom: &'a Dom,
    pub styles: &'a Styles,
    pub counters: &'a CounterAt,
    pub table: &'a Table,
    pub asked: &'a IndexSet<String>,
}

/// What a pseudo-element of a node prints: nothing where there is none. It costs what `eval` of its content costs.
///
/// # Errors
///
/// `NoMem`.
pub fn generated_text(
    alloc: Global,
    texts: &Texts<'_>,
    node: NodeId,
    pseudo: Pseudo,
) -> Result<Name, NoMem>
    requires { node.0 < length texts.now.dom.now }
    ensures { IfOk result (λ text. text ≡ generated_text (source_in texts.now) node.0 pseudo) }
{
    match pseudo {
        Pseudo::Element => Ok(Name::from_string(String::new(alloc))),
        _ => style_text(alloc, texts, node, pseudo),
    }
}

/// What `content` of a pseudo-element's style prints, nothing where there is none.
fn style_text(alloc: Global, texts: &Texts<'_>, node: NodeId, pseudo: Pseudo) -> Result<Name, NoMem>
    requires { node.0 < length texts.now.dom.now }
    ensures { IfOk result (λ text. text ≡
        text_of (place_at (source_in texts.now) node.0 pseudo)
        (content_of (style_at texts.now.styles.now node.0 pseudo))) }
{
    match texts.styles.of(node, pseudo) {
        Some(style) => some_text(alloc, texts, node, pseudo, &style.content),
        None => Ok(Name::from_string(String::new(alloc))),
    }
}

fn some_text(
    alloc: Global,
    texts: &Texts<'_>,
    node: NodeId,
    pseudo: Pseudo,
    content: &Option<Content>,
) -> Result<Name, NoMem>
    requires { node.0 < length texts.now.dom.now }
    ensures { IfOk result (λ text. text ≡
        text_of (place_at (source_in texts.now) node.0 pseudo) (content_of_some content.now)) }
{
    match content {
        Some(content) => content_text(alloc, texts, node, pseudo, content),
        None => Ok(Name::from_string(String::new(alloc))),
    }
}

/// The text of a list of content.
fn content_text(
    alloc: Global,
    texts: &Texts<'_>,
    node: NodeId,
    pseudo: Pseudo,
    content: &Content,
) -> Result<Name, NoMem>
    requires { node.0 < length texts.now.dom.now }
    ensures { IfOk result (λ text. text ≡ text_of (place_at (source_in texts.now) node.0 pseudo) content.now) }
{
    // a document is a tree
    let _ = texts.dom.len();
    eval(
        alloc,
        texts.dom,
        texts.styles,
        node,
        pseudo,
        content,
        texts.counters,
        texts.table,
    )
}

/// Whether an element assigns strings: it is shown, and neither is a note nor stands in one.
fn assigns(styles: &Styles, node: NodeId) -> bool
    ensures { result ≡ assigns (slice_get styles.now node.0) }
{
    styles.is_shown(node) && !styles.is_in_note(node)
}

/// The named strings that an element assigns, of those that pages ask for, with their values, in the order in which it
/// does. It costs a look-up for each that it sets, and what `eval` of the content of each that is asked for costs: no
/// other value is made.
///
/// # Errors
///
/// `NoMem`.
pub fn assigned_strings(
    alloc: Global,
    texts: &Texts<'_>,
    node: NodeId,
) -> Result<Items<(Name, Name)>, NoMem>
    requires { node.0 < length texts.now.dom.now }
    ensures { IfOk result (λ strings. strings ≡ assigned_strings (source_in texts.now) node.0) }
{
    if !assigns(texts.styles, node) {
        return Ok(Items::new(alloc));
    }
    match texts.styles.of(node, Pseudo::Element) {
        Some(style) => assigned(alloc, texts, node, style.string_set.as_slice()),
        None => Ok(Items::new(alloc)),
    }
}

/// Those of these named strings that pages ask for, with the texts of their contents.
fn assigned(
    alloc: Global,
    texts: &Texts<'_>,
    node: NodeId,
    sets: &[(Name, Content)],
) -> Result<Items<(Name, Name)>, NoMem>
    requires { node.0 < length texts.now.dom.now }
    ensures { IfOk result (λ strings. strings ≡ assigned_of (source_in texts.now) node.0 sets.now) }
{
    let mut strings = Items::new(alloc);
    for set in sets {
        push_assigned(alloc, texts, node, set, &mut strings)?;
    }
    Ok(strings)
}

/// Adds a named string with the text of its content, if pages ask for it.
fn push_assigned(
    alloc: Global,
    texts: &Texts<'_>,
    node: NodeId,
    set: &(Name, Content),
    into: &mut Items<(Name, Name)>,
) -> Result<(), NoMem>
    requires { node.0 < length texts.now.dom.now }
    ensures { OnOk result (into.new ≡ into.old ++ assigned_of (source_in texts.now) node.0 (set.now ∷ [])) }
{
    if !has_name(texts.asked, set.0.as_str()) {
        return Ok(());
    }
    let value = content_text(alloc, texts, node, Pseudo::Element, &set.1)?;
    into.push((set.0.copy()?, value))
}
