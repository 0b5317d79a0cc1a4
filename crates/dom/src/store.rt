//! What the nodes of a document are.
ghost use Rattle.std.specs.Prelude.{◌≡◌, ◌<◌, ◌++◌, ◌∷◌, [], None, Some, true, length, slice_get, option_map, option_and_then, is_some, not, if◌then◌else◌, IfOk, OnOk, OnErr};
ghost use Rattle.std.specs.Map.{lookup};
ghost use Rattle.dom.specs.Keys.{is_key};
ghost use Rattle.dom.specs.Nodes.{Element, Text, is_element, name_in, text_in, attribute_in, attributed, changed_at};
ghost use Rattle.dom.specs.StoreFields.{made_of};

use crate::names::Names;
use crate::texts::{Span, Texts};
use bk_num::name::NoMem;
use indexmap::IndexMap;
use std::alloc::Global;
use std::marker::Model;

/// A node to be added: an element of a name, without attributes, or a text.
#[derive(Clone, Copy)]
pub(crate) enum New<'a> {
    Element(&'a str),
    Text(&'a str),
}

impl<'a> New<'a> {
    pub(crate) fn is_element(&self) -> bool
        ensures { result ≡ is_element (made_of self.now) }
    {
        matches!(self, New::Element(_))
    }
}

/// What is kept of a node: the number of an element's name, or where a text stands.
#[derive(Clone, Copy)]
pub(crate) enum Item {
    Element(u32),
    Text(Span),
}

/// An attribute by its element and its name.
#[derive(Clone, Copy, PartialEq, Eq, Hash)]
pub(crate) struct Key {
    pub(crate) node: u32,
    pub(crate) name: u32,
}

/// The nodes of a document without their places. Contracts see the list of what they are.
#[derive(Drop)]
pub(crate) struct Store {
    names: Names,
    texts: Texts,
    attributes: IndexMap<Key, Span>,
    items: Vec<Item>,
}

impl Model for Store {
    ghost use Rattle.std.specs.Prelude.{List};
    ghost use Rattle.dom.specs.Nodes.{NodeData};

    ghost Value = { List NodeData };

    ghost use Rattle.dom.specs.StoreFields.{nodes_of, IsSoundStore};

    ghost view = { nodes_of };

    ghost invariant = { IsSoundStore };
}

/// The value of a node's attribute.
fn find(attributes: &IndexMap<Key, Span>, node: u32, name: u32) -> Option<Span>
    ensures { result ≡ lookup (is_key node name) attributes.now.entries }
{
    match attributes.get(&Key { node, name }) {
        Some(span) => Some(*span),
        None => None,
    }
}

/// Adds an attribute that is not there.
fn put(attributes: &mut IndexMap<Key, Span>, node: u32, name: u32, span: Span) -> Result<(), NoMem>
    requires { lookup (is_key node name) attributes.old.entries ≡ None }
    ensures ok { OnOk result (attributes.new.entries
        ≡ attributes.old.entries ++ (record { node = node; name = name }, span) ∷ []) }
    ensures err { OnErr result (attributes.new.entries ≡ attributes.old.entries) }
{
    if attributes.insert(Key { node, name }, span).is_err() {
        return Err(NoMem);
    }
    Ok(())
}

impl Store {
    /// No nodes.
    pub(crate) fn new(alloc: Global) -> Store
        ensures { result ≡ [] }
    {
        Store {
            names: Names::new(alloc),
            texts: Texts::new(alloc),
            attributes: IndexMap::new(alloc),
            items: Vec::new(alloc),
        }
    }

    /// An element without attributes alone.
    pub(crate) fn of_element(alloc: Global, name: &str) -> Result<Store, NoMem>
        ensures { IfOk result (λ store. store ≡ Element name.now [] ∷ []) }
    {
        let mut store = Store::new(alloc);
        store.add_element(alloc, name)?;
        Ok(store)
    }

    /// Adds a node.
    pub(crate) fn add(&mut self, alloc: Global, what: New<'_>) -> Result<(), NoMem>
        ensures ok { OnOk result (self.new ≡ self.old ++ made_of what.entry ∷ []) }
        ensures err { OnErr result (self.new ≡ self.old) }
    {
        match what {
            New::Element(name) => self.add_element(alloc, name),
            New::Text(text) => self.add_text(text),
        }
    }

    /// Adds an element without attributes.
    pub(crate) fn add_element(&mut self, alloc: Global, name: &str) -> Result<(), NoMem>
        ensures ok { OnOk result (self.new ≡ self.old ++ Element name.now [] ∷ []) }
        ensures err { OnErr result (self.new ≡ self.old) }
    {
        let number = self.names.intern(alloc, name)?;
        if self.items.push(Item::Element(number)).is_err() {
            return Err(NoMem);
        }
        Ok(())
    }

    /// Adds a text.
    pub(crate) fn add_text(&mut self, text: &str) -> Result<(), NoMem>
        ensures ok { OnOk result (self.new ≡ self.old ++ Text text.now ∷ []) }
        ensures err { OnErr result (self.new ≡ self.old) }
    {
        let span = self.texts.push(text)?;
        if self.items.push(Item::Text(span)).is_err() {
            return Err(NoMem);
        }
        Ok(())
    }

    /// Adds an attribute to an element, and answers false where it has one of the name.
    pub(crate) fn add_attr(
        &mut self,
        alloc: Global,
        node: u32,
        name: &str,
        value: &str,
    ) -> Result<bool, NoMem>
        requires { option_map is_element (slice_get self.old node) ≡ Some true }
        ensures added { IfOk result (λ b. b
            ≡ not (is_some (option_and_then (attribute_in name.now) (slice_get self.old node)))) }
        ensures ok { IfOk result (λ b. self.new ≡ (if b
            then changed_at (attributed name.now value.now) self.old node (slice_get self.old node) else self.old)) }
        ensures err { OnErr result (self.new ≡ self.old) }
    {
        if self.attr(node, name).is_some() {
            return Ok(false);
        }
        let name = self.names.intern(alloc, name)?;
        let span = self.texts.push(value)?;
        put(&mut self.attributes, node, name, span)?;
        Ok(true)
    }

    /// An element's name; None exactly for a text.
    pub(crate) fn name(&self, node: u32) -> Option<&str>
        requires { node < length self.now }
        ensures { option_map (λ s. s.now) result ≡ option_and_then name_in (slice_get self.now node) }
    {
        match self.items[node as usize] {
            Item::Element(number) => Some(self.names.get(number)),
            Item::Text(_) => None,
        }
    }

    /// A text's text; None exactly for an element.
    pub(crate) fn text(&self, node: u32) -> Option<&str>
        requires { node < length self.now }
        ensures { option_map (λ s. s.now) result ≡ option_and_then text_in (slice_get self.now node) }
    {
        match self.items[node as usize] {
            Item::Element(_) => None,
            Item::Text(span) => Some(self.texts.get(span)),
        }
    }

    /// The value of an element's attribute of this name.
    pub(crate) fn attr(&self, node: u32, name: &str) -> Option<&str>
        requires { node < length self.now }
        ensures { option_map (λ s. s.now) result ≡ option_and_then (attribute_in name.now) (slice_get self.now node) }
    {
        let Item::Element(_) = self.items[node as usize] else {
            return None;
        };
        let Some(name) = self.names.number(name) else {
            return None;
        };
        match find(&self.attributes, node, name) {
            Some(span) => Some(self.texts.get(span)),
            None => None,
        }
    }
}
