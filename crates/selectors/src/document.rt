//! A document to match selectors against.

ghost use Rattle.std.specs.Prelude.{◌≡◌, ◌<◌, length};
ghost use Rattle.selectors.specs.Fits as spec;
ghost use Rattle.selectors.specs.TypePlaces.{AreTypePlaces};

use crate::walk::{Way, has_same_type};
use bk_num::ids::NodeId;
use dom::Dom;
use std::marker::Model;

/// Whether a node is the first of its type among its siblings, and whether the last.
#[derive(Clone, Copy, Debug)]
pub struct TypePlace {
    pub first: bool,
    pub last: bool,
}

/// A document with the type places of its first nodes, as far as they are known. Contracts see the document alone.
#[derive(Drop)]
pub struct TypedDocument<'d> {
    dom: &'d Dom,
    places: &'d [TypePlace],
}

impl<'d> Model for TypedDocument<'d> {
    ghost use Rattle.selectors.specs.Match.{Tree};
    ghost use Rattle.selectors.specs.TypePlaces.{AreTypePlaces};

    ghost Value = { Tree };

    ghost view = { λ d. d.dom.now };

    ghost invariant = { λ d. AreTypePlaces d.dom.now d.places.now };
}

impl<'d> TypedDocument<'d> {
    /// A document of which no type place is known, so that each is found among the siblings. It takes no memory.
    pub fn new(dom: &'d Dom) -> TypedDocument<'d>
        ensures { result ≡ dom.entry.now }
    {
        TypedDocument { dom, places: &[] }
    }

    /// A document with its type places.
    pub fn with_places(dom: &'d Dom, places: &'d [TypePlace]) -> TypedDocument<'d>
        requires { AreTypePlaces dom.now places.now }
        ensures { result ≡ dom.entry.now }
    {
        TypedDocument { dom, places }
    }

    /// The nodes.
    pub fn dom(&self) -> &'d Dom
        ensures { result.now ≡ self.now }
    {
        self.dom
    }

    /// Whether no sibling of the node's type stands before it.
    pub(crate) fn is_first_of_type(&self, node: NodeId) -> bool
        requires { node.0 < length self.now }
        ensures { result ≡ spec.is_first_of_type self.now node.0 }
    {
        match self.places.get(node.0 as usize) {
            Some(place) => place.first,
            None => !has_same_type(self.dom, Way::Before, node),
        }
    }

    /// Whether no sibling of the node's type stands after it.
    pub(crate) fn is_last_of_type(&self, node: NodeId) -> bool
        requires { node.0 < length self.now }
        ensures { result ≡ spec.is_last_of_type self.now node.0 }
    {
        match self.places.get(node.0 as usize) {
            Some(place) => place.last,
            None => !has_same_type(self.dom, Way::After, node),
        }
    }
}
