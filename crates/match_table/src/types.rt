//! Which nodes are the first and the last of their type among their siblings: one pass over the nodes from each end.

ghost use Rattle.std.specs.Prelude.{◌≡◌, ◌<◌, [], length, map, not, true, Some, IfOk, OnOk};
ghost use Rattle.std.specs.List.{list_any};
ghost use Rattle.match_table.specs.Types as spec;
ghost use Rattle.selectors.specs.TypePlaces.{AreTypePlaces};
ghost use Rattle.selectors.specs.declared.document.TypePlace.{TypePlace};

use bk_num::ids::NodeId;
use bk_num::name::NoMem;
use dom::Dom;
use indexmap::IndexSet;
use selectors::document::TypePlace;
use selectors::types::{Compound, Plain, Selector, Test};
use std::alloc::Global;
use std::marker::Model;

/// Parents with the types of children. Contracts see the list of pairs.
#[derive(Drop)]
struct Kinds<'d> {
    set: IndexSet<(u32, &'d [u8])>,
}

impl<'d> Model for Kinds<'d> {
    ghost use Rattle.std.specs.Prelude.{List, map};
    ghost use Rattle.match_table.specs.Types.{Kind};

    ghost Value = { List Kind };

    ghost view = { λ k. map (λ pair. (pair.0, pair.1.now)) k.set.keys };
}

impl<'d> Kinds<'d> {
    fn new(alloc: Global) -> Kinds<'d>
        ensures { result ≡ [] }
    {
        Kinds {
            set: IndexSet::new(alloc),
        }
    }

    /// Adds a parent with a type, and answers whether it is new.
    fn add(&mut self, parent: u32, name: &'d [u8]) -> Result<bool, NoMem>
        ensures new { IfOk result (λ b. b ≡ not (spec.has_kind self.old (parent, name.entry.now))) }
        ensures kinds { OnOk result (self.new ≡ spec.with_kind self.old (parent, name.entry.now)) }
    {
        let added = self.set.insert((parent, name))?;
        Ok(added)
    }

    /// Adds a node's parent and type, and answers whether they are new. The root and a text have none.
    fn enter(&mut self, dom: &'d Dom, node: NodeId) -> Result<bool, NoMem>
        requires { node.0 < length dom.now }
        ensures new { IfOk result (λ b. b ≡ spec.is_new self.old (spec.kind_at dom.entry.now node.0)) }
        ensures kinds { OnOk result (self.new ≡ spec.with_any self.old (spec.kind_at dom.entry.now node.0)) }
    {
        match (dom.parent(node), dom.name(node)) {
            (Some(parent), Some(name)) => self.add(parent.0, name.as_bytes()),
            _ => Ok(true),
        }
    }
}

/// Type places of which the first is right: one pass from the first node to the last.
fn first_places(alloc: Global, dom: &Dom) -> Result<Vec<TypePlace>, NoMem>
    ensures count { IfOk result (λ v. length v.items ≡ length dom.now) }
    ensures firsts { IfOk result (λ v. spec.AreFirsts dom.now v.items) }
{
    let mut kinds = Kinds::new(alloc);
    let mut places = Vec::new(alloc);
    for node in 0..dom.len() {
        let first = kinds.enter(dom, NodeId(node))?;
        places.push(TypePlace { first, last: false })?;
    }
    Ok(places)
}

/// For each node whether it is the first of its type among its siblings, and whether the last.
fn type_places(alloc: Global, dom: &Dom) -> Result<Vec<TypePlace>, NoMem>
    ensures count { IfOk result (λ v. length v.items ≡ length dom.now) }
    ensures places { IfOk result (λ v. AreTypePlaces dom.now v.items) }
{
    let mut places = first_places(alloc, dom)?;
    let mut kinds = Kinds::new(alloc);
    let mut left = dom.len();
    while left > 0 {
        left -= 1;
        let last = kinds.enter(dom, NodeId(left))?;
        let place = &mut places[left as usize];
        place.last = last;
    }
    Ok(places)
}

fn is_of_type(test: &Test) -> bool
    ensures { result ≡ spec.is_of_type test.now }
{
    matches!(test, Test::FirstOfType | Test::LastOfType)
}

fn plain_asks(plain: &Plain) -> bool
    ensures { result ≡ spec.plain_asks plain.now }
{
    plain.tests.as_slice().iter().any(|test| is_of_type(test))
}

fn some_asks(plains: &[Plain]) -> bool
    ensures { result ≡ list_any spec.plain_asks plains.now }
{
    plains.iter().any(|plain| plain_asks(plain))
}

fn compound_asks(compound: &Compound) -> bool
    ensures { result ≡ spec.compound_asks compound.now }
{
    plain_asks(&compound.plain) || some_asks(compound.nots.as_slice())
}

fn selector_asks(selector: &Selector) -> bool
    ensures { result ≡ spec.selector_asks selector.now }
{
    selector
        .parts()
        .iter()
        .any(|compound| compound_asks(compound))
}

/// Whether one of some selectors asks for a place among siblings of a type.
fn are_asked(selectors: &[&Selector]) -> bool
    ensures { result ≡ list_any (λ s. spec.selector_asks s.now) selectors.now }
{
    selectors.iter().any(|selector| selector_asks(selector))
}

/// The type places of all nodes, or none where no selector asks for a place among siblings of a type.
pub(crate) fn wanted_places(
    alloc: Global,
    dom: &Dom,
    selectors: &[&Selector],
) -> Result<Vec<TypePlace>, NoMem>
    ensures places { IfOk result (λ v. AreTypePlaces dom.now v.items) }
    ensures known { list_any (λ s. spec.selector_asks s.now) selectors.now ≡ true →
        IfOk result (λ v. length v.items ≡ length dom.now) }
{
    if are_asked(selectors) {
        type_places(alloc, dom)
    } else {
        Ok(Vec::new(alloc))
    }
}
