//! The document.
ghost use Rattle.std.specs.Prelude.{IfErr, IsTrue, ◌≡◌, ◌+◌, ◌<◌, ◌≤◌, List, [], ◌∷◌, ◌++◌, Option, Some, IfOk, OnErr, OnOk, length, option_map, true, false, not, is_some, if◌then◌else◌};
ghost use Rattle.dom.specs.Nodes.{Element, Text, IsTree, parents_of, element_parents_of, parent_at, first_child_of, next_of, prev_of, is_element, child_of, depth_at, is_element_at, last_child_of, element_count, elements_before_of, name_at, text_at, attribute_at, root, with_attribute};
ghost use Rattle.std.specs.Prelude.{take, codes, IfSome};
ghost use Rattle.bk_num.specs.Limits.{most_depth, most_nodes};
ghost use Rattle.dom.specs.StoreFields.{made_of};
ghost use Rattle.dom.specs.Links.{IsRowOf};
ghost use Rattle.std.specs.Ordering.{nat_cmp, is_gt};
ghost use Rattle.std.specs.Cmp.Lexicographic.{slice_cmp};
ghost use Rattle.dom.specs.Order.{IsFirstOf, comes_after, leads, way_to};
ghost use Rattle.dom.specs.Answers.{AddAnswers, HasRoom, is_below_all};

use crate::ids::{Ids, first, make_room, set_first};
use crate::rows::{Row, child_row, link, root_rows};
use crate::store::{New, Store};
use bk_num::ids::NodeId;
use bk_num::limits::{MOST_DEPTH, MOST_NODES};
use bk_num::name::NoMem;
use indexmap::IndexMap;
use std::alloc::Global;
use std::cmp::Ordering;
use std::marker::Model;
use thiserror::Error;

/// The most nodes on the way from the root to a node: 200 elements and a text.
const WAY: usize = 201;

/// Why a node was not added.
#[derive(Clone, Copy, PartialEq, Eq, Debug, Error)]
pub enum DomErr {
    /// There are 400,000 nodes already.
    #[error("too many nodes")]
    Nodes,
    /// The element would be at depth 201.
    #[error("too deep")]
    Depth,
    #[error("no memory")]
    NoMemory,
}

impl From<NoMem> for DomErr {
    ghost use Rattle.std.specs.Prelude.{◌≡◌};
    ghost use Rattle.dom.specs.declared.dom.DomErr.TheVariants.{NoMemory};

    ghost from_gives = { λ _ e. e ≡ NoMemory };

    fn from(_e: NoMem) -> DomErr {
        DomErr::NoMemory
    }
}

/// A document. Contracts see the list of its nodes, each with the number of its parent. Node 0 is the element `html`.
#[derive(Drop)]
pub struct Dom {
    rows: Vec<Row>,
    store: Store,
    ids: Ids,
}

impl Model for Dom {
    ghost use Rattle.std.specs.Prelude.{List};
    ghost use Rattle.dom.specs.Nodes.{Node};

    ghost Value = { List Node };

    ghost use Rattle.dom.specs.DomFields.{nodes_of, IsSoundDom};

    ghost view = { nodes_of };

    ghost invariant = { IsSoundDom };
}

impl Dom {
    /// The document that has the element `html` alone.
    pub fn new(alloc: Global) -> Result<Dom, DomErr>
        ensures ok { IfOk result (λ dom. dom ≡ root ∷ []) }
        ensures err { IfErr result (λ e. e ≡ DomErr.NoMemory) }
    {
        let store = Store::of_element(alloc, "html")?;
        let rows = root_rows(alloc)?;
        Ok(Dom {
            rows,
            store,
            ids: IndexMap::new(alloc),
        })
    }

    /// How many nodes there are.
    pub fn len(&self) -> u32
        ensures len { result ≡ length self.now }
        ensures tree { IsTree self.now }
    {
        self.rows.len() as u32
    }

    /// The element `html`, node 0.
    pub fn root(&self) -> NodeId
        ensures root { result.0 ≡ 0 }
        ensures some { 0 < length self.now }
        ensures tree { IsTree self.now }
    {
        // the look at a row shows the proof that there is one
        let _ = &self.rows;
        NodeId(0)
    }

    /// The parent of a node; None exactly for node 0.
    pub fn parent(&self, node: NodeId) -> Option<NodeId>
        requires { node.0 < length self.now }
        ensures { option_map (λ n. n.0) result ≡ parent_at (parents_of self.now) node.0 }
    {
        named(self.row(node).parent.get())
    }

    pub fn first_child(&self, node: NodeId) -> Option<NodeId>
        requires { node.0 < length self.now }
        ensures { option_map (λ n. n.0) result ≡ first_child_of (parents_of self.now) node.0 }
    {
        named(self.row(node).first_child.get())
    }

    pub fn last_child(&self, node: NodeId) -> Option<NodeId>
        requires { node.0 < length self.now }
        ensures { option_map (λ n. n.0) result ≡ last_child_of (parents_of self.now) node.0 }
    {
        named(self.row(node).last_child.get())
    }

    pub fn next_sibling(&self, node: NodeId) -> Option<NodeId>
        requires { node.0 < length self.now }
        ensures { option_map (λ n. n.0) result ≡ next_of (parents_of self.now) node.0 }
    {
        named(self.row(node).next.get())
    }

    pub fn prev_sibling(&self, node: NodeId) -> Option<NodeId>
        requires { node.0 < length self.now }
        ensures { option_map (λ n. n.0) result ≡ prev_of (parents_of self.now) node.0 }
    {
        named(self.row(node).prev.get())
    }

    /// How deep a node is: 1 for node 0, and one more than its parent for each other.
    pub fn depth(&self, node: NodeId) -> u8
        requires { node.0 < length self.now }
        ensures depth { result ≡ depth_at self.now node.0 }
        ensures element { IsTrue (is_element_at self.now node.0) → result ≤ most_depth }
        ensures most { result ≤ most_depth + 1 }
        ensures tree { IsTree self.now }
    {
        self.row(node).depth
    }

    /// How many elements among a node's siblings come before it.
    pub fn elements_before(&self, node: NodeId) -> u32
        requires { node.0 < length self.now }
        ensures { result ≡ elements_before_of self.now node.0 }
    {
        self.row(node).elements_before
    }

    /// How many children of a node are elements, at most 400,000.
    pub fn element_count(&self, node: NodeId) -> u32
        requires { node.0 < length self.now }
        ensures count { result ≡ element_count (element_parents_of self.now) node.0 }
        ensures few { result ≤ most_nodes }
    {
        self.row(node).elements
    }

    /// An element's name; None exactly for a text.
    pub fn name(&self, node: NodeId) -> Option<&str>
        requires { node.0 < length self.now }
        ensures { option_map (λ s. s.now) result ≡ name_at self.now node.0 }
    {
        self.store.name(node.0)
    }

    /// A text's text; None exactly for an element.
    pub fn text(&self, node: NodeId) -> Option<&str>
        requires { node.0 < length self.now }
        ensures { option_map (λ s. s.now) result ≡ text_at self.now node.0 }
    {
        self.store.text(node.0)
    }

    /// The value of an element's attribute of this name.
    pub fn attr(&self, node: NodeId, name: &str) -> Option<&str>
        requires { node.0 < length self.now }
        ensures { option_map (λ s. s.now) result ≡ attribute_at self.now node.0 name.now }
    {
        self.store.attr(node.0, name)
    }

    /// Adds an element without attributes as the last child of an element.
    pub fn add_element(
        &mut self,
        alloc: Global,
        parent: NodeId,
        name: &str,
    ) -> Result<NodeId, DomErr>
        requires parent { parent.0 < length self.old }
        requires element { IsTrue (is_element_at self.old parent.0) }
        ensures number { IfOk result (λ n. n.0 ≡ length self.old) }
        ensures ok { OnOk result (self.new ≡ self.old ++ child_of self.old parent.0 (Element name.now []) ∷ []) }
        ensures err { OnErr result (self.new ≡ self.old) }
        ensures causes { AddAnswers self.old parent.0 true result }
    {
        if let Err(e) = self.room(parent, true) {
            return Err(e);
        }
        match self.add(alloc, parent, New::Element(name)) {
            Ok(node) => Ok(node),
            Err(_) => Err(DomErr::NoMemory),
        }
    }

    /// Adds a text as the last child of an element. A text may be at depth 201.
    pub fn add_text(&mut self, alloc: Global, parent: NodeId, text: &str) -> Result<NodeId, DomErr>
        requires parent { parent.0 < length self.old }
        requires element { IsTrue (is_element_at self.old parent.0) }
        ensures number { IfOk result (λ n. n.0 ≡ length self.old) }
        ensures ok { OnOk result (self.new ≡ self.old ++ child_of self.old parent.0 (Text text.now) ∷ []) }
        ensures err { OnErr result (self.new ≡ self.old) }
        ensures causes { AddAnswers self.old parent.0 false result }
    {
        if let Err(e) = self.room(parent, false) {
            return Err(e);
        }
        match self.add(alloc, parent, New::Text(text)) {
            Ok(node) => Ok(node),
            Err(_) => Err(DomErr::NoMemory),
        }
    }

    /// Adds an attribute to an element, and answers false where it has one of the name.
    pub fn add_attr(
        &mut self,
        alloc: Global,
        node: NodeId,
        name: &str,
        value: &str,
    ) -> Result<bool, NoMem>
        requires node { node.0 < length self.old }
        requires element { IsTrue (is_element_at self.old node.0) }
        ensures added { IfOk result (λ b. b ≡ not (is_some (attribute_at self.old node.0 name.now))) }
        ensures ok { IfOk result (λ b. self.new
            ≡ (if b then with_attribute self.old node.0 name.now value.now else self.old)) }
        ensures err { OnErr result (self.new ≡ self.old) }
    {
        if name == "id" {
            return self.add_id(alloc, node, value);
        }
        self.store.add_attr(alloc, node.0, name, value)
    }

    /// Adds the attribute `id`, and notes the element where it is the first of the id.
    fn add_id(&mut self, alloc: Global, node: NodeId, value: &str) -> Result<bool, NoMem>
        requires node { node.0 < length self.old }
        requires element { IsTrue (is_element_at self.old node.0) }
        ensures added { IfOk result (λ b. b ≡ not (is_some (attribute_at self.old node.0 (codes "id")))) }
        ensures ok { IfOk result (λ b. self.new
            ≡ (if b then with_attribute self.old node.0 (codes "id") value.now else self.old)) }
        ensures err { OnErr result (self.new ≡ self.old) }
    {
        let leads = self.leads(node, first(&self.ids, value));
        make_room(&mut self.ids, alloc, value)?;
        if !self.store.add_attr(alloc, node.0, "id", value)? {
            return Ok(false);
        }
        if leads {
            set_first(&mut self.ids, value, node.0);
        }
        Ok(true)
    }

    /// The first element in tree order whose attribute `id` is this text. It takes one look-up.
    pub fn by_id(&self, id: &str) -> Option<NodeId>
        ensures { IsFirstOf self.now id.now (option_map (λ n. n.0) result) }
    {
        named(first(&self.ids, id))
    }

    /// Whether a node comes before the first of an id.
    fn leads(&self, node: NodeId, first: Option<u32>) -> bool
        requires node { node.0 < length self.now }
        requires first { IfSome first (λ n. n < length self.now) }
        ensures { result ≡ leads self.now node.0 first }
    {
        match first {
            None => true,
            Some(other) => self.comes_after(NodeId(other), node),
        }
    }

    /// Whether one node comes after another in tree order.
    fn comes_after(&self, a: NodeId, b: NodeId) -> bool
        requires a { a.0 < length self.now }
        requires b { b.0 < length self.now }
        ensures { result ≡ comes_after self.now a.0 b.0 }
    {
        let mut way_a = [0; WAY];
        let mut way_b = [0; WAY];
        let len_a = self.write_way(a, &mut way_a);
        let len_b = self.write_way(b, &mut way_b);
        is_after(&way_a[..len_a], &way_b[..len_b])
    }

    /// Writes the nodes from the root to a node, and answers how many they are.
    fn write_way(&self, node: NodeId, way: &mut [u32; WAY]) -> usize
        requires { node.0 < length self.now }
        ensures way { take result way.new ≡ way_to self.now node.0 }
        ensures len { result ≤ most_depth + 1 }
    {
        let depth = self.depth(node) as usize;
        let mut place = depth;
        let mut next = Some(node);
        while let Some(node) = next {
            place -= 1;
            way[place] = node.0;
            next = self.parent(node);
        }
        depth
    }

    /// The row of a node.
    fn row(&self, node: NodeId) -> &Row
        requires { node.0 < length self.now }
        ensures row { IsRowOf self.now node.0 result.now }
        ensures most { result.now.depth ≤ most_depth + 1 }
        ensures element { IsTrue (is_element_at self.now node.0) → result.now.depth ≤ most_depth }
        ensures few { result.now.elements ≤ most_nodes }
        ensures tree { IsTree self.now }
    {
        &self.rows[node.0 as usize]
    }

    /// Whether there is room for one more node under a parent.
    fn room(&self, parent: NodeId, element: bool) -> Result<(), DomErr>
        requires { parent.0 < length self.now }
        ensures { AddAnswers self.now parent.0 element result }
    {
        if self.len() >= MOST_NODES {
            return Err(DomErr::Nodes);
        }
        if is_below_all(element, self.depth(parent)) {
            return Err(DomErr::Depth);
        }
        Ok(())
    }

    /// Adds a node as the last child of an element.
    fn add(&mut self, alloc: Global, parent: NodeId, what: New<'_>) -> Result<NodeId, NoMem>
        requires parent { parent.0 < length self.old }
        requires element { IsTrue (is_element_at self.old parent.0) }
        requires room { HasRoom self.old parent.0 (is_element (made_of what)) }
        ensures number { IfOk result (λ n. n.0 ≡ length self.old) }
        ensures ok { OnOk result (self.new ≡ self.old ++ child_of self.old parent.0 (made_of what.entry) ∷ []) }
        ensures err { OnErr result (self.new ≡ self.old) }
    {
        let index = self.len();
        let depth = self.depth(parent);
        let last = unnamed(self.last_child(parent));
        let before = self.element_count(parent);
        let elements = count_after(before, what.is_element());
        let row = child_row(parent.0, depth, last, before);
        if self.rows.push(row).is_err() {
            return Err(NoMem);
        }
        if self.store.add(alloc, what).is_err() {
            self.rows.truncate(index as usize);
            return Err(NoMem);
        }
        link(&mut self.rows, parent.0, last, index, elements);
        Ok(NodeId(index))
    }
}

/// Whether one list comes after another in lexicographic order.
fn is_after(a: &[u32], b: &[u32]) -> bool
    ensures { result ≡ is_gt (slice_cmp nat_cmp a.now b.now) }
{
    matches!(a.cmp(b), Ordering::Greater)
}

fn is_below_all(element: bool, depth: u8) -> bool
    ensures { result ≡ is_below_all element depth }
{
    u32::from(depth) >= MOST_DEPTH && element
}

/// How many element children there are after one more child.
fn count_after(before: u32, element: bool) -> u32
    requires { before ≤ most_nodes }
    ensures { result ≡ before + (if element then 1 else 0) }
{
    if element { before + 1 } else { before }
}

fn named(number: Option<u32>) -> Option<NodeId>
    ensures { option_map (λ n. n.0) result ≡ number }
{
    match number {
        Some(n) => Some(NodeId(n)),
        None => None,
    }
}

fn unnamed(node: Option<NodeId>) -> Option<u32>
    ensures { result ≡ option_map (λ n. n.0) node }
{
    match node {
        Some(n) => Some(n.0),
        None => None,
    }
}
