//! The builder of a tree.
ghost use Rattle.std.specs.Prelude.{List, Some, codes, ◌≡◌, ◌<◌, ◌++◌, length, IfOk, IfErr, OnOk, IsTrue, true, false, Ok};
ghost use Rattle.std.specs.Cow.{cow_str_bytes};
ghost use Rattle.bk_num.specs.Limits.{most_nodes};
ghost use Rattle.dom.specs.Nodes.{Node, is_element_at};
ghost use Rattle.html_tok.specs.Tags.{attributes_of};
ghost use Rattle.html_tok.specs.Listed.{view_of};
ghost use Rattle.html_tree.specs.Texts.{text_of, name_of};
ghost use Rattle.html_tree.specs.Scopes.{HaveScopes};
ghost use Rattle.html_tree.specs.Tree.{name_in, put_all, add_text, add_element, after_start, after_text, after_kind, without, is_blank, is_escapable, current_name, appended, new_text, is_text_under, last_of, opened_after, begun, after_rule, tree_of};
ghost use Rattle.html_tree.specs.Rules.{rules};
ghost use Rattle.std.specs.Prelude.{fold};
ghost use Rattle.html_tree.specs.Order.{AreInOrder};
ghost use Rattle.html_tree.specs.Built.{Answers, waiting, state_of, IsBuilt};

use crate::opened::{close_named, close_rows, current, name_of_element};
use crate::rules::is_void;
use crate::scopes::{HEAD, ROWS, last_scopes, scopes_within};
use crate::text::{name_of, text_of};
use bk_num::ids::NodeId;
use bk_num::limits::MOST_NODES;
use bk_num::name::NoMem;
use dom::{Dom, DomErr};
use html_tok::{Attrs, Token, TokenKind, Tokens};
use std::alloc::Global;
use std::borrow::CowStr;

/// A tree that is being built: its nodes, the open elements other than node 0, each with the rows that have an element
/// in scope up to it, and the text that waits for more, with the element that it belongs to. A text of one piece waits
/// where it stands.
#[derive(Drop)]
pub(crate) struct Builder<'t> {
    pub(crate) dom: Dom,
    pub(crate) opened: Vec<NodeId>,
    pub(crate) scopes: Vec<[bool; ROWS]>,
    pub(crate) text: CowStr<'t>,
    pub(crate) parent: NodeId,
}

/// Adds the attributes that an element lacks.
fn put_attributes(dom: &mut Dom, alloc: Global, node: NodeId, attrs: &str) -> Result<(), NoMem>
    requires { IsTrue (is_element_at dom.old node.0) }
    ensures { OnOk result (dom.new ≡ put_all node.0 (attributes_of attrs.now) dom.old) }
{
    let mut attrs = Attrs::new(attrs);
    while let Some((name, value)) = attrs.next() {
        let name = name_of(alloc, name)?;
        let value = text_of(alloc, value, true)?;
        dom.add_attr(alloc, node, name.as_str(), value.as_str())?;
    }
    Ok(())
}

/// Makes a node of the text that waits.
fn put_text(dom: &mut Dom, alloc: Global, parent: NodeId, text: &str) -> Result<(), NoMem>
    requires parent { IsTrue (is_element_at dom.old parent.0) }
    requires few { 0 < length text.now → length dom.old < most_nodes }
    ensures { OnOk result (dom.new ≡ dom.old ++ waiting dom.old parent.0 text.now) }
{
    if text.is_empty() {
        return Ok(());
    }
    if dom.add_text(alloc, parent, text).is_err() {
        return Err(NoMem);
    }
    Ok(())
}

/// Appends to a text, which is copied where it only waits.
fn append_to(text: &mut CowStr<'_>, alloc: Global, more: &str) -> Result<(), NoMem>
    ensures { OnOk result (cow_str_bytes text.new ≡ cow_str_bytes text.old ++ more.now) }
{
    match text {
        CowStr::Owned(owned) => owned.push_str(more)?,
        CowStr::Borrowed(start) => {
            let mut owned = String::from_str(alloc, start)?;
            owned.push_str(more)?;
            *text = CowStr::Owned(owned);
        }
    }
    Ok(())
}

impl<'t> Builder<'t> {
    /// The tree of no tokens.
    pub(crate) fn new(alloc: Global) -> Result<Builder<'t>, DomErr>
        ensures built { IfOk result (λ b. IsBuilt b) }
        ensures state { IfOk result (λ b. state_of b ≡ begun) }
        ensures err { IfErr result (λ e. e ≡ DomErr.NoMemory) }
    {
        let dom = match Dom::new(alloc) {
            Ok(dom) => dom,
            Err(e) => return Err(e),
        };
        Ok(Builder {
            dom,
            opened: Vec::new(alloc),
            scopes: Vec::new(alloc),
            text: CowStr::Borrowed(""),
            parent: NodeId(0),
        })
    }

    /// Reads a token.
    #[tactic(auto, unfolding(crate::specs::Tree::after_kind))]
    pub(crate) fn read(&mut self, alloc: Global, token: Token<'t>) -> Result<(), DomErr>
        requires { IsBuilt self.old }
        ensures built { OnOk result (IsBuilt self.new) }
        ensures state { Answers (after_kind (view_of token.entry).kind (view_of token.entry).slice
            (state_of self.old)) result
            (λ _. state_of self.new) }
    {
        match token.kind {
            TokenKind::Text => self.read_text(alloc, token.slice),
            TokenKind::Raw => self.read_raw(alloc, token.slice),
            TokenKind::Start { name, attrs } => self.read_start(alloc, name, attrs),
            TokenKind::End { name } => self.read_end(alloc, name),
            TokenKind::Skip => Ok(()),
        }
    }

    /// The nodes that were built.
    pub(crate) fn finish(self, alloc: Global) -> Result<Dom, DomErr>
        requires { IsBuilt self }
        ensures ok { IfOk result (λ dom. dom ≡ (state_of self.entry).nodes) }
        ensures err { IfErr result (λ e. e ≡ DomErr.NoMemory) }
    {
        let mut dom = self.dom;
        let text = self.text;
        if put_text(&mut dom, alloc, self.parent, text.as_str()).is_err() {
            return Err(DomErr::NoMemory);
        }
        Ok(dom)
    }

    fn read_text(&mut self, alloc: Global, slice: &'t str) -> Result<(), DomErr>
        requires { IsBuilt self.old }
        ensures built { OnOk result (IsBuilt self.new) }
        ensures state { Answers (after_text (text_of true slice.entry.now) (state_of self.old)) result
            (λ _. state_of self.new) }
    {
        let Ok(text) = text_of(alloc, slice, true) else {
            return Err(DomErr::NoMemory);
        };
        if !is_blank(text.as_str().as_bytes()) {
            self.close_head();
        }
        self.add_text(alloc, text)
    }

    fn read_raw(&mut self, alloc: Global, slice: &'t str) -> Result<(), DomErr>
        requires { IsBuilt self.old }
        ensures built { OnOk result (IsBuilt self.new) }
        ensures state { Answers (add_text (text_of (is_escapable (current_name (state_of self.old))) slice.entry.now)
            (state_of self.old))
            result (λ _. state_of self.new) }
    {
        let escapable = self.is_in_escapable();
        let Ok(text) = text_of(alloc, slice, escapable) else {
            return Err(DomErr::NoMemory);
        };
        self.add_text(alloc, text)
    }

    fn read_start(&mut self, alloc: Global, name: &str, attrs: &str) -> Result<(), DomErr>
        requires { IsBuilt self.old }
        ensures built { OnOk result (IsBuilt self.new) }
        ensures state { Answers (after_start (name_of name.now) attrs.now (state_of self.old)) result
            (λ _. state_of self.new) }
    {
        let Ok(name) = name_of(alloc, name) else {
            return Err(DomErr::NoMemory);
        };
        self.read_named_start(alloc, name.as_str(), attrs)
    }

    /// Reads a start tag of this name.
    fn read_named_start(&mut self, alloc: Global, name: &str, attrs: &str) -> Result<(), DomErr>
        requires { IsBuilt self.old }
        ensures built { OnOk result (IsBuilt self.new) }
        ensures state { Answers (after_start name.now attrs.now (state_of self.old)) result (λ _. state_of self.new) }
    {
        if name == "html" {
            return self.add_to_root(alloc, attrs);
        }
        self.close_for(name);
        self.add_element(alloc, name, attrs)
    }

    fn read_end(&mut self, alloc: Global, name: &str) -> Result<(), DomErr>
        requires { IsBuilt self.old }
        ensures built { OnOk result (IsBuilt self.new) }
        ensures state { Answers
            (Ok (record (state_of self.old) {
              opened = without (name_of name.now) (state_of self.old).nodes
                  (state_of self.old).opened;
            }))
            result (λ _. state_of self.new) }
    {
        let Ok(name) = name_of(alloc, name) else {
            return Err(DomErr::NoMemory);
        };
        self.close(name.as_str());
        Ok(())
    }

    /// Closes the innermost open element of a name, where there is one.
    fn close(&mut self, name: &str)
        requires { IsBuilt self.old }
        ensures built { IsBuilt self.new }
        ensures state { state_of self.new ≡ record (state_of self.old) {
          opened =
              without name.now (state_of self.old).nodes (state_of self.old).opened;
        } }
    {
        close_named(&self.dom, &mut self.opened, name);
        self.scopes.truncate(self.opened.len());
    }

    /// Closes an open `head`.
    fn close_head(&mut self)
        requires { IsBuilt self.old }
        ensures built { IsBuilt self.new }
        ensures state { state_of self.new ≡ record (state_of self.old) {
          opened =
              without (codes "head") (state_of self.old).nodes (state_of self.old).opened;
        } }
    {
        if last_scopes(&self.scopes)[HEAD] {
            self.close("head");
        }
    }

    /// Closes what a start tag closes.
    fn close_for(&mut self, name: &str)
        requires { IsBuilt self.old }
        ensures built { IsBuilt self.new }
        ensures state { state_of self.new ≡ record (state_of self.old) {
          opened =
              fold (after_rule name.now (state_of self.old).nodes) (state_of self.old).opened rules;
        } }
    {
        close_rows(&self.dom, &mut self.opened, &mut self.scopes, name);
    }

    /// Whether references are read in the raw text of the current element.
    fn is_in_escapable(&self) -> bool
        requires { IsBuilt self.now }
        ensures { result ≡ is_escapable (current_name (state_of self.now)) }
    {
        match self.opened.last() {
            Some(node) => is_escapable(name_of_element(&self.dom, *node)),
            None => false,
        }
    }

    /// Adds the attributes that node 0 lacks.
    fn add_to_root(&mut self, alloc: Global, attrs: &str) -> Result<(), DomErr>
        requires { IsBuilt self.old }
        ensures built { OnOk result (IsBuilt self.new) }
        ensures state { Answers
            (Ok (record (state_of self.old) {
              nodes = put_all 0 (attributes_of attrs.now)
                  (state_of self.old).nodes;
            })) result
            (λ _. state_of self.new) }
    {
        if put_attributes(&mut self.dom, alloc, NodeId(0), attrs).is_err() {
            return Err(DomErr::NoMemory);
        }
        Ok(())
    }

    /// Adds a text to the text that waits, where that belongs to the current element, and makes it the one that waits
    /// else.
    fn add_text(&mut self, alloc: Global, text: CowStr<'t>) -> Result<(), DomErr>
        requires { IsBuilt self.old }
        ensures built { OnOk result (IsBuilt self.new) }
        ensures state { Answers (add_text (cow_str_bytes text.entry) (state_of self.old)) result
            (λ _. state_of self.new) }
    {
        if text.as_str().is_empty() {
            return Ok(());
        }
        let parent = current(&self.opened);
        if self.is_joined(parent) {
            return self.append(alloc, text.as_str());
        }
        self.begin_text(alloc, parent, text)
    }

    /// Whether the last node is a text child of this element. Such a text waits.
    fn is_joined(&self, parent: NodeId) -> bool
        requires { IsBuilt self.now }
        ensures under { result ≡ is_text_under parent.0 (last_of (state_of self.now).nodes) }
        ensures waits { IsTrue result → 0 < length (cow_str_bytes self.now.text) }
    {
        if self.text.as_str().is_empty() {
            return false;
        }
        self.parent.0 == parent.0
    }

    /// Appends to the text that waits.
    fn append(&mut self, alloc: Global, more: &str) -> Result<(), DomErr>
        requires built { IsBuilt self.old }
        requires waits { 0 < length (cow_str_bytes self.old.text) }
        ensures built { OnOk result (IsBuilt self.new) }
        ensures state { OnOk result (state_of self.new ≡ record (state_of self.old) {
          nodes =
              appended (state_of self.old).nodes more.now;
        }) }
        ensures err { IfErr result (λ e. e ≡ DomErr.NoMemory) }
    {
        if append_to(&mut self.text, alloc, more).is_err() {
            return Err(DomErr::NoMemory);
        }
        Ok(())
    }

    /// Makes a text the one that waits.
    fn begin_text(&mut self, alloc: Global, parent: NodeId, text: CowStr<'t>) -> Result<(), DomErr>
        requires built { IsBuilt self.old }
        requires parent { IsTrue (is_element_at self.old.dom parent.0) }
        requires some { 0 < length (cow_str_bytes text) }
        ensures built { OnOk result (IsBuilt self.new) }
        ensures state { Answers (new_text parent.0 (cow_str_bytes text.entry) (state_of self.old)) result
            (λ _. state_of self.new) }
    {
        if put_text(&mut self.dom, alloc, self.parent, self.text.as_str()).is_err() {
            return Err(DomErr::NoMemory);
        }
        self.text = CowStr::Borrowed("");
        if self.dom.len() >= MOST_NODES {
            return Err(DomErr::Nodes);
        }
        self.parent = parent;
        self.text = text;
        Ok(())
    }

    /// Adds an element under the current one.
    fn add_element(&mut self, alloc: Global, name: &str, attrs: &str) -> Result<(), DomErr>
        requires { IsBuilt self.old }
        ensures built { OnOk result (IsBuilt self.new) }
        ensures state { Answers (add_element name.now attrs.now (state_of self.old)) result (λ _. state_of self.new) }
    {
        if put_text(&mut self.dom, alloc, self.parent, self.text.as_str()).is_err() {
            return Err(DomErr::NoMemory);
        }
        self.text = CowStr::Borrowed("");
        let parent = current(&self.opened);
        let node = match self.dom.add_element(alloc, parent, name) {
            Ok(node) => node,
            Err(e) => return Err(e),
        };
        if put_attributes(&mut self.dom, alloc, node, attrs).is_err() {
            return Err(DomErr::NoMemory);
        }
        if keep_open(&mut self.opened, &mut self.scopes, name, node).is_err() {
            return Err(DomErr::NoMemory);
        }
        Ok(())
    }
}

/// Opens an element that isn't void.
fn keep_open(
    opened: &mut Vec<NodeId>,
    scopes: &mut Vec<[bool; ROWS]>,
    name: &str,
    node: NodeId,
) -> Result<(), NoMem>
    ensures opened { OnOk result (opened.new.items ≡ opened_after name.now node.0 opened.old.items) }
    ensures scopes { (nodes : List Node) → HaveScopes nodes opened.old.items scopes.old.items →
        name_in nodes (Some node) ≡ name.now →
        OnOk result (HaveScopes nodes opened.new.items scopes.new.items) }
{
    if is_void(name) {
        return Ok(());
    }
    let inner = scopes_within(last_scopes(scopes), name);
    if scopes.push(inner).is_err() {
        return Err(NoMem);
    }
    if opened.push(node).is_err() {
        return Err(NoMem);
    }
    Ok(())
}

fn is_blank(bytes: &[u8]) -> bool
    ensures { result ≡ is_blank bytes.now }
{
    bytes.iter().all(|b| b.is_ascii_whitespace())
}

fn is_escapable(name: &str) -> bool
    ensures { result ≡ is_escapable name.now }
{
    name == "title" || name == "textarea"
}

/// The tree of an HTML text. Want of memory aside it answers Nodes or Depth exactly where the first token that adds too
/// many nodes, or too deep an element, does.
#[tactic(auto, unfolding(crate::specs::Tree::tree_of))]
pub fn read_html(alloc: Global, text: &str) -> Result<Dom, DomErr>
    ensures tree { Answers (tree_of text.now) result (λ dom. dom) }
    ensures order { IfOk result (λ dom. AreInOrder dom) }
{
    let mut builder = match Builder::new(alloc) {
        Ok(builder) => builder,
        Err(e) => return Err(e),
    };
    let mut tokens = Tokens::new(text);
    while let Some(token) = tokens.next() {
        if let Err(e) = builder.read(alloc, token) {
            return Err(e);
        }
    }
    builder.finish(alloc)
}
