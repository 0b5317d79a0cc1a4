//! Values by letters, as a tree: each letter leads to the node of the letters that go on with it.

ghost use Rattle.std.specs.Prelude.{◌≡◌, ℕ, ◌+◌, ◌-◌, ◌≤◌, ◌<◌, Bool, false, List, [], ◌∷◌, length, max, nat_le, OnOk, MatchOption, slice_index, if◌then◌else◌, ◌==◌, ◌&&◌};
ghost use Rattle.std.specs.Bool.{beq};
ghost use Rattle.std.specs.Str.{bytes_eq};
ghost use Rattle.hyphen.specs.Tree.{node_values, values_in};
ghost use Rattle.hyphen.specs.Pattern.{most};
ghost use Rattle.hyphen.specs.Pieces.{branch_from};

use crate::raise::{raise, raise_all};
use bk_num::name::NoMem;
use std::alloc::Global;
use std::collections::BTreeMap;

/// What stands at some letters: the values of patterns that stand anywhere, those of patterns that
/// stand only at a word's end, and the nodes that further letters lead to.
#[derive(Drop)]
pub(crate) struct Node {
    anywhere: Vec<u8>,
    at_end: Vec<u8>,
    next: BTreeMap<char, Box<Node>>,
}

impl Node {
    /// A node without values.
    pub(crate) fn new(alloc: Global) -> Node
        ensures { (e : Bool) (q : List ℕ) (k : ℕ) → values_in result e q k ≡ 0 }
    {
        Node {
            anywhere: Vec::new(alloc),
            at_end: Vec::new(alloc),
            next: BTreeMap::new(alloc),
        }
    }

    /// The node that a letter leads to.
    fn child(&self, letter: char) -> Option<&Node>
        ensures { MatchOption result
            ((e : Bool) (q : List ℕ) (k : ℕ) → values_in self.now e (letter ∷ q) k ≡ 0)
            (λ node. (e : Bool) (q : List ℕ) (k : ℕ) →
            values_in node.now e q k ≡ values_in self.now e (letter ∷ q) k) }
    {
        match self.next.get(&letter) {
            Some(node) => Some(node),
            None => None,
        }
    }

    /// Raises the values from a place on by those of the node, also by those of a word's end where the
    /// word ends here.
    fn raise(&self, values: &mut Vec<u8>, from: usize, ends: bool)
        requires { from ≤ length values.old.items }
        ensures len { length values.new.items ≡ length values.old.items }
        ensures greater { (q : ℕ) → q < length values.old.items → slice_index values.new.items q ≡
            max (slice_index values.old.items q) (if nat_le from q then node_values self.now ends (q - from) else 0) }
    {
        raise(values, from, &self.anywhere);
        if ends {
            raise(values, from, &self.at_end);
        }
    }

    /// Puts values at the node itself: of two the greater stays.
    fn put_own(&mut self, ends: bool, values: Vec<u8>)
        ensures { (e : Bool) (q : List ℕ) (k : ℕ) → values_in self.new e q k ≡
            (if beq ends e && bytes_eq [] q then max (values_in self.old e q k) (slice_index values.items k)
            else values_in self.old e q k) }
    {
        if ends {
            raise_all(&mut self.at_end, values);
        } else {
            raise_all(&mut self.anywhere, values);
        }
    }

    /// Lets a letter lead to a node.
    fn give(&mut self, alloc: Global, letter: char, node: Node) -> Result<(), NoMem>
        ensures own { OnOk result ((e : Bool) (k : ℕ) → values_in self.new e [] k ≡ values_in self.old e [] k) }
        ensures others { OnOk result ((d : ℕ) (e : Bool) (q : List ℕ) (k : ℕ) → (letter == d) ≡ false →
            values_in self.new e (d ∷ q) k ≡ values_in self.old e (d ∷ q) k) }
        ensures node { OnOk result ((e : Bool) (q : List ℕ) (k : ℕ) →
            values_in self.new e (letter ∷ q) k ≡ values_in node e q k) }
    {
        self.next.insert(letter, Box::new(alloc, node)?)?;
        Ok(())
    }

    /// Puts values at letters: of two the greater stays.
    pub(crate) fn put(
        &mut self,
        alloc: Global,
        letters: &[char],
        ends: bool,
        values: Vec<u8>,
    ) -> Result<(), NoMem>
        ensures { OnOk result ((e : Bool) (q : List ℕ) (k : ℕ) → values_in self.new e q k ≡
            (if beq ends e && bytes_eq letters.now q then max (values_in self.old e q k) (slice_index values.items k)
            else values_in self.old e q k)) }
    {
        match letters.split_first() {
            None => {
                self.put_own(ends, values);
                Ok(())
            }
            Some((letter, rest)) => match self.next.get_mut(letter) {
                Some(node) => node.put(alloc, rest, ends, values),
                None => {
                    let mut node = Node::new(alloc);
                    node.put(alloc, rest, ends, values)?;
                    self.give(alloc, *letter, node)
                }
            },
        }
    }

    /// Raises the values from a place of a word on by those of all letters that begin there.
    pub(crate) fn raise_from(&self, values: &mut Vec<u8>, word: &[char], at: usize)
        requires len { length values.old.items ≡ length word.now + 1 }
        requires place { at ≤ length word.now }
        ensures len { length values.new.items ≡ length values.old.items }
        ensures greater { (q : ℕ) → q < length values.old.items → slice_index values.new.items q ≡
            max (slice_index values.old.items q)
            (most (length word.now - at) (branch_from (values_in self.now) word.now q at)) }
    {
        let mut node = self;
        for end in at..word.len() {
            match node.child(word[end]) {
                None => return,
                Some(child) => {
                    child.raise(values, at, end + 1 == word.len());
                    node = child;
                }
            }
        }
    }
}
