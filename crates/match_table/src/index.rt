//! An index of nodes by their ids, classes and types.

ghost use Rattle.std.specs.Prelude.{◌≡◌, ◌<◌, [], Some, get_or, length, map, option_map, position, ℕ, IfOk, IfSome, OnOk};
ghost use Rattle.std.specs.List.{Contains};
ghost use Rattle.std.specs.Str.{bytes_eq};
ghost use Rattle.css_tok.specs.Words.{words_of};
ghost use Rattle.match_table.specs.Index as spec;

use bk_num::ids::NodeId;
use bk_num::items::Items;
use bk_num::name::NoMem;
use css_tok::lengths::is_blank;
use dom::Dom;
use indexmap::IndexSet;
use selectors::types::{Compound, Selector, Test};
use std::alloc::{AllocError, Global};
use std::marker::Model;

/// The words that selectors look for, none twice. Contracts see the list.
#[derive(Drop)]
pub(crate) struct Words<'s> {
    set: IndexSet<&'s [u8]>,
}

impl<'s> Model for Words<'s> {
    ghost use Rattle.std.specs.Prelude.{List, ℕ, map};

    ghost Value = { List (List ℕ) };

    ghost view = { λ w. map (λ k. k.now) w.set.keys };
}

impl<'s> Words<'s> {
    fn new(alloc: Global) -> Words<'s>
        ensures { result ≡ [] }
    {
        Words {
            set: IndexSet::new(alloc),
        }
    }

    /// Adds a word, unless it is there.
    fn add(&mut self, word: &'s [u8]) -> Result<(), NoMem>
        ensures added { OnOk result (Contains self.new word.entry.now) }
        ensures keeps { OnOk result (spec.KeepsWords self.old self.new) }
    {
        self.set.insert(word)?;
        Ok(())
    }

    fn len(&self) -> usize
        ensures { result ≡ length self.now }
    {
        self.set.len()
    }

    /// The number of a word, if some selector looks for it.
    fn number(&self, word: &[u8]) -> Option<usize>
        ensures value { result ≡ position (bytes_eq word.now) self.now }
        ensures within { IfSome result (λ i. i < length self.now) }
    {
        self.set.get_index_of(word)
    }
}

/// A word that each node has which passes a test, if the test asks for an id or a class.
fn word_of(test: &Test) -> Option<&[u8]>
    ensures { option_map (λ w. w.now) result ≡ spec.word_of test.now }
{
    match test {
        Test::Id(id) => Some(id.as_str().as_bytes()),
        Test::Class(class) => Some(class.as_str().as_bytes()),
        _ => None,
    }
}

/// Adds a word, if there is one.
fn add_some<'s>(words: &mut Words<'s>, word: Option<&'s [u8]>) -> Result<(), NoMem>
    ensures added { OnOk result (spec.HasWord words.new (option_map (λ w. w.now) word.entry)) }
    ensures keeps { OnOk result (spec.KeepsWords words.old words.new) }
{
    match word {
        Some(word) => words.add(word),
        None => Ok(()),
    }
}

/// Adds the ids and classes that some tests ask for.
fn add_tests<'s>(words: &mut Words<'s>, tests: &'s [Test]) -> Result<(), NoMem>
    ensures added { OnOk result (spec.HaveWords words.new tests.entry.now) }
    ensures keeps { OnOk result (spec.KeepsWords words.old words.new) }
{
    for test in tests {
        add_some(words, word_of(test))?;
    }
    Ok(())
}

/// The type that a compound asks for.
fn type_of(compound: &Compound) -> Option<&[u8]>
    ensures { option_map (λ w. w.now) result ≡ compound.now.plain.name }
{
    match &compound.plain.name {
        Some(name) => Some(name.as_str().as_bytes()),
        None => None,
    }
}

/// Adds the words that each node has which fits a compound: the ids, classes and type that it asks for.
fn add_words<'s>(words: &mut Words<'s>, compound: &'s Compound) -> Result<(), NoMem>
    ensures added { OnOk result (spec.HasKeys words.new (Some compound.entry.now)) }
    ensures keeps { OnOk result (spec.KeepsWords words.old words.new) }
{
    add_tests(words, compound.plain.tests.as_slice())?;
    add_some(words, type_of(compound))?;
    Ok(())
}

/// Adds the words that each node has which a selector matches: those that its last compound asks for.
fn add_keys<'s>(words: &mut Words<'s>, selector: &'s Selector) -> Result<(), NoMem>
    ensures added { OnOk result (spec.HasKeys words.new (spec.last_part selector.entry.now)) }
    ensures keeps { OnOk result (spec.KeepsWords words.old words.new) }
{
    match last_compound(selector) {
        Some(compound) => add_words(words, compound),
        None => Ok(()),
    }
}

/// The words that selectors look for: the ids, classes and types that their last compounds ask for.
pub(crate) fn words_of_keys<'s>(
    alloc: Global,
    selectors: &'s [&'s Selector],
) -> Result<Words<'s>, NoMem>
    ensures { IfOk result (λ v. spec.HaveKeys v (map (λ s. s.now) selectors.entry.now)) }
{
    let mut words = Words::new(alloc);
    for selector in selectors {
        add_keys(&mut words, selector)?;
    }
    Ok(words)
}

/// The number of the id or class that a test asks for, if it asks for one.
fn number_of_test(test: &Test, words: &Words<'_>) -> Option<usize>
    ensures value { result ≡ spec.number_of words.now (spec.word_of test.now) }
    ensures within { IfSome result (λ i. i < length words.now) }
{
    match word_of(test) {
        Some(word) => words.number(word),
        None => None,
    }
}

/// The number of the type that a compound asks for, if it asks for one.
fn number_of_type(compound: &Compound, words: &Words<'_>) -> Option<usize>
    ensures value { result ≡ spec.number_of words.now compound.now.plain.name }
    ensures within { IfSome result (λ i. i < length words.now) }
{
    match type_of(compound) {
        Some(name) => words.number(name),
        None => None,
    }
}

/// The one of two words that fewer nodes have.
fn rarer(lists: &[Items<u32>], a: Option<usize>, b: Option<usize>) -> Option<usize>
    requires a { IfSome a (λ i. i < length lists.now) }
    requires b { IfSome b (λ i. i < length lists.now) }
    ensures { result ≡ spec.rarer lists.now a b }
{
    match (a, b) {
        (Some(i), Some(k)) => {
            if lists[k].as_slice().len() < lists[i].as_slice().len() {
                b
            } else {
                a
            }
        }
        (Some(_), None) => a,
        (None, _) => b,
    }
}

/// The number of the rarest id or class that some tests ask for, and none exactly where they ask for none.
fn rarest(tests: &[Test], words: &Words<'_>, lists: &[Items<u32>]) -> Option<usize>
    requires { length lists.now ≡ length words.now }
    ensures key { spec.IsRarest lists.now (spec.IsNumberIn tests.now words.now) result }
    ensures within { IfSome result (λ i. i < length words.now) }
{
    let mut best = None;
    for test in tests {
        best = rarer(lists, best, number_of_test(test, words));
    }
    best
}

/// The number of the rarest word that each node has which fits a compound: an id, a class or a type that it asks for.
/// None exactly where it asks for none that is looked for.
fn number_for(compound: &Compound, words: &Words<'_>, lists: &[Items<u32>]) -> Option<usize>
    requires { length lists.now ≡ length words.now }
    ensures key { spec.IsRarest lists.now (spec.IsNumberFor compound.now words.now) result }
    ensures within { IfSome result (λ i. i < length words.now) }
{
    let tests = compound.plain.tests.as_slice();
    let of_tests = rarest(tests, words, lists);
    rarer(lists, of_tests, number_of_type(compound, words))
}

/// The last compound of a selector.
fn last_compound(selector: &Selector) -> Option<&Compound>
    ensures { option_map (λ c. c.now) result ≡ spec.last_part selector.now }
{
    selector.parts().last()
}

/// The number of the rarest word that each node has which a selector matches: an id, a class or a type that its last
/// compound asks for. None exactly where it asks for none that is looked for.
pub(crate) fn number_of_key(
    selector: &Selector,
    words: &Words<'_>,
    lists: &[Items<u32>],
) -> Option<usize>
    requires { length lists.now ≡ length words.now }
    ensures key { spec.IsRarest lists.now (spec.IsKeyNumber selector.now words.now) result }
    ensures within { IfSome result (λ i. i < length words.now) }
{
    match last_compound(selector) {
        Some(compound) => number_for(compound, words, lists),
        None => None,
    }
}

/// The words of an attribute, and none where there is no such attribute.
fn words_in<'t>(alloc: Global, text: Option<&'t str>) -> Result<Vec<&'t [u8]>, NoMem>
    ensures { IfOk result (λ v. map (λ w. w.now) v.items ≡ spec.words_in (option_map (λ t. t.now) text.entry)) }
{
    match text {
        None => Ok(Vec::new(alloc)),
        Some(text) => Ok(split_words(alloc, text.as_bytes())?),
    }
}

/// The words of a text, separated by white space.
#[tactic(auto, unfolding(css_tok::specs::Words::words_of))]
fn split_words<'t>(alloc: Global, text: &'t [u8]) -> Result<Vec<&'t [u8]>, AllocError>
    ensures { IfOk result (λ v. map (λ w. w.now) v.items ≡ words_of text.entry.now) }
{
    text.split(|b| is_blank(*b))
        .filter(|w| !w.is_empty())
        .collect(alloc)
}

/// The words that a node can be found by.
#[tactic(auto, unfolding(crate::specs::Index::words_at))]
fn words_at<'d>(alloc: Global, dom: &'d Dom, node: NodeId) -> Result<Vec<&'d [u8]>, NoMem>
    requires { node.0 < length dom.now }
    ensures { IfOk result (λ v. map (λ w. w.now) v.items ≡ spec.words_at dom.entry.now node.0) }
{
    let mut words = words_in(alloc, dom.attr(node, "class"))?;
    if let Some(name) = dom.name(node) {
        words.push(name.as_bytes())?;
    }
    if let Some(id) = dom.attr(node, "id") {
        words.push(id.as_bytes())?;
    }
    Ok(words)
}

/// Puts a node into the list of a word.
fn put(lists: &mut Vec<Items<u32>>, place: usize, node: u32) -> Result<(), NoMem>
    requires { place < length lists.old.items }
    ensures noted { OnOk result (Contains (get_or lists.new.items place []) node) }
    ensures keeps { OnOk result (spec.Keeps lists.old.items lists.new.items) }
    ensures count { length lists.new.items ≡ length lists.old.items }
{
    lists[place].push(node)
}

/// Puts a node into the list of a word, if selectors look for it.
fn note_word(
    lists: &mut Vec<Items<u32>>,
    words: &Words<'_>,
    word: &[u8],
    node: u32,
) -> Result<(), NoMem>
    requires { length lists.old.items ≡ length words.now }
    ensures noted { OnOk result (spec.IsWordNoted words.now lists.new.items word.now node) }
    ensures keeps { OnOk result (spec.Keeps lists.old.items lists.new.items) }
    ensures count { length lists.new.items ≡ length lists.old.items }
{
    match words.number(word) {
        Some(place) => put(lists, place, node),
        None => Ok(()),
    }
}

/// Puts a node into the lists of its words that selectors look for.
fn note(
    lists: &mut Vec<Items<u32>>,
    words: &Words<'_>,
    found: &[&[u8]],
    node: u32,
) -> Result<(), NoMem>
    requires { length lists.old.items ≡ length words.now }
    ensures noted { OnOk result (spec.IsNoted words.now lists.new.items (map (λ w. w.now) found.now) node) }
    ensures keeps { OnOk result (spec.Keeps lists.old.items lists.new.items) }
    ensures count { length lists.new.items ≡ length lists.old.items }
{
    for word in found {
        note_word(lists, words, word, node)?;
    }
    Ok(())
}

/// An empty list for each of so many places.
pub(crate) fn empty_lists(alloc: Global, count: usize) -> Result<Vec<Items<u32>>, NoMem>
    ensures count { IfOk result (λ v. length v.items ≡ count) }
    ensures empty { IfOk result (λ v. (i : ℕ) → get_or v.items i [] ≡ []) }
{
    let mut lists = Vec::new(alloc);
    for turn in 0..count {
        lists.push(Items::new(alloc))?;
    }
    Ok(lists)
}

/// For each word that selectors look for the nodes that have it, in ascending order.
pub(crate) fn nodes_by_word(
    alloc: Global,
    dom: &Dom,
    words: &Words<'_>,
) -> Result<Vec<Items<u32>>, NoMem>
    ensures count { IfOk result (λ v. length v.items ≡ length words.now) }
    ensures noted { IfOk result (λ v. spec.AreNoted dom.now words.now v.items (length dom.now)) }
{
    let mut lists = empty_lists(alloc, words.len())?;
    for node in 0..dom.len() {
        let found = words_at(alloc, dom, NodeId(node))?;
        note(&mut lists, words, &found, node)?;
    }
    Ok(lists)
}
