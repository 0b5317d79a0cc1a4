//! Whether an element fits a compound.

ghost use Rattle.std.specs.Prelude.{◌≡◌, ◌<◌, ◌+◌, ◌^◌, ◌&&◌, unsigned_abs, true, false, not, length, option_map, is_some, drop, int_lt};
ghost use Rattle.std.specs.Prelude.{if◌then◌else◌, pos, ◌-ℤ◌, ◌==◌, codes};
ghost use Rattle.std.specs.List.{list_any, list_all, starts_with};
ghost use Rattle.css_tok.specs.Lengths.{is_blank};
ghost use Rattle.dom.specs.Nodes.{name_at, attribute_at};
ghost use Rattle.selectors.specs.Fits as spec;
ghost use Rattle.selectors.specs.Walk.{name_is};

use crate::document::TypedDocument;
use crate::types::{AttrTest, Compound, Plain, Test};
use crate::walk::{has_content, is_element, parent};
use bk_num::chars::byte;
use bk_num::ids::NodeId;
use bk_num::name::Name;
use css_tok::lengths::is_blank;
use dom::Dom;
use memchr::memmem;

fn has_blank(value: &[u8]) -> bool
    ensures { result ≡ list_any is_blank value.now }
{
    value.iter().any(|b| is_blank(*b))
}

#[tactic(auto, unfolding(crate::specs::Fits::begins_word))]
fn begins_word(word: &[u8], text: &[u8]) -> bool
    ensures { result ≡ spec.begins_word word.now text.now }
{
    text.starts_with(word) && (word.len() == text.len() || is_blank(byte(text, word.len())))
}

fn starts_word(start: bool, word: &[u8], text: &[u8], at: usize) -> bool
    requires { at < length text.now }
    ensures { result ≡ (start && spec.begins_word word.now (drop at text.now)) }
{
    start && begins_word(word, &text[at..])
}

#[tactic(auto, using(crate::proofs::TextLemmas::word_step, crate::proofs::TextLemmas::word_end))]
fn has_word_in(word: &[u8], text: &[u8]) -> bool
    ensures { result ≡ spec.has_word_from true word.now text.now }
{
    let mut start = true;
    for at in 0..text.len() {
        if starts_word(start, word, text, at) {
            return true;
        }
        start = is_blank(text[at]);
    }
    false
}

#[tactic(auto, unfolding(crate::specs::Fits::has_word))]
fn has_word(word: &[u8], text: &[u8]) -> bool
    ensures { result ≡ spec.has_word word.now text.now }
{
    !word.is_empty() && !has_blank(word) && has_word_in(word, text)
}

fn occurs(part: &[u8], text: &[u8]) -> bool
    requires { 0 < length part.now }
    ensures { result ≡ spec.occurs part.now text.now }
{
    memmem::find(text, part).is_some()
}

fn passes(test: AttrTest, wanted: &[u8], value: &[u8]) -> bool
    ensures { result ≡ spec.passes test wanted.now value.now }
{
    match test {
        AttrTest::Has => true,
        AttrTest::Equals => value == wanted,
        AttrTest::Word => has_word(wanted, value),
        AttrTest::Dash => {
            value.starts_with(wanted)
                && (wanted.len() == value.len() || byte(value, wanted.len()) == b'-')
        }
        AttrTest::Starts => !wanted.is_empty() && value.starts_with(wanted),
        AttrTest::Ends => !wanted.is_empty() && value.ends_with(wanted),
        AttrTest::Holds => !wanted.is_empty() && occurs(wanted, value),
    }
}

fn attribute_passes(dom: &Dom, node: NodeId, key: &str, test: AttrTest, wanted: &str) -> bool
    requires { node.0 < length dom.now }
    ensures { result ≡ spec.value_passes test wanted.now (attribute_at dom.now node.0 key.now) }
{
    match dom.attr(node, key) {
        Some(value) => passes(test, wanted.as_bytes(), value.as_bytes()),
        None => false,
    }
}

fn same_sign(rest: i128, a: i128) -> bool
    ensures { result ≡ (if int_lt rest (pos 0) then int_lt a (pos 0) else not (int_lt a (pos 0))) }
{
    if rest < 0 { a < 0 } else { !(a < 0) }
}

fn is_place(a: i128, rest: i128) -> bool
    requires { unsigned_abs rest < 2 ^ 100 }
    ensures { result ≡ spec.is_place a rest }
{
    if a == 0 || rest == 0 {
        return rest == 0;
    }
    rest.rem_euclid(a) == 0 && same_sign(rest, a)
}

fn wide(a: i64) -> i128
    ensures { result ≡ a }
{
    a as i128
}

fn rest(place: u64, b: i64) -> i128
    ensures value { result ≡ pos place -ℤ b }
    ensures small { unsigned_abs result < 2 ^ 100 }
{
    place as i128 - b as i128
}

#[tactic(auto, unfolding(crate::specs::Fits::nth_is))]
fn nth_is(a: i64, b: i64, place: u64) -> bool
    ensures { result ≡ spec.nth_is a b place }
{
    is_place(wide(a), rest(place, b))
}

fn is_last(dom: &Dom, node: NodeId) -> bool
    requires { node.0 < length dom.now }
    ensures { result ≡ spec.is_last dom.now node.0 }
{
    match parent(dom, node) {
        None => true,
        Some(parent) => {
            let before = dom.elements_before(node) as u64;
            before + 1 == dom.element_count(parent) as u64
        }
    }
}

fn has_type(wanted: Option<&str>, name: Option<&str>) -> bool
    ensures { result ≡ spec.has_type (option_map (λ s. s.now) wanted.entry) (option_map (λ s. s.now) name.entry) }
{
    match (wanted, name) {
        (None, _) => true,
        (Some(wanted), Some(name)) => wanted == name,
        (Some(_), None) => false,
    }
}

fn is_link(dom: &Dom, node: NodeId) -> bool
    requires { node.0 < length dom.now }
    ensures { result ≡ (name_is (Some (codes "a")) (name_at dom.now node.0) &&
        is_some (attribute_at dom.now node.0 (codes "href"))) }
{
    has_type(Some("a"), dom.name(node)) && dom.attr(node, "href").is_some()
}

#[tactic(auto, unfolding(crate::specs::Fits::passes_test))]
fn passes_test(document: &TypedDocument<'_>, node: NodeId, test: &Test) -> bool
    requires { node.0 < length document.now }
    ensures { result ≡ spec.passes_test document.now node.0 test.now }
{
    let dom = document.dom();
    match test {
        Test::Id(id) => attribute_passes(dom, node, "id", AttrTest::Equals, id.as_str()),
        Test::Class(class) => {
            attribute_passes(dom, node, "class", AttrTest::Word, class.as_str())
        }
        Test::Attr(key, test, value) => {
            attribute_passes(dom, node, key.as_str(), *test, value.as_str())
        }
        Test::Nth(a, b) => is_nth(dom, node, *a, *b),
        Test::Root => dom.parent(node).is_none(),
        Test::FirstChild => dom.elements_before(node) == 0,
        Test::LastChild => is_last(dom, node),
        Test::OnlyChild => dom.elements_before(node) == 0 && is_last(dom, node),
        Test::FirstOfType => document.is_first_of_type(node),
        Test::LastOfType => document.is_last_of_type(node),
        Test::Empty => !has_content(dom, node),
        Test::Link => is_link(dom, node),
    }
}

fn is_nth(dom: &Dom, node: NodeId, a: i64, b: i64) -> bool
    requires { node.0 < length dom.now }
    ensures { result ≡ spec.nth_is a b (spec.place dom.now node.0) }
{
    nth_is(a, b, dom.elements_before(node) as u64 + 1)
}

fn has_name(dom: &Dom, node: NodeId, name: &Option<Name>) -> bool
    requires { node.0 < length dom.now }
    ensures { result ≡ spec.has_type name.now (name_at dom.now node.0) }
{
    match name {
        None => true,
        Some(name) => has_type(Some(name.as_str()), dom.name(node)),
    }
}

fn passes_all(document: &TypedDocument<'_>, node: NodeId, tests: &[Test]) -> bool
    requires { node.0 < length document.now }
    ensures { result ≡ list_all (spec.passes_test document.now node.0) tests.now }
{
    tests.iter().all(|test| passes_test(document, node, test))
}

fn fits_any(document: &TypedDocument<'_>, node: NodeId, plains: &[Plain]) -> bool
    requires { node.0 < length document.now }
    ensures { result ≡ list_any (spec.fits_plain document.now node.0) plains.now }
{
    plains.iter().any(|plain| fits_plain(document, node, plain))
}

#[tactic(auto, unfolding(crate::specs::Fits::fits_plain))]
fn fits_plain(document: &TypedDocument<'_>, node: NodeId, plain: &Plain) -> bool
    requires { node.0 < length document.now }
    ensures { result ≡ spec.fits_plain document.now node.0 plain.now }
{
    has_name(document.dom(), node, &plain.name)
        && passes_all(document, node, plain.tests.as_slice())
}

/// Whether an element fits what a compound asks for, and nothing that it excludes.
#[tactic(auto, unfolding(crate::specs::Fits::fits_compound))]
pub(crate) fn fits_compound(document: &TypedDocument<'_>, node: NodeId, compound: &Compound) -> bool
    requires { node.0 < length document.now }
    ensures { result ≡ spec.fits_compound document.now node.0 compound.now }
{
    is_element(document.dom(), node)
        && fits_plain(document, node, &compound.plain)
        && !fits_any(document, node, compound.nots.as_slice())
}
