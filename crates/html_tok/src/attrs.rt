//! The attributes of a tag, and its end.
ghost use Rattle.std.specs.Prelude.{◌≡◌, ◌<◌, List, [], ◌∷◌, length, IfSome, IfNone};
ghost use Rattle.std.specs.Prelude.{◌==◌, slice_index};
ghost use Rattle.std.specs.List.{before_first, after_first};
ghost use Rattle.html_tok.specs.Tags.{ends_attributes, value_at, value_after, name_at, attribute_at, after_attribute, tag_end, attributes_of};

use crate::classes::{Stop, skip_to, split_before};
use bk_num::chars::is_quote;
use memchr::memchr;
use std::marker::Model;

/// The attributes of a start tag, in their order. Contracts see those that are left, each a name and a value as they
/// stand in the text.
#[derive(Drop)]
pub struct Attrs<'a> {
    rest: &'a str,
}

impl<'a> Model for Attrs<'a> {
    ghost use Rattle.std.specs.Prelude.{ℕ, List};

    ghost Value = { List (List ℕ × List ℕ) };

    ghost use Rattle.html_tok.specs.Fields.{attributes_left};

    ghost view = { attributes_left };
}

impl<'a> Attrs<'a> {
    /// The attributes of what follows a tag's name, up to the `>` of the tag or the end.
    pub fn new(attrs: &'a str) -> Attrs<'a>
        ensures { result ≡ attributes_of attrs.entry.now }
    {
        Attrs { rest: attrs }
    }

    /// The name and the value of the next attribute, and None exactly where none is left.
    pub fn next(&mut self) -> Option<(&'a str, &'a str)>
        ensures some { IfSome result (λ a. self.old ≡ (a.0.now, a.1.now) ∷ self.new) }
        ensures none { IfNone result ((self.old ≡ []) × (self.new ≡ [])) }
    {
        let rest = skip_to(self.rest, Stop::NotBetween);
        if is_at_end(rest) {
            return None;
        }
        let attribute = attribute(rest);
        self.rest = attribute.rest;
        Some((attribute.name, attribute.value))
    }
}

/// Whether no attribute begins here.
fn is_at_end(rest: &str) -> bool
    ensures { result ≡ ends_attributes rest.now }
{
    match rest.as_bytes().first() {
        Some(b) => *b == b'>',
        None => true,
    }
}

/// An attribute, and the text after it.
#[derive(Clone, Copy)]
struct Found<'a> {
    name: &'a str,
    value: &'a str,
    rest: &'a str,
}

/// The attribute that begins here.
fn attribute<'a>(text: &'a str) -> Found<'a>
    requires { 0 < length text.now }
    ensures name { result.name.now ≡ (attribute_at text.entry.now).0 }
    ensures value { result.value.now ≡ (attribute_at text.entry.now).1 }
    ensures rest { result.rest.now ≡ after_attribute text.entry.now }
{
    let (name, after) = split_name(text);
    let (value, rest) = split_value(after);
    Found { name, value, rest }
}

/// The attribute's name that begins here, and what follows it.
#[tactic(auto, unfolding(crate::specs::Tags::name_at))]
fn split_name<'a>(text: &'a str) -> (&'a str, &'a str)
    requires { 0 < length text.now }
    ensures name { result.0.now ≡ (name_at text.entry.now).text }
    ensures rest { result.1.now ≡ (name_at text.entry.now).rest }
{
    text.split_at(1 + Stop::AttributeName.place(&text.as_bytes()[1..]))
}

/// The value after an attribute's name, and what follows it.
#[tactic(auto, unfolding(crate::specs::Tags::value_after))]
fn split_value<'a>(text: &'a str) -> (&'a str, &'a str)
    ensures value { result.0.now ≡ (value_after text.entry.now).text }
    ensures rest { result.1.now ≡ (value_after text.entry.now).rest }
{
    let rest = skip_to(text, Stop::NotSpace);
    if first_byte(rest) != b'=' {
        return ("", text);
    }
    split_begun(skip_to(&rest[1..], Stop::NotSpace))
}

/// The value that begins here, and what follows it.
#[tactic(auto, unfolding(crate::specs::Tags::value_at))]
fn split_begun<'a>(text: &'a str) -> (&'a str, &'a str)
    ensures value { result.0.now ≡ (value_at text.entry.now).text }
    ensures rest { result.1.now ≡ (value_at text.entry.now).rest }
{
    let quote = first_byte(text);
    if !is_quote(quote) {
        return split_before(text, Stop::Value);
    }
    split_quoted(&text[1..], quote)
}

/// The first byte, and 0 in an empty text.
fn first_byte(text: &str) -> u8
    ensures { result ≡ slice_index text.now 0 }
{
    match text.as_bytes().first() {
        Some(b) => *b,
        None => 0,
    }
}

/// The text before the quote, and the text after it.
fn split_quoted<'a>(text: &'a str, quote: u8) -> (&'a str, &'a str)
    requires { quote < 128 }
    ensures front { result.0.now ≡ before_first (λ b. b == quote) text.entry.now }
    ensures back { result.1.now ≡ after_first (λ b. b == quote) text.entry.now }
{
    match memchr(quote, text.as_bytes()) {
        Some(at) => (&text[..at], &text[at + 1..]),
        None => (text, ""),
    }
}

/// How many bytes stand before the `>` that ends the tag whose name these follow.
pub(crate) fn end_of_tag(text: &str) -> Option<usize>
    ensures { result ≡ tag_end text.now }
{
    let mut rest = skip_to(text, Stop::NotBetween);
    while !is_at_end(rest) {
        rest = skip_to(attribute(rest).rest, Stop::NotBetween);
    }
    if rest.is_empty() {
        return None;
    }
    Some(text.len() - rest.len())
}
