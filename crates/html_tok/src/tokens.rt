//! The tokens of a text.
ghost use Rattle.std.specs.Prelude.{◌≡◌, ◌+◌, ◌<◌, List, [], ◌∷◌, length, IfSome, IfNone};
ghost use Rattle.std.specs.List.{flat_map};
ghost use Rattle.std.specs.Str.{IsCharBoundary};
ghost use Rattle.std.specs.Prelude.{IsTrue, slice_index, codes, ◌-◌};
ghost use Rattle.html_tok.specs.Pieces.{is_start, is_end, raw_after, start_at, close_at, piece_of, opening_of, piece_at, len_through};
ghost use Rattle.html_tok.specs.Fields.{awaited_in};
ghost use Rattle.html_tok.specs.Listed.{tokens_of, kind_of, view_of, ArePlaced};

use crate::attrs::end_of_tag;
use crate::classes::{Stop, split_before};
use crate::raw::raw_element;
use crate::scan::{
    Opening, Until, length_of_text, length_through, length_through_comment, what_begins,
};
use std::marker::Model;

/// A token of a text, which it borrows from.
#[derive(Clone, Copy)]
pub struct Token<'a> {
    /// The place of its first byte in the text.
    pub at: usize,
    /// Its bytes.
    pub slice: &'a str,
    pub kind: TokenKind<'a>,
}

/// What a token is.
#[derive(Clone, Copy)]
pub enum TokenKind<'a> {
    /// Text, with its references as they stand.
    Text,
    /// The text of a `script`, `style`, `title` or `textarea` element.
    Raw,
    /// A start tag. `attrs` is all between its name and its `>`.
    Start { name: &'a str, attrs: &'a str },
    /// An end tag.
    End { name: &'a str },
    /// A comment, a declaration, or what begins as markup and doesn't end.
    Skip,
}

/// The tokens of a text. Contracts see the list of those that are left.
#[derive(Drop)]
pub struct Tokens<'a> {
    at: usize,
    rest: &'a str,
    raw: Option<&'static str>,
}

impl<'a> Model for Tokens<'a> {
    ghost use Rattle.std.specs.Prelude.{List};
    ghost use Rattle.html_tok.specs.Listed.{TokenView};

    ghost Value = { List TokenView };

    ghost use Rattle.html_tok.specs.Fields.{tokens_left, Fits};

    ghost view = { tokens_left };

    ghost invariant = { Fits };
}

impl<'a> Tokens<'a> {
    /// The tokens of this text. Joined they are the text, and each stands at its place.
    pub fn new(text: &'a str) -> Tokens<'a>
        ensures tokens { result ≡ tokens_of text.entry.now }
        ensures joined { flat_map (λ t. t.slice) result ≡ text.entry.now }
        ensures placed { ArePlaced 0 result }
    {
        Tokens {
            at: 0,
            rest: text,
            raw: None,
        }
    }

    /// The next token, and None exactly at the end.
    pub fn next(&mut self) -> Option<Token<'a>>
        ensures some { IfSome result (λ t. self.old ≡ view_of t ∷ self.new) }
        ensures none { IfNone result ((self.old ≡ []) × (self.new ≡ [])) }
    {
        if self.rest.is_empty() {
            return None;
        }
        let (kind, len) = piece(self.rest, self.raw);
        let (slice, rest) = self.rest.split_at(len);
        let at = self.at;
        self.at = at + len;
        self.rest = rest;
        self.raw = raw_text_after(&kind);
        Some(Token { at, slice, kind })
    }
}

/// The element whose raw text may come after a token.
fn raw_text_after(kind: &TokenKind<'_>) -> Option<&'static str>
    ensures { awaited_in result ≡ raw_after (kind_of kind.now) }
{
    match kind {
        TokenKind::Start { name, .. } => raw_element(name),
        _ => None,
    }
}

/// The kind and the length of the token at the start.
#[tactic(auto, unfolding(crate::specs::Pieces::piece_at))]
fn piece<'a>(rest: &'a str, raw: Option<&'static str>) -> (TokenKind<'a>, usize)
    requires { 0 < length rest.now }
    ensures kind { kind_of result.0 ≡ (piece_at (awaited_in raw.entry) rest.entry.now).kind }
    ensures len { result.1 ≡ (piece_at (awaited_in raw.entry) rest.entry.now).len }
    ensures boundary { IsCharBoundary rest.entry.now result.1 }
    ensures some { 0 < result.1 }
{
    if let Some(name) = raw {
        let len = length_of_text(rest.as_bytes(), Until::EndOf(name));
        if len > 0 {
            return (TokenKind::Raw, len);
        }
    }
    markup(rest)
}

/// The kind and the length of the token at the start, outside of raw text.
#[tactic(auto, unfolding(crate::specs::Pieces::piece_of))]
fn markup<'a>(rest: &'a str) -> (TokenKind<'a>, usize)
    requires { 0 < length rest.now }
    ensures kind { kind_of result.0 ≡ (piece_of (opening_of rest.entry.now) rest.entry.now).kind }
    ensures len { result.1 ≡ (piece_of (opening_of rest.entry.now) rest.entry.now).len }
    ensures boundary { IsCharBoundary rest.entry.now result.1 }
    ensures some { 0 < result.1 }
{
    match what_begins(rest.as_bytes()) {
        Opening::Comment => (TokenKind::Skip, 4 + length_of_comment(&rest[4..])),
        Opening::Bogus => (TokenKind::Skip, length_through_ascii(rest, ">")),
        Opening::End => end_tag(rest),
        Opening::Start => start_tag(rest),
        Opening::Text => (
            TokenKind::Text,
            length_of_text(rest.as_bytes(), Until::Markup),
        ),
    }
}

/// A start tag, or a skip to the end.
#[tactic(auto, unfolding(crate::specs::Pieces::start_at))]
fn start_tag<'a>(rest: &'a str) -> (TokenKind<'a>, usize)
    requires { IsTrue (is_start (opening_of rest.now)) }
    ensures kind { kind_of result.0 ≡ (start_at rest.entry.now).kind }
    ensures len { result.1 ≡ (start_at rest.entry.now).len }
    ensures boundary { IsCharBoundary rest.entry.now result.1 }
    ensures some { 0 < result.1 }
{
    let (name, after) = split_before(&rest[1..], Stop::Name);
    match end_of_tag(after) {
        Some(end) => (
            TokenKind::Start {
                name,
                attrs: &after[..end],
            },
            1 + name.len() + end + 1,
        ),
        None => (TokenKind::Skip, rest.len()),
    }
}

/// An end tag, or a skip to the end.
#[tactic(auto, unfolding(crate::specs::Pieces::close_at))]
fn end_tag<'a>(rest: &'a str) -> (TokenKind<'a>, usize)
    requires { IsTrue (is_end (opening_of rest.now)) }
    ensures kind { kind_of result.0 ≡ (close_at rest.entry.now).kind }
    ensures len { result.1 ≡ (close_at rest.entry.now).len }
    ensures boundary { IsCharBoundary rest.entry.now result.1 }
    ensures some { 0 < result.1 }
{
    let len = rest.len();
    let (name, after) = split_before(&rest[2..], Stop::Name);
    match end_of_tag(after) {
        Some(end) => (TokenKind::End { name }, 2 + name.len() + end + 1),
        None => (TokenKind::Skip, len),
    }
}

/// How many bytes of a text there are up to and with the first `-->`, or to the end.
fn length_of_comment(rest: &str) -> usize
    ensures len { result ≡ len_through (codes "-->") rest.now }
    ensures boundary { IsCharBoundary rest.now result }
{
    length_through_comment(rest.as_bytes())
}

/// The same of a needle that ends in an ASCII character.
fn length_through_ascii(rest: &str, needle: &str) -> usize
    requires some { 0 < length needle.now }
    requires ascii { slice_index needle.now (length needle.now - 1) < 128 }
    ensures len { result ≡ len_through needle.now rest.now }
    ensures boundary { IsCharBoundary rest.now result }
    ensures some { 0 < length rest.now → 0 < result }
{
    length_through(rest.as_bytes(), needle.as_bytes())
}
