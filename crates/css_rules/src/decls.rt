//! Declarations.

ghost use Rattle.std.specs.Prelude.{◌≡◌, ◌++◌, ◌≤◌, ◌<◌, ◌-◌, [], length, drop, map, IfOk, IfSome, IsSome, IsTrue, option_map};
ghost use Rattle.std.specs.List.{prefix_len, list_any};
ghost use Rattle.css_tok.specs.Tokens.{tokens_of, item_in};
ghost use Rattle.css_tok.specs.Marks.{is_gap};
ghost use Rattle.css_rules.specs.Brackets.{is_closed};
ghost use Rattle.css_rules.specs.Views.{items_in};
ghost use Rattle.css_rules.specs.Parts.{joined, past_from};
ghost use Rattle.css_rules.specs.Decls as spec;
ghost use Rattle.css_rules.specs.Decls.{Covers};

use crate::parts::{Stop, next_part};
use bk_num::name::NoMem;
use css_tok::kind::CssKind;
use css_tok::tokens::{CssToken, CssTokens};
use css_tok::words::is_word;
use std::alloc::Global;

/// A declaration, by its parts of the source: the name with its escapes, and the value without
/// `!important`, white space and comments round it.
#[derive(Clone, Copy, Debug)]
pub struct DeclSlice<'a> {
    pub name: &'a str,
    pub value: &'a str,
    pub important: bool,
}

fn is_bad(token: &CssToken<'_>) -> bool
    ensures { result ≡ spec.is_bad_kind token.now.kind }
{
    matches!(token.kind, CssKind::BadStr)
}

#[tactic(auto, unfolding(crate::specs::Decls::is_bang_word))]
fn is_bang_word(token: &CssToken<'_>) -> bool
    ensures { result ≡ spec.is_bang_word (item_in token.now) }
{
    token.is_ident() && is_word(token.slice, "important")
}

fn token_before<'a>(tokens: &[CssToken<'a>], at: usize) -> Option<CssToken<'a>>
    requires { at ≤ length tokens.now }
    ensures value { option_map item_in result ≡ spec.item_before (items_in tokens.now) at }
    ensures some { IsSome result → 0 < at }
{
    if 0 < at { Some(tokens[at - 1]) } else { None }
}

fn word_before(tokens: &[CssToken<'_>], at: usize) -> bool
    requires { at ≤ length tokens.now }
    ensures value { result ≡ spec.before spec.is_bang_word (items_in tokens.now) at }
    ensures some { IsTrue result → 0 < at }
{
    match token_before(tokens, at) {
        Some(token) => is_bang_word(&token),
        None => false,
    }
}

fn bang_before(tokens: &[CssToken<'_>], at: usize) -> bool
    requires { at ≤ length tokens.now }
    ensures value { result ≡ spec.before spec.is_bang (items_in tokens.now) at }
    ensures some { IsTrue result → 0 < at }
{
    match token_before(tokens, at) {
        Some(token) => token.mark() == b'!',
        None => false,
    }
}

fn gap_before(tokens: &[CssToken<'_>], at: usize) -> bool
    requires { at ≤ length tokens.now }
    ensures value { result ≡ spec.before is_gap (items_in tokens.now) at }
    ensures some { IsTrue result → 0 < at }
{
    match token_before(tokens, at) {
        Some(token) => token.is_gap(),
        None => false,
    }
}

/// How many of the first tokens are left without the white space and comments at their end.
#[tactic(auto, unfolding(crate::specs::Decls::gapless_len))]
fn gapless_len(tokens: &[CssToken<'_>], len: usize) -> usize
    requires { len ≤ length tokens.now }
    ensures value { result ≡ spec.gapless_len (items_in tokens.now) len }
    ensures within { result ≤ len }
{
    let mut end = len;
    while gap_before(tokens, end) {
        end -= 1;
    }
    end
}

#[tactic(auto, unfolding(crate::specs::Decls::bang_place))]
fn bang_place(tokens: &[CssToken<'_>], len: usize) -> Option<usize>
    requires { len ≤ length tokens.now }
    ensures value { result ≡ spec.bang_place (items_in tokens.now) len }
    ensures within { IfSome result (λ at. at ≤ len) }
{
    let word = gapless_len(tokens, len);
    if !word_before(tokens, word) {
        return None;
    }
    let bang = gapless_len(tokens, word - 1);
    if bang_before(tokens, bang) {
        Some(bang - 1)
    } else {
        None
    }
}

fn gap_run(tokens: &[CssToken<'_>]) -> usize
    ensures value { result ≡ prefix_len (λ t. is_gap (item_in t)) tokens.now }
    ensures within { result ≤ length tokens.now }
{
    let mut count = 0;
    while count < tokens.len() && tokens[count].is_gap() {
        count += 1;
    }
    count
}

/// How many tokens of white space and comments stand before the others.
#[tactic(auto, using(crate::proofs::PartLemmas::gap_run_is), unfolding(crate::specs::Decls::gaps_len))]
pub fn gaps_len(tokens: &[CssToken<'_>]) -> usize
    ensures value { result ≡ spec.gaps_len (items_in tokens.now) }
    ensures within { result ≤ length tokens.now }
{
    gap_run(tokens)
}

/// The text of tokens that a text begins with, and what follows them.
pub fn split<'a>(text: &'a str, tokens: &[CssToken<'a>]) -> (&'a str, &'a str)
    requires { Covers text.now (items_in tokens.now) }
    ensures front { result.0.now ≡ joined (items_in tokens.now) }
    ensures back { text.now ≡ result.0.now ++ result.1.now }
{
    let mut len = 0;
    for token in tokens {
        len += token.slice.as_bytes().len();
    }
    text.split_at(len)
}

/// Passes a number of tokens of a text.
pub fn skip<'t, 'a>(
    text: &'a str,
    tokens: &'t [CssToken<'a>],
    count: usize,
) -> (&'a str, &'t [CssToken<'a>])
    requires covers { Covers text.now (items_in tokens.now) }
    requires within { count ≤ length tokens.now }
    ensures tokens { items_in result.1.now ≡ drop count (items_in tokens.now) }
    ensures covers { Covers result.0.now (items_in result.1.now) }
{
    (split(text, &tokens[..count]).1, &tokens[count..])
}

#[tactic(auto, unfolding(crate::specs::Decls::important_place))]
fn important_place(closed: bool, tokens: &[CssToken<'_>]) -> Option<usize>
    ensures value { result ≡ spec.important_place closed (items_in tokens.now) }
    ensures within { IfSome result (λ at. at ≤ length tokens.now) }
{
    if closed {
        bang_place(tokens, tokens.len())
    } else {
        None
    }
}

#[tactic(auto, unfolding(crate::specs::Decls::value_len))]
fn value_len(closed: bool, tokens: &[CssToken<'_>]) -> usize
    ensures value { result ≡ spec.value_len closed (items_in tokens.now) }
    ensures within { result ≤ length tokens.now }
{
    let end = match important_place(closed, tokens) {
        Some(at) => at,
        None => tokens.len(),
    };
    gapless_len(tokens, end)
}

#[tactic(auto, unfolding(crate::specs::Decls::decl_from))]
fn decl_from<'a>(
    closed: bool,
    name: &'a str,
    text: &'a str,
    tokens: &[CssToken<'a>],
) -> DeclSlice<'a>
    requires { Covers text.now (items_in tokens.now) }
    ensures { spec.decl_in result ≡ spec.decl_from closed name.now (items_in tokens.now) }
{
    let value = split(text, &tokens[..value_len(closed, tokens)]).0;
    let important = important_place(closed, tokens).is_some();
    DeclSlice {
        name,
        value,
        important,
    }
}

#[tactic(auto, unfolding(crate::specs::Decls::after_name))]
fn after_name<'a>(
    closed: bool,
    name: &'a str,
    text: &'a str,
    tokens: &[CssToken<'a>],
) -> Option<DeclSlice<'a>>
    requires { Covers text.now (items_in tokens.now) }
    ensures { spec.found result ≡ spec.after_name closed name.now (items_in tokens.now) }
{
    let [colon, ..] = tokens else {
        return None;
    };
    if colon.mark() != b':' {
        return None;
    }
    let (text, tokens) = skip(text, tokens, 1);
    let (text, tokens) = skip(text, tokens, gaps_len(tokens));
    Some(decl_from(closed, name, text, tokens))
}

#[tactic(auto, unfolding(crate::specs::Decls::named))]
fn named<'a>(closed: bool, text: &'a str, tokens: &[CssToken<'a>]) -> Option<DeclSlice<'a>>
    requires { Covers text.now (items_in tokens.now) }
    ensures { spec.found result ≡ spec.named closed (items_in tokens.now) }
{
    let [name, ..] = tokens else {
        return None;
    };
    if !name.is_ident() {
        return None;
    }
    let (text, tokens) = skip(text, tokens, 1);
    let (text, tokens) = skip(text, tokens, gaps_len(tokens));
    after_name(closed, name.slice, text, tokens)
}

fn has_bad(tokens: &[CssToken<'_>]) -> bool
    ensures { result ≡ list_any (λ t. spec.is_bad_kind t.kind) tokens.now }
{
    tokens.iter().any(|token| is_bad(token))
}

/// Reads a declaration from the tokens of a piece; None exactly where they are none.
#[tactic(auto, using(crate::proofs::PartLemmas::bad_is), unfolding(crate::specs::Decls::decl_of))]
pub fn decl_of<'a>(closed: bool, text: &'a str, tokens: &[CssToken<'a>]) -> Option<DeclSlice<'a>>
    requires covers { Covers text.now (items_in tokens.now) }
    requires closed { closed ≡ is_closed (items_in tokens.now) }
    ensures { spec.found result ≡ spec.decl_of (items_in tokens.now) }
{
    if has_bad(tokens) {
        return None;
    }
    let (text, tokens) = skip(text, tokens, gaps_len(tokens));
    named(closed, text, tokens)
}

/// Reads the declarations up to the end of a block, or of a style attribute.
pub(crate) fn read_block<'a>(
    alloc: Global,
    tokens: &mut CssTokens<'a>,
    stop: Stop,
) -> Result<Vec<DeclSlice<'a>>, NoMem>
    requires { spec.IsOfDecls stop }
    ensures decls { IfOk result (λ v. map spec.decl_in v.items ≡ spec.decls_of stop (tokens_of tokens.old.rest.now)) }
    ensures rest { IfOk result (λ _. tokens_of tokens.new.rest.now
        ≡ past_from stop [] (tokens_of tokens.old.rest.now)) }
    ensures within { IfOk result (λ _. length tokens.new.rest.now ≤ length tokens.old.rest.now) }
{
    let mut part = Vec::new(alloc);
    let mut decls = Vec::new(alloc);
    'parts: loop {
        let start = tokens.rest;
        let end = next_part(alloc, tokens, stop, &mut part)?;
        if let Some(decl) = decl_of(end.closed, start, &part) {
            decls.push(decl)?;
        }
        if end.mark != b';' {
            return Ok(decls);
        }
    }
}

/// The declarations of a style attribute (CSS 2.1, 4.1.8): those between `;` outside brackets, pieces of
/// another form and pieces with a string that a newline cuts left out.
pub fn read_decls<'a>(alloc: Global, text: &'a str) -> Result<Vec<DeclSlice<'a>>, NoMem>
    ensures { IfOk result (λ v. map spec.decl_in v.items ≡ spec.decls_of Stop.Piece (tokens_of text.now)) }
{
    let mut tokens = CssTokens::new(text);
    let decls = read_block(alloc, &mut tokens, Stop::Piece)?;
    Ok(decls)
}
