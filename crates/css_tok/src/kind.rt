//! The token at the start of a text.

ghost use Rattle.std.specs.Prelude.{◌≡◌, ◌<◌, ◌≤◌, ◌+◌, length};
ghost use Rattle.css_tok.specs.Kind as spec;
ghost use Rattle.css_tok.specs.Lengths.{number_len};

use crate::lengths::{Class, comment_len, ident_len, is_blank, is_newline, number_len, run_len};
use bk_num::chars::{byte, is_quote};

/// The kinds of token (CSS 2.1, 4.1.1). Of the readings of a text's start the longest counts.
#[derive(Clone, Copy, Debug, PartialEq, Eq)]
pub enum CssKind {
    /// White space.
    Space,
    /// `/*` up to and with `*/`, or to the end.
    Comment,
    /// A string, with its closing quote or to the end.
    Str,
    /// A string that a bare newline cuts; the newline isn't part of it.
    BadStr,
    /// A name.
    Ident,
    /// A name and `(`.
    Func,
    /// `url(`, an address without quotes, and `)`.
    Url,
    /// `@` and a name.
    At,
    /// `#` and name characters.
    Hash,
    /// A sign or none, and digits, digits `.` digits, or `.` digits.
    Number,
    /// A number and `%`.
    Percent,
    /// A number and a name.
    Dimension,
    /// `<!--`.
    Cdo,
    /// `-->`.
    Cdc,
    /// Any other single character; it is below U+0080.
    Delim,
}

#[tactic(auto, unfolding(crate::specs::Kind::string_at))]
fn string_at(text: &[u8]) -> (CssKind, usize)
    requires { 0 < length text.now }
    ensures value { result ≡ spec.string_at text.now }
    ensures within { (0 < result.1) × (result.1 ≤ length text.now) }
{
    let len = 1 + run_len(Class::Quoted(text[0]), &text[1..]);
    if len == text.len() {
        (CssKind::Str, len)
    } else if is_newline(text[len]) {
        (CssKind::BadStr, len)
    } else {
        (CssKind::Str, len + 1)
    }
}

#[tactic(auto, unfolding(crate::specs::Kind::numeric_at))]
fn numeric_at(text: &[u8]) -> (CssKind, usize)
    requires { 0 < number_len text.now }
    ensures value { result ≡ spec.numeric_at text.now }
    ensures within { (0 < result.1) × (result.1 ≤ length text.now) }
{
    let len = number_len(text);
    if byte(text, len) == b'%' {
        return (CssKind::Percent, len + 1);
    }
    match ident_len(&text[len..]) {
        0 => (CssKind::Number, len),
        unit => (CssKind::Dimension, len + unit),
    }
}

#[tactic(auto, unfolding(crate::specs::Kind::url_len))]
fn url_len(text: &[u8]) -> usize
    ensures value { result ≡ spec.url_len text.now }
    ensures within { result ≤ length text.now }
{
    if text.len() < 4 || !text[..4].eq_ignore_ascii_case(b"url(") {
        return 0;
    }
    let start = 4 + run_len(Class::Blank, &text[4..]);
    let end = start + run_len(Class::Address, &text[start..]);
    let close = end + run_len(Class::Blank, &text[end..]);
    if byte(text, close) == b')' {
        close + 1
    } else {
        0
    }
}

#[tactic(auto, unfolding(crate::specs::Kind::word_at))]
fn word_at(text: &[u8]) -> (CssKind, usize)
    requires { 0 < length text.now }
    ensures value { result ≡ spec.word_at text.now }
    ensures within { (0 < result.1) × (result.1 ≤ length text.now) }
{
    let len = ident_len(text);
    if len == 0 {
        return (CssKind::Delim, 1);
    }
    if byte(text, len) != b'(' {
        return (CssKind::Ident, len);
    }
    match url_len(text) {
        0 => (CssKind::Func, len + 1),
        url => (CssKind::Url, url),
    }
}

#[tactic(auto, unfolding(crate::specs::Kind::sign_at))]
fn sign_at(text: &[u8]) -> (CssKind, usize)
    requires { 0 < length text.now }
    ensures value { result ≡ spec.sign_at text.now }
    ensures within { (0 < result.1) × (result.1 ≤ length text.now) }
{
    if text.starts_with(b"<!--") {
        return (CssKind::Cdo, 4);
    }
    if text.starts_with(b"-->") {
        return (CssKind::Cdc, 3);
    }
    if text[0] == b'@' {
        let name = ident_len(&text[1..]);
        if 0 < name {
            return (CssKind::At, 1 + name);
        }
    }
    if text[0] == b'#' {
        let name = run_len(Class::Name, &text[1..]);
        if 0 < name {
            return (CssKind::Hash, 1 + name);
        }
    }
    word_at(text)
}

#[tactic(auto, using(crate::proofs::Runs::blank_run), unfolding(crate::specs::Kind::token_at))]
pub(crate) fn token_at(text: &[u8]) -> (CssKind, usize)
    requires { 0 < length text.now }
    ensures value { result ≡ spec.token_at text.now }
    ensures within { (0 < result.1) × (result.1 ≤ length text.now) }
{
    let b = text[0];
    if is_blank(b) {
        return (CssKind::Space, run_len(Class::Blank, text));
    }
    if is_quote(b) {
        return string_at(text);
    }
    if b == b'/' && byte(text, 1) == b'*' {
        return (CssKind::Comment, 2 + comment_len(&text[2..]));
    }
    if 0 < number_len(text) {
        return numeric_at(text);
    }
    sign_at(text)
}
