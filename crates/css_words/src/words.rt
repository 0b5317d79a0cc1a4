//! Tests on the next token, and words.

ghost use Rattle.std.specs.Prelude.{◌≡◌, ◌≤◌, ◌<◌, length, option_map, IfOk, IfSome};
ghost use Rattle.std.specs.Str.{str_to_ascii_lowercase};
ghost use Rattle.css_tok.specs.Tokens.{item_in};
ghost use Rattle.css_words.specs.Parser.{Reads, Owns};
ghost use Rattle.css_words.specs.Words as spec;

use crate::reader::Reader;
use crate::unread::Unread;
use bk_num::chars::byte;
use bk_num::name::Name;
use css_tok::kind::CssKind;
use css_tok::plain::plain;
use css_tok::tokens::CssToken;
use css_tok::words::is_word;
use std::alloc::Global;

fn is_kind(kind: CssKind, other: CssKind) -> bool
    ensures { result ≡ spec.is_kind kind other }
{
    matches!(
        (kind, other),
        (CssKind::Space, CssKind::Space)
            | (CssKind::Comment, CssKind::Comment)
            | (CssKind::Str, CssKind::Str)
            | (CssKind::BadStr, CssKind::BadStr)
            | (CssKind::Ident, CssKind::Ident)
            | (CssKind::Func, CssKind::Func)
            | (CssKind::Url, CssKind::Url)
            | (CssKind::At, CssKind::At)
            | (CssKind::Hash, CssKind::Hash)
            | (CssKind::Number, CssKind::Number)
            | (CssKind::Percent, CssKind::Percent)
            | (CssKind::Dimension, CssKind::Dimension)
            | (CssKind::Cdo, CssKind::Cdo)
            | (CssKind::Cdc, CssKind::Cdc)
            | (CssKind::Delim, CssKind::Delim)
    )
}

/// Whether there is a token, of this kind.
pub fn of_kind(kind: CssKind, token: Option<CssToken<'_>>) -> bool
    ensures { result ≡ spec.of_kind kind (option_map item_in token.entry) }
{
    match token {
        Some(token) => is_kind(kind, token.kind),
        None => false,
    }
}

/// Whether a token is this single character.
#[tactic(auto, unfolding(crate::specs::Words::is_mark))]
pub fn is_mark(mark: u8, token: Option<CssToken<'_>>) -> bool
    ensures { result ≡ spec.is_mark mark (option_map item_in token.entry) }
{
    match token {
        Some(token) => {
            is_kind(CssKind::Delim, token.kind) && byte(token.slice.as_bytes(), 0) == mark
        }
        None => false,
    }
}

/// The part of a token that its value is written in, its escapes as they stand.
pub fn slice_of<'a>(token: Option<CssToken<'a>>) -> &'a str
    ensures { result.now ≡ spec.slice_of (option_map item_in token.entry) }
{
    match token {
        Some(token) => token.value_slice(),
        None => "",
    }
}

/// Whether a token is of this kind and has this name, ASCII case aside.
#[tactic(auto, unfolding(crate::specs::Words::is_named))]
pub fn is_named(kind: CssKind, token: Option<CssToken<'_>>, word: &str) -> bool
    ensures { result ≡ spec.is_named kind (option_map item_in token.entry) word.now }
{
    of_kind(kind, token) && is_word(slice_of(token), word)
}

/// What a name or a string says, its escapes undone.
#[tactic(auto, unfolding(crate::specs::Words::value))]
pub fn value(alloc: Global, token: Option<CssToken<'_>>) -> Result<Name, Unread>
    ensures { Owns (spec.value (option_map item_in token.entry)) result }
{
    Ok(plain(alloc, slice_of(token))?)
}

/// A name in lower case.
fn lowered(alloc: Global, name: &Name) -> Result<Name, Unread>
    ensures { Owns (str_to_ascii_lowercase name.now) result }
{
    let mut text = String::from_str(alloc, name.as_str())?;
    text.make_ascii_lowercase();
    Ok(Name::from_string(text))
}

/// Reads an Ident.
#[tactic(auto, unfolding(crate::specs::Words::ident))]
pub fn ident(alloc: Global, reader: &mut Reader<'_>) -> Result<Name, Unread>
    ensures reads { Reads (λ x. x) (spec.ident reader.old) result reader.new }
    ensures within { length reader.new ≤ length reader.old }
{
    let token = reader.peek();
    if !of_kind(CssKind::Ident, token) {
        return Err(Unread::NoReading);
    }
    reader.advance();
    value(alloc, token)
}

/// Reads an Ident, if one comes; None where none does.
#[tactic(auto, unfolding(crate::specs::Words::next_ident))]
pub fn next_ident(alloc: Global, reader: &mut Reader<'_>) -> Result<Option<Name>, Unread>
    ensures reads { Reads (λ x. x) (spec.next_ident reader.old) result reader.new }
    ensures within { length reader.new ≤ length reader.old }
    ensures taken { IfOk result (λ o. IfSome o (λ _. length reader.new < length reader.old)) }
{
    let token = reader.peek();
    if token.is_none() || !of_kind(CssKind::Ident, token) {
        return Ok(None);
    }
    reader.advance();
    Ok(Some(value(alloc, token)?))
}

/// Reads an Ident, and puts it into lower case.
#[tactic(auto, unfolding(crate::specs::Words::lower_ident))]
pub fn lower_ident(alloc: Global, reader: &mut Reader<'_>) -> Result<Name, Unread>
    ensures reads { Reads (λ x. x) (spec.lower_ident reader.old) result reader.new }
    ensures within { length reader.new ≤ length reader.old }
{
    let token = reader.peek();
    if !of_kind(CssKind::Ident, token) {
        return Err(Unread::NoReading);
    }
    reader.advance();
    let name = value(alloc, token)?;
    lowered(alloc, &name)
}

/// Reads a string.
#[tactic(auto, unfolding(crate::specs::Words::string))]
pub fn string(alloc: Global, reader: &mut Reader<'_>) -> Result<Name, Unread>
    ensures reads { Reads (λ x. x) (spec.string reader.old) result reader.new }
    ensures within { length reader.new ≤ length reader.old }
{
    let token = reader.peek();
    if !of_kind(CssKind::Str, token) {
        return Err(Unread::NoReading);
    }
    reader.advance();
    value(alloc, token)
}

/// Reads this single character.
#[tactic(auto, unfolding(crate::specs::Words::expect))]
pub fn expect(reader: &mut Reader<'_>, mark: u8) -> Result<(), Unread>
    ensures reads { Reads (λ x. x) (spec.expect mark reader.old) result reader.new }
    ensures within { length reader.new ≤ length reader.old }
{
    if !is_mark(mark, reader.peek()) {
        return Err(Unread::NoReading);
    }
    reader.advance();
    Ok(())
}

/// Reads `)`, or the end, which closes all.
#[tactic(auto, unfolding(crate::specs::Words::close))]
pub fn close(reader: &mut Reader<'_>) -> Result<(), Unread>
    ensures reads { Reads (λ x. x) (spec.close reader.old) result reader.new }
    ensures within { length reader.new ≤ length reader.old }
{
    if reader.peek().is_none() {
        return Ok(());
    }
    expect(reader, b')')
}
