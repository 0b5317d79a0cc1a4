//! Reads simple selectors (Selectors 3, 6).

ghost use Rattle.std.specs.Prelude.{◌≡◌, ◌≤◌, ◌<◌, ◌&&◌, length, option_map, IfOk, IfSome};
ghost use Rattle.css_tok.specs.Tokens.{item_in};
ghost use Rattle.css_words.specs.Parser.{Reads};
ghost use Rattle.selectors.specs.Grammar as spec;

use crate::an_plus_b::an_plus_b;
use crate::short::Few;
use crate::types::{AttrTest, Test};
use bk_num::name::Name;
use css_tok::kind::CssKind;
use css_tok::tokens::CssToken;
use css_words::reader::Reader;
use css_words::unread::Unread;
use css_words::words::{expect, ident, is_mark, is_named, lower_ident, of_kind, value};
use std::alloc::Global;

#[tactic(auto, unfolding(crate::specs::Grammar::id))]
fn id(alloc: Global, reader: &mut Reader<'_>) -> Result<Test, Unread>
    ensures reads { Reads (λ x. x) (spec.id reader.old) result reader.new }
    ensures within { length reader.new ≤ length reader.old }
    ensures taken { 0 < length reader.old → length reader.new < length reader.old }
{
    let token = reader.peek();
    reader.advance();
    Ok(Test::Id(value(alloc, token)?))
}

#[tactic(auto, unfolding(crate::specs::Grammar::class))]
fn class(alloc: Global, reader: &mut Reader<'_>) -> Result<Test, Unread>
    ensures reads { Reads (λ x. x) (spec.class reader.old) result reader.new }
    ensures within { length reader.new ≤ length reader.old }
    ensures taken { 0 < length reader.old → length reader.new < length reader.old }
{
    reader.advance();
    Ok(Test::Class(ident(alloc, reader)?))
}

#[tactic(auto, unfolding(crate::specs::Grammar::attr_mark))]
fn attr_mark(token: Option<CssToken<'_>>) -> Option<AttrTest>
    ensures { result ≡ spec.attr_mark (option_map item_in token.entry) }
{
    if is_mark(b'~', token) {
        Some(AttrTest::Word)
    } else if is_mark(b'|', token) {
        Some(AttrTest::Dash)
    } else if is_mark(b'^', token) {
        Some(AttrTest::Starts)
    } else if is_mark(b'$', token) {
        Some(AttrTest::Ends)
    } else if is_mark(b'*', token) {
        Some(AttrTest::Holds)
    } else {
        None
    }
}

#[tactic(auto, unfolding(crate::specs::Grammar::attr_test))]
fn attr_test(reader: &mut Reader<'_>) -> Result<AttrTest, Unread>
    ensures reads { Reads (λ x. x) (spec.attr_test reader.old) result reader.new }
    ensures within { length reader.new ≤ length reader.old }
{
    let token = reader.peek();
    if is_mark(b'=', token) {
        reader.advance();
        return Ok(AttrTest::Equals);
    }
    let Some(test) = attr_mark(token) else {
        return Err(Unread::NoReading);
    };
    reader.advance();
    expect(reader, b'=')?;
    Ok(test)
}

#[tactic(auto, unfolding(crate::specs::Grammar::attr_value))]
fn attr_value(alloc: Global, reader: &mut Reader<'_>) -> Result<Name, Unread>
    ensures reads { Reads (λ x. x) (spec.attr_value reader.old) result reader.new }
    ensures within { length reader.new ≤ length reader.old }
{
    let token = reader.peek();
    if !of_kind(CssKind::Ident, token) && !of_kind(CssKind::Str, token) {
        return Err(Unread::NoReading);
    }
    reader.advance();
    value(alloc, token)
}

#[tactic(auto, unfolding(crate::specs::Grammar::attr_rest))]
fn attr_rest(alloc: Global, reader: &mut Reader<'_>, key: Name) -> Result<Test, Unread>
    ensures reads { Reads (λ x. x) (spec.attr_rest key reader.old) result reader.new }
    ensures within { length reader.new ≤ length reader.old }
{
    let test = attr_test(reader)?;
    reader.pass_spaces();
    let text = attr_value(alloc, reader)?;
    reader.pass_spaces();
    expect(reader, b']')?;
    Ok(Test::Attr(key, test, text))
}

#[tactic(auto, unfolding(crate::specs::Grammar::attribute))]
fn attribute(alloc: Global, reader: &mut Reader<'_>) -> Result<Test, Unread>
    ensures reads { Reads (λ x. x) (spec.attribute reader.old) result reader.new }
    ensures within { length reader.new ≤ length reader.old }
    ensures taken { 0 < length reader.old → length reader.new < length reader.old }
{
    reader.advance();
    reader.pass_spaces();
    let key = lower_ident(alloc, reader)?;
    reader.pass_spaces();
    if is_mark(b']', reader.peek()) {
        reader.advance();
        let none = Name::new(alloc, "")?;
        return Ok(Test::Attr(key, AttrTest::Has, none));
    }
    attr_rest(alloc, reader, key)
}

#[tactic(auto, unfolding(crate::specs::Grammar::place_class))]
fn place_class(token: Option<CssToken<'_>>) -> Option<Test>
    ensures { result ≡ spec.place_class (option_map item_in token.entry) }
{
    if is_named(CssKind::Ident, token, "root") {
        Some(Test::Root)
    } else if is_named(CssKind::Ident, token, "first-child") {
        Some(Test::FirstChild)
    } else if is_named(CssKind::Ident, token, "last-child") {
        Some(Test::LastChild)
    } else if is_named(CssKind::Ident, token, "only-child") {
        Some(Test::OnlyChild)
    } else {
        None
    }
}

#[tactic(auto, unfolding(crate::specs::Grammar::other_class))]
fn other_class(token: Option<CssToken<'_>>) -> Option<Test>
    ensures { result ≡ spec.other_class (option_map item_in token.entry) }
{
    if is_named(CssKind::Ident, token, "first-of-type") {
        Some(Test::FirstOfType)
    } else if is_named(CssKind::Ident, token, "last-of-type") {
        Some(Test::LastOfType)
    } else if is_named(CssKind::Ident, token, "empty") {
        Some(Test::Empty)
    } else if is_named(CssKind::Ident, token, "link") {
        Some(Test::Link)
    } else {
        None
    }
}

#[tactic(auto, unfolding(crate::specs::Grammar::simple_of))]
fn simple_of(token: Option<CssToken<'_>>) -> Option<Test>
    ensures { result ≡ spec.simple_of (option_map item_in token.entry) }
{
    place_class(token).or(other_class(token))
}

#[tactic(auto, unfolding(crate::specs::Grammar::nth))]
fn nth(alloc: Global, reader: &mut Reader<'_>) -> Result<Test, Unread>
    ensures reads { Reads (λ x. x) (spec.nth reader.old) result reader.new }
    ensures within { length reader.new ≤ length reader.old }
    ensures taken { 0 < length reader.old → length reader.new < length reader.old }
{
    reader.advance();
    reader.advance();
    reader.pass_spaces();
    let (a, b) = an_plus_b(alloc, reader)?;
    reader.pass_spaces();
    expect(reader, b')')?;
    Ok(Test::Nth(a, b))
}

pub(crate) fn is_function(
    token: Option<CssToken<'_>>,
    second: Option<CssToken<'_>>,
    name: &str,
) -> bool
    ensures { result ≡ spec.is_function (option_map item_in token.entry) (option_map item_in second.entry) name.now }
{
    is_mark(b':', token) && is_named(CssKind::Func, second, name)
}

/// The next pseudo-class other than `:not`; None where none comes.
#[tactic(auto, unfolding(crate::specs::Grammar::pseudo_class, css_words::specs::Words::is_mark))]
fn pseudo_class(alloc: Global, reader: &mut Reader<'_>) -> Result<Option<Test>, Unread>
    ensures reads { Reads (λ x. x) (spec.pseudo_class reader.old) result reader.new }
    ensures within { length reader.new ≤ length reader.old }
    ensures taken { IfOk result (λ o. IfSome o (λ _. length reader.new < length reader.old)) }
{
    let token = reader.peek();
    let second = reader.second();
    if token.is_none() {
        return Ok(None);
    }
    if is_function(token, second, "nth-child") {
        return Ok(Some(nth(alloc, reader)?));
    }
    if !is_mark(b':', token) {
        return Ok(None);
    }
    let Some(test) = simple_of(second) else {
        return Ok(None);
    };
    reader.advance();
    reader.advance();
    Ok(Some(test))
}

/// The next simple selector other than a type and `:not`; None where none comes.
#[tactic(auto, unfolding(crate::specs::Grammar::next_test, css_words::specs::Words::is_mark))]
pub(crate) fn next_test(alloc: Global, reader: &mut Reader<'_>) -> Result<Option<Test>, Unread>
    ensures reads { Reads (λ x. x) (spec.next_test reader.old) result reader.new }
    ensures within { length reader.new ≤ length reader.old }
    ensures taken { IfOk result (λ o. IfSome o (λ _. length reader.new < length reader.old)) }
{
    let token = reader.peek();
    if token.is_some() && of_kind(CssKind::Hash, token) {
        return Ok(Some(id(alloc, reader)?));
    }
    if token.is_some() && is_mark(b'.', token) {
        return Ok(Some(class(alloc, reader)?));
    }
    if token.is_some() && is_mark(b'[', token) {
        return Ok(Some(attribute(alloc, reader)?));
    }
    pseudo_class(alloc, reader)
}

/// The simple selectors that come next.
#[tactic(auto, unfolding(crate::specs::Grammar::all_tests), using(css_words::proofs::RepeatLemmas::lone_turns))]
pub(crate) fn all_tests(alloc: Global, reader: &mut Reader<'_>) -> Result<Few<Test>, Unread>
    ensures reads { Reads (λ x. x) (spec.all_tests reader.old) result reader.new }
    ensures within { length reader.new ≤ length reader.old }
{
    let mut found = Few::new();
    'tests: loop {
        match next_test(alloc, reader)? {
            Some(test) => found.push(alloc, test)?,
            None => return Ok(found),
        }
    }
}
