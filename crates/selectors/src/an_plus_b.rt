//! Reads An+B, the argument of `:nth-child`.

ghost use Rattle.std.specs.Prelude.{◌≡◌, ◌≤◌, ◌<◌, ◌+◌, ◌*◌, length, min, ◌==◌, option_map, pos, neg_ℤ};
ghost use Rattle.std.specs.Char.{is_ascii_digit};
ghost use Rattle.std.specs.List.{list_all};
ghost use Rattle.bk_num.specs.Written.{most_whole};
ghost use Rattle.css_tok.specs.Tokens.{item_in};
ghost use Rattle.css_words.specs.Parser.{Reads, Owns};
ghost use Rattle.selectors.specs.AnPlusB as spec;

use bk_num::chars::byte;
use bk_num::name::Name;
use bk_num::written::MOST_WHOLE;
use css_tok::kind::CssKind;
use css_tok::lengths::{number_len, sign_len};
use css_tok::plain::plain;
use css_tok::tokens::CssToken;
use css_words::reader::Reader;
use css_words::unread::Unread;
use css_words::words::{is_mark, is_named, of_kind, value};
use std::alloc::Global;

/// What stands after the `n` of a name or a unit.
#[derive(Clone, Copy, Debug)]
pub enum AfterN {
    /// `n` is all of it: B may follow, with its sign.
    Anything,
    /// `n-`: the digits of B follow.
    Digits,
    /// `n-` and digits, which are B: nothing follows.
    Nothing(i64),
}

#[tactic(auto, using(crate::proofs::NthLemmas::number_step, crate::proofs::NthLemmas::number_end))]
fn number(digits: &[u8]) -> u32
    ensures value { result ≡ spec.number_from 0 digits.now }
    ensures few { result ≤ most_whole }
{
    let mut number = 0;
    for at in 0..digits.len() {
        let digit = digits[at].saturating_sub(b'0');
        number = next_number(number, digit);
    }
    number
}

fn next_number(number: u32, digit: u8) -> u32
    requires { number ≤ most_whole }
    ensures value { result ≡ min most_whole (number * 10 + digit) }
    ensures few { result ≤ most_whole }
{
    let next = u64::from(number) * 10 + u64::from(digit);
    next.min(MOST_WHOLE) as u32
}

fn minus(number: u32) -> i64
    ensures { result ≡ neg_ℤ (pos number) }
{
    -(number as i64)
}

fn plus(number: u32) -> i64
    ensures { result ≡ pos number }
{
    number as i64
}

#[tactic(auto, unfolding(crate::specs::AnPlusB::whole_of))]
fn whole_of(text: &[u8]) -> i64
    ensures { result ≡ spec.whole_of text.now }
{
    let size = number(&text[sign_len(text)..]);
    if byte(text, 0) == b'-' {
        minus(size)
    } else {
        plus(size)
    }
}

fn has_point(text: &[u8]) -> bool
    ensures { result ≡ spec.has_point text.now }
{
    text.iter().any(|b| *b == b'.')
}

#[tactic(auto, unfolding(crate::specs::AnPlusB::is_integer))]
fn is_integer(token: Option<CssToken<'_>>) -> bool
    ensures { result ≡ spec.is_integer (option_map item_in token.entry) }
{
    match token {
        Some(token) => {
            matches!(token.kind, CssKind::Number) && !has_point(token.slice.as_bytes())
        }
        None => false,
    }
}

#[tactic(auto, unfolding(crate::specs::AnPlusB::is_signed))]
fn is_signed(token: Option<CssToken<'_>>) -> bool
    ensures { result ≡ spec.is_signed (option_map item_in token.entry) }
{
    match token {
        Some(token) => sign_len(token.slice.as_bytes()) != 0,
        None => false,
    }
}

#[tactic(auto, unfolding(crate::specs::AnPlusB::integer))]
fn integer(token: Option<CssToken<'_>>) -> i64
    ensures { result ≡ spec.integer (option_map item_in token.entry) }
{
    match token {
        Some(token) => whole_of(token.slice.as_bytes()),
        None => 0,
    }
}

#[tactic(auto, unfolding(crate::specs::AnPlusB::digits))]
fn digits(token: Option<CssToken<'_>>) -> u32
    ensures { result ≡ spec.digits (option_map item_in token.entry) }
{
    match token {
        Some(token) => number(token.slice.as_bytes()),
        None => 0,
    }
}

fn number_in(text: &[u8]) -> &[u8]
    ensures { result.now ≡ spec.number_in text.now }
{
    &text[..number_len(text)]
}

#[tactic(auto, unfolding(crate::specs::AnPlusB::is_step))]
fn is_step(token: Option<CssToken<'_>>) -> bool
    ensures { result ≡ spec.is_step (option_map item_in token.entry) }
{
    match token {
        Some(token) => {
            matches!(token.kind, CssKind::Dimension)
                && !has_point(number_in(token.slice.as_bytes()))
        }
        None => false,
    }
}

#[tactic(auto, unfolding(crate::specs::AnPlusB::step))]
fn step(token: Option<CssToken<'_>>) -> i64
    ensures { result ≡ spec.step (option_map item_in token.entry) }
{
    match token {
        Some(token) => whole_of(number_in(token.slice.as_bytes())),
        None => 0,
    }
}

fn unit_slice<'a>(token: Option<CssToken<'a>>) -> &'a str
    ensures { result.now ≡ spec.unit_slice (option_map item_in token.entry) }
{
    match token {
        Some(token) => token.unit(),
        None => "",
    }
}

/// What the unit of a token says.
#[tactic(auto, unfolding(crate::specs::AnPlusB::unit))]
fn unit(alloc: Global, token: Option<CssToken<'_>>) -> Result<Name, Unread>
    ensures { Owns (spec.unit (option_map item_in token.entry)) result }
{
    Ok(plain(alloc, unit_slice(token))?)
}

fn are_digits(text: &[u8]) -> bool
    ensures { result ≡ list_all is_ascii_digit text.now }
{
    text.iter().all(|b| b.is_ascii_digit())
}

fn after_minus(text: &[u8]) -> Option<AfterN>
    ensures { result ≡ spec.after_minus text.now }
{
    if text.len() == 0 {
        Some(AfterN::Digits)
    } else if are_digits(text) {
        Some(AfterN::Nothing(minus(number(text))))
    } else {
        None
    }
}

fn after_letter(text: &[u8]) -> Option<AfterN>
    ensures { result ≡ spec.after_letter text.now }
{
    if text.len() == 0 {
        Some(AfterN::Anything)
    } else if byte(text, 0) == b'-' {
        after_minus(&text[1..])
    } else {
        None
    }
}

#[tactic(auto, unfolding(crate::specs::AnPlusB::after_n))]
fn after_n(text: &[u8]) -> Option<AfterN>
    ensures { result ≡ spec.after_n text.now }
{
    let first = byte(text, 0);
    if text.len() != 0 && (first == b'n' || first == b'N') {
        after_letter(&text[1..])
    } else {
        None
    }
}

#[tactic(auto, unfolding(crate::specs::AnPlusB::signless))]
fn signless(reader: &mut Reader<'_>) -> Result<u32, Unread>
    ensures reads { Reads (λ x. x) (spec.signless reader.old) result reader.new }
    ensures within { length reader.new ≤ length reader.old }
{
    reader.pass_spaces();
    let token = reader.peek();
    if !is_integer(token) || is_signed(token) {
        return Err(Unread::NoReading);
    }
    reader.advance();
    Ok(digits(token))
}

#[tactic(auto, unfolding(crate::specs::AnPlusB::signed_or_none))]
fn signed_or_none(reader: &mut Reader<'_>, a: i64) -> Result<(i64, i64), Unread>
    ensures reads { Reads (λ x. (x.0, x.1)) (spec.signed_or_none a reader.old) result reader.new }
    ensures within { length reader.new ≤ length reader.old }
{
    reader.pass_spaces();
    let token = reader.peek();
    if is_integer(token) && is_signed(token) {
        reader.advance();
        return Ok((a, integer(token)));
    }
    if is_mark(b'+', token) {
        reader.advance();
        let b = signless(reader)?;
        return Ok((a, plus(b)));
    }
    if is_mark(b'-', token) {
        reader.advance();
        let b = signless(reader)?;
        return Ok((a, minus(b)));
    }
    Ok((a, 0))
}

fn rest_of_b(reader: &mut Reader<'_>, a: i64, after: AfterN) -> Result<(i64, i64), Unread>
    ensures reads { Reads (λ x. (x.0, x.1)) (spec.rest_of_b a after reader.old) result reader.new }
    ensures within { length reader.new ≤ length reader.old }
{
    match after {
        AfterN::Anything => signed_or_none(reader, a),
        AfterN::Digits => {
            let b = signless(reader)?;
            Ok((a, minus(b)))
        }
        AfterN::Nothing(b) => Ok((a, b)),
    }
}

#[tactic(auto, unfolding(crate::specs::AnPlusB::with_n))]
fn with_n(reader: &mut Reader<'_>, a: i64, text: &[u8]) -> Result<(i64, i64), Unread>
    ensures reads { Reads (λ x. (x.0, x.1)) (spec.with_n a text.now reader.old) result reader.new }
    ensures within { length reader.new ≤ length reader.old }
{
    let Some(after) = after_n(text) else {
        return Err(Unread::NoReading);
    };
    reader.advance();
    rest_of_b(reader, a, after)
}

#[tactic(auto, unfolding(crate::specs::AnPlusB::named_n))]
fn named_n(reader: &mut Reader<'_>, text: &[u8]) -> Result<(i64, i64), Unread>
    ensures reads { Reads (λ x. (x.0, x.1)) (spec.named_n text.now reader.old) result reader.new }
    ensures within { length reader.new ≤ length reader.old }
{
    if text.len() != 0 && byte(text, 0) == b'-' {
        with_n(reader, -1, &text[1..])
    } else {
        with_n(reader, 1, text)
    }
}

/// Reads An+B that doesn't begin with a name, or a whole number.
#[tactic(auto, unfolding(crate::specs::AnPlusB::marked_n))]
fn marked_n(alloc: Global, reader: &mut Reader<'_>) -> Result<(i64, i64), Unread>
    ensures reads { Reads (λ x. (x.0, x.1)) (spec.marked_n reader.old) result reader.new }
    ensures within { length reader.new ≤ length reader.old }
{
    let token = reader.peek();
    let second = reader.second();
    if is_mark(b'+', token) && of_kind(CssKind::Ident, second) {
        let name = value(alloc, second)?;
        reader.advance();
        return with_n(reader, 1, name.as_str().as_bytes());
    }
    if is_step(token) {
        let name = unit(alloc, token)?;
        return with_n(reader, step(token), name.as_str().as_bytes());
    }
    if is_integer(token) {
        reader.advance();
        return Ok((0, integer(token)));
    }
    Err(Unread::NoReading)
}

/// Reads `odd`, `even`, a whole number, or An+B (css-syntax, 6): A and B. A number above 999,999,999 is read as that.
#[tactic(auto, unfolding(crate::specs::AnPlusB::an_plus_b))]
pub(crate) fn an_plus_b(alloc: Global, reader: &mut Reader<'_>) -> Result<(i64, i64), Unread>
    ensures reads { Reads (λ x. (x.0, x.1)) (spec.an_plus_b reader.old) result reader.new }
    ensures within { length reader.new ≤ length reader.old }
{
    let token = reader.peek();
    if is_named(CssKind::Ident, token, "odd") {
        reader.advance();
        return Ok((2, 1));
    }
    if is_named(CssKind::Ident, token, "even") {
        reader.advance();
        return Ok((2, 0));
    }
    if of_kind(CssKind::Ident, token) {
        let name = value(alloc, token)?;
        return named_n(reader, name.as_str().as_bytes());
    }
    marked_n(alloc, reader)
}
