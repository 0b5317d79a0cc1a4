//! The numbers of tokens, and their units (css-syntax, 4.3.13).

ghost use Rattle.std.specs.Prelude.{◌≡◌, ◌<◌, ◌≤◌, ◌^◌, ◌+◌, ◌*◌, length, unsigned_abs, true, IsTrue};
ghost use Rattle.std.specs.Char.{is_ascii_digit, digit_value};
ghost use Rattle.std.specs.List.{list_all};
ghost use Rattle.std.specs.Str.Parse.{digits_value};
ghost use Rattle.bk_num.specs.Written.{most_whole};
ghost use Rattle.css_tok.specs.Numbers as spec;

use crate::lengths::{Class, number_len, run_len, sign_len};
use crate::tokens::CssToken;
use bk_num::chars::byte;
use bk_num::decimal::Decimal;
use bk_num::written::MOST_WHOLE;

/// The digits at the start of a text.
#[tactic(auto, using(crate::proofs::NumberLemmas::digits_are))]
fn digits_at(text: &[u8]) -> &[u8]
    ensures value { result.now ≡ spec.digits_at text.now }
    ensures digits { list_all is_ascii_digit result.now ≡ true }
{
    &text[..run_len(Class::Digit, text)]
}

/// What follows them.
fn past_digits(text: &[u8]) -> &[u8]
    ensures { result.now ≡ spec.past_digits text.now }
{
    &text[run_len(Class::Digit, text)..]
}

/// The digits after the point, up to six.
#[tactic(auto, unfolding(crate::specs::Numbers::decimals))]
fn decimals(text: &[u8]) -> &[u8]
    ensures value { result.now ≡ spec.decimals text.now }
    ensures few { length result.now ≤ 6 }
    ensures digits { list_all is_ascii_digit result.now ≡ true }
{
    let rest = past_digits(text);
    if byte(rest, 0) != b'.' {
        return &[];
    }
    let digits = digits_at(&rest[1..]);
    if digits.len() > 6 {
        &digits[..6]
    } else {
        digits
    }
}

/// What a digit stands for.
#[tactic(auto, using(crate::proofs::NumberLemmas::digit_is))]
fn digit(b: u8) -> u64
    requires { is_ascii_digit b ≡ true }
    ensures value { result ≡ digit_value b }
    ensures below { result < 10 }
{
    u64::from(b - b'0')
}

/// The number that at most six digits write.
#[tactic(auto, using(crate::proofs::NumberLemmas::digit_at))]
fn value_of(digits: &[u8]) -> u64
    requires digits { list_all is_ascii_digit digits.now ≡ true }
    requires few { length digits.now ≤ 6 }
    ensures value { result ≡ digits_value 10 digits.now }
    ensures below { result < 10 ^ length digits.now }
{
    let mut value = 0;
    for b in digits {
        value = value * 10 + digit(*b);
    }
    value
}

/// The integer part that digits write.
#[tactic(auto, using(crate::proofs::NumberLemmas::digit_at, crate::proofs::NumberLemmas::whole_more))]
fn whole_of(digits: &[u8]) -> u64
    requires { list_all is_ascii_digit digits.now ≡ true }
    ensures value { result ≡ spec.whole_of digits.now }
    ensures few { result ≤ most_whole }
{
    let mut value = 0;
    for b in digits {
        value = (value * 10 + digit(*b)).min(MOST_WHOLE);
    }
    value
}

#[tactic(auto, using(crate::proofs::NumberLemmas::small_is))]
fn scaled(whole: &[u8], part: &[u8]) -> u64
    requires whole { list_all is_ascii_digit whole.now ≡ true }
    requires part { list_all is_ascii_digit part.now ≡ true }
    requires few { length part.now ≤ 6 }
    ensures value { result ≡ spec.scaled whole.now part.now }
    ensures small { result < 10 ^ 15 }
{
    whole_of(whole) * 10u64.pow(part.len() as u32) + value_of(part)
}

fn signed(minus: bool, value: u64) -> i64
    requires { value < 10 ^ 15 }
    ensures value { result ≡ spec.signed minus value }
    ensures small { unsigned_abs result < 10 ^ 15 }
{
    if minus { -(value as i64) } else { value as i64 }
}

/// The number at the start of a text.
#[tactic(auto, unfolding(crate::specs::Numbers::decimal_of))]
fn decimal_of(text: &[u8]) -> Decimal
    ensures { result ≡ spec.decimal_of text.now }
{
    let rest = &text[sign_len(text)..];
    let part = decimals(rest);
    let units = signed(byte(text, 0) == b'-', scaled(digits_at(rest), part));
    Decimal::new(units, part.len() as u8)
}

/// What follows the number at the start of a text.
#[tactic(auto, using(crate::proofs::Boundaries::number_cut), unfolding(crate::specs::Numbers::unit_of))]
fn unit_of(text: &str) -> &str
    ensures { result.now ≡ spec.unit_of text.now }
{
    text.split_at(number_len(text.as_bytes())).1
}

impl<'a> CssToken<'a> {
    /// The number of a `Number`, `Percent` or `Dimension`, with as many places as decimals are written. An
    /// integer part above 999,999,999 is read as that, and decimals after the sixth are dropped.
    pub fn decimal(&self) -> Decimal
        requires { IsTrue (spec.is_numeric_kind self.now.kind) }
        ensures { result ≡ spec.decimal_of self.now.slice.now }
    {
        decimal_of(self.slice.as_bytes())
    }

    /// The unit of a `Dimension`, its escapes as they stand: what follows the number that the token begins
    /// with.
    pub fn unit(&self) -> &'a str
        ensures { result.now ≡ spec.unit_of self.now.slice.now }
    {
        unit_of(self.slice)
    }
}
