//! How the number of a counter is printed (CSS 2.1, 12.4.2).

ghost use Rattle.std.specs.Prelude.{◌≡◌, ◌+◌, ◌<◌, ◌≤◌, ◌++◌, [], IfOk, OnOk, OnErr, string_bytes};
ghost use Rattle.std.specs.Fmt.{signed_decimal};
ghost use Rattle.counters.specs.Numerals.{bullet_of, is_among, is_numeral, letters, roman, roman_digit, numeral_of, with_zero, in_roman, in_letters, IsLonger};

use bk_num::name::NoMem;
use bk_num::values::NumStyle;
use itoa::Buffer;
use std::alloc::{AllocError, Global};

/// The letters for 1, 5, 10, 50, 100, 500 and 1000.
#[derive(Clone, Copy, Debug)]
pub struct RomanLetters {
    pub i: u8,
    pub v: u8,
    pub x: u8,
    pub l: u8,
    pub c: u8,
    pub d: u8,
    pub m: u8,
}

const LOWER_ROMAN: RomanLetters = RomanLetters {
    i: b'i',
    v: b'v',
    x: b'x',
    l: b'l',
    c: b'c',
    d: b'd',
    m: b'm',
};

const UPPER_ROMAN: RomanLetters = RomanLetters {
    i: b'I',
    v: b'V',
    x: b'X',
    l: b'L',
    c: b'C',
    d: b'D',
    m: b'M',
};

/// Whether a style prints numbers, and not a bullet or nothing.
pub fn is_numeral(style: NumStyle) -> bool
    ensures { result ≡ is_numeral style }
{
    match style {
        NumStyle::Disc | NumStyle::Circle | NumStyle::Square | NumStyle::Nothing => false,
        _ => true,
    }
}

/// What a style prints in place of a number, nothing where it prints numbers (CSS 2.1, 12.4.2).
pub fn bullet(style: NumStyle) -> &'static str
    ensures { result.now ≡ bullet_of style }
{
    match style {
        NumStyle::Disc => "•",
        NumStyle::Circle => "◦",
        NumStyle::Square => "▪",
        _ => "",
    }
}

/// Appends a number in a style; outside the style's range it is printed as decimal.
///
/// # Errors
///
/// `NoMem`, and then `into` is as before.
pub fn numeral(n: i64, style: NumStyle, into: &mut Vec<u8>) -> Result<(), NoMem>
    ensures ok { OnOk result (into.new.items ≡ into.old.items ++ numeral_of style n) }
    ensures err { OnErr result (into.new.items ≡ into.old.items) }
{
    let before = into.len();
    if push(n, style, into).is_err() {
        into.truncate(before);
        return Err(NoMem);
    }
    Ok(())
}

/// The text of a number in a style; outside the style's range it is printed as decimal.
///
/// # Errors
///
/// `NoMem`.
pub fn numeral_text(alloc: Global, n: i64, style: NumStyle) -> Result<String, NoMem>
    ensures { IfOk result (λ text. string_bytes text ≡ numeral_of style n) }
{
    let mut bytes = Vec::new(alloc);
    numeral(n, style, &mut bytes)?;
    match String::from_utf8(bytes) {
        Ok(text) => Ok(text),
        Err(_) => unreachable!(),
    }
}

/// Appends a number in a style, or a part of it.
fn push(n: i64, style: NumStyle, into: &mut Vec<u8>) -> Result<(), AllocError>
    ensures ok { OnOk result (into.new.items ≡ into.old.items ++ numeral_of style n) }
    ensures longer { IsLonger into.old.items into.new.items }
{
    match style {
        NumStyle::Decimal => push_decimal(n, into),
        NumStyle::LeadingZero => push_with_zero(n, into),
        NumStyle::LowerRoman => push_roman(n, LOWER_ROMAN, into),
        NumStyle::UpperRoman => push_roman(n, UPPER_ROMAN, into),
        NumStyle::LowerAlpha => push_letters(n, b'a', into),
        NumStyle::UpperAlpha => push_letters(n, b'A', into),
        NumStyle::Disc | NumStyle::Circle | NumStyle::Square | NumStyle::Nothing => {
            push_bytes(bullet(style).as_bytes(), into)
        }
    }
}

fn push_bytes(bytes: &[u8], into: &mut Vec<u8>) -> Result<(), AllocError>
    ensures ok { OnOk result (into.new.items ≡ into.old.items ++ bytes.now) }
    ensures longer { IsLonger into.old.items into.new.items }
{
    into.extend_from_slice(bytes)
}

fn push_decimal(n: i64, into: &mut Vec<u8>) -> Result<(), AllocError>
    ensures ok { OnOk result (into.new.items ≡ into.old.items ++ signed_decimal n) }
    ensures longer { IsLonger into.old.items into.new.items }
{
    let mut buffer = Buffer::new();
    push_bytes(buffer.format(n).as_bytes(), into)
}

/// Appends a number with a zero before a single digit.
fn push_with_zero(n: i64, into: &mut Vec<u8>) -> Result<(), AllocError>
    ensures ok { OnOk result (into.new.items ≡ into.old.items ++ with_zero n) }
    ensures longer { IsLonger into.old.items into.new.items }
{
    if is_among(n, 0, 9) {
        push_bytes(b"0", into)?;
    }
    push_decimal(n, into)
}

/// Whether a number is from `low` to `high`.
fn is_among(n: i64, low: u16, high: u16) -> bool
    ensures { result ≡ is_among n low high }
{
    n >= low as i64 && n <= high as i64
}

/// Appends a number in roman letters from 1 to 3999, else as decimal.
fn push_roman(n: i64, letters: RomanLetters, into: &mut Vec<u8>) -> Result<(), AllocError>
    ensures ok { OnOk result (into.new.items ≡ into.old.items ++ in_roman letters n) }
    ensures longer { IsLonger into.old.items into.new.items }
{
    if is_among(n, 1, 3999) {
        push_digits(n as u16, letters, into)
    } else {
        push_decimal(n, into)
    }
}

/// Appends the digits of a number in roman letters, from the thousands on.
fn push_digits(n: u16, letters: RomanLetters, into: &mut Vec<u8>) -> Result<(), AllocError>
    requires { n < 4000 }
    ensures ok { OnOk result (into.new.items ≡ into.old.items ++ roman letters n) }
    ensures longer { IsLonger into.old.items into.new.items }
{
    let RomanLetters {
        i,
        v,
        x,
        l,
        c,
        d,
        m,
    } = letters;
    push_digit(n / 1000, m, m, m, into)?;
    push_digit(n / 100 % 10, c, d, m, into)?;
    push_digit(n / 10 % 10, x, l, c, into)?;
    push_digit(n % 10, i, v, x, into)
}

/// Appends a decimal digit in the letters for one, five and ten of its place.
fn push_digit(digit: u16, one: u8, five: u8, ten: u8, into: &mut Vec<u8>) -> Result<(), AllocError>
    requires { digit < 10 }
    ensures ok { OnOk result (into.new.items ≡ into.old.items ++ roman_digit one five ten digit) }
    ensures longer { IsLonger into.old.items into.new.items }
{
    match digit {
        0 => push_bytes(&[], into),
        1 => push_bytes(&[one], into),
        2 => push_bytes(&[one, one], into),
        3 => push_bytes(&[one, one, one], into),
        4 => push_bytes(&[one, five], into),
        5 => push_bytes(&[five], into),
        6 => push_bytes(&[five, one], into),
        7 => push_bytes(&[five, one, one], into),
        8 => push_bytes(&[five, one, one, one], into),
        _ => push_bytes(&[one, ten], into),
    }
}

/// Appends a number from 1 on in the 26 letters from `first` on, else as decimal.
fn push_letters(n: i64, first: u8, into: &mut Vec<u8>) -> Result<(), AllocError>
    requires { first ≤ 97 }
    ensures ok { OnOk result (into.new.items ≡ into.old.items ++ in_letters first n) }
    ensures longer { IsLonger into.old.items into.new.items }
{
    if n > 0 {
        push_places(n as u64, first, into)
    } else {
        push_decimal(n, into)
    }
}

/// Appends the letters of a number, none for 0. There are at most 14.
fn push_places(n: u64, first: u8, into: &mut Vec<u8>) -> Result<(), AllocError>
    requires { first ≤ 97 }
    ensures ok { OnOk result (into.new.items ≡ into.old.items ++ letters first n) }
    ensures longer { IsLonger into.old.items into.new.items }
{
    if n == 0 {
        return Ok(());
    }
    push_places((n - 1) / 26, first, into)?;
    push_bytes(&[first + ((n - 1) % 26) as u8], into)
}
