//! Character references.
ghost use Rattle.std.specs.Prelude.{◌≡◌, ◌+◌, ◌<◌, ◌≤◌, length, map, min, nat_eq, IsTrue, not, drop, slice_index, ◌&&◌, ◌==◌};
ghost use Rattle.std.specs.List.{starts_with, position};
ghost use Rattle.std.specs.Char.{is_digit, digit_value};
ghost use Rattle.html_tree.specs.Words.{starting};
ghost use Rattle.html_tree.specs.Texts.{digits_len, number_of, numeric, closing_len, named, named_references, reference_at};

use bk_num::written::character_of;

// The named references that are read, each with its `;`, by the first letter of the name (HTML, 13.5).
const A: [(&str, char); 2] = [("amp", '&'), ("apos", '\'')];

const B: [(&str, char); 2] = [("bdquo", '\u{201E}'), ("bull", '\u{2022}')];

const C: [(&str, char); 1] = [("copy", '\u{A9}')];

const D: [(&str, char); 2] = [("deg", '\u{B0}'), ("dagger", '\u{2020}')];

const UPPER_D: [(&str, char); 1] = [("Dagger", '\u{2021}')];

const E: [(&str, char); 3] = [
    ("ensp", '\u{2002}'),
    ("emsp", '\u{2003}'),
    ("euro", '\u{20AC}'),
];

const G: [(&str, char); 1] = [("gt", '>')];

const H: [(&str, char); 1] = [("hellip", '\u{2026}')];

const L: [(&str, char); 4] = [
    ("lt", '<'),
    ("laquo", '\u{AB}'),
    ("lsquo", '\u{2018}'),
    ("ldquo", '\u{201C}'),
];

const M: [(&str, char); 2] = [("middot", '\u{B7}'), ("mdash", '\u{2014}')];

const N: [(&str, char); 2] = [("nbsp", '\u{A0}'), ("ndash", '\u{2013}')];

const P: [(&str, char); 2] = [("para", '\u{B6}'), ("prime", '\u{2032}')];

const UPPER_P: [(&str, char); 1] = [("Prime", '\u{2033}')];

const Q: [(&str, char); 1] = [("quot", '"')];

const R: [(&str, char); 4] = [
    ("reg", '\u{AE}'),
    ("raquo", '\u{BB}'),
    ("rsquo", '\u{2019}'),
    ("rdquo", '\u{201D}'),
];

const S: [(&str, char); 3] = [("shy", '\u{AD}'), ("sect", '\u{A7}'), ("sbquo", '\u{201A}')];

const T: [(&str, char); 3] = [
    ("times", '\u{D7}'),
    ("thinsp", '\u{2009}'),
    ("trade", '\u{2122}'),
];

const Z: [(&str, char); 2] = [("zwnj", '\u{200C}'), ("zwj", '\u{200D}')];

/// The least number that no character has.
const PAST: u32 = 0x110000;

/// A character, and how many bytes write it.
#[derive(Clone, Copy)]
pub(crate) struct Read {
    pub(crate) character: char,
    pub(crate) len: usize,
}

/// The reference at an `&`, or the `&` itself.
#[tactic(auto, unfolding(crate::specs::Texts::reference_at))]
pub(crate) fn reference_at(bytes: &[u8]) -> Read
    ensures character { result.character ≡ (reference_at bytes.now).code }
    ensures len { result.len ≡ (reference_at bytes.now).len }
{
    if byte_at(bytes, 1) != b'#' {
        return named(after(bytes, 1));
    }
    let mark = byte_at(bytes, 2);
    if mark == b'x' || mark == b'X' {
        return numeric(after(bytes, 3), 16, 3);
    }
    numeric(after(bytes, 2), 10, 2)
}

/// The byte at a place, and 0 past the end.
fn byte_at(bytes: &[u8], index: usize) -> u8
    ensures { result ≡ slice_index bytes.now index }
{
    match bytes.get(index) {
        Some(b) => *b,
        None => 0,
    }
}

/// The bytes after the first n.
fn after(bytes: &[u8], n: usize) -> &[u8]
    ensures { result.now ≡ drop n bytes.now }
{
    &bytes[n.min(bytes.len())..]
}

/// An `&` that begins no reference.
const PLAIN: Read = Read {
    character: '&',
    len: 1,
};

/// The number in these digits, after so many bytes.
#[tactic(auto, unfolding(crate::specs::Texts::numeric))]
fn numeric(bytes: &[u8], base: u32, lead: usize) -> Read
    requires base { (2 ≤ base) × (base ≤ 16) }
    requires lead { lead ≤ 3 }
    ensures character { result.character ≡ (numeric base lead bytes.now).code }
    ensures len { result.len ≡ (numeric base lead bytes.now).len }
{
    let count = count_of_digits(bytes, base);
    if count == 0 {
        return PLAIN;
    }
    let (digits, rest) = bytes.split_at(count);
    Read {
        character: character_of(number_of(digits, base)),
        len: lead + count + closing_len(rest),
    }
}

fn count_of_digits(bytes: &[u8], base: u32) -> usize
    ensures count { result ≡ digits_len base bytes.now }
    ensures within { result ≤ length bytes.now }
{
    past_digits(bytes, base).unwrap_or(bytes.len())
}

/// The place of the first byte that is no digit.
fn past_digits(bytes: &[u8], base: u32) -> Option<usize>
    ensures { result ≡ position (λ b. not (is_digit b base)) bytes.now }
{
    bytes.iter().position(|b| !is_digit(*b, base))
}

fn is_digit(b: u8, base: u32) -> bool
    ensures { result ≡ is_digit b base }
{
    digit_value(b) < base
}

/// The value of a digit or a letter, and 36 for any other byte.
fn digit_value(b: u8) -> u32
    ensures value { result ≡ digit_value b }
    ensures most { result ≤ 36 }
{
    match b {
        b'0'..=b'9' => b as u32 - 48,
        b'A'..=b'Z' => b as u32 - 55,
        b'a'..=b'z' => b as u32 - 87,
        _ => 36,
    }
}

/// The number that digits write, but for all numbers that no character has the least of them.
fn number_of(digits: &[u8], base: u32) -> u32
    requires { (2 ≤ base) × (base ≤ 16) }
    ensures { result ≡ min (number_of base digits.now) 1114112 }
{
    let mut number = 0;
    for b in digits {
        number = (number * base + digit_value(*b)).min(PAST);
    }
    number
}

fn closing_len(rest: &[u8]) -> usize
    ensures value { result ≡ closing_len rest.now }
    ensures most { result ≤ length rest.now }
{
    match rest {
        [b';', ..] => 1,
        _ => 0,
    }
}

/// The named reference that stands here with its `;`, or the `&` before it.
fn named(bytes: &[u8]) -> Read
    ensures character { result.character ≡ (named named_references bytes.now).code }
    ensures len { result.len ≡ (named named_references bytes.now).len }
{
    find_name(bytes, rows_of(byte_at(bytes, 0)))
}

/// The rows whose names begin with a byte.
fn rows_of(first: u8) -> &'static [(&'static str, char)]
    ensures { map (λ r. (r.0.now, r.1)) result.now ≡ starting first named_references }
{
    if first == b'a' {
        &A
    } else if first == b'b' {
        &B
    } else if first == b'c' {
        &C
    } else if first == b'd' {
        &D
    } else if first == b'D' {
        &UPPER_D
    } else if first == b'e' {
        &E
    } else if first == b'g' {
        &G
    } else if first == b'h' {
        &H
    } else if first == b'l' {
        &L
    } else if first == b'm' {
        &M
    } else if first == b'n' {
        &N
    } else if first == b'p' {
        &P
    } else if first == b'P' {
        &UPPER_P
    } else if first == b'q' {
        &Q
    } else if first == b'r' {
        &R
    } else if first == b's' {
        &S
    } else if first == b't' {
        &T
    } else if first == b'z' {
        &Z
    } else {
        &[]
    }
}

/// The row whose name stands here with its `;`.
fn find_name(bytes: &[u8], rows: &[(&str, char)]) -> Read
    ensures character { result.character ≡ (named (map (λ r. (r.0.now, r.1)) rows.now) bytes.now).code }
    ensures len { result.len ≡ (named (map (λ r. (r.0.now, r.1)) rows.now) bytes.now).len }
{
    match rows {
        [] => PLAIN,
        [(name, character), rest @ ..] => {
            if !is_closed_name(bytes, name.as_bytes()) {
                return find_name(bytes, rest);
            }
            Read {
                character: *character,
                len: 1 + name.len() + 1,
            }
        }
    }
}

fn is_closed_name(bytes: &[u8], name: &[u8]) -> bool
    ensures value { result ≡ (starts_with nat_eq bytes.now name.now
        && closing_len (drop (length name.now) bytes.now) == 1) }
    ensures len { IsTrue result → length name.now < length bytes.now }
{
    bytes.starts_with(name) && closing_len(&bytes[name.len()..]) == 1
}
