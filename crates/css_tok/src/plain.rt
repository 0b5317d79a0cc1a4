//! Undoes the escapes of a text.

ghost use Rattle.std.specs.Prelude.{◌≡◌, ◌++◌, ◌+◌, ◌≤◌, ◌<◌, length, take, drop, slice_index, string_bytes, IfOk, MatchOption, true};
ghost use Rattle.std.specs.Char.{is_ascii_hexdigit};
ghost use Rattle.std.specs.Str.{IsCharBoundary, IsUtf8};
ghost use Rattle.std.specs.Str.Parse.{IsNumeral, digits_value};
ghost use Rattle.bk_num.specs.Written.{character_of};
ghost use Rattle.css_tok.specs.Lengths as lengths;
ghost use Rattle.css_tok.specs.Plain as spec;

use crate::lengths::{Class, escape_len, hex_len, is_newline, newline_len, run_len};
use bk_num::chars::byte;
use bk_num::name::{Name, NoMem};
use bk_num::written::character_of;
use std::alloc::Global;

/// The text up to the first `\`, and what follows that, if there is one.
pub(crate) fn until_escape(text: &str) -> (&str, Option<&str>)
    ensures parts { MatchOption result.1 (spec.plain_of text.now ≡ result.0.now)
        (λ after. spec.plain_of text.now ≡ result.0.now ++ (spec.escaped after.now
        ++ spec.plain_from (lengths.quoted_len after.now) after.now)) }
    ensures shorter { MatchOption result.1 (0 ≤ length text.now) (λ after. length after.now < length text.now) }
{
    let (prefix, rest) = text.split_at(run_len(Class::Plain, text.as_bytes()));
    if rest.is_empty() {
        return (prefix, None);
    }
    (prefix, Some(rest.split_at(1).1))
}

/// The character that hexadecimal digits name.
fn character(digits: &str) -> char
    requires few { length digits.now ≤ 6 }
    requires hex { IsNumeral 16 digits.now }
    ensures { result ≡ character_of (digits_value 16 digits.now) }
{
    match u32::from_str_radix(digits, 16) {
        Ok(number) => character_of(number),
        Err(_) => '\u{FFFD}',
    }
}

/// The length of an escape of hexadecimal digits, and how many digits it has.
fn hex_escape(text: &str) -> (usize, usize)
    requires { is_ascii_hexdigit (slice_index text.now 0) ≡ true }
    ensures len { result.0 ≡ lengths.quoted_len text.now }
    ensures digits { result.1 ≡ lengths.hex_len text.now }
    ensures cut { IsCharBoundary text.now result.0 }
    ensures cut_digits { IsCharBoundary text.now result.1 }
    ensures numeral { IsNumeral 16 (take result.1 text.now) }
    ensures few { result.1 ≤ 6 }
{
    (escape_len(text.as_bytes()), hex_len(text.as_bytes()))
}

/// What a `\` and the text after it stand for, and the place in that text where the plain text goes on.
pub(crate) fn escape(after: &str) -> (Option<char>, usize)
    ensures value { spec.escaped after.now ++ spec.plain_from (lengths.quoted_len after.now) after.now
        ≡ spec.bytes_of result.0 ++ spec.plain_of (drop result.1 after.now) }
    ensures cut { IsCharBoundary after.now result.1 }
{
    let b = byte(after.as_bytes(), 0);
    if b.is_ascii_hexdigit() {
        let (len, digits) = hex_escape(after);
        return (Some(character(after.split_at(digits).0)), len);
    }
    if is_newline(b) {
        return (None, newline_len(after.as_bytes()));
    }
    if after.is_empty() {
        return (Some('\\'), 0);
    }
    if b == b'\\' {
        return (Some('\\'), 1);
    }
    (None, 0)
}

/// Appends what a `\` and the text after it stand for, and answers the plain text that goes on.
fn push_escape<'a>(into: &mut String, after: &'a str) -> Result<&'a str, NoMem>
    ensures value { IfOk result (λ rest. string_bytes into.old
        ++ (spec.escaped after.now ++ spec.plain_from (lengths.quoted_len after.now) after.now)
        ≡ string_bytes into.new ++ spec.plain_of rest.now) }
    ensures within { IfOk result (λ rest. length rest.now ≤ length after.now) }
    ensures utf8 { IfOk result (λ rest. IsUtf8 rest.now) }
{
    let (character, len) = escape(after);
    if let Some(character) = character {
        into.push(character)?;
    }
    Ok(after.split_at(len).1)
}

/// A text with its escapes undone (CSS 2.1, 4.1.3): names, the inside of strings and the address of a
/// `Url`. `\` before a newline goes with it. 0, surrogates and numbers above 10FFFF become U+FFFD. A `\`
/// at the end of the text is no escape and stays.
pub fn plain(alloc: Global, slice: &str) -> Result<Name, NoMem>
    ensures { IfOk result (λ name. name ≡ spec.plain_of slice.now) }
{
    let mut text = String::new(alloc);
    let mut rest = slice;
    'parts: loop {
        let (prefix, after) = until_escape(rest);
        text.push_str(prefix)?;
        match after {
            None => return Ok(Name::from_string(text)),
            Some(after) => rest = push_escape(&mut text, after)?,
        }
    }
}
