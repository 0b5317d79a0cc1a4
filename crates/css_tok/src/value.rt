//! The part of a token that its value is written in.

ghost use Rattle.std.specs.Prelude.{◌≡◌, ◌<◌, ◌-◌};
ghost use Rattle.css_tok.specs.Lengths.{run_len};
ghost use Rattle.css_tok.specs.Value as spec;

use crate::kind::CssKind;
use crate::lengths::{Class, run_len};
use crate::tokens::CssToken;
use bk_num::chars::{byte, is_quote};

fn without_first(slice: &str, first: u8) -> &str
    requires { (0 < first) × (first < 128) }
    ensures { result.now ≡ spec.without_first first slice.now }
{
    if byte(slice.as_bytes(), 0) == first {
        slice.split_at(1).1
    } else {
        slice
    }
}

fn without_last(slice: &str, last: u8) -> &str
    requires { (0 < last) × (last < 128) }
    ensures { result.now ≡ spec.without_last last slice.now }
{
    let end = slice.len().saturating_sub(1);
    if byte(slice.as_bytes(), end) == last {
        slice.split_at(end).0
    } else {
        slice
    }
}

fn run(class: Class, text: &str) -> usize
    ensures { result ≡ run_len class text.now }
{
    run_len(class, text.as_bytes())
}

#[tactic(auto, unfolding(crate::specs::Value::in_quotes))]
fn in_quotes(slice: &str) -> &str
    ensures { result.now ≡ spec.in_quotes slice.now }
{
    let quote = byte(slice.as_bytes(), 0);
    if !is_quote(quote) {
        return slice;
    }
    let inside = slice.split_at(1).1;
    inside.split_at(run(Class::Quoted(quote), inside)).0
}

#[tactic(auto, unfolding(crate::specs::Value::past_blanks))]
fn past_blanks(text: &str) -> &str
    ensures { result.now ≡ spec.past_blanks text.now }
{
    text.split_at(run(Class::Blank, text)).1
}

#[tactic(auto, unfolding(crate::specs::Value::address))]
fn address(slice: &str) -> &str
    ensures { result.now ≡ spec.address slice.now }
{
    let bytes = slice.as_bytes();
    if byte(bytes, 3) != b'(' || !bytes[..3].eq_ignore_ascii_case(b"url") {
        return slice;
    }
    let inside = past_blanks(slice.split_at(4).1);
    inside.split_at(run(Class::Address, inside)).0
}

impl<'a> CssToken<'a> {
    /// The part of the token that its value is written in (css-syntax, 4), its escapes as they stand: a
    /// name without `@`, `#` or `(`, a string without its quotes, the address of a `Url` without the white
    /// space round it. Every other token is given whole. `plain` undoes the escapes of this part.
    #[tactic(auto, unfolding(crate::specs::Value::value_slice))]
    pub fn value_slice(&self) -> &'a str
        ensures { result.now ≡ spec.value_slice self.now.kind self.now.slice.now }
    {
        match self.kind {
            CssKind::Func => without_last(self.slice, b'('),
            CssKind::At => without_first(self.slice, b'@'),
            CssKind::Hash => without_first(self.slice, b'#'),
            CssKind::Str => in_quotes(self.slice),
            CssKind::Url => address(self.slice),
            _ => self.slice,
        }
    }
}
