//! What begins at a place, and where text ends.
ghost use Rattle.std.specs.Prelude.{◌≡◌, ◌<◌, length, codes};
ghost use Rattle.html_tok.specs.Fields.{opening_in, end_in};
ghost use Rattle.html_tok.specs.Pieces.{opening_of, ends_at, text_len, len_through, dashes};

use crate::raw::ends_raw;
use memchr::{memchr, memmem};

/// What begins at a place.
#[derive(Clone, Copy)]
pub(crate) enum Opening {
    Comment,
    Bogus,
    End,
    Start,
    Text,
}

/// What begins at the start of these bytes.
#[tactic(auto, unfolding(crate::specs::Pieces::opening_of))]
pub(crate) fn what_begins(rest: &[u8]) -> Opening
    ensures { opening_in result ≡ opening_of rest.now }
{
    if rest.starts_with(b"<!--") {
        return Opening::Comment;
    }
    match rest {
        [b'<', b'!', ..] => Opening::Bogus,
        [b'<', b'?', ..] => Opening::Bogus,
        [b'<', b'/', c, ..] if c.is_ascii_alphabetic() => Opening::End,
        [b'<', b'/', ..] => Opening::Bogus,
        [b'<', c, ..] if c.is_ascii_alphabetic() => Opening::Start,
        _ => Opening::Text,
    }
}

/// What ends a text.
#[derive(Clone, Copy)]
pub(crate) enum Until {
    Markup,
    /// The end tag of the element of this name.
    EndOf(&'static str),
}

impl Until {
    /// Whether text ends at the start of these bytes.
    fn is_at(self, rest: &[u8]) -> bool
        ensures { result ≡ ends_at (end_in self) rest.now }
    {
        match self {
            Until::Markup => !matches!(what_begins(rest), Opening::Text),
            Until::EndOf(name) => ends_raw(rest, name),
        }
    }
}

/// How many bytes come before the place where text ends.
pub(crate) fn length_of_text(rest: &[u8], until: Until) -> usize
    ensures { result ≡ text_len (end_in until) rest.now }
{
    let mut from = 0;
    while let Some(found) = memchr(b'<', &rest[from..]) {
        let at = from + found;
        if until.is_at(&rest[at..]) {
            return at;
        }
        from = at + 1;
    }
    rest.len()
}

/// How many bytes there are up to and with the first occurrence, or to the end.
pub(crate) fn length_through(rest: &[u8], needle: &[u8]) -> usize
    requires { 0 < length needle.now }
    ensures { result ≡ len_through needle.now rest.now }
{
    match memmem::find(rest, needle) {
        Some(at) => at + needle.len(),
        None => rest.len(),
    }
}

/// How many bytes there are up to and with the first `-->`, or to the end.
pub(crate) fn length_through_comment(rest: &[u8]) -> usize
    ensures { result ≡ len_through (codes "-->") rest.now }
{
    let mut from = 0;
    while let Some(found) = memchr(b'>', &rest[from..]) {
        let at = from + found;
        if ends_comment(rest, at) {
            return at + 1;
        }
        from = at + 1;
    }
    rest.len()
}

/// Whether the `>` at a place ends a comment: `--` comes before it.
fn ends_comment(rest: &[u8], at: usize) -> bool
    requires { at < length rest.now }
    ensures { result ≡ dashes rest.now at }
{
    at >= 2 && rest[at - 1] == b'-' && rest[at - 2] == b'-'
}
