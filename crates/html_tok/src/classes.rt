//! Splits a text before the first byte of a class.
ghost use Rattle.std.specs.Prelude.{◌≡◌};
ghost use Rattle.std.specs.List.{position, position_or_len, before_first};
ghost use Rattle.html_tok.specs.Classes.{from_first, is_between};
ghost use Rattle.html_tok.specs.Fields.{stops};

/// Where a part of a tag ends.
#[derive(Clone, Copy)]
pub(crate) enum Stop {
    NotSpace,
    NotBetween,
    Name,
    AttributeName,
    Value,
}

impl Stop {
    /// Whether a part ends before this byte.
    pub(crate) fn is_before(self, b: u8) -> bool
        ensures { result ≡ stops self b }
    {
        match self {
            Stop::NotSpace => !b.is_ascii_whitespace(),
            Stop::NotBetween => !is_between(b),
            Stop::Name => is_between(b) || b == b'>',
            Stop::AttributeName => is_between(b) || b == b'>' || b == b'=',
            Stop::Value => b.is_ascii_whitespace() || b == b'>',
        }
    }

    /// The place of the first byte before which a part ends, or the end.
    pub(crate) fn place(self, bytes: &[u8]) -> usize
        ensures { result ≡ position_or_len (stops self) bytes.now }
    {
        self.find(bytes).unwrap_or(bytes.len())
    }

    fn find(self, bytes: &[u8]) -> Option<usize>
        ensures { result ≡ position (stops self) bytes.now }
    {
        bytes.iter().position(|b| self.is_before(*b))
    }
}

fn is_between(b: u8) -> bool
    ensures { result ≡ is_between b }
{
    b.is_ascii_whitespace() || b == b'/'
}

/// The text before that place, and the text from there on.
pub(crate) fn split_before<'a>(text: &'a str, stop: Stop) -> (&'a str, &'a str)
    ensures front { result.0.now ≡ before_first (stops stop) text.entry.now }
    ensures back { result.1.now ≡ from_first (stops stop) text.entry.now }
{
    text.split_at(stop.place(text.as_bytes()))
}

/// The text from that place on.
pub(crate) fn skip_to<'a>(text: &'a str, stop: Stop) -> &'a str
    ensures { result.now ≡ from_first (stops stop) text.entry.now }
{
    &text[stop.place(text.as_bytes())..]
}
