//! Texts of files: which bytes are one, and what is dropped before they are read.

ghost use Rattle.std.specs.Prelude.{◌≡◌, ◌≤◌, length, MatchResult, string_bytes, is_ok};
ghost use Rattle.std.specs.Str.{is_utf8};
ghost use Rattle.std.specs.Str.Lossy.{utf8_valid_len};
ghost use Rattle.bk_io.specs.Texts.{unmarked, LongestPrefixIs};

/// U+FEFF, which may stand before a text to tell its encoding.
const MARK: &str = "\u{feff}";

/// The text without one U+FEFF at its start (Unicode, 23.8). It takes no memory.
#[tactic(auto, unfolding(crate::specs::Texts::unmarked))]
pub fn without_mark(text: &str) -> &str
    ensures value { result.now ≡ unmarked text.now }
    ensures shorter { length result.now ≤ length text.now }
{
    match text.strip_prefix(MARK) {
        Some(rest) => rest,
        None => text,
    }
}

/// Owns these bytes as a text exactly where they are UTF-8, or else tells the length of their longest prefix that is
/// UTF-8. It takes no memory.
pub fn text_from(bytes: Vec<u8>) -> Result<String, usize>
    ensures text { MatchResult result (λ t. string_bytes t ≡ bytes.items) (λ at. at ≡ utf8_valid_len bytes.items) }
    ensures utf8 { is_ok result ≡ is_utf8 bytes.items }
{
    match String::from_utf8(bytes) {
        Ok(text) => Ok(text),
        Err(e) => Err(e.utf8_error().valid_up_to()),
    }
}

/// Law: `utf8_valid_len` is the greatest length at which the prefix of the bytes is UTF-8.
pub fn longest_prefix()
    ensures { LongestPrefixIs utf8_valid_len }
{}
