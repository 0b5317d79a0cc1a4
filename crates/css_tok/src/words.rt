//! Compares names with words of CSS, without memory.

ghost use Rattle.std.specs.Prelude.{◌≡◌, option_map};
ghost use Rattle.css_tok.specs.Plain as spec;

use crate::plain::{escape, until_escape};

/// What is left of a word after a part of a text, ASCII case aside.
fn strip_part<'w>(word: &'w [u8], part: &[u8]) -> Option<&'w [u8]>
    ensures { spec.Strips (option_map (λ w. w.now) result) part.now word.now }
{
    if word.len() < part.len() {
        return None;
    }
    let (prefix, left) = word.split_at(part.len());
    if part.eq_ignore_ascii_case(prefix) {
        Some(left)
    } else {
        None
    }
}

/// The same for what an escape stands for.
fn strip_escape<'w>(word: &'w [u8], character: Option<char>) -> Option<&'w [u8]>
    ensures { spec.Strips (option_map (λ w. w.now) result) (spec.bytes_of character) word.now }
{
    match character {
        None => strip_part(word, b""),
        Some(character) => {
            let mut buffer = [0; 4];
            strip_part(word, character.encode_utf8(&mut buffer).as_bytes())
        }
    }
}

/// Whether a name with its escapes undone is this word, ASCII case aside (CSS 2.1, 4.1.3).
pub fn is_word(name: &str, word: &str) -> bool
    ensures { result ≡ spec.is_word name.now word.now }
{
    let mut rest = name;
    let mut left = word.as_bytes();
    'parts: loop {
        let (prefix, after) = until_escape(rest);
        let Some(past_prefix) = strip_part(left, prefix.as_bytes()) else {
            return false;
        };
        let Some(after) = after else {
            return past_prefix.is_empty();
        };
        let (character, len) = escape(after);
        let Some(past_escape) = strip_escape(past_prefix, character) else {
            return false;
        };
        left = past_escape;
        rest = after.split_at(len).1;
    }
}
