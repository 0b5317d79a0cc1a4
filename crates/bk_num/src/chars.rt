//! Characters that more than one rule names. Specs name the same ones.

ghost use Rattle.std.specs.Prelude.{◌≡◌, ◌≤◌, length, slice_index};
ghost use Rattle.bk_num.specs.Chars as spec;
ghost use Rattle.bk_num.specs.Chars.{CharsAgree};

/// The hyphen that a line shows at its end: hyphen-minus, U+002D.
pub const HYPHEN: char = '-';

/// The soft hyphen, after which a line may end; it is shown as a hyphen there, and nowhere else.
pub const SOFT_HYPHEN: char = '\u{AD}';

/// The zero width space, after which a line may end.
pub const ZERO_WIDTH_SPACE: char = '\u{200B}';

/// Whether a soft hyphen ends at an offset of a text's bytes.
#[inline]
pub fn ends_soft_hyphen(bytes: &[u8], at: usize) -> bool
    requires { at ≤ length bytes.now }
    ensures { result ≡ spec.ends_soft_hyphen bytes.now at }
{
    2 <= at && bytes[at - 2] == 194 && bytes[at - 1] == 173
}

/// The byte at a place, and 0 past the end.
pub fn byte(text: &[u8], at: usize) -> u8
    ensures { result ≡ slice_index text.now at }
{
    if at < text.len() { text[at] } else { 0 }
}

/// Whether a byte is a quotation mark: attributes of HTML and strings of CSS stand between two of one kind.
pub fn is_quote(b: u8) -> bool
    ensures { result ≡ spec.is_quote b }
{
    matches!(b, b'"' | b'\'')
}

/// The characters are those that specs name.
pub fn chars_agree()
    ensures { CharsAgree }
{}
