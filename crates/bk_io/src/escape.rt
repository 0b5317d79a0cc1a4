//! Bytes of a text as a line shows them: no control stands as it is.

ghost use Rattle.std.specs.Prelude.{◌≡◌, ◌<◌, not};
ghost use Rattle.std.specs.Char.{digit_char};
ghost use Rattle.std.specs.List.{list_all};
ghost use Rattle.bk_io.specs.Escapes as spec;

use std::marker::Model;

/// A byte as a line shows it: one to four bytes. Contracts see them.
#[derive(Drop)]
pub struct ShownByte {
    bytes: [u8; 4],
    count: usize,
}

impl Model for ShownByte {
    ghost use Rattle.std.specs.Prelude.{ℕ, List, take, ◌≤◌};

    ghost Value = { List ℕ };

    ghost view = { λ s. take s.count s.bytes };

    ghost invariant = { λ s. s.count ≤ 4 };
}

impl ShownByte {
    /// The bytes.
    pub fn as_slice(&self) -> &[u8]
        ensures { result.now ≡ self.now }
    {
        &self.bytes[..self.count]
    }
}

/// A hexadecimal digit in lower case.
pub fn hex_digit(n: u8) -> u8
    requires { n < 16 }
    ensures { result ≡ digit_char n }
{
    if n < 10 { b'0' + n } else { b'a' + (n - 10) }
}

/// Whether a byte is a control (ASCII): one below a space, or 127. No byte of a character that isn't ASCII is one.
#[tactic(auto, unfolding(crate::specs::Escapes::is_control))]
pub fn is_control(b: u8) -> bool
    ensures { result ≡ spec.is_control b }
{
    b < 32 || b == 127
}

/// A byte as a line shows it: LF as `\n`, another control as `\x` and two digits, and any other byte as it is.
#[tactic(auto, unfolding(crate::specs::Escapes::shown_byte, crate::specs::Escapes::hex_pair))]
pub fn shown_byte(b: u8) -> ShownByte
    ensures { result ≡ spec.shown_byte b }
{
    if b == b'\n' {
        return ShownByte {
            bytes: [b'\\', b'n', 0, 0],
            count: 2,
        };
    }
    if is_control(b) {
        return ShownByte {
            bytes: [b'\\', b'x', hex_digit(b / 16), hex_digit(b % 16)],
            count: 4,
        };
    }
    ShownByte {
        bytes: [b, 0, 0, 0],
        count: 1,
    }
}

/// Whether no byte of a text is a control, as in most texts. Such a text is shown as it is.
pub fn has_no_control(text: &str) -> bool
    ensures { result ≡ list_all (λ b. not (spec.is_control b)) text.now }
{
    text.as_bytes().iter().all(|b| !is_control(*b))
}
