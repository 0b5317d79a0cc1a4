//! Where a line begins as it would in the line before it.

ghost use Rattle.std.specs.Prelude.{◌≡◌, ◌<◌, length};
ghost use Rattle.line_fill.specs.Rests.{begins_plain};

use bk_num::chars::byte;

/// Whether the character that begins at a place of a text is none of a space, a newline, a soft hyphen and a zero width
/// space.
#[tactic(auto, unfolding(crate::specs::Rests::begins_plain))]
pub(crate) fn begins_plain(bytes: &[u8], at: usize) -> bool
    requires { at < length bytes.now }
    ensures { result ≡ begins_plain bytes.now at }
{
    match bytes[at] {
        b' ' | b'\n' => false,
        194 => byte(bytes, at + 1) != 173,
        226 => byte(bytes, at + 1) != 128 || byte(bytes, at + 2) != 139,
        _ => true,
    }
}
