//! Texts of a report.

ghost use Rattle.std.specs.Prelude.{◌≡◌, ◌≤◌, ◌++◌, decimal, length, OnOk};
ghost use Rattle.std.specs.List.{flat_map};
ghost use Rattle.bk_io.specs.Escapes.{shown_byte};
ghost use Rattle.unread.specs.Report as spec;

use bk_io::escape::shown_byte;
use bk_num::name::NoMem;
use css_tok::lengths::is_blank;
use itoa::Buffer;

/// Appends a text.
pub(crate) fn push(out: &mut Vec<u8>, text: &str) -> Result<(), NoMem>
    ensures { OnOk result (out.new.items ≡ out.old.items ++ text.now) }
{
    Ok(out.extend_from_slice(text.as_bytes())?)
}

/// Appends a number.
pub(crate) fn push_number(out: &mut Vec<u8>, number: u64) -> Result<(), NoMem>
    ensures { OnOk result (out.new.items ≡ out.old.items ++ decimal number) }
{
    let mut buffer = Buffer::new();
    push(out, buffer.format(number))
}

/// How long the first line of a text is.
fn line_len(text: &[u8]) -> usize
    ensures value { result ≡ spec.line_len text.now }
    ensures within { result ≤ length text.now }
{
    let mut len = 0;
    while len < text.len() && text[len] != b'\n' {
        len += 1;
    }
    len
}

/// How many of the first bytes are left without the white space at their end.
#[tactic(auto, unfolding(crate::specs::Report::trimmed_len))]
fn trimmed_len(text: &[u8], len: usize) -> usize
    requires { len ≤ length text.now }
    ensures value { result ≡ spec.trimmed_len text.now len }
    ensures within { result ≤ len }
{
    let mut end = len;
    while 0 < end && is_blank(text[end - 1]) {
        end -= 1;
    }
    end
}

/// Appends bytes as a line shows them.
fn push_bytes(out: &mut Vec<u8>, bytes: &[u8]) -> Result<(), NoMem>
    ensures { OnOk result (out.new.items ≡ out.old.items ++ flat_map shown_byte bytes.now) }
{
    for b in bytes {
        out.extend_from_slice(shown_byte(*b).as_slice())?;
    }
    Ok(())
}

/// Appends what a line shows of a text.
pub(crate) fn push_shown(out: &mut Vec<u8>, text: &str) -> Result<(), NoMem>
    ensures { OnOk result (out.new.items ≡ out.old.items ++ spec.shown text.now) }
{
    let bytes = text.as_bytes();
    let len = trimmed_len(bytes, line_len(bytes));
    push_bytes(out, &bytes[..len])
}
