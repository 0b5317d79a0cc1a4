//! The texts that the bytes of tokens stand for.
ghost use Rattle.std.specs.Prelude.{◌≡◌, ◌++◌, ◌<◌, IfOk, OnOk, slice_index, string_bytes, IsTrue};
ghost use Rattle.memchr.specs.Find.{is_byte2};
ghost use Rattle.std.specs.List.{list_all};
ghost use Rattle.std.specs.Cow.{cow_str_bytes};
ghost use Rattle.html_tree.specs.Words.{stays};
ghost use Rattle.html_tree.specs.Texts.{normalized, normalized_byte, referred_after, text_of, name_of, reference_at};

use crate::references::reference_at;
use bk_num::name::NoMem;
use memchr::{memchr, memchr2};
use std::alloc::Global;
use std::borrow::CowStr;

/// The text of these bytes, with references read where there are any. It is copied only where it has something to mend.
#[tactic(auto, unfolding(crate::specs::Texts::text_of))]
pub(crate) fn text_of<'t>(
    alloc: Global,
    text: &'t str,
    references: bool,
) -> Result<CowStr<'t>, NoMem>
    ensures { IfOk result (λ s. cow_str_bytes s ≡ text_of references text.entry.now) }
{
    let normalized = normalized_of(alloc, text)?;
    if !references {
        return Ok(normalized);
    }
    if memchr(b'&', normalized.as_str().as_bytes()).is_none() {
        return Ok(normalized);
    }
    let mut read = String::new(alloc);
    read_references(&mut read, normalized.as_str())?;
    Ok(CowStr::Owned(read))
}

/// The text with its line ends normalized and without U+0000.
fn normalized_of<'t>(alloc: Global, text: &'t str) -> Result<CowStr<'t>, NoMem>
    ensures { IfOk result (λ s. cow_str_bytes s ≡ normalized text.entry.now) }
{
    if memchr2(b'\r', 0, text.as_bytes()).is_none() {
        return Ok(CowStr::Borrowed(text));
    }
    let mut out = String::new(alloc);
    normalize(&mut out, text)?;
    Ok(CowStr::Owned(out))
}

/// The name that these bytes stand for, in lower case. It is copied only where it isn't so already.
pub(crate) fn name_of<'t>(alloc: Global, name: &'t str) -> Result<CowStr<'t>, NoMem>
    ensures { IfOk result (λ s. cow_str_bytes s ≡ name_of name.entry.now) }
{
    if stays(name.as_bytes()) {
        return Ok(CowStr::Borrowed(name));
    }
    let mut lower = String::new(alloc);
    normalize(&mut lower, name)?;
    lower.make_ascii_lowercase();
    Ok(CowStr::Owned(lower))
}

/// Whether each byte of a name stays.
fn stays(name: &[u8]) -> bool
    ensures { result ≡ list_all stays name.now }
{
    name.iter().all(|b| byte_stays(*b))
}

fn byte_stays(b: u8) -> bool
    ensures { result ≡ stays b }
{
    b.to_ascii_lowercase() == b && !(b == b'\r' || b == 0)
}

/// Appends the text with its line ends normalized and without U+0000.
fn normalize(out: &mut String, text: &str) -> Result<(), NoMem>
    ensures { OnOk result (string_bytes out.new ≡ string_bytes out.old ++ normalized text.now) }
{
    let mut rest = text;
    while let Some(at) = memchr2(b'\r', 0, rest.as_bytes()) {
        out.push_str(&rest[..at])?;
        let begun = &rest[at..];
        push_normalized(out, begun.as_bytes())?;
        rest = &begun[1..];
    }
    out.push_str(rest)?;
    Ok(())
}

/// Appends what the first byte becomes, which is U+000D or U+0000.
fn push_normalized(out: &mut String, bytes: &[u8]) -> Result<(), NoMem>
    requires { IsTrue (is_byte2 13 0 (slice_index bytes.now 0)) }
    ensures { OnOk result (string_bytes out.new ≡ string_bytes out.old ++
        normalized_byte (slice_index bytes.now 0) (slice_index bytes.now 1)) }
{
    match bytes {
        [b'\r', b'\n', ..] => {}
        [b'\r', ..] => out.push('\n')?,
        _ => out.push('\u{FFFD}')?,
    }
    Ok(())
}

/// Appends the text with its references read.
fn read_references(out: &mut String, text: &str) -> Result<(), NoMem>
    ensures { OnOk result (string_bytes out.new ≡ string_bytes out.old ++ referred_after 0 text.now) }
{
    let mut rest = text;
    while let Some(at) = memchr(b'&', rest.as_bytes()) {
        out.push_str(&rest[..at])?;
        let begun = &rest[at..];
        let reference = reference_at(begun.as_bytes());
        out.push(reference.character)?;
        rest = &begun[reference.len..];
    }
    out.push_str(rest)?;
    Ok(())
}
