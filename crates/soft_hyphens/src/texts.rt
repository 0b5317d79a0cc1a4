//! The texts that stand one after the other in one text, with soft hyphens.

ghost use Rattle.std.specs.Prelude.{◌≡◌, ◌++◌, ℕ, Bool, false, List, length, nat_le, IfOk, OnOk};
ghost use Rattle.std.specs.List.{All, prefix_len, slice_range};
ghost use Rattle.std.specs.Str.{IsCharBoundary};
ghost use Rattle.inline_text.specs.Joined.{ends_from, joined, laid_texts};
ghost use Rattle.soft_hyphens.specs.Hyphenated.{put_in};
ghost use Rattle.soft_hyphens.specs.Pass.{chars_in, offsets_in, soft_bytes, softened};

use bk_num::chars::SOFT_HYPHEN;
use bk_num::name::NoMem;
use inline_text::joined::JoinedText;
use std::alloc::Global;

/// How many bytes a soft hyphen has.
const SOFT_BYTES: usize = 2;

/// What stands between two offsets of a text; nothing where the second isn't after the first.
pub(crate) fn piece(text: &str, from: usize, to: usize) -> &str
    requires from { IsCharBoundary text.now from }
    requires to { IsCharBoundary text.now to }
    ensures { result.now ≡ slice_range text.now from to }
{
    if from < to { &text[from..to] } else { "" }
}

/// Puts some text, and a soft hyphen after it.
fn put_part(made: &mut JoinedText, number: usize, part: &str) -> Result<(), NoMem>
    requires { length made.old.ends ≡ number }
    ensures ends { OnOk result (made.new.ends ≡ made.old.ends) }
    ensures bytes { OnOk result (made.new.bytes ≡ made.old.bytes ++ (part.now ++ soft_bytes)) }
{
    made.push_str(number, part)?;
    made.push(number, SOFT_HYPHEN)?;
    Ok(())
}

/// Puts what stands between two offsets of a text, with a soft hyphen at each of some offsets between them.
fn put_text(
    made: &mut JoinedText,
    number: usize,
    text: &str,
    from: usize,
    offsets: &[usize],
    to: usize,
) -> Result<(), NoMem>
    requires number { length made.old.ends ≡ number }
    requires from { IsCharBoundary text.now from }
    requires between { All (IsCharBoundary text.now) offsets.now }
    requires to { IsCharBoundary text.now to }
    ensures ends { OnOk result (made.new.ends ≡ made.old.ends) }
    ensures bytes { OnOk result (made.new.bytes ≡ made.old.bytes ++ softened text.now from offsets.now to) }
{
    let mut put = from;
    for offset in offsets {
        put_part(made, number, piece(text, put, *offset))?;
        put = *offset;
    }
    made.push_str(number, piece(text, put, to))
}

/// How many of some offsets at the front aren't after another one.
fn count_upto(offsets: &[usize], end: usize) -> usize
    ensures { result ≡ prefix_len (λ o. nat_le o end) offsets.now }
{
    let mut count = 0;
    while count < offsets.len() && offsets[count] <= end {
        count += 1;
    }
    count
}

/// Texts that stand one after the other in a text and end at some offsets, with a soft hyphen at each of others, at the
/// end of the text before it.
pub(crate) fn put_texts(
    alloc: Global,
    text: &str,
    ends: &[usize],
    offsets: &[usize],
) -> Result<JoinedText, NoMem>
    requires ends { All (IsCharBoundary text.now) ends.now }
    requires offsets { All (IsCharBoundary text.now) offsets.now }
    ensures { (here : ℕ → Bool) (ts : List (List ℕ)) → text.now ≡ joined ts → ends.now ≡ ends_from 0 ts →
        here 0 ≡ false → offsets.now ≡ offsets_in here (chars_in ts) →
        IfOk result (λ made. made ≡ laid_texts (put_in here 0 ts)) }
{
    let mut made = JoinedText::new(alloc, text.len() + SOFT_BYTES * offsets.len())?;
    let mut at = 0;
    let mut rest = offsets;
    for index in 0..ends.len() {
        let end = ends[index];
        let (here, after) = rest.split_at(count_upto(rest, end));
        put_text(&mut made, index, text, at, here, end)?;
        made.reach(index + 1)?;
        at = end;
        rest = after;
    }
    Ok(made)
}
