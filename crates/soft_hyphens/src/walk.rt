//! A walk over the characters of a run, which keeps the offsets of the points of its words.

ghost use Rattle.std.specs.Prelude.{◌≡◌, ℕ, ◌+◌, ◌-◌, ◌≤◌, ◌<◌, ◌^◌, ◌++◌, ◌&&◌, ◌==◌, [], List, Some, false, true, nat_le, length, drop, map, slice_get, slice_index, IfOk, OnOk};
ghost use Rattle.std.specs.Char.{encode_utf8, len_utf8};
ghost use Rattle.std.specs.List.{All};
ghost use Rattle.std.specs.Str.{chars, IsCharBoundary};
ghost use Rattle.bk_num.specs.Chars.{soft_hyphen};
ghost use Rattle.bk_num.specs.Limits.{most_text_bytes};
ghost use Rattle.hyphen.specs.Meaning.{value_in};
ghost use Rattle.inline_text.specs.Joined.{ends_from, joined};
ghost use Rattle.soft_hyphens.specs.Known.{word_points};
ghost use Rattle.soft_hyphens.specs.Pass.{letters_with, offsets_before, offsets_in};
ghost use Rattle.soft_hyphens.specs.Walk.{IsIn, IsOver, after_letter, after_other, counts_by};
ghost use Rattle.soft_hyphens.specs.Words.{codes_of, is_of_word, is_put, is_soft, least_letters, letters_in, points_with};
ghost use Rattle.soft_hyphens.specs.declared.letter.Letter.{Letter};

use crate::hyphenator::{Hyphenator, LEAST_LETTERS};
use crate::letter::Letter;
use crate::texts::piece;
use crate::word::is_of_word;
use bk_num::chars::SOFT_HYPHEN;
use bk_num::name::NoMem;
use std::alloc::Global;

/// How many characters a word has at most that is hyphenated.
const MOST_LETTERS: usize = 64;

/// For how many bytes of text room is made for a soft hyphen.
const BYTES_A_POINT: usize = 8;

/// Whether a character is a soft hyphen.
fn is_soft_hyphen(c: char) -> bool
    ensures { result ≡ (c == soft_hyphen) }
{
    c == SOFT_HYPHEN
}

/// Where a walk over a run has come to: the byte offset and the place; and the word that it is in, by the offset and
/// the place where it begins, whether all of it so far is hyphenated, and whether a soft hyphen stands before it.
#[derive(Clone, Copy)]
pub(crate) struct Walk {
    at: usize,
    place: usize,
    from: usize,
    first: usize,
    auto: bool,
    after_soft: bool,
}

/// Adds the points of a word that begins at an offset.
fn push_points(offsets: &mut Vec<usize>, from: usize, points: &[u32]) -> Result<(), NoMem>
    requires { All (λ p. from + p < 2 ^ 64) points.now }
    ensures { OnOk result (offsets.new.items ≡ offsets.old.items ++ map (λ p. from + p) points.now) }
{
    for point in points {
        offsets.push(from + *point as usize)?;
    }
    Ok(())
}

/// Adds the points of a word that begins at an offset, by what is known of it or by the patterns.
fn push_word(
    alloc: Global,
    offsets: &mut Vec<usize>,
    from: usize,
    word: &str,
    hyphenator: &Hyphenator<'_>,
) -> Result<(), NoMem>
    requires stand { from + length word.now < 2 ^ 63 }
    requires few { length word.now ≤ most_text_bytes }
    ensures { OnOk result (offsets.new.items ≡ offsets.old.items ++
        map (λ p. from + p) (word_points (value_in hyphenator.now) word.now)) }
{
    match hyphenator.known(word) {
        Some(points) => push_points(offsets, from, points),
        None => {
            let points = hyphenator.ask(alloc, word)?;
            push_points(offsets, from, &points)
        }
    }
}

/// How many characters the word has that a walk is in.
fn word_len(walk: Walk) -> usize
    requires { walk.first ≤ walk.place }
    ensures { result ≡ walk.place - walk.first }
{
    walk.place - walk.first
}

/// Whether the word that a walk is in counts if it ends here: it isn't too long, all of it is hyphenated, and no soft
/// hyphen stands next to it.
fn counts(walk: Walk, before_soft: bool) -> bool
    requires { walk.first ≤ walk.place }
    ensures { result ≡ counts_by walk before_soft }
{
    word_len(walk) <= MOST_LETTERS && walk.auto && !walk.after_soft && !before_soft
}

/// Whether the word that a walk is in may have a point if it ends here: it counts, and isn't too short.
fn may_have_points(walk: Walk, before_soft: bool) -> bool
    requires { walk.first ≤ walk.place }
    ensures { result ≡ (nat_le least_letters (walk.place - walk.first) && counts_by walk before_soft) }
{
    LEAST_LETTERS <= word_len(walk) && counts(walk, before_soft)
}

/// Adds the points of the word that a walk is in, which ends here. `before_soft` is whether a soft hyphen stands after
/// it.
fn end_word(
    alloc: Global,
    text: &str,
    walk: Walk,
    before_soft: bool,
    offsets: &mut Vec<usize>,
    hyphenator: &Hyphenator<'_>,
) -> Result<(), NoMem>
    requires { IsIn text.now walk offsets.old.items }
    ensures stand { OnOk result (All (IsCharBoundary text.now) offsets.new.items) }
    ensures offsets { OnOk result ((ls : List Letter) →
        IsOver (points_with (value_in hyphenator.now)) ls text.now walk offsets.old.items →
        is_soft (slice_get ls walk.place) ≡ before_soft →
        is_of_word (slice_index (codes_of ls) walk.place) ≡ false → offsets.new.items ≡
        offsets_before (is_put (points_with (value_in hyphenator.now)) ls) (codes_of ls) (walk.place + 1)) }
{
    if !may_have_points(walk, before_soft) {
        return Ok(());
    }
    let word = &text[walk.from..walk.at];
    push_word(alloc, offsets, walk.from, word, hyphenator)
}

/// A walk past a character of a word.
fn past_letter(walk: Walk, letter: Letter) -> Walk
    requires at { walk.at < 2 ^ 63 }
    requires few { walk.place ≤ walk.at }
    ensures { result ≡ after_letter walk letter }
{
    Walk {
        at: walk.at + letter.code.len_utf8(),
        place: walk.place + 1,
        auto: walk.auto && letter.auto,
        ..walk
    }
}

/// A walk past a character that is none of a word: one may begin after it.
fn past_other(walk: Walk, letter: Letter) -> Walk
    requires at { walk.at < 2 ^ 63 }
    requires few { walk.place ≤ walk.at }
    ensures { result ≡ after_other walk letter }
{
    let at = walk.at + letter.code.len_utf8();
    let place = walk.place + 1;
    Walk {
        at,
        place,
        from: at,
        first: place,
        auto: true,
        after_soft: is_soft_hyphen(letter.code),
    }
}

/// Passes a character. Before one that is none of a word, a word ends.
fn pass_char(
    alloc: Global,
    text: &str,
    letter: Letter,
    walk: Walk,
    offsets: &mut Vec<usize>,
    hyphenator: &Hyphenator<'_>,
) -> Result<Walk, NoMem>
    requires walk { IsIn text.now walk offsets.old.items }
    requires next { drop walk.at text.now ≡
        encode_utf8 letter.code ++ drop (walk.at + len_utf8 letter.code) text.now }
    ensures walk { IfOk result (λ w. IsIn text.now w offsets.new.items) }
    ensures at { IfOk result (λ w. w.at ≡ walk.at + len_utf8 letter.code) }
    ensures place { IfOk result (λ w. w.place ≡ walk.place + 1) }
    ensures over { IfOk result (λ w. (ls : List Letter) →
        IsOver (points_with (value_in hyphenator.now)) ls text.now walk offsets.old.items →
        slice_get ls walk.place ≡ Some letter →
        IsOver (points_with (value_in hyphenator.now)) ls text.now w offsets.new.items) }
{
    if is_of_word(letter.code) {
        return Ok(past_letter(walk, letter));
    }
    end_word(
        alloc,
        text,
        walk,
        is_soft_hyphen(letter.code),
        offsets,
        hyphenator,
    )?;
    Ok(past_other(walk, letter))
}

/// Passes a piece of the text, which is hyphenated or not.
fn pass_piece(
    alloc: Global,
    text: &str,
    piece: &str,
    auto: bool,
    walk: Walk,
    offsets: &mut Vec<usize>,
    hyphenator: &Hyphenator<'_>,
) -> Result<Walk, NoMem>
    requires walk { IsIn text.now walk offsets.old.items }
    requires next { drop walk.at text.now ≡ piece.now ++ drop (walk.at + length piece.now) text.now }
    ensures walk { IfOk result (λ w. IsIn text.now w offsets.new.items) }
    ensures at { IfOk result (λ w. w.at ≡ walk.at + length piece.now) }
    ensures over { IfOk result (λ w. (ls more : List Letter) →
        IsOver (points_with (value_in hyphenator.now)) ls text.now walk offsets.old.items →
        drop walk.place ls ≡ letters_with auto (chars piece.now) ++ more →
        IsOver (points_with (value_in hyphenator.now)) ls text.now w offsets.new.items × (drop w.place ls ≡ more)) }
{
    let mut walk = walk;
    for code in piece.chars() {
        walk = pass_char(
            alloc,
            text,
            Letter { code, auto },
            walk,
            offsets,
            hyphenator,
        )?;
    }
    Ok(walk)
}

/// A walk that begins.
const FIRST: Walk = Walk {
    at: 0,
    place: 0,
    from: 0,
    first: 0,
    auto: true,
    after_soft: false,
};

/// The walk over texts that stand one after the other in a text and end at some offsets.
fn walk_over(
    alloc: Global,
    text: &str,
    ends: &[usize],
    autos: &[bool],
    offsets: &mut Vec<usize>,
    hyphenator: &Hyphenator<'_>,
) -> Result<Walk, NoMem>
    requires each { length ends.now ≡ length autos.now }
    requires stand { All (IsCharBoundary text.now) ends.now }
    requires none { offsets.old.items ≡ [] }
    ensures walk { IfOk result (λ w. IsIn text.now w offsets.new.items) }
    ensures over { (ts : List (List ℕ)) → text.now ≡ joined ts → ends.now ≡ ends_from 0 ts → IfOk result (λ w.
        IsOver (points_with (value_in hyphenator.now)) (letters_in autos.now ts) text.now w offsets.new.items ×
        (w.place ≡ length (letters_in autos.now ts))) }
{
    let mut walk = FIRST;
    for index in 0..autos.len() {
        let piece = piece(text, walk.at, ends[index]);
        walk = pass_piece(alloc, text, piece, autos[index], walk, offsets, hyphenator)?;
    }
    Ok(walk)
}

/// The byte offsets of the places of a run at which a soft hyphen is put, in order. Each character is passed once, and
/// a word is looked up where it ends.
pub(crate) fn offsets_of(
    alloc: Global,
    text: &str,
    ends: &[usize],
    autos: &[bool],
    hyphenator: &Hyphenator<'_>,
) -> Result<Vec<usize>, NoMem>
    requires each { length ends.now ≡ length autos.now }
    requires stand { All (IsCharBoundary text.now) ends.now }
    ensures stand { IfOk result (λ v. All (IsCharBoundary text.now) v.items) }
    ensures offsets { (ts : List (List ℕ)) → text.now ≡ joined ts → ends.now ≡ ends_from 0 ts → IfOk result (λ v.
        v.items ≡ offsets_in (is_put (points_with (value_in hyphenator.now)) (letters_in autos.now ts))
        (codes_of (letters_in autos.now ts))) }
{
    let mut offsets = Vec::with_capacity(alloc, text.len() / BYTES_A_POINT)?;
    let walk = walk_over(alloc, text, ends, autos, &mut offsets, hyphenator)?;
    end_word(alloc, text, walk, false, &mut offsets, hyphenator)?;
    Ok(offsets)
}
