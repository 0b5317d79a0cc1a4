//! The places at which the lines of a leaf may end (CSS Text 3, 5; UAX #14 and #29).

ghost use Rattle.std.specs.Prelude.{◌≡◌, ◌<◌, ◌≤◌, ◌^◌, ◌++◌, ◌∷◌, ◌&&◌, [], Bool, ℕ, length, slice_index_or, IfOk, OnOk, if◌then◌else◌};
ghost use Rattle.std.specs.List.{list_any};
ghost use Rattle.bk_num.specs.Limits.{most_text_bytes};
ghost use Rattle.boxes.specs.Contents.{AreOffsets, AreSpans};
ghost use Rattle.boxes.specs.Wraps.{wraps_anywhere};
ghost use Rattle.boxes.specs.declared.leaf.Span.{Span};
ghost use Rattle.inline_text.specs.Places as spec;
ghost use Rattle.inline_text.specs.Places.{ends_in, passes, wraps, opportunities_of, emergencies_of};

use bk_num::chars::{HYPHEN, SOFT_HYPHEN, ZERO_WIDTH_SPACE};
use bk_num::items::Items;
use bk_num::name::NoMem;
use boxes::leaf::{Offsets, Span};
use std::alloc::Global;
use unicode_segmentation::UnicodeSegmentation;

/// Whether a line may end between two characters.
fn is_break(before: char, next: char) -> bool
    ensures { result ≡ spec.is_break before next }
{
    matches!(
        before,
        ' ' | HYPHEN | SOFT_HYPHEN | ZERO_WIDTH_SPACE | '\u{2010}' | '\u{2013}' | '\u{2014}'
    ) && !matches!(next, ' ' | '\n')
}

/// How many spans end before an offset of a text.
fn count_before(text: &str, spans: &[Span], at: usize) -> usize
    requires { AreSpans text.now 0 spans.now }
    ensures within { result ≤ length spans.now }
    ensures before { (k : ℕ) (d : Span) → k < result → (slice_index_or spans.now k d).to < at }
    ensures after { (k : ℕ) (d : Span) → result ≤ k → k < length spans.now → at ≤ (slice_index_or spans.now k d).to }
{
    spans.partition_point(|span| (span.to as usize) < at)
}

/// The span of the character that ends at an offset of a text.
fn span_before(text: &str, spans: &[Span], at: usize) -> Option<Span>
    requires { AreSpans text.now 0 spans.now }
    ensures { (p : Span → Bool) → ends_in p spans.now at ≡ passes p result }
{
    match spans.get(count_before(text, spans, at)) {
        Some(span) if (span.from as usize) < at => Some(*span),
        _ => None,
    }
}

/// Whether the character that ends at an offset stands in a span that wraps.
fn wraps_before(text: &str, spans: &[Span], at: usize) -> bool
    requires { AreSpans text.now 0 spans.now }
    ensures { result ≡ ends_in wraps spans.now at }
{
    match span_before(text, spans, at) {
        Some(span) => span.wrap,
        None => false,
    }
}

/// Whether the character that ends at an offset stands in a span that wraps between any two graphemes.
fn wraps_anywhere_before(text: &str, spans: &[Span], at: usize) -> bool
    requires { AreSpans text.now 0 spans.now }
    ensures { result ≡ ends_in wraps_anywhere spans.now at }
{
    match span_before(text, spans, at) {
        Some(span) => span.wraps_anywhere(),
        None => false,
    }
}

/// Whether an offset between two characters is an ordinary place.
fn is_opportunity(text: &str, spans: &[Span], before: char, next: char, at: usize) -> bool
    requires { AreSpans text.now 0 spans.now }
    ensures { result ≡ spec.is_opportunity spans.now (record { before = before; next = next; at = at }) }
{
    is_break(before, next) && wraps_before(text, spans, at)
}

/// Adds an offset, if it is a place.
fn push_place(places: &mut Offsets, is_place: bool, at: usize) -> Result<(), NoMem>
    requires { at < 2 ^ 32 }
    ensures { OnOk result (places.new ≡ places.old ++ (if is_place then at ∷ [] else [])) }
{
    if is_place {
        places.push(at as u32)?;
    }
    Ok(())
}

fn ordinary(alloc: Global, text: &str, spans: &[Span]) -> Result<Offsets, NoMem>
    requires few { length text.now ≤ most_text_bytes }
    requires spans { AreSpans text.now 0 spans.now }
    ensures { IfOk result (λ places. places ≡ opportunities_of text.now spans.now) }
{
    let mut places = Items::of(Vec::with_capacity(alloc, text.len() / 4)?);
    let mut before = '\0';
    for (at, next) in text.char_indices() {
        let is_place = is_opportunity(text, spans, before, next, at);
        push_place(&mut places, is_place, at)?;
        before = next;
    }
    Ok(places)
}

/// Whether a span wraps between any two graphemes.
fn has_emergencies(spans: &[Span]) -> bool
    ensures { result ≡ list_any wraps_anywhere spans.now }
{
    spans.iter().any(|span| span.wraps_anywhere())
}

fn boundaries(alloc: Global, text: &str, spans: &[Span]) -> Result<Offsets, NoMem>
    requires few { length text.now ≤ most_text_bytes }
    requires spans { AreSpans text.now 0 spans.now }
    ensures { IfOk result (λ places. places ≡ emergencies_of text.now spans.now) }
{
    let mut places = Items::new(alloc);
    for (at, _) in text.grapheme_indices(true) {
        push_place(&mut places, wraps_anywhere_before(text, spans, at), at)?;
    }
    Ok(places)
}

fn emergency(alloc: Global, text: &str, spans: &[Span]) -> Result<Offsets, NoMem>
    requires few { length text.now ≤ most_text_bytes }
    requires spans { AreSpans text.now 0 spans.now }
    ensures { IfOk result (λ places. places ≡ emergencies_of text.now spans.now) }
{
    if has_emergencies(spans) {
        boundaries(alloc, text, spans)
    } else {
        Ok(Items::new(alloc))
    }
}

/// The ordinary places of a leaf's text and its emergency places, as ascending byte offsets of characters.
///
/// An ordinary place is an offset inside the text after a space, U+002D, U+00AD, U+200B, U+2010, U+2013 or U+2014 of a
/// span that wraps, where neither a space nor a newline follows. An emergency place is a grapheme boundary (UAX #29,
/// Unicode 18.0) after a character of a span that wraps and has `anywhere`. The spans cover the text; the text has at
/// most 33,554,432 bytes.
pub fn opportunities(alloc: Global, text: &str, spans: &[Span]) -> Result<(Offsets, Offsets), NoMem>
    requires few { length text.now ≤ most_text_bytes }
    requires spans { AreSpans text.now 0 spans.now }
    ensures ordinary { IfOk result (λ places. places.0 ≡ opportunities_of text.now spans.now) }
    ensures emergency { IfOk result (λ places. places.1 ≡ emergencies_of text.now spans.now) }
    ensures good { IfOk result (λ places. AreOffsets text.now places.0) }
    ensures good_emergency { IfOk result (λ places. AreOffsets text.now places.1) }
{
    let places = ordinary(alloc, text, spans)?;
    let graphemes = emergency(alloc, text, spans)?;
    Ok((places, graphemes))
}
