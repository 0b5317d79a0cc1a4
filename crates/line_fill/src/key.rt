//! What the filling of a line reads of a leaf.

ghost use Rattle.std.specs.Prelude.{◌≡◌, ◌≢◌, MatchBool, IfOk};
ghost use Rattle.line_fill.specs.Keys.{fed_length, fed_span, fed_style, key_of, print_of};

use bk_num::items::{Items, Text};
use bk_num::length::Len;
use bk_num::name::NoMem;
use boxes::leaf::{Leaf, Offsets, Span, Spans};
use std::alloc::Global;
use std::hash::{FoldHasher, Hasher};

/// Whether two spans are equal.
fn same_span(a: &Span, b: &Span) -> bool
    ensures { MatchBool result (a.now ≡ b.now) (a.now ≢ b.now) }
{
    a.from == b.from
        && a.to == b.to
        && a.face == b.face
        && a.size == b.size
        && a.line_height == b.line_height
        && a.color == b.color
        && a.wrap == b.wrap
        && a.anywhere == b.anywhere
}

/// Whether the spans of two leaves are equal.
fn same_spans(a: &[Span], b: &[Span]) -> bool
    ensures { MatchBool result (a.now ≡ b.now) (a.now ≢ b.now) }
{
    if a.len() != b.len() {
        return false;
    }
    for k in 0..a.len() {
        if !same_span(&a[k], &b[k]) {
            return false;
        }
    }
    true
}

/// Whether the offsets of two leaves are equal.
fn same_offsets(a: &[u32], b: &[u32]) -> bool
    ensures { MatchBool result (a.now ≡ b.now) (a.now ≢ b.now) }
{
    a == b
}

/// Whether two texts are equal.
fn same_text(a: &str, b: &str) -> bool
    ensures { MatchBool result (a.now ≡ b.now) (a.now ≢ b.now) }
{
    a == b
}

/// Whether two indents are equal.
fn same_indent(a: Len, b: Len) -> bool
    ensures { MatchBool result (a ≡ b) (a ≢ b) }
{
    match a {
        Len::Px(x) => match b {
            Len::Px(y) => x == y,
            Len::Percent(_) | Len::Auto => false,
        },
        Len::Percent(x) => match b {
            Len::Percent(y) => x == y,
            Len::Px(_) | Len::Auto => false,
        },
        Len::Auto => match b {
            Len::Auto => true,
            Len::Px(_) | Len::Percent(_) => false,
        },
    }
}

/// Whether two leaves are equal as far as their lines go. What differs most often is compared first.
pub(crate) fn is_same(a: &Leaf, b: &Leaf) -> bool
    ensures { MatchBool result (key_of a.now ≡ key_of b.now) (key_of a.now ≢ key_of b.now) }
{
    a.fit == b.fit
        && same_indent(a.indent, b.indent)
        && same_spans(a.spans.as_slice(), b.spans.as_slice())
        && same_text(a.text.as_str(), b.text.as_str())
        && same_offsets(a.places.as_slice(), b.places.as_slice())
        && same_offsets(a.graphemes.as_slice(), b.graphemes.as_slice())
}

/// Takes a length into a hash.
fn feed_length(hasher: &mut FoldHasher, length: Len)
    ensures { hasher.new ≡ fed_length hasher.old length }
{
    match length {
        Len::Px(px) => hasher.write_i32(px.units()),
        Len::Percent(percent) => hasher.write_i64(percent.units()),
        Len::Auto => {}
    }
}

/// Takes the style of a span into a hash.
fn feed_style(hasher: &mut FoldHasher, span: &Span)
    ensures { hasher.new ≡ fed_style hasher.old span.now }
{
    hasher.write_u16(span.face.0);
    hasher.write_i32(span.size.units());
    hasher.write_i32(span.line_height.units());
    hasher.write_u8(span.color.red);
    hasher.write_u8(span.color.green);
    hasher.write_u8(span.color.blue);
}

/// Takes a span into a hash.
fn feed_span(hasher: &mut FoldHasher, span: &Span)
    ensures { hasher.new ≡ fed_span hasher.old span.now }
{
    feed_style(hasher, span);
    hasher.write_u32(span.from);
    hasher.write_u32(span.to);
    hasher.write_u8(u8::from(span.wrap));
    hasher.write_u8(u8::from(span.anywhere));
}

/// A number that equal leaves have at a measure, as far as their lines go. A text's places aren't hashed: they follow
/// from the text and its spans.
pub(crate) fn print_of(leaf: &Leaf, measure: i64) -> u64
    ensures value { result ≡ print_of (key_of leaf.now) measure }
{
    let mut hasher = FoldHasher::default();
    hasher.write(leaf.text.as_str().as_bytes());
    hasher.write_i64(measure);
    feed_length(&mut hasher, leaf.indent);
    for span in leaf.spans.as_slice() {
        feed_span(&mut hasher, span);
    }
    hasher.finish()
}

/// A copy of some offsets.
fn offsets_of(alloc: Global, of: &[u32]) -> Result<Offsets, NoMem>
    ensures { IfOk result (λ v. v ≡ of.now) }
{
    match Vec::from_slice(alloc, of) {
        Ok(v) => Ok(Items::of(v)),
        Err(_) => Err(NoMem),
    }
}

/// A copy of some spans.
fn spans_of(alloc: Global, of: &[Span]) -> Result<Spans, NoMem>
    ensures { IfOk result (λ v. v ≡ of.now) }
{
    match Vec::from_slice(alloc, of) {
        Ok(v) => Ok(Items::of(v)),
        Err(_) => Err(NoMem),
    }
}

/// A copy of a text.
fn text_of(alloc: Global, of: &str) -> Result<Text, NoMem>
    ensures { IfOk result (λ t. t ≡ of.now) }
{
    match String::from_str(alloc, of) {
        Ok(text) => Ok(Text::of(text)),
        Err(_) => Err(NoMem),
    }
}

/// A copy of a leaf as far as its lines go: without its leads, of which they read nothing.
pub(crate) fn copy_of(alloc: Global, leaf: &Leaf) -> Result<Leaf, NoMem>
    ensures { IfOk result (λ copy. key_of copy ≡ key_of leaf.now) }
{
    Ok(Leaf {
        text: text_of(alloc, leaf.text.as_str())?,
        spans: spans_of(alloc, leaf.spans.as_slice())?,
        places: offsets_of(alloc, leaf.places.as_slice())?,
        graphemes: offsets_of(alloc, leaf.graphemes.as_slice())?,
        leads: Items::new(alloc),
        indent: leaf.indent,
        align: leaf.align,
        fit: leaf.fit,
        strut: leaf.strut,
    })
}
