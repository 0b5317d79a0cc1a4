//! Leaves in short.

ghost use Rattle.std.specs.Prelude.{◌≡◌, ◌<◌, ◌^◌, pos, length, All, true, false, IfOk, []};
ghost use Rattle.std.specs.List.Sorted.{IsStrictlyIncreasing};
ghost use Rattle.boxes.specs.Contents.{IsGoodLeaf, IsGoodSpan};
ghost use Rattle.tree_fixtures.specs.Leaves.{ArePlainBytes, IsShortLeaf};

use crate::shape::{BLACK, px};
use bk_num::ids::FaceId;
use bk_num::items::{Items, Text};
use bk_num::length::Len;
use bk_num::name::NoMem;
use bk_num::values::Align;
use boxes::leaf::{Leaf, Span};
use std::alloc::Global;

/// A span over the first bytes of a text, of 16 px in lines of 20 px, in face 0.
pub fn span_to(to: u32) -> Span
    ensures good { IsGoodSpan result }
    ensures from { result.from ≡ 0 }
    ensures to { result.to ≡ to }
    ensures wrap { result.wrap ≡ true }
    ensures anywhere { result.anywhere ≡ false }
    ensures face { result.face.0 ≡ 0 }
    ensures size { result.size ≡ pos 1024 }
    ensures line_height { result.line_height ≡ pos 1280 }
{
    Span {
        from: 0,
        to,
        face: FaceId(0),
        size: px(1024),
        line_height: px(1280),
        color: BLACK,
        wrap: true,
        anywhere: false,
    }
}

/// Whether a text has newlines and printable ASCII alone.
fn is_plain(text: &[u8]) -> bool
    ensures { result ≡ true → ArePlainBytes text.now }
{
    for &byte in text {
        if byte != b'\n' && !(byte >= 32 && byte <= 126) {
            return false;
        }
    }
    true
}

/// The places after the spaces of a text.
fn places_of(alloc: Global, text: &[u8]) -> Result<Vec<u32>, NoMem>
    requires some { 0 < length text.now }
    requires few { length text.now < 2 ^ 32 }
    ensures ascend { IfOk result (λ v. IsStrictlyIncreasing v.items) }
    ensures below { IfOk result (λ v. All (λ p. p < length text.now) v.items) }
{
    let mut places = Vec::new(alloc);
    for at in 1..text.len() {
        if text[at - 1] == b' ' {
            places.push(at as u32)?;
        }
    }
    Ok(places)
}

/// A leaf of one span, in which lines may end after spaces and at newlines. An error where its text is empty, has more
/// than 1,000 bytes, or has other characters than newlines and printable ASCII.
pub fn leaf_of(alloc: Global, text: &str) -> Result<Leaf, NoMem>
    ensures good { IfOk result (λ leaf. IsGoodLeaf leaf) }
    ensures short { IfOk result (λ leaf. IsShortLeaf leaf) }
    ensures text { IfOk result (λ leaf. leaf.text ≡ text.now) }
    ensures leads { IfOk result (λ leaf. leaf.leads ≡ []) }
{
    let bytes = text.as_bytes();
    if bytes.is_empty() || bytes.len() > 1000 || !is_plain(bytes) {
        return Err(NoMem);
    }
    let mut spans = Vec::new(alloc);
    if spans.push(span_to(bytes.len() as u32)).is_err() {
        return Err(NoMem);
    }
    Ok(Leaf {
        text: Text::of(String::from_str(alloc, text)?),
        spans: Items::of(spans),
        places: Items::of(places_of(alloc, bytes)?),
        graphemes: Items::of(Vec::new(alloc)),
        leads: Items::of(Vec::new(alloc)),
        indent: Len::Px(px(0)),
        align: Align::Left,
        fit: false,
        strut: span_to(0),
    })
}
