//! Leaves by hand: a text in two spans, with places at which its lines may end.

ghost use Rattle.std.specs.Prelude.{◌≡◌, ◌<◌, pos, length, IfOk};
ghost use Rattle.bk_num.specs.Ranges.{IsNotAuto};
ghost use Rattle.boxes.specs.Contents.{AreOffsets, IsGoodLeaf, IsGoodSpan};
ghost use Rattle.line_place.specs.Conditions.{HasFaces};

use bk_num::decimal::Decimal;
use bk_num::ids::FaceId;
use bk_num::items::{Items, Text};
use bk_num::length::Len;
use bk_num::name::NoMem;
use bk_num::px::Px;
use bk_num::values::{Align, Color};
use boxes::leaf::{Leaf, Offsets, Span, Spans};
use metrics::Faces;
use std::alloc::Global;

/// A size and a line height, in units.
#[derive(Clone, Copy, Debug)]
pub(crate) struct Form {
    pub(crate) size: u16,
    pub(crate) line_height: u16,
}

/// A leaf: its text, its ordinary and its emergency places, where its second span begins, the forms of both spans and
/// of the strut, how its lines are set, and whether they are chosen as a whole.
#[derive(Clone, Copy)]
pub(crate) struct Shape<'a> {
    pub(crate) text: &'a str,
    pub(crate) places: &'a [u16],
    pub(crate) graphemes: &'a [u16],
    pub(crate) middle: usize,
    pub(crate) forms: [Form; 3],
    pub(crate) align: Align,
    pub(crate) fit: bool,
    pub(crate) indent: &'a str,
}

/// The numbers of a part.
pub(crate) fn numbers(alloc: Global, part: &str) -> Result<Vec<u16>, NoMem> {
    let mut numbers = Vec::new(alloc);
    for word in part.split_whitespace() {
        numbers.push(word.parse::<u16>().unwrap_or(0))?;
    }
    Ok(numbers)
}

/// The number at a place.
pub(crate) fn nth(numbers: &[u16], place: usize) -> u16 {
    numbers.get(place).copied().unwrap_or(0)
}

/// The offsets of a list that ascends and stands at characters.
fn offsets_of(alloc: Global, text: &str, list: &[u16]) -> Result<Offsets, NoMem>
    ensures { IfOk result (λ offsets. AreOffsets text.now offsets) }
{
    let mut offsets = Items::new(alloc);
    let mut last = 0;
    for &at in list {
        if at <= last || !text.is_char_boundary(at as usize) {
            return Err(NoMem);
        }
        offsets.push(u32::from(at))?;
        last = at;
    }
    Ok(offsets)
}

#[tactic(auto, unfolding(bk_num::specs::Units::clamped))]
fn px(units: u16) -> Px
    ensures { result ≡ pos units }
{
    Px::from_units(i64::from(units))
}

/// A span that wraps, and may end at its graphemes.
fn span(from: u32, to: u32, form: Form) -> Span
    ensures good { IsGoodSpan result }
    ensures from { result.from ≡ from }
    ensures to { result.to ≡ to }
    ensures face { result.face.0 ≡ 0 }
{
    Span {
        from,
        to,
        face: FaceId(0),
        size: px(form.size),
        line_height: px(form.line_height),
        color: Color {
            red: 0,
            green: 0,
            blue: 0,
        },
        wrap: true,
        anywhere: true,
    }
}

/// An indent: units, or a percentage.
fn indent_of(part: &str) -> Len
    ensures { IsNotAuto result }
{
    match part.strip_suffix('%') {
        Some(part) => Len::Percent(Decimal::new(i64::from(part.parse::<u16>().unwrap_or(0)), 0)),
        None => Len::Px(Px::from_units(part.parse::<i64>().unwrap_or(0))),
    }
}

/// The leaf of a shape, where its text isn't empty and its second span begins at a character.
pub(crate) fn leaf_of(alloc: Global, faces: &Faces, shape: Shape<'_>) -> Result<Leaf, NoMem>
    requires { 0 < length faces.now }
    ensures good { IfOk result (λ leaf. IsGoodLeaf leaf) }
    ensures faced { IfOk result (λ leaf. HasFaces faces.now leaf) }
{
    let text = shape.text;
    let middle = shape.middle;
    if text.is_empty()
        || text.len() > 1000
        || middle > text.len()
        || !text.is_char_boundary(middle)
    {
        return Err(NoMem);
    }
    let mut spans: Spans = Items::new(alloc);
    spans.push(span(0, middle as u32, shape.forms[0]))?;
    spans.push(span(middle as u32, text.len() as u32, shape.forms[1]))?;
    Ok(Leaf {
        text: Text::of(String::from_str(alloc, text)?),
        spans,
        places: offsets_of(alloc, text, shape.places)?,
        graphemes: offsets_of(alloc, text, shape.graphemes)?,
        leads: Items::new(alloc),
        indent: indent_of(shape.indent),
        align: shape.align,
        fit: shape.fit,
        strut: span(0, 0, shape.forms[2]),
    })
}
