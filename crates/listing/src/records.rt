//! The records of a page.

ghost use Rattle.std.specs.Prelude.{◌≡◌, ◌<◌, All, length};
ghost use Rattle.std.specs.List.{flat_map};
ghost use Rattle.bk_io.specs.Sink.{HasCause};
ghost use Rattle.margin_box.specs.Margins.{HasFace};
ghost use Rattle.paint.specs.Faces.{face_text};
ghost use Rattle.paint.specs.Views.{HasItemFace, area_item, edge_item, hyphen_item, item_of, rect_item, text_item};
ghost use Rattle.bk_io.specs.Buffers.{Gives};
ghost use Rattle.listing.specs.Pages.{head_record, page_records};
ghost use Rattle.listing.specs.Records.{book_record, edge_name, face_field, item_record, kind_name, side_name, word};

use crate::fields::{FaceLabel, Field, add_record};
use bk_io::buffer::Buffer;
use bk_io::sink::{Failed, Sink};
use bk_num::values::{Color, Side};
use boxes::frames::PageKind;
use margin_box::items::MarginText;
use metrics::Faces;
use paint::item::{Area, ItemRef, TextPlace};

/// A page: its index from 1, its number, side, kind and name, and its width and height in units.
#[derive(Clone, Copy, Debug)]
pub struct PageHead<'a> {
    pub index: u32,
    pub number: i64,
    pub side: Side,
    pub kind: PageKind,
    pub name: &'a str,
    pub width: i64,
    pub height: i64,
}

/// The word for a side.
fn side_name(side: Side) -> &'static str
    ensures { result.now ≡ side_name side }
{
    match side {
        Side::Left => "left",
        Side::Right => "right",
    }
}

/// The word for a kind of page.
fn kind_name(kind: PageKind) -> &'static str
    ensures { result.now ≡ kind_name kind }
{
    match kind {
        PageKind::Flow => "flow",
        PageKind::Blank => "blank",
        PageKind::Notes => "notes",
    }
}

/// The word for an upper or a lower edge.
fn edge_name(opens: bool) -> &'static str
    ensures { result.now ≡ edge_name opens }
{
    if opens { "open" } else { "close" }
}

/// Adds the first record.
pub(crate) fn add_book<S: Sink>(
    buffer: &mut Buffer,
    sink: &mut S,
    pages: u32,
    passes: u32,
) -> Result<(), Failed>
    ensures bytes { Gives (S.taken sink.old) buffer.old (S.taken sink.new) buffer.new
        (book_record pages passes) result }
    ensures cause { HasCause (S.faults sink.old) (S.faults sink.new) result }
{
    add_record(
        buffer,
        sink,
        "book",
        &[Field::Number(pages as i64), Field::Number(passes as i64)],
    )
}

/// Adds the record of a page.
fn add_head<S: Sink>(buffer: &mut Buffer, sink: &mut S, head: PageHead<'_>) -> Result<(), Failed>
    ensures bytes { Gives (S.taken sink.old) buffer.old (S.taken sink.new) buffer.new
        (head_record head.entry) result }
    ensures cause { HasCause (S.faults sink.old) (S.faults sink.new) result }
{
    add_record(
        buffer,
        sink,
        "page",
        &[
            Field::Number(head.index as i64),
            Field::Number(head.number),
            Field::Word(side_name(head.side)),
            Field::Word(kind_name(head.kind)),
            Field::Quoted(head.name),
            Field::Number(head.width),
            Field::Number(head.height),
        ],
    )
}

/// Adds the record of a rectangle.
fn add_rect<S: Sink>(
    buffer: &mut Buffer,
    sink: &mut S,
    area: &Area,
    color: Color,
) -> Result<(), Failed>
    ensures bytes { Gives (S.taken sink.old) buffer.old (S.taken sink.new) buffer.new
        (item_record (rect_item area.now color)) result }
    ensures cause { HasCause (S.faults sink.old) (S.faults sink.new) result }
{
    add_record(
        buffer,
        sink,
        "rect",
        &[
            Field::Number(area.x),
            Field::Number(area.y),
            Field::Number(area.w),
            Field::Number(area.h),
            Field::Color(color),
        ],
    )
}

/// Adds the record of an upper or a lower edge.
fn add_edge<S: Sink>(
    buffer: &mut Buffer,
    sink: &mut S,
    opens: bool,
    area: &Area,
) -> Result<(), Failed>
    ensures bytes { Gives (S.taken sink.old) buffer.old (S.taken sink.new) buffer.new
        (item_record (edge_item opens area.now)) result }
    ensures cause { HasCause (S.faults sink.old) (S.faults sink.new) result }
{
    add_record(
        buffer,
        sink,
        "edge",
        &[
            Field::Word(edge_name(opens)),
            Field::Number(area.x),
            Field::Number(area.y),
            Field::Number(area.w),
            Field::Number(area.h),
        ],
    )
}

/// Adds the record of a line.
fn add_line<S: Sink>(buffer: &mut Buffer, sink: &mut S, area: &Area) -> Result<(), Failed>
    ensures bytes { Gives (S.taken sink.old) buffer.old (S.taken sink.new) buffer.new
        (item_record (area_item area.now)) result }
    ensures cause { HasCause (S.faults sink.old) (S.faults sink.new) result }
{
    add_record(
        buffer,
        sink,
        "line",
        &[
            Field::Number(area.x),
            Field::Number(area.y),
            Field::Number(area.w),
            Field::Number(area.h),
        ],
    )
}

/// A face by its name, style and weight.
fn label_of<'a>(faces: &'a Faces, style: &TextPlace) -> FaceLabel<'a>
    requires { style.now.face.0 < length faces.now }
    ensures { face_field result.name.now result.italic result.weight ≡ word (face_text faces.now style.now.face) }
{
    let (name, italic, weight) = faces.label(style.face);
    FaceLabel {
        name,
        italic,
        weight,
    }
}

/// Adds the record of a text.
fn add_text<'a, S: Sink>(
    buffer: &mut Buffer,
    sink: &mut S,
    faces: &'a Faces,
    style: &TextPlace,
    text: &'a str,
) -> Result<(), Failed>
    requires { style.now.face.0 < length faces.now }
    ensures bytes { Gives (S.taken sink.old) buffer.old (S.taken sink.new) buffer.new
        (item_record (text_item faces.now style.now text.now)) result }
    ensures cause { HasCause (S.faults sink.old) (S.faults sink.new) result }
{
    add_record(
        buffer,
        sink,
        "text",
        &[
            Field::Number(style.x),
            Field::Number(style.y),
            Field::Face(label_of(faces, style)),
            Field::Number(style.size.units() as i64),
            Field::Color(style.color),
            Field::Quoted(text),
        ],
    )
}

/// Adds the record of a shown hyphen.
fn add_hyphen<S: Sink>(
    buffer: &mut Buffer,
    sink: &mut S,
    faces: &Faces,
    style: &TextPlace,
) -> Result<(), Failed>
    requires { style.now.face.0 < length faces.now }
    ensures bytes { Gives (S.taken sink.old) buffer.old (S.taken sink.new) buffer.new
        (item_record (hyphen_item faces.now style.now)) result }
    ensures cause { HasCause (S.faults sink.old) (S.faults sink.new) result }
{
    add_record(
        buffer,
        sink,
        "hyphen",
        &[
            Field::Number(style.x),
            Field::Number(style.y),
            Field::Face(label_of(faces, style)),
            Field::Number(style.size.units() as i64),
            Field::Color(style.color),
            Field::Quoted("-"),
        ],
    )
}

/// Adds the record of an item.
fn add_item<'a, S: Sink>(
    buffer: &mut Buffer,
    sink: &mut S,
    faces: &'a Faces,
    item: &ItemRef<'a>,
) -> Result<(), Failed>
    requires { HasItemFace faces.now item.now }
    ensures bytes { Gives (S.taken sink.old) buffer.old (S.taken sink.new) buffer.new
        (item_record (item_of faces.now item.now)) result }
    ensures cause { HasCause (S.faults sink.old) (S.faults sink.new) result }
{
    match item {
        ItemRef::Rect { area, color } => add_rect(buffer, sink, area, *color),
        ItemRef::Edge { opens, area } => add_edge(buffer, sink, *opens, area),
        ItemRef::Line { area } => add_line(buffer, sink, area),
        ItemRef::Text { style, text } => add_text(buffer, sink, faces, style, text),
        ItemRef::Hyphen { style } => add_hyphen(buffer, sink, faces, style),
    }
}

/// Adds the records of items.
fn add_items<'a, S: Sink>(
    buffer: &mut Buffer,
    sink: &mut S,
    faces: &'a Faces,
    items: &[ItemRef<'a>],
) -> Result<(), Failed>
    requires { All (HasItemFace faces.now) items.now }
    ensures bytes { Gives (S.taken sink.old) buffer.old (S.taken sink.new) buffer.new
        (flat_map (λ item. item_record (item_of faces.now item)) items.now) result }
    ensures cause { HasCause (S.faults sink.old) (S.faults sink.new) result }
{
    for item in items {
        add_item(buffer, sink, faces, item)?;
    }
    Ok(())
}

/// Adds the record of a text in a margin box.
fn add_margin<'a, S: Sink>(
    buffer: &mut Buffer,
    sink: &mut S,
    faces: &'a Faces,
    margin: &'a MarginText,
) -> Result<(), Failed>
    requires { HasFace faces.now margin.now }
    ensures bytes { Gives (S.taken sink.old) buffer.old (S.taken sink.new) buffer.new
        (item_record (text_item faces.now margin.now.style margin.now.text)) result }
    ensures cause { HasCause (S.faults sink.old) (S.faults sink.new) result }
{
    add_text(buffer, sink, faces, &margin.style, margin.text.as_str())
}

/// Adds the records of texts in margin boxes.
fn add_margins<'a, S: Sink>(
    buffer: &mut Buffer,
    sink: &mut S,
    faces: &'a Faces,
    texts: &'a [MarginText],
) -> Result<(), Failed>
    requires { All (HasFace faces.now) texts.now }
    ensures bytes { Gives (S.taken sink.old) buffer.old (S.taken sink.new) buffer.new
        (flat_map (λ m. item_record (text_item faces.now m.style m.text)) texts.now) result }
    ensures cause { HasCause (S.faults sink.old) (S.faults sink.new) result }
{
    for margin in texts {
        add_margin(buffer, sink, faces, margin)?;
    }
    Ok(())
}

/// Adds the record of a page, those of its items, and those of the texts in its margin boxes.
pub(crate) fn add_page<'a, S: Sink>(
    buffer: &mut Buffer,
    sink: &mut S,
    faces: &'a Faces,
    head: PageHead<'a>,
    items: &[ItemRef<'a>],
    texts: &'a [MarginText],
) -> Result<(), Failed>
    requires items { All (HasItemFace faces.now) items.now }
    requires texts { All (HasFace faces.now) texts.now }
    ensures bytes { Gives (S.taken sink.old) buffer.old (S.taken sink.new) buffer.new
        (page_records faces.now head.entry items.now texts.now) result }
    ensures cause { HasCause (S.faults sink.old) (S.faults sink.new) result }
{
    add_head(buffer, sink, head)?;
    add_items(buffer, sink, faces, items)?;
    add_margins(buffer, sink, faces, texts)
}
