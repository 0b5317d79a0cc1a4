//! Fields of records, and records of fields.

ghost use Rattle.std.specs.Prelude.{◌≡◌};
ghost use Rattle.std.specs.List.{flat_map, list_all};
ghost use Rattle.bk_io.specs.Sink.{HasCause};
ghost use Rattle.bk_io.specs.Buffers.{Gives};
ghost use Rattle.listing.specs.Fields.{field_bytes, record_bytes};
ghost use Rattle.listing.specs.Records.{color_field, escape, face_field, field, is_quoted, stands, string_field, style_name, word};

use bk_io::buffer::Buffer;
use bk_io::escape::{hex_digit, is_control, shown_byte};
use bk_io::sink::{Failed, Sink};
use bk_num::values::Color;
use itoa::Buffer as Digits;

/// A face by its name, style and weight.
#[derive(Clone, Copy, Debug)]
pub(crate) struct FaceLabel<'a> {
    pub(crate) name: &'a str,
    pub(crate) italic: bool,
    pub(crate) weight: u16,
}

/// A field of a record.
#[derive(Clone, Copy)]
pub(crate) enum Field<'a> {
    Number(i64),
    Word(&'a str),
    Quoted(&'a str),
    Color(Color),
    Face(FaceLabel<'a>),
}

/// Whether a byte of a string has a `\` before it.
fn is_quoted(b: u8) -> bool
    ensures { result ≡ is_quoted b }
{
    b == b'"' || b == b'\\'
}

/// Whether a byte of a string stands as it is.
#[tactic(auto, unfolding(crate::specs::Records::stands))]
fn stands(b: u8) -> bool
    ensures { result ≡ stands b }
{
    !(is_quoted(b) || is_control(b))
}

/// Adds a byte of a string.
#[tactic(auto, unfolding(crate::specs::Records::escape))]
fn add_escaped<S: Sink>(buffer: &mut Buffer, sink: &mut S, b: u8) -> Result<(), Failed>
    ensures bytes { Gives (S.taken sink.old) buffer.old (S.taken sink.new) buffer.new (escape b) result }
    ensures cause { HasCause (S.faults sink.old) (S.faults sink.new) result }
{
    if is_quoted(b) {
        return buffer.add(sink, &[b'\\', b]);
    }
    buffer.add(sink, shown_byte(b).as_slice())
}

/// Adds the bytes of a string one by one.
fn add_all_escaped<S: Sink>(buffer: &mut Buffer, sink: &mut S, text: &str) -> Result<(), Failed>
    ensures bytes { Gives (S.taken sink.old) buffer.old (S.taken sink.new) buffer.new
        (flat_map escape text.now) result }
    ensures cause { HasCause (S.faults sink.old) (S.faults sink.new) result }
{
    for b in text.as_bytes() {
        add_escaped(buffer, sink, *b)?;
    }
    Ok(())
}

/// Whether each byte of a string stands as it is.
fn all_stand(text: &str) -> bool
    ensures { result ≡ list_all stands text.now }
{
    text.as_bytes().iter().all(|b| stands(*b))
}

/// Adds the bytes of a string, at once where each stands as it is, as in most texts.
fn add_bytes<S: Sink>(buffer: &mut Buffer, sink: &mut S, text: &str) -> Result<(), Failed>
    ensures bytes { Gives (S.taken sink.old) buffer.old (S.taken sink.new) buffer.new
        (flat_map escape text.now) result }
    ensures cause { HasCause (S.faults sink.old) (S.faults sink.new) result }
{
    if all_stand(text) {
        buffer.add_text(sink, text)
    } else {
        add_all_escaped(buffer, sink, text)
    }
}

/// Adds a space and a string in its quotes.
fn add_string<S: Sink>(buffer: &mut Buffer, sink: &mut S, text: &str) -> Result<(), Failed>
    ensures bytes { Gives (S.taken sink.old) buffer.old (S.taken sink.new) buffer.new (string_field text.now) result }
    ensures cause { HasCause (S.faults sink.old) (S.faults sink.new) result }
{
    buffer.add_text(sink, " \"")?;
    add_bytes(buffer, sink, text)?;
    buffer.add_text(sink, "\"")
}

/// The style of a face, between its name and its weight.
#[tactic(auto, unfolding(crate::specs::Records::style_name))]
fn style_name(italic: bool) -> &'static str
    ensures { result.now ≡ style_name italic }
{
    if italic { "/italic/" } else { "/normal/" }
}

/// A space and a colour.
#[tactic(auto, unfolding(crate::specs::Records::color_field, bk_io::specs::Escapes::hex_pair))]
fn color_bytes(color: Color) -> [u8; 8]
    ensures { result ≡ color_field color }
{
    [
        b' ',
        b'#',
        hex_digit(color.red / 16),
        hex_digit(color.red % 16),
        hex_digit(color.green / 16),
        hex_digit(color.green % 16),
        hex_digit(color.blue / 16),
        hex_digit(color.blue % 16),
    ]
}

/// Adds a space and a colour.
fn add_color<S: Sink>(buffer: &mut Buffer, sink: &mut S, color: Color) -> Result<(), Failed>
    ensures bytes { Gives (S.taken sink.old) buffer.old (S.taken sink.new) buffer.new (color_field color) result }
    ensures cause { HasCause (S.faults sink.old) (S.faults sink.new) result }
{
    buffer.add(sink, &color_bytes(color))
}

/// Adds a space and a face's name, style and weight.
fn add_face<S: Sink>(buffer: &mut Buffer, sink: &mut S, face: &FaceLabel<'_>) -> Result<(), Failed>
    ensures bytes { Gives (S.taken sink.old) buffer.old (S.taken sink.new) buffer.new
        (face_field face.now.name.now face.now.italic face.now.weight) result }
    ensures cause { HasCause (S.faults sink.old) (S.faults sink.new) result }
{
    let mut digits = Digits::new();
    buffer.add_texts(sink, &[" ", face.name])?;
    buffer.add_texts(sink, &[style_name(face.italic), digits.format(face.weight)])
}

/// Adds a space and a number.
fn add_number<S: Sink>(buffer: &mut Buffer, sink: &mut S, n: i64) -> Result<(), Failed>
    ensures bytes { Gives (S.taken sink.old) buffer.old (S.taken sink.new) buffer.new (field n) result }
    ensures cause { HasCause (S.faults sink.old) (S.faults sink.new) result }
{
    let mut digits = Digits::new();
    buffer.add_texts(sink, &[" ", digits.format(n)])
}

/// Adds a space and a word.
fn add_word<S: Sink>(buffer: &mut Buffer, sink: &mut S, text: &str) -> Result<(), Failed>
    ensures bytes { Gives (S.taken sink.old) buffer.old (S.taken sink.new) buffer.new (word text.now) result }
    ensures cause { HasCause (S.faults sink.old) (S.faults sink.new) result }
{
    buffer.add_texts(sink, &[" ", text])
}

/// Adds a field after a space.
fn add_field<S: Sink>(buffer: &mut Buffer, sink: &mut S, part: &Field<'_>) -> Result<(), Failed>
    ensures bytes { Gives (S.taken sink.old) buffer.old (S.taken sink.new) buffer.new (field_bytes part.now) result }
    ensures cause { HasCause (S.faults sink.old) (S.faults sink.new) result }
{
    match part {
        Field::Number(n) => add_number(buffer, sink, *n),
        Field::Word(text) => add_word(buffer, sink, text),
        Field::Quoted(text) => add_string(buffer, sink, text),
        Field::Color(color) => add_color(buffer, sink, *color),
        Field::Face(face) => add_face(buffer, sink, face),
    }
}

/// Adds fields, each after a space.
fn add_fields<S: Sink>(
    buffer: &mut Buffer,
    sink: &mut S,
    fields: &[Field<'_>],
) -> Result<(), Failed>
    ensures bytes { Gives (S.taken sink.old) buffer.old (S.taken sink.new) buffer.new
        (flat_map field_bytes fields.now) result }
    ensures cause { HasCause (S.faults sink.old) (S.faults sink.new) result }
{
    for part in fields {
        add_field(buffer, sink, part)?;
    }
    Ok(())
}

/// Adds a record: its name and its fields in a line.
pub(crate) fn add_record<S: Sink>(
    buffer: &mut Buffer,
    sink: &mut S,
    name: &str,
    fields: &[Field<'_>],
) -> Result<(), Failed>
    ensures bytes { Gives (S.taken sink.old) buffer.old (S.taken sink.new) buffer.new
        (record_bytes name.now fields.now) result }
    ensures cause { HasCause (S.faults sink.old) (S.faults sink.new) result }
{
    buffer.add_text(sink, name)?;
    add_fields(buffer, sink, fields)?;
    buffer.add_text(sink, "\n")
}
