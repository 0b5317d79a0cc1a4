//! A listing of one page with a record of each kind, through a sink with room for so many bytes.

ghost use Rattle.std.specs.Prelude.{◌≡◌};

use crate::notation::{count, faces_of, unknown};
use bk_io::sink::{Failed, Sink};
use bk_io::still_sink::StillSink;
use bk_num::ids::FaceId;
use bk_num::name::{Name, NoMem};
use bk_num::px::Px;
use bk_num::values::{Color, Side};
use boxes::frames::PageKind;
use listing::records::PageHead;
use listing::write::{write_end, write_head, write_page};
use margin_box::items::MarginText;
use metrics::Faces;
use paint::item::{Area, ItemRef, TextPlace};
use rows::escaped;
use std::alloc::Global;
use std::str::from_utf8;

const METRICS: &str = "bookmetrics 1\nface test italic 700 16 12 4 8\n";

const COLOR: Color = Color {
    red: 0,
    green: 128,
    blue: 255,
};

const AREA: Area = Area {
    x: -1,
    y: 0,
    w: 2,
    h: 1280,
};

fn style_in(face: FaceId) -> TextPlace
    ensures { result.face ≡ face }
{
    TextPlace {
        x: 3,
        y: -4,
        face,
        size: Px::from_units(1024),
        color: COLOR,
    }
}

/// Writes a listing of one page, with a text in a margin box.
fn write_one<S: Sink>(sink: &mut S, faces: &Faces, text: Name) -> Result<(), Failed> {
    let face = faces.choose(&[], true, 700);
    let head = PageHead {
        index: 2,
        number: -7,
        side: Side::Left,
        kind: PageKind::Blank,
        name: "wide",
        width: 35800,
        height: 50797,
    };
    let items = [
        ItemRef::Rect {
            area: AREA,
            color: COLOR,
        },
        ItemRef::Edge {
            opens: true,
            area: AREA,
        },
        ItemRef::Edge {
            opens: false,
            area: AREA,
        },
        ItemRef::Line { area: AREA },
        ItemRef::Text {
            style: style_in(face),
            text: "a\"b\\c\nd\te\u{7F}\u{E9}",
        },
        ItemRef::Hyphen {
            style: style_in(face),
        },
    ];
    let texts = [MarginText {
        style: style_in(face),
        text,
    }];
    write_head(sink, 12, 3)?;
    write_page(sink, faces, head, &items, &texts)?;
    write_end(sink)
}

/// A sink after a listing was written, and whether all of it was.
#[derive(Drop)]
struct Written {
    sink: StillSink,
    whole: bool,
}

/// Writes a listing of one page to a sink with room for so many bytes.
fn write_to_memory(alloc: Global, room: usize, text: &str) -> Result<Written, NoMem> {
    let faces = faces_of(alloc, METRICS)?;
    let name = Name::new(alloc, text)?;
    let mut sink = StillSink::new(alloc, room)?;
    let whole = write_one(&mut sink, &faces, name).is_ok();
    Ok(Written { sink, whole })
}

/// Room of so many bytes.
fn room_of(word: &str) -> usize {
    count(word).min(100_000) as usize
}

fn whole_word(whole: bool) -> &'static str {
    if whole { "whole" } else { "cut" }
}

/// Whether a listing is written whole, how many bytes are, and the bytes.
fn listing(alloc: Global, room: &str, text: &str) -> Result<String, NoMem> {
    let written = write_to_memory(alloc, room_of(room), text)?;
    let bytes = written.sink.bytes();
    let shown = escaped(alloc, from_utf8(bytes).unwrap_or("?"))?;
    Ok(format!(in alloc; "{} {} '{shown}'", whole_word(written.whole), bytes.len())?)
}

/// How many letters `x` there are.
fn letters_in(bytes: &[u8]) -> u32 {
    let mut count: u32 = 0;
    for byte in bytes {
        if *byte == b'x' {
            count = count.saturating_add(1);
        }
    }
    count
}

/// Whether a listing is written whole, how many bytes are, how many letters `x` among them, and the last bytes.
fn in_short(alloc: Global, written: &Written) -> Result<String, NoMem> {
    let bytes = written.sink.bytes();
    let count = letters_in(bytes);
    let from = bytes.len().saturating_sub(8);
    let end = from_utf8(bytes.get(from..).unwrap_or(&[])).unwrap_or("?");
    let shown = escaped(alloc, end)?;
    Ok(format!(in alloc;
        "{} {} {count} '{shown}'",
        whole_word(written.whole),
        bytes.len()
    )?)
}

/// The same where the text in the margin box has so many letters `x`.
fn long_listing(alloc: Global, room: &str, letters: &str) -> Result<String, NoMem> {
    let text = "x".repeat(alloc, room_of(letters))?;
    let written = write_to_memory(alloc, room_of(room), text.as_str())?;
    in_short(alloc, &written)
}

/// The answer to a question about a listing.
pub(crate) fn answer(alloc: Global, parts: &[&str]) -> Result<String, NoMem> {
    match parts {
        ["listing", room, text] => listing(alloc, room, text),
        ["long_listing", room, letters] => long_listing(alloc, room, letters),
        _ => unknown(alloc),
    }
}
