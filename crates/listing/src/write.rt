//! Writes a listing to a sink. The records are formatted in a buffer of 4,096 bytes, and nothing here takes memory.

ghost use Rattle.std.specs.Prelude.{All};
ghost use Rattle.bk_io.specs.Sink.{AppendsAllOrPrefix, HasCause};
ghost use Rattle.margin_box.specs.Margins.{HasFace};
ghost use Rattle.paint.specs.Views.{HasItemFace};
ghost use Rattle.listing.specs.Pages.{page_records};
ghost use Rattle.listing.specs.Records.{book_record, end_record};

use crate::records::{PageHead, add_book, add_page};
use bk_io::buffer::Buffer;
use bk_io::put_all::put_all;
use bk_io::sink::{Failed, Sink};
use margin_box::items::MarginText;
use metrics::Faces;
use paint::item::ItemRef;

/// Writes the first record: the numbers of pages and of passes.
///
/// # Errors
///
/// `Failed` where a put failed. Then a prefix of the record was put.
pub fn write_head<S: Sink>(sink: &mut S, pages: u32, passes: u32) -> Result<(), Failed>
    ensures bytes { AppendsAllOrPrefix (S.taken sink.old) (S.taken sink.new) (book_record pages passes) result }
    ensures cause { HasCause (S.faults sink.old) (S.faults sink.new) result }
{
    let mut buffer = Buffer::new();
    add_book(&mut buffer, sink, pages, passes)?;
    buffer.flush(sink)
}

/// Writes a page: its record, those of its items, and those of the texts in its margin boxes. The faces are those that
/// items and texts name by their numbers.
///
/// # Errors
///
/// `Failed` where a put failed. Then a prefix of the records was put.
pub fn write_page<'a, S: Sink>(
    sink: &mut S,
    faces: &'a Faces,
    head: PageHead<'a>,
    items: &[ItemRef<'a>],
    texts: &'a [MarginText],
) -> Result<(), Failed>
    requires items { All (HasItemFace faces.now) items.now }
    requires texts { All (HasFace faces.now) texts.now }
    ensures bytes { AppendsAllOrPrefix (S.taken sink.old) (S.taken sink.new)
        (page_records faces.now head.entry items.now texts.now) result }
    ensures cause { HasCause (S.faults sink.old) (S.faults sink.new) result }
{
    let mut buffer = Buffer::new();
    add_page(&mut buffer, sink, faces, head, items, texts)?;
    buffer.flush(sink)
}

/// Writes the last record.
///
/// # Errors
///
/// `Failed` where a put failed. Then a prefix of the record was put.
#[tactic(auto, unfolding(crate::specs::Records::end_record))]
pub fn write_end<S: Sink>(sink: &mut S) -> Result<(), Failed>
    ensures bytes { AppendsAllOrPrefix (S.taken sink.old) (S.taken sink.new) end_record result }
    ensures cause { HasCause (S.faults sink.old) (S.faults sink.new) result }
{
    put_all(sink, b"end\n")
}
