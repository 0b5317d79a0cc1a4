//! Puts the line that tells the counts of a sample book.

ghost use Rattle.std.specs.Prelude.{◌≡◌, ◌<◌, ◌≤◌, ◌^◌, length};
ghost use Rattle.bk_io.specs.Sink.{AppendsAllOrPrefix, HasCause};
ghost use Rattle.bk_num.specs.Limits.{most_pages};
ghost use Rattle.book.specs.Counts.{counts_line, is_line, lines_of, lines_on};

use bk_io::put_all::put_texts;
use bk_io::sink::{Failed, Sink};
use boxes::page::{Page, PageList, SolidKind};
use itoa::Buffer;
use passes::settle::Settled;

fn is_line(kind: SolidKind) -> bool
    ensures { result ≡ is_line kind }
{
    match kind {
        SolidKind::Line => true,
        SolidKind::OpenEdge(_) | SolidKind::CloseEdge(_) => false,
    }
}

/// How many lines stand on a page, in its flow and in its notes.
fn lines_on(page: &Page) -> u128
    ensures lines { result ≡ lines_on page.now }
    ensures few { result < 2 ^ 65 }
{
    let solids = page.solids.as_slice().iter();
    let notes = page.notes.as_slice().iter();
    let flow = solids.filter(|solid| is_line(solid.kind)).count();
    let noted = notes.filter(|note| is_line(note.1.kind)).count();
    flow as u128 + noted as u128
}

/// How many lines stand on pages.
fn lines_of(pages: &[Page]) -> u128
    requires { length pages.now ≤ most_pages }
    ensures { result ≡ lines_of pages.now }
{
    let mut lines = 0;
    for page in pages {
        lines += lines_on(page);
    }
    lines
}

/// Puts the line that tells the counts of a sample of so many chapters, which settled on these pages.
///
/// # Errors
///
/// `Failed` where a put failed. Then a prefix of the line was put.
#[tactic(auto, unfolding(crate::specs::Counts::counts_line))]
pub(crate) fn put_counts<O: Sink>(
    out: &mut O,
    chapters: u32,
    laid: &Settled,
    pages: &PageList,
) -> Result<(), Failed>
    requires { length pages.now.pages ≤ most_pages }
    ensures bytes { AppendsAllOrPrefix (O.taken out.old) (O.taken out.new)
        (counts_line chapters (length pages.now.pages) (lines_of pages.now.pages) (length laid.now.flow.notes)
        (length laid.now.table) laid.now.passes) result }
    ensures cause { HasCause (O.faults out.old) (O.faults out.new) result }
{
    let pages = pages.pages.as_slice();
    let (mut sample, mut listed, mut lines) = (Buffer::new(), Buffer::new(), Buffer::new());
    let (mut notes, mut references, mut passes) = (Buffer::new(), Buffer::new(), Buffer::new());
    put_texts(
        out,
        &[
            "sample ",
            sample.format(chapters),
            ": ",
            listed.format(pages.len()),
            " pages, ",
            lines.format(lines_of(pages)),
            " lines, ",
            notes.format(laid.flow.notes.as_slice().len()),
            " notes, ",
            references.format(laid.table.as_slice().len()),
            " references, ",
            passes.format(laid.passes),
            " passes\n",
        ],
    )
}
