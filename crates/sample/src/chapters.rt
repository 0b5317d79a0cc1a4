//! The chapters of the sample book, as HTML.

ghost use Rattle.std.specs.Prelude.{◌≡◌, ◌++◌, OnOk, decimal, string_bytes};
ghost use Rattle.sample.specs.Html.{chapter, heading, link, note_paragraph, paragraph};
ghost use Rattle.sample.specs.Words.{words_end};

use crate::draws::Draws;
use crate::words::{push_text, push_words};
use itoa::Buffer;
use std::alloc::AllocError;

/// Appends a number in decimal.
fn push_number(out: &mut String, number: u32) -> Result<(), AllocError>
    ensures { OnOk result (string_bytes out.new ≡ string_bytes out.old ++ decimal number) }
{
    let mut buffer = Buffer::new();
    push_text(out, buffer.format(number))
}

/// Appends a reference to a chapter.
pub(crate) fn push_link(out: &mut String, number: u32) -> Result<(), AllocError>
    ensures { OnOk result (string_bytes out.new ≡ string_bytes out.old ++ link number) }
{
    push_text(out, "<p><a href=\"#c")?;
    push_number(out, number)?;
    push_text(out, "\">Chapter ")?;
    push_number(out, number)?;
    push_text(out, " </a></p>\n")?;
    Ok(())
}

/// Appends a chapter's heading.
fn push_heading(out: &mut String, number: u32) -> Result<(), AllocError>
    ensures { OnOk result (string_bytes out.new ≡ string_bytes out.old ++ heading number) }
{
    push_text(out, "<h1 id=\"c")?;
    push_number(out, number)?;
    push_text(out, "\">Chapter ")?;
    push_number(out, number)?;
    push_text(out, "</h1>\n")?;
    Ok(())
}

/// Appends a paragraph of forty words.
fn push_paragraph(out: &mut String, draws: &mut Draws) -> Result<(), AllocError>
    ensures text { OnOk result (string_bytes out.new ≡ string_bytes out.old ++ paragraph draws.old) }
    ensures state { OnOk result (draws.new ≡ words_end 40 draws.old) }
{
    push_text(out, "<p>")?;
    push_words(out, draws, 40)?;
    push_text(out, ".</p>\n")?;
    Ok(())
}

/// Appends a paragraph of forty words with a note of twelve after the twentieth.
fn push_note_paragraph(out: &mut String, draws: &mut Draws) -> Result<(), AllocError>
    ensures text { OnOk result (string_bytes out.new ≡ string_bytes out.old ++ note_paragraph draws.old) }
    ensures state { OnOk result (draws.new ≡ words_end 52 draws.old) }
{
    push_text(out, "<p>")?;
    push_words(out, draws, 20)?;
    push_text(out, "<span class=\"n\">")?;
    push_words(out, draws, 12)?;
    push_text(out, "</span> ")?;
    push_words(out, draws, 20)?;
    push_text(out, ".</p>\n")?;
    Ok(())
}

/// Appends a chapter: its heading and five paragraphs, the third with a note.
pub(crate) fn push_chapter(
    out: &mut String,
    draws: &mut Draws,
    number: u32,
) -> Result<(), AllocError>
    ensures text { OnOk result (string_bytes out.new ≡ string_bytes out.old ++ chapter number draws.old) }
    ensures state { OnOk result (draws.new ≡ words_end 212 draws.old) }
{
    push_heading(out, number)?;
    push_paragraph(out, draws)?;
    push_paragraph(out, draws)?;
    push_note_paragraph(out, draws)?;
    push_paragraph(out, draws)?;
    push_paragraph(out, draws)?;
    Ok(())
}
