//! The texts of a sample book.

ghost use Rattle.std.specs.Prelude.{◌≡◌, ◌≤◌, ◌++◌, IfOk, OnOk, string_bytes};
ghost use Rattle.std.specs.List.{flat_map, range_with_len};
ghost use Rattle.sample.specs.Html.{chapter_of, html_of, link};
ghost use Rattle.sample.specs.Texts.{css_text, metrics_text};

use crate::chapters::{push_chapter, push_link};
use crate::draws::Draws;
use crate::fixed::{css, metrics};
use bk_num::name::{Name, NoMem};
use std::alloc::{AllocError, Global};

/// The texts that a book is made of.
#[derive(Drop)]
pub struct Texts {
    pub metrics: Name,
    pub html: Name,
    pub css: Name,
}

/// Appends a reference to each chapter.
fn push_links(out: &mut String, chapters: u32) -> Result<(), AllocError>
    requires { chapters ≤ 2000 }
    ensures { OnOk result (string_bytes out.new ≡ string_bytes out.old ++ flat_map link (range_with_len 1 chapters)) }
{
    for before in 0..chapters {
        push_link(out, before + 1)?;
    }
    Ok(())
}

/// Appends the chapters.
fn push_chapters(out: &mut String, chapters: u32) -> Result<(), AllocError>
    requires { chapters ≤ 2000 }
    ensures { OnOk result (string_bytes out.new ≡ string_bytes out.old
        ++ flat_map (chapter_of chapters) (range_with_len 1 chapters)) }
{
    let mut draws = Draws::new(chapters);
    for before in 0..chapters {
        push_chapter(out, &mut draws, before + 1)?;
    }
    Ok(())
}

/// The texts of the sample book of `n` chapters. The HTML has about 1,500 bytes a chapter.
///
/// # Errors
///
/// `NoMem`.
#[tactic(auto, unfolding(crate::specs::Html::html_of))]
pub fn sample_book(alloc: Global, n: u32) -> Result<Texts, NoMem>
    requires some { 1 ≤ n }
    requires most { n ≤ 2000 }
    ensures { IfOk result (λ t. (t.html ≡ html_of n) × (t.css ≡ css_text) × (t.metrics ≡ metrics_text)) }
{
    let metrics = Name::new(alloc, metrics())?;
    let css = Name::new(alloc, css())?;
    let mut html = String::new(alloc);
    push_links(&mut html, n)?;
    push_chapters(&mut html, n)?;
    Ok(Texts {
        metrics,
        html: Name::from_string(html),
        css,
    })
}
