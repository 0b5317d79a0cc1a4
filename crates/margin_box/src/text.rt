//! What a margin box prints.

ghost use Rattle.std.specs.Prelude.{◌≡◌, ◌<◌, ◌++◌, pos, length, OnOk, IfOk, string_bytes};
ghost use Rattle.counters.specs.Numerals.{numeral_of};
ghost use Rattle.strings.specs.Shown.{string_of};
ghost use Rattle.margin_box.specs.Conditions.{CanShowMargins};
ghost use Rattle.margin_box.specs.Margins.{margins_in};
ghost use Rattle.margin_box.specs.Texts as spec;

use crate::items::Margins;
use bk_num::name::NoMem;
use bk_num::values::NumStyle;
use boxes::page::PageList;
use counters::numeral::numeral_text;
use std::alloc::Global;
use style::content::{Keyword, Part};

/// Appends a number in a style.
fn push_number(alloc: Global, text: &mut String, number: i64, style: NumStyle) -> Result<(), NoMem>
    ensures { OnOk result (string_bytes text.new ≡ string_bytes text.old ++ numeral_of style number) }
{
    let numeral = numeral_text(alloc, number, style)?;
    text.push_str(numeral.as_str())?;
    Ok(())
}

/// What a running string is on a page.
fn running_text<'a>(margins: &Margins<'a>, page: usize, name: &str, keyword: Keyword) -> &'a str
    requires can { CanShowMargins margins.now }
    requires page { page < length margins.now.list.now.pages }
    ensures { result.now ≡ string_of margins.now.flow.now.main margins.now.list.now.pages
        margins.now.flow.now.strings page name.now keyword }
{
    margins.strings.text(margins.flow, page, name, keyword)
}

/// How many pages there are.
fn count_of(list: &PageList) -> i64
    ensures { result ≡ pos (length list.now.pages) }
{
    list.pages.as_slice().len() as i64
}

/// Appends what a part prints on a page.
fn push_part(
    alloc: Global,
    text: &mut String,
    margins: &Margins<'_>,
    page: usize,
    part: &Part,
) -> Result<(), NoMem>
    requires can { CanShowMargins margins.now }
    requires page { page < length margins.now.list.now.pages }
    ensures { OnOk result (string_bytes text.new ≡ string_bytes text.old
        ++ spec.part_text (margins_in margins.now) page part.now) }
{
    match part {
        Part::Text(printed) => text.push_str(printed.as_str())?,
        Part::Running(name, keyword) => {
            text.push_str(running_text(margins, page, name.as_str(), *keyword))?
        }
        Part::Page(style) => push_number(alloc, text, margins.numbers[page], *style)?,
        Part::Pages(style) => push_number(alloc, text, count_of(margins.list), *style)?,
        Part::Attr(_) | Part::Counter(..) | Part::Counters(..) | Part::Target(..) | Part::Own => {}
    }
    Ok(())
}

/// The text of a box on a page: those of its parts, one after the other. Its white space isn't collapsed.
pub(crate) fn box_text(
    alloc: Global,
    margins: &Margins<'_>,
    page: usize,
    parts: &[Part],
) -> Result<String, NoMem>
    requires can { CanShowMargins margins.now }
    requires page { page < length margins.now.list.now.pages }
    ensures { IfOk result (λ text. string_bytes text ≡ spec.box_text (margins_in margins.now) page parts.now) }
{
    let mut text = String::new(alloc);
    for part in parts {
        push_part(alloc, &mut text, margins, page, part)?;
    }
    Ok(text)
}
