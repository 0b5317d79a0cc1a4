//! Values of borders (CSS 2.1, 8.5).

ghost use Rattle.std.specs.Prelude.{◌≡◌, option_map};
ghost use Rattle.css_tok.specs.Tokens.{item_in};
ghost use Rattle.css_words.specs.Parser.{Reads};
ghost use Rattle.css_words.specs.Table.{find_word};
ghost use Rattle.css_values.specs.Borders as spec;
ghost use Rattle.css_values.specs.Words as words;

use crate::colors::color_or;
use crate::measures::{lengths, read_measure};
use bk_num::px::Px;
use bk_num::values::Color;
use css_tok::kind::CssKind;
use css_tok::tokens::CssToken;
use css_words::reader::Reader;
use css_words::table::find_word;
use css_words::unread::Unread;
use css_words::words::{of_kind, slice_of};
use std::alloc::Global;
use style::initial::medium_width;
use style::values::{BorderStyle, Measure};

/// One of the three values of a border.
#[derive(Clone, Copy, Debug)]
pub enum BorderPart {
    Width(Measure),
    Style(BorderStyle),
    Color(Option<Color>),
}

/// The values of a border, as far as they are given.
#[derive(Clone, Copy, Debug)]
pub struct Border {
    pub width: Option<Measure>,
    pub style: Option<BorderStyle>,
    pub color: Option<Option<Color>>,
}

#[tactic(auto, unfolding(crate::specs::Words::border_widths))]
fn width_of(word: &str) -> Option<i64>
    ensures { result ≡ find_word words.border_widths word.now }
{
    find_word(
        &[
            ("thin", 64),
            ("medium", i64::from(medium_width().units())),
            ("thick", 320),
        ],
        word,
    )
}

#[tactic(auto, unfolding(crate::specs::Words::border_styles))]
fn style_of(word: &str) -> Option<BorderStyle>
    ensures { result ≡ find_word words.border_styles word.now }
{
    find_word(
        &[
            ("none", BorderStyle::Off),
            ("hidden", BorderStyle::Hidden),
            ("solid", BorderStyle::Solid),
            ("dotted", BorderStyle::Solid),
            ("dashed", BorderStyle::Solid),
            ("double", BorderStyle::Solid),
            ("groove", BorderStyle::Solid),
            ("ridge", BorderStyle::Solid),
            ("inset", BorderStyle::Solid),
            ("outset", BorderStyle::Solid),
        ],
        word,
    )
}

#[tactic(auto, unfolding(crate::specs::Borders::width_word))]
fn width_word(token: Option<CssToken<'_>>) -> Option<i64>
    ensures { result ≡ spec.width_word (option_map item_in token.entry) }
{
    if !of_kind(CssKind::Ident, token) {
        return None;
    }
    width_of(slice_of(token))
}

#[tactic(auto, unfolding(crate::specs::Borders::style_word))]
fn style_word(token: Option<CssToken<'_>>) -> Option<BorderStyle>
    ensures { result ≡ spec.style_word (option_map item_in token.entry) }
{
    if !of_kind(CssKind::Ident, token) {
        return None;
    }
    style_of(slice_of(token))
}

/// Reads a width of a border.
#[tactic(auto, unfolding(crate::specs::Borders::border_width))]
pub fn border_width(reader: &mut Reader<'_>) -> Result<Measure, Unread>
    ensures { Reads (λ x. x) (spec.border_width reader.old) result reader.new }
{
    match width_word(reader.peek()) {
        None => read_measure(reader, lengths()),
        Some(units) => {
            reader.advance();
            Ok(Measure::Px(Px::from_units(units)))
        }
    }
}

/// Reads a style of a border.
#[tactic(auto, unfolding(crate::specs::Borders::border_style))]
pub fn border_style(reader: &mut Reader<'_>) -> Result<BorderStyle, Unread>
    ensures { Reads (λ x. x) (spec.border_style reader.old) result reader.new }
{
    match style_word(reader.peek()) {
        None => Err(Unread::NoReading),
        Some(style) => {
            reader.advance();
            Ok(style)
        }
    }
}

/// Reads a colour of a border: None is the element's.
pub fn border_color(alloc: Global, reader: &mut Reader<'_>) -> Result<Option<Color>, Unread>
    ensures { Reads (λ x. x) (spec.border_color reader.old) result reader.new }
{
    color_or(alloc, reader, "currentcolor")
}

#[tactic(auto, unfolding(crate::specs::Borders::is_width))]
fn is_width(token: Option<CssToken<'_>>) -> bool
    ensures { result ≡ spec.is_width (option_map item_in token.entry) }
{
    of_kind(CssKind::Number, token)
        || of_kind(CssKind::Dimension, token)
        || width_word(token).is_some()
}

/// Reads one of the three values of a border.
#[tactic(auto, unfolding(crate::specs::Borders::border_part))]
fn border_part(alloc: Global, reader: &mut Reader<'_>) -> Result<BorderPart, Unread>
    ensures { Reads (λ x. x) (spec.border_part reader.old) result reader.new }
{
    let token = reader.peek();
    if is_width(token) {
        return Ok(BorderPart::Width(border_width(reader)?));
    }
    if style_word(token).is_some() {
        return Ok(BorderPart::Style(border_style(reader)?));
    }
    Ok(BorderPart::Color(border_color(alloc, reader)?))
}

fn no_border() -> Border
    ensures { result ≡ spec.no_border }
{
    Border {
        width: None,
        style: None,
        color: None,
    }
}

/// A border with one value more; None where it has such a value.
#[tactic(auto, unfolding(crate::specs::Borders::with_part))]
fn with_part(border: &Border, part: &BorderPart) -> Option<Border>
    ensures { result ≡ spec.with_part border.now part.now }
{
    match part {
        BorderPart::Width(_) if border.width.is_some() => None,
        BorderPart::Width(width) => Some(Border {
            width: Some(*width),
            style: border.style,
            color: border.color,
        }),
        BorderPart::Style(_) if border.style.is_some() => None,
        BorderPart::Style(style) => Some(Border {
            width: border.width,
            style: Some(*style),
            color: border.color,
        }),
        BorderPart::Color(_) if border.color.is_some() => None,
        BorderPart::Color(color) => Some(Border {
            width: border.width,
            style: border.style,
            color: Some(*color),
        }),
    }
}

#[tactic(auto, unfolding(crate::specs::Borders::add_part))]
fn add_part(alloc: Global, reader: &mut Reader<'_>, border: &Border) -> Result<Border, Unread>
    ensures { Reads (λ x. x) (spec.add_part border.now reader.old) result reader.new }
{
    let part = border_part(alloc, reader)?;
    match with_part(border, &part) {
        None => Err(Unread::NoReading),
        Some(more) => Ok(more),
    }
}

#[tactic(auto, unfolding(crate::specs::Borders::add_next))]
fn add_next(alloc: Global, reader: &mut Reader<'_>, border: &Border) -> Result<Border, Unread>
    ensures { Reads (λ x. x) (spec.add_next border.now reader.old) result reader.new }
{
    if reader.peek().is_none() {
        return Ok(*border);
    }
    add_part(alloc, reader, border)
}

fn add_first(alloc: Global, reader: &mut Reader<'_>) -> Result<Border, Unread>
    ensures { Reads (λ x. x) (spec.add_part spec.no_border reader.old) result reader.new }
{
    add_part(alloc, reader, &no_border())
}

#[tactic(auto, unfolding(crate::specs::Borders::add_two))]
fn add_two(alloc: Global, reader: &mut Reader<'_>, border: &Border) -> Result<Border, Unread>
    ensures { Reads (λ x. x) (spec.add_two border.now reader.old) result reader.new }
{
    match add_next(alloc, reader, border) {
        Ok(more) => add_next(alloc, reader, &more),
        Err(unread) => Err(unread),
    }
}

/// Reads a width, a style and a colour in any order, each at most once and at least one.
#[tactic(auto, unfolding(crate::specs::Borders::border))]
pub fn read_border(alloc: Global, reader: &mut Reader<'_>) -> Result<Border, Unread>
    ensures { Reads (λ x. x) (spec.border reader.old) result reader.new }
{
    match add_first(alloc, reader) {
        Ok(one) => add_two(alloc, reader, &one),
        Err(unread) => Err(unread),
    }
}
