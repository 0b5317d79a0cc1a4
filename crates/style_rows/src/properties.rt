//! Computed values of an element or a pseudo-element. Lengths are in units of 1/64 px.

use crate::documents::Styled;
use crate::questions::{Question, cut, node_of, pseudo_of};
use bk_num::ids::NameId;
use bk_num::length::Len;
use bk_num::name::NoMem;
use bk_num::values::{BreakAt, NumStyle, WhiteSpace};
use computed_values::fonts::used_line_height;
use style::names::Names;
use style::style::Style;
use style::values::{Display, LineHeight};

fn number(style: &Style, property: &str) -> Option<i64> {
    match property {
        "font-size" => Some(style.font_size.wide_units()),
        "line-height" => Some(used_line_height(style.font_size, &style.line_height).wide_units()),
        "font-weight" => Some(i64::from(style.font_weight)),
        "border-top-width" => Some(style.border_top_width.wide_units()),
        "border-top-red" => Some(i64::from(style.border_top_color.red)),
        "widows" => Some(i64::from(style.widows)),
        "page-number" => Some(i64::from(style.page.0)),
        _ => None,
    }
}

fn length<'s>(style: &'s Style, property: &str) -> Option<&'s Len> {
    match property {
        "margin-top" => Some(&style.margin_top),
        "margin-bottom" => Some(&style.margin_bottom),
        "margin-left" => Some(&style.margin_left),
        "padding-left" => Some(&style.padding_left),
        _ => None,
    }
}

fn display_word(display: Display) -> &'static str {
    match display {
        Display::Block => "block",
        Display::ListItem => "list-item",
        Display::Inline => "inline",
        Display::Hidden => "none",
    }
}

fn marker_word(style: NumStyle) -> &'static str {
    match style {
        NumStyle::Decimal => "decimal",
        NumStyle::Disc => "disc",
        _ => "another",
    }
}

fn height_word(height: &LineHeight) -> &'static str {
    match height {
        LineHeight::Number(_) => "number",
        LineHeight::Px(_) => "length",
    }
}

fn first_family(style: &Style) -> &str {
    match style.font_family.as_slice().first() {
        Some(family) => family.as_str(),
        None => "none",
    }
}

/// A value that is a word. `line-height-as` is whether a number or a length is inherited.
fn word<'s>(style: &'s Style, names: &'s Names, property: &str) -> &'s str {
    match property {
        "display" => display_word(style.display),
        "list-style-type" => marker_word(style.list_style_type),
        "line-height-as" => height_word(&style.line_height),
        "break-after" if style.break_after == BreakAt::Avoid => "avoid",
        "break-after" if style.break_after == BreakAt::Column => "column",
        "box-decoration-break" if style.box_decoration_break => "clone",
        "box-decoration-break" => "slice",
        "book-fill" if style.book_fill => "fit",
        "book-fill" => "greedy",
        "hyphens" if style.hyphens => "auto",
        "hyphens" => "manual",
        "white-space" if style.white_space == WhiteSpace::Pre => "pre",
        "font-style" if style.font_style => "italic",
        "font-family" => first_family(style),
        "page" => names.text(style.page).unwrap_or("another"),
        _ => "another",
    }
}

fn push_length(answer: &mut String, length: &Len) -> Result<(), NoMem> {
    match length {
        Len::Px(length) => Ok(write!(answer, "{}", length.units())?),
        Len::Percent(part) => Ok(write!(answer, "{}%", part.units())?),
        Len::Auto => Ok(answer.push_str("auto")?),
    }
}

fn push_other(
    answer: &mut String,
    style: &Style,
    names: &Names,
    property: &str,
) -> Result<(), NoMem> {
    match number(style, property) {
        Some(number) => Ok(write!(answer, "{number}")?),
        None => Ok(answer.push_str(word(style, names, property))?),
    }
}

fn push_value(
    answer: &mut String,
    style: &Style,
    names: &Names,
    property: &str,
) -> Result<(), NoMem> {
    match length(style, property) {
        Some(length) => push_length(answer, length),
        None => push_other(answer, style, names, property),
    }
}

/// A property at a place: whether the element is shown, or a computed value, `-` where there is no style.
fn push_asked(
    answer: &mut String,
    styled: &Styled<'_>,
    at: &str,
    property: &str,
) -> Result<(), NoMem> {
    let (node, word) = cut(at, ' ');
    let node = node_of(node);
    if property == "shown" {
        let shown = styled.styles.is_shown(node);
        return Ok(answer.push_str(if shown { "yes" } else { "no" })?);
    }
    match styled.styles.of(node, pseudo_of(word)) {
        Some(style) => push_value(answer, style, styled.names, property),
        None => Ok(answer.push('-')?),
    }
}

/// The values of some properties at a place, with a space between them.
pub(crate) fn push_computed(
    answer: &mut String,
    styled: &Styled<'_>,
    question: &Question<'_>,
) -> Result<(), NoMem> {
    for (number, property) in question.fourth.split(' ').enumerate() {
        if number > 0 {
            answer.push(' ')?;
        }
        push_asked(answer, styled, question.third, property)?;
    }
    Ok(())
}

/// The names of pages in the order of their numbers, each in quotes and with a space after it, and how many they are.
pub(crate) fn push_names(answer: &mut String, names: &Names) -> Result<(), NoMem> {
    for number in 0..=names.len() {
        match names.text(NameId(number)) {
            Some(name) => write!(answer, "\"{name}\" ")?,
            None => write!(answer, "{number}")?,
        }
    }
    Ok(())
}
