//! How the texts of pages and of their margin boxes are set, as values.

use bk_num::name::Name;
use bk_num::px::Px;
use bk_num::values::{Align, Color};
use css_page::values::Upright;
use style::content::Part;
use style::values::LineHeight;

/// How the texts of a page are set: what its margin boxes inherit. The families are borrowed from the page rules; the
/// size is in units of 1/64 px.
#[derive(Drop)]
pub struct PageSetting<'s> {
    pub families: &'s [Name],
    pub italic: bool,
    pub weight: u16,
    pub size: Px,
    pub line_height: LineHeight,
    pub color: Color,
}

/// Where a text stands in its margin box: across it, and in its height.
#[derive(Clone, Copy, Debug, PartialEq, Eq)]
pub struct Alignment {
    pub align: Align,
    pub upright: Upright,
}

/// How the text of a margin box is set: its content, where it stands in its box, its font, its used line height and its
/// colour (css-page-3, page-margin boxes). Content and families are borrowed from the page rules; the size and the line
/// height are in units of 1/64 px.
#[derive(Clone, Copy)]
pub struct MarginStyle<'s> {
    pub content: &'s [Part],
    pub align: Align,
    pub upright: Upright,
    pub families: &'s [Name],
    pub italic: bool,
    pub weight: u16,
    pub size: Px,
    pub line_height: Px,
    pub color: Color,
}

/// A margin box that has content, by its number from 0 to 15.
#[derive(Clone, Copy)]
pub struct MarginBox<'s> {
    pub place: u32,
    pub style: MarginStyle<'s>,
}
