//! What the declarations of page rules and of margin boxes give.

use crate::sizes::PageSize;
use bk_num::items::Items;
use bk_num::values::{Align, Color};
use style::content::Content;
use style::lists::Families;
use style::long::Given;
use style::values::{FontSize, GivenHeight, Measure, Weight};

/// Where a text stands in the height of its margin box (css-page-3, `vertical-align`).
#[derive(Clone, Copy, Debug, PartialEq, Eq)]
pub enum Upright {
    Top,
    Middle,
    Bottom,
}

/// A declared value of a page or of a margin box. A `FontStyle` is whether it is italic. `None` is no content.
#[derive(Drop)]
pub enum PageLong {
    Size(Given<PageSize>),
    MarginTop(Given<Measure>),
    MarginRight(Given<Measure>),
    MarginBottom(Given<Measure>),
    MarginLeft(Given<Measure>),
    Color(Given<Color>),
    FontFamily(Given<Families>),
    FontSize(Given<FontSize>),
    FontStyle(Given<bool>),
    FontWeight(Given<Weight>),
    LineHeight(Given<GivenHeight>),
    Content(Given<Option<Content>>),
    TextAlign(Given<Align>),
    VerticalAlign(Given<Upright>),
}

/// A declaration with its value read: `margin` gives four entries, each other property one.
#[derive(Drop)]
pub struct PageDecl {
    pub longs: Items<PageLong>,
    pub important: bool,
}
