//! Values of longhands, declared and computed.

use bk_num::decimal::Decimal;
use bk_num::px::Px;

/// The boxes that an element makes: `none` is `Hidden`, and every block but a list item is `Block`.
#[derive(Clone, Copy, Debug, PartialEq, Eq)]
pub enum Display {
    Inline,
    Block,
    ListItem,
    Hidden,
}

/// A border's style: `none` is `Off`, and each style that paints is `Solid`.
#[derive(Clone, Copy, Debug, PartialEq, Eq)]
pub enum BorderStyle {
    Off,
    Hidden,
    Solid,
}

/// A declared length or percentage, or `auto`. An absolute length is `Px`, and so is the number 0.
#[derive(Clone, Copy, Debug)]
pub enum Measure {
    Px(Px),
    Em(Decimal),
    Rem(Decimal),
    Ex(Decimal),
    Percent(Decimal),
    Auto,
}

/// A declared size of a font. The words from `xx-small` to `xx-large` are lengths.
#[derive(Clone, Copy, Debug)]
pub enum FontSize {
    Size(Measure),
    Smaller,
    Larger,
}

/// A declared weight of a font, from 100 to 900.
#[derive(Clone, Copy, Debug)]
pub enum Weight {
    Number(u16),
    Bolder,
    Lighter,
}

/// A computed height of lines: a number is of each element's own font size.
#[derive(Clone, Copy, Debug)]
pub enum LineHeight {
    Number(Decimal),
    Px(Px),
}

/// A declared height of lines. `normal` is the number 1.25.
#[derive(Clone, Copy, Debug)]
pub enum GivenHeight {
    Number(Decimal),
    Size(Measure),
}
