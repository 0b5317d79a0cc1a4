//! Plain values of properties, which several layers name.

/// A colour of the sRGB space, by its three parts.
#[derive(Clone, Copy, Debug, PartialEq, Eq)]
pub struct Color {
    pub red: u8,
    pub green: u8,
    pub blue: u8,
}

/// Black.
pub const BLACK: Color = Color {
    red: 0,
    green: 0,
    blue: 0,
};

/// What `break-before` and `break-after` ask: `recto` is read as `Right` and `verso` as `Left`.
#[derive(Clone, Copy, Debug, PartialEq, Eq)]
pub enum BreakAt {
    Auto,
    Avoid,
    Column,
    Page,
    Left,
    Right,
}

/// How the lines of a block are aligned (CSS 2.1, `text-align`).
#[derive(Clone, Copy, Debug, PartialEq, Eq)]
pub enum Align {
    Left,
    Right,
    Center,
    Justify,
}

/// How white space is treated (CSS 2.1, `white-space`).
#[derive(Clone, Copy, Debug, PartialEq, Eq)]
pub enum WhiteSpace {
    Normal,
    NoWrap,
    Pre,
    PreWrap,
    PreLine,
}

/// A side of a spread of two pages.
#[derive(Clone, Copy, Debug, PartialEq, Eq)]
pub enum Side {
    Left,
    Right,
}

/// An element, or one of the pseudo-elements that stand by it.
#[derive(Clone, Copy, Debug, PartialEq, Eq)]
pub enum Pseudo {
    Element,
    Before,
    After,
    Call,
    Marker,
}

/// How a number is printed (CSS 2.1, `list-style-type`).
#[derive(Clone, Copy, Debug, PartialEq, Eq)]
pub enum NumStyle {
    Decimal,
    LeadingZero,
    LowerRoman,
    UpperRoman,
    LowerAlpha,
    UpperAlpha,
    Disc,
    Circle,
    Square,
    Nothing,
}
