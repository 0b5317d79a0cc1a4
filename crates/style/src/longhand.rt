//! The longhands that this program has.

ghost use Rattle.std.specs.Prelude.{◌≡◌};
ghost use Rattle.style.specs.Longhands.{LonghandsAgree, number_of};

use bk_num::sides::BoxSide;

/// How many longhands there are, those of a box by each side.
pub const LONGHANDS: usize = 48;

/// They are as many as specs say.
pub fn longhands_agree()
    ensures { LonghandsAgree }
{}

/// A property that isn't a shorthand. Those that there are for each side of a box have the side.
#[derive(Clone, Copy, Debug, PartialEq, Eq)]
pub enum Longhand {
    Display,
    Float,
    Margin(BoxSide),
    Padding(BoxSide),
    BorderWidth(BoxSide),
    BorderStyle(BoxSide),
    BorderColor(BoxSide),
    Width,
    Color,
    BackgroundColor,
    FontFamily,
    FontSize,
    FontStyle,
    FontWeight,
    LineHeight,
    TextAlign,
    TextIndent,
    WhiteSpace,
    OverflowWrap,
    ListStyleType,
    Content,
    CounterReset,
    CounterIncrement,
    StringSet,
    BreakBefore,
    BreakAfter,
    BreakInside,
    Widows,
    Orphans,
    Page,
    BoxDecorationBreak,
    BookFill,
    Hyphens,
}

impl Longhand {
    /// Its place in the list of all `LONGHANDS`, from 0: first the display and the box by its sides, then the rest.
    pub fn number(self) -> u8
        ensures { result ≡ number_of self }
    {
        match self {
            Longhand::Display => 0,
            Longhand::Float => 1,
            Longhand::Margin(side) => 2 + side.place() as u8,
            Longhand::Padding(side) => 6 + side.place() as u8,
            Longhand::BorderWidth(side) => 10 + side.place() as u8,
            Longhand::BorderStyle(side) => 14 + side.place() as u8,
            Longhand::BorderColor(side) => 18 + side.place() as u8,
            Longhand::Width => 22,
            Longhand::Color => 23,
            Longhand::BackgroundColor => 24,
            Longhand::FontFamily => 25,
            Longhand::FontSize => 26,
            Longhand::FontStyle => 27,
            Longhand::FontWeight => 28,
            Longhand::LineHeight => 29,
            Longhand::TextAlign => 30,
            Longhand::TextIndent => 31,
            Longhand::WhiteSpace => 32,
            Longhand::OverflowWrap => 33,
            Longhand::ListStyleType => 34,
            Longhand::Content => 35,
            Longhand::CounterReset => 36,
            Longhand::CounterIncrement => 37,
            Longhand::StringSet => 38,
            Longhand::BreakBefore => 39,
            Longhand::BreakAfter => 40,
            Longhand::BreakInside => 41,
            Longhand::Widows => 42,
            Longhand::Orphans => 43,
            Longhand::Page => 44,
            Longhand::BoxDecorationBreak => 45,
            Longhand::BookFill => 46,
            Longhand::Hyphens => 47,
        }
    }
}
