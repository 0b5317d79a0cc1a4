//! The properties of pages and of margin boxes.

ghost use Rattle.std.specs.Prelude.{◌≡◌};
ghost use Rattle.page_ctx.specs.Winners as spec;

use bk_num::sides::BoxSide;
use css_page::values::PageLong;

/// A property of a page or of a margin box.
#[derive(Clone, Copy, Debug, PartialEq, Eq)]
pub enum PageProperty {
    Size,
    Margin(BoxSide),
    Color,
    FontFamily,
    FontSize,
    FontStyle,
    FontWeight,
    LineHeight,
    Content,
    TextAlign,
    VerticalAlign,
}

impl PageProperty {
    /// Its place among all 14, from 0.
    fn number(self) -> u8
        ensures { result ≡ spec.number_of self }
    {
        match self {
            PageProperty::Size => 0,
            PageProperty::Margin(side) => 1 + side.place() as u8,
            PageProperty::Color => 5,
            PageProperty::FontFamily => 6,
            PageProperty::FontSize => 7,
            PageProperty::FontStyle => 8,
            PageProperty::FontWeight => 9,
            PageProperty::LineHeight => 10,
            PageProperty::Content => 11,
            PageProperty::TextAlign => 12,
            PageProperty::VerticalAlign => 13,
        }
    }
}

/// The property that a value is declared of.
fn property_of(long: &PageLong) -> PageProperty
    ensures { result ≡ spec.property_of long.now }
{
    match long {
        PageLong::Size(_) => PageProperty::Size,
        PageLong::MarginTop(_) => PageProperty::Margin(BoxSide::Top),
        PageLong::MarginRight(_) => PageProperty::Margin(BoxSide::Right),
        PageLong::MarginBottom(_) => PageProperty::Margin(BoxSide::Bottom),
        PageLong::MarginLeft(_) => PageProperty::Margin(BoxSide::Left),
        PageLong::Color(_) => PageProperty::Color,
        PageLong::FontFamily(_) => PageProperty::FontFamily,
        PageLong::FontSize(_) => PageProperty::FontSize,
        PageLong::FontStyle(_) => PageProperty::FontStyle,
        PageLong::FontWeight(_) => PageProperty::FontWeight,
        PageLong::LineHeight(_) => PageProperty::LineHeight,
        PageLong::Content(_) => PageProperty::Content,
        PageLong::TextAlign(_) => PageProperty::TextAlign,
        PageLong::VerticalAlign(_) => PageProperty::VerticalAlign,
    }
}

/// Whether a value is declared of a property.
pub fn is_of(property: PageProperty, long: &PageLong) -> bool
    ensures { result ≡ spec.is_of property long.now }
{
    property_of(long).number() == property.number()
}
