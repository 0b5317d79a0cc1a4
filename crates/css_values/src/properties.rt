//! The properties.

ghost use Rattle.std.specs.Prelude.{◌≡◌};
ghost use Rattle.css_words.specs.Table.{find_word};
ghost use Rattle.css_values.specs.Properties as spec;

use crate::shorthands::Shorthand;
use crate::sides::SideKind;
use bk_num::sides::BoxSide;
use css_words::table::find_word;
use style::longhand::Longhand;

/// What a property's name stands for.
#[derive(Clone, Copy, Debug, PartialEq, Eq)]
pub enum Property {
    /// One longhand.
    One(Longhand),
    /// `break-before` by the words of `page-break-before`.
    PageBreakBefore,
    /// `break-after` by the words of `page-break-after`.
    PageBreakAfter,
    /// `break-inside` by the words of `page-break-inside`.
    PageBreakInside,
    /// The longhands of a shorthand.
    Several(Shorthand),
}

/// The longhands of a box's sides by their names.
#[tactic(auto, unfolding(crate::specs::Properties::side_hands))]
fn side_hand(name: &str) -> Option<Longhand>
    ensures { result ≡ find_word spec.side_hands name.now }
{
    find_word(
        &[
            ("margin-top", Longhand::Margin(BoxSide::Top)),
            ("margin-right", Longhand::Margin(BoxSide::Right)),
            ("margin-bottom", Longhand::Margin(BoxSide::Bottom)),
            ("margin-left", Longhand::Margin(BoxSide::Left)),
            ("padding-top", Longhand::Padding(BoxSide::Top)),
            ("padding-right", Longhand::Padding(BoxSide::Right)),
            ("padding-bottom", Longhand::Padding(BoxSide::Bottom)),
            ("padding-left", Longhand::Padding(BoxSide::Left)),
            ("border-top-width", Longhand::BorderWidth(BoxSide::Top)),
            ("border-right-width", Longhand::BorderWidth(BoxSide::Right)),
            (
                "border-bottom-width",
                Longhand::BorderWidth(BoxSide::Bottom),
            ),
            ("border-left-width", Longhand::BorderWidth(BoxSide::Left)),
            ("border-top-style", Longhand::BorderStyle(BoxSide::Top)),
            ("border-right-style", Longhand::BorderStyle(BoxSide::Right)),
            (
                "border-bottom-style",
                Longhand::BorderStyle(BoxSide::Bottom),
            ),
            ("border-left-style", Longhand::BorderStyle(BoxSide::Left)),
            ("border-top-color", Longhand::BorderColor(BoxSide::Top)),
            ("border-right-color", Longhand::BorderColor(BoxSide::Right)),
            (
                "border-bottom-color",
                Longhand::BorderColor(BoxSide::Bottom),
            ),
            ("border-left-color", Longhand::BorderColor(BoxSide::Left)),
        ],
        name,
    )
}

/// The other longhands by their names.
#[tactic(auto, unfolding(crate::specs::Properties::lone_hands))]
fn lone_hand(name: &str) -> Option<Longhand>
    ensures { result ≡ find_word spec.lone_hands name.now }
{
    find_word(
        &[
            ("display", Longhand::Display),
            ("float", Longhand::Float),
            ("width", Longhand::Width),
            ("color", Longhand::Color),
            ("background-color", Longhand::BackgroundColor),
            ("font-family", Longhand::FontFamily),
            ("font-size", Longhand::FontSize),
            ("font-style", Longhand::FontStyle),
            ("font-weight", Longhand::FontWeight),
            ("line-height", Longhand::LineHeight),
            ("text-align", Longhand::TextAlign),
            ("text-indent", Longhand::TextIndent),
            ("white-space", Longhand::WhiteSpace),
            ("overflow-wrap", Longhand::OverflowWrap),
            ("list-style-type", Longhand::ListStyleType),
            ("content", Longhand::Content),
            ("counter-reset", Longhand::CounterReset),
            ("counter-increment", Longhand::CounterIncrement),
            ("string-set", Longhand::StringSet),
            ("break-before", Longhand::BreakBefore),
            ("break-after", Longhand::BreakAfter),
            ("break-inside", Longhand::BreakInside),
            ("widows", Longhand::Widows),
            ("orphans", Longhand::Orphans),
            ("page", Longhand::Page),
            ("box-decoration-break", Longhand::BoxDecorationBreak),
            ("book-fill", Longhand::BookFill),
            ("hyphens", Longhand::Hyphens),
            ("word-wrap", Longhand::OverflowWrap),
            ("background", Longhand::BackgroundColor),
            ("list-style", Longhand::ListStyleType),
        ],
        name,
    )
}

/// The shorthands by their names.
#[tactic(auto, unfolding(crate::specs::Properties::shorthands))]
fn shorthand_of(name: &str) -> Option<Shorthand>
    ensures { result ≡ find_word spec.shorthands name.now }
{
    find_word(
        &[
            ("margin", Shorthand::Sides(SideKind::Margin)),
            ("padding", Shorthand::Sides(SideKind::Padding)),
            ("border-width", Shorthand::Sides(SideKind::BorderWidth)),
            ("border-style", Shorthand::Sides(SideKind::BorderStyle)),
            ("border-color", Shorthand::Sides(SideKind::BorderColor)),
            ("border", Shorthand::Border),
            ("border-top", Shorthand::BorderSide(BoxSide::Top)),
            ("border-right", Shorthand::BorderSide(BoxSide::Right)),
            ("border-bottom", Shorthand::BorderSide(BoxSide::Bottom)),
            ("border-left", Shorthand::BorderSide(BoxSide::Left)),
        ],
        name,
    )
}

/// The properties that set a longhand of another name by words of their own.
#[tactic(auto, unfolding(crate::specs::Properties::page_breaks))]
fn page_break(name: &str) -> Option<Property>
    ensures { result ≡ find_word spec.page_breaks name.now }
{
    find_word(
        &[
            ("page-break-before", Property::PageBreakBefore),
            ("page-break-after", Property::PageBreakAfter),
            ("page-break-inside", Property::PageBreakInside),
        ],
        name,
    )
}

/// The property of a name, ASCII case aside.
#[tactic(auto, unfolding(crate::specs::Properties::property_of))]
pub(crate) fn property_of(name: &str) -> Option<Property>
    ensures { result ≡ spec.property_of name.now }
{
    if let Some(hand) = side_hand(name) {
        return Some(Property::One(hand));
    }
    if let Some(hand) = lone_hand(name) {
        return Some(Property::One(hand));
    }
    if let Some(shorthand) = shorthand_of(name) {
        return Some(Property::Several(shorthand));
    }
    page_break(name)
}
