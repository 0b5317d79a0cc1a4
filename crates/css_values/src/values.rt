//! Reads the value of each longhand.

ghost use Rattle.std.specs.Prelude.{◌≡◌, true};
ghost use Rattle.css_words.specs.Parser.{Reads};
ghost use Rattle.css_values.specs.Sides.{hand_at};
ghost use Rattle.css_values.specs.Values as spec;

use crate::colors::{color, color_or};
use crate::fonts::{count, families, font_size, font_weight, line_height, page_name};
use crate::keywords::{
    book_fill, break_at, break_inside, decoration_break, display, float, hyphens, overflow_wrap,
    slope, text_align, white_space,
};
use crate::measures::{indents, read_measure, widths};
use crate::sides::{SideKind, side_value};
use bk_num::sides::BoxSide;
use css_content::content::{ContentPlace, content};
use css_content::counters::counter_list;
use css_content::strings::string_sets;
use css_content::words::num_style;
use css_words::reader::Reader;
use css_words::unread::Unread;
use std::alloc::Global;
use style::long::{Given, Long, SideLong};
use style::longhand::Longhand;

/// The two words that every property takes (CSS 2.1, 6.2.1; css-cascade-3, 7).
#[derive(Clone, Copy, Debug, PartialEq, Eq)]
pub enum Wide {
    Inherit,
    Initial,
}

/// A value that was read, as a declaration of a longhand.
macro_rules! given {
    ($longhand:ident, $value:expr) => {
        match $value {
            Ok(value) => Ok(Long::$longhand(Given::Value(value))),
            Err(unread) => Err(unread),
        }
    };
}

/// Reads a value of what a box has on a side.
#[tactic(auto, unfolding(crate::specs::Values::read_value))]
fn read_side(
    alloc: Global,
    reader: &mut Reader<'_>,
    kind: SideKind,
    side: BoxSide,
) -> Result<Long, Unread>
    ensures { Reads (λ x. x) (spec.read_value (hand_at kind side) reader.old) result reader.new }
{
    Ok(Long::of_side(side_value(alloc, reader, kind, side)?))
}

/// Reads a value of a longhand whose values are words.
#[tactic(auto, unfolding(crate::specs::Values::read_value))]
fn read_word(reader: &mut Reader<'_>, hand: Longhand) -> Result<Long, Unread>
    requires { spec.is_worded hand ≡ true }
    ensures { Reads (λ x. x) (spec.read_value hand reader.old) result reader.new }
{
    match hand {
        Longhand::Display => given!(Display, display(reader)),
        Longhand::Float => given!(Float, float(reader)),
        Longhand::FontStyle => given!(FontStyle, slope(reader)),
        Longhand::TextAlign => given!(TextAlign, text_align(reader)),
        Longhand::WhiteSpace => given!(WhiteSpace, white_space(reader)),
        Longhand::OverflowWrap => given!(OverflowWrap, overflow_wrap(reader)),
        Longhand::ListStyleType => given!(ListStyleType, num_style(reader)),
        Longhand::BreakBefore => given!(BreakBefore, break_at(reader)),
        Longhand::BreakAfter => given!(BreakAfter, break_at(reader)),
        Longhand::BreakInside => given!(BreakInside, break_inside(reader)),
        Longhand::BoxDecorationBreak => given!(BoxDecorationBreak, decoration_break(reader)),
        Longhand::BookFill => given!(BookFill, book_fill(reader)),
        Longhand::Hyphens => given!(Hyphens, hyphens(reader)),
        _ => unreachable!(),
    }
}

/// Reads a value of a longhand whose values are numbers, lengths or colours.
#[tactic(auto, unfolding(crate::specs::Values::read_value))]
fn read_number(alloc: Global, reader: &mut Reader<'_>, hand: Longhand) -> Result<Long, Unread>
    requires { spec.is_numbered hand ≡ true }
    ensures { Reads (λ x. x) (spec.read_value hand reader.old) result reader.new }
{
    match hand {
        Longhand::Width => given!(Width, read_measure(reader, widths())),
        Longhand::TextIndent => given!(TextIndent, read_measure(reader, indents())),
        Longhand::FontSize => given!(FontSize, font_size(reader)),
        Longhand::FontWeight => given!(FontWeight, font_weight(reader)),
        Longhand::LineHeight => given!(LineHeight, line_height(reader)),
        Longhand::Widows => given!(Widows, count(reader)),
        Longhand::Orphans => given!(Orphans, count(reader)),
        Longhand::Color => given!(Color, color(alloc, reader)),
        Longhand::BackgroundColor => {
            given!(BackgroundColor, color_or(alloc, reader, "transparent"))
        }
        _ => unreachable!(),
    }
}

/// Reads a value of a longhand whose values take memory.
#[tactic(auto, unfolding(crate::specs::Values::read_value))]
fn read_list(alloc: Global, reader: &mut Reader<'_>, hand: Longhand) -> Result<Long, Unread>
    requires { spec.is_listed hand ≡ true }
    ensures { Reads (λ x. x) (spec.read_value hand reader.old) result reader.new }
{
    match hand {
        Longhand::FontFamily => given!(FontFamily, families(alloc, reader)),
        Longhand::Content => given!(Content, content(alloc, reader, ContentPlace::Content)),
        Longhand::CounterReset => given!(CounterReset, counter_list(alloc, reader, 0)),
        Longhand::CounterIncrement => given!(CounterIncrement, counter_list(alloc, reader, 1)),
        Longhand::StringSet => given!(StringSet, string_sets(alloc, reader)),
        Longhand::Page => given!(Page, page_name(alloc, reader)),
        _ => unreachable!(),
    }
}

/// Reads a value of a longhand.
pub(crate) fn read_value(
    alloc: Global,
    reader: &mut Reader<'_>,
    hand: Longhand,
) -> Result<Long, Unread>
    ensures { Reads (λ x. x) (spec.read_value hand reader.old) result reader.new }
{
    match hand {
        Longhand::Margin(side) => read_side(alloc, reader, SideKind::Margin, side),
        Longhand::Padding(side) => read_side(alloc, reader, SideKind::Padding, side),
        Longhand::BorderWidth(side) => read_side(alloc, reader, SideKind::BorderWidth, side),
        Longhand::BorderStyle(side) => read_side(alloc, reader, SideKind::BorderStyle, side),
        Longhand::BorderColor(side) => read_side(alloc, reader, SideKind::BorderColor, side),
        Longhand::Display
        | Longhand::Float
        | Longhand::FontStyle
        | Longhand::TextAlign
        | Longhand::WhiteSpace
        | Longhand::OverflowWrap
        | Longhand::ListStyleType
        | Longhand::BreakBefore
        | Longhand::BreakAfter
        | Longhand::BreakInside
        | Longhand::BoxDecorationBreak
        | Longhand::BookFill
        | Longhand::Hyphens => read_word(reader, hand),
        Longhand::Width
        | Longhand::TextIndent
        | Longhand::FontSize
        | Longhand::FontWeight
        | Longhand::LineHeight
        | Longhand::Widows
        | Longhand::Orphans
        | Longhand::Color
        | Longhand::BackgroundColor => read_number(alloc, reader, hand),
        Longhand::FontFamily
        | Longhand::Content
        | Longhand::CounterReset
        | Longhand::CounterIncrement
        | Longhand::StringSet
        | Longhand::Page => read_list(alloc, reader, hand),
    }
}

/// A value that one of the two words stands for.
pub fn given_by<T: Drop>(wide: Wide) -> Given<T>
    ensures { result ≡ spec.given_by wide }
{
    match wide {
        Wide::Inherit => Given::Inherit,
        Wide::Initial => Given::Initial,
    }
}

/// A longhand with one of the two words.
#[tactic(auto, unfolding(crate::specs::Values::wide_long))]
pub(crate) fn wide_long(hand: Longhand, wide: Wide) -> Long
    ensures { result ≡ spec.wide_long hand wide }
{
    match hand {
        Longhand::Display => Long::Display(given_by(wide)),
        Longhand::Float => Long::Float(given_by(wide)),
        Longhand::Margin(side) => Long::of_side(SideLong::Margin(side, given_by(wide))),
        Longhand::Padding(side) => Long::of_side(SideLong::Padding(side, given_by(wide))),
        Longhand::BorderWidth(side) => Long::of_side(SideLong::BorderWidth(side, given_by(wide))),
        Longhand::BorderStyle(side) => Long::of_side(SideLong::BorderStyle(side, given_by(wide))),
        Longhand::BorderColor(side) => Long::of_side(SideLong::BorderColor(side, given_by(wide))),
        Longhand::Width => Long::Width(given_by(wide)),
        Longhand::Color => Long::Color(given_by(wide)),
        Longhand::BackgroundColor => Long::BackgroundColor(given_by(wide)),
        Longhand::FontFamily => Long::FontFamily(given_by(wide)),
        Longhand::FontSize => Long::FontSize(given_by(wide)),
        Longhand::FontStyle => Long::FontStyle(given_by(wide)),
        Longhand::FontWeight => Long::FontWeight(given_by(wide)),
        Longhand::LineHeight => Long::LineHeight(given_by(wide)),
        Longhand::TextAlign => Long::TextAlign(given_by(wide)),
        Longhand::TextIndent => Long::TextIndent(given_by(wide)),
        Longhand::WhiteSpace => Long::WhiteSpace(given_by(wide)),
        Longhand::OverflowWrap => Long::OverflowWrap(given_by(wide)),
        Longhand::ListStyleType => Long::ListStyleType(given_by(wide)),
        Longhand::Content => Long::Content(given_by(wide)),
        Longhand::CounterReset => Long::CounterReset(given_by(wide)),
        Longhand::CounterIncrement => Long::CounterIncrement(given_by(wide)),
        Longhand::StringSet => Long::StringSet(given_by(wide)),
        Longhand::BreakBefore => Long::BreakBefore(given_by(wide)),
        Longhand::BreakAfter => Long::BreakAfter(given_by(wide)),
        Longhand::BreakInside => Long::BreakInside(given_by(wide)),
        Longhand::Widows => Long::Widows(given_by(wide)),
        Longhand::Orphans => Long::Orphans(given_by(wide)),
        Longhand::Page => Long::Page(given_by(wide)),
        Longhand::BoxDecorationBreak => Long::BoxDecorationBreak(given_by(wide)),
        Longhand::BookFill => Long::BookFill(given_by(wide)),
        Longhand::Hyphens => Long::Hyphens(given_by(wide)),
    }
}
