//! Values of what a box has on each side, one to four of them (CSS 2.1, 8.3 to 8.5).

ghost use Rattle.std.specs.Prelude.{◌≡◌};
ghost use Rattle.css_words.specs.Parser.{Reads};
ghost use Rattle.css_values.specs.Sides as spec;

use crate::borders::{border_color, border_style, border_width};
use crate::measures::{margins, paddings, read_measure};
use bk_num::sides::{BoxSide, Sides};
use css_words::reader::Reader;
use css_words::unread::Unread;
use std::alloc::Global;
use style::long::{Given, SideLong};
use style::longhand::Longhand;

/// What a box has on each side.
#[derive(Clone, Copy, Debug, PartialEq, Eq)]
pub enum SideKind {
    Margin,
    Padding,
    BorderWidth,
    BorderStyle,
    BorderColor,
}

/// The longhand of it on a side.
pub(crate) fn hand_at(kind: SideKind, side: BoxSide) -> Longhand
    ensures { result ≡ spec.hand_at kind side }
{
    match kind {
        SideKind::Margin => Longhand::Margin(side),
        SideKind::Padding => Longhand::Padding(side),
        SideKind::BorderWidth => Longhand::BorderWidth(side),
        SideKind::BorderStyle => Longhand::BorderStyle(side),
        SideKind::BorderColor => Longhand::BorderColor(side),
    }
}

/// Reads a value of it on a side.
#[tactic(auto, unfolding(crate::specs::Sides::side_value))]
pub(crate) fn side_value(
    alloc: Global,
    reader: &mut Reader<'_>,
    kind: SideKind,
    side: BoxSide,
) -> Result<SideLong, Unread>
    ensures { Reads (λ x. x) (spec.side_value kind side reader.old) result reader.new }
{
    Ok(match kind {
        SideKind::Margin => SideLong::Margin(side, Given::Value(read_measure(reader, margins())?)),
        SideKind::Padding => SideLong::Padding(
            side,
            Given::Value(read_measure(reader, paddings())?),
        ),
        SideKind::BorderWidth => SideLong::BorderWidth(side, Given::Value(border_width(reader)?)),
        SideKind::BorderStyle => SideLong::BorderStyle(side, Given::Value(border_style(reader)?)),
        SideKind::BorderColor => SideLong::BorderColor(
            side,
            Given::Value(border_color(alloc, reader)?),
        ),
    })
}

/// Reads a value, or none at the end.
#[tactic(auto, unfolding(crate::specs::Sides::optional))]
fn optional_value(
    alloc: Global,
    reader: &mut Reader<'_>,
    kind: SideKind,
) -> Result<Option<SideLong>, Unread>
    ensures { Reads (λ x. x) (spec.optional (spec.top_value kind) reader.old) result reader.new }
{
    if reader.peek().is_none() {
        return Ok(None);
    }
    Ok(Some(side_value(alloc, reader, kind, BoxSide::Top)?))
}

/// The values of the four sides from one to four.
fn sides_of<T: Copy + Drop>(
    first: T,
    second: Option<T>,
    third: Option<T>,
    fourth: Option<T>,
) -> Sides<T>
    ensures { result ≡ spec.sides_of first second third fourth }
{
    let right = second.unwrap_or(first);
    Sides {
        top: first,
        right,
        bottom: third.unwrap_or(first),
        left: fourth.unwrap_or(right),
    }
}

/// Reads one to four values for the four sides; each is still one of the top side.
#[tactic(auto, unfolding(crate::specs::Sides::four))]
pub(crate) fn four_values(
    alloc: Global,
    reader: &mut Reader<'_>,
    kind: SideKind,
) -> Result<Sides<SideLong>, Unread>
    ensures { Reads (λ x. x) (spec.four (spec.top_value kind) reader.old) result reader.new }
{
    let first = side_value(alloc, reader, kind, BoxSide::Top)?;
    let second = optional_value(alloc, reader, kind)?;
    let third = optional_value(alloc, reader, kind)?;
    let fourth = optional_value(alloc, reader, kind)?;
    Ok(sides_of(first, second, third, fourth))
}
