//! Boxes in short.

ghost use Rattle.std.specs.Prelude.{◌≡◌, ◌&&◌, pos};
ghost use Rattle.bk_num.specs.Ranges.{IsNotAuto, IsNotNegative};
ghost use Rattle.boxes.specs.Contents.{IsGoodBox};

use bk_num::decimal::Decimal;
use bk_num::ids::NameId;
use bk_num::length::Len;
use bk_num::px::Px;
use bk_num::values::{BreakAt, Color};
use boxes::props::BoxProps;

/// The colour of all boxes and texts.
pub const BLACK: Color = Color {
    red: 0,
    green: 0,
    blue: 0,
};

/// A margin: units of 1/64 px, or hundredths of the containing block's width.
#[derive(Clone, Copy, Debug, PartialEq, Eq)]
pub enum Space {
    Units(i32),
    Percent(i16),
}

/// A box with the width `auto`: its vertical margins, borders in units of 1/64 px, vertical paddings in hundredths of
/// the containing block's width, its left padding in units, and what it says of breaks.
#[derive(Clone, Copy, Debug)]
pub struct Shape {
    pub margin_top: Space,
    pub margin_bottom: Space,
    pub border_top: u16,
    pub border_bottom: u16,
    pub padding_top: u16,
    pub padding_bottom: u16,
    pub padding_left: u16,
    pub before: BreakAt,
    pub after: BreakAt,
    pub avoid_inside: bool,
    pub clones: bool,
    pub orphans: u32,
    pub widows: u32,
    pub name: u32,
}

/// A box without margins and edges, which asks nothing of breaks.
pub const PLAIN: Shape = Shape {
    margin_top: Space::Units(0),
    margin_bottom: Space::Units(0),
    border_top: 0,
    border_bottom: 0,
    padding_top: 0,
    padding_bottom: 0,
    padding_left: 0,
    before: BreakAt::Auto,
    after: BreakAt::Auto,
    avoid_inside: false,
    clones: false,
    orphans: 1,
    widows: 1,
    name: 0,
};

/// A length from 0 on, in units.
#[tactic(auto, unfolding(bk_num::specs::Units::clamped))]
pub fn px(units: u16) -> Px
    ensures { result ≡ pos units }
{
    Px::from_units(i64::from(units))
}

fn margin(space: Space) -> Len {
    match space {
        Space::Units(units) => Len::Px(Px::from_units(i64::from(units))),
        Space::Percent(part) => Len::Percent(Decimal::new(i64::from(part), 0)),
    }
}

/// A percentage from 0 on.
fn percent(part: u16) -> Len
    ensures good { IsNotNegative result }
    ensures no_auto { IsNotAuto result }
{
    Len::Percent(Decimal::new(i64::from(part), 0))
}

fn zero() -> Len
    ensures { result ≡ Len.Px (pos 0) }
{
    Len::Px(px(0))
}

/// The properties of a box, sliced where no box may stand again.
pub fn props_of(shape: &Shape, clones: bool) -> BoxProps
    ensures good { IsGoodBox result }
    ensures before { result.before ≡ shape.now.before }
    ensures after { result.after ≡ shape.now.after }
    ensures inside { result.avoid_inside ≡ shape.now.avoid_inside }
    ensures clones { result.clones ≡ (clones && shape.now.clones) }
    ensures orphans { result.orphans ≡ shape.now.orphans }
    ensures widows { result.widows ≡ shape.now.widows }
    ensures name { result.name.0 ≡ shape.now.name }
{
    BoxProps {
        margin: [
            margin(shape.margin_top),
            zero(),
            margin(shape.margin_bottom),
            zero(),
        ],
        border: [px(shape.border_top), px(0), px(shape.border_bottom), px(0)],
        padding: [
            percent(shape.padding_top),
            zero(),
            percent(shape.padding_bottom),
            Len::Px(px(shape.padding_left)),
        ],
        width: Len::Auto,
        before: shape.before,
        after: shape.after,
        avoid_inside: shape.avoid_inside,
        clones: clones && shape.clones,
        widows: shape.widows,
        orphans: shape.orphans,
        name: NameId(shape.name),
        background: None,
        colors: [BLACK; 4],
        node: None,
    }
}
