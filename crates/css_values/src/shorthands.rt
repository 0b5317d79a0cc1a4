//! Shorthands: the longhands that their values give, in the order of the longhands (CSS 2.1, 8.3 to 8.5).

ghost use Rattle.std.specs.Prelude.{◌≡◌, ◌++◌, ◌∷◌, [], OnOk};
ghost use Rattle.bk_num.specs.Sides.{at, each, list_of};
ghost use Rattle.css_words.specs.Parser.{Reads, Owns};
ghost use Rattle.css_values.specs.Shorthands as spec;
ghost use Rattle.css_values.specs.Sides.{hand_at};
ghost use Rattle.css_values.specs.declared.shorthands.Shorthand.TheVariants as several;
ghost use Rattle.style.specs.Longs.{on_side};

use crate::borders::{Border, read_border};
use crate::sides::{SideKind, four_values, hand_at};
use crate::values::{Wide, wide_long};
use bk_num::items::Items;
use bk_num::name::NoMem;
use bk_num::sides::{BoxSide, Sides};
use css_words::reader::Reader;
use css_words::unread::Unread;
use std::alloc::Global;
use style::long::{Given, Long, SideLong};

/// A property that sets several longhands.
#[derive(Clone, Copy, Debug, PartialEq, Eq)]
pub enum Shorthand {
    /// What a box has on each side.
    Sides(SideKind),
    /// The borders of all sides.
    Border,
    /// The border of a side.
    BorderSide(BoxSide),
}

/// Adds four longhands at the end.
fn add(longs: &mut Items<Long>, one: Long, two: Long, three: Long, four: Long) -> Result<(), NoMem>
    ensures { OnOk result (longs.new ≡ longs.old ++ one ∷ two ∷ three ∷ four ∷ []) }
{
    let first = longs.push(one);
    let second = longs.push(two);
    let third = longs.push(three);
    let fourth = longs.push(four);
    first?;
    second?;
    third?;
    fourth
}

/// The list of three longhands.
fn three(alloc: Global, one: Long, two: Long, three: Long) -> Result<Items<Long>, Unread>
    ensures { Owns (one ∷ two ∷ three ∷ []) result }
{
    let mut longs = Items::new(alloc);
    let first = longs.push(one);
    let second = longs.push(two);
    let third = longs.push(three);
    first?;
    second?;
    third?;
    Ok(longs)
}

/// Adds a longhand of each side at the end; each value goes to its own side.
fn add_sides(longs: &mut Items<Long>, values: Sides<SideLong>) -> Result<(), NoMem>
    ensures { OnOk result (longs.new ≡ longs.old ++ spec.sided (λ s. on_side s (at values s))) }
{
    add(
        longs,
        Long::of_side(values.top.on(BoxSide::Top)),
        Long::of_side(values.right.on(BoxSide::Right)),
        Long::of_side(values.bottom.on(BoxSide::Bottom)),
        Long::of_side(values.left.on(BoxSide::Left)),
    )
}

/// The longhands of all sides; each value goes to its own side.
fn sided_longs(alloc: Global, values: Sides<SideLong>) -> Result<Items<Long>, Unread>
    ensures { Owns (spec.sided (λ s. on_side s (at values s))) result }
{
    let mut longs = Items::new(alloc);
    add_sides(&mut longs, values)?;
    Ok(longs)
}

/// Reads the values of all sides.
#[tactic(auto, unfolding(crate::specs::Shorthands::read_sides))]
fn read_sides(alloc: Global, reader: &mut Reader<'_>, kind: SideKind) -> Result<Items<Long>, Unread>
    ensures { Reads (λ x. x) (spec.read_sides kind reader.old) result reader.new }
{
    match four_values(alloc, reader, kind) {
        Ok(values) => sided_longs(alloc, values),
        Err(unread) => Err(unread),
    }
}

/// What is left out is initial.
fn or_initial<T: Copy>(value: Option<T>) -> Given<T>
    ensures { result ≡ spec.or_initial value }
{
    match value {
        Some(value) => Given::Value(value),
        None => Given::Initial,
    }
}

/// The width of a border on a side.
fn width_on(border: &Border, side: BoxSide) -> SideLong
    ensures { result ≡ spec.width_on border.now side }
{
    SideLong::BorderWidth(side, or_initial(border.width))
}

/// The style of a border on a side.
fn style_on(border: &Border, side: BoxSide) -> SideLong
    ensures { result ≡ spec.style_on border.now side }
{
    SideLong::BorderStyle(side, or_initial(border.style))
}

/// The colour of a border on a side.
fn color_on(border: &Border, side: BoxSide) -> SideLong
    ensures { result ≡ spec.color_on border.now side }
{
    SideLong::BorderColor(side, or_initial(border.color))
}

/// The longhands of one side's border.
fn side_longs(alloc: Global, border: &Border, side: BoxSide) -> Result<Items<Long>, Unread>
    ensures { Owns (spec.side_longs border.now side) result }
{
    three(
        alloc,
        Long::of_side(width_on(border, side)),
        Long::of_side(style_on(border, side)),
        Long::of_side(color_on(border, side)),
    )
}

/// Adds the same for each side at the end.
fn add_same(longs: &mut Items<Long>, value: SideLong) -> Result<(), NoMem>
    ensures { OnOk result (longs.new ≡ longs.old ++ spec.sided (λ s. on_side s value)) }
{
    add_sides(longs, Sides::same(value))
}

/// The longhands of all borders.
#[tactic(auto, unfolding(crate::specs::Shorthands::border_longs))]
fn border_longs(alloc: Global, border: &Border) -> Result<Items<Long>, Unread>
    ensures { Owns (spec.border_longs border.now) result }
{
    let mut longs = Items::new(alloc);
    add_same(&mut longs, width_on(border, BoxSide::Top))?;
    add_same(&mut longs, style_on(border, BoxSide::Top))?;
    add_same(&mut longs, color_on(border, BoxSide::Top))?;
    Ok(longs)
}

/// Reads a value of a shorthand.
#[tactic(auto, unfolding(crate::specs::Shorthands::read_shorthand))]
pub(crate) fn read_shorthand(
    alloc: Global,
    reader: &mut Reader<'_>,
    shorthand: Shorthand,
) -> Result<Items<Long>, Unread>
    ensures { Reads (λ x. x) (spec.read_shorthand shorthand reader.old) result reader.new }
{
    match shorthand {
        Shorthand::Sides(kind) => read_sides(alloc, reader, kind),
        Shorthand::Border => match read_border(alloc, reader) {
            Ok(border) => border_longs(alloc, &border),
            Err(unread) => Err(unread),
        },
        Shorthand::BorderSide(side) => match read_border(alloc, reader) {
            Ok(border) => side_longs(alloc, &border, side),
            Err(unread) => Err(unread),
        },
    }
}

/// Adds the longhands of all sides with one of the two words.
#[tactic(auto, unfolding(crate::specs::Shorthands::wide_longs))]
fn add_wide(longs: &mut Items<Long>, kind: SideKind, wide: Wide) -> Result<(), NoMem>
    ensures { OnOk result (longs.new ≡ longs.old ++ spec.wide_longs (list_of (each (hand_at kind))) wide) }
{
    add(
        longs,
        wide_long(hand_at(kind, BoxSide::Top), wide),
        wide_long(hand_at(kind, BoxSide::Right), wide),
        wide_long(hand_at(kind, BoxSide::Bottom), wide),
        wide_long(hand_at(kind, BoxSide::Left), wide),
    )
}

/// The longhands of a side's border with one of the two words.
#[tactic(auto, unfolding(crate::specs::Shorthands::wide_longs))]
fn wide_side(alloc: Global, side: BoxSide, wide: Wide) -> Result<Items<Long>, Unread>
    ensures { Owns (spec.wide_longs (spec.side_hands side) wide) result }
{
    three(
        alloc,
        wide_long(hand_at(SideKind::BorderWidth, side), wide),
        wide_long(hand_at(SideKind::BorderStyle, side), wide),
        wide_long(hand_at(SideKind::BorderColor, side), wide),
    )
}

/// The longhands of all sides with one of the two words.
fn wide_sides(alloc: Global, kind: SideKind, wide: Wide) -> Result<Items<Long>, Unread>
    ensures { Owns (spec.wide_longs (list_of (each (hand_at kind))) wide) result }
{
    let mut longs = Items::new(alloc);
    add_wide(&mut longs, kind, wide)?;
    Ok(longs)
}

/// The longhands of all borders with one of the two words.
#[tactic(auto, unfolding(crate::specs::Shorthands::wide_longs, crate::specs::Shorthands::longhands_of))]
fn wide_borders(alloc: Global, wide: Wide) -> Result<Items<Long>, Unread>
    ensures { Owns (spec.wide_longs (spec.longhands_of several.Border) wide) result }
{
    let mut longs = Items::new(alloc);
    add_wide(&mut longs, SideKind::BorderWidth, wide)?;
    add_wide(&mut longs, SideKind::BorderStyle, wide)?;
    add_wide(&mut longs, SideKind::BorderColor, wide)?;
    Ok(longs)
}

/// The longhands of a shorthand with one of the two words.
#[tactic(auto, unfolding(crate::specs::Shorthands::longhands_of))]
pub(crate) fn wide_shorthand(
    alloc: Global,
    shorthand: Shorthand,
    wide: Wide,
) -> Result<Items<Long>, Unread>
    ensures { Owns (spec.wide_longs (spec.longhands_of shorthand) wide) result }
{
    match shorthand {
        Shorthand::Sides(kind) => wide_sides(alloc, kind, wide),
        Shorthand::Border => wide_borders(alloc, wide),
        Shorthand::BorderSide(side) => wide_side(alloc, side, wide),
    }
}
