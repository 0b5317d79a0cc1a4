//! Initial values that more than one rule names (CSS 2.1, appendix F).

ghost use Rattle.std.specs.Prelude.{◌≡◌};
ghost use Rattle.bk_num.specs.Limits.{root_size};
ghost use Rattle.style.specs.Initial as spec;
ghost use Rattle.style.specs.Styles.{initial_style};

use crate::content::Content;
use crate::lists::{CounterList, StringSets};
use crate::values::{BorderStyle, Display};
use bk_num::decimal::Decimal;
use bk_num::limits::ROOT_SIZE;
use bk_num::px::Px;
use bk_num::values::{Align, BLACK, BreakAt, Color, NumStyle, WhiteSpace};
use std::alloc::Global;

/// The initial box of an element: an inline one (CSS 2.1, 9.2.4).
pub const INITIAL_DISPLAY: Display = Display::Inline;

/// The initial style of a border: `none` (CSS 2.1, 8.5.3).
pub const INITIAL_BORDER: BorderStyle = BorderStyle::Off;

/// The initial colour: black (CSS 2.1, 14.1, leaves it open).
pub const INITIAL_COLOR: Color = BLACK;

/// The initial background: transparent (CSS 2.1, 14.2.1).
pub const INITIAL_BACKGROUND: Option<Color> = None;

/// Whether a box is initially a footnote: it doesn't float (CSS 2.1, 9.5.1).
pub const INITIAL_FLOAT: bool = false;

/// Whether a font is initially italic: its style is `normal` (CSS 2.1, 15.4).
pub const INITIAL_ITALIC: bool = false;

/// Whether words initially break anywhere: `overflow-wrap` is `normal` (css-text-3, 5.5).
pub const INITIAL_WRAP: bool = false;

/// The initial alignment of lines: to the left (CSS 2.1, 16.2, leaves it open).
pub const INITIAL_ALIGN: Align = Align::Left;

/// The initial treatment of white space (CSS 2.1, 16.6).
pub const INITIAL_SPACE: WhiteSpace = WhiteSpace::Normal;

/// The initial marker of a list item (CSS 2.1, 12.5.1).
pub const INITIAL_MARKER: NumStyle = NumStyle::Disc;

/// What is initially asked before and after a box (css-break-3, 3.1).
pub const INITIAL_BREAK: BreakAt = BreakAt::Auto;

/// Whether a break inside a box is initially to be avoided: it isn't (css-break-3, 3.2).
pub const INITIAL_INSIDE: bool = false;

/// Whether borders and paddings initially stand again where a page parts a box: they don't (css-break-3, 5.4).
pub const INITIAL_CLONES: bool = false;

/// Whether lines are initially chosen for a paragraph as a whole: they aren't, each is filled as far as it goes.
pub const INITIAL_FIT: bool = false;

/// Whether words are initially hyphenated by patterns: they aren't (css-text-3, 5.4).
pub const INITIAL_HYPHENS: bool = false;

/// The initial number of widows and of orphans (CSS 2.1, 13.3.2).
pub const INITIAL_LINES: u32 = 2;

/// The initial content: `normal` (CSS 2.1, 12.2).
pub fn initial_content() -> Option<Content>
    ensures { result ≡ initial_style.content }
{
    None
}

/// The initial counters that are reset, and those that are incremented: none (CSS 2.1, 12.4).
pub fn initial_counters(alloc: Global) -> CounterList
    ensures resets { result ≡ initial_style.counter_reset }
    ensures increments { result ≡ initial_style.counter_increment }
{
    CounterList::new(alloc)
}

/// The strings that are initially set: none (css-gcpm-3, 1.1.1).
pub fn initial_strings(alloc: Global) -> StringSets
    ensures { result ≡ initial_style.string_set }
{
    StringSets::new(alloc)
}

/// The size of a font that is `medium`: 16 px (CSS 2.1, 15.7).
#[tactic(auto, unfolding(bk_num::specs::Units::clamped))]
pub fn medium_size() -> Px
    ensures { result ≡ root_size }
{
    Px::from_units(ROOT_SIZE as i64)
}

/// The weight of a font that is `normal`: 400 (CSS 2.1, 15.6).
pub fn normal_weight() -> u16
    ensures { result ≡ spec.normal_weight }
{
    400
}

/// The height of lines that is `normal`: 1.25 of the font size (CSS 2.1, 10.8.1, leaves the number open).
pub fn normal_height() -> Decimal
    ensures { result ≡ spec.normal_height }
{
    Decimal::new(125, 2)
}

/// The width of a border that is `medium`: 3 px (CSS 2.1, 8.5.1).
#[tactic(auto, unfolding(bk_num::specs::Units::clamped))]
pub fn medium_width() -> Px
    ensures { result ≡ spec.medium_width }
{
    Px::from_units(192)
}
