//! Values that are words.

ghost use Rattle.css_words.specs.Parser.{Reads};
ghost use Rattle.css_content.specs.Basics.{word_in};
ghost use Rattle.css_values.specs.Words as spec;

use bk_num::values::{Align, BreakAt, WhiteSpace};
use css_content::words::word_in;
use css_words::reader::Reader;
use css_words::unread::Unread;
use style::values::Display;

/// Reads a value of `display`.
#[tactic(auto, unfolding(crate::specs::Words::displays))]
pub(crate) fn display(reader: &mut Reader<'_>) -> Result<Display, Unread>
    ensures { Reads (λ x. x) (word_in spec.displays reader.old) result reader.new }
{
    word_in(
        reader,
        &[
            ("inline", Display::Inline),
            ("block", Display::Block),
            ("list-item", Display::ListItem),
            ("none", Display::Hidden),
            ("flow-root", Display::Block),
            ("table", Display::Block),
            ("table-row-group", Display::Block),
            ("table-header-group", Display::Block),
            ("table-footer-group", Display::Block),
            ("table-row", Display::Block),
            ("table-cell", Display::Block),
            ("table-caption", Display::Block),
        ],
    )
}

/// Reads whether an element is a footnote.
#[tactic(auto, unfolding(crate::specs::Words::floats))]
pub(crate) fn float(reader: &mut Reader<'_>) -> Result<bool, Unread>
    ensures { Reads (λ x. x) (word_in spec.floats reader.old) result reader.new }
{
    word_in(reader, &[("none", false), ("footnote", true)])
}

/// Reads whether a font is italic.
#[tactic(auto, unfolding(crate::specs::Words::slopes))]
pub(crate) fn slope(reader: &mut Reader<'_>) -> Result<bool, Unread>
    ensures { Reads (λ x. x) (word_in spec.slopes reader.old) result reader.new }
{
    word_in(
        reader,
        &[("normal", false), ("italic", true), ("oblique", true)],
    )
}

/// Reads a value of `text-align`.
#[tactic(auto, unfolding(crate::specs::Words::aligns))]
pub(crate) fn text_align(reader: &mut Reader<'_>) -> Result<Align, Unread>
    ensures { Reads (λ x. x) (word_in spec.aligns reader.old) result reader.new }
{
    word_in(
        reader,
        &[
            ("left", Align::Left),
            ("right", Align::Right),
            ("center", Align::Center),
            ("justify", Align::Justify),
            ("start", Align::Left),
            ("end", Align::Right),
        ],
    )
}

/// Reads a value of `white-space`.
#[tactic(auto, unfolding(crate::specs::Words::spaces))]
pub(crate) fn white_space(reader: &mut Reader<'_>) -> Result<WhiteSpace, Unread>
    ensures { Reads (λ x. x) (word_in spec.spaces reader.old) result reader.new }
{
    word_in(
        reader,
        &[
            ("normal", WhiteSpace::Normal),
            ("nowrap", WhiteSpace::NoWrap),
            ("pre", WhiteSpace::Pre),
            ("pre-wrap", WhiteSpace::PreWrap),
            ("pre-line", WhiteSpace::PreLine),
        ],
    )
}

/// Reads whether words are broken where they don't fit.
#[tactic(auto, unfolding(crate::specs::Words::wraps))]
pub(crate) fn overflow_wrap(reader: &mut Reader<'_>) -> Result<bool, Unread>
    ensures { Reads (λ x. x) (word_in spec.wraps reader.old) result reader.new }
{
    word_in(
        reader,
        &[("normal", false), ("anywhere", true), ("break-word", true)],
    )
}

/// Reads a value of `break-before` or `break-after`.
#[tactic(auto, unfolding(crate::specs::Words::breaks))]
pub(crate) fn break_at(reader: &mut Reader<'_>) -> Result<BreakAt, Unread>
    ensures { Reads (λ x. x) (word_in spec.breaks reader.old) result reader.new }
{
    word_in(
        reader,
        &[
            ("auto", BreakAt::Auto),
            ("avoid", BreakAt::Avoid),
            ("avoid-page", BreakAt::Avoid),
            ("page", BreakAt::Page),
            ("left", BreakAt::Left),
            ("right", BreakAt::Right),
            ("recto", BreakAt::Right),
            ("verso", BreakAt::Left),
            ("column", BreakAt::Column),
        ],
    )
}

/// Reads a value of `page-break-before` or `page-break-after`.
#[tactic(auto, unfolding(crate::specs::Words::page_breaks))]
pub(crate) fn page_break_at(reader: &mut Reader<'_>) -> Result<BreakAt, Unread>
    ensures { Reads (λ x. x) (word_in spec.page_breaks reader.old) result reader.new }
{
    word_in(
        reader,
        &[
            ("auto", BreakAt::Auto),
            ("avoid", BreakAt::Avoid),
            ("always", BreakAt::Page),
            ("left", BreakAt::Left),
            ("right", BreakAt::Right),
        ],
    )
}

/// Reads whether breaks inside are avoided.
#[tactic(auto, unfolding(crate::specs::Words::inside_breaks))]
pub(crate) fn break_inside(reader: &mut Reader<'_>) -> Result<bool, Unread>
    ensures { Reads (λ x. x) (word_in spec.inside_breaks reader.old) result reader.new }
{
    word_in(
        reader,
        &[("auto", false), ("avoid", true), ("avoid-page", true)],
    )
}

/// Reads whether borders and paddings stand again where a page parts a box.
#[tactic(auto, unfolding(crate::specs::Words::decoration_breaks))]
pub(crate) fn decoration_break(reader: &mut Reader<'_>) -> Result<bool, Unread>
    ensures { Reads (λ x. x) (word_in spec.decoration_breaks reader.old) result reader.new }
{
    word_in(reader, &[("slice", false), ("clone", true)])
}

/// Reads whether lines are chosen for a paragraph as a whole.
#[tactic(auto, unfolding(crate::specs::Words::fills))]
pub(crate) fn book_fill(reader: &mut Reader<'_>) -> Result<bool, Unread>
    ensures { Reads (λ x. x) (word_in spec.fills reader.old) result reader.new }
{
    word_in(reader, &[("greedy", false), ("fit", true)])
}

/// Reads whether words are hyphenated by patterns.
#[tactic(auto, unfolding(crate::specs::Words::hyphenations))]
pub(crate) fn hyphens(reader: &mut Reader<'_>) -> Result<bool, Unread>
    ensures { Reads (λ x. x) (word_in spec.hyphenations reader.old) result reader.new }
{
    word_in(
        reader,
        &[("none", false), ("manual", false), ("auto", true)],
    )
}

/// Reads whether breaks inside are avoided, by the words of `page-break-inside`.
#[tactic(auto, unfolding(crate::specs::Words::inside_page_breaks))]
pub(crate) fn page_break_inside(reader: &mut Reader<'_>) -> Result<bool, Unread>
    ensures { Reads (λ x. x) (word_in spec.inside_page_breaks reader.old) result reader.new }
{
    word_in(reader, &[("auto", false), ("avoid", true)])
}
