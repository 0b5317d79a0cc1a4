//! Lengths and percentages (CSS 2.1, 4.3.2 and 4.3.3).

ghost use Rattle.std.specs.Prelude.{◌≡◌, ◌≤◌, length, option_map};
ghost use Rattle.css_tok.specs.Tokens.{item_in};
ghost use Rattle.css_words.specs.Parser.{Reads};
ghost use Rattle.css_words.specs.Table.{find_word};
ghost use Rattle.css_values.specs.Measures as spec;
ghost use Rattle.css_values.specs.Words.{scales};

use bk_num::decimal::Decimal;
use bk_num::length::{Unit, px_of};
use bk_num::px::Px;
use css_tok::kind::CssKind;
use css_tok::tokens::CssToken;
use css_words::reader::Reader;
use css_words::table::find_word;
use css_words::unread::Unread;
use css_words::words::is_named;
use style::values::Measure;

/// A unit of length: an absolute one, or one of a font's sizes.
#[derive(Clone, Copy, Debug, PartialEq, Eq)]
pub enum Scale {
    Absolute(Unit),
    Em,
    Rem,
    Ex,
}

/// What a property takes beside lengths from 0 on.
#[derive(Clone, Copy, Debug, PartialEq, Eq)]
pub struct Taken {
    pub percents: bool,
    pub auto: bool,
    pub negative: bool,
}

/// The units of length.
#[tactic(auto, unfolding(crate::specs::Words::scales))]
fn scale_of(word: &str) -> Option<Scale>
    ensures { result ≡ find_word scales word.now }
{
    find_word(
        &[
            ("px", Scale::Absolute(Unit::Px)),
            ("in", Scale::Absolute(Unit::In)),
            ("cm", Scale::Absolute(Unit::Cm)),
            ("mm", Scale::Absolute(Unit::Mm)),
            ("pt", Scale::Absolute(Unit::Pt)),
            ("pc", Scale::Absolute(Unit::Pc)),
            ("em", Scale::Em),
            ("rem", Scale::Rem),
            ("ex", Scale::Ex),
        ],
        word,
    )
}

/// The number of a token that has one.
#[tactic(auto, unfolding(crate::specs::Measures::number_of))]
pub(crate) fn number_of(token: Option<CssToken<'_>>) -> Option<Decimal>
    ensures { result ≡ spec.number_of (option_map item_in token.entry) }
{
    let found = token?;
    match found.kind {
        CssKind::Number | CssKind::Percent | CssKind::Dimension => Some(found.decimal()),
        _ => None,
    }
}

/// An absolute length in 1/64 px, or a number of a font's sizes.
#[tactic(auto, unfolding(crate::specs::Measures::measured))]
fn measured(scale: Scale, number: Decimal) -> Measure
    ensures { result ≡ spec.measured scale number }
{
    match scale {
        Scale::Absolute(unit) => Measure::Px(px_of(number, unit)),
        Scale::Em => Measure::Em(number),
        Scale::Rem => Measure::Rem(number),
        Scale::Ex => Measure::Ex(number),
    }
}

#[tactic(auto, unfolding(bk_num::specs::Units::clamped))]
fn no_length() -> Measure
    ensures { result ≡ spec.no_length }
{
    Measure::Px(Px::from_units(0))
}

/// A number with a unit, or the number 0.
#[tactic(auto, unfolding(crate::specs::Measures::length_of))]
fn length_of(token: Option<CssToken<'_>>) -> Option<Measure>
    ensures { result ≡ spec.length_of (option_map item_in token.entry) }
{
    let found = token?;
    match found.kind {
        CssKind::Number => {
            if found.decimal().units() == 0 {
                Some(no_length())
            } else {
                None
            }
        }
        CssKind::Dimension => match scale_of(found.unit()) {
            Some(scale) => Some(measured(scale, found.decimal())),
            None => None,
        },
        _ => None,
    }
}

#[tactic(auto, unfolding(crate::specs::Measures::percent_of))]
fn percent_of(token: Option<CssToken<'_>>) -> Option<Measure>
    ensures { result ≡ spec.percent_of (option_map item_in token.entry) }
{
    let found = token?;
    match found.kind {
        CssKind::Percent => Some(Measure::Percent(found.decimal())),
        _ => None,
    }
}

/// Whether a token's number is below 0, before it is rounded.
#[tactic(auto, unfolding(crate::specs::Measures::is_negative))]
pub(crate) fn is_negative(token: Option<CssToken<'_>>) -> bool
    ensures { result ≡ spec.is_negative (option_map item_in token.entry) }
{
    match number_of(token) {
        Some(number) => number.units() < 0,
        None => false,
    }
}

#[tactic(auto, unfolding(crate::specs::Measures::measure_of))]
fn measure_of(taken: Taken, token: Option<CssToken<'_>>) -> Option<Measure>
    ensures { result ≡ spec.measure_of taken (option_map item_in token.entry) }
{
    if taken.auto && is_named(CssKind::Ident, token, "auto") {
        return Some(Measure::Auto);
    }
    if !taken.negative && is_negative(token) {
        return None;
    }
    match length_of(token) {
        Some(length) => Some(length),
        None if taken.percents => percent_of(token),
        None => None,
    }
}

/// Reads a length, or what else a property takes.
#[tactic(auto, unfolding(crate::specs::Measures::read_measure))]
pub fn read_measure(reader: &mut Reader<'_>, taken: Taken) -> Result<Measure, Unread>
    ensures reads { Reads (λ x. x) (spec.read_measure taken reader.old) result reader.new }
    ensures within { length reader.new ≤ length reader.old }
{
    let Some(measure) = measure_of(taken, reader.peek()) else {
        return Err(Unread::NoReading);
    };
    reader.advance();
    Ok(measure)
}

/// What margins take.
pub fn margins() -> Taken
    ensures { result ≡ spec.margins }
{
    Taken {
        percents: true,
        auto: true,
        negative: true,
    }
}

/// What `text-indent` takes.
pub fn indents() -> Taken
    ensures { result ≡ spec.indents }
{
    Taken {
        percents: true,
        auto: false,
        negative: true,
    }
}

/// What `width` takes.
pub fn widths() -> Taken
    ensures { result ≡ spec.widths }
{
    Taken {
        percents: true,
        auto: true,
        negative: false,
    }
}

/// What paddings, sizes of fonts and heights of lines take.
pub fn paddings() -> Taken
    ensures { result ≡ spec.paddings }
{
    Taken {
        percents: true,
        auto: false,
        negative: false,
    }
}

/// What widths of borders take.
pub fn lengths() -> Taken
    ensures { result ≡ spec.lengths }
{
    Taken {
        percents: false,
        auto: false,
        negative: false,
    }
}
