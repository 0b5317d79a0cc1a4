//! Colours (CSS 2.1, 4.3.6).

ghost use Rattle.std.specs.Prelude.{◌≡◌, ◌<◌, IfSome};
ghost use Rattle.css_words.specs.Parser.{Reads};
ghost use Rattle.css_content.specs.Basics.{word_in};
ghost use Rattle.css_values.specs.Colors as spec;
ghost use Rattle.css_values.specs.Words as words;

use bk_num::chars::byte;
use bk_num::values::Color;
use css_content::words::{whole, word_in};
use css_tok::kind::CssKind;
use css_words::reader::Reader;
use css_words::unread::Unread;
use css_words::words::{close, expect, is_named, of_kind, value};
use std::alloc::Global;

const fn rgb(red: u8, green: u8, blue: u8) -> Color
    ensures { result ≡ words.rgb red green blue }
{
    Color { red, green, blue }
}

/// A colour by its name.
#[tactic(auto, unfolding(crate::specs::Words::colors))]
fn color_name(reader: &mut Reader<'_>) -> Result<Color, Unread>
    ensures { Reads (λ x. x) (word_in words.colors reader.old) result reader.new }
{
    word_in(
        reader,
        &[
            ("black", rgb(0, 0, 0)),
            ("silver", rgb(192, 192, 192)),
            ("gray", rgb(128, 128, 128)),
            ("white", rgb(255, 255, 255)),
            ("maroon", rgb(128, 0, 0)),
            ("red", rgb(255, 0, 0)),
            ("purple", rgb(128, 0, 128)),
            ("fuchsia", rgb(255, 0, 255)),
            ("green", rgb(0, 128, 0)),
            ("lime", rgb(0, 255, 0)),
            ("olive", rgb(128, 128, 0)),
            ("yellow", rgb(255, 255, 0)),
            ("navy", rgb(0, 0, 128)),
            ("blue", rgb(0, 0, 255)),
            ("teal", rgb(0, 128, 128)),
            ("aqua", rgb(0, 255, 255)),
            ("orange", rgb(255, 165, 0)),
        ],
    )
}

/// What a hexadecimal digit stands for.
#[tactic(auto, unfolding(crate::specs::Colors::hex_of))]
fn hex_of(digit: u8) -> Option<u8>
    ensures value { result ≡ spec.hex_of digit }
    ensures below { IfSome result (λ d. d < 16) }
{
    match (digit as char).to_digit(16) {
        Some(value) => Some(value as u8),
        None => None,
    }
}

/// The number that two digits of a text write, by their places.
#[tactic(auto, unfolding(crate::specs::Colors::pair_at))]
fn pair_at(text: &[u8], high: usize, low: usize) -> Option<u8>
    ensures { result ≡ spec.pair_at text.now high low }
{
    let high = hex_of(byte(text, high))?;
    let low = hex_of(byte(text, low))?;
    Some(16 * high + low)
}

fn color_in(red: Option<u8>, green: Option<u8>, blue: Option<u8>) -> Option<Color>
    ensures { result ≡ spec.color_in red green blue }
{
    match (red, green, blue) {
        (Some(red), Some(green), Some(blue)) => Some(rgb(red, green, blue)),
        _ => None,
    }
}

/// Three hexadecimal digits, each standing for two equal ones, or six.
#[tactic(auto, unfolding(crate::specs::Colors::hex_color))]
fn hex_color(text: &[u8]) -> Option<Color>
    ensures { result ≡ spec.hex_color text.now }
{
    if text.len() == 3 {
        return color_in(
            pair_at(text, 0, 0),
            pair_at(text, 1, 1),
            pair_at(text, 2, 2),
        );
    }
    if text.len() == 6 {
        return color_in(
            pair_at(text, 0, 1),
            pair_at(text, 2, 3),
            pair_at(text, 4, 5),
        );
    }
    None
}

fn byte_of(number: i64) -> u8
    ensures { result ≡ spec.byte_of number }
{
    number.clamp(0, 255).unsigned_abs() as u8
}

#[tactic(auto, unfolding(crate::specs::Colors::rgb_arguments))]
fn rgb_arguments(reader: &mut Reader<'_>) -> Result<Color, Unread>
    ensures { Reads (λ x. x) (spec.rgb_arguments reader.old) result reader.new }
{
    let red = whole(reader)?;
    expect(reader, b',')?;
    let green = whole(reader)?;
    expect(reader, b',')?;
    let blue = whole(reader)?;
    close(reader)?;
    Ok(rgb(byte_of(red), byte_of(green), byte_of(blue)))
}

#[tactic(auto, unfolding(crate::specs::Colors::hash))]
fn hash(alloc: Global, reader: &mut Reader<'_>) -> Result<Color, Unread>
    ensures { Reads (λ x. x) (spec.hash reader.old) result reader.new }
{
    let digits = value(alloc, reader.peek())?;
    let Some(color) = hex_color(digits.as_str().as_bytes()) else {
        return Err(Unread::NoReading);
    };
    reader.advance();
    Ok(color)
}

/// Reads a colour.
#[tactic(auto, unfolding(crate::specs::Colors::color))]
pub fn color(alloc: Global, reader: &mut Reader<'_>) -> Result<Color, Unread>
    ensures { Reads (λ x. x) (spec.color reader.old) result reader.new }
{
    let token = reader.peek();
    if of_kind(CssKind::Hash, token) {
        return hash(alloc, reader);
    }
    if is_named(CssKind::Func, token, "rgb") {
        reader.advance();
        return rgb_arguments(reader);
    }
    color_name(reader)
}

/// Reads a word, which gives None, or a colour.
#[tactic(auto, unfolding(crate::specs::Colors::color_or))]
pub fn color_or(alloc: Global, reader: &mut Reader<'_>, word: &str) -> Result<Option<Color>, Unread>
    ensures { Reads (λ x. x) (spec.color_or word.now reader.old) result reader.new }
{
    if is_named(CssKind::Ident, reader.peek(), word) {
        reader.advance();
        return Ok(None);
    }
    Ok(Some(color(alloc, reader)?))
}
