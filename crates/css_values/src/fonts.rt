//! Values of fonts, of lines and of pages (CSS 2.1, 15, 10.8.1 and 13.3; css-page-3, 7).

ghost use Rattle.std.specs.Prelude.{◌≡◌, ◌≤◌, ◌++◌, length};
ghost use Rattle.css_words.specs.Parser.{Reads, Owns};
ghost use Rattle.css_content.specs.Basics.{word_in};
ghost use Rattle.css_values.specs.Fonts as spec;
ghost use Rattle.css_values.specs.Words as tables;

use crate::measures::{is_negative, number_of, paddings, read_measure};
use bk_num::limits::ROOT_SIZE;
use bk_num::name::Name;
use bk_num::px::Px;
use css_content::words::{whole, word_in};
use css_tok::kind::CssKind;
use css_words::lists::{ReadNext, ReadOne, read_comma_list, read_more};
use css_words::reader::Reader;
use css_words::unread::Unread;
use css_words::words::{ident, is_named, next_ident, of_kind, string};
use std::alloc::Global;
use style::initial::{normal_height, normal_weight};
use style::lists::Families;
use style::values::{FontSize, GivenHeight, Measure, Weight};

/// What a word says of a font's size: a length in 1/64 px, or a part of the parent's.
#[derive(Clone, Copy, Debug, PartialEq, Eq)]
pub enum SizeWord {
    Units(i64),
    Smaller,
    Larger,
}

/// The next Ident; None where none comes.
#[derive(Drop)]
struct NextIdent;

impl ReadNext for NextIdent {
    type Item = Name;

    ghost use Rattle.css_words.specs.Words.{next_ident};

    ghost parser = { λ _. next_ident };

    fn next(&self, alloc: Global, reader: &mut Reader<'_>) -> Result<Option<Name>, Unread> {
        next_ident(alloc, reader)
    }
}

/// A word, and others after it, each after a space.
#[tactic(auto, using(crate::proofs::FontLemmas::spaced_step, crate::proofs::FontLemmas::spaced_end))]
fn joined(alloc: Global, first: &Name, more: &[Name]) -> Result<Name, Unread>
    ensures { Owns (first.now ++ spec.spaced more.now) result }
{
    let mut text = String::from_str(alloc, first.as_str())?;
    for word in more {
        text.push_str(" ")?;
        text.push_str(word.as_str())?;
    }
    Ok(Name::from_string(text))
}

/// Reads Idents, which one space joins.
#[tactic(auto, unfolding(crate::specs::Fonts::words), using(css_words::proofs::RepeatLemmas::no_prefix))]
fn words(alloc: Global, reader: &mut Reader<'_>) -> Result<Name, Unread>
    ensures reads { Reads (λ x. x) (spec.words reader.old) result reader.new }
    ensures within { length reader.new ≤ length reader.old }
{
    let first = ident(alloc, reader)?;
    let more = read_more(alloc, reader, Vec::new(alloc), &NextIdent)?;
    joined(alloc, &first, more.as_slice())
}

/// A family: a string, or Idents.
#[derive(Drop)]
struct Family;

impl ReadOne for Family {
    type Item = Name;

    ghost use Rattle.css_values.specs.Fonts.{family};

    ghost parser = { λ _. family };

    #[tactic(auto, unfolding(crate::specs::Fonts::family))]
    fn read(&self, alloc: Global, reader: &mut Reader<'_>) -> Result<Name, Unread> {
        if of_kind(CssKind::Str, reader.peek()) {
            return string(alloc, reader);
        }
        words(alloc, reader)
    }
}

/// Reads a value of `font-family`.
#[tactic(auto, unfolding(crate::specs::Fonts::families))]
pub fn families(alloc: Global, reader: &mut Reader<'_>) -> Result<Families, Unread>
    ensures { Reads (λ x. x) (spec.families reader.old) result reader.new }
{
    let found = read_comma_list(alloc, reader, &Family)?;
    Ok(Families::of(found.into_vec()))
}

#[tactic(auto, unfolding(crate::specs::Words::sizes))]
fn size_word(reader: &mut Reader<'_>) -> Result<SizeWord, Unread>
    ensures { Reads (λ x. x) (word_in tables.sizes reader.old) result reader.new }
{
    word_in(
        reader,
        &[
            ("xx-small", SizeWord::Units(576)),
            ("x-small", SizeWord::Units(640)),
            ("small", SizeWord::Units(832)),
            ("medium", SizeWord::Units(ROOT_SIZE as i64)),
            ("large", SizeWord::Units(1152)),
            ("x-large", SizeWord::Units(1536)),
            ("xx-large", SizeWord::Units(2048)),
            ("smaller", SizeWord::Smaller),
            ("larger", SizeWord::Larger),
        ],
    )
}

fn size_of(word: SizeWord) -> FontSize
    ensures { result ≡ spec.size_of word }
{
    match word {
        SizeWord::Units(units) => FontSize::Size(Measure::Px(Px::from_units(units))),
        SizeWord::Smaller => FontSize::Smaller,
        SizeWord::Larger => FontSize::Larger,
    }
}

/// Reads a value of `font-size`.
#[tactic(auto, unfolding(crate::specs::Fonts::font_size))]
pub fn font_size(reader: &mut Reader<'_>) -> Result<FontSize, Unread>
    ensures { Reads (λ x. x) (spec.font_size reader.old) result reader.new }
{
    if of_kind(CssKind::Ident, reader.peek()) {
        return Ok(size_of(size_word(reader)?));
    }
    Ok(FontSize::Size(read_measure(reader, paddings())?))
}

/// Reads 100, 200 and so on to 900.
#[tactic(auto, unfolding(crate::specs::Fonts::hundred))]
fn hundred(reader: &mut Reader<'_>) -> Result<u16, Unread>
    ensures { Reads (λ x. x) (spec.hundred reader.old) result reader.new }
{
    let number = whole(reader)?;
    if number < 100 || 900 < number {
        return Err(Unread::NoReading);
    }
    let weight = number.unsigned_abs();
    if weight % 100 != 0 {
        return Err(Unread::NoReading);
    }
    Ok(weight as u16)
}

#[tactic(auto, unfolding(crate::specs::Words::weights))]
fn weight_word(reader: &mut Reader<'_>) -> Result<Weight, Unread>
    ensures { Reads (λ x. x) (word_in tables.weights reader.old) result reader.new }
{
    word_in(
        reader,
        &[
            ("normal", Weight::Number(normal_weight())),
            ("bold", Weight::Number(700)),
            ("bolder", Weight::Bolder),
            ("lighter", Weight::Lighter),
        ],
    )
}

/// Reads a value of `font-weight`.
#[tactic(auto, unfolding(crate::specs::Fonts::font_weight))]
pub fn font_weight(reader: &mut Reader<'_>) -> Result<Weight, Unread>
    ensures { Reads (λ x. x) (spec.font_weight reader.old) result reader.new }
{
    if of_kind(CssKind::Ident, reader.peek()) {
        return weight_word(reader);
    }
    Ok(Weight::Number(hundred(reader)?))
}

/// Reads a value of `line-height`.
#[tactic(auto, unfolding(crate::specs::Fonts::line_height))]
pub fn line_height(reader: &mut Reader<'_>) -> Result<GivenHeight, Unread>
    ensures { Reads (λ x. x) (spec.line_height reader.old) result reader.new }
{
    let token = reader.peek();
    if is_named(CssKind::Ident, token, "normal") {
        reader.advance();
        return Ok(GivenHeight::Number(normal_height()));
    }
    if !of_kind(CssKind::Number, token) {
        return Ok(GivenHeight::Size(read_measure(reader, paddings())?));
    }
    if is_negative(token) {
        return Err(Unread::NoReading);
    }
    let Some(number) = number_of(token) else {
        return Err(Unread::NoReading);
    };
    reader.advance();
    Ok(GivenHeight::Number(number))
}

/// Reads a whole number from 1 to 1000.
#[tactic(auto, unfolding(crate::specs::Fonts::count))]
pub fn count(reader: &mut Reader<'_>) -> Result<u32, Unread>
    ensures { Reads (λ x. x) (spec.count reader.old) result reader.new }
{
    let number = whole(reader)?;
    if number < 1 || 1000 < number {
        return Err(Unread::NoReading);
    }
    Ok(number.unsigned_abs() as u32)
}

/// Reads `auto`, which gives None, or a name.
#[tactic(auto, unfolding(crate::specs::Fonts::page_name))]
pub fn page_name(alloc: Global, reader: &mut Reader<'_>) -> Result<Option<Name>, Unread>
    ensures { Reads (λ x. x) (spec.page_name reader.old) result reader.new }
{
    if is_named(CssKind::Ident, reader.peek(), "auto") {
        reader.advance();
        return Ok(None);
    }
    Ok(Some(ident(alloc, reader)?))
}
