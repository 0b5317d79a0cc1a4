//! Reads declarations.

ghost use Rattle.std.specs.Prelude.{◌≡◌, ◌∷◌, [], option_map, IfOk};
ghost use Rattle.css_tok.specs.Tokens.{item_in};
ghost use Rattle.css_words.specs.Parser.{Reads, Owns};
ghost use Rattle.css_words.specs.Table.{find_word};
ghost use Rattle.css_values.specs.Decls as spec;
ghost use Rattle.css_values.specs.Shorthands.{wide_longs};

use crate::keywords::{page_break_at, page_break_inside};
use crate::properties::{Property, property_of};
use crate::shorthands::{read_shorthand, wide_shorthand};
use crate::values::{Wide, read_value, wide_long};
use bk_num::items::Items;
use bk_num::name::NoMem;
use css_tok::kind::CssKind;
use css_tok::tokens::CssToken;
use css_words::reader::{Reader, Skipped};
use css_words::table::find_word;
use css_words::unread::Unread;
use css_words::words::{of_kind, slice_of};
use std::alloc::Global;
use style::long::{Given, Long};
use style::longhand::Longhand;

/// What a declaration gives: one longhand, or those of a shorthand in their order.
#[derive(Drop)]
pub struct Decl {
    pub longs: Items<Long>,
}

#[tactic(auto, unfolding(crate::specs::Decls::wides))]
fn find_wide(word: &str) -> Option<Wide>
    ensures { result ≡ find_word spec.wides word.now }
{
    find_word(
        &[("inherit", Wide::Inherit), ("initial", Wide::Initial)],
        word,
    )
}

/// `inherit` or `initial` alone.
#[tactic(auto, unfolding(crate::specs::Decls::wide_of))]
pub fn wide_of(token: Option<CssToken<'_>>, second: Option<CssToken<'_>>) -> Option<Wide>
    ensures { result ≡ spec.wide_of (option_map item_in token.entry) (option_map item_in second.entry) }
{
    if second.is_some() || !of_kind(CssKind::Ident, token) {
        return None;
    }
    find_wide(slice_of(token))
}

fn alone(alloc: Global, long: Long) -> Result<Items<Long>, Unread>
    ensures { Owns (long ∷ []) result }
{
    let mut longs = Items::new(alloc);
    longs.push(long)?;
    Ok(longs)
}

#[tactic(auto, unfolding(crate::specs::Decls::read_property))]
fn read_property(
    alloc: Global,
    reader: &mut Reader<'_>,
    property: Property,
) -> Result<Items<Long>, Unread>
    ensures { Reads (λ x. x) (spec.read_property property reader.old) result reader.new }
{
    match property {
        Property::One(hand) => {
            let long = read_value(alloc, reader, hand)?;
            alone(alloc, long)
        }
        Property::PageBreakBefore => {
            let at = page_break_at(reader)?;
            alone(alloc, Long::BreakBefore(Given::Value(at)))
        }
        Property::PageBreakAfter => {
            let at = page_break_at(reader)?;
            alone(alloc, Long::BreakAfter(Given::Value(at)))
        }
        Property::PageBreakInside => {
            let avoids = page_break_inside(reader)?;
            alone(alloc, Long::BreakInside(Given::Value(avoids)))
        }
        Property::Several(shorthand) => read_shorthand(alloc, reader, shorthand),
    }
}

/// The longhands of a property with one of the two words.
#[tactic(auto, unfolding(crate::specs::Shorthands::wide_longs))]
fn wide_property(alloc: Global, property: Property, wide: Wide) -> Result<Items<Long>, Unread>
    ensures { Owns (wide_longs (spec.hands_of property) wide) result }
{
    match property {
        Property::One(hand) => alone(alloc, wide_long(hand, wide)),
        Property::PageBreakBefore => alone(alloc, wide_long(Longhand::BreakBefore, wide)),
        Property::PageBreakAfter => alone(alloc, wide_long(Longhand::BreakAfter, wide)),
        Property::PageBreakInside => alone(alloc, wide_long(Longhand::BreakInside, wide)),
        Property::Several(shorthand) => wide_shorthand(alloc, shorthand, wide),
    }
}

#[tactic(auto, unfolding(crate::specs::Decls::read_given))]
fn read_given(
    alloc: Global,
    reader: &mut Reader<'_>,
    property: Property,
) -> Result<Items<Long>, Unread>
    ensures { Reads (λ x. x) (spec.read_given property reader.old) result reader.new }
{
    match wide_of(reader.peek(), reader.second()) {
        None => read_property(alloc, reader, property),
        Some(wide) => {
            reader.advance();
            wide_property(alloc, property, wide)
        }
    }
}

/// A reading that leaves nothing.
#[tactic(auto, unfolding(crate::specs::Decls::read_all))]
fn read_all(
    alloc: Global,
    reader: &mut Reader<'_>,
    property: Property,
) -> Result<Items<Long>, Unread>
    ensures { Reads (λ x. x) (spec.read_all property reader.old) result reader.new }
{
    let longs = read_given(alloc, reader, property)?;
    if reader.peek().is_some() {
        return Err(Unread::NoReading);
    }
    Ok(longs)
}

/// Reads a declaration: the longhands that it gives, or None exactly where the property isn't known or its grammar has
/// no reading of the whole value. Names, words and units count without regard to ASCII case, with escapes undone;
/// white space and comments only separate tokens, and an unexpected end closes what is open. Lengths are rounded to
/// the nearest 1/64 px and clamped. `!important` is no part of a value.
#[tactic(auto, unfolding(crate::specs::Decls::read_decl))]
pub fn read_decl(alloc: Global, name: &str, value: &str) -> Result<Option<Decl>, NoMem>
    ensures { IfOk result (λ decl. decl ≡ spec.read_decl name.now value.now) }
{
    let Some(property) = property_of(name) else {
        return Ok(None);
    };
    let mut reader = Reader::new(value, Skipped::CommentsAndSpaces);
    match read_all(alloc, &mut reader, property) {
        Ok(longs) => Ok(Some(Decl { longs })),
        Err(Unread::NoReading) => Ok(None),
        Err(Unread::NoMemory) => Err(NoMem),
    }
}
