//! The properties that pages and margin boxes take, and the words that are values of them.

ghost use Rattle.std.specs.Prelude.{◌≡◌};
ghost use Rattle.css_words.specs.Parser.{Reads};
ghost use Rattle.css_words.specs.Table.{find_word};
ghost use Rattle.css_content.specs.Basics.{word_in};
ghost use Rattle.css_page.specs.Properties as spec;

use crate::sizes::size;
use crate::values::{PageLong, Upright};
use bk_num::values::Align;
use css_content::content::{ContentPlace, content};
use css_content::words::word_in;
use css_values::decls::wide_of;
use css_values::values::{Wide, given_by};
use css_words::reader::Reader;
use css_words::table::find_word;
use css_words::unread::Unread;
use std::alloc::Global;
use style::long::Given;

/// Whose declarations they are.
#[derive(Clone, Copy)]
pub enum PageContext {
    Page,
    MarginBox,
}

/// Which grammar reads the values of a property.
#[derive(Clone, Copy)]
pub enum PageGrammar {
    /// That of the property of the same name that elements have.
    Shared,
    /// One of its own.
    Own(OwnProperty),
}

/// The properties with values of their own.
#[derive(Clone, Copy)]
pub enum OwnProperty {
    Size,
    Content,
    TextAlign,
    VerticalAlign,
}

/// What pages and margin boxes both take: how their texts are set.
#[tactic(auto, unfolding(crate::specs::Properties::text_properties))]
fn property_of_text(name: &str) -> Option<PageGrammar>
    ensures { result ≡ find_word spec.text_properties name.now }
{
    find_word(
        &[
            ("color", PageGrammar::Shared),
            ("font-family", PageGrammar::Shared),
            ("font-size", PageGrammar::Shared),
            ("font-style", PageGrammar::Shared),
            ("font-weight", PageGrammar::Shared),
            ("line-height", PageGrammar::Shared),
        ],
        name,
    )
}

#[tactic(auto, unfolding(crate::specs::Properties::page_properties))]
fn property_of_page(name: &str) -> Option<PageGrammar>
    ensures { result ≡ find_word spec.page_properties name.now }
{
    find_word(
        &[
            ("size", PageGrammar::Own(OwnProperty::Size)),
            ("margin", PageGrammar::Shared),
            ("margin-top", PageGrammar::Shared),
            ("margin-right", PageGrammar::Shared),
            ("margin-bottom", PageGrammar::Shared),
            ("margin-left", PageGrammar::Shared),
        ],
        name,
    )
}

#[tactic(auto, unfolding(crate::specs::Properties::box_properties))]
fn property_of_box(name: &str) -> Option<PageGrammar>
    ensures { result ≡ find_word spec.box_properties name.now }
{
    find_word(
        &[
            ("content", PageGrammar::Own(OwnProperty::Content)),
            ("text-align", PageGrammar::Own(OwnProperty::TextAlign)),
            (
                "vertical-align",
                PageGrammar::Own(OwnProperty::VerticalAlign),
            ),
        ],
        name,
    )
}

/// The grammar of a property that pages have and margin boxes don't, or the other way round.
fn other_property(context: PageContext, name: &str) -> Option<PageGrammar>
    ensures { result ≡ find_word (spec.other_properties context) name.now }
{
    match context {
        PageContext::Page => property_of_page(name),
        PageContext::MarginBox => property_of_box(name),
    }
}

/// The grammar of a property by its name, ASCII case aside, where pages or margin boxes have it.
#[tactic(auto, using(crate::proofs::TableLemmas::found_in))]
pub(crate) fn grammar_of(context: PageContext, name: &str) -> Option<PageGrammar>
    ensures { result ≡ find_word (spec.properties context) name.now }
{
    if let Some(grammar) = other_property(context, name) {
        return Some(grammar);
    }
    property_of_text(name)
}

/// Reads `left`, `center` or `right`.
#[tactic(auto, unfolding(crate::specs::Properties::aligns))]
fn text_align(reader: &mut Reader<'_>) -> Result<Align, Unread>
    ensures { Reads (λ x. x) (word_in spec.aligns reader.old) result reader.new }
{
    word_in(
        reader,
        &[
            ("left", Align::Left),
            ("center", Align::Center),
            ("right", Align::Right),
        ],
    )
}

/// Reads `top`, `middle` or `bottom`.
#[tactic(auto, unfolding(crate::specs::Properties::uprights))]
fn vertical_align(reader: &mut Reader<'_>) -> Result<Upright, Unread>
    ensures { Reads (λ x. x) (word_in spec.uprights reader.old) result reader.new }
{
    word_in(
        reader,
        &[
            ("top", Upright::Top),
            ("middle", Upright::Middle),
            ("bottom", Upright::Bottom),
        ],
    )
}

fn wide_long(property: OwnProperty, wide: Wide) -> PageLong
    ensures { result ≡ spec.wide_long property wide }
{
    match property {
        OwnProperty::Size => PageLong::Size(given_by(wide)),
        OwnProperty::Content => PageLong::Content(given_by(wide)),
        OwnProperty::TextAlign => PageLong::TextAlign(given_by(wide)),
        OwnProperty::VerticalAlign => PageLong::VerticalAlign(given_by(wide)),
    }
}

fn read_value(
    alloc: Global,
    reader: &mut Reader<'_>,
    property: OwnProperty,
) -> Result<PageLong, Unread>
    ensures { Reads (λ x. x) (spec.read_value property reader.old) result reader.new }
{
    match property {
        OwnProperty::Size => Ok(PageLong::Size(Given::Value(size(reader)?))),
        OwnProperty::Content => {
            let content = content(alloc, reader, ContentPlace::MarginBox)?;
            Ok(PageLong::Content(Given::Value(content)))
        }
        OwnProperty::TextAlign => Ok(PageLong::TextAlign(Given::Value(text_align(reader)?))),
        OwnProperty::VerticalAlign => {
            Ok(PageLong::VerticalAlign(Given::Value(vertical_align(reader)?)))
        }
    }
}

#[tactic(auto, unfolding(crate::specs::Properties::read_given))]
fn read_given(
    alloc: Global,
    reader: &mut Reader<'_>,
    property: OwnProperty,
) -> Result<PageLong, Unread>
    ensures { Reads (λ x. x) (spec.read_given property reader.old) result reader.new }
{
    match wide_of(reader.peek(), reader.second()) {
        None => read_value(alloc, reader, property),
        Some(wide) => {
            reader.advance();
            Ok(wide_long(property, wide))
        }
    }
}

/// Reads the value of a property of their own, and leaves nothing.
#[tactic(auto, unfolding(crate::specs::Properties::read_own))]
pub(crate) fn read_own(
    alloc: Global,
    reader: &mut Reader<'_>,
    property: OwnProperty,
) -> Result<PageLong, Unread>
    ensures { Reads (λ x. x) (spec.read_own property reader.old) result reader.new }
{
    let long = read_given(alloc, reader, property)?;
    if reader.peek().is_some() {
        return Err(Unread::NoReading);
    }
    Ok(long)
}
