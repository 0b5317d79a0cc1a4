//! Lists of content (CSS 2.1, 12.2; css-gcpm-3, 1.1 and 1.2; css-page-3, 7.1).

ghost use Rattle.std.specs.Prelude.{◌≡◌, ◌≤◌, ◌<◌, length, option_map, IfOk};
ghost use Rattle.css_tok.specs.Tokens.{item_in};
ghost use Rattle.css_words.specs.Parser.{Reads};
ghost use Rattle.css_words.specs.Table.{find_word};
ghost use Rattle.css_content.specs.Grammar as spec;

use crate::words::{style_argument, word_argument};
use bk_num::name::Name;
use bk_num::values::NumStyle;
use css_tok::kind::CssKind;
use css_tok::tokens::CssToken;
use css_words::lists::{ReadNext, read_after};
use css_words::reader::Reader;
use css_words::table::find_word;
use css_words::unread::Unread;
use css_words::words::{
    close, expect, ident, is_mark, is_named, lower_ident, of_kind, slice_of, string, value,
};
use std::alloc::Global;
use style::content::{Content, Keyword, Link, Part};
use style::lists::is_page_counter;

/// Where a list of content stands.
#[derive(Clone, Copy, Debug, PartialEq, Eq)]
pub enum ContentPlace {
    /// In `content`, where `target-counter()` may stand.
    Content,
    /// In `string-set`, where `content()` may stand.
    StringSet,
    /// In `content` of a margin box, where strings, `string()` and counters of pages may stand.
    MarginBox,
}

/// The functions of content.
#[derive(Clone, Copy, Debug, PartialEq, Eq)]
pub enum ContentFunction {
    Attr,
    Counter,
    Counters,
    Target,
    Own,
    /// `string()`.
    Running,
}

#[tactic(auto, unfolding(crate::specs::Grammar::functions))]
fn function_of(name: &str) -> Option<ContentFunction>
    ensures { result ≡ find_word spec.functions name.now }
{
    find_word(
        &[
            ("attr", ContentFunction::Attr),
            ("counter", ContentFunction::Counter),
            ("counters", ContentFunction::Counters),
            ("target-counter", ContentFunction::Target),
            ("content", ContentFunction::Own),
            ("string", ContentFunction::Running),
        ],
        name,
    )
}

#[tactic(auto, unfolding(crate::specs::Grammar::attr_arguments))]
fn attr_arguments(alloc: Global, reader: &mut Reader<'_>) -> Result<Part, Unread>
    ensures reads { Reads (λ x. x) (spec.attr_arguments reader.old) result reader.new }
    ensures within { length reader.new ≤ length reader.old }
{
    let name = lower_ident(alloc, reader)?;
    close(reader)?;
    Ok(Part::Attr(name))
}

/// A counter of pages by its name: the page's number, or how many pages there are.
fn page_counter(name: &str, style: NumStyle) -> Option<Part>
    ensures { result ≡ spec.page_counter name.now style }
{
    if is_page_counter(name) {
        Some(Part::Page(style))
    } else if name == "pages" {
        Some(Part::Pages(style))
    } else {
        None
    }
}

/// A counter of the flow by its name, which none of those of pages has.
fn flow_counter(name: Name, style: NumStyle) -> Option<Part>
    ensures { result ≡ spec.flow_counter name style }
{
    match page_counter(name.as_str(), style) {
        Some(_) => None,
        None => Some(Part::Counter(name, style)),
    }
}

/// What `counter()` prints by its name: in a margin box pages alone count, and in the flow all else.
fn counter_of(place: ContentPlace, name: Name, style: NumStyle) -> Option<Part>
    ensures { result ≡ spec.counter_of place name style }
{
    match place {
        ContentPlace::Content | ContentPlace::StringSet => flow_counter(name, style),
        ContentPlace::MarginBox => page_counter(name.as_str(), style),
    }
}

#[tactic(auto, unfolding(crate::specs::Grammar::counter_arguments))]
fn counter_arguments(
    alloc: Global,
    reader: &mut Reader<'_>,
    place: ContentPlace,
) -> Result<Part, Unread>
    ensures reads { Reads (λ x. x) (spec.counter_arguments place reader.old) result reader.new }
    ensures within { length reader.new ≤ length reader.old }
{
    let name = ident(alloc, reader)?;
    let style = style_argument(reader)?;
    close(reader)?;
    match counter_of(place, name, style) {
        Some(part) => Ok(part),
        None => Err(Unread::NoReading),
    }
}

#[tactic(auto, unfolding(crate::specs::Grammar::counters_arguments))]
fn counters_arguments(alloc: Global, reader: &mut Reader<'_>) -> Result<Part, Unread>
    ensures reads { Reads (λ x. x) (spec.counters_arguments reader.old) result reader.new }
    ensures within { length reader.new ≤ length reader.old }
{
    let name = ident(alloc, reader)?;
    expect(reader, b',')?;
    let between = string(alloc, reader)?;
    let style = style_argument(reader)?;
    close(reader)?;
    Ok(Part::Counters(name, between, style))
}

/// `attr(name)` or `attr(name url)`.
#[tactic(auto, unfolding(crate::specs::Grammar::link_attr))]
fn link_attr(alloc: Global, reader: &mut Reader<'_>) -> Result<Link, Unread>
    ensures reads { Reads (λ x. x) (spec.link_attr reader.old) result reader.new }
    ensures within { length reader.new ≤ length reader.old }
{
    let name = lower_ident(alloc, reader)?;
    if is_named(CssKind::Ident, reader.peek(), "url") {
        reader.advance();
    }
    close(reader)?;
    Ok(Link::Attr(name))
}

#[tactic(auto, unfolding(crate::specs::Grammar::link_url))]
fn link_url(alloc: Global, reader: &mut Reader<'_>) -> Result<Link, Unread>
    ensures reads { Reads (λ x. x) (spec.link_url reader.old) result reader.new }
    ensures within { length reader.new ≤ length reader.old }
{
    let address = string(alloc, reader)?;
    close(reader)?;
    Ok(Link::Url(address))
}

/// The rest of a link that begins with this token.
#[tactic(auto, unfolding(crate::specs::Grammar::link_of))]
fn link_of(
    alloc: Global,
    reader: &mut Reader<'_>,
    token: Option<CssToken<'_>>,
) -> Result<Link, Unread>
    ensures reads { Reads (λ x. x) (spec.link_of (option_map item_in token.entry) reader.old) result reader.new }
    ensures within { length reader.new ≤ length reader.old }
{
    if of_kind(CssKind::Str, token) || of_kind(CssKind::Url, token) {
        Ok(Link::Url(value(alloc, token)?))
    } else if is_named(CssKind::Func, token, "url") {
        link_url(alloc, reader)
    } else if is_named(CssKind::Func, token, "attr") {
        link_attr(alloc, reader)
    } else {
        Err(Unread::NoReading)
    }
}

#[tactic(auto, unfolding(crate::specs::Grammar::target_arguments))]
fn target_arguments(alloc: Global, reader: &mut Reader<'_>) -> Result<Part, Unread>
    ensures reads { Reads (λ x. x) (spec.target_arguments reader.old) result reader.new }
    ensures within { length reader.new ≤ length reader.old }
{
    let token = reader.peek();
    reader.advance();
    let link = link_of(alloc, reader, token)?;
    expect(reader, b',')?;
    let name = ident(alloc, reader)?;
    let style = style_argument(reader)?;
    close(reader)?;
    Ok(Part::Target(link, name, style))
}

#[tactic(auto, unfolding(crate::specs::Grammar::own_arguments))]
fn own_arguments(reader: &mut Reader<'_>) -> Result<Part, Unread>
    ensures reads { Reads (λ x. x) (spec.own_arguments reader.old) result reader.new }
    ensures within { length reader.new ≤ length reader.old }
{
    if is_named(CssKind::Ident, reader.peek(), "text") {
        reader.advance();
    }
    close(reader)?;
    Ok(Part::Own)
}

/// Reads a comma and which value of a string is printed, or nothing, which is the first.
#[tactic(auto, unfolding(crate::specs::Grammar::keywords))]
fn keyword_argument(reader: &mut Reader<'_>) -> Result<Keyword, Unread>
    ensures reads { Reads (λ x. x) (spec.keyword_argument reader.old) result reader.new }
    ensures within { length reader.new ≤ length reader.old }
{
    word_argument(
        reader,
        &[
            ("first", Keyword::First),
            ("start", Keyword::Start),
            ("last", Keyword::Last),
            ("first-except", Keyword::FirstExcept),
        ],
        Keyword::First,
    )
}

#[tactic(auto, unfolding(crate::specs::Grammar::running_arguments))]
fn running_arguments(alloc: Global, reader: &mut Reader<'_>) -> Result<Part, Unread>
    ensures reads { Reads (λ x. x) (spec.running_arguments reader.old) result reader.new }
    ensures within { length reader.new ≤ length reader.old }
{
    let name = ident(alloc, reader)?;
    let keyword = keyword_argument(reader)?;
    close(reader)?;
    Ok(Part::Running(name, keyword))
}

/// Reads the arguments of a function in the flow: those that `content` and `string-set` both have.
#[tactic(auto, unfolding(crate::specs::Grammar::flow_arguments))]
fn flow_arguments(
    alloc: Global,
    reader: &mut Reader<'_>,
    place: ContentPlace,
    function: ContentFunction,
) -> Result<Part, Unread>
    ensures reads { Reads (λ x. x) (spec.flow_arguments place function reader.old) result reader.new }
    ensures within { length reader.new ≤ length reader.old }
{
    match function {
        ContentFunction::Attr => attr_arguments(alloc, reader),
        ContentFunction::Counter => counter_arguments(alloc, reader, place),
        ContentFunction::Counters => counters_arguments(alloc, reader),
        _ => Err(Unread::NoReading),
    }
}

#[tactic(auto, unfolding(crate::specs::Grammar::arguments))]
fn arguments(
    alloc: Global,
    reader: &mut Reader<'_>,
    place: ContentPlace,
    function: ContentFunction,
) -> Result<Part, Unread>
    ensures reads { Reads (λ x. x) (spec.arguments place function reader.old) result reader.new }
    ensures within { length reader.new ≤ length reader.old }
{
    match (place, function) {
        (ContentPlace::Content, ContentFunction::Target) => target_arguments(alloc, reader),
        (ContentPlace::StringSet, ContentFunction::Own) => own_arguments(reader),
        (ContentPlace::MarginBox, ContentFunction::Running) => running_arguments(alloc, reader),
        (ContentPlace::MarginBox, ContentFunction::Counter) => {
            counter_arguments(alloc, reader, place)
        }
        (ContentPlace::MarginBox, _) => Err(Unread::NoReading),
        (_, _) => flow_arguments(alloc, reader, place, function),
    }
}

/// The rest of a part that begins with this token.
#[tactic(auto, unfolding(crate::specs::Grammar::part_of))]
fn part_of(
    alloc: Global,
    reader: &mut Reader<'_>,
    place: ContentPlace,
    token: Option<CssToken<'_>>,
) -> Result<Part, Unread>
    ensures reads { Reads (λ x. x) (spec.part_of place (option_map item_in token.entry) reader.old) result reader.new }
    ensures within { length reader.new ≤ length reader.old }
{
    if of_kind(CssKind::Str, token) {
        return Ok(Part::Text(value(alloc, token)?));
    }
    if !of_kind(CssKind::Func, token) {
        return Err(Unread::NoReading);
    }
    match function_of(slice_of(token)) {
        Some(function) => arguments(alloc, reader, place, function),
        None => Err(Unread::NoReading),
    }
}

#[tactic(auto, unfolding(crate::specs::Grammar::one_part))]
fn one_part(alloc: Global, reader: &mut Reader<'_>, place: ContentPlace) -> Result<Part, Unread>
    ensures reads { Reads (λ x. x) (spec.one_part place reader.old) result reader.new }
    ensures within { length reader.new ≤ length reader.old }
    ensures taken { IfOk result (λ _. length reader.new < length reader.old) }
{
    let token = reader.peek();
    if token.is_none() {
        return Err(Unread::NoReading);
    }
    reader.advance();
    part_of(alloc, reader, place, token)
}

/// The next part; None at a comma and at the end.
#[derive(Drop)]
struct NextPart {
    place: ContentPlace,
}

impl ReadNext for NextPart {
    type Item = Part;

    ghost use Rattle.css_content.specs.Grammar.{next_part};

    ghost parser = { λ n. next_part n.place };

    #[tactic(auto, unfolding(crate::specs::Grammar::next_part))]
    fn next(&self, alloc: Global, reader: &mut Reader<'_>) -> Result<Option<Part>, Unread> {
        let token = reader.peek();
        if token.is_none() || is_mark(b',', token) {
            return Ok(None);
        }
        Ok(Some(one_part(alloc, reader, self.place)?))
    }
}

/// Reads one part or more, up to a comma or the end.
#[tactic(auto, unfolding(crate::specs::Grammar::content_list))]
pub fn content_list(
    alloc: Global,
    reader: &mut Reader<'_>,
    place: ContentPlace,
) -> Result<Content, Unread>
    ensures reads { Reads (λ x. x) (spec.content_list place reader.old) result reader.new }
    ensures within { length reader.new ≤ length reader.old }
{
    let first = one_part(alloc, reader, place)?;
    let parts = read_after(alloc, reader, first, &NextPart { place })?;
    Ok(Content::of(parts.into_vec()))
}

/// Reads a value of `content`, of an element or of a margin box: None for `normal` and `none`.
#[tactic(auto, unfolding(crate::specs::Grammar::content))]
pub fn content(
    alloc: Global,
    reader: &mut Reader<'_>,
    place: ContentPlace,
) -> Result<Option<Content>, Unread>
    ensures reads { Reads (λ x. x) (spec.content place reader.old) result reader.new }
    ensures within { length reader.new ≤ length reader.old }
{
    let token = reader.peek();
    if is_named(CssKind::Ident, token, "normal") || is_named(CssKind::Ident, token, "none") {
        reader.advance();
        return Ok(None);
    }
    Ok(Some(content_list(alloc, reader, place)?))
}
