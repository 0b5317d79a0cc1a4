//! The style of an element, and of a pseudo-element, with its page name.

ghost use Rattle.std.specs.Prelude.{◌≡◌, None, Some, false, IfOk, OnOk, option_map};
ghost use Rattle.std.specs.Option.{option_to_list};
ghost use Rattle.computed.specs.Names.{named, page_in, given_names, with_names};
ghost use Rattle.computed.specs.Walk.{IsPage, IsStyle, HasPseudo, Extends, is_displayed, is_generated};
ghost use Rattle.computed.specs.Applied.{computed_style, inline_display};

use crate::apply::computed_style;
use bk_num::ids::NameId;
use bk_num::name::{Name, NoMem};
use bk_num::px::Px;
use std::alloc::Global;
use style::long::{Given, Long};
use style::names::Names;
use style::style::Style;
use style::values::Display;

/// A style in a box, which is cheap to hold.
pub(crate) fn boxed(alloc: Global, style: Style) -> Result<Box<Style>, NoMem>
    ensures { IfOk result (λ b. b.value ≡ style) }
{
    Ok(Box::new(alloc, style)?)
}

/// The computed style of an element below a parent, but for its page name.
fn boxed_style(
    alloc: Global,
    parent: &Style,
    root: Option<Px>,
    winners: &[Long],
) -> Result<Box<Style>, NoMem>
    ensures { IfOk result (λ b. b.value ≡ computed_style parent.now root winners.now) }
{
    boxed(alloc, computed_style(alloc, parent, root, winners)?)
}

/// The style of an element below a parent, by its winners. Names may be added also where memory fails.
pub(crate) fn style_of(
    alloc: Global,
    names: &mut Names,
    parent: &Style,
    root: Option<Px>,
    winners: &[Long],
) -> Result<Box<Style>, NoMem>
    ensures style { IfOk result (λ b. IsStyle names.new parent.now root winners.now b.value) }
    ensures numbered { OnOk result (names.new ≡ with_names names.old (option_to_list (page_in winners.now))) }
    ensures names { Extends names.old names.new }
{
    let page = page_number(alloc, names, parent.page, winners)?;
    let mut style = boxed_style(alloc, parent, root, winners)?;
    style.page = page;
    Ok(style)
}

/// The style of a pseudo-element of an element, where the element may have it and it is there.
pub(crate) fn pseudo_style(
    alloc: Global,
    names: &mut Names,
    own: &Style,
    root: &Px,
    allowed: bool,
    winners: &[Long],
) -> Result<Option<Box<Style>>, NoMem>
    ensures style { IfOk result (λ o. HasPseudo names.new own.now root.now allowed winners.now
        (option_map (λ b. b.value) o)) }
    ensures numbered { IfOk result (λ o. names.new ≡
        with_names names.old (given_names winners.now (option_map (λ b. b.value) o))) }
    ensures names { Extends names.old names.new }
{
    if !allowed || winners.is_empty() {
        return Ok(None);
    }
    let mut style = boxed_style(alloc, own, Some(*root), winners)?;
    if !is_generated(&style) {
        return Ok(None);
    }
    style.display = inline_display(style.display);
    style.page = page_number(alloc, names, own.page, winners)?;
    Ok(Some(style))
}

fn is_generated(style: &Style) -> bool
    ensures { result ≡ is_generated style.now }
{
    is_displayed(style.display) && style.content.is_some()
}

pub(crate) fn is_displayed(display: Display) -> bool
    ensures { result ≡ is_displayed display }
{
    match display {
        Display::Hidden => false,
        Display::Inline | Display::Block | Display::ListItem => true,
    }
}

fn inline_display(display: Display) -> Display
    ensures { result ≡ inline_display display }
{
    match display {
        Display::Hidden => Display::Hidden,
        Display::Inline | Display::Block | Display::ListItem => Display::Inline,
    }
}

/// The number of the used page name: of the name that winners give, else the parent's.
fn page_number(
    alloc: Global,
    names: &mut Names,
    parent: NameId,
    winners: &[Long],
) -> Result<NameId, NoMem>
    ensures page { IfOk result (λ n. IsPage names.new parent.0 (page_in winners.now) n.0) }
    ensures numbered { OnOk result (names.new ≡ with_names names.old (option_to_list (page_in winners.now))) }
    ensures names { Extends names.old names.new }
{
    match page_in(winners) {
        Some(name) => names.number(alloc, name.as_str()),
        None => Ok(parent),
    }
}

fn page_in(winners: &[Long]) -> Option<&Name>
    ensures { option_map (λ n. n.now) result ≡ page_in winners.now }
{
    let mut found = None;
    for long in winners {
        found = named(found, long);
    }
    found
}

fn named<'a>(found: Option<&'a Name>, long: &'a Long) -> Option<&'a Name>
    ensures { option_map (λ n. n.now) result ≡ named (option_map (λ n. n.now) found.entry) long.now }
{
    match long {
        Long::Page(Given::Value(Some(name))) => Some(name),
        Long::Page(_) => None,
        _ => found,
    }
}
