//! Reads selectors.

ghost use Rattle.std.specs.Prelude.{◌≡◌, ◌∷◌, ◌+◌, ◌≤◌, ◌<◌, [], length, option_map, IfOk, IfSome, IfNone};
ghost use Rattle.css_tok.specs.Tokens.{item_in};
ghost use Rattle.css_words.specs.Parser.{Reads, Owns};
ghost use Rattle.selectors.specs.Grammar as spec;
ghost use Rattle.selectors.specs.Specificity.{is_pseudo};

use crate::short::Few;
use crate::simple::{all_tests, is_function, next_test};
use crate::specificity::is_pseudo;
use crate::types::{Compound, Join, Plain, Selector, SelectorList, Test};
use bk_num::name::{Name, NoMem};
use bk_num::values::Pseudo;
use css_tok::kind::CssKind;
use css_tok::tokens::CssToken;
use css_words::lists::{ReadOne, read_comma_list};
use css_words::reader::{Reader, Skipped};
use css_words::unread::Unread;
use css_words::words::{expect, is_mark, is_named, lower_ident, of_kind};
use std::alloc::Global;

/// The type that a compound asks for.
#[derive(Drop)]
pub enum Kinship {
    Named(Name),
    Any,
    Bare,
}

/// A simple selector other than a type.
#[derive(Drop)]
pub enum SimpleSelector {
    Test(Test),
    Not(Plain),
}

#[tactic(auto, unfolding(crate::specs::Grammar::type_name))]
fn type_name(alloc: Global, reader: &mut Reader<'_>) -> Result<Kinship, Unread>
    ensures reads { Reads (λ x. x) (spec.type_name reader.old) result reader.new }
    ensures within { length reader.new ≤ length reader.old }
{
    let token = reader.peek();
    if of_kind(CssKind::Ident, token) {
        return Ok(Kinship::Named(lower_ident(alloc, reader)?));
    }
    if is_mark(b'*', token) {
        reader.advance();
        return Ok(Kinship::Any);
    }
    Ok(Kinship::Bare)
}

fn is_bare(kin: &Kinship) -> bool
    ensures { result ≡ spec.is_bare kin.now }
{
    matches!(kin, Kinship::Bare)
}

fn name_of(kin: Kinship) -> Option<Name>
    ensures { result ≡ spec.name_of kin }
{
    match kin {
        Kinship::Named(name) => Some(name),
        Kinship::Any => None,
        Kinship::Bare => None,
    }
}

#[tactic(auto, unfolding(crate::specs::Grammar::plain))]
fn plain(alloc: Global, reader: &mut Reader<'_>) -> Result<Plain, Unread>
    ensures reads { Reads (λ x. x) (spec.plain reader.old) result reader.new }
    ensures within { length reader.new ≤ length reader.old }
{
    let kin = type_name(alloc, reader)?;
    let tests = all_tests(alloc, reader)?;
    if is_bare(&kin) && tests.as_slice().len() == 0 {
        return Err(Unread::NoReading);
    }
    let name = name_of(kin);
    Ok(Plain { name, tests })
}

#[tactic(auto, unfolding(crate::specs::Grammar::negation))]
fn negation(alloc: Global, reader: &mut Reader<'_>) -> Result<Plain, Unread>
    ensures reads { Reads (λ x. x) (spec.negation reader.old) result reader.new }
    ensures within { length reader.new ≤ length reader.old }
    ensures taken { 0 < length reader.old → length reader.new < length reader.old }
{
    reader.advance();
    reader.advance();
    reader.pass_spaces();
    let plain = plain(alloc, reader)?;
    reader.pass_spaces();
    expect(reader, b')')?;
    Ok(plain)
}

/// The next simple selector other than a type; None where none comes.
#[tactic(auto, unfolding(crate::specs::Grammar::next_part, css_words::specs::Words::is_mark))]
fn next_part(alloc: Global, reader: &mut Reader<'_>) -> Result<Option<SimpleSelector>, Unread>
    ensures reads { Reads (λ x. x) (spec.next_part reader.old) result reader.new }
    ensures within { length reader.new ≤ length reader.old }
    ensures taken { IfOk result (λ o. IfSome o (λ _. length reader.new < length reader.old)) }
{
    let token = reader.peek();
    if token.is_some() && is_function(token, reader.second(), "not") {
        return Ok(Some(SimpleSelector::Not(negation(alloc, reader)?)));
    }
    match next_test(alloc, reader)? {
        Some(test) => Ok(Some(SimpleSelector::Test(test))),
        None => Ok(None),
    }
}

/// Keeps a part of a compound.
fn keep(
    alloc: Global,
    found: (Few<Test>, Few<Plain>),
    part: SimpleSelector,
) -> Result<(Few<Test>, Few<Plain>), Unread>
    ensures { Owns (spec.with_part found part) result }
{
    let (mut tests, mut nots) = found;
    match part {
        SimpleSelector::Test(test) => {
            tests.push(alloc, test)?;
            Ok((tests, nots))
        }
        SimpleSelector::Not(plain) => {
            nots.push(alloc, plain)?;
            Ok((tests, nots))
        }
    }
}

/// The simple selectors of a compound other than its type.
#[tactic(auto, unfolding(crate::specs::Grammar::all_parts), using(crate::proofs::LoopLemmas::part_turns))]
fn all_parts(alloc: Global, reader: &mut Reader<'_>) -> Result<(Few<Test>, Few<Plain>), Unread>
    ensures reads { Reads (λ x. x) (spec.all_parts reader.old) result reader.new }
    ensures within { length reader.new ≤ length reader.old }
{
    let mut found = (Few::new(), Few::new());
    'parts: loop {
        match next_part(alloc, reader)? {
            Some(part) => found = keep(alloc, found, part)?,
            None => return Ok(found),
        }
    }
}

#[tactic(auto, unfolding(crate::specs::Grammar::compound))]
fn compound(alloc: Global, reader: &mut Reader<'_>) -> Result<Compound, Unread>
    ensures reads { Reads (λ x. x) (spec.compound reader.old) result reader.new }
    ensures within { length reader.new ≤ length reader.old }
{
    let kin = type_name(alloc, reader)?;
    let (tests, nots) = all_parts(alloc, reader)?;
    let ends = !is_mark(b':', reader.peek());
    if is_bare(&kin) && tests.as_slice().len() == 0 && nots.as_slice().len() == 0 && ends {
        return Err(Unread::NoReading);
    }
    let name = name_of(kin);
    Ok(Compound {
        plain: Plain { name, tests },
        nots,
    })
}

#[tactic(auto, unfolding(crate::specs::Grammar::old_pseudo))]
fn old_pseudo(token: Option<CssToken<'_>>) -> Option<Pseudo>
    ensures { result ≡ spec.old_pseudo (option_map item_in token.entry) }
{
    if is_named(CssKind::Ident, token, "before") {
        Some(Pseudo::Before)
    } else if is_named(CssKind::Ident, token, "after") {
        Some(Pseudo::After)
    } else {
        None
    }
}

#[tactic(auto, unfolding(crate::specs::Grammar::new_pseudo))]
fn new_pseudo(token: Option<CssToken<'_>>) -> Option<Pseudo>
    ensures { result ≡ spec.new_pseudo (option_map item_in token.entry) }
{
    if is_named(CssKind::Ident, token, "footnote-call") {
        Some(Pseudo::Call)
    } else if is_named(CssKind::Ident, token, "footnote-marker") {
        Some(Pseudo::Marker)
    } else {
        old_pseudo(token)
    }
}

fn pseudo_of(old: bool, token: Option<CssToken<'_>>) -> Option<Pseudo>
    ensures { result ≡ spec.pseudo_of old (option_map item_in token.entry) }
{
    if old {
        old_pseudo(token)
    } else {
        new_pseudo(token)
    }
}

#[tactic(auto, unfolding(crate::specs::Grammar::pseudo_name))]
fn pseudo_name(reader: &mut Reader<'_>, old: bool) -> Result<Pseudo, Unread>
    ensures reads { Reads (λ x. x) (spec.pseudo_name old reader.old) result reader.new }
    ensures within { length reader.new ≤ length reader.old }
{
    let Some(pseudo) = pseudo_of(old, reader.peek()) else {
        return Err(Unread::NoReading);
    };
    reader.advance();
    Ok(pseudo)
}

#[tactic(auto, unfolding(crate::specs::Grammar::pseudo_element))]
fn pseudo_element(reader: &mut Reader<'_>) -> Result<Pseudo, Unread>
    ensures reads { Reads (λ x. x) (spec.pseudo_element reader.old) result reader.new }
    ensures within { length reader.new ≤ length reader.old }
{
    let second = reader.second();
    if !is_mark(b':', reader.peek()) {
        return Ok(Pseudo::Element);
    }
    reader.advance();
    if is_mark(b':', second) {
        reader.advance();
        return pseudo_name(reader, false);
    }
    pseudo_name(reader, true)
}

#[tactic(auto, unfolding(crate::specs::Grammar::combinator_of))]
fn combinator_of(token: Option<CssToken<'_>>) -> Option<Join>
    ensures { result ≡ spec.combinator_of (option_map item_in token.entry) }
{
    if is_mark(b'>', token) {
        Some(Join::Child)
    } else if is_mark(b'+', token) {
        Some(Join::Next)
    } else if is_mark(b'~', token) {
        Some(Join::Later)
    } else {
        None
    }
}

#[tactic(auto, unfolding(crate::specs::Grammar::is_over))]
fn is_over(token: Option<CssToken<'_>>) -> bool
    ensures { result ≡ spec.is_over (option_map item_in token.entry) }
{
    match token {
        None => true,
        Some(token) => is_mark(b',', Some(token)),
    }
}

#[tactic(auto, unfolding(crate::specs::Grammar::combinator))]
fn combinator(reader: &mut Reader<'_>) -> Result<Option<Join>, Unread>
    ensures reads { Reads (λ x. x) (spec.combinator reader.old) result reader.new }
    ensures within { length reader.new ≤ length reader.old }
{
    let space = of_kind(CssKind::Space, reader.peek());
    reader.pass_spaces();
    let token = reader.peek();
    if let Some(join) = combinator_of(token) {
        reader.advance();
        reader.pass_spaces();
        return Ok(Some(join));
    }
    if is_over(token) {
        Ok(None)
    } else if space {
        Ok(Some(Join::Inside))
    } else {
        Err(Unread::NoReading)
    }
}

/// The combinator and the compound that follow, or none at the end of the selector.
fn next_compound(
    alloc: Global,
    reader: &mut Reader<'_>,
    pseudo: Pseudo,
) -> Result<Option<(Join, Compound)>, Unread>
    ensures reads { Reads (λ x. x) (spec.next_compound pseudo reader.old) result reader.new }
    ensures within { length reader.new ≤ length reader.old }
{
    let Some(join) = combinator(reader)? else {
        return Ok(None);
    };
    if is_pseudo(pseudo) {
        return Err(Unread::NoReading);
    }
    let compound = compound(alloc, reader)?;
    Ok(Some((join, compound)))
}

/// The compounds of a selector, and the combinators between them.
#[derive(Drop)]
pub(crate) struct Joined {
    parts: Few<Compound>,
    joins: Few<Join>,
}

/// Reads what follows a compound: the pseudo-element that ends the selector, or one more combinator and compound, which
/// are appended.
fn next_turn(
    alloc: Global,
    reader: &mut Reader<'_>,
    found: &mut Joined,
) -> Result<Option<Pseudo>, Unread>
    ensures reads { Reads (λ o. (o, found.new.parts, found.new.joins))
        (spec.next_turn found.old.parts found.old.joins reader.old) result reader.new }
    ensures more { IfOk result (λ o. IfNone o ((length found.new.parts ≡ length found.old.parts + 1) ×
        (length found.new.joins ≡ length found.old.joins + 1))) }
    ensures last { IfOk result (λ o. IfSome o (λ _. (length found.new.parts ≡ length found.old.parts) ×
        (length found.new.joins ≡ length found.old.joins))) }
    ensures within { length reader.new ≤ length reader.old }
{
    let pseudo = pseudo_element(reader)?;
    match next_compound(alloc, reader, pseudo)? {
        None => Ok(Some(pseudo)),
        Some((join, compound)) => {
            found.parts.push(alloc, compound)?;
            found.joins.push(alloc, join)?;
            Ok(None)
        }
    }
}

/// What follows the first compound of a selector.
fn rest(alloc: Global, reader: &mut Reader<'_>, first: Compound) -> Result<Selector, Unread>
    ensures reads { Reads (λ x. x) (spec.rest_from 16 (first ∷ []) [] reader.old) result reader.new }
    ensures within { length reader.new ≤ length reader.old }
{
    let mut found = Joined {
        parts: Few::new(),
        joins: Few::new(),
    };
    found.parts.push(alloc, first)?;
    for turn in 0..16u32 {
        if let Some(pseudo) = next_turn(alloc, reader, &mut found)? {
            let Joined { parts, joins } = found;
            return Ok(Selector {
                parts,
                joins,
                pseudo,
            });
        }
    }
    Err(Unread::NoReading)
}

#[tactic(auto, unfolding(crate::specs::Grammar::selector))]
fn selector(alloc: Global, reader: &mut Reader<'_>) -> Result<Selector, Unread>
    ensures reads { Reads (λ x. x) (spec.selector reader.old) result reader.new }
    ensures within { length reader.new ≤ length reader.old }
{
    reader.pass_spaces();
    let first = compound(alloc, reader)?;
    rest(alloc, reader, first)
}

/// A selector of a list.
#[derive(Drop)]
struct ListedSelector;

impl ReadOne for ListedSelector {
    type Item = Selector;

    ghost use Rattle.selectors.specs.Grammar.{selector};

    ghost parser = { λ _. selector };

    fn read(&self, alloc: Global, reader: &mut Reader<'_>) -> Result<Selector, Unread> {
        selector(alloc, reader)
    }
}

/// Reads a list of selectors (Selectors 3, 10.1); None exactly where it has no reading. One selector
/// without a reading leaves the whole list unread.
pub fn read_selectors(alloc: Global, text: &str) -> Result<Option<SelectorList>, NoMem>
    ensures { IfOk result (λ o. option_map (λ l. l.items) o ≡ spec.selectors_in text.now) }
{
    let mut reader = Reader::new(text, Skipped::Comments);
    match read_comma_list(alloc, &mut reader, &ListedSelector) {
        Ok(items) => Ok(Some(SelectorList { items })),
        Err(Unread::NoReading) => Ok(None),
        Err(Unread::NoMemory) => Err(NoMem),
    }
}
