//! Page selectors (css-page-3, 3).

ghost use Rattle.std.specs.Prelude.{◌≡◌, ◌≤◌, length, count_by, IfOk};
ghost use Rattle.css_words.specs.Parser.{Reads, Owns};
ghost use Rattle.css_page.specs.Selectors as spec;

use bk_num::items::Items;
use bk_num::name::{Name, NoMem};
use css_content::words::word_in;
use css_tok::kind::CssKind;
use css_words::lists::{AfterMark, ReadOne, read_comma_list, read_more};
use css_words::reader::{Reader, Skipped};
use css_words::unread::Unread;
use css_words::words::{is_mark, next_ident, of_kind};
use std::alloc::Global;

/// A pseudo-class of pages.
#[derive(Clone, Copy)]
pub enum PseudoPage {
    First,
    Left,
    Right,
    Blank,
}

/// A page selector: the name that it asks for, if any, and how often each pseudo-class stands in it. A number stays at
/// 4,294,967,295.
#[derive(Drop)]
pub struct PageSelector {
    pub name: Option<Name>,
    pub firsts: u32,
    pub blanks: u32,
    pub lefts: u32,
    pub rights: u32,
}

/// The name of a pseudo-class.
#[derive(Drop)]
struct PseudoName;

impl ReadOne for PseudoName {
    type Item = PseudoPage;

    ghost use Rattle.css_content.specs.Basics.{word_in};
    ghost use Rattle.css_page.specs.Selectors.{pseudo_pages};

    ghost parser = { λ _. word_in pseudo_pages };

    #[tactic(auto, unfolding(crate::specs::Selectors::pseudo_pages))]
    fn read(&self, _alloc: Global, reader: &mut Reader<'_>) -> Result<PseudoPage, Unread> {
        word_in(
            reader,
            &[
                ("first", PseudoPage::First),
                ("left", PseudoPage::Left),
                ("right", PseudoPage::Right),
                ("blank", PseudoPage::Blank),
            ],
        )
    }
}

fn is_same(one: PseudoPage, other: PseudoPage) -> bool
    ensures { result ≡ spec.is_same one other }
{
    matches!(
        (one, other),
        (PseudoPage::First, PseudoPage::First)
            | (PseudoPage::Left, PseudoPage::Left)
            | (PseudoPage::Right, PseudoPage::Right)
            | (PseudoPage::Blank, PseudoPage::Blank)
    )
}

/// How often a pseudo-class stands in a list.
fn count(pseudo: PseudoPage, pseudos: &[PseudoPage]) -> usize
    ensures { result ≡ count_by (λ other. spec.is_same pseudo other) pseudos.now }
{
    pseudos
        .iter()
        .filter(|other| is_same(pseudo, **other))
        .count()
}

/// The same, at most 4,294,967,295.
#[tactic(auto, unfolding(crate::specs::Selectors::count_of))]
fn count_of(pseudo: PseudoPage, pseudos: &[PseudoPage]) -> u32
    ensures { result ≡ spec.count_of pseudo pseudos.now }
{
    count(pseudo, pseudos).min(u32::MAX as usize) as u32
}

fn selector_of(name: Option<Name>, pseudos: &[PseudoPage]) -> PageSelector
    ensures { result ≡ spec.selector_of name pseudos.now }
{
    PageSelector {
        name,
        firsts: count_of(PseudoPage::First, pseudos),
        blanks: count_of(PseudoPage::Blank, pseudos),
        lefts: count_of(PseudoPage::Left, pseudos),
        rights: count_of(PseudoPage::Right, pseudos),
    }
}

/// Reads a name, if there is one, and pseudo-classes.
#[tactic(auto, unfolding(crate::specs::Selectors::name_and_pseudos), using(css_words::proofs::RepeatLemmas::no_prefix))]
fn name_and_pseudos(alloc: Global, reader: &mut Reader<'_>) -> Result<PageSelector, Unread>
    ensures reads { Reads (λ x. x) (spec.name_and_pseudos reader.old) result reader.new }
    ensures within { length reader.new ≤ length reader.old }
{
    let name = next_ident(alloc, reader)?;
    let colon = AfterMark {
        mark: b':',
        value: &PseudoName,
    };
    let found = read_more(alloc, reader, Vec::new(alloc), &colon)?;
    reader.pass_spaces();
    Ok(selector_of(name, found.as_slice()))
}

/// A selector, which isn't empty.
#[derive(Drop)]
struct Selector;

impl ReadOne for Selector {
    type Item = PageSelector;

    ghost use Rattle.css_page.specs.Selectors.{selector};

    ghost parser = { λ _. selector };

    #[tactic(auto, unfolding(crate::specs::Selectors::selector))]
    fn read(&self, alloc: Global, reader: &mut Reader<'_>) -> Result<PageSelector, Unread> {
        reader.pass_spaces();
        let token = reader.peek();
        if of_kind(CssKind::Ident, token) || is_mark(b':', token) {
            name_and_pseudos(alloc, reader)
        } else {
            Err(Unread::NoReading)
        }
    }
}

/// The selectors of an empty list: one that asks nothing.
fn every_page(alloc: Global) -> Result<Items<PageSelector>, Unread>
    ensures { Owns spec.every_page result }
{
    let mut found = Items::new(alloc);
    found.push(selector_of(None, &[]))?;
    Ok(found)
}

#[tactic(auto, unfolding(crate::specs::Selectors::selectors))]
fn selectors(alloc: Global, reader: &mut Reader<'_>) -> Result<Items<PageSelector>, Unread>
    ensures { Reads (λ x. x) (spec.selectors reader.old) result reader.new }
{
    reader.pass_spaces();
    if reader.peek().is_none() {
        return every_page(alloc);
    }
    read_comma_list(alloc, reader, &Selector)
}

/// A reading that leaves nothing.
#[tactic(auto, unfolding(crate::specs::Selectors::whole_list))]
fn whole_list(alloc: Global, reader: &mut Reader<'_>) -> Result<Items<PageSelector>, Unread>
    ensures { Reads (λ x. x) (spec.whole_list reader.old) result reader.new }
{
    let found = selectors(alloc, reader)?;
    if reader.peek().is_some() {
        return Err(Unread::NoReading);
    }
    Ok(found)
}

/// Reads a list of page selectors. None exactly where it has no reading: each of its parts, separated by commas, is a
/// name, or pseudo-classes, or a name and pseudo-classes without white space between them. An empty list is one
/// selector that takes each page.
#[tactic(auto, unfolding(crate::specs::Selectors::read_selectors))]
pub fn read_selectors(alloc: Global, text: &str) -> Result<Option<Items<PageSelector>>, NoMem>
    ensures { IfOk result (λ found. found ≡ spec.read_selectors text.now) }
{
    let mut reader = Reader::new(text, Skipped::Comments);
    match whole_list(alloc, &mut reader) {
        Ok(found) => Ok(Some(found)),
        Err(Unread::NoReading) => Ok(None),
        Err(Unread::NoMemory) => Err(NoMem),
    }
}
