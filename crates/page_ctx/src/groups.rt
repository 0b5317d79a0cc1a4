//! Page rules by the names that their selectors ask for. Of what selectors without a name declare the winners alone are
//! kept, since it loses to what those with a name declare with equal importance.

ghost use Rattle.std.specs.Prelude.{◌≡◌, ◌++◌, [], None, map, option_map, option_to_list, IfOk, OnOk};
ghost use Rattle.std.specs.List.{range_with_len};
ghost use Rattle.style.specs.Styles.{initial_style};
ghost use Rattle.css_rules.specs.MarginBoxes.{margin_box_count};
ghost use Rattle.page_ctx.specs.Index.{IsIndex};
ghost use Rattle.page_ctx.specs.Winners.{applied_in, candidate_in, page_declared};
ghost use Rattle.page_ctx.specs.Groups as spec;

use crate::applied::{AppliedPageRule, applied_to, box_declared, page_declared};
use crate::classes::PageClasses;
use crate::index::{SelectorIndex, index_of};
use crate::property::PageProperty;
use crate::winner::{PageCandidate, winner};
use bk_num::items::Items;
use bk_num::name::{Name, NoMem};
use bk_num::sides::BoxSide;
use css_page::rules::PageRule;
use css_rules::margin_boxes::MARGIN_BOXES;
use std::alloc::Global;

/// The winning declarations for pages that have these pseudo-classes, and for each of their margin boxes by its number.
#[derive(Drop)]
pub struct PageWinners<'s> {
    pub page: Items<PageCandidate<'s>>,
    pub boxes: Items<Items<PageCandidate<'s>>>,
}

/// Those of page 1, of another left page, of another right page, and of the same three blank.
#[derive(Drop)]
pub struct EachWinners<'s> {
    pub first: PageWinners<'s>,
    pub left: PageWinners<'s>,
    pub right: PageWinners<'s>,
    pub blank_first: PageWinners<'s>,
    pub blank_left: PageWinners<'s>,
    pub blank_right: PageWinners<'s>,
}

/// The selectors of rules by their names, the winners among what those without a name declare, and the initial
/// families.
#[derive(Drop)]
pub struct GroupedRules<'s> {
    pub index: SelectorIndex<'s>,
    pub kept: EachWinners<'s>,
    pub initial: &'s [Name],
}

/// Appends a declaration, if there is one.
fn push_winner<'s>(
    winners: &mut Items<PageCandidate<'s>>,
    found: Option<PageCandidate<'s>>,
) -> Result<(), NoMem>
    ensures { OnOk result (map candidate_in winners.new ≡ map candidate_in winners.old ++
        option_to_list (option_map candidate_in found.entry)) }
{
    match found {
        Some(candidate) => winners.push(candidate),
        None => Ok(()),
    }
}

/// The winning declarations of properties, one for each that is declared.
fn winners_among<'s>(
    alloc: Global,
    properties: &[PageProperty],
    declared: &[PageCandidate<'s>],
) -> Result<Items<PageCandidate<'s>>, NoMem>
    ensures { IfOk result (λ winners. map candidate_in winners ≡
        spec.winners_among properties.now (map candidate_in declared.now)) }
{
    let mut winners = Items::new(alloc);
    for property in properties {
        push_winner(&mut winners, winner(*property, declared))?;
    }
    Ok(winners)
}

/// The winning declarations of all properties.
fn winners_of<'s>(
    alloc: Global,
    declared: &[PageCandidate<'s>],
) -> Result<Items<PageCandidate<'s>>, NoMem>
    ensures { IfOk result (λ winners. map candidate_in winners ≡ spec.winners_of (map candidate_in declared.now)) }
{
    let properties = [
        PageProperty::Size,
        PageProperty::Margin(BoxSide::Top),
        PageProperty::Margin(BoxSide::Right),
        PageProperty::Margin(BoxSide::Bottom),
        PageProperty::Margin(BoxSide::Left),
        PageProperty::Color,
        PageProperty::FontFamily,
        PageProperty::FontSize,
        PageProperty::FontStyle,
        PageProperty::FontWeight,
        PageProperty::LineHeight,
        PageProperty::Content,
        PageProperty::TextAlign,
        PageProperty::VerticalAlign,
    ];
    winners_among(alloc, &properties, declared)
}

/// The winning declarations for pages by the rules that are for them.
fn winners_for_page<'s>(
    alloc: Global,
    rules: &[AppliedPageRule<'s>],
) -> Result<Items<PageCandidate<'s>>, NoMem>
    ensures { IfOk result (λ winners. map candidate_in winners ≡
        spec.winners_of (page_declared (map applied_in rules.now))) }
{
    winners_of(alloc, &page_declared(alloc, &[], rules)?)
}

/// Those for the margin box of a number.
fn winners_for_box<'s>(
    alloc: Global,
    place: u32,
    rules: &[AppliedPageRule<'s>],
) -> Result<Items<PageCandidate<'s>>, NoMem>
    ensures { IfOk result (λ winners. map candidate_in winners ≡ spec.box_winners (map applied_in rules.now) place) }
{
    winners_of(alloc, &box_declared(alloc, &[], place, rules)?)
}

/// Those for each margin box.
fn winners_for_boxes<'s>(
    alloc: Global,
    rules: &[AppliedPageRule<'s>],
) -> Result<Items<Items<PageCandidate<'s>>>, NoMem>
    ensures { IfOk result (λ boxes. map (map candidate_in) boxes ≡
        map (spec.box_winners (map applied_in rules.now)) (range_with_len 0 margin_box_count)) }
{
    let mut boxes = Items::new(alloc);
    for place in 0..MARGIN_BOXES as u32 {
        boxes.push(winners_for_box(alloc, place, rules)?)?;
    }
    Ok(boxes)
}

/// The winners among what selectors without a name declare for pages that have these pseudo-classes.
fn page_winners<'s>(
    alloc: Global,
    index: &SelectorIndex<'s>,
    classes: PageClasses,
) -> Result<PageWinners<'s>, NoMem>
    requires { IsIndex index.now }
    ensures { IfOk result (λ winners. spec.AreWinners index.now.rules.now classes winners) }
{
    let applied = applied_to(alloc, classes, index.unnamed())?;
    Ok(PageWinners {
        page: winners_for_page(alloc, &applied)?,
        boxes: winners_for_boxes(alloc, &applied)?,
    })
}

pub(crate) const PAGE_1: PageClasses = PageClasses {
    first: true,
    left: false,
    blank: false,
};

pub(crate) const A_LEFT_PAGE: PageClasses = PageClasses {
    first: false,
    left: true,
    blank: false,
};

pub(crate) const A_RIGHT_PAGE: PageClasses = PageClasses {
    first: false,
    left: false,
    blank: false,
};

pub(crate) const BLANK_PAGE_1: PageClasses = PageClasses {
    first: true,
    left: false,
    blank: true,
};

pub(crate) const A_BLANK_LEFT_PAGE: PageClasses = PageClasses {
    first: false,
    left: true,
    blank: true,
};

pub(crate) const A_BLANK_RIGHT_PAGE: PageClasses = PageClasses {
    first: false,
    left: false,
    blank: true,
};

/// The same for each of the six pages. It takes time in proportion to the selectors without a name and to the
/// declarations of their rules.
fn each_winners<'s>(alloc: Global, index: &SelectorIndex<'s>) -> Result<EachWinners<'s>, NoMem>
    requires { IsIndex index.now }
    ensures { IfOk result (λ winners. spec.AreEach index.now.rules.now winners) }
{
    Ok(EachWinners {
        first: page_winners(alloc, index, PAGE_1)?,
        left: page_winners(alloc, index, A_LEFT_PAGE)?,
        right: page_winners(alloc, index, A_RIGHT_PAGE)?,
        blank_first: page_winners(alloc, index, BLANK_PAGE_1)?,
        blank_left: page_winners(alloc, index, A_BLANK_LEFT_PAGE)?,
        blank_right: page_winners(alloc, index, A_BLANK_RIGHT_PAGE)?,
    })
}

/// Rules by the names that their selectors ask for. It takes time in proportion to the selectors, and to the
/// declarations of the rules that have some without a name.
pub(crate) fn group_rules<'s>(
    alloc: Global,
    rules: &'s [PageRule],
    initial: &'s [Name],
) -> Result<GroupedRules<'s>, NoMem>
    requires { initial.now ≡ initial_style.font_family }
    ensures rules { IfOk result (λ grouped. grouped.index.rules.now ≡ rules.entry.now) }
    ensures grouped { IfOk result (λ grouped. spec.AreGrouped grouped) }
{
    let index = index_of(alloc, rules)?;
    let kept = each_winners(alloc, &index)?;
    Ok(GroupedRules {
        index,
        kept,
        initial,
    })
}

/// What is kept for the margin box of a number.
pub(crate) fn kept_at<'a, 's>(
    boxes: &'a [Items<PageCandidate<'s>>],
    place: u32,
) -> &'a [PageCandidate<'s>]
    ensures { map candidate_in result.now ≡ spec.kept_at (map (map candidate_in) boxes.entry.now) place }
{
    let place = place as usize;
    if place >= boxes.len() {
        return &[];
    }
    boxes[place].as_slice()
}
