//! The rules that are for a page, and what they declare for it.

ghost use Rattle.std.specs.Prelude.{◌≡◌, ◌++◌, map, option_map, option_to_list, IfOk, OnOk};
ghost use Rattle.std.specs.List.{flat_map};
ghost use Rattle.page_ctx.specs.Index.{AreOwn, selector_in};
ghost use Rattle.page_ctx.specs.Groups.{all_own};
ghost use Rattle.page_ctx.specs.Winners as spec;

use crate::classes::{PageClasses, takes_classes};
use crate::index::{OwnSelectors, RuleSelector};
use crate::weight::{PageWeight, greater, specificity};
use crate::winner::PageCandidate;
use bk_num::name::NoMem;
use css_page::rules::{BoxDecls, PageRule};
use css_page::values::{PageDecl, PageLong};
use std::alloc::Global;

/// A rule that is for a page, with its number and the greatest specificity of its selectors that take the page.
#[derive(Clone, Copy)]
pub struct AppliedPageRule<'s> {
    pub number: usize,
    pub weight: PageWeight,
    pub rule: &'s PageRule,
}

/// The weight of a rule, if it has this number.
fn weight_at(last: Option<AppliedPageRule<'_>>, number: usize) -> Option<PageWeight>
    ensures { result ≡ spec.weight_at (option_map spec.numbered_in last.entry) number }
{
    match last {
        Some(rule) if rule.number == number => Some(rule.weight),
        _ => None,
    }
}

/// A rule, if it has another number.
fn other_than<'s>(last: Option<AppliedPageRule<'s>>, number: usize) -> Option<AppliedPageRule<'s>>
    ensures { option_map spec.applied_in result ≡ spec.other_than (option_map spec.numbered_in last.entry) number }
{
    match last {
        Some(rule) if rule.number != number => Some(rule),
        _ => None,
    }
}

/// The rule of a selector that takes the page, with the greater of its weights where it is that rule already.
fn rule_with<'s>(
    last: Option<AppliedPageRule<'s>>,
    entry: &RuleSelector<'s>,
) -> Option<AppliedPageRule<'s>>
    ensures { option_map spec.numbered_in result ≡
        spec.rule_with (option_map spec.numbered_in last.entry) (selector_in entry.now) }
{
    let weight = greater(weight_at(last, entry.number), specificity(entry.selector))?;
    Some(AppliedPageRule {
        number: entry.number,
        weight,
        rule: entry.rule,
    })
}

/// Appends a rule, if there is one.
fn push_applied<'s>(
    rules: &mut Vec<AppliedPageRule<'s>>,
    rule: Option<AppliedPageRule<'s>>,
) -> Result<(), NoMem>
    ensures { OnOk result (map spec.applied_in rules.new.items ≡ map spec.applied_in rules.old.items ++
        option_to_list (option_map spec.applied_in rule.entry)) }
{
    if let Some(rule) = rule {
        rules.push(rule)?;
    }
    Ok(())
}

/// The rules that have selectors for pages with these pseudo-classes among those that ask for a name, or for none, in
/// their order. It takes time in proportion to these selectors.
pub fn applied_to<'s>(
    alloc: Global,
    classes: PageClasses,
    own: OwnSelectors<'s, '_>,
) -> Result<Vec<AppliedPageRule<'s>>, NoMem>
    requires { AreOwn own }
    ensures { IfOk result (λ v. map spec.applied_in v.items ≡
        all_own (option_map (λ n. n.now) own.entry.asked) classes own.entry.rules.now) }
{
    let mut found = Vec::new(alloc);
    let mut last = None;
    for entry in own.selectors {
        if takes_classes(entry.selector, classes) {
            push_applied(&mut found, other_than(last, entry.number))?;
            last = rule_with(last, entry);
        }
    }
    push_applied(&mut found, last)?;
    Ok(found)
}

/// Appends the values of a declaration.
fn push_longs<'s>(
    declared: &mut Vec<PageCandidate<'s>>,
    weight: PageWeight,
    longs: &'s [PageLong],
) -> Result<(), NoMem>
    ensures { OnOk result (map spec.candidate_in declared.new.items ≡ map spec.candidate_in declared.old.items ++
        map (spec.declared_by weight) longs.entry.now) }
{
    for long in longs {
        declared.push(PageCandidate { weight, long })?;
    }
    Ok(())
}

/// Appends what declarations give.
fn push_decls<'s>(
    declared: &mut Vec<PageCandidate<'s>>,
    weight: PageWeight,
    decls: &'s [PageDecl],
) -> Result<(), NoMem>
    ensures { OnOk result (map spec.candidate_in declared.new.items ≡ map spec.candidate_in declared.old.items ++
        spec.decls_of weight decls.entry.now) }
{
    for decl in decls {
        push_longs(
            declared,
            weight.of_decl(decl.important),
            decl.longs.as_slice(),
        )?;
    }
    Ok(())
}

/// Appends what rules declare for their pages, in the order of the sheets.
pub fn push_page<'s>(
    declared: &mut Vec<PageCandidate<'s>>,
    rules: &[AppliedPageRule<'s>],
) -> Result<(), NoMem>
    ensures { OnOk result (map spec.candidate_in declared.new.items ≡ map spec.candidate_in declared.old.items ++
        spec.page_declared (map spec.applied_in rules.now)) }
{
    for applied in rules {
        push_decls(declared, applied.weight, applied.rule.decls.as_slice())?;
    }
    Ok(())
}

/// Appends what one block of a rule declares for the margin box of a number.
fn push_block<'s>(
    declared: &mut Vec<PageCandidate<'s>>,
    weight: PageWeight,
    place: u32,
    block: &'s BoxDecls,
) -> Result<(), NoMem>
    ensures { OnOk result (map spec.candidate_in declared.new.items ≡ map spec.candidate_in declared.old.items ++
        spec.block_declared weight place block.entry.now) }
{
    if u32::from(block.0) == place {
        push_decls(declared, weight, block.1.as_slice())?;
    }
    Ok(())
}

/// Appends what a rule declares for the margin box of a number.
fn push_blocks<'s>(
    declared: &mut Vec<PageCandidate<'s>>,
    weight: PageWeight,
    place: u32,
    blocks: &'s [BoxDecls],
) -> Result<(), NoMem>
    ensures { OnOk result (map spec.candidate_in declared.new.items ≡ map spec.candidate_in declared.old.items ++
        flat_map (spec.block_declared weight place) blocks.entry.now) }
{
    for block in blocks {
        push_block(declared, weight, place, block)?;
    }
    Ok(())
}

/// Appends what rules declare for the margin box of a number, in the order of the sheets.
pub fn push_box<'s>(
    declared: &mut Vec<PageCandidate<'s>>,
    place: u32,
    rules: &[AppliedPageRule<'s>],
) -> Result<(), NoMem>
    ensures { OnOk result (map spec.candidate_in declared.new.items ≡ map spec.candidate_in declared.old.items ++
        spec.box_declared place (map spec.applied_in rules.now)) }
{
    for applied in rules {
        push_blocks(
            declared,
            applied.weight,
            place,
            applied.rule.boxes.as_slice(),
        )?;
    }
    Ok(())
}

/// Appends declarations.
fn push_all<'s>(
    declared: &mut Vec<PageCandidate<'s>>,
    kept: &[PageCandidate<'s>],
) -> Result<(), NoMem>
    ensures { OnOk result (declared.new.items ≡ declared.old.items ++ kept.now) }
{
    for candidate in kept {
        declared.push(*candidate)?;
    }
    Ok(())
}

/// What is kept for a page, and what rules declare for it, in the order of the sheets.
pub fn page_declared<'s>(
    alloc: Global,
    kept: &[PageCandidate<'s>],
    rules: &[AppliedPageRule<'s>],
) -> Result<Vec<PageCandidate<'s>>, NoMem>
    ensures { IfOk result (λ v. map spec.candidate_in v.items ≡
        map spec.candidate_in kept.now ++ spec.page_declared (map spec.applied_in rules.now)) }
{
    let mut declared = Vec::new(alloc);
    push_all(&mut declared, kept)?;
    push_page(&mut declared, rules)?;
    Ok(declared)
}

/// What is kept for the margin box of a number, and what rules declare for it, in the order of the sheets.
pub fn box_declared<'s>(
    alloc: Global,
    kept: &[PageCandidate<'s>],
    place: u32,
    rules: &[AppliedPageRule<'s>],
) -> Result<Vec<PageCandidate<'s>>, NoMem>
    ensures { IfOk result (λ v. map spec.candidate_in v.items ≡
        map spec.candidate_in kept.now ++ spec.box_declared place (map spec.applied_in rules.now)) }
{
    let mut declared = Vec::new(alloc);
    push_all(&mut declared, kept)?;
    push_box(&mut declared, place, rules)?;
    Ok(declared)
}
