//! The rules of sheets by their selectors.

ghost use Rattle.std.specs.Prelude.{◌≡◌, ◌++◌, map, option_map, option_to_list, IfOk, OnOk};
ghost use Rattle.std.specs.List.{filter_map};
ghost use Rattle.cascade.specs.Candidates.{applied_in, DeclaredBy};
ghost use Rattle.cascade.specs.Document.{rules_of, from_origin, weight_of, is_author};
ghost use Rattle.cascade.specs.Winners.{AreWinners};
ghost use Rattle.cascade.specs.Selected as spec;

use crate::choice::{AppliedDecls, choose};
use crate::decl::ReadDecl;
use crate::sheet::{Origin, ReadRule, ReadSheet};
use crate::weight::DeclWeight;
use bk_num::items::Items;
use bk_num::name::NoMem;
use bk_num::values::Pseudo;
use selectors::specificity::specificity;
use selectors::types::{Selector, pseudo};
use std::alloc::Global;
use style::long::Long;

/// A rule, and whose sheet it stands in.
#[derive(Clone, Copy)]
pub(crate) struct Ruled<'s> {
    origin: Origin,
    rule: &'s ReadRule,
}

/// A selector of a rule, and the rule's declarations with their weight by this selector.
#[derive(Clone, Copy)]
pub(crate) struct Selected<'s> {
    pub(crate) selector: &'s Selector,
    rule: AppliedDecls<'s>,
}

/// Appends the rules of a sheet.
fn push_rules<'s>(
    all: &mut Vec<Ruled<'s>>,
    origin: Origin,
    rules: &'s [ReadRule],
) -> Result<(), NoMem>
    ensures { OnOk result (map spec.ruled_in all.new.items ≡
        map spec.ruled_in all.old.items ++ map (from_origin origin) rules.now) }
{
    for rule in rules {
        all.push(Ruled { origin, rule })?;
    }
    Ok(())
}

/// The rules of all sheets.
pub(crate) fn rules_of<'s>(alloc: Global, sheets: &'s [ReadSheet]) -> Result<Vec<Ruled<'s>>, NoMem>
    ensures { IfOk result (λ v. map spec.ruled_in v.items ≡ rules_of sheets.entry.now) }
{
    let mut rules = Vec::new(alloc);
    for sheet in sheets {
        push_rules(&mut rules, sheet.origin, sheet.rules.as_slice())?;
    }
    Ok(rules)
}

fn is_author(origin: Origin) -> bool
    ensures { result ≡ is_author origin }
{
    matches!(origin, Origin::Author)
}

/// What the declarations of the rule at a place weigh by a selector.
fn weight_of(origin: Origin, place: u64, selector: &Selector) -> DeclWeight
    ensures { result ≡ weight_of origin place selector.now }
{
    let (ids, classes, types) = specificity(selector);
    DeclWeight {
        important: false,
        author: is_author(origin),
        styled: false,
        ids,
        classes,
        types,
        rule: place,
        decl: 0,
        place: 0,
    }
}

/// Appends the selectors of the rule at a place.
fn push_selected<'s>(
    all: &mut Vec<Selected<'s>>,
    place: u64,
    origin: Origin,
    decls: &'s [ReadDecl],
    selectors: &'s [Selector],
) -> Result<(), NoMem>
    ensures { OnOk result (map spec.selected_in all.new.items ≡ map spec.selected_in all.old.items ++
        map (spec.selected_by place origin decls.now) selectors.now) }
{
    for selector in selectors {
        let weight = weight_of(origin, place, selector);
        let rule = AppliedDecls { weight, decls };
        all.push(Selected { selector, rule })?;
    }
    Ok(())
}

/// The selectors of a rule that declares something. A rule that declares nothing makes nothing apply.
fn offered(rule: &ReadRule) -> &[Selector]
    ensures { result.now ≡ spec.offered rule.now }
{
    if rule.decls.as_slice().is_empty() {
        return &[];
    }
    rule.selectors.items.as_slice()
}

/// The selectors of the rules that declare something.
fn selected_of<'s>(alloc: Global, rules: &[Ruled<'s>]) -> Result<Vec<Selected<'s>>, NoMem>
    ensures { IfOk result (λ v. map spec.selected_in v.items ≡ spec.selected_from 0 (map spec.ruled_in rules.now)) }
{
    let mut selected = Vec::new(alloc);
    for place in 0..rules.len() {
        let Ruled { origin, rule } = rules[place];
        push_selected(
            &mut selected,
            place as u64,
            origin,
            rule.decls.as_slice(),
            offered(rule),
        )?;
    }
    Ok(selected)
}

fn is_same(mine: Pseudo, other: Pseudo) -> bool
    ensures { result ≡ spec.is_same mine other }
{
    match (mine, other) {
        (Pseudo::Element, Pseudo::Element) => true,
        (Pseudo::Before, Pseudo::Before) => true,
        (Pseudo::After, Pseudo::After) => true,
        (Pseudo::Call, Pseudo::Call) => true,
        (Pseudo::Marker, Pseudo::Marker) => true,
        _ => false,
    }
}

/// Appends what a selector makes apply, if it has the pseudo-element.
fn push_named<'s: 't, 't>(
    rules: &mut Vec<AppliedDecls<'t>>,
    selected: Option<&Selected<'s>>,
    wanted: Pseudo,
) -> Result<(), NoMem>
    ensures { OnOk result (map applied_in rules.new.items ≡ map applied_in rules.old.items ++
        option_to_list (spec.named wanted (option_map (λ s. spec.selected_in s.now) selected.entry))) }
{
    if let Some(selected) = selected {
        if is_same(pseudo(selected.selector), wanted) {
            rules.push(AppliedDecls {
                weight: selected.rule.weight,
                decls: selected.rule.decls,
            })?;
        }
    }
    Ok(())
}

/// What the selectors at some places make apply to a pseudo-element.
fn named<'s: 't, 't>(
    alloc: Global,
    selected: &[Selected<'s>],
    places: &[u32],
    wanted: Pseudo,
) -> Result<Vec<AppliedDecls<'t>>, NoMem>
    ensures { IfOk result (λ v. map applied_in v.items ≡
        filter_map (spec.named_at (map spec.selected_in selected.now) wanted) places.now) }
{
    let mut rules = Vec::new(alloc);
    for place in places {
        push_named(&mut rules, selected.get(*place as usize), wanted)?;
    }
    Ok(rules)
}

/// The selectors of the rules of all sheets that declare something.
pub(crate) fn selected_in<'s>(
    alloc: Global,
    sheets: &'s [ReadSheet],
) -> Result<Vec<Selected<'s>>, NoMem>
    ensures { IfOk result (λ v. map spec.selected_in v.items ≡ spec.selected_from 0 (rules_of sheets.entry.now)) }
{
    let rules = rules_of(alloc, sheets)?;
    selected_of(alloc, &rules)
}

/// What wins for a pseudo-element of a node, or for the node, that the selectors at some places match and whose
/// style attribute has these declarations.
pub(crate) fn winners_by<'s: 't, 't>(
    alloc: Global,
    selected: &[Selected<'s>],
    places: &[u32],
    styled: &'t [ReadDecl],
    wanted: Pseudo,
) -> Result<Items<Long>, NoMem>
    ensures { IfOk result
        (λ longs. AreWinners (DeclaredBy (spec.rules_at (map spec.selected_in selected.now) places.now styled.now
        wanted)) longs) }
{
    let mut rules = named(alloc, selected, places, wanted)?;
    if is_same(wanted, Pseudo::Element) {
        rules.push(AppliedDecls {
            weight: DeclWeight::of_style(),
            decls: styled,
        })?;
    }
    if rules.is_empty() {
        return Ok(Items::new(alloc));
    }
    choose(alloc, &rules)
}
