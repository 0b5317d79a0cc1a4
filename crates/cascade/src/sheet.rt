//! Sheets whose selectors and values are read.

ghost use Rattle.std.specs.Prelude.{◌≡◌, map, IfOk};
ghost use Rattle.std.specs.List.{filter_map};
ghost use Rattle.css_rules.specs.Decls.{decl_in};
ghost use Rattle.css_rules.specs.Sheet.{rule_in, rules_in};
ghost use Rattle.cascade.specs.Sheets as spec;

use crate::decl::ReadDecl;
use bk_num::items::Items;
use bk_num::name::NoMem;
use css_rules::decls::DeclSlice;
use css_rules::sheet::{Rule, Sheet};
use css_values::decls::read_decl;
use selectors::grammar::read_selectors;
use selectors::types::SelectorList;
use std::alloc::Global;

/// Whose sheet it is (CSS 2.1, 6.4): the program's own, or the author's.
#[derive(Clone, Copy, Debug, PartialEq, Eq)]
pub enum Origin {
    Default,
    Author,
}

/// A ruleset whose selectors and values are read.
#[derive(Drop)]
pub struct ReadRule {
    pub selectors: SelectorList,
    pub decls: Items<ReadDecl>,
}

/// A sheet whose selectors and values are read.
#[derive(Drop)]
pub struct ReadSheet {
    pub origin: Origin,
    pub rules: Items<ReadRule>,
}

fn read_one(alloc: Global, slice: &DeclSlice<'_>) -> Result<Option<ReadDecl>, NoMem>
    ensures { IfOk result (λ decl. decl ≡ spec.read_of (decl_in slice.now)) }
{
    match read_decl(alloc, slice.name, slice.value)? {
        Some(decl) => Ok(Some(ReadDecl {
            longs: decl.longs,
            important: slice.important,
        })),
        None => Ok(None),
    }
}

/// Reads declarations, without those that have no reading.
pub(crate) fn read_all(alloc: Global, slices: &[DeclSlice<'_>]) -> Result<Items<ReadDecl>, NoMem>
    ensures { IfOk result (λ decls. decls ≡ filter_map spec.read_of (map decl_in slices.now)) }
{
    let mut decls = Items::new(alloc);
    for slice in slices {
        if let Some(decl) = read_one(alloc, slice)? {
            decls.push(decl)?;
        }
    }
    Ok(decls)
}

fn read_rule(alloc: Global, rule: &Rule<'_>) -> Result<Option<ReadRule>, NoMem>
    ensures { IfOk result (λ read. read ≡ spec.rule_of (rule_in rule.now)) }
{
    match read_selectors(alloc, rule.selectors)? {
        Some(selectors) => Ok(Some(ReadRule {
            selectors,
            decls: read_all(alloc, &rule.decls)?,
        })),
        None => Ok(None),
    }
}

/// Reads rulesets, without those whose selectors have no reading.
fn read_list(alloc: Global, rules: &[Rule<'_>]) -> Result<Items<ReadRule>, NoMem>
    ensures { IfOk result (λ read. read ≡ filter_map spec.rule_of (map rule_in rules.now)) }
{
    let mut all = Items::new(alloc);
    for rule in rules {
        if let Some(read) = read_rule(alloc, rule)? {
            all.push(read)?;
        }
    }
    Ok(all)
}

/// Reads selectors and values of a sheet's rulesets. A ruleset whose selectors have no reading is left out, and so is
/// each declaration that has none. It takes time in proportion to the sheet's text.
pub fn read_rules(alloc: Global, sheet: &Sheet<'_>, origin: Origin) -> Result<ReadSheet, NoMem>
    ensures { IfOk result (λ read. read ≡ spec.sheet_of origin (rules_in sheet.now)) }
{
    let rules = read_list(alloc, &sheet.rules)?;
    Ok(ReadSheet { origin, rules })
}
