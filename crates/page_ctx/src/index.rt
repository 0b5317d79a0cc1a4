//! The selectors of page rules, by the names that they ask for.

ghost use Rattle.std.specs.Prelude.{◌≡◌, ◌++◌, ◌∷◌, [], None, Some, map, option_map, IfOk, OnOk};
ghost use Rattle.named_lists.specs.Lists.{with_items};
ghost use Rattle.page_ctx.specs.Index as spec;

use bk_num::items::Items;
use bk_num::name::NoMem;
use css_page::rules::PageRule;
use css_page::selectors::PageSelector;
use named_lists::lists::NamedLists;
use std::alloc::Global;

/// A selector with its rule and the rule's number.
#[derive(Clone, Copy)]
pub struct RuleSelector<'s> {
    pub number: usize,
    pub rule: &'s PageRule,
    pub selector: &'s PageSelector,
}

/// The selectors of rules: for each name those that ask for it, and those that ask for none.
#[derive(Drop)]
pub struct SelectorIndex<'s> {
    pub rules: &'s [PageRule],
    pub named: NamedLists<RuleSelector<'s>>,
    pub every: Items<RuleSelector<'s>>,
}

/// The selectors of rules that ask for a name, or, without one, for none, in the order of the sheets.
#[derive(Clone, Copy)]
pub struct OwnSelectors<'s, 'n> {
    pub rules: &'s [PageRule],
    pub asked: Option<&'n str>,
    pub selectors: &'n [RuleSelector<'s>],
}

/// Appends the selectors of a rule.
fn push_selectors<'s>(
    all: &mut Vec<RuleSelector<'s>>,
    number: usize,
    rule: &'s PageRule,
) -> Result<(), NoMem>
    ensures { OnOk result (map spec.selector_in all.new.items ≡ map spec.selector_in all.old.items ++
        map (spec.of_rule number rule.entry.now) rule.entry.now.selectors) }
{
    for selector in rule.selectors.as_slice() {
        all.push(RuleSelector {
            number,
            rule,
            selector,
        })?;
    }
    Ok(())
}

/// The selectors of all rules, in order.
fn all_selectors<'s>(alloc: Global, rules: &'s [PageRule]) -> Result<Vec<RuleSelector<'s>>, NoMem>
    ensures { IfOk result (λ v. map spec.selector_in v.items ≡ spec.selectors_from 0 rules.entry.now) }
{
    let mut all = Vec::new(alloc);
    for (number, rule) in rules.iter().enumerate() {
        push_selectors(&mut all, number, rule)?;
    }
    Ok(all)
}

/// Puts a selector under the name that it asks for.
fn put<'s>(
    alloc: Global,
    index: &mut SelectorIndex<'s>,
    entry: &RuleSelector<'s>,
) -> Result<(), NoMem>
    ensures rules { index.new.rules ≡ index.old.rules }
    ensures named { OnOk result (index.new.named ≡
        with_items index.old.named (spec.under entry.now entry.now.selector.now.name)) }
    ensures every { OnOk result (index.new.every ≡ index.old.every ++ spec.unnamed (entry.now ∷ [])) }
{
    match &entry.selector.name {
        Some(name) => index.named.push(alloc, name.as_str(), *entry),
        None => index.every.push(*entry),
    }
}

/// Puts selectors under the names that they ask for.
fn put_all<'s>(
    alloc: Global,
    index: &mut SelectorIndex<'s>,
    all: &[RuleSelector<'s>],
) -> Result<(), NoMem>
    ensures rules { index.new.rules ≡ index.old.rules }
    ensures named { OnOk result (index.new.named ≡ with_items index.old.named (spec.by_names all.now)) }
    ensures every { OnOk result (index.new.every ≡ index.old.every ++ spec.unnamed all.now) }
{
    for entry in all {
        put(alloc, index, entry)?;
    }
    Ok(())
}

/// The index of the selectors of rules. It takes time in proportion to them.
pub(crate) fn index_of<'s>(alloc: Global, rules: &'s [PageRule]) -> Result<SelectorIndex<'s>, NoMem>
    ensures rules { IfOk result (λ index. index.rules.now ≡ rules.entry.now) }
    ensures index { IfOk result (λ index. spec.IsIndex index) }
{
    let all = all_selectors(alloc, rules)?;
    let mut index = SelectorIndex {
        rules,
        named: NamedLists::new(alloc),
        every: Items::new(alloc),
    };
    put_all(alloc, &mut index, &all)?;
    Ok(index)
}

impl<'s> SelectorIndex<'s> {
    /// The selectors that ask for a name. It takes no memory.
    pub(crate) fn named<'n>(&'n self, name: &'n str) -> OwnSelectors<'s, 'n>
        requires { spec.IsIndex self.now }
        ensures rules { result.rules.now ≡ self.now.rules.now }
        ensures asked { option_map (λ n. n.now) result.asked ≡ Some name.now }
        ensures own { spec.AreOwn result }
    {
        OwnSelectors {
            rules: self.rules,
            asked: Some(name),
            selectors: self.named.of(name),
        }
    }

    /// Those that ask for none. It takes no memory.
    pub(crate) fn unnamed(&self) -> OwnSelectors<'s, '_>
        requires { spec.IsIndex self.now }
        ensures rules { result.rules.now ≡ self.now.rules.now }
        ensures asked { option_map (λ n. n.now) result.asked ≡ None }
        ensures own { spec.AreOwn result }
    {
        OwnSelectors {
            rules: self.rules,
            asked: None,
            selectors: self.every.as_slice(),
        }
    }
}
