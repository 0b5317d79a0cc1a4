//! The names that the selectors of page rules ask for (css-page-3, 3).

ghost use Rattle.std.specs.Prelude.{◌≡◌, [], fold, map, IfOk, OnOk};
ghost use Rattle.std.specs.String.{string_bytes};
ghost use Rattle.bk_num.specs.Names.{with_name};
ghost use Rattle.page_ctx.specs.Selectors.{all_asked, asked_by, asked_in};

use bk_num::name::NoMem;
use css_page::rules::PageRule;
use css_page::selectors::PageSelector;
use indexmap::IndexSet;
use std::alloc::Global;

/// Adds a name, unless it is there.
pub(crate) fn push_name(
    alloc: Global,
    asked: &mut IndexSet<String>,
    name: &str,
) -> Result<(), NoMem>
    ensures { OnOk result (map (λ k. string_bytes k) asked.new.keys ≡
        with_name (map (λ k. string_bytes k) asked.old.keys) name.now) }
{
    let text = String::from_str(alloc, name)?;
    match asked.insert_full(text) {
        Ok(_) => Ok(()),
        Err(_) => Err(NoMem),
    }
}

/// Adds the name that a selector asks for, if it asks for one.
fn push_selector(
    alloc: Global,
    asked: &mut IndexSet<String>,
    selector: &PageSelector,
) -> Result<(), NoMem>
    ensures { OnOk result (map (λ k. string_bytes k) asked.new.keys ≡
        fold with_name (map (λ k. string_bytes k) asked.old.keys) (asked_by selector.now)) }
{
    match &selector.name {
        Some(name) => push_name(alloc, asked, name.as_str()),
        None => Ok(()),
    }
}

/// Adds the names that selectors ask for.
fn push_selectors(
    alloc: Global,
    asked: &mut IndexSet<String>,
    selectors: &[PageSelector],
) -> Result<(), NoMem>
    ensures { OnOk result (map (λ k. string_bytes k) asked.new.keys ≡
        fold with_name (map (λ k. string_bytes k) asked.old.keys) (asked_in selectors.now)) }
{
    for selector in selectors {
        push_selector(alloc, asked, selector)?;
    }
    Ok(())
}

/// The names that the selectors of rules ask for, each once.
pub(crate) fn asked_names(alloc: Global, rules: &[PageRule]) -> Result<IndexSet<String>, NoMem>
    ensures { IfOk result (λ asked. map (λ k. string_bytes k) asked.keys ≡ fold with_name [] (all_asked rules.now)) }
{
    let mut asked = IndexSet::new(alloc);
    for rule in rules {
        push_selectors(alloc, &mut asked, rule.selectors.as_slice())?;
    }
    Ok(asked)
}
