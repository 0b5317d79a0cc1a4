//! The words of a run are hyphenated (CSS Text 3, 5.4).

ghost use Rattle.std.specs.Prelude.{◌≡◌, ◌++◌, ◌∷◌, [], List, ℕ, Some, length, option_map, IfOk, OnOk};
ghost use Rattle.std.specs.List.{list_any};
ghost use Rattle.box_gen.specs.Runs.{autos_by, styles_in};
ghost use Rattle.hyphen.specs.Meaning.{value_in};
ghost use Rattle.inline_text.specs.Joined.{laid_texts};
ghost use Rattle.soft_hyphens.specs.Hyphenated as spec;
ghost use Rattle.soft_hyphens.specs.Words.{points_in, points_with};

use crate::inline::ItemMark;
use bk_num::name::NoMem;
use inline_text::joined::JoinedText;
use soft_hyphens::hyphenate::hyphenate;
use soft_hyphens::hyphenator::Hyphenator;
use std::alloc::Global;

/// Adds whether a text is hyphenated.
fn push_auto(autos: &mut Vec<bool>, mark: &ItemMark) -> Result<(), NoMem>
    ensures { OnOk result (autos.new.items ≡ autos.old.items ++ autos_by (styles_in (mark.now ∷ []))) }
{
    if let ItemMark::Text(style) = mark {
        autos.push(style.hyphens)?;
    }
    Ok(())
}

/// Which texts of a run are hyphenated.
fn autos_of(alloc: Global, marks: &[ItemMark]) -> Result<Vec<bool>, NoMem>
    ensures { IfOk result (λ autos. autos.items ≡ autos_by (styles_in marks.now)) }
{
    let mut autos = Vec::new(alloc);
    for mark in marks {
        push_auto(&mut autos, mark)?;
    }
    Ok(autos)
}

/// Whether one of some texts is hyphenated.
fn any_auto(autos: &[bool]) -> bool
    ensures { result ≡ list_any (λ auto. auto) autos.now }
{
    autos.iter().any(|auto| *auto)
}

/// The texts of a run, hyphenated by patterns. Where none of them is, no character is passed.
fn hyphenated_by(
    alloc: Global,
    marks: &[ItemMark],
    texts: JoinedText,
    hyphenator: &Hyphenator<'_>,
) -> Result<JoinedText, NoMem>
    requires { length texts.ends ≡ length (styles_in marks.now) }
    ensures { (ts : List (List ℕ)) → texts ≡ laid_texts ts → IfOk result (λ made. made ≡
        laid_texts (spec.hyphenated (Some (points_with (value_in hyphenator.now)))
        (autos_by (styles_in marks.now)) ts)) }
{
    let autos = autos_of(alloc, marks)?;
    if !any_auto(&autos) {
        return Ok(texts);
    }
    hyphenate(alloc, texts, &autos, hyphenator)
}

/// The texts of a run, hyphenated where patterns are given.
pub(crate) fn hyphenated(
    alloc: Global,
    marks: &[ItemMark],
    texts: JoinedText,
    hyphenator: Option<&Hyphenator<'_>>,
) -> Result<JoinedText, NoMem>
    requires { length texts.ends ≡ length (styles_in marks.now) }
    ensures { (ts : List (List ℕ)) → texts ≡ laid_texts ts → IfOk result (λ made. made ≡ laid_texts
        (spec.hyphenated (points_in (option_map (λ h. h.now) hyphenator.entry)) (autos_by (styles_in marks.now)) ts)) }
{
    match hyphenator {
        None => Ok(texts),
        Some(hyphenator) => hyphenated_by(alloc, marks, texts, hyphenator),
    }
}
