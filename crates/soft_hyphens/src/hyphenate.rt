//! Texts with soft hyphens at the points of their words.

ghost use Rattle.std.specs.Prelude.{◌≡◌, List, ℕ, length, Some, IfOk};
ghost use Rattle.hyphen.specs.Meaning.{value_in};
ghost use Rattle.inline_text.specs.Joined.{laid_texts};
ghost use Rattle.soft_hyphens.specs.Hyphenated.{hyphenated};
ghost use Rattle.soft_hyphens.specs.Words.{points_with};

use crate::hyphenator::Hyphenator;
use crate::texts::put_texts;
use crate::walk::offsets_of;
use bk_num::name::NoMem;
use inline_text::joined::JoinedText;
use std::alloc::Global;

/// Texts that stand one after the other, with a soft hyphen at each point of each of their words. `autos` says of each
/// text whether it is hyphenated.
pub fn hyphenate(
    alloc: Global,
    texts: JoinedText,
    autos: &[bool],
    hyphenator: &Hyphenator<'_>,
) -> Result<JoinedText, NoMem>
    requires { length texts.ends ≡ length autos.now }
    ensures { (ts : List (List ℕ)) → texts ≡ laid_texts ts →
        IfOk result (λ made. made ≡
        laid_texts (hyphenated (Some (points_with (value_in hyphenator.now))) autos.now ts)) }
{
    let offsets = offsets_of(alloc, texts.text(), texts.ends(), autos, hyphenator)?;
    put_texts(alloc, texts.text(), texts.ends(), &offsets)
}
