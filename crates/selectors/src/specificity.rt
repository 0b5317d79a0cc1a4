//! How specific a selector is.

ghost use Rattle.std.specs.Prelude.{◌≡◌, ◌<◌, ◌+◌, count_by};
ghost use Rattle.selectors.specs.Specificity as spec;

use crate::types::{Compound, Plain, Selector, Test};
use bk_num::values::Pseudo;

/// What is counted.
#[derive(Clone, Copy, Debug)]
pub enum Count {
    Ids,
    /// Classes, attributes and pseudo-classes.
    Others,
    Types,
}

fn is_id(test: &Test) -> bool
    ensures { result ≡ spec.is_id test.now }
{
    matches!(test, Test::Id(_))
}

fn held(count: usize) -> u32
    ensures { result ≡ spec.held count }
{
    if count < 4_294_967_295 {
        count as u32
    } else {
        4_294_967_295
    }
}

fn plus(a: u32, b: u32) -> u32
    ensures { result ≡ spec.held (a + b) }
{
    let sum = a as u64 + b as u64;
    if sum < 4_294_967_295 {
        sum as u32
    } else {
        4_294_967_295
    }
}

fn ids(tests: &[Test]) -> usize
    ensures { result ≡ count_by spec.is_id tests.now }
{
    tests.iter().filter(|test| is_id(test)).count()
}

fn others(tests: &[Test]) -> usize
    ensures { result ≡ count_by spec.is_other tests.now }
{
    tests.iter().filter(|test| !is_id(test)).count()
}

fn in_plain(count: Count, plain: &Plain) -> u32
    ensures { result ≡ spec.held (spec.in_plain count plain.now) }
{
    match count {
        Count::Ids => held(ids(plain.tests.as_slice())),
        Count::Others => held(others(plain.tests.as_slice())),
        Count::Types => held(usize::from(plain.name.is_some())),
    }
}

fn in_plains(count: Count, plains: &[Plain]) -> u32
    ensures { result ≡ spec.held (spec.in_plains count plains.now) }
{
    let mut total = 0u32;
    let mut left = plains;
    while let [plain, rest @ ..] = left {
        total = plus(total, in_plain(count, plain));
        left = rest;
    }
    total
}

fn in_compound(count: Count, compound: &Compound) -> u32
    ensures { result ≡ spec.held (spec.in_compound count compound.now) }
{
    plus(
        in_plain(count, &compound.plain),
        in_plains(count, compound.nots.as_slice()),
    )
}

fn in_parts(count: Count, parts: &[Compound]) -> u32
    ensures { result ≡ spec.held (spec.in_parts count parts.now) }
{
    let mut total = 0u32;
    let mut left = parts;
    while let [compound, rest @ ..] = left {
        total = plus(total, in_compound(count, compound));
        left = rest;
    }
    total
}

/// Whether a pseudo-element is named, and not the element itself.
pub(crate) fn is_pseudo(pseudo: Pseudo) -> bool
    ensures { result ≡ spec.is_pseudo pseudo }
{
    !matches!(pseudo, Pseudo::Element)
}

/// How specific a selector is (Selectors 3, 9): its ids; its classes, attributes and pseudo-classes; its
/// types and its pseudo-element. `:not` counts its argument alone, and `*` counts nothing. A count above
/// 4,294,967,295 is given as that. It takes no memory.
pub fn specificity(s: &Selector) -> (u32, u32, u32)
    ensures { result ≡ spec.specificity_of s.now }
{
    let ids = in_parts(Count::Ids, s.parts());
    let others = in_parts(Count::Others, s.parts());
    let types = plus(
        in_parts(Count::Types, s.parts()),
        u32::from(is_pseudo(s.pseudo)),
    );
    (ids, others, types)
}
