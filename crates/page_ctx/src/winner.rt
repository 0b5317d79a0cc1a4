//! Chooses the winning declaration of a property.

ghost use Rattle.std.specs.Prelude.{◌≡◌, map, option_map};
ghost use Rattle.page_ctx.specs.Winners as spec;

use crate::property::{PageProperty, is_of};
use crate::weight::PageWeight;
use css_page::values::PageLong;

/// A declared value, with what decides.
#[derive(Clone, Copy)]
pub struct PageCandidate<'s> {
    pub weight: PageWeight,
    pub long: &'s PageLong,
}

/// The greater of two declarations; of equal ones the later.
fn winning<'s>(
    best: Option<PageCandidate<'s>>,
    candidate: &PageCandidate<'s>,
) -> Option<PageCandidate<'s>>
    ensures { option_map spec.candidate_in result ≡
        spec.winning (option_map spec.candidate_in best.entry) (spec.candidate_in candidate.now) }
{
    match best {
        None => Some(*candidate),
        Some(old) => {
            if old.weight.is_above(&candidate.weight) {
                Some(old)
            } else {
                Some(*candidate)
            }
        }
    }
}

/// The best so far with one more declaration, if it is of the property.
fn with_declared<'s>(
    property: PageProperty,
    best: Option<PageCandidate<'s>>,
    candidate: &PageCandidate<'s>,
) -> Option<PageCandidate<'s>>
    ensures { option_map spec.candidate_in result ≡
        spec.with_declared property (option_map spec.candidate_in best.entry) (spec.candidate_in candidate.now) }
{
    if is_of(property, candidate.long) {
        winning(best, candidate)
    } else {
        best
    }
}

/// The winning declaration of a property.
pub(crate) fn winner<'s>(
    property: PageProperty,
    declared: &[PageCandidate<'s>],
) -> Option<PageCandidate<'s>>
    ensures { option_map spec.candidate_in result ≡ spec.winner property (map spec.candidate_in declared.now) }
{
    let mut best = None;
    for candidate in declared {
        best = with_declared(property, best, candidate);
    }
    best
}

/// What wins of a property among declarations: the greatest by importance and specificity, and of equal ones the last.
pub fn value_of<'s>(property: PageProperty, declared: &[PageCandidate<'s>]) -> Option<&'s PageLong>
    ensures { option_map (λ l. l.now) result ≡ spec.value_of property (map spec.candidate_in declared.now) }
{
    match winner(property, declared) {
        Some(candidate) => Some(candidate.long),
        None => None,
    }
}
