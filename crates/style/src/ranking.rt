//! How declarations of one property are ranked.

ghost use Rattle.std.specs.Prelude.{◌≡◌};
ghost use Rattle.style.specs.Ranking as spec;

/// Whether a declaration with these ranks wins over one with the others, as many: the first rank in which they differ
/// decides, and the greater one wins (CSS 2.1, 6.4.1).
pub fn outranks(ranks: &[u64], others: &[u64]) -> bool
    ensures { result ≡ spec.outranks ranks.now others.now }
{
    ranks.cmp(others).is_gt()
}
