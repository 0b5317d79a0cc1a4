//! How the lines of a leaf are found.

ghost use Rattle.std.specs.Prelude.{◌≡◌, ℕ, None, length, IfSome, true, false};
ghost use Rattle.line_fill.specs.Keys.{key_in, key_of, print_of};
ghost use Rattle.line_fill.specs.Kept.{IsLeafAt};
ghost use Rattle.line_fill.specs.KeptSearch.{AreChained, ArePrinted, IsLast};

use crate::kept::KeptLeaf;
use crate::key::is_same;
use boxes::leaf::Leaf;

/// Whether kept lines are those of a leaf at a measure.
fn is_of(kept: &KeptLeaf, leaf: &Leaf, measure: i64) -> bool
    ensures hit { result ≡ true → (key_in kept.now ≡ key_of leaf.now) × (kept.now.measure ≡ measure) }
    ensures miss { result ≡ false → key_in kept.now ≡ key_of leaf.now → kept.now.measure ≡ measure → ⊥ }
{
    kept.measure == measure && is_same(kept.leaf.as_ref(), leaf)
}

/// The place of the lines of a leaf at a measure, if they are kept: they are sought among those that have the same
/// print, from the last on.
pub(crate) fn find(
    leaves: &[KeptLeaf],
    last: Option<u32>,
    leaf: &Leaf,
    print: u64,
    measure: i64,
) -> Option<u32>
    requires chained { AreChained leaves.now }
    requires printed { ArePrinted leaves.now }
    requires print { print ≡ print_of (key_of leaf.now) measure }
    requires last { IsLast leaves.now (length leaves.now) print last }
    ensures some { IfSome result (λ at. IsLeafAt leaves.now at (key_of leaf.now) measure) }
    ensures none { result ≡ None → (j : ℕ) → IsLeafAt leaves.now j (key_of leaf.now) measure → ⊥ }
{
    let mut end = leaves.len();
    let mut next = last;
    while let Some(at) = next {
        let kept = &leaves[at as usize];
        if is_of(kept, leaf, measure) {
            return Some(at);
        }
        end = at as usize;
        next = kept.before;
    }
    None
}
