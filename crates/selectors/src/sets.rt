//! Sets of numbers below 16.

ghost use Rattle.std.specs.Prelude.{◌≡◌, ◌≢◌, ◌<◌, ◌||◌, ℕ, true};
ghost use Rattle.selectors.specs.Sets as spec;

#[tactic(auto, unfolding(crate::specs::Sets::has))]
pub fn has(set: u16, k: usize) -> bool
    requires { k < 16 }
    ensures { result ≡ spec.has set k }
{
    (set >> k) & 1 == 1
}

pub fn with(set: u16, k: usize) -> u16
    requires { k < 16 }
    ensures same { spec.has result k ≡ true }
    ensures other { (j : ℕ) → j ≢ k → spec.has result j ≡ spec.has set j }
{
    set | (1 << k)
}

#[tactic(auto, using(crate::proofs::SetLemmas::has_union))]
pub fn union(a: u16, b: u16) -> u16
    ensures { (k : ℕ) → spec.has result k ≡ (spec.has a k || spec.has b k) }
{
    a | b
}
