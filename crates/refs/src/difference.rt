//! Where two tables differ.

ghost use Rattle.std.specs.Prelude.{◌≡◌, ◌<◌, length, IfSome, MatchOption};
ghost use Rattle.refs.specs.Differences.{IsFirstDifference};

use gen_text::table::{Entry, Table};

/// The first place at which two lists of entries differ.
fn difference_in(a: &[Entry], b: &[Entry]) -> Option<usize>
    ensures place { MatchOption result (a.now ≡ b.now) (λ k. IsFirstDifference a.now b.now k) }
    ensures within { length a.now ≡ length b.now → IfSome result (λ k. k < length a.now) }
{
    let mut at = 0;
    while at < a.len() && at < b.len() {
        if a[at] != b[at] {
            return Some(at);
        }
        at += 1;
    }
    if a.len() == b.len() { None } else { Some(at) }
}

/// The first place at which two tables differ, in an entry or because one of them ends there; None exactly where they
/// are equal. It takes no memory.
pub fn first_difference(a: &Table, b: &Table) -> Option<usize>
    ensures place { MatchOption result (a.now ≡ b.now) (λ k. IsFirstDifference a.now b.now k) }
    ensures within { length a.now ≡ length b.now → IfSome result (λ k. k < length a.now) }
{
    difference_in(a.as_slice(), b.as_slice())
}
