//! Kerning pairs in order.

ghost use Rattle.std.specs.Prelude.{◌≡◌, ◌+◌, ◌≤◌, ◌≤ℤ◌, ◌+ℤ◌, pos, unsigned_abs, length, find, true, false};
ghost use Rattle.std.specs.List.Sorted.{IsPartitionPoint};
ghost use Rattle.std.specs.Option.{option_map_or};
ghost use Rattle.metrics.specs.declared.pair.KernPair.{KernPair};
ghost use Rattle.metrics.specs.Face.{AreRising, is_later, is_pair_of};
ghost use Rattle.metrics.specs.Table.{IsBegin};

use crate::pair::KernPair;

/// Whether a pair stands behind another one in the order of their characters.
#[tactic(auto, unfolding(crate::specs::Face::is_later))]
pub(crate) fn is_later(before: KernPair, pair: KernPair) -> bool
    ensures { result ≡ is_later before pair }
{
    before.first < pair.first || before.first == pair.first && before.second < pair.second
}

/// Whether a pair is that of two characters.
#[tactic(auto, unfolding(crate::specs::Face::is_pair_of))]
fn is_pair_of(pair: KernPair, first: u32, second: u32) -> bool
    ensures { result ≡ is_pair_of first second pair }
{
    pair.first == first && pair.second == second
}

/// How many pairs stand before one.
fn count_before(pairs: &[KernPair], asked: KernPair) -> usize
    requires { AreRising pairs.now }
    ensures within { result ≤ length pairs.now }
    ensures point { IsPartitionPoint (λ (p : KernPair). is_later p asked ≡ true)
        (λ (p : KernPair). is_later p asked ≡ false) pairs.now result }
{
    pairs.partition_point(|pair| is_later(*pair, asked))
}

/// The pair of two characters.
fn pair_of(pairs: &[KernPair], first: u32, second: u32) -> Option<KernPair>
    requires { AreRising pairs.now }
    ensures { result ≡ find (is_pair_of first second) pairs.now }
{
    let asked = KernPair {
        first,
        second,
        change: 0,
    };
    let at = count_before(pairs, asked);
    if at == pairs.len() {
        return None;
    }
    if !is_pair_of(pairs[at], first, second) {
        return None;
    }
    Some(pairs[at])
}

/// By how much the second one of two characters is further from the first one than by its advance; nothing where they
/// are no pair.
pub(crate) fn change_of(pairs: &[KernPair], first: u32, second: u32) -> i16
    requires { AreRising pairs.now }
    ensures { result ≡ option_map_or (λ (p : KernPair). p.change) (find (is_pair_of first second) pairs.now) (pos 0) }
{
    match pair_of(pairs, first, second) {
        Some(pair) => pair.change,
        None => 0,
    }
}

/// How many pairs stand before those that begin with a character.
pub(crate) fn begin_of(pairs: &[KernPair], first: u32) -> usize
    requires { AreRising pairs.now }
    ensures { IsBegin pairs.now first result }
{
    pairs.partition_point(|pair| pair.first < first)
}

/// The same change, sought among the pairs that begin with the first character, where it is known between which places
/// they stand.
pub(crate) fn change_between(
    pairs: &[KernPair],
    from: usize,
    to: usize,
    first: u32,
    second: u32,
) -> i16
    requires rising { AreRising pairs.now }
    requires from { IsBegin pairs.now first from }
    requires to { IsBegin pairs.now (first + 1) to }
    ensures { result ≡ option_map_or (λ (p : KernPair). p.change) (find (is_pair_of first second) pairs.now) (pos 0) }
{
    change_of(&pairs[from..to], first, second)
}

/// An advance with a change, in units of the em.
#[inline]
pub(crate) fn changed(advance: u16, change: i16) -> u16
    requires least { pos 0 ≤ℤ (pos advance +ℤ change) }
    requires most { (pos advance +ℤ change) ≤ℤ pos 16384 }
    ensures value { result ≡ unsigned_abs (pos advance +ℤ change) }
    ensures most { result ≤ 16384 }
{
    (i32::from(advance) + i32::from(change)) as u16
}
