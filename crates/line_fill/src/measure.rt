//! The measure of a line, and the indent of the first one (CSS 2.1, 16.1).

ghost use Rattle.std.specs.Prelude.{◌≡◌, ◌≤◌, ◌^◌, pos, neg_ℤ, ◌≤ℤ◌, unsigned_abs};
ghost use Rattle.line_fill.specs.LineEnd.{indent_of, line_measure};

use boxes::leaf::Leaf;
use boxes::span::used_units;

/// The indent of the line of a leaf that begins at an offset, at a measure, both in units: 0 but for the first line.
#[tactic(auto, unfolding(crate::specs::LineEnd::indent_of))]
pub fn indent_at(leaf: &Leaf, from: u32, measure: i64) -> i64
    requires { unsigned_abs measure ≤ 2 ^ 40 }
    ensures value { result ≡ indent_of leaf.now from measure }
    ensures low { neg_ℤ (pos (2 ^ 27)) ≤ℤ result }
    ensures high { result ≤ℤ pos (2 ^ 27) }
{
    if from == 0 {
        used_units(leaf.indent, measure)
    } else {
        0
    }
}

/// The measure of the line of a leaf that begins at an offset, in units: its indent is taken off.
#[tactic(auto, unfolding(crate::specs::LineEnd::line_measure))]
pub fn measure_at(leaf: &Leaf, from: u32, measure: i64) -> i64
    requires { unsigned_abs measure ≤ 2 ^ 40 }
    ensures value { result ≡ line_measure leaf.now from measure }
    ensures low { neg_ℤ (pos (2 ^ 41)) ≤ℤ result }
    ensures high { result ≤ℤ pos (2 ^ 41) }
{
    measure - indent_at(leaf, from, measure)
}
