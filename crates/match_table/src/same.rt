//! Whether two selectors are the same, part by part.

ghost use Rattle.std.specs.Prelude.{◌≡◌, IsTrue};

use bk_num::name::Name;
use bk_num::values::Pseudo;
use selectors::types::{AttrTest, Compound, Join, Plain, Selector, Test, pseudo};

/// A part of a selector, which may be the same as another.
trait Part {
    fn is_same(&self, other: &Self) -> bool
        ensures { IsTrue result → self.now ≡ other.now };
}

/// Whether two lists have the same parts, one after another.
fn are_same<P: Part>(parts: &[P], others: &[P]) -> bool
    ensures { IsTrue result → parts.now ≡ others.now }
{
    if parts.len() != others.len() {
        return false;
    }
    for index in 0..parts.len() {
        if !parts[index].is_same(&others[index]) {
            return false;
        }
    }
    true
}

impl Part for Name {
    fn is_same(&self, other: &Name) -> bool {
        self.as_str() == other.as_str()
    }
}

impl Part for AttrTest {
    fn is_same(&self, other: &AttrTest) -> bool {
        self == other
    }
}

impl Part for Test {
    fn is_same(&self, other: &Test) -> bool {
        match (self, other) {
            (Test::Id(id), Test::Id(other)) => id.is_same(other),
            (Test::Class(class), Test::Class(other)) => class.is_same(other),
            (Test::Attr(name, by, value), Test::Attr(other, other_by, other_value)) => {
                name.is_same(other) && by.is_same(other_by) && value.is_same(other_value)
            }
            (Test::Nth(a, b), Test::Nth(c, d)) => *a == *c && *b == *d,
            (Test::Root, Test::Root) => true,
            (Test::FirstChild, Test::FirstChild) => true,
            (Test::LastChild, Test::LastChild) => true,
            (Test::OnlyChild, Test::OnlyChild) => true,
            (Test::FirstOfType, Test::FirstOfType) => true,
            (Test::LastOfType, Test::LastOfType) => true,
            (Test::Empty, Test::Empty) => true,
            (Test::Link, Test::Link) => true,
            _ => false,
        }
    }
}

/// Whether two types are the same, or both missing.
fn is_same_type(name: &Option<Name>, other: &Option<Name>) -> bool
    ensures { IsTrue result → name.now ≡ other.now }
{
    match (name, other) {
        (Some(name), Some(other)) => name.is_same(other),
        (None, None) => true,
        _ => false,
    }
}

impl Part for Plain {
    fn is_same(&self, other: &Plain) -> bool {
        is_same_type(&self.name, &other.name)
            && are_same(self.tests.as_slice(), other.tests.as_slice())
    }
}

impl Part for Compound {
    fn is_same(&self, other: &Compound) -> bool {
        self.plain.is_same(&other.plain) && are_same(self.nots.as_slice(), other.nots.as_slice())
    }
}

impl Part for Join {
    fn is_same(&self, other: &Join) -> bool {
        self == other
    }
}

fn is_same_pseudo(named: Pseudo, other: Pseudo) -> bool
    ensures { IsTrue result → named ≡ other }
{
    named == other
}

/// Whether two selectors are the same: their compounds with types and tests, their combinators and pseudo-elements.
pub(crate) fn is_same(selector: &Selector, other: &Selector) -> bool
    ensures { IsTrue result → selector.now ≡ other.now }
{
    are_same(selector.parts(), other.parts())
        && are_same(selector.joins(), other.joins())
        && is_same_pseudo(pseudo(selector), pseudo(other))
}
