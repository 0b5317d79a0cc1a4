//! Fingerprints of selectors. Equal selectors have one fingerprint, and others hardly ever (FNV-1a over numbers).

use bk_num::name::Name;
use bk_num::values::Pseudo;
use selectors::types::{AttrTest, Compound, Join, Plain, Selector, Test, pseudo};

/// What FNV-1a begins with, for 64 bits.
const START: u64 = 14695981039346656037;

/// What FNV-1a multiplies by, for 64 bits.
const FACTOR: u64 = 1099511628211;

/// A fingerprint with a number more.
fn with(print: u64, number: u64) -> u64 {
    (print ^ number).wrapping_mul(FACTOR)
}

fn with_integer(print: u64, integer: i64) -> u64 {
    with(with(print, (integer < 0) as u64), integer.unsigned_abs())
}

fn with_name(print: u64, name: &Name) -> u64 {
    let bytes = name.as_str().as_bytes();
    let mut print = with(print, bytes.len() as u64);
    for byte in bytes {
        print = with(print, *byte as u64);
    }
    print
}

fn number_of_attr_test(by: AttrTest) -> u64 {
    match by {
        AttrTest::Has => 0,
        AttrTest::Equals => 1,
        AttrTest::Word => 2,
        AttrTest::Dash => 3,
        AttrTest::Starts => 4,
        AttrTest::Ends => 5,
        AttrTest::Holds => 6,
    }
}

fn with_test(print: u64, test: &Test) -> u64 {
    match test {
        Test::Id(id) => with_name(with(print, 1), id),
        Test::Class(class) => with_name(with(print, 2), class),
        Test::Attr(name, by, value) => {
            let named = with_name(with(print, 3), name);
            with_name(with(named, number_of_attr_test(*by)), value)
        }
        Test::Nth(a, b) => with_integer(with_integer(with(print, 4), *a), *b),
        Test::Root => with(print, 5),
        Test::FirstChild => with(print, 6),
        Test::LastChild => with(print, 7),
        Test::OnlyChild => with(print, 8),
        Test::FirstOfType => with(print, 9),
        Test::LastOfType => with(print, 10),
        Test::Empty => with(print, 11),
        Test::Link => with(print, 12),
    }
}

fn with_type(print: u64, name: &Option<Name>) -> u64 {
    match name {
        Some(name) => with_name(with(print, 1), name),
        None => with(print, 0),
    }
}

fn with_plain(print: u64, plain: &Plain) -> u64 {
    let tests = plain.tests.as_slice();
    let mut print = with(with_type(print, &plain.name), tests.len() as u64);
    for test in tests {
        print = with_test(print, test);
    }
    print
}

fn with_compound(print: u64, compound: &Compound) -> u64 {
    let nots = compound.nots.as_slice();
    let mut print = with(with_plain(print, &compound.plain), nots.len() as u64);
    for plain in nots {
        print = with_plain(print, plain);
    }
    print
}

fn with_compounds(print: u64, compounds: &[Compound]) -> u64 {
    let mut print = with(print, compounds.len() as u64);
    for compound in compounds {
        print = with_compound(print, compound);
    }
    print
}

fn number_of_join(join: Join) -> u64 {
    match join {
        Join::Inside => 0,
        Join::Child => 1,
        Join::Next => 2,
        Join::Later => 3,
    }
}

fn with_joins(print: u64, joins: &[Join]) -> u64 {
    let mut print = print;
    for join in joins {
        print = with(print, number_of_join(*join));
    }
    print
}

fn number_of_pseudo(named: Pseudo) -> u64 {
    match named {
        Pseudo::Element => 0,
        Pseudo::Before => 1,
        Pseudo::After => 2,
        Pseudo::Call => 3,
        Pseudo::Marker => 4,
    }
}

/// The fingerprint of a selector: of its compounds with types and tests, its combinators and its pseudo-element.
pub(crate) fn fingerprint(selector: &Selector) -> u64 {
    let print = with(START, number_of_pseudo(pseudo(selector)));
    with_joins(with_compounds(print, selector.parts()), selector.joins())
}
