//! What a declaration gives: a value, the parent's, or the initial one (CSS 2.1, 6.1.2).

ghost use Rattle.std.specs.Prelude.{◌≡◌};
ghost use Rattle.computed_values.specs.Values.{given_by, same, color_of};

use bk_num::values::Color;
use style::long::Given;

/// What a declaration gives where a value is computed as declared.
pub fn chosen<T: Copy>(given: &Given<T>, inherited: T, initial: T) -> T
    ensures { result ≡ given_by same given.now inherited initial }
{
    match given {
        Given::Value(value) => *value,
        Given::Inherit => inherited,
        Given::Initial => initial,
    }
}

/// The color of a border; `currentcolor` and the initial one are the element's own (css-color-3, 4.4).
pub fn chosen_color(given: &Given<Option<Color>>, inherited: Color, own: Color) -> Color
    ensures { result ≡ given_by (color_of own) given.now inherited own }
{
    match given {
        Given::Value(Some(color)) => *color,
        Given::Value(None) => own,
        Given::Inherit => inherited,
        Given::Initial => own,
    }
}
