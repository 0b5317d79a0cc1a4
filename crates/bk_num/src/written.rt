//! Numbers that a text writes.

ghost use Rattle.std.specs.Prelude.{◌≡◌};
ghost use Rattle.bk_num.specs.Written as spec;

/// The greatest whole number that a style sheet writes: a greater one is read as it.
pub const MOST_WHOLE: u64 = 999999999;

/// The greatest whole number is the one that specs name.
pub fn most_whole_agrees()
    ensures { MOST_WHOLE ≡ spec.most_whole }
{}

/// The character of a number, in an escape of CSS (css-syntax-3, 4.3.7) and in a reference of HTML (HTML, 13.2.5.80):
/// U+FFFD for 0, surrogates and numbers above 10FFFF.
pub fn character_of(number: u32) -> char
    ensures { result ≡ spec.character_of number }
{
    match char::from_u32(number) {
        Some(c) if number > 0 => c,
        _ => '\u{FFFD}',
    }
}
