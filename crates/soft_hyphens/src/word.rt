//! The characters of words.

ghost use Rattle.std.specs.Prelude.{◌≡◌};
ghost use Rattle.soft_hyphens.specs.Words as spec;

/// Whether a character is one of words.
#[tactic(auto, unfolding(crate::specs::Words::is_of_word))]
pub(crate) fn is_of_word(c: char) -> bool
    ensures { result ≡ spec.is_of_word c }
{
    matches!(c, 'A'..='Z')
        || matches!(c, 'a'..='z')
        || (matches!(c, '\u{C0}'..='\u{24F}') && c != '\u{D7}' && c != '\u{F7}')
        || matches!(c, '\u{370}'..='\u{3FF}')
        || matches!(c, '\u{400}'..='\u{4FF}')
}
