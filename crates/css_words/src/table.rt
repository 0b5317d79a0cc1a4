//! Tables of words.

ghost use Rattle.std.specs.Prelude.{◌≡◌, map};
ghost use Rattle.css_words.specs.Table as spec;

use css_tok::words::is_word;

/// What the first row of a word says, ASCII case aside and with the word's escapes undone. It takes no memory.
#[tactic(auto, unfolding(crate::specs::Table::find_word))]
pub fn find_word<T: Copy>(rows: &[(&str, T)], word: &str) -> Option<T>
    ensures { result ≡ spec.find_word (map (λ r. (r.0.now, r.1)) rows.now) word.now }
{
    for (name, value) in rows {
        if is_word(word, name) {
            return Some(*value);
        }
    }
    None
}
