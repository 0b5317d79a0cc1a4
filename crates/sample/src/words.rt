//! Drawn words.

ghost use Rattle.std.specs.Prelude.{◌≡◌, ◌≤◌, ◌++◌, ◌∷◌, [], OnOk, string_bytes};
ghost use Rattle.sample.specs.Draws.{drawn, letter, next_state};
ghost use Rattle.sample.specs.Words.{word, word_end, words, words_end};

use crate::draws::Draws;
use std::alloc::AllocError;

/// Appends a text.
pub(crate) fn push_text(out: &mut String, text: &str) -> Result<(), AllocError>
    ensures { OnOk result (string_bytes out.new ≡ string_bytes out.old ++ text.now) }
{
    out.push_str(text)
}

/// Appends a drawn letter.
#[tactic(auto, unfolding(crate::specs::Draws::letter))]
fn push_letter(out: &mut String, draws: &mut Draws) -> Result<(), AllocError>
    ensures text { OnOk result (string_bytes out.new ≡ string_bytes out.old ++ letter (drawn 26 (next_state draws.old))
        ∷ []) }
    ensures state { draws.new ≡ next_state draws.old }
{
    let place = draws.draw(26) as u8;
    out.push((b'a' + place) as char)
}

/// Appends a word of 2 to 9 drawn letters.
fn push_word(out: &mut String, draws: &mut Draws) -> Result<(), AllocError>
    ensures text { OnOk result (string_bytes out.new ≡ string_bytes out.old ++ word draws.old) }
    ensures state { OnOk result (draws.new ≡ word_end draws.old) }
{
    let count = 2 + draws.draw(8);
    for _place in 0..count {
        push_letter(out, draws)?;
    }
    Ok(())
}

/// Appends a space and a word.
fn push_next_word(out: &mut String, draws: &mut Draws) -> Result<(), AllocError>
    ensures text { OnOk result (string_bytes out.new ≡ string_bytes out.old ++ 32 ∷ word draws.old) }
    ensures state { OnOk result (draws.new ≡ word_end draws.old) }
{
    push_text(out, " ")?;
    push_word(out, draws)
}

/// Appends so many words, with a space between each two.
pub(crate) fn push_words(out: &mut String, draws: &mut Draws, count: u32) -> Result<(), AllocError>
    requires { 1 ≤ count }
    ensures text { OnOk result (string_bytes out.new ≡ string_bytes out.old ++ words count draws.old) }
    ensures state { OnOk result (draws.new ≡ words_end count draws.old) }
{
    push_word(out, draws)?;
    for _word in 1..count {
        push_next_word(out, draws)?;
    }
    Ok(())
}
