//! Values that several properties have: words of a table, whole numbers, styles of numerals.

ghost use Rattle.std.specs.Prelude.{◌≡◌, ◌≤◌, length, map, option_map, unsigned_abs, IfOk, IfSome};
ghost use Rattle.bk_num.specs.Written.{most_whole};
ghost use Rattle.css_tok.specs.Tokens.{item_in};
ghost use Rattle.css_words.specs.Parser.{Reads};
ghost use Rattle.css_content.specs.Basics as spec;
ghost use Rattle.css_content.specs.Grammar.{style_argument};
ghost use Rattle.css_content.specs.Numerals.{styles};

use bk_num::values::NumStyle;
use css_tok::kind::CssKind;
use css_tok::tokens::CssToken;
use css_words::reader::Reader;
use css_words::table::find_word;
use css_words::unread::Unread;
use css_words::words::{is_mark, of_kind, slice_of};

/// Reads an Ident that a table has, ASCII case aside, and answers what it stands for.
#[tactic(auto, unfolding(crate::specs::Basics::word_in))]
pub fn word_in<T: Copy>(reader: &mut Reader<'_>, rows: &[(&str, T)]) -> Result<T, Unread>
    ensures reads { Reads (λ x. x) (spec.word_in (map (λ r. (r.0.now, r.1)) rows.now) reader.old) result reader.new }
    ensures within { length reader.new ≤ length reader.old }
{
    let token = reader.peek();
    if !of_kind(CssKind::Ident, token) {
        return Err(Unread::NoReading);
    }
    let Some(value) = find_word(rows, slice_of(token)) else {
        return Err(Unread::NoReading);
    };
    reader.advance();
    Ok(value)
}

/// Reads a comma and a word of a table, or nothing, which is `other`.
#[tactic(auto, unfolding(crate::specs::Basics::word_argument))]
pub(crate) fn word_argument<T: Copy>(
    reader: &mut Reader<'_>,
    rows: &[(&str, T)],
    other: T,
) -> Result<T, Unread>
    ensures reads { Reads (λ x. x) (spec.word_argument (map (λ r. (r.0.now, r.1)) rows.now) other reader.old)
        result reader.new }
    ensures within { length reader.new ≤ length reader.old }
{
    if !is_mark(b',', reader.peek()) {
        return Ok(other);
    }
    reader.advance();
    word_in(reader, rows)
}

/// A whole number, which a Number without decimals is.
#[tactic(auto, unfolding(crate::specs::Basics::whole_of), using(crate::proofs::WholeLemmas::whole_small))]
fn whole_of(token: Option<CssToken<'_>>) -> Option<i64>
    ensures value { result ≡ spec.whole_of (option_map item_in token.entry) }
    ensures small { IfSome result (λ n. unsigned_abs n ≤ most_whole) }
{
    let found = token?;
    if !matches!(found.kind, CssKind::Number) {
        return None;
    }
    let number = found.decimal();
    if number.places() == 0 {
        Some(number.units())
    } else {
        None
    }
}

/// Reads a whole number, at most `MOST_WHOLE` either way.
#[tactic(auto, unfolding(crate::specs::Basics::whole))]
pub fn whole(reader: &mut Reader<'_>) -> Result<i64, Unread>
    ensures reads { Reads (λ x. x) (spec.whole reader.old) result reader.new }
    ensures within { length reader.new ≤ length reader.old }
    ensures small { IfOk result (λ n. unsigned_abs n ≤ most_whole) }
{
    let Some(number) = whole_of(reader.peek()) else {
        return Err(Unread::NoReading);
    };
    reader.advance();
    Ok(number)
}

/// The styles of numerals by their names (CSS 2.1, 12.5).
const NUM_STYLES: [(&str, NumStyle); 12] = [
    ("decimal", NumStyle::Decimal),
    ("decimal-leading-zero", NumStyle::LeadingZero),
    ("lower-roman", NumStyle::LowerRoman),
    ("upper-roman", NumStyle::UpperRoman),
    ("lower-alpha", NumStyle::LowerAlpha),
    ("lower-latin", NumStyle::LowerAlpha),
    ("upper-alpha", NumStyle::UpperAlpha),
    ("upper-latin", NumStyle::UpperAlpha),
    ("disc", NumStyle::Disc),
    ("circle", NumStyle::Circle),
    ("square", NumStyle::Square),
    ("none", NumStyle::Nothing),
];

/// Reads the name of a style of numerals (CSS 2.1, 12.5).
#[tactic(auto, unfolding(crate::specs::Numerals::styles))]
pub fn num_style(reader: &mut Reader<'_>) -> Result<NumStyle, Unread>
    ensures reads { Reads (λ x. x) (spec.word_in styles reader.old) result reader.new }
    ensures within { length reader.new ≤ length reader.old }
{
    word_in(reader, &NUM_STYLES)
}

/// Reads a comma and a style of numerals, or nothing, which is `decimal`.
#[tactic(auto, unfolding(crate::specs::Numerals::styles))]
pub(crate) fn style_argument(reader: &mut Reader<'_>) -> Result<NumStyle, Unread>
    ensures reads { Reads (λ x. x) (style_argument reader.old) result reader.new }
    ensures within { length reader.new ≤ length reader.old }
{
    word_argument(reader, &NUM_STYLES, NumStyle::Decimal)
}
