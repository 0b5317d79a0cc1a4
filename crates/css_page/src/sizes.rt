//! Sizes of page boxes (css-page-3, `size`).

ghost use Rattle.std.specs.Prelude.{◌≡◌};
ghost use Rattle.css_words.specs.Parser.{Reads};
ghost use Rattle.css_content.specs.Basics.{word_in};
ghost use Rattle.css_values.specs.Measures.{read_measure, lengths};
ghost use Rattle.css_values.specs.Sides.{optional};
ghost use Rattle.css_page.specs.Sizes as spec;

use bk_num::limits::{PAGE_HEIGHT, PAGE_WIDTH};
use bk_num::px::Px;
use css_content::words::word_in;
use css_tok::kind::CssKind;
use css_values::measures::{lengths, read_measure};
use css_words::reader::Reader;
use css_words::unread::Unread;
use css_words::words::{is_named, of_kind};
use style::values::Measure;

/// A declared size of a page box: two lengths, neither of them negative, a percentage or `auto`.
#[derive(Clone, Copy)]
pub struct PageSize {
    pub width: Measure,
    pub height: Measure,
}

/// Which side of a sheet of paper is across: the shorter one, or the longer one.
#[derive(Clone, Copy)]
pub enum Orientation {
    Portrait,
    Landscape,
}

/// A word of `size`: a sheet of paper by its shorter and its longer side, in 1/64 px, or an orientation.
#[derive(Clone, Copy)]
pub enum PaperWord {
    Sheet(i64, i64),
    Turned(Orientation),
}

#[tactic(auto, unfolding(crate::specs::Sizes::size_words))]
fn size_word(reader: &mut Reader<'_>) -> Result<PaperWord, Unread>
    ensures { Reads (λ x. x) (word_in spec.size_words reader.old) result reader.new }
{
    word_in(
        reader,
        &[
            ("a3", PaperWord::Sheet(71841, 101594)),
            ("a4", PaperWord::Sheet(50797, 71841)),
            (
                "a5",
                PaperWord::Sheet(PAGE_WIDTH as i64, PAGE_HEIGHT as i64),
            ),
            ("letter", PaperWord::Sheet(52224, 67584)),
            ("legal", PaperWord::Sheet(52224, 86016)),
            ("portrait", PaperWord::Turned(Orientation::Portrait)),
            ("landscape", PaperWord::Turned(Orientation::Landscape)),
        ],
    )
}

#[tactic(auto, unfolding(css_values::specs::Sides::optional))]
fn second_word(reader: &mut Reader<'_>) -> Result<Option<PaperWord>, Unread>
    ensures { Reads (λ x. x) (optional (word_in spec.size_words) reader.old) result reader.new }
{
    if reader.peek().is_none() {
        return Ok(None);
    }
    Ok(Some(size_word(reader)?))
}

fn sheet(width: i64, height: i64) -> PageSize
    ensures { result ≡ spec.sheet width height }
{
    PageSize {
        width: Measure::Px(Px::from_units(width)),
        height: Measure::Px(Px::from_units(height)),
    }
}

/// A sheet with the side across that the orientation asks for.
fn turned(orientation: Orientation, shorter: i64, longer: i64) -> PageSize
    ensures { result ≡ spec.turned orientation shorter longer }
{
    match orientation {
        Orientation::Portrait => sheet(shorter, longer),
        Orientation::Landscape => sheet(longer, shorter),
    }
}

/// A5, which is the default page, with the side across that the orientation asks for.
fn a5_turned(orientation: Orientation) -> PageSize
    ensures { result ≡ spec.a5_turned orientation }
{
    turned(orientation, PAGE_WIDTH as i64, PAGE_HEIGHT as i64)
}

/// The size that a word gives alone. An orientation alone is of a5.
fn alone(word: PaperWord) -> PageSize
    ensures { result ≡ spec.alone word }
{
    match word {
        PaperWord::Sheet(shorter, longer) => sheet(shorter, longer),
        PaperWord::Turned(orientation) => a5_turned(orientation),
    }
}

/// The size that one or two words give: of two, one is a sheet and the other an orientation.
fn chosen(first: PaperWord, second: Option<PaperWord>) -> Option<PageSize>
    ensures { result ≡ spec.chosen first second }
{
    match (first, second) {
        (word, None) => Some(alone(word)),
        (PaperWord::Sheet(shorter, longer), Some(PaperWord::Turned(orientation))) => {
            Some(turned(orientation, shorter, longer))
        }
        (PaperWord::Turned(orientation), Some(PaperWord::Sheet(shorter, longer))) => {
            Some(turned(orientation, shorter, longer))
        }
        _ => None,
    }
}

#[tactic(auto, unfolding(crate::specs::Sizes::named))]
fn named(reader: &mut Reader<'_>) -> Result<PageSize, Unread>
    ensures { Reads (λ x. x) (spec.named reader.old) result reader.new }
{
    let first = size_word(reader)?;
    let second = second_word(reader)?;
    match chosen(first, second) {
        Some(size) => Ok(size),
        None => Err(Unread::NoReading),
    }
}

#[tactic(auto, unfolding(css_values::specs::Sides::optional))]
fn second_length(reader: &mut Reader<'_>) -> Result<Option<Measure>, Unread>
    ensures { Reads (λ x. x) (optional (read_measure lengths) reader.old) result reader.new }
{
    if reader.peek().is_none() {
        return Ok(None);
    }
    Ok(Some(read_measure(reader, lengths())?))
}

/// One length is the width and the height.
fn size_by(width: &Measure, height: &Option<Measure>) -> PageSize
    ensures { result ≡ spec.size_by width.now height.now }
{
    match height {
        Some(height) => PageSize {
            width: *width,
            height: *height,
        },
        None => PageSize {
            width: *width,
            height: *width,
        },
    }
}

#[tactic(auto, unfolding(crate::specs::Sizes::measured))]
fn measured(reader: &mut Reader<'_>) -> Result<PageSize, Unread>
    ensures { Reads (λ x. x) (spec.measured reader.old) result reader.new }
{
    let width = read_measure(reader, lengths())?;
    let height = second_length(reader)?;
    Ok(size_by(&width, &height))
}

/// Reads a value of `size`: `auto`, which is a5; one or two lengths; a sheet of paper, an orientation, or both in
/// either order.
#[tactic(auto, unfolding(crate::specs::Sizes::size))]
pub fn size(reader: &mut Reader<'_>) -> Result<PageSize, Unread>
    ensures { Reads (λ x. x) (spec.size reader.old) result reader.new }
{
    let token = reader.peek();
    if is_named(CssKind::Ident, token, "auto") {
        reader.advance();
        return Ok(a5_turned(Orientation::Portrait));
    }
    if of_kind(CssKind::Ident, token) {
        return named(reader);
    }
    measured(reader)
}
