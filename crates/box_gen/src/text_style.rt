//! How the texts of an element are set.

ghost use Rattle.std.specs.Prelude.{◌≡◌, ◌<◌, length};
ghost use Rattle.metrics.specs.Choice.{Chooses};
ghost use Rattle.box_gen.specs.Faces.{face_of};
ghost use Rattle.box_gen.specs.TextStyles as spec;
ghost use Rattle.box_gen.specs.TextStyles.{span_by, text_style_of};

use crate::faced::FacedStyle;
use bk_num::ids::FaceId;
use bk_num::px::Px;
use bk_num::values::{Color, WhiteSpace};
use boxes::leaf::Span;
use computed_values::fonts::used_line_height;

/// How a text is set: its face, its size and used line height in units, its colour, whether lines end in it, and
/// whether its words are hyphenated.
#[derive(Clone, Copy, Debug)]
pub struct TextStyle {
    pub face: FaceId,
    pub size: Px,
    pub line_height: Px,
    pub color: Color,
    pub wrap: bool,
    pub anywhere: bool,
    pub hyphens: bool,
}

/// Whether lines end in a text whose white space is treated so.
fn wraps(space: WhiteSpace) -> bool
    ensures { result ≡ spec.wraps space }
{
    match space {
        WhiteSpace::Normal | WhiteSpace::PreWrap | WhiteSpace::PreLine => true,
        WhiteSpace::NoWrap | WhiteSpace::Pre => false,
    }
}

/// How a style sets a text whose white space is treated so: in the face that its families, its font style and its
/// weight choose.
pub fn text_style(faced: &FacedStyle<'_>, space: WhiteSpace) -> TextStyle
    ensures value { result ≡ text_style_of faced.now.style space (face_of faced.now.faces faced.now.style) }
    ensures face { result.face.0 < length faced.now.faces }
    ensures chosen { Chooses faced.now.faces faced.now.style.font_family faced.now.style.font_style
        faced.now.style.font_weight result.face }
{
    let style = faced.style();
    TextStyle {
        face: faced.face(),
        size: style.font_size,
        line_height: used_line_height(style.font_size, &style.line_height),
        color: style.color,
        wrap: wraps(space),
        anywhere: style.overflow_wrap,
        hyphens: style.hyphens,
    }
}

/// A text from one offset to another, set so.
pub fn span_by(style: &TextStyle, from: u32, to: u32) -> Span
    ensures { result ≡ span_by style.now from to }
{
    Span {
        from,
        to,
        face: style.face,
        size: style.size,
        line_height: style.line_height,
        color: style.color,
        wrap: style.wrap,
        anywhere: style.anywhere,
    }
}
