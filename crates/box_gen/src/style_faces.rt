//! The faces of a document's styles.

ghost use Rattle.std.specs.Prelude.{◌≡◌, IfOk};
ghost use Rattle.box_gen.specs.Faced.{styles_in};
ghost use Rattle.box_gen.specs.KnownFaces.{KnowsFaces};

use crate::faced::FacedStyle;
use bk_num::name::NoMem;
use metrics::Faces;
use std::alloc::Global;
use style::style::Style;
use style::styles::{StyleTable, Styles};

/// The styles that are kept of a document's nodes, each with its face, and which node has which; and the initial style.
#[derive(Drop)]
pub(crate) struct StyleFaces<'a> {
    pub(crate) table: StyleTable<'a>,
    pub(crate) styles: Vec<FacedStyle<'a>>,
    pub(crate) initial: FacedStyle<'a>,
}

/// Styles, each with its face.
fn faced_styles<'a>(
    alloc: Global,
    styles: &'a [Style],
    faces: &'a Faces,
) -> Result<Vec<FacedStyle<'a>>, NoMem>
    ensures { IfOk result (λ v. v.items ≡ styles_in faces.entry.now styles.entry.now) }
{
    let mut faced = Vec::new(alloc);
    for style in styles {
        faced.push(FacedStyle::new(faces, style))?;
    }
    Ok(faced)
}

/// The styles that are kept and the initial one, each with its face: it is chosen once, however many nodes have the
/// style.
pub(crate) fn style_faces<'a>(
    alloc: Global,
    styles: &'a Styles,
    initial: &'a Style,
    faces: &'a Faces,
) -> Result<StyleFaces<'a>, NoMem>
    ensures known { IfOk result (λ known. KnowsFaces styles.entry.now faces.entry.now known) }
    ensures initial { IfOk result (λ known. known.initial ≡
        record { style = initial.entry.now; faces = faces.entry.now }) }
{
    let table = styles.table();
    let styles = faced_styles(alloc, table.styles(), faces)?;
    Ok(StyleFaces {
        table,
        styles,
        initial: FacedStyle::new(faces, initial),
    })
}
