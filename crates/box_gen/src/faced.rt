//! Styles with the faces that they choose (CSS 2.1, 15.2).

ghost use Rattle.std.specs.Prelude.{◌≡◌, ◌<◌, length};
ghost use Rattle.metrics.specs.Choice.{Chooses};
ghost use Rattle.box_gen.specs.Faces.{face_of};

use bk_num::ids::FaceId;
use metrics::Faces;
use metrics::chosen::choose;
use std::marker::Model;
use style::style::Style;

/// A style with the face that it chooses among some faces. Contracts see the style and the faces.
#[derive(Drop)]
pub struct FacedStyle<'a> {
    style: &'a Style,
    faces: &'a Faces,
    face: FaceId,
}

impl<'a> Model for FacedStyle<'a> {
    ghost use Rattle.box_gen.specs.Faced.{StyleIn};

    ghost Value = { StyleIn };

    ghost use Rattle.box_gen.specs.FacedFields.{HasItsFace, style_in};

    ghost view = { style_in };

    ghost invariant = { HasItsFace };
}

impl<'a> FacedStyle<'a> {
    /// A style with the face that its families, its font style and its weight choose.
    pub fn new(faces: &'a Faces, style: &'a Style) -> FacedStyle<'a>
        ensures { result ≡ record { style = style.entry.now; faces = faces.entry.now } }
    {
        let families = style.font_family.as_slice();
        let face = choose(faces, families, style.font_style, style.font_weight);
        FacedStyle { style, faces, face }
    }

    /// The style.
    pub fn style(&self) -> &'a Style
        ensures { result.now ≡ self.now.style }
    {
        self.style
    }

    /// Its face.
    pub fn face(&self) -> FaceId
        ensures face { result ≡ face_of self.now.faces self.now.style }
        ensures within { result.0 < length self.now.faces }
        ensures chosen { Chooses self.now.faces self.now.style.font_family self.now.style.font_style
            self.now.style.font_weight result }
    {
        self.face
    }
}
