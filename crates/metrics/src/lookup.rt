//! The faces of a metrics text.

ghost use Rattle.std.specs.Prelude.{◌≡◌, ◌<◌, ◌≤◌, pos, ◌≤ℤ◌, length, IfOk};
ghost use Rattle.bk_num.specs.Limits.{most_length};
ghost use Rattle.metrics.specs.Choice.{Chooses, family_name, names_some};
ghost use Rattle.metrics.specs.Face.{FontFace, advance_of, ascent_of, descent_of, face_at, paired_of};
ghost use Rattle.metrics.specs.Text.{AreFaces};

use crate::choice::{choose, names_some};
use crate::face::Face;
use crate::face_lines::FaceLines;
use crate::pen::Pen;
use bk_num::ids::FaceId;
use bk_num::name::Name;
use bk_num::px::Px;
use std::alloc::{AllocError, Global};
use std::marker::Model;

/// The faces of a metrics text, in its order. Contracts see their list.
#[derive(Drop)]
pub struct Faces {
    faces: Vec<Face>,
}

impl Model for Faces {
    ghost use Rattle.std.specs.Prelude.{List};
    ghost use Rattle.metrics.specs.Face.{FontFace};
    ghost use Rattle.metrics.specs.Text.{AreFaces};

    ghost Value = { List FontFace };

    ghost view = { λ f. f.faces.items };

    ghost invariant = { λ f. AreFaces f.faces.items };
}

impl Faces {
    /// The faces that lines gave.
    pub(crate) fn new(alloc: Global, lines: Vec<FaceLines>) -> Result<Faces, AllocError>
        requires { AreFaces lines.items }
        ensures { IfOk result (λ f. f ≡ lines.items) }
    {
        let mut faces = Vec::new(alloc);
        for face in lines {
            faces.push(Face::new(alloc, face)?)?;
        }
        Ok(Faces { faces })
    }

    /// How many faces there are, from 1 to 64.
    pub fn len(&self) -> u16
        ensures count { result ≡ length self.now }
        ensures faces { AreFaces self.now }
    {
        self.faces.len() as u16
    }

    /// The face that families, a style and a weight choose: the first family that names a face
    /// decides, else the first face's name; of that name the faces of the style, if there are
    /// any; and of these the one of the nearest weight, the lesser where two are as near.
    pub fn choose(&self, families: &[Name], italic: bool, weight: u16) -> FaceId
        ensures face { result.0 < length self.now }
        ensures choice { Chooses self.now families.now italic weight result }
    {
        choose(&self.faces, families, italic, weight)
    }

    /// Whether a family names a face: its name, lower-cased and with one dash for each run of spaces, is that of a
    /// face.
    pub fn names(&self, family: &str) -> bool
        ensures { result ≡ names_some self.now (family_name family.now) }
    {
        names_some(&self.faces, family)
    }

    #[tactic(auto, using(crate::proofs::ScaleLemmas::bounds))]
    /// The advance of a character at a size: floor (its number times the size over the units per em).
    pub fn advance(&self, face: FaceId, size: Px, c: char) -> Px
        requires face { face.0 < length self.now }
        requires size { pos 0 ≤ℤ size }
        ensures value { result ≡ advance_of self.now face size c }
        ensures least { pos 0 ≤ℤ result }
        ensures most { result ≤ℤ pos most_length }
    {
        self.faces[face.0 as usize].advance(size, c)
    }

    #[tactic(auto, using(crate::proofs::ScaleLemmas::bounds))]
    /// The advance of a character behind another one at a size: floor (its number, with the change of their pair, times
    /// the size over the units per em).
    pub fn paired(&self, face: FaceId, size: Px, first: char, c: char) -> Px
        requires face { face.0 < length self.now }
        requires size { pos 0 ≤ℤ size }
        ensures value { result ≡ paired_of self.now face size first c }
        ensures least { pos 0 ≤ℤ result }
        ensures most { result ≤ℤ pos most_length }
    {
        self.faces[face.0 as usize].paired_advance(size, first, c)
    }

    /// A face at a size, for many characters.
    pub fn pen(&self, face: FaceId, size: Px) -> Pen<'_>
        requires face { face.0 < length self.now }
        requires size { pos 0 ≤ℤ size }
        ensures { result ≡ record { face = face_at self.now face; size = size } }
    {
        Pen::new(&self.faces[face.0 as usize], size)
    }

    #[tactic(auto, using(crate::proofs::ScaleLemmas::bounds))]
    /// How far a face rises above the baseline at a size.
    pub fn ascent(&self, face: FaceId, size: Px) -> Px
        requires face { face.0 < length self.now }
        requires size { pos 0 ≤ℤ size }
        ensures value { result ≡ ascent_of self.now face size }
        ensures least { pos 0 ≤ℤ result }
        ensures most { result ≤ℤ pos most_length }
    {
        self.faces[face.0 as usize].ascent(size)
    }

    #[tactic(auto, using(crate::proofs::ScaleLemmas::bounds))]
    /// How far a face falls below the baseline at a size.
    pub fn descent(&self, face: FaceId, size: Px) -> Px
        requires face { face.0 < length self.now }
        requires size { pos 0 ≤ℤ size }
        ensures value { result ≡ descent_of self.now face size }
        ensures least { pos 0 ≤ℤ result }
        ensures most { result ≤ℤ pos most_length }
    {
        self.faces[face.0 as usize].descent(size)
    }

    /// The name, the style and the weight of a face; true is italic.
    pub fn label(&self, face: FaceId) -> (&str, bool, u16)
        requires { face.0 < length self.now }
        ensures name { result.0.now ≡ (face_at self.now face).name }
        ensures italic { result.1 ≡ (face_at self.now face).italic }
        ensures weight { result.2 ≡ (face_at self.now face).weight }
    {
        let lines = self.faces[face.0 as usize].lines();
        (lines.name(), lines.italic(), lines.weight())
    }
}
