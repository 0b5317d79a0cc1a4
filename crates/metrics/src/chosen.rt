//! The face that families, a style and a weight choose, as one value.

ghost use Rattle.std.specs.Prelude.{◌≡◌, ◌<◌, length};
ghost use Rattle.metrics.specs.Choice.{Chooses};
ghost use Rattle.metrics.specs.Chosen.{FaceIsChosen, face_by};

use crate::lookup::Faces;
use bk_num::ids::FaceId;
use bk_num::name::Name;

/// The face that families, a style and a weight choose; true is italic.
pub fn choose(faces: &Faces, families: &[Name], italic: bool, weight: u16) -> FaceId
    ensures face { result ≡ face_by faces.now families.now italic weight }
    ensures there { result.0 < length faces.now }
    ensures chosen { Chooses faces.now families.now italic weight result }
{
    prove!(faces.len() > 0);
    faces.choose(families, italic, weight)
}

/// Law: it is the face that is chosen by the properties of faces.
pub fn chosen_is_defined()
    ensures { FaceIsChosen }
{}
