//! What holds of all lists of notes. The function is empty and carries a law.

ghost use Rattle.note_list.specs.Areas.{PlacesTakeTheirRoom};

/// The note area in which a page places solids is as high as the room that they were found to take.
pub fn places_take_their_room()
    ensures { PlacesTakeTheirRoom }
{}
