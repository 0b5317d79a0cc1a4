//! What holds of the pages of each flow. The function is empty and carries a law.

ghost use Rattle.fragment.specs.Misses.{NoLaterPointFits};

/// No later point of a page fits once the solids before one have no room, with the notes that have to stand on it and
/// with the carried ones alone.
pub fn no_later_point_fits()
    ensures { NoLaterPointFits }
{}
