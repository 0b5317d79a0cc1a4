//! What holds of all lists of notes. Each function is empty and carries one law.

ghost use Rattle.notes.specs.Notes.{AreaNeverFalls, MustNeverFalls, NeedNeverFalls};

/// The area never falls where more solids are placed.
pub fn area_never_falls()
    ensures { AreaNeverFalls }
{}

/// The number of solids that have to stand on a page never falls where the list gets longer.
pub fn must_never_falls()
    ensures { MustNeverFalls }
{}

/// What has to stand on a page takes no less room where more notes are called on it.
pub fn need_never_falls()
    ensures { NeedNeverFalls }
{}
