/// A line or edge of a note's body. Lengths are in units of 1/64 px.
#[derive(Clone, Copy, Debug, PartialEq, Eq)]
pub struct NoteSolid {
    /// The gap above it; 0 for the first solid of a note.
    pub gap: i64,
    pub height: i64,
    /// Whether a note that is called on this page begins with it. A carried solid begins none.
    pub begins: bool,
}
