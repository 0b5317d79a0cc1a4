//! The characters of a run.

/// A character, and whether its text is hyphenated.
#[derive(Clone, Copy)]
pub(crate) struct Letter {
    pub(crate) code: char,
    pub(crate) auto: bool,
}
