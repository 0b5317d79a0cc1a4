//! The versions of the metrics text.

/// A version of the metrics text; only the second one has pair lines.
#[derive(Clone, Copy, Debug)]
pub(crate) enum Version {
    One,
    Two,
}
