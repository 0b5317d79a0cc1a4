//! Kerning pairs.

/// Two characters, and by how much the second one is further from the first one than by its advance, in units of the
/// em: mostly below 0 (OpenType, pair adjustment).
#[derive(Clone, Copy, Debug)]
pub struct KernPair {
    pub first: u32,
    pub second: u32,
    pub change: i16,
}
