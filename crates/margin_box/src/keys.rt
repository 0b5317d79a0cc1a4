//! Pages by what the styles of their margin boxes follow from.

/// The pages of a name that have one cell: by the number of the name, and that of the cell.
#[derive(Clone, Copy, PartialEq, Eq, Hash)]
pub struct PageKey {
    pub name: u32,
    pub cell: usize,
}
