//! What is found in a sheet.

use crate::part::Placed;
use bk_num::name::Name;

/// What is found in a sheet.
#[derive(Drop)]
pub enum Finding<'a> {
    /// A part that has no reading.
    Unread(Placed<'a>),
    /// A family without a face, and the line of the declaration that names it.
    Family(usize, Name),
}
