//! Declarations whose values are read.

use bk_num::items::Items;
use style::long::Long;

/// A declaration whose value is read: its longhands.
#[derive(Drop)]
pub struct ReadDecl {
    pub longs: Items<Long>,
    pub important: bool,
}
