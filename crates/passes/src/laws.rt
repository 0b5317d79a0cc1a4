//! What holds of all passes. Each function carries one law, and changes nothing.

ghost use Rattle.passes.specs.Passes.{HaveOneEnd, SettleAtOnce};

use page_list::laws::{a_page_list_leaves_nothing, one_page_list};

/// Passes over a document end in one way: so each answer of `settle` but want of memory comes exactly where it may.
pub fn one_end()
    ensures { HaveOneEnd }
{
    one_page_list();
    a_page_list_leaves_nothing();
}

/// Without page references no two tables differ, and the first pass settles.
pub fn references_settle_at_once()
    ensures { SettleAtOnce }
{}
