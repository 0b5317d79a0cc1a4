//! Whether each row of the table has an element in scope, kept with each open element. So a token looks at open
//! elements only where it closes some.
ghost use Rattle.std.specs.Prelude.{◌≡◌, ℕ, Some, List, false, length, slice_get, slice_index_or};
ghost use Rattle.bk_num.specs.declared.ids.NodeId.{NodeId};
ghost use Rattle.dom.specs.Nodes.{Node};
ghost use Rattle.html_tree.specs.Rules.{Rule, rules, rule_of};
ghost use Rattle.html_tree.specs.Scopes.{has_within, AreScopes, HaveScopes};

use crate::rules::{has, row_at};

/// How many rows the table has.
pub(crate) const ROWS: usize = 8;

/// The row that closes `head`.
pub(crate) const HEAD: usize = 0;

/// Whether a row has an element in scope where one of this name is the last, and `outer` tells it of those around that.
fn has_within(row: &(bool, &[&str], &[&str], &[&str]), name: &str, outer: bool) -> bool
    ensures { result ≡ has_within (rule_of row.now) name.now outer }
{
    let (_, _, closes, scope) = *row;
    has(closes, name) || (outer && !has(scope, name))
}

/// The same for each row.
pub(crate) fn scopes_within(outer: [bool; ROWS], name: &str) -> [bool; ROWS]
    ensures { (i : ℕ) (r : Rule) → slice_get rules i ≡ Some r →
        slice_index_or result i false ≡ has_within r name.now (slice_index_or outer i false) }
{
    let mut scopes = outer;
    for row in 0..ROWS {
        scopes[row] = has_within(row_at(row), name, outer[row]);
    }
    scopes
}

/// Whether each row has an element in scope among all that are open.
pub(crate) fn last_scopes(scopes: &[[bool; ROWS]]) -> [bool; ROWS]
    ensures { (nodes : List Node) (opened : List NodeId) → HaveScopes nodes opened scopes.now →
        AreScopes nodes opened (length opened) result }
{
    match scopes.last() {
        Some(last) => *last,
        None => [false; ROWS],
    }
}
