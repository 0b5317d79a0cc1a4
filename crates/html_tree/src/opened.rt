//! The open elements.
ghost use Rattle.std.specs.Prelude.{◌≡◌, ◌<◌, [], Some, fold, unwrap_or, slice_get, IsTrue};
ghost use Rattle.bk_num.specs.Names.{has_name};
ghost use Rattle.dom.specs.Nodes.{name_at, is_element_at};
ghost use Rattle.html_tree.specs.Rules.{rules, rule_of, texts};
ghost use Rattle.html_tree.specs.Tree.{closed_by, after_rule, without, current};
ghost use Rattle.html_tree.specs.Built.{AreElements};
ghost use Rattle.html_tree.specs.Scopes.{HaveScopes};

use crate::rules::{has, row_at};
use crate::scopes::{ROWS, last_scopes};
use bk_num::ids::NodeId;
use dom::Dom;

/// An element's name.
pub(crate) fn name_of_element<'d>(dom: &'d Dom, node: NodeId) -> &'d str
    requires { IsTrue (is_element_at dom.now node.0) }
    ensures { result.now ≡ unwrap_or (name_at dom.now node.0) [] }
{
    match dom.name(node) {
        Some(name) => name,
        None => "",
    }
}

/// Closes the innermost open element of `closes` that has none of `scope` inside it, with all inside it.
pub(crate) fn close_by(dom: &Dom, opened: &mut Vec<NodeId>, closes: &[&str], scope: &[&str])
    requires { AreElements dom.now opened.old.items }
    ensures closed { opened.new.items ≡ closed_by (has_name (texts closes.now))
        (has_name (texts scope.now)) dom.now opened.old.items }
    ensures elements { AreElements dom.now opened.new.items }
{
    let mut at = opened.len();
    while at > 0 {
        let name = name_of_element(dom, opened[at - 1]);
        if has(closes, name) {
            opened.truncate(at - 1);
            return;
        }
        if has(scope, name) {
            return;
        }
        at -= 1;
    }
}

/// Closes what a row of the table closes at a start tag.
fn close_row(
    dom: &Dom,
    opened: &mut Vec<NodeId>,
    scopes: &mut Vec<[bool; ROWS]>,
    name: &str,
    index: usize,
    row: &(bool, &[&str], &[&str], &[&str]),
)
    requires elements { AreElements dom.now opened.old.items }
    requires scopes { HaveScopes dom.now opened.old.items scopes.old.items }
    requires index { index < 8 }
    requires row { slice_get rules index ≡ Some (rule_of row.now) }
    ensures closed { opened.new.items ≡ after_rule name.now dom.now opened.old.items (rule_of row.now) }
    ensures elements { AreElements dom.now opened.new.items }
    ensures scopes { HaveScopes dom.now opened.new.items scopes.new.items }
{
    if !last_scopes(scopes)[index] {
        return;
    }
    let (all_but, tags, closes, scope) = *row;
    if has(tags, name) != all_but {
        close_by(dom, opened, closes, scope);
        scopes.truncate(opened.len());
    }
}

/// Closes what the rows of the table close at a start tag.
pub(crate) fn close_rows(
    dom: &Dom,
    opened: &mut Vec<NodeId>,
    scopes: &mut Vec<[bool; ROWS]>,
    name: &str,
)
    requires elements { AreElements dom.now opened.old.items }
    requires scopes { HaveScopes dom.now opened.old.items scopes.old.items }
    ensures closed { opened.new.items ≡ fold (after_rule name.now dom.now) opened.old.items rules }
    ensures elements { AreElements dom.now opened.new.items }
    ensures scopes { HaveScopes dom.now opened.new.items scopes.new.items }
{
    for index in 0..ROWS {
        close_row(dom, opened, scopes, name, index, row_at(index));
    }
}

/// Closes the innermost element of a name, with all inside it.
pub(crate) fn close_named(dom: &Dom, opened: &mut Vec<NodeId>, name: &str)
    requires { AreElements dom.now opened.old.items }
    ensures closed { opened.new.items ≡ without name.now dom.now opened.old.items }
    ensures elements { AreElements dom.now opened.new.items }
{
    close_by(dom, opened, &[name], &[])
}

/// The current element.
pub(crate) fn current(opened: &[NodeId]) -> NodeId
    ensures { result.0 ≡ current opened.now }
{
    match opened.last() {
        Some(node) => *node,
        None => NodeId(0),
    }
}
