//! What references lead to.

ghost use Rattle.std.specs.Prelude.{◌≡◌, ◌<◌, length, option_map};
ghost use Rattle.gen_text.specs.Target.{IsOfId, IsTarget, address_of, id_of, shown_only};

use bk_num::ids::NodeId;
use dom::Dom;
use style::content::Link;
use style::styles::Styles;

/// What a link at a node leads to: the first element in tree order whose id is what comes after the leading `#` of the
/// link, where that element is shown. It costs a look-up of the id.
pub fn target(dom: &Dom, styles: &Styles, node: NodeId, link: &Link) -> Option<NodeId>
    requires { node.0 < length dom.now }
    ensures { IsTarget dom.now styles.now node.0 link.now (option_map (λ n. n.0) result) }
{
    match address(dom, node, link) {
        Some(address) => of_address(dom, styles, address),
        None => None,
    }
}

/// The address of a link.
fn address<'a>(dom: &'a Dom, node: NodeId, link: &'a Link) -> Option<&'a str>
    requires { node.0 < length dom.now }
    ensures { option_map (λ s. s.now) result ≡ address_of dom.now node.0 link.now }
{
    match link {
        Link::Attr(name) => dom.attr(node, name.as_str()),
        Link::Url(address) => Some(address.as_str()),
    }
}

fn of_address(dom: &Dom, styles: &Styles, address: &str) -> Option<NodeId>
    ensures { IsOfId dom.now styles.now (id_of address.now) (option_map (λ n. n.0) result) }
{
    match id_of(address) {
        Some(id) => shown_only(styles, dom.by_id(id)),
        None => None,
    }
}

/// The id that an address names: what comes after its leading `#`, and None exactly where it has none.
pub fn id_of(address: &str) -> Option<&str>
    ensures { option_map (λ s. s.now) result ≡ id_of address.now }
{
    address.strip_prefix("#")
}

fn shown_only(styles: &Styles, node: Option<NodeId>) -> Option<NodeId>
    ensures { option_map (λ n. n.0) result ≡ shown_only styles.now (option_map (λ n. n.0) node) }
{
    match node {
        Some(node) if styles.is_shown(node) => Some(node),
        _ => None,
    }
}
