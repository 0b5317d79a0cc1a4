//! The text that an element represents (HTML, 3.2.1), between its `::before` and its `::after`.

ghost use Rattle.std.specs.Prelude.{◌≡◌, ◌<◌, length};
ghost use Rattle.dom.specs.Nodes.{attribute_at};
ghost use Rattle.gen_text.specs.Parts.{attribute_text};
ghost use Rattle.box_gen.specs.Represented as spec;

use bk_num::ids::NodeId;
use bk_num::values::WhiteSpace;
use dom::Dom;
use inline_text::part::BorrowedPart;

/// A text and how its white space is treated.
fn part_of<'a>(text: &'a str, space: WhiteSpace) -> Option<BorrowedPart<'a>>
    ensures { result ≡ spec.some_part text.entry.now space }
{
    Some(BorrowedPart::new(text, space))
}

/// The value of `alt`, or nothing.
fn alt_of(dom: &Dom, node: NodeId) -> &str
    requires { node.0 < length dom.now }
    ensures { result.now ≡ attribute_text (attribute_at dom.now node.0 spec.alt) }
{
    match dom.attr(node, "alt") {
        Some(text) => text,
        None => "",
    }
}

/// The text that an element represents, where its style treats white space so: a newline that is kept for `br`,
/// U+200B for `wbr`, and the `alt` text for `img`.
pub fn represented_text<'a>(
    dom: &'a Dom,
    node: NodeId,
    space: WhiteSpace,
) -> Option<BorrowedPart<'a>>
    requires { node.0 < length dom.now }
    ensures { result ≡ spec.represented_text dom.entry.now node.0 space }
{
    match dom.name(node) {
        Some("br") => part_of("\n", WhiteSpace::PreLine),
        Some("wbr") => part_of("\u{200B}", space),
        Some("img") => part_of(alt_of(dom, node), space),
        _ => None,
    }
}
