//! What hyphenates the words of a document.

ghost use Rattle.std.specs.Prelude.{◌≡◌, ◌<◌, false, length, option_map, IfOk};
ghost use Rattle.std.specs.Option.{option_map_or};
ghost use Rattle.bk_num.specs.declared.values.Pseudo.TheVariants as pseudo;
ghost use Rattle.style.specs.Nodes.{style_at};

use bk_num::ids::NodeId;
use bk_num::name::NoMem;
use bk_num::values::Pseudo;
use dom::Dom;
use hyphen::Patterns;
use soft_hyphens::hyphenator::Hyphenator;
use std::alloc::Global;
use style::styles::Styles;

/// What hyphenates by patterns, where they are given, and knows no word.
pub(crate) fn hyphenator_of(alloc: Global, patterns: Option<&Patterns>) -> Option<Hyphenator<'_>>
    ensures { result ≡ option_map (λ p. p.now) patterns.entry }
{
    match patterns {
        None => None,
        Some(patterns) => Some(Hyphenator::new(alloc, patterns)),
    }
}

/// Whether the text of an element is hyphenated.
fn is_hyphenated(styles: &Styles, element: NodeId) -> bool
    ensures { result ≡ option_map_or (λ s. s.hyphens) (style_at styles.now element.0 pseudo.Element) false }
{
    match styles.of(element, Pseudo::Element) {
        Some(style) => style.hyphens,
        None => false,
    }
}

/// Learns the words of the text at a node, where it is hyphenated.
fn learn_at(
    alloc: Global,
    dom: &Dom,
    styles: &Styles,
    node: NodeId,
    hyphenator: &mut Hyphenator<'_>,
) -> Result<(), NoMem>
    requires { node.0 < length dom.now }
    ensures { hyphenator.new ≡ hyphenator.old }
{
    let Some(text) = dom.text(node) else {
        return Ok(());
    };
    match dom.parent(node) {
        Some(parent) if is_hyphenated(styles, parent) => hyphenator.learn(alloc, text),
        _ => Ok(()),
    }
}

/// Learns the words of a document that are hyphenated.
fn learn(
    alloc: Global,
    dom: &Dom,
    styles: &Styles,
    hyphenator: &mut Hyphenator<'_>,
) -> Result<(), NoMem>
    ensures { hyphenator.new ≡ hyphenator.old }
{
    for number in 0..dom.len() {
        learn_at(alloc, dom, styles, NodeId(number), hyphenator)?;
    }
    Ok(())
}

/// What hyphenates a document by patterns, where they are given: it knows the words of its texts, so that each is
/// looked up in the patterns once, and not in each pass. Words that go over the border of an element, and those of
/// generated text, may be looked up each time.
pub fn hyphenator_for<'p>(
    alloc: Global,
    dom: &Dom,
    styles: &Styles,
    patterns: Option<&'p Patterns>,
) -> Result<Option<Hyphenator<'p>>, NoMem>
    ensures { IfOk result (λ h. h ≡ option_map (λ p. p.now) patterns.entry) }
{
    let Some(patterns) = patterns else {
        return Ok(None);
    };
    let mut hyphenator = Hyphenator::new(alloc, patterns);
    learn(alloc, dom, styles, &mut hyphenator)?;
    Ok(Some(hyphenator))
}
