//! What the parts of a list of content print (CSS 2.1, 12.2 and 12.4; css-gcpm-3). Each function appends a part's text.
//! Where memory ends, what it appends to is as before.

ghost use Rattle.std.specs.Prelude.{◌≡◌, ◌<◌, ◌++◌, IfOk, OnOk, OnErr, Some, option_map, length, string_bytes};
ghost use Rattle.std.specs.List.{flat_map};
ghost use Rattle.counters.specs.At.{counter_values};
ghost use Rattle.dom.specs.Nodes.{attribute_at};
ghost use Rattle.gen_text.specs.Parts.{PrintsReference, after_text, attribute_text, innermost_text, joined_text, reference_text, value_text};

use crate::table::{Table, print_number, print_page, print_text};
use crate::target::target;
use bk_num::ids::NodeId;
use bk_num::name::NoMem;
use bk_num::values::{NumStyle, Pseudo};
use counters::at::CounterAt;
use dom::Dom;
use std::alloc::Global;
use style::content::Link;
use style::lists::is_page_counter;
use style::styles::Styles;

/// Appends what `attr()` prints: the value of an attribute, or nothing where the node has none of the name.
pub fn print_attribute(dom: &Dom, node: NodeId, name: &str, into: &mut String) -> Result<(), NoMem>
    requires { node.0 < length dom.now }
    ensures ok { OnOk result (string_bytes into.new ≡ string_bytes into.old ++
        attribute_text (attribute_at dom.now node.0 name.now)) }
    ensures err { OnErr result (string_bytes into.new ≡ string_bytes into.old) }
{
    match dom.attr(node, name) {
        Some(value) => print_text(value, into),
        None => Ok(()),
    }
}

/// Appends what `counter()` prints: the innermost value of a counter at an element or a pseudo-element.
pub fn print_counter(
    alloc: Global,
    counters: &CounterAt,
    node: NodeId,
    pseudo: Pseudo,
    name: &str,
    style: NumStyle,
    into: &mut String,
) -> Result<(), NoMem>
    ensures ok { OnOk result (string_bytes into.new ≡ string_bytes into.old ++
        innermost_text style (counter_values counters.now node.0 pseudo name.now)) }
    ensures err { OnErr result (string_bytes into.new ≡ string_bytes into.old) }
{
    let values = counters.values(alloc, node, pseudo, name)?;
    print_innermost(alloc, values.as_slice(), style, into)
}

fn print_innermost(
    alloc: Global,
    values: &[i64],
    style: NumStyle,
    into: &mut String,
) -> Result<(), NoMem>
    ensures ok { OnOk result (string_bytes into.new ≡ string_bytes into.old ++ innermost_text style values.now) }
    ensures err { OnErr result (string_bytes into.new ≡ string_bytes into.old) }
{
    match values.last().copied() {
        Some(value) => print_number(alloc, value, style, into),
        None => Ok(()),
    }
}

/// Appends what `counters()` prints: all values of a counter at an element or a pseudo-element, the outermost first,
/// with a text between them.
pub fn print_counters(
    alloc: Global,
    counters: &CounterAt,
    node: NodeId,
    pseudo: Pseudo,
    name: &str,
    between: &str,
    style: NumStyle,
    into: &mut String,
) -> Result<(), NoMem>
    ensures ok { OnOk result (string_bytes into.new ≡ string_bytes into.old ++
        joined_text between.now style (counter_values counters.now node.0 pseudo name.now)) }
    ensures err { OnErr result (string_bytes into.new ≡ string_bytes into.old) }
{
    let values = counters.values(alloc, node, pseudo, name)?;
    let text = joined(alloc, values.as_slice(), between, style)?;
    print_text(text.as_str(), into)
}

/// Values with a text between them.
fn joined(alloc: Global, values: &[i64], between: &str, style: NumStyle) -> Result<String, NoMem>
    ensures { IfOk result (λ text. string_bytes text ≡ joined_text between.now style values.now) }
{
    let mut text = String::new(alloc);
    let Some((first, more)) = values.split_first() else {
        return Ok(text);
    };
    print_number(alloc, *first, style, &mut text)?;
    push_more(alloc, more, between, style, &mut text)?;
    Ok(text)
}

/// Appends values, each after a text.
fn push_more(
    alloc: Global,
    values: &[i64],
    between: &str,
    style: NumStyle,
    into: &mut String,
) -> Result<(), NoMem>
    ensures { OnOk result (string_bytes into.new ≡ string_bytes into.old ++
        flat_map (after_text between.now style) values.now) }
{
    for value in values {
        push_after(alloc, *value, between, style, into)?;
    }
    Ok(())
}

/// Appends a value after a text.
fn push_after(
    alloc: Global,
    value: i64,
    between: &str,
    style: NumStyle,
    into: &mut String,
) -> Result<(), NoMem>
    ensures { OnOk result (string_bytes into.new ≡ string_bytes into.old ++ after_text between.now style value) }
{
    print_text(between, into)?;
    print_number(alloc, value, style, into)
}

/// Appends what `target-counter()` prints: for the counter `page` the number of the target's page in a table, for
/// another one its innermost value at the target. It is nothing where the link leads to no shown element, or the table
/// has none for it.
pub fn print_reference(
    alloc: Global,
    dom: &Dom,
    styles: &Styles,
    node: NodeId,
    link: &Link,
    name: &str,
    style: NumStyle,
    counters: &CounterAt,
    table: &Table,
    into: &mut String,
) -> Result<(), NoMem>
    requires { node.0 < length dom.now }
    ensures ok { OnOk result
        (PrintsReference dom.now styles.now (counter_values counters.now) table.now node.0 link.now name.now style
        (string_bytes into.old) (string_bytes into.new)) }
    ensures err { OnErr result (string_bytes into.new ≡ string_bytes into.old) }
{
    let target = target(dom, styles, node, link);
    print_at(alloc, target, name, style, counters, table, into)
}

fn print_at(
    alloc: Global,
    target: Option<NodeId>,
    name: &str,
    style: NumStyle,
    counters: &CounterAt,
    table: &Table,
    into: &mut String,
) -> Result<(), NoMem>
    ensures ok { OnOk result (string_bytes into.new ≡ string_bytes into.old ++
        reference_text (counter_values counters.now) table.now name.now style (option_map (λ n. n.0) target)) }
    ensures err { OnErr result (string_bytes into.new ≡ string_bytes into.old) }
{
    if is_page_counter(name) {
        return print_page(alloc, table, target, style, into);
    }
    print_value(alloc, target, name, style, counters, into)
}

fn print_value(
    alloc: Global,
    target: Option<NodeId>,
    name: &str,
    style: NumStyle,
    counters: &CounterAt,
    into: &mut String,
) -> Result<(), NoMem>
    ensures ok { OnOk result (string_bytes into.new ≡ string_bytes into.old ++
        value_text (counter_values counters.now) name.now style (option_map (λ n. n.0) target)) }
    ensures err { OnErr result (string_bytes into.new ≡ string_bytes into.old) }
{
    match target {
        Some(node) => print_counter(alloc, counters, node, Pseudo::Element, name, style, into),
        None => Ok(()),
    }
}
