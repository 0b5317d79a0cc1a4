//! The text of a list of content (CSS 2.1, 12.2; css-gcpm-3).

ghost use Rattle.std.specs.Prelude.{◌≡◌, ◌<◌, IfOk, OnOk, OnErr, length, string_bytes};
ghost use Rattle.counters.specs.At.{counter_values};
ghost use Rattle.gen_text.specs.Content.{IsTextOf, PrintsPart, PrintsParts, place_of};

use crate::own::print_own;
use crate::parts::{print_attribute, print_counter, print_counters, print_reference};
use crate::table::{Table, print_text};
use bk_num::ids::NodeId;
use bk_num::name::{Name, NoMem};
use bk_num::values::Pseudo;
use counters::at::CounterAt;
use dom::Dom;
use std::alloc::Global;
use style::content::{Content, Part};
use style::styles::Styles;

/// The text of a list of content at an element, or at a pseudo-element of it: what its parts print, joined. The parts
/// of margin boxes alone print nothing. It costs what its parts cost: a look-up of an id for each reference, the scopes
/// that hold for each counter, and the texts below the element for `content()`.
///
/// # Errors
///
/// `NoMem`.
pub fn eval(
    alloc: Global,
    dom: &Dom,
    styles: &Styles,
    node: NodeId,
    pseudo: Pseudo,
    content: &Content,
    counters: &CounterAt,
    table: &Table,
) -> Result<Name, NoMem>
    requires { node.0 < length dom.now }
    ensures { IfOk result (λ name.
        IsTextOf (place_of dom.now styles.now node.0 pseudo (counter_values counters.now) table.now) content.now name) }
{
    let mut text = String::new(alloc);
    let parts = content.as_slice();
    push_parts(
        alloc, dom, styles, node, pseudo, parts, counters, table, &mut text,
    )?;
    Ok(Name::from_string(text))
}

/// Appends what parts print, or a part of that.
fn push_parts(
    alloc: Global,
    dom: &Dom,
    styles: &Styles,
    node: NodeId,
    pseudo: Pseudo,
    parts: &[Part],
    counters: &CounterAt,
    table: &Table,
    into: &mut String,
) -> Result<(), NoMem>
    requires { node.0 < length dom.now }
    ensures { OnOk result
        (PrintsParts (place_of dom.now styles.now node.0 pseudo (counter_values counters.now) table.now) parts.now
        (string_bytes into.old) (string_bytes into.new)) }
{
    for part in parts {
        push_part(
            alloc, dom, styles, node, pseudo, part, counters, table, into,
        )?;
    }
    Ok(())
}

/// Appends what a part prints.
fn push_part(
    alloc: Global,
    dom: &Dom,
    styles: &Styles,
    node: NodeId,
    pseudo: Pseudo,
    part: &Part,
    counters: &CounterAt,
    table: &Table,
    into: &mut String,
) -> Result<(), NoMem>
    requires { node.0 < length dom.now }
    ensures ok { OnOk result
        (PrintsPart (place_of dom.now styles.now node.0 pseudo (counter_values counters.now) table.now) part.now
        (string_bytes into.old) (string_bytes into.new)) }
    ensures err { OnErr result (string_bytes into.new ≡ string_bytes into.old) }
{
    match part {
        Part::Text(text) => print_text(text.as_str(), into),
        Part::Attr(name) => print_attribute(dom, node, name.as_str(), into),
        Part::Counter(name, style) => {
            print_counter(alloc, counters, node, pseudo, name.as_str(), *style, into)
        }
        Part::Counters(name, between, style) => print_counters(
            alloc,
            counters,
            node,
            pseudo,
            name.as_str(),
            between.as_str(),
            *style,
            into,
        ),
        Part::Target(link, name, style) => print_reference(
            alloc,
            dom,
            styles,
            node,
            link,
            name.as_str(),
            *style,
            counters,
            table,
            into,
        ),
        Part::Own => print_own(alloc, dom, styles, node, into),
        Part::Running(_, _) | Part::Page(_) | Part::Pages(_) => Ok(()),
    }
}
