//! A document that is made a node at a time, and what is read of it.

ghost use Rattle.std.specs.Prelude.{◌<◌, length};

use bk_num::ids::NodeId;
use dom::{Dom, Step, Walk};
use rows::{number, part, push_all};
use std::alloc::{AllocError, Global};

/// Adds what a step says: the number of an element, what it gets (`e` an element, `t` a text, else an attribute of that
/// name), and the name, text or value.
fn grow(alloc: Global, dom: &mut Dom, step: &str) -> Option<()> {
    let (element, rest) = step.split_once(' ')?;
    let (kind, text) = rest.split_once(' ')?;
    let node = NodeId(element.parse::<u32>().ok()?);
    if node.0 >= dom.len() || dom.name(node).is_none() {
        return None;
    }
    let added = match kind {
        "e" => dom.add_element(alloc, node, text).is_ok(),
        "t" => dom.add_text(alloc, node, text).is_ok(),
        name => dom.add_attr(alloc, node, name, text).is_ok(),
    };
    if added { Some(()) } else { None }
}

fn grow_all(alloc: Global, dom: &mut Dom, steps: &str) -> Option<()> {
    for step in steps.split(',') {
        grow(alloc, dom, step)?;
    }
    Some(())
}

fn push_text(line: &mut String, text: Option<&str>) -> Result<(), AllocError> {
    push_all(line, &[text.unwrap_or("-"), " "])
}

/// A node's name, text and attribute `id`, its depth, and how many elements stand before it and below it.
fn facts(alloc: Global, dom: &Dom, node: NodeId) -> Result<String, AllocError>
    requires { node.0 < length dom.now }
{
    let mut line = String::new(alloc);
    push_text(&mut line, dom.name(node))?;
    push_text(&mut line, dom.text(node))?;
    push_text(&mut line, dom.attr(node, "id"))?;
    let (depth, before, within) = (
        dom.depth(node),
        dom.elements_before(node),
        dom.element_count(node),
    );
    write!(line, "{depth} {before} {within}")?;
    Ok(line)
}

fn push_number(line: &mut String, node: Option<NodeId>) -> Result<(), AllocError> {
    match node {
        Some(node) => write!(line, " {}", node.0),
        None => line.push_str(" -"),
    }
}

/// A node's parent, its first and last child, and the siblings before and after it.
fn links(alloc: Global, dom: &Dom, node: NodeId) -> Result<String, AllocError>
    requires { node.0 < length dom.now }
{
    let mut line = String::from_str(alloc, "links")?;
    push_number(&mut line, dom.parent(node))?;
    push_number(&mut line, dom.first_child(node))?;
    push_number(&mut line, dom.last_child(node))?;
    push_number(&mut line, dom.prev_sibling(node))?;
    push_number(&mut line, dom.next_sibling(node))?;
    Ok(line)
}

fn push_step(line: &mut String, step: Step) -> Result<(), AllocError> {
    match step {
        Step::Enter(node) => write!(line, "+{} ", node.0),
        Step::Leave(node) => write!(line, "-{} ", node.0),
    }
}

/// The steps of a walk: `+` and the number of a node that is entered, `-` and that of one that is left.
fn push_walk(line: &mut String, dom: &Dom) -> Result<(), AllocError> {
    let mut walk = Walk::new(dom);
    for _ in 0..u64::MAX {
        let Some(step) = walk.next() else {
            break;
        };
        push_step(line, step)?;
    }
    line.push_str("end")
}

fn walk(alloc: Global, dom: &Dom) -> Result<String, AllocError> {
    let mut line = String::new(alloc);
    push_walk(&mut line, dom)?;
    Ok(line)
}

/// The number of the first element of an id.
fn found(alloc: Global, dom: &Dom, id: &str) -> Result<String, AllocError> {
    let mut line = String::from_str(alloc, "node")?;
    push_number(&mut line, dom.by_id(id))?;
    Ok(line)
}

/// What is asked of a node by its number.
fn of_node(alloc: Global, dom: &Dom, what: &str, node: i64) -> Result<String, AllocError> {
    if node < 0 || node >= i64::from(dom.len()) {
        return String::from_str(alloc, "?");
    }
    let node = NodeId(node as u32);
    if what == "links" {
        links(alloc, dom, node)
    } else {
        facts(alloc, dom, node)
    }
}

/// The answer to a question about a document.
fn asked(alloc: Global, dom: &Dom, parts: &[&str]) -> Result<String, AllocError> {
    match part(parts, 2) {
        "length" => format!(in alloc; "{}", dom.len()),
        "walk" => walk(alloc, dom),
        "id" => found(alloc, dom, part(parts, 3)),
        what => of_node(alloc, dom, what, number(part(parts, 3))),
    }
}

/// The answer to a question about the document of its steps.
fn of_grown(alloc: Global, dom: &mut Dom, parts: &[&str]) -> Result<String, AllocError> {
    match grow_all(alloc, dom, part(parts, 1)) {
        Some(()) => asked(alloc, dom, parts),
        None => String::from_str(alloc, "no document"),
    }
}

/// The answer to a question about a document of some steps.
pub(crate) fn answer(alloc: Global, parts: &[&str]) -> Result<String, AllocError> {
    match Dom::new(alloc) {
        Ok(mut dom) => of_grown(alloc, &mut dom, parts),
        Err(_) => String::from_str(alloc, "no document"),
    }
}
