//! The tokens and the tree of an HTML text.

use bk_num::ids::NodeId;
use dom::{Dom, DomErr};
use html_tok::{Attrs, Token, TokenKind, Tokens};
use html_tree::read_html;
use rows::{escaped, number, part, push_all, unescaped};
use std::alloc::{AllocError, Global};

fn push_attributes(line: &mut String, attributes: &str) -> Result<(), AllocError> {
    let mut attributes = Attrs::new(attributes);
    for _ in 0..u64::MAX {
        let Some((name, value)) = attributes.next() else {
            break;
        };
        push_all(line, &["(", name, ")[", value, "]"])?;
    }
    Ok(())
}

/// A token: its kind and its bytes; of a tag its name, and its attributes.
fn push_token(line: &mut String, token: &Token<'_>) -> Result<(), AllocError> {
    let (kind, text, attributes) = match token.kind {
        TokenKind::Text => ("T", token.slice, ""),
        TokenKind::Raw => ("R", token.slice, ""),
        TokenKind::Skip => ("S", token.slice, ""),
        TokenKind::End { name } => ("E", name, ""),
        TokenKind::Start { name, attrs } => ("B", name, attrs),
    };
    push_all(line, &["|", kind, ":", text])?;
    push_attributes(line, attributes)
}

/// Puts `!` where a token doesn't stand after those before it.
fn push_misplaced(
    line: &mut String,
    text: &str,
    length: usize,
    token: &Token<'_>,
) -> Result<(), AllocError> {
    let rest = text.as_bytes().get(length..).unwrap_or(&[]);
    if token.at == length && rest.starts_with(token.slice.as_bytes()) {
        return Ok(());
    }
    line.push_str("!")
}

/// The tokens of a text, each before a `|`; `!` where one doesn't stand after those before it, and at the end where
/// joined they aren't the text.
fn push_tokens(line: &mut String, text: &str) -> Result<(), AllocError> {
    let mut tokens = Tokens::new(text);
    let mut length = 0_usize;
    for _ in 0..u64::MAX {
        let Some(token) = tokens.next() else {
            break;
        };
        push_token(line, &token)?;
        push_misplaced(line, text, length, &token)?;
        length = length.saturating_add(token.slice.len());
    }
    line.push_str(if length == text.len() { "|" } else { "|!" })
}

fn tokens(alloc: Global, text: &str) -> Result<String, AllocError> {
    let mut line = String::new(alloc);
    push_tokens(&mut line, text)?;
    escaped(alloc, line.as_str())
}

fn push_attribute(line: &mut String, name: &str, value: Option<&str>) -> Result<(), AllocError> {
    match value {
        Some(value) => push_all(line, &["[", name, "=", value, "]"]),
        None => Ok(()),
    }
}

/// A node: its name with its attributes `a` and `b`, or its text.
fn push_node(line: &mut String, dom: &Dom, node: NodeId) -> Result<(), AllocError> {
    if node.0 >= dom.len() {
        return Ok(());
    }
    line.push_str(dom.name(node).unwrap_or(""))?;
    if let Some(text) = dom.text(node) {
        push_all(line, &["'", text, "'"])?;
    }
    push_attribute(line, "a", dom.attr(node, "a"))?;
    push_attribute(line, "b", dom.attr(node, "b"))
}

/// Closes elements down to a depth.
fn push_closed(line: &mut String, from: u8, to: u8) -> Result<(), AllocError> {
    for _ in to..from {
        line.push_str(")")?;
    }
    Ok(())
}

/// What stands between a node and the next one, by their depths.
fn push_between(line: &mut String, depth: u8, next: u8) -> Result<(), AllocError> {
    if next > depth {
        return line.push_str("(");
    }
    push_closed(line, depth, next)?;
    line.push_str(" ")
}

/// The nodes by their numbers, which are in tree order; those inside an element stand in parentheses.
fn push_tree(line: &mut String, dom: &Dom) -> Result<(), AllocError> {
    let mut depth = 0;
    for index in 0..dom.len() {
        let next = dom.depth(NodeId(index));
        if index > 0 {
            push_between(line, depth, next)?;
        }
        push_node(line, dom, NodeId(index))?;
        depth = next;
    }
    push_closed(line, depth, 1)
}

fn tree(alloc: Global, dom: &Dom) -> Result<String, AllocError> {
    let mut line = String::new(alloc);
    push_tree(&mut line, dom)?;
    escaped(alloc, line.as_str())
}

/// How many nodes a document has, or its tree.
fn of_document(alloc: Global, dom: &Dom, counts: bool) -> Result<String, AllocError> {
    if counts {
        format!(in alloc; "{}", dom.len())
    } else {
        tree(alloc, dom)
    }
}

/// A document in short, or why there is none.
fn read(alloc: Global, text: &str, counts: bool) -> Result<String, AllocError> {
    match read_html(alloc, text) {
        Ok(dom) => of_document(alloc, &dom, counts),
        Err(DomErr::NoMemory) => Err(AllocError),
        Err(err) => format!(in alloc; "{err:?}"),
    }
}

/// How many nodes the copies of a text have.
fn copies(alloc: Global, text: &str, count: i64) -> Result<String, AllocError> {
    let copies = text.repeat(alloc, count.clamp(0, 1_000_000) as usize)?;
    read(alloc, copies.as_str(), true)
}

fn of_text(alloc: Global, text: &str, parts: &[&str]) -> Result<String, AllocError> {
    match part(parts, 0) {
        "tokens" => tokens(alloc, text),
        "html" => read(alloc, text, false),
        _ => copies(alloc, text, number(part(parts, 2))),
    }
}

/// The answer to a question about an HTML text.
pub(crate) fn answer(alloc: Global, parts: &[&str]) -> Result<String, AllocError> {
    let text = unescaped(alloc, part(parts, 1))?;
    of_text(alloc, text.as_str(), parts)
}
