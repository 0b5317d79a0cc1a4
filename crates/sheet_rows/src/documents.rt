//! Documents of questions.

use crate::unanswered::{Answered, Unanswered};
use bk_num::ids::NodeId;
use dom::Dom;
use html_tree::read_html;
use std::alloc::Global;

/// A row of a document: the number of an element, what it gets (`e` an element, `t` a text, else an attribute of that
/// name), and the name, text or value.
fn grow(alloc: Global, dom: &mut Dom, row: &str) -> Answered {
    let (number, rest) = row.split_once(' ').unwrap_or((row, ""));
    let (kind, text) = rest.split_once(' ').unwrap_or((rest, ""));
    let node = NodeId(number.parse::<u32>().unwrap_or(u32::MAX));
    if node.0 >= dom.len() || dom.name(node).is_none() {
        return Err(Unanswered::Unknown);
    }
    let added = match kind {
        "e" => dom.add_element(alloc, node, text).is_ok(),
        "t" => dom.add_text(alloc, node, text).is_ok(),
        name => dom.add_attr(alloc, node, name, text).is_ok(),
    };
    if added {
        Ok(())
    } else {
        Err(Unanswered::Unknown)
    }
}

fn grow_all(alloc: Global, dom: &mut Dom, rows: &str) -> Answered {
    for row in rows.split(',') {
        grow(alloc, dom, row)?;
    }
    Ok(())
}

/// The document of rows that commas separate.
fn grown(alloc: Global, rows: &str) -> Result<Dom, Unanswered> {
    let mut dom = Dom::new(alloc)?;
    match grow_all(alloc, &mut dom, rows) {
        Ok(()) => Ok(dom),
        Err(e) => Err(e),
    }
}

/// A document by its rows, where the text begins with a digit, or of HTML.
pub(crate) fn document(alloc: Global, text: &str) -> Result<Dom, Unanswered> {
    if text.starts_with('0') {
        grown(alloc, text)
    } else {
        Ok(read_html(alloc, text)?)
    }
}
