//! Generated texts: what a list of content prints at an element, and what a whole document generates.

ghost use Rattle.std.specs.Prelude.{◌<◌, length};

use crate::documents::Styled;
use crate::questions::{Question, cut, node_of};
use bk_num::ids::NodeId;
use bk_num::items::Items;
use bk_num::name::{Name, NoMem};
use bk_num::values::{NumStyle, Pseudo};
use counters::at::CounterAt;
use counters::number::number_all;
use css_content::content::{ContentPlace, content_list};
use css_words::reader::{Reader, Skipped};
use css_words::unread::Unread;
use gen_text::eval::eval;
use gen_text::references::targets;
use gen_text::table::{Entry, Table};
use gen_text::texts::{Texts, assigned_strings, generated_text};
use indexmap::IndexSet;
use rows::{escaped, number};
use std::alloc::Global;
use style::content::{Content, Keyword, Part};

/// What stands in margin boxes alone: a named string, the page's number, and how many pages there are.
fn page_parts(alloc: Global) -> Result<Content, NoMem> {
    let name = Name::new(alloc, "string")?;
    let mut parts = Vec::new(alloc);
    parts.push(Part::Running(name, Keyword::First))?;
    parts.push(Part::Page(NumStyle::Decimal))?;
    parts.push(Part::Pages(NumStyle::Decimal))?;
    Ok(Content::of(parts))
}

/// A list of content as CSS writes it: of `string-set` where it has `content()`, of `content` else.
fn read_list(alloc: Global, list: &str) -> Result<Content, Unread> {
    let mut reader = Reader::new(list, Skipped::CommentsAndSpaces);
    let place = if list.contains("content(") {
        ContentPlace::StringSet
    } else {
        ContentPlace::Content
    };
    content_list(alloc, &mut reader, place)
}

/// A list of content, where `page parts` stands for what margin boxes have.
fn content_of(alloc: Global, list: &str) -> Result<Content, Unread> {
    match list {
        "" => Ok(Content::of(Vec::new(alloc))),
        "page parts" => page_parts(alloc).map_err(Unread::from),
        _ => read_list(alloc, list),
    }
}

fn entry(node: &str, page: &str) -> Entry {
    Entry {
        node: node_of(node),
        number: number(page),
    }
}

/// The pages of two elements.
fn table_with(alloc: Global, first: Entry, second: Entry) -> Result<Table, NoMem>
    requires { first.node.0 < second.node.0 }
{
    let mut entries = Items::new(alloc);
    entries.push(first)?;
    entries.push(second)?;
    Ok(Table::of(entries))
}

/// The pages of two elements, `NODE PAGE NODE PAGE`, in the order of their numbers; of none where it has another form.
fn table_of(alloc: Global, pages: &str) -> Result<Table, NoMem> {
    let (first, rest) = cut(pages, ' ');
    let (first_page, rest) = cut(rest, ' ');
    let (second, second_page) = cut(rest, ' ');
    let (first, second) = (entry(first, first_page), entry(second, second_page));
    if first.node.0 < second.node.0 {
        table_with(alloc, first, second)
    } else {
        Ok(Table::of(Items::new(alloc)))
    }
}

/// What a list prints at an element.
fn print_list(
    alloc: Global,
    styled: &Styled<'_>,
    counters: &CounterAt,
    table: &Table,
    at: &str,
    list: &Content,
) -> Result<Name, NoMem> {
    let node = node_of(at);
    if node.0 >= styled.dom.len() {
        return Err(NoMem);
    }
    let (dom, styles) = (styled.dom, styled.styles);
    let pseudo = Pseudo::Element;
    eval(alloc, dom, styles, node, pseudo, list, counters, table)
}

fn push_quoted(alloc: Global, answer: &mut String, text: &str) -> Result<(), NoMem> {
    let text = escaped(alloc, text)?;
    Ok(write!(answer, "\"{text}\"")?)
}

fn push_printed(
    alloc: Global,
    answer: &mut String,
    styled: &Styled<'_>,
    counters: &CounterAt,
    table: &Table,
    at: &str,
    list: &Content,
) -> Result<(), NoMem> {
    let text = print_list(alloc, styled, counters, table, at, list)?;
    push_quoted(alloc, answer, text.as_str())
}

fn push_counted(
    alloc: Global,
    answer: &mut String,
    styled: &Styled<'_>,
    table: &Table,
    at: &str,
    list: &Content,
) -> Result<(), NoMem> {
    let counters = number_all(alloc, styled.dom, styled.styles)?;
    push_printed(alloc, answer, styled, &counters, table, at, list)
}

fn push_list(
    alloc: Global,
    answer: &mut String,
    styled: &Styled<'_>,
    question: &Question<'_>,
    list: &Content,
) -> Result<(), NoMem> {
    let table = table_of(alloc, question.third)?;
    push_counted(alloc, answer, styled, &table, question.fourth, list)
}

/// What a list of content prints at an element, where some elements stand on some pages.
pub(crate) fn push_content(
    alloc: Global,
    answer: &mut String,
    styled: &Styled<'_>,
    question: &Question<'_>,
) -> Result<(), NoMem> {
    match content_of(alloc, question.fifth) {
        Ok(list) => push_list(alloc, answer, styled, question, &list),
        Err(Unread::NoReading) => Ok(answer.push('?')?),
        Err(Unread::NoMemory) => Err(NoMem),
    }
}

fn push_text(alloc: Global, line: &mut String, before: &str, text: &Name) -> Result<(), NoMem> {
    if text.as_str().is_empty() {
        return Ok(());
    }
    write!(line, " {before} ")?;
    push_quoted(alloc, line, text.as_str())
}

/// What a pseudo-element prints, if it prints something.
fn push_pseudo(
    alloc: Global,
    line: &mut String,
    texts: &Texts<'_>,
    node: NodeId,
    pseudo: Pseudo,
    before: &str,
) -> Result<(), NoMem>
    requires { node.0 < length texts.now.dom.now }
{
    let text = generated_text(alloc, texts, node, pseudo)?;
    push_text(alloc, line, before, &text)
}

/// What the pseudo-elements of a node print.
fn push_pseudos(
    alloc: Global,
    line: &mut String,
    texts: &Texts<'_>,
    node: NodeId,
) -> Result<(), NoMem>
    requires { node.0 < length texts.now.dom.now }
{
    push_pseudo(alloc, line, texts, node, Pseudo::Before, "before")?;
    push_pseudo(alloc, line, texts, node, Pseudo::After, "after")?;
    push_pseudo(alloc, line, texts, node, Pseudo::Call, "call")?;
    push_pseudo(alloc, line, texts, node, Pseudo::Marker, "marker")
}

fn push_strings(alloc: Global, line: &mut String, strings: &[(Name, Name)]) -> Result<(), NoMem> {
    for string in strings {
        push_text(alloc, line, string.0.as_str(), &string.1)?;
    }
    Ok(())
}

/// The texts of a node's pseudo-elements, and the strings that it assigns, if there are any; and what stands before
/// those of the next node.
fn push_texts<'b>(
    alloc: Global,
    answer: &mut String,
    between: &'b str,
    texts: &Texts<'_>,
    node: NodeId,
) -> Result<&'b str, NoMem>
    requires { node.0 < length texts.now.dom.now }
{
    let mut line = String::new(alloc);
    push_pseudos(alloc, &mut line, texts, node)?;
    let strings = assigned_strings(alloc, texts, node)?;
    push_strings(alloc, &mut line, strings.as_slice())?;
    if line.is_empty() && strings.as_slice().is_empty() {
        return Ok(between);
    }
    write!(answer, "{between}{}{line}", node.0)?;
    Ok(", ")
}

fn push_all(alloc: Global, answer: &mut String, texts: &Texts<'_>) -> Result<(), NoMem> {
    let mut between = "";
    for index in 0..texts.dom.len() {
        between = push_texts(alloc, answer, between, texts, NodeId(index))?;
    }
    Ok(())
}

fn add_names(
    alloc: Global,
    asked: &mut IndexSet<String>,
    sets: &[(Name, Content)],
) -> Result<(), NoMem> {
    for set in sets {
        let name = String::from_str(alloc, set.0.as_str())?;
        match asked.insert_full(name) {
            Ok(_) => {}
            Err(_) => return Err(NoMem),
        }
    }
    Ok(())
}

/// The names of all strings that elements set.
fn names_set(alloc: Global, styled: &Styled<'_>) -> Result<IndexSet<String>, NoMem> {
    let mut asked = IndexSet::new(alloc);
    for index in 0..styled.dom.len() {
        if let Some(style) = styled.styles.of(NodeId(index), Pseudo::Element) {
            add_names(alloc, &mut asked, style.string_set.as_slice())?;
        }
    }
    Ok(asked)
}

fn push_by_counters(
    alloc: Global,
    answer: &mut String,
    styled: &Styled<'_>,
    counters: &CounterAt,
    table: &Table,
) -> Result<(), NoMem> {
    let asked = names_set(alloc, styled)?;
    let texts = Texts {
        dom: styled.dom,
        styles: styled.styles,
        counters,
        table,
        asked: &asked,
    };
    push_all(alloc, answer, &texts)
}

fn push_by_table(
    alloc: Global,
    answer: &mut String,
    styled: &Styled<'_>,
    table: &Table,
) -> Result<(), NoMem> {
    let counters = number_all(alloc, styled.dom, styled.styles)?;
    push_by_counters(alloc, answer, styled, &counters, table)
}

/// What a document generates, where some elements stand on some pages.
pub(crate) fn push_generated(
    alloc: Global,
    answer: &mut String,
    styled: &Styled<'_>,
    question: &Question<'_>,
) -> Result<(), NoMem> {
    let table = table_of(alloc, question.third)?;
    push_by_table(alloc, answer, styled, &table)
}

fn push_nodes(answer: &mut String, nodes: &[NodeId]) -> Result<(), NoMem> {
    let mut between = "";
    for node in nodes {
        write!(answer, "{between}{}", node.0)?;
        between = " ";
    }
    Ok(())
}

/// The elements that the page references of a document lead to.
pub(crate) fn push_targets(
    alloc: Global,
    answer: &mut String,
    styled: &Styled<'_>,
) -> Result<(), NoMem> {
    let nodes = targets(alloc, styled.dom, styled.styles)?;
    push_nodes(answer, nodes.as_slice())
}
