//! Documents in their styles: by the default sheet, and by an author's.

use crate::questions::Question;
use crate::{counted, properties, texts};
use bk_num::name::NoMem;
use cascade::sheet::{Origin, ReadSheet, read_rules};
use computed::document::styles;
use css_rules::sheet::read_sheet;
use dom::Dom;
use html_tree::read_html;
use rows::unescaped;
use sheets::default_sheet::default_sheet;
use std::alloc::Global;
use style::names::Names;
use style::styles::Styles;

/// A document, its styles, and the names of its pages.
#[derive(Clone, Copy)]
pub(crate) struct Styled<'a> {
    pub(crate) dom: &'a Dom,
    pub(crate) styles: &'a Styles,
    pub(crate) names: &'a Names,
}

fn document(alloc: Global, html: &str) -> Result<Dom, NoMem> {
    let html = unescaped(alloc, html)?;
    match read_html(alloc, html.as_str()) {
        Ok(dom) => Ok(dom),
        Err(_) => Err(NoMem),
    }
}

fn authors_sheet(alloc: Global, text: &str) -> Result<ReadSheet, NoMem> {
    match read_sheet(alloc, text) {
        Ok(sheet) => read_rules(alloc, &sheet, Origin::Author),
        Err(_) => Err(NoMem),
    }
}

/// Puts the answer to a question of a document in its styles at the end.
fn of_styled(
    alloc: Global,
    answer: &mut String,
    styled: &Styled<'_>,
    question: &Question<'_>,
) -> Result<(), NoMem> {
    match question.call {
        "computed" => properties::push_computed(answer, styled, question),
        "names" => properties::push_names(answer, styled.names),
        "counter" => counted::push_values(alloc, answer, styled, question),
        "content" => texts::push_content(alloc, answer, styled, question),
        "generated" => texts::push_generated(alloc, answer, styled, question),
        _ => texts::push_targets(alloc, answer, styled),
    }
}

fn of_sheets(
    alloc: Global,
    answer: &mut String,
    dom: &Dom,
    sheets: &[ReadSheet],
    question: &Question<'_>,
) -> Result<(), NoMem> {
    let all = styles(alloc, dom, sheets)?;
    let styled = Styled {
        dom,
        styles: &all.0,
        names: &all.1,
    };
    of_styled(alloc, answer, &styled, question)
}

/// The default sheet, and above it the author's.
fn of_document(
    alloc: Global,
    answer: &mut String,
    dom: &Dom,
    question: &Question<'_>,
) -> Result<(), NoMem> {
    let sheets = [
        default_sheet(alloc)?,
        authors_sheet(alloc, question.second)?,
    ];
    of_sheets(alloc, answer, dom, &sheets, question)
}

/// Puts the answer to a question of a document by an author's sheet at the end.
pub(crate) fn push_answer(
    alloc: Global,
    answer: &mut String,
    question: &Question<'_>,
) -> Result<(), NoMem> {
    let dom = document(alloc, question.first)?;
    of_document(alloc, answer, &dom, question)
}
