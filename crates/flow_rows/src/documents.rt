//! Documents and their flows: by the default sheet and an author's, in a face of 16 units to the em, each of whose
//! characters has 8 and a combining mark 0.

ghost use Rattle.std.specs.Prelude.{IfOk};
ghost use Rattle.box_gen.specs.Sources.{AreInRange};

use crate::flows::flow_text;
use crate::{seam_rows, trees};
use bk_num::items::Items;
use bk_num::name::NoMem;
use box_gen::build::build;
use boxes::flow::Flow;
use cascade::sheet::{Origin, ReadSheet, read_rules};
use computed::document::styles;
use computed::laws::styles_keep_ranges;
use counters::at::CounterAt;
use counters::number::number_all;
use css_rules::sheet::read_sheet;
use dom::Dom;
use gen_text::table::Table;
use gen_text::texts::Texts;
use html_tree::read_html;
use indexmap::IndexSet;
use metrics::{Faces, read_metrics};
use rows::{part, parts_from, unescaped};
use sheets::default_sheet::default_sheet;
use std::alloc::Global;
use style::names::Names;
use style::styles::Styles;

/// A face whose characters are half as wide as it is high, three quarters of it above the baseline.
const FACES: &str = "bookmetrics 1
face test normal 400 16 12 4 8
glyph 0300 036F 0
";

/// That face alone.
pub(crate) fn even_faces(alloc: Global) -> Result<Faces, NoMem> {
    match read_metrics(alloc, FACES) {
        Ok(faces) => Ok(faces),
        Err(_) => Err(NoMem),
    }
}

fn document(alloc: Global, html: &str) -> Result<Dom, NoMem> {
    let html = unescaped(alloc, html)?;
    match read_html(alloc, html.as_str()) {
        Ok(dom) => Ok(dom),
        Err(_) => Err(NoMem),
    }
}

fn authors_sheet(alloc: Global, text: &str) -> Result<ReadSheet, NoMem> {
    match read_sheet(alloc, text) {
        Ok(sheet) => read_rules(alloc, &sheet, Origin::Author),
        Err(_) => Err(NoMem),
    }
}

/// The default sheet, and above it the author's.
fn sheets_of(alloc: Global, text: &str) -> Result<Vec<ReadSheet>, NoMem> {
    let mut sheets = Vec::new(alloc);
    sheets.push(default_sheet(alloc)?)?;
    sheets.push(authors_sheet(alloc, text)?)?;
    Ok(sheets)
}

/// The styles of a document's nodes, and the names of its pages.
fn styles_of(alloc: Global, dom: &Dom, sheets: &[ReadSheet]) -> Result<(Styles, Names), NoMem>
    ensures { IfOk result (λ r. AreInRange r.0) }
{
    styles_keep_ranges();
    // a document is a tree
    let _count = dom.len();
    styles(alloc, dom, sheets)
}

/// The flow by styles and counters.
fn flow_by(
    alloc: Global,
    dom: &Dom,
    styles: &Styles,
    counters: &CounterAt,
    faces: &Faces,
) -> Result<Flow, NoMem>
    requires { AreInRange styles.now }
{
    let table = Table::of(Items::new(alloc));
    let asked = IndexSet::new(alloc);
    let texts = Texts {
        dom,
        styles,
        counters,
        table: &table,
        asked: &asked,
    };
    match build(alloc, &texts, faces, None) {
        Ok(flow) => Ok(flow),
        Err(_) => Err(NoMem),
    }
}

fn flow_in(alloc: Global, dom: &Dom, styles: &Styles, faces: &Faces) -> Result<Flow, NoMem>
    requires { AreInRange styles.now }
{
    let counters = number_all(alloc, dom, styles)?;
    flow_by(alloc, dom, styles, &counters, faces)
}

fn flow_of(alloc: Global, dom: &Dom, styles: &Styles) -> Result<Flow, NoMem>
    requires { AreInRange styles.now }
{
    let faces = even_faces(alloc)?;
    flow_in(alloc, dom, styles, &faces)
}

/// The answer to a question of a flow.
fn of_flow(alloc: Global, flow: &Flow, names: &Names, parts: &[&str]) -> Result<String, NoMem> {
    let at = part(parts, 3);
    match part(parts, 0) {
        "flow" => flow_text(alloc, flow),
        "seam" => seam_rows::seam_at(alloc, &flow.main, names, at),
        "room" => seam_rows::room_at(alloc, &flow.main, at),
        "level" => seam_rows::level_at(alloc, &flow.main, at, part(parts, 4), part(parts, 5)),
        call => trees::answer(alloc, &flow.main, call, parts_from(parts, 3)),
    }
}

fn of_styles(
    alloc: Global,
    dom: &Dom,
    styles: &Styles,
    names: &Names,
    parts: &[&str],
) -> Result<String, NoMem>
    requires { AreInRange styles.now }
{
    let flow = flow_of(alloc, dom, styles)?;
    of_flow(alloc, &flow, names, parts)
}

fn of_sheets(
    alloc: Global,
    dom: &Dom,
    sheets: &[ReadSheet],
    parts: &[&str],
) -> Result<String, NoMem> {
    let (styles, names) = styles_of(alloc, dom, sheets)?;
    of_styles(alloc, dom, &styles, &names, parts)
}

fn of_document(alloc: Global, dom: &Dom, sheet: &str, parts: &[&str]) -> Result<String, NoMem> {
    let sheets = sheets_of(alloc, sheet)?;
    of_sheets(alloc, dom, sheets.as_slice(), parts)
}

/// The answer to a question of a document by an author's sheet.
pub(crate) fn answer(
    alloc: Global,
    html: &str,
    sheet: &str,
    parts: &[&str],
) -> Result<String, NoMem> {
    let dom = document(alloc, html)?;
    of_document(alloc, &dom, sheet, parts)
}
