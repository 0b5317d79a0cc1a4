//! The report of a book.

ghost use Rattle.std.specs.Prelude.{◌≡◌, ◌<◌, ◌+◌, ◌++◌, [], codes, map, unwrap_or, string_bytes, IfOk, OnOk};
ghost use Rattle.dom.specs.Nodes.{attribute_at};
ghost use Rattle.sheets.specs.Files.{file_texts};
ghost use Rattle.sheets.specs.List.{sheet_in};
ghost use Rattle.sheets.specs.Sheets.{element_sheets};
ghost use Rattle.unread_list.specs.FamilyViews.{finding_in};
ghost use Rattle.unread_list.specs.IdleViews.{idle_in};
ghost use Rattle.unread_list.specs.Steps.{part_in};
ghost use Rattle.unread.specs.Report as spec;

use crate::text::{push, push_number, push_shown};
use bk_io::texts::without_mark;
use bk_num::ids::NodeId;
use bk_num::name::NoMem;
use dom::Dom;
use metrics::Faces;
use sheets::ElementSheet;
use std::alloc::Global;
use unread_list::elements::{Idle, IdleElement, idle_elements};
use unread_list::families::findings;
use unread_list::finding::Finding;
use unread_list::part::Part;

/// The word for a part that has no reading.
fn part_word(part: &Part<'_>) -> &'static str
    ensures { result.now ≡ spec.part_word (part_in part.now) }
{
    match part {
        Part::Selectors(_) => ": selectors not read: ",
        Part::PageSelectors(_, _) => ": page selectors not read: ",
        Part::Declaration(_, _, _) => ": declaration not read: ",
        Part::AtRule(_) => ": at-rule not read: ",
        Part::Media(_) => ": media list not read: ",
        Part::NoBlock(_) => ": no block: ",
    }
}

/// The text of a part.
fn part_text<'a>(part: &Part<'a>) -> &'a str
    ensures { result.now ≡ spec.part_text (part_in part.now) }
{
    match part {
        Part::Selectors(text) => text,
        Part::PageSelectors(text, _) => text,
        Part::Declaration(_, text, _) => text,
        Part::AtRule(text) => text,
        Part::Media(text) => text,
        Part::NoBlock(text) => text,
    }
}

/// Appends a line.
fn push_line(
    out: &mut Vec<u8>,
    place: &str,
    line: usize,
    word: &str,
    text: &str,
) -> Result<(), NoMem>
    ensures { OnOk result (out.new.items ≡ out.old.items ++ spec.line_of place.now line word.now text.now) }
{
    push(out, place)?;
    push(out, ":")?;
    push_number(out, line as u64)?;
    push(out, word)?;
    push_shown(out, text)?;
    push(out, "\n")
}

/// Appends the line of what is found in a sheet.
fn push_finding(out: &mut Vec<u8>, place: &str, finding: &Finding<'_>) -> Result<(), NoMem>
    ensures { OnOk result (out.new.items ≡ out.old.items ++ spec.finding_line place.now (finding_in finding.now)) }
{
    match finding {
        Finding::Unread(placed) => push_line(
            out,
            place,
            placed.line,
            part_word(&placed.part),
            part_text(&placed.part),
        ),
        Finding::Family(line, name) => {
            push_line(
                out,
                place,
                *line,
                ": family without a face: ",
                name.as_str(),
            )
        }
    }
}

/// Appends the lines of a sheet.
fn push_sheet(
    alloc: Global,
    faces: &Faces,
    out: &mut Vec<u8>,
    place: &str,
    text: &str,
) -> Result<(), NoMem>
    ensures { OnOk result (out.new.items ≡ out.old.items ++ spec.sheet_lines faces.now place.now text.now) }
{
    let found = findings(alloc, faces, text)?;
    for finding in &found {
        push_finding(out, place, finding)?;
    }
    Ok(())
}

/// The place of a sheet: a word and its number.
fn place_of(alloc: Global, word: &str, number: u64) -> Result<String, NoMem>
    ensures { IfOk result (λ t. string_bytes t ≡ spec.place_of word.now number) }
{
    let mut place = String::from_str(alloc, word)?;
    let mut buffer = itoa::Buffer::new();
    place.push_str(buffer.format(number))?;
    Ok(place)
}

/// Appends the lines of a sheet of a number.
fn push_numbered(
    alloc: Global,
    faces: &Faces,
    out: &mut Vec<u8>,
    word: &str,
    number: u64,
    text: &str,
) -> Result<(), NoMem>
    ensures { OnOk result (out.new.items ≡
        out.old.items ++ spec.sheet_lines faces.now (spec.place_of word.now number) text.now) }
{
    let place = place_of(alloc, word, number)?;
    push_sheet(alloc, faces, out, place.as_str(), text)
}

/// Appends the lines of the files' sheets.
fn push_files(
    alloc: Global,
    faces: &Faces,
    out: &mut Vec<u8>,
    files: &[String],
) -> Result<(), NoMem>
    ensures { OnOk result (out.new.items ≡
        out.old.items ++ spec.sheets_lines faces.now (codes "sheet ") 1 (file_texts files.now)) }
{
    let mut number = 1;
    for file in files {
        push_numbered(
            alloc,
            faces,
            out,
            "sheet ",
            number,
            without_mark(file.as_str()),
        )?;
        number += 1;
    }
    Ok(())
}

/// Appends the lines of the sheets of `style` elements.
fn push_styles(
    alloc: Global,
    faces: &Faces,
    out: &mut Vec<u8>,
    sheets: &[ElementSheet],
) -> Result<(), NoMem>
    ensures { OnOk result (out.new.items ≡
        out.old.items ++ spec.sheets_lines faces.now (codes "style ") 1 (map (λ s. s.text) (map sheet_in sheets.now))) }
{
    let mut number = 1;
    for sheet in sheets {
        push_numbered(alloc, faces, out, "style ", number, sheet.text.as_str())?;
        number += 1;
    }
    Ok(())
}

/// The word for an element that does nothing.
fn idle_word(why: Idle) -> &'static str
    ensures { result.now ≡ spec.idle_word why }
{
    match why {
        Idle::Link => "html: link does nothing: ",
        Idle::Image => "html: img without alt: ",
        Idle::Table => "html: table is set as blocks: ",
        Idle::Style => "html: style not read, its media: ",
        Idle::Reference => "html: reference without a target: ",
    }
}

/// The attribute that tells which one it is.
fn idle_key(why: Idle) -> &'static str
    ensures { result.now ≡ spec.idle_key why }
{
    match why {
        Idle::Link => "href",
        Idle::Image => "src",
        Idle::Table => "id",
        Idle::Style => "media",
        Idle::Reference => "href",
    }
}

/// The value of an attribute of a node; nothing where it has none.
fn attribute<'a>(dom: &'a Dom, node: NodeId, key: &str) -> &'a str
    ensures { result.now ≡ unwrap_or (attribute_at dom.now node.0 key.now) [] }
{
    if node.0 >= dom.len() {
        return "";
    }
    match dom.attr(node, key) {
        Some(value) => value,
        None => "",
    }
}

/// Appends the line of an element that does nothing.
fn push_idle(dom: &Dom, out: &mut Vec<u8>, idle: &IdleElement) -> Result<(), NoMem>
    ensures { OnOk result (out.new.items ≡ out.old.items ++ spec.idle_line dom.now (idle_in idle.now)) }
{
    push(out, idle_word(idle.why))?;
    push_shown(out, attribute(dom, idle.element, idle_key(idle.why)))?;
    push(out, "\n")
}

/// Appends the lines of a document.
fn push_idles(alloc: Global, dom: &Dom, out: &mut Vec<u8>) -> Result<(), NoMem>
    ensures { OnOk result (out.new.items ≡ out.old.items ++ spec.idle_lines dom.now) }
{
    let found = idle_elements(alloc, dom)?;
    for idle in &found {
        push_idle(dom, out, idle)?;
    }
    Ok(())
}

/// The lines of a book, of which these are the sheets of its `style` elements.
pub(crate) fn report(
    alloc: Global,
    faces: &Faces,
    dom: &Dom,
    files: &[String],
    styles: &[ElementSheet],
) -> Result<Vec<u8>, NoMem>
    requires { map sheet_in styles.now ≡ element_sheets dom.now }
    ensures { IfOk result (λ v. v.items ≡ spec.report_of faces.now dom.now (file_texts files.now)) }
{
    let mut out = Vec::new(alloc);
    push_files(alloc, faces, &mut out, files)?;
    push_styles(alloc, faces, &mut out, styles)?;
    push_idles(alloc, dom, &mut out)?;
    Ok(out)
}
