//! Pages by their rules: frames, page boxes, and the styles of margin boxes.

use crate::notation::{count, unknown};
use bk_num::ids::NameId;
use bk_num::items::Items;
use bk_num::name::NoMem;
use boxes::frames::PageKind;
use boxes::table::PageCell;
use css_page::rules::{PageRule, read_page_rule};
use css_rules::sheet::read_sheet;
use page_ctx::margins::MarginStyle;
use page_ctx::resolve::{PageStyles, resolve};
use rows::unescaped;
use std::alloc::{AllocError, Global};
use style::content::Part;
use style::lists::Families;
use style::names::Names;

/// The page rules of a sheet.
pub(crate) fn rules_of(alloc: Global, text: &str) -> Result<Items<PageRule>, NoMem> {
    let Ok(sheet) = read_sheet(alloc, text) else {
        return Err(NoMem);
    };
    let mut rules = Items::new(alloc);
    for slice in &sheet.pages {
        if let Some(rule) = read_page_rule(alloc, slice)? {
            rules.push(rule)?;
        }
    }
    Ok(rules)
}

/// The names `n` and `m`, numbered 1 and 2.
fn names(alloc: Global) -> Result<Names, NoMem> {
    let mut names = Names::new(alloc);
    names.number(alloc, "n")?;
    names.number(alloc, "m")?;
    Ok(names)
}

/// A page's index, and by a letter its name and kind: `n` and `m` names, `x` one past them on a page of notes, `b` a
/// blank page, `-` a page without a name.
fn page_of(page: &str) -> (u32, NameId, PageKind) {
    let index = count(page.get(0..1).unwrap_or("0"));
    match page.get(1..2).unwrap_or("-") {
        "n" => (index, NameId(1), PageKind::Flow),
        "m" => (index, NameId(2), PageKind::Flow),
        "x" => (index, NameId(3), PageKind::Notes),
        "b" => (index, NameId(0), PageKind::Blank),
        _ => (index, NameId(0), PageKind::Flow),
    }
}

fn cell_at(styles: &PageStyles<'_>, page: &str) -> PageCell {
    let (index, name, kind) = page_of(page);
    styles.cell(index, name, kind)
}

/// Adds the top of a frame, in px where it has no fraction.
fn push_top(line: &mut String, top: i64) -> Result<(), AllocError> {
    let space = if line.is_empty() { "" } else { " " };
    let fraction = if top % 64 == 0 { "" } else { "+" };
    write!(line, "{space}{}{fraction}", top / 64)
}

/// The tops of the frames of pages, in px where they have no fraction.
fn tops(alloc: Global, styles: &PageStyles<'_>, pages: &str) -> Result<String, NoMem> {
    let mut line = String::new(alloc);
    for page in pages.split(' ') {
        push_top(&mut line, cell_at(styles, page).frame.top)?;
    }
    Ok(line)
}

/// The width and height of a page, its margins from the top round to the left, and the width and height of its frame,
/// in units.
fn page_box(alloc: Global, styles: &PageStyles<'_>, page: &str) -> Result<String, NoMem> {
    let cell = cell_at(styles, page);
    Ok(format!(in alloc;
        "{} {} {} {} {} {} {} {}",
        cell.width,
        cell.height,
        cell.frame.top,
        cell.right,
        cell.bottom,
        cell.frame.left,
        cell.frame.width,
        cell.frame.height
    )?)
}

/// The text of the first part of a box.
fn text_of<'s>(style: &MarginStyle<'s>) -> &'s str {
    match style.content.first() {
        Some(Part::Text(text)) => text.as_str(),
        _ => "?",
    }
}

/// The first family of a box and how many there are, its style and weight, its size and line height in units, and its
/// colour.
fn font_of(alloc: Global, style: &MarginStyle<'_>) -> Result<String, NoMem> {
    let family = match style.families.first() {
        Some(name) => name.as_str(),
        None => "",
    };
    let slant = if style.italic { "italic" } else { "normal" };
    let color = style.color;
    Ok(format!(in alloc;
        "{family}/{} {slant} {} {} {} {},{},{}",
        style.families.len(),
        style.weight,
        style.size.units(),
        style.line_height.units(),
        color.red,
        color.green,
        color.blue
    )?)
}

/// What is asked of a box that is there.
fn of_box(alloc: Global, style: &MarginStyle<'_>, call: &str) -> Result<String, NoMem> {
    match call {
        "box_font" => font_of(alloc, style),
        "box_place" => Ok(format!(in alloc; "{:?} {:?}", style.align, style.upright)?),
        _ => Ok(String::from_str(alloc, text_of(style))?),
    }
}

/// What is asked of the box with a number on a page, `-` where there is none.
fn at_box(alloc: Global, styles: &PageStyles<'_>, parts: &[&str]) -> Result<String, NoMem> {
    let [call, _, page, number] = parts else {
        return unknown(alloc);
    };
    let (index, name, kind) = page_of(page);
    match styles.boxes.of(index, name, kind, count(number)) {
        Some(style) => of_box(alloc, style, call),
        None => Ok(String::from_str(alloc, "-")?),
    }
}

/// What is asked of pages in these styles.
fn in_styles(alloc: Global, styles: &PageStyles<'_>, parts: &[&str]) -> Result<String, NoMem> {
    match parts {
        ["tops_of", _, pages] => tops(alloc, styles, pages),
        ["page_box", _, page] => page_box(alloc, styles, page),
        _ => at_box(alloc, styles, parts),
    }
}

/// What is asked of pages of these names by these rules.
fn by_names(
    alloc: Global,
    rules: &[PageRule],
    names: &Names,
    parts: &[&str],
) -> Result<String, NoMem> {
    let serif = Families::serif(alloc)?;
    let styles = resolve(alloc, rules, names, &serif)?;
    in_styles(alloc, &styles, parts)
}

/// What is asked of pages by these rules.
fn by_rules(alloc: Global, rules: &[PageRule], parts: &[&str]) -> Result<String, NoMem> {
    let names = names(alloc)?;
    by_names(alloc, rules, &names, parts)
}

/// The answer to a question about a sheet.
pub(crate) fn answer(alloc: Global, parts: &[&str]) -> Result<String, NoMem> {
    let sheet = unescaped(alloc, parts.get(1).unwrap_or(&""))?;
    let rules = rules_of(alloc, sheet.as_str())?;
    by_rules(alloc, rules.as_slice(), parts)
}
