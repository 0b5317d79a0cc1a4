//! The items of the margin boxes of a page.

ghost use Rattle.std.specs.Prelude.{◌≡◌, ◌<◌, ◌≤ℤ◌, ◌++◌, pos, length, option_map, string_bytes, All, IfOk, OnOk, IfSome};
ghost use Rattle.page_ctx.specs.Margins.{style_in, style_of};
ghost use Rattle.margin_box.specs.Areas.{IsGoodArea};
ghost use Rattle.margin_box.specs.Chosen.{AreChosen, AreFacesOf, IsFaceOf};
ghost use Rattle.margin_box.specs.Conditions.{CanShowMargins};
ghost use Rattle.margin_box.specs.Margins as spec;
ghost use Rattle.margin_box.specs.Margins.{HasFace, items_of, margins_in};

use crate::areas::areas_of;
use crate::faces::{BoxFaces, FacedStyle, MarginFaces, faced_style, faces_on};
use crate::line::{line_baseline, line_left};
use crate::text::box_text;
use bk_num::ids::FaceId;
use bk_num::name::{Name, NoMem};
use boxes::flow::Flow;
use boxes::leaf::Span;
use boxes::page::{Page, PageList};
use css_rules::margin_boxes::MARGIN_BOXES;
use metrics::Faces;
use page_ctx::margins::MarginStyle;
use page_ctx::resolve::PageStyles;
use paint::item::{Area, TextPlace};
use std::alloc::Global;
use strings::assigned::Strings;

/// What the margin boxes of a page list are printed with: the faces, the flow that stands on the pages, the pages with
/// their numbers, the running strings on them, and the page boxes and margin boxes of the page rules.
#[derive(Clone, Copy)]
pub struct Margins<'a> {
    pub faces: &'a Faces,
    pub flow: &'a Flow,
    pub list: &'a PageList,
    pub numbers: &'a [i64],
    pub strings: &'a Strings,
    pub styles: &'a PageStyles<'a>,
}

/// A text in a margin box, with its place and how it is painted.
#[derive(Drop)]
pub struct MarginText {
    pub style: TextPlace,
    pub text: Name,
}

/// The strut of a margin box in its face: its style as a span over no text.
fn strut_with(face: FaceId, style: &MarginStyle<'_>) -> Span
    ensures { result ≡ spec.strut_with face (style_in style.now) }
{
    Span {
        from: 0,
        to: 0,
        face,
        size: style.size,
        line_height: style.line_height,
        color: style.color,
        wrap: false,
        anywhere: false,
    }
}

/// Where a text stands in its box, and how it is painted.
fn placed_in(faces: &Faces, area: &Area, faced: FacedStyle<'_>, text: &str) -> TextPlace
    requires area { IsGoodArea area.now }
    requires size { pos 0 ≤ℤ faced.style.now.size }
    requires face { IsFaceOf faces.now (style_in faced.style.now) faced.face }
    ensures style { result ≡ spec.placed_in faces.now area.now (style_in faced.entry.style.now) text.now }
    ensures face { result.face.0 < length faces.now }
{
    let strut = strut_with(faced.face, faced.style);
    TextPlace {
        x: line_left(faces, &strut, area, faced.style.align, text),
        y: line_baseline(faces, &strut, area, faced.style.upright),
        face: strut.face,
        size: strut.size,
        color: strut.color,
    }
}

/// Adds a text in its box; an empty one is not printed.
fn push_text(
    items: &mut Vec<MarginText>,
    faces: &Faces,
    area: &Area,
    faced: FacedStyle<'_>,
    text: String,
) -> Result<(), NoMem>
    requires area { IsGoodArea area.now }
    requires size { pos 0 ≤ℤ faced.style.now.size }
    requires face { IsFaceOf faces.now (style_in faced.style.now) faced.face }
    requires faces { All (HasFace faces.now) items.old.items }
    ensures items { OnOk result (items_of faces.now items.new.items ≡ items_of faces.now items.old.items ++
        spec.shown_in faces.now area.now (style_in faced.entry.style.now) (string_bytes text)) }
    ensures faces { OnOk result (All (HasFace faces.now) items.new.items) }
{
    if text.is_empty() {
        return Ok(());
    }
    items.push(MarginText {
        style: placed_in(faces, area, faced, text.as_str()),
        text: Name::from_string(text),
    })?;
    Ok(())
}

/// Adds the text of a box on a page, if the box has content there.
fn push_box(
    alloc: Global,
    items: &mut Vec<MarginText>,
    margins: &Margins<'_>,
    page: usize,
    area: &Area,
    faced: Option<FacedStyle<'_>>,
) -> Result<(), NoMem>
    requires can { CanShowMargins margins.now }
    requires page { page < length margins.now.list.now.pages }
    requires area { IsGoodArea area.now }
    requires size { IfSome faced (λ s. pos 0 ≤ℤ s.style.now.size) }
    requires face { IfSome faced (λ s. IsFaceOf margins.now.faces.now (style_in s.style.now) s.face) }
    requires faces { All (HasFace margins.now.faces.now) items.old.items }
    ensures items { OnOk result (items_of margins.now.faces.now items.new.items
        ≡ items_of margins.now.faces.now items.old.items ++
        spec.styled_items (margins_in margins.now) page area.now (option_map (λ s. style_in s.style.now) faced.entry)) }
    ensures faces { OnOk result (All (HasFace margins.now.faces.now) items.new.items) }
{
    let Some(faced) = faced else {
        return Ok(());
    };
    let text = box_text(alloc, margins, page, faced.style.content)?;
    push_text(items, margins.faces, area, faced, text)
}

/// The texts of the margin boxes of a page, which have these areas and faces, in their order.
fn boxes_items(
    alloc: Global,
    margins: &Margins<'_>,
    number: usize,
    page: &Page,
    areas: &[Area; MARGIN_BOXES],
    faces: &BoxFaces,
) -> Result<Vec<MarginText>, NoMem>
    requires can { CanShowMargins margins.now }
    requires number { number < length margins.now.list.now.pages }
    requires areas { All IsGoodArea areas.now }
    requires chosen { AreFacesOf margins.now.faces.now
        (style_of margins.now.styles.now.boxes page.now.index page.now.name page.now.kind) faces.now }
    ensures items { IfOk result (λ v. items_of margins.now.faces.now v.items ≡
        spec.boxes_items (margins_in margins.now) number page.now areas.now) }
    ensures faces { IfOk result (λ v. All (HasFace margins.now.faces.now) v.items) }
{
    let mut items = Vec::new(alloc);
    for place in 0..MARGIN_BOXES {
        let faced = faced_style(margins, page, faces, place);
        push_box(alloc, &mut items, margins, number, &areas[place], faced)?;
    }
    Ok(items)
}

/// The texts of the margin boxes of a page, as `margin_items` gives them. The faces that boxes have chosen are kept
/// from page to page, those of these faces and page rules alone, so that the families of a box are gone through once
/// for all pages of a name that have one cell.
///
/// # Errors
///
/// `NoMem`.
#[tactic(auto, unfolding(crate::specs::Margins::margin_items))]
pub fn margin_items_with(
    alloc: Global,
    margins: &Margins<'_>,
    chosen: &mut MarginFaces,
    page: usize,
) -> Result<Vec<MarginText>, NoMem>
    requires can { CanShowMargins margins.now }
    requires chosen { AreChosen margins.now.faces.now margins.now.styles.now.boxes chosen.old }
    requires page { page < length margins.now.list.now.pages }
    ensures items { IfOk result (λ v. items_of margins.now.faces.now v.items ≡
        spec.margin_items (margins_in margins.now) page) }
    ensures faces { IfOk result (λ v. All (HasFace margins.now.faces.now) v.items) }
    ensures chosen { AreChosen margins.now.faces.now margins.now.styles.now.boxes chosen.new }
{
    let shown = &margins.list.pages.as_slice()[page];
    let cell = margins.styles.cell(shown.index, shown.name, shown.kind);
    let faces = faces_on(chosen, margins, shown)?;
    boxes_items(alloc, margins, page, shown, &areas_of(&cell), &faces)
}

/// The texts of the margin boxes of a page, which is named by its place in the list, from 0, in the order in which the
/// boxes are listed: from the page's top left corner clockwise (css-page-3, page-margin boxes). A box without content,
/// or whose text is empty, has none. A text is one line, never broken, and stands in its box as its style says.
///
/// # Errors
///
/// `NoMem`.
pub fn margin_items(
    alloc: Global,
    margins: &Margins<'_>,
    page: usize,
) -> Result<Vec<MarginText>, NoMem>
    requires can { CanShowMargins margins.now }
    requires page { page < length margins.now.list.now.pages }
    ensures items { IfOk result (λ v. items_of margins.now.faces.now v.items ≡
        spec.margin_items (margins_in margins.now) page) }
    ensures faces { IfOk result (λ v. All (HasFace margins.now.faces.now) v.items) }
{
    let mut chosen = MarginFaces::new(alloc);
    margin_items_with(alloc, margins, &mut chosen, page)
}
