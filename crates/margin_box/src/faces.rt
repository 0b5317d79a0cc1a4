//! The faces that margin boxes choose, each chosen once for the pages of a name that have one cell.

ghost use Rattle.std.specs.Prelude.{◌≡◌, ◌<◌, ◌≤ℤ◌, ◌++◌, ◌∷◌, [], None, Some, pos, option_map, IfOk, IfSome, OnErr, OnOk};
ghost use Rattle.std.specs.Map.{lookup};
ghost use Rattle.boxes.specs.Table.{cell_of};
ghost use Rattle.page_ctx.specs.Margins.{MarginStyleOf, style_in, style_of};
ghost use Rattle.margin_box.specs.Chosen.{AreChosen, AreFacesOf, IsFaceOf, is_same};

use crate::items::Margins;
use crate::keys::PageKey;
use bk_num::ids::FaceId;
use bk_num::name::NoMem;
use boxes::page::Page;
use boxes::table::cell_place;
use css_rules::margin_boxes::MARGIN_BOXES;
use indexmap::IndexMap;
use metrics::chosen::choose;
use page_ctx::margins::MarginStyle;
use std::alloc::Global;
use std::marker::Model;

/// The faces of the margin boxes of a page by their numbers. A box without content may have any.
pub(crate) type BoxFaces = [FaceId; MARGIN_BOXES];

/// The faces that the margin boxes of pages have chosen, kept for the pages of a name that have one cell: their boxes
/// have the same styles, so the families of each are gone through once. Contracts see the pages with the faces.
#[derive(Drop)]
pub struct MarginFaces {
    chosen: IndexMap<PageKey, BoxFaces>,
}

impl Model for MarginFaces {
    ghost use Rattle.std.specs.Prelude.{List};
    ghost use Rattle.bk_num.specs.declared.ids.FaceId.{FaceId};
    ghost use Rattle.margin_box.specs.declared.keys.PageKey.{PageKey};

    ghost Value = { List (PageKey × List FaceId) };

    ghost view = { λ f. f.chosen.entries };
}

impl MarginFaces {
    /// No faces, which are right for any pages. It takes no memory.
    pub fn new(alloc: Global) -> MarginFaces
        ensures { result ≡ [] }
    {
        MarginFaces {
            chosen: IndexMap::new(alloc),
        }
    }
}

/// The style of a margin box with the face that it chooses.
#[derive(Clone, Copy)]
pub(crate) struct FacedStyle<'a> {
    pub(crate) style: &'a MarginStyle<'a>,
    pub(crate) face: FaceId,
}

/// The faces that are kept for a key.
fn find(chosen: &IndexMap<PageKey, BoxFaces>, key: PageKey) -> Option<BoxFaces>
    ensures { result ≡ lookup (is_same key) chosen.now.entries }
{
    match chosen.get(&key) {
        Some(faces) => Some(*faces),
        None => None,
    }
}

/// Keeps the faces of a key that has none.
fn put(chosen: &mut IndexMap<PageKey, BoxFaces>, key: PageKey, faces: BoxFaces) -> Result<(), NoMem>
    requires { lookup (is_same key) chosen.old.entries ≡ None }
    ensures kept { OnOk result (chosen.new.entries ≡ chosen.old.entries ++ (key, faces) ∷ []) }
    ensures same { OnErr result (chosen.new.entries ≡ chosen.old.entries) }
{
    match chosen.insert(key, faces) {
        Ok(_) => Ok(()),
        Err(_) => Err(NoMem),
    }
}

/// The key of a page.
fn key_of(page: &Page) -> PageKey
    ensures { result ≡ record { name = page.now.name.0; cell = cell_of page.now.index page.now.kind } }
{
    PageKey {
        name: page.name.0,
        cell: cell_place(page.index, page.kind).number(),
    }
}

/// The face that the style of a margin box on a page chooses.
fn face_at(margins: &Margins<'_>, page: &Page, place: u32) -> FaceId
    ensures { (s : MarginStyleOf) →
        style_of margins.now.styles.now.boxes page.now.index page.now.name page.now.kind place ≡ Some s →
        IsFaceOf margins.now.faces.now s result }
{
    let boxes = &margins.styles.boxes;
    match boxes.of(page.index, page.name, page.kind, place) {
        Some(style) => choose(margins.faces, style.families, style.italic, style.weight),
        None => FaceId(0),
    }
}

/// The faces that the styles of the margin boxes on a page choose.
fn chosen_faces(margins: &Margins<'_>, page: &Page) -> BoxFaces
    ensures { AreFacesOf margins.now.faces.now
        (style_of margins.now.styles.now.boxes page.now.index page.now.name page.now.kind) result }
{
    let mut faces = [FaceId(0); MARGIN_BOXES];
    for place in 0..MARGIN_BOXES {
        faces[place] = face_at(margins, page, place as u32);
    }
    faces
}

/// The faces of the margin boxes on a page: those that are kept, or else those that the boxes' styles choose, and these
/// are kept.
pub(crate) fn faces_on(
    chosen: &mut MarginFaces,
    margins: &Margins<'_>,
    page: &Page,
) -> Result<BoxFaces, NoMem>
    requires { AreChosen margins.now.faces.now margins.now.styles.now.boxes chosen.old }
    ensures faces { IfOk result (λ faces. AreFacesOf margins.now.faces.now
        (style_of margins.now.styles.now.boxes page.now.index page.now.name page.now.kind) faces) }
    ensures chosen { AreChosen margins.now.faces.now margins.now.styles.now.boxes chosen.new }
{
    let key = key_of(page);
    if let Some(faces) = find(&chosen.chosen, key) {
        return Ok(faces);
    }
    let faces = chosen_faces(margins, page);
    put(&mut chosen.chosen, key, faces)?;
    Ok(faces)
}

/// The style of the box of a number on a page, if the box has content there, with its face.
pub(crate) fn faced_style<'a>(
    margins: &Margins<'a>,
    page: &Page,
    faces: &BoxFaces,
    place: usize,
) -> Option<FacedStyle<'a>>
    requires place { place < MARGIN_BOXES }
    requires faces { AreFacesOf margins.now.faces.now
        (style_of margins.now.styles.now.boxes page.now.index page.now.name page.now.kind) faces.now }
    ensures style { option_map (λ s. style_in s.style.now) result ≡
        style_of margins.now.styles.now.boxes page.now.index page.now.name page.now.kind place }
    ensures size { IfSome result (λ s. pos 0 ≤ℤ s.style.now.size) }
    ensures face { IfSome result (λ s. IsFaceOf margins.now.faces.now (style_in s.style.now) s.face) }
{
    let boxes = &margins.styles.boxes;
    let style = boxes.of(page.index, page.name, page.kind, place as u32)?;
    let face = faces[place];
    Some(FacedStyle { style, face })
}
