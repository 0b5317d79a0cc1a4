//! The styles of margin boxes (css-page-3, page-margin boxes).

ghost use Rattle.std.specs.Prelude.{◌≡◌, ◌≤ℤ◌, ◌++◌, pos, map, option_map, option_to_list, slice_get, IfOk, IfSome, OnOk};
ghost use Rattle.style.specs.Styles.{initial_style};
ghost use Rattle.boxes.specs.Table.{row_of};
ghost use Rattle.page_ctx.specs.Winners.{applied_in, candidate_in};
ghost use Rattle.page_ctx.specs.Settings.{setting_in};
ghost use Rattle.page_ctx.specs.Groups.{declared_at};
ghost use Rattle.page_ctx.specs.Margins as spec;

use crate::applied::{AppliedPageRule, box_declared};
use crate::groups::kept_at;
pub use crate::margin_style::MarginStyle;
use crate::margin_style::{Alignment, MarginBox, PageSetting};
use crate::property::PageProperty;
use crate::settings::setting_by;
use crate::winner::{PageCandidate, value_of};
use bk_num::ids::NameId;
use bk_num::items::Items;
use bk_num::name::{Name, NoMem};
use bk_num::values::Align;
use boxes::frames::PageKind;
use boxes::table::cell_place;
use computed_values::fonts::used_line_height;
use computed_values::given::chosen;
use css_page::values::{PageLong, Upright};
use css_rules::margin_boxes::MARGIN_BOXES;
use std::alloc::Global;
use std::marker::Model;
use style::content::Part;
use style::long::Given;

const fn aligned(align: Align, upright: Upright) -> Alignment
    ensures { result ≡ spec.aligned align upright }
{
    Alignment { align, upright }
}

/// Where the text of the margin box of a number stands if nothing is declared; None past 15.
fn alignment_of(place: u32) -> Option<Alignment>
    ensures { result ≡ slice_get spec.alignments place }
{
    let alignments = [
        aligned(Align::Right, Upright::Middle),
        aligned(Align::Left, Upright::Middle),
        aligned(Align::Center, Upright::Middle),
        aligned(Align::Right, Upright::Middle),
        aligned(Align::Left, Upright::Middle),
        aligned(Align::Center, Upright::Top),
        aligned(Align::Center, Upright::Middle),
        aligned(Align::Center, Upright::Bottom),
        aligned(Align::Left, Upright::Middle),
        aligned(Align::Right, Upright::Middle),
        aligned(Align::Center, Upright::Middle),
        aligned(Align::Left, Upright::Middle),
        aligned(Align::Right, Upright::Middle),
        aligned(Align::Center, Upright::Bottom),
        aligned(Align::Center, Upright::Middle),
        aligned(Align::Center, Upright::Top),
    ];
    alignments.get(place as usize).copied()
}

fn align_by(own: Align, found: Option<&PageLong>) -> Align
    ensures { result ≡ spec.align_by own (option_map (λ l. l.now) found.entry) }
{
    match found {
        Some(PageLong::TextAlign(given)) => chosen(given, own, own),
        _ => own,
    }
}

fn upright_by(own: Upright, found: Option<&PageLong>) -> Upright
    ensures { result ≡ spec.upright_by own (option_map (λ l. l.now) found.entry) }
{
    match found {
        Some(PageLong::VerticalAlign(given)) => chosen(given, own, own),
        _ => own,
    }
}

fn content_by<'s>(found: Option<&'s PageLong>) -> Option<&'s [Part]>
    ensures { option_map (λ c. c.now) result ≡ spec.content_by (option_map (λ l. l.now) found.entry) }
{
    match found {
        Some(PageLong::Content(Given::Value(Some(content)))) => Some(content.as_slice()),
        _ => None,
    }
}

fn style_set<'s>(
    setting: &PageSetting<'s>,
    own: Alignment,
    declared: &[PageCandidate<'s>],
    content: &'s [Part],
) -> MarginStyle<'s>
    ensures { spec.style_in result ≡
        spec.style_set (setting_in setting.now) own (map candidate_in declared.now) content.entry.now }
{
    MarginStyle {
        content,
        align: align_by(own.align, value_of(PageProperty::TextAlign, declared)),
        upright: upright_by(own.upright, value_of(PageProperty::VerticalAlign, declared)),
        families: setting.families,
        italic: setting.italic,
        weight: setting.weight,
        size: setting.size,
        line_height: used_line_height(setting.size, &setting.line_height),
        color: setting.color,
    }
}

/// Appends the margin box of a number, if it has content, by what is declared for it. `initial` are the initial
/// families.
fn push_box<'s>(
    boxes: &mut Items<MarginBox<'s>>,
    page: &PageSetting<'s>,
    initial: &'s [Name],
    declared: &[PageCandidate<'s>],
    place: u32,
    own: Alignment,
) -> Result<(), NoMem>
    requires { initial.now ≡ initial_style.font_family }
    ensures { OnOk result (map spec.box_in boxes.new ≡ map spec.box_in boxes.old ++ option_to_list
        (option_map (spec.placed place) (spec.style_by (setting_in page.now) (map candidate_in declared.now) own))) }
{
    match content_by(value_of(PageProperty::Content, declared)) {
        Some(content) => {
            let setting = setting_by(page, initial, declared);
            let style = style_set(&setting, own, declared, content);
            boxes.push(MarginBox { place, style })
        }
        None => Ok(()),
    }
}

/// The same by what is kept for each box, and by rules.
fn push_place<'s>(
    alloc: Global,
    boxes: &mut Items<MarginBox<'s>>,
    page: &PageSetting<'s>,
    initial: &'s [Name],
    kept: &[Items<PageCandidate<'s>>],
    rules: &[AppliedPageRule<'s>],
    place: u32,
) -> Result<(), NoMem>
    requires { initial.now ≡ initial_style.font_family }
    ensures { OnOk result (map spec.box_in boxes.new ≡ map spec.box_in boxes.old ++ option_to_list (spec.box_at
        (spec.style_among (setting_in page.now)
        (declared_at (map (map candidate_in) kept.now) (map applied_in rules.now))) place)) }
{
    match alignment_of(place) {
        Some(own) => {
            let declared = box_declared(alloc, kept_at(kept, place), place, rules)?;
            push_box(boxes, page, initial, &declared, place, own)
        }
        None => Ok(()),
    }
}

/// The margin boxes that have content, in the order of their numbers, by what is kept for each box, and by rules.
/// `initial` are the initial families.
#[tactic(auto, unfolding(crate::specs::Margins::boxes_by))]
pub(crate) fn boxes_by<'s>(
    alloc: Global,
    page: &PageSetting<'s>,
    initial: &'s [Name],
    kept: &[Items<PageCandidate<'s>>],
    rules: &[AppliedPageRule<'s>],
) -> Result<Items<MarginBox<'s>>, NoMem>
    requires { initial.now ≡ initial_style.font_family }
    ensures { IfOk result (λ boxes. map spec.box_in boxes ≡ spec.boxes_by (spec.style_among (setting_in page.now)
        (declared_at (map (map candidate_in) kept.now) (map applied_in rules.now)))) }
{
    let mut boxes = Items::new(alloc);
    for place in 0..MARGIN_BOXES as u32 {
        push_place(alloc, &mut boxes, page, initial, kept, rules, place)?;
    }
    Ok(boxes)
}

/// The margin boxes that have content on the pages of a name, for each of six cells.
pub(crate) type BoxCells<'s> = Items<Items<MarginBox<'s>>>;

/// The styles of the margin boxes of all pages, where a name without cells has those of no name. Contracts see, by the
/// numbers of the names, for each of six cells the boxes that have content.
#[derive(Drop)]
pub struct MarginStyles<'s> {
    rows: Items<BoxCells<'s>>,
}

impl<'s> Model for MarginStyles<'s> {
    ghost use Rattle.std.specs.Prelude.{List, ℕ, map};
    ghost use Rattle.page_ctx.specs.Margins.{AreGoodStyles, MarginStyleOf, cells_in, filled};

    ghost Value = { List (List (List (ℕ × MarginStyleOf))) };

    ghost view = { λ m. filled (map cells_in m.rows) };

    ghost invariant = { λ m. AreGoodStyles (filled (map cells_in m.rows)) };
}

/// The style of the box of a number among those of a cell.
fn style_at<'a, 's>(boxes: &'a [MarginBox<'s>], place: u32) -> Option<&'a MarginStyle<'s>>
    ensures { option_map (λ s. spec.style_in s.now) result ≡ spec.style_at place (map spec.box_in boxes.entry.now) }
{
    for found in boxes {
        if found.place == place {
            return Some(&found.style);
        }
    }
    None
}

/// Cells, or those of no name where there are none.
fn or_cells<'a, 's>(first: &'a BoxCells<'s>, cells: &'a BoxCells<'s>) -> &'a BoxCells<'s>
    ensures { spec.cells_in result.now ≡ spec.or_cells (spec.cells_in first.entry.now) (spec.cells_in cells.entry.now) }
{
    if cells.as_slice().is_empty() {
        return first;
    }
    cells
}

/// The cells of a name by those of no name and its own, if they are there.
fn found_cells<'a, 's>(
    first: Option<&'a BoxCells<'s>>,
    cells: Option<&'a BoxCells<'s>>,
) -> Option<&'a BoxCells<'s>>
    ensures { option_map (λ c. spec.cells_in c.now) result ≡ spec.found_cells
        (option_map (λ c. spec.cells_in c.now) first.entry) (option_map (λ c. spec.cells_in c.now) cells.entry) }
{
    let first = first?;
    match cells {
        Some(cells) => Some(or_cells(first, cells)),
        None => Some(first),
    }
}

/// The cells of a number.
fn cells_at<'a, 's>(rows: &'a [BoxCells<'s>], number: usize) -> Option<&'a BoxCells<'s>>
    ensures { option_map (λ cells. cells.now) result ≡ slice_get rows.entry.now number }
{
    rows.get(number)
}

/// The boxes of the pages of a name, or else those of no name.
fn cells_of<'a, 's>(rows: &'a [BoxCells<'s>], name: NameId) -> Option<&'a BoxCells<'s>>
    ensures { option_map (λ cells. spec.cells_in cells.now) result ≡
        row_of (spec.filled (map spec.cells_in rows.entry.now)) name }
{
    found_cells(cells_at(rows, 0), cells_at(rows, name.0 as usize))
}

/// The style of the box of a number on the pages of an index, a name and a kind.
fn style_in<'a, 's>(
    rows: &'a [BoxCells<'s>],
    index: u32,
    name: NameId,
    kind: PageKind,
    place: u32,
) -> Option<&'a MarginStyle<'s>>
    ensures { option_map (λ s. spec.style_in s.now) result ≡
        spec.style_of (spec.filled (map spec.cells_in rows.entry.now)) index name kind place }
{
    let cells = cells_of(rows, name)?;
    let boxes = cells.as_slice().get(cell_place(index, kind).number())?;
    style_at(boxes.as_slice(), place)
}

impl<'s> MarginStyles<'s> {
    /// The styles of the names by their numbers. It takes no memory.
    pub(crate) fn of_names(rows: Items<BoxCells<'s>>) -> MarginStyles<'s>
        requires { spec.AreGoodStyles (spec.filled (map spec.cells_in rows)) }
        ensures { result ≡ spec.filled (map spec.cells_in rows.entry) }
    {
        MarginStyles { rows }
    }

    /// The style of the margin box at a place, from 0 to 15 in the order in which css-page-3 lists the boxes, on the
    /// pages of an index, a name and a kind. None where the box has no content, and past 15. A name past those of the
    /// rows counts as no name.
    /// It takes no memory.
    pub fn of(
        &self,
        index: u32,
        name: NameId,
        kind: PageKind,
        place: u32,
    ) -> Option<&MarginStyle<'s>>
        ensures style { option_map (λ s. spec.style_in s.now) result ≡ spec.style_of self.now index name kind place }
        ensures good { IfSome result (λ s. (pos 0 ≤ℤ s.now.size) × (pos 0 ≤ℤ s.now.line_height)) }
    {
        style_in(self.rows.as_slice(), index, name, kind, place)
    }
}
