//! The pages that the page rules of all sheets make: their table, and the styles of their margin boxes.

ghost use Rattle.std.specs.Prelude.{◌≡◌, ◌<◌, ◌||◌, ◌++◌, ◌∷◌, [], Some, IfOk, OnOk, fold, length, map, slice_get};
ghost use Rattle.std.specs.List.{All, list_any};
ghost use Rattle.std.specs.Str.{bytes_eq};
ghost use Rattle.std.specs.String.{string_bytes};
ghost use Rattle.style.specs.Styles.{initial_style};
ghost use Rattle.boxes.specs.Table.{cell_in, cell_of, row_of};
ghost use Rattle.page_seq.specs.Frames.{IsGoodTable};
ghost use Rattle.bk_num.specs.Names.{with_name};
ghost use Rattle.page_ctx.specs.Bounds.{AreGoodCells, HasGoodRows, IsGoodCell};
ghost use Rattle.page_ctx.specs.Groups.{AreGrouped, AreWinners};
ghost use Rattle.page_ctx.specs.Selectors.{all_asked};
ghost use Rattle.page_ctx.specs.Margins.{AreMarginStyles, boxes_by, boxes_of_name, cells_in, filled, margin_style};
ghost use Rattle.page_ctx.specs.Tables as spec;

use crate::applied::{applied_to, page_declared};
use crate::asked::asked_names;
use crate::cells::cell_by;
use crate::classes::PageClasses;
use crate::groups::{
    A_BLANK_LEFT_PAGE, A_BLANK_RIGHT_PAGE, A_LEFT_PAGE, A_RIGHT_PAGE, BLANK_PAGE_1, GroupedRules,
    PAGE_1, PageWinners, group_rules,
};
use crate::margins::{BoxCells, MarginStyles, boxes_by};
use crate::settings::page_setting;
use bk_num::ids::NameId;
use bk_num::items::Items;
use bk_num::name::NoMem;
use boxes::frames::PageKind;
use boxes::table::{PageCell, PageRow, PageTable};
use css_page::rules::PageRule;
use indexmap::IndexSet;
use named_lists::names::has_name;
use std::alloc::Global;
use style::lists::Families;
use style::names::Names;

/// Appends the margin boxes that have content on the pages of a name that have these pseudo-classes, and answers their
/// page box. `kept` is kept for such pages.
fn add_page<'s>(
    alloc: Global,
    boxes: &mut BoxCells<'s>,
    rules: &GroupedRules<'s>,
    classes: PageClasses,
    kept: &PageWinners<'s>,
    name: &str,
) -> Result<PageCell, NoMem>
    requires rules { AreGrouped rules.now }
    requires kept { AreWinners rules.now.index.rules.now classes kept.now }
    ensures cell { IfOk result (λ cell. cell ≡ spec.page_cell rules.now.index.rules.now name.now classes) }
    ensures boxes { IfOk result (λ cell. cells_in boxes.new ≡
        cells_in boxes.old ++ boxes_by (margin_style rules.now.index.rules.now name.now classes) ∷ []) }
    ensures good { IfOk result (λ cell. IsGoodCell cell) }
{
    let applied = applied_to(alloc, classes, rules.index.named(name))?;
    let declared = page_declared(alloc, kept.page.as_slice(), &applied)?;
    let setting = page_setting(rules.initial, &declared);
    let cell = cell_by(setting.size, &declared);
    boxes.push(boxes_by(
        alloc,
        &setting,
        rules.initial,
        kept.boxes.as_slice(),
        &applied,
    )?)?;
    Ok(cell)
}

/// Appends the margin boxes of the pages of a name, and answers their page boxes: page 1, another left page, another
/// right page, and the same three blank.
fn add_name<'s>(
    alloc: Global,
    boxes: &mut BoxCells<'s>,
    rules: &GroupedRules<'s>,
    name: &str,
) -> Result<PageRow, NoMem>
    requires { AreGrouped rules.now }
    ensures row { IfOk result (λ row. row ≡ spec.row_by rules.now.index.rules.now name.now) }
    ensures boxes { IfOk result (λ row. cells_in boxes.new ≡
        cells_in boxes.old ++ boxes_of_name rules.now.index.rules.now name.now) }
    ensures good { IfOk result (λ row. AreGoodCells row) }
{
    let kept = &rules.kept;
    let first = add_page(alloc, boxes, rules, PAGE_1, &kept.first, name)?;
    let left = add_page(alloc, boxes, rules, A_LEFT_PAGE, &kept.left, name)?;
    let right = add_page(alloc, boxes, rules, A_RIGHT_PAGE, &kept.right, name)?;
    let blank_first = add_page(alloc, boxes, rules, BLANK_PAGE_1, &kept.blank_first, name)?;
    let blank_left = add_page(
        alloc,
        boxes,
        rules,
        A_BLANK_LEFT_PAGE,
        &kept.blank_left,
        name,
    )?;
    let blank_right = add_page(
        alloc,
        boxes,
        rules,
        A_BLANK_RIGHT_PAGE,
        &kept.blank_right,
        name,
    )?;
    Ok(PageRow {
        cells: [first, left, right, blank_first, blank_left, blank_right],
    })
}

/// The text of one of the names.
fn text_at(names: &Names, number: u32) -> &str
    requires { number < length names.now }
    ensures { slice_get names.now number ≡ Some result.now }
{
    match names.text(NameId(number)) {
        Some(text) => text,
        None => "",
    }
}

/// The rows of the names by their numbers.
#[derive(Drop)]
struct Rows<'s> {
    table: Items<PageRow>,
    boxes: Items<BoxCells<'s>>,
}

/// Appends the row of a name, and the margin boxes of its pages, and answers the row.
fn push_row<'s>(
    alloc: Global,
    rows: &mut Rows<'s>,
    rules: &GroupedRules<'s>,
    name: &str,
) -> Result<PageRow, NoMem>
    requires rules { AreGrouped rules.now }
    ensures row { IfOk result (λ row. row ≡ spec.row_by rules.now.index.rules.now name.now) }
    ensures table { IfOk result (λ row. rows.new.table ≡
        rows.old.table ++ spec.row_by rules.now.index.rules.now name.now ∷ []) }
    ensures boxes { IfOk result (λ row. map cells_in rows.new.boxes ≡
        map cells_in rows.old.boxes ++ boxes_of_name rules.now.index.rules.now name.now ∷ []) }
    ensures good { All AreGoodCells rows.old.table → IfOk result (λ row. All AreGoodCells rows.new.table) }
    ensures good_row { IfOk result (λ row. AreGoodCells row) }
{
    let mut boxes = Items::new(alloc);
    let row = add_name(alloc, &mut boxes, rules, name)?;
    rows.boxes.push(boxes)?;
    rows.table.push(row)?;
    Ok(row)
}

/// The same after the row of no name.
fn push_own<'s>(
    alloc: Global,
    rows: &mut Rows<'s>,
    rules: &GroupedRules<'s>,
    name: &str,
) -> Result<(), NoMem>
    requires rules { AreGrouped rules.now }
    requires first { slice_get (map cells_in rows.old.boxes) 0 ≡ Some (boxes_of_name rules.now.index.rules.now []) }
    ensures table { OnOk result (rows.new.table ≡
        rows.old.table ++ spec.row_by rules.now.index.rules.now name.now ∷ []) }
    ensures boxes { OnOk result (filled (map cells_in rows.new.boxes) ≡
        filled (map cells_in rows.old.boxes) ++ boxes_of_name rules.now.index.rules.now name.now ∷ []) }
    ensures first { OnOk result (slice_get (map cells_in rows.new.boxes) 0 ≡
        Some (boxes_of_name rules.now.index.rules.now [])) }
    ensures good { All AreGoodCells rows.old.table → OnOk result (All AreGoodCells rows.new.table) }
{
    push_row(alloc, rows, rules, name)?;
    Ok(())
}

/// Appends the row of no name for a name that no selector asks for; its margin boxes are those of no name.
fn push_same(alloc: Global, rows: &mut Rows<'_>, row: PageRow) -> Result<(), NoMem>
    ensures table { OnOk result (rows.new.table ≡ rows.old.table ++ row ∷ []) }
    ensures boxes { OnOk result (map cells_in rows.new.boxes ≡ map cells_in rows.old.boxes ++ [] ∷ []) }
{
    rows.boxes.push(Items::new(alloc))?;
    rows.table.push(row)?;
    Ok(())
}

/// Whether a selector asks for the name, or for the empty one.
fn has_rules(asked: &IndexSet<String>, name: &str) -> bool
    ensures { result ≡ (list_any (bytes_eq name.now) (map (λ k. string_bytes k) asked.now.keys) ||
        list_any (bytes_eq []) (map (λ k. string_bytes k) asked.now.keys)) }
{
    has_name(asked, name) || has_name(asked, "")
}

/// The same by whether a selector asks for the name. `row` is the row of no name.
fn push_name<'s>(
    alloc: Global,
    rows: &mut Rows<'s>,
    rules: &GroupedRules<'s>,
    asked: &IndexSet<String>,
    row: PageRow,
    name: &str,
) -> Result<(), NoMem>
    requires rules { AreGrouped rules.now }
    requires asked { map (λ k. string_bytes k) asked.now.keys ≡
        fold with_name [] (all_asked rules.now.index.rules.now) }
    requires row { row ≡ spec.row_by rules.now.index.rules.now [] }
    requires good { AreGoodCells row }
    requires first { slice_get (map cells_in rows.old.boxes) 0 ≡ Some (boxes_of_name rules.now.index.rules.now []) }
    ensures table { OnOk result (rows.new.table ≡
        rows.old.table ++ spec.row_by rules.now.index.rules.now name.now ∷ []) }
    ensures boxes { OnOk result (filled (map cells_in rows.new.boxes) ≡
        filled (map cells_in rows.old.boxes) ++ boxes_of_name rules.now.index.rules.now name.now ∷ []) }
    ensures first { OnOk result (slice_get (map cells_in rows.new.boxes) 0 ≡
        Some (boxes_of_name rules.now.index.rules.now [])) }
    ensures good { All AreGoodCells rows.old.table → OnOk result (All AreGoodCells rows.new.table) }
{
    if has_rules(asked, name) {
        return push_own(alloc, rows, rules, name);
    }
    push_same(alloc, rows, row)
}

/// Number 0 is no name.
fn rows_by<'s>(
    alloc: Global,
    rules: &GroupedRules<'s>,
    asked: &IndexSet<String>,
    names: &Names,
) -> Result<Rows<'s>, NoMem>
    requires rules { AreGrouped rules.now }
    requires asked { map (λ k. string_bytes k) asked.now.keys ≡
        fold with_name [] (all_asked rules.now.index.rules.now) }
    ensures table { IfOk result (λ rows. rows.table ≡
        map (spec.row_by rules.now.index.rules.now) (spec.texts_of names.now)) }
    ensures boxes { IfOk result (λ rows. filled (map cells_in rows.boxes) ≡
        map (boxes_of_name rules.now.index.rules.now) (spec.texts_of names.now)) }
    ensures good { IfOk result (λ rows. All AreGoodCells rows.table) }
{
    let table = Items::new(alloc);
    let boxes = Items::new(alloc);
    let mut rows = Rows { table, boxes };
    let row = push_row(alloc, &mut rows, rules, "")?;
    for number in 1..names.len() {
        let name = text_at(names, number);
        push_name(alloc, &mut rows, rules, asked, row, name)?;
    }
    Ok(rows)
}

/// The page box of each page, and the styles of its margin boxes, which borrow from the page rules. Page boxes are at
/// most 2^40 units wide and high.
#[derive(Drop)]
pub struct PageStyles<'s> {
    pub table: PageTable,
    pub boxes: MarginStyles<'s>,
    pub ghost good: { HasGoodRows table.rows },
}

impl PageStyles<'_> {
    /// The page box of an index, a name and a kind, its margins and its frame. It takes no memory.
    pub fn cell(&self, index: u32, name: NameId, kind: PageKind) -> PageCell
        ensures cell { cell_in (row_of self.now.table.rows name) (cell_of index kind) ≡ Some result }
        ensures good { IsGoodCell result }
    {
        *self.table.cell(index, name, kind)
    }
}

/// The table of pages and the styles of margin boxes by rules in the order of the sheets: what the winning declarations
/// give for each index, name and kind. `initial` are the initial families. It takes time in proportion to the names, to
/// the page selectors, and to the declarations of the rules, those of a rule once for each name that its selectors ask
/// for.
pub fn resolve<'s>(
    alloc: Global,
    rules: &'s [PageRule],
    names: &Names,
    initial: &'s Families,
) -> Result<PageStyles<'s>, NoMem>
    requires { initial.now ≡ initial_style.font_family }
    ensures table { IfOk result (λ styles. spec.IsTable rules.entry.now names.now styles.table.rows) }
    ensures good { IfOk result (λ styles. IsGoodTable styles.table.rows) }
    ensures boxes { IfOk result (λ styles. AreMarginStyles rules.entry.now names.now styles.boxes) }
{
    let asked = asked_names(alloc, rules)?;
    let grouped = group_rules(alloc, rules, initial.as_slice())?;
    let rows = rows_by(alloc, &grouped, &asked, names)?;
    Ok(PageStyles {
        table: PageTable { rows: rows.table },
        boxes: MarginStyles::of_names(rows.boxes),
    })
}
