//! Lays a document out, and puts what is asked for of its book.

ghost use Rattle.std.specs.Prelude.{◌≡◌, ◌<◌, ◌≤◌, All, IfOk, IfErr, length, map, option_map, string_bytes};
ghost use Rattle.bk_io.specs.Causes.{Rose};
ghost use Rattle.bk_num.specs.Limits.{most_pages};
ghost use Rattle.boxes.specs.Frames.{IsPerPage};
ghost use Rattle.paint.specs.Order.{IsPageOf};
ghost use Rattle.passes.specs.Conditions.{IsGoodFlow};
ghost use Rattle.passes.specs.Passes.{settled};
ghost use Rattle.style.specs.Styles.{initial_style};
ghost use Rattle.listing.specs.Puts.{HasPutCause, Puts};
ghost use Rattle.page_seq.specs.Folds.{fold_of};
ghost use Rattle.book.specs.Document.{IsGoodGrid};
ghost use Rattle.book.specs.DocumentView.{document_in, HasSheets};
ghost use Rattle.book.specs.Flow.{asked_of, gap_units};
ghost use Rattle.book.specs.Laid.{AreBoxesOf, AreColumnsOf, AreGoodStyles, CanPut, EndSo, StopsBy, WritesBy, listing_by, outcome_of, output_by};
ghost use Rattle.book.specs.Laws.{PageLaws};
ghost use Rattle.book.specs.Lines.{EndsInFew, FillsFew, SettlesInFew};
ghost use Rattle.book.specs.Run.{IsOfBook, PutsOnlyABook, Writes};

use crate::counts::put_counts;
use crate::document::{ColumnGrid, Document, Output};
use crate::outcome::{LimitOf, Outcome};
use crate::styled::{Styled, in_styles};
use bk_io::sink::Sink;
use bk_num::name::NoMem;
use bk_num::steps::Steps;
use boxes::page::PageList;
use columns::columns::Columns;
use hyphen::Patterns;
use indexmap::IndexSet;
use listing::pages::Printer;
use listing::print::{PrintErr, print};
use page_ctx::resolve::{PageStyles, resolve};
use page_ctx::strings_asked::asked_strings;
use page_list::laws::{
    breaks_hold, main_stands_once, notes_begin_in_time, notes_stand_once, pages_end_inside,
};
use page_seq::fold::fold;
use page_seq::laws::folds_keep_all;
use page_seq::numbers::numbers;
use passes::settle::{Input, PassErr, Settled, settle};
use std::alloc::Global;
use std::sync::ledger::Ledger;
use strings::assigned::Strings;
use style::lists::Families;

/// How many units are 1 px.
const UNITS: u32 = 64;

/// A document that was laid out, and what is put of it was: how many pages, and in how many passes it settled.
#[derive(Clone, Copy, Debug, PartialEq, Eq)]
pub(crate) struct Done {
    pub(crate) pages: u32,
    pub(crate) passes: u32,
}

impl From<PassErr> for Outcome {
    ghost use Rattle.std.specs.Prelude.{◌≡◌};
    ghost use Rattle.book.specs.Laid.{of_passes};

    ghost from_gives = { λ e o. o ≡ of_passes e };

    fn from(e: PassErr) -> Outcome {
        match e {
            PassErr::NotSettled {
                target,
                before,
                after,
            } => Outcome::NotSettled {
                target,
                before,
                after,
            },
            PassErr::Text => Outcome::Limit {
                what: LimitOf::Text,
            },
            PassErr::Pages => Outcome::Limit {
                what: LimitOf::Pages,
            },
            PassErr::NoMemory => Outcome::NoMemory,
        }
    }
}

impl From<PrintErr> for Outcome {
    ghost use Rattle.std.specs.Prelude.{◌≡◌};
    ghost use Rattle.book.specs.Laid.{of_print};

    ghost from_gives = { λ e o. o ≡ of_print e };

    fn from(e: PrintErr) -> Outcome {
        match e {
            PrintErr::Failed => Outcome::WriteFault,
            PrintErr::NoMemory => Outcome::NoMemory,
        }
    }
}

/// The page boxes and the styles of margin boxes that the page rules of a document give.
fn boxes_of<'s>(
    alloc: Global,
    styled: &'s Styled,
    initial: &'s Families,
) -> Result<PageStyles<'s>, NoMem>
    requires { initial.now ≡ initial_style.font_family }
    ensures { IfOk result (λ styles. AreBoxesOf styled.entry.now styles) }
{
    resolve(alloc, styled.rules.as_slice(), &styled.names, initial)
}

/// The gap between columns, in units.
fn gap_of(grid: ColumnGrid) -> i64
    requires { IsGoodGrid grid }
    ensures { result ≡ gap_units grid }
{
    i64::from(grid.gap * UNITS)
}

/// The columns of the frames that the page rules of a document give.
fn columns_of(alloc: Global, styled: &Styled, boxes: &PageStyles<'_>) -> Result<Columns, NoMem>
    requires grid { IsGoodGrid styled.now.grid }
    requires boxes { AreBoxesOf styled.now boxes.now }
    ensures { IfOk result (λ columns. AreColumnsOf styled.now columns) }
{
    let table = boxes.table.copy(alloc)?;
    let grid = styled.grid;
    Ok(Columns::new(table, grid.columns, gap_of(grid)))
}

/// The patterns by which the words of a document are hyphenated, if there are any.
fn patterns_of(styled: &Styled) -> Option<&Patterns>
    ensures { option_map (λ p. p.now) result ≡ styled.now.patterns }
{
    match &styled.patterns {
        None => None,
        Some(patterns) => Some(patterns),
    }
}

/// The flow whose page references print the numbers of its own pages, with its frames, where pages ask for these
/// strings.
fn settle_asked<L: Ledger>(
    alloc: Global,
    styled: &Styled,
    boxes: &PageStyles<'_>,
    asked: &IndexSet<String>,
    steps: &mut Steps<L>,
) -> Result<Settled, Outcome>
    requires passes { 0 < styled.now.passes }
    requires grid { IsGoodGrid styled.now.grid }
    requires good { AreGoodStyles styled.now }
    requires boxes { AreBoxesOf styled.now boxes.now }
    requires asked { map (λ k. string_bytes k) asked.now.keys ≡ asked_of styled.now.rules }
    ensures settled { IfOk result (λ s. EndSo styled.now (settled s.passes s.flow s.pages.pages s.table)) }
    ensures good { IfOk result (λ s. IsGoodFlow styled.now.faces s.flow) }
    ensures frames { IfOk result (λ s. All (IsPageOf s.flow) s.pages.pages) }
    ensures few { IfOk result (λ s. length s.pages.pages ≤ most_pages) }
    ensures stops { IfErr result (λ o. StopsBy styled.now o) }
    ensures lines { SettlesInFew styled.now result steps.old steps.new }
{
    let frames = columns_of(alloc, styled, boxes)?;
    let input = Input {
        dom: &styled.dom,
        styles: &styled.styles,
        counters: &styled.counters,
        asked,
        faces: &styled.faces,
        patterns: patterns_of(styled),
    };
    Ok(settle(alloc, &input, &frames, styled.passes, steps)?)
}

/// The flow whose page references print the numbers of its own pages, with its frames.
fn settle_passes<L: Ledger>(
    alloc: Global,
    styled: &Styled,
    boxes: &PageStyles<'_>,
    steps: &mut Steps<L>,
) -> Result<Settled, Outcome>
    requires passes { 0 < styled.now.passes }
    requires grid { IsGoodGrid styled.now.grid }
    requires good { AreGoodStyles styled.now }
    requires boxes { AreBoxesOf styled.now boxes.now }
    ensures settled { IfOk result (λ s. EndSo styled.now (settled s.passes s.flow s.pages.pages s.table)) }
    ensures good { IfOk result (λ s. IsGoodFlow styled.now.faces s.flow) }
    ensures frames { IfOk result (λ s. All (IsPageOf s.flow) s.pages.pages) }
    ensures few { IfOk result (λ s. length s.pages.pages ≤ most_pages) }
    ensures stops { IfErr result (λ o. StopsBy styled.now o) }
    ensures lines { SettlesInFew styled.now result steps.old steps.new }
{
    let asked = asked_strings(alloc, styled.rules.as_slice())?;
    settle_asked(alloc, styled, boxes, &asked, steps)
}

/// Puts the listing of the pages of frames that settled. Their numbers and the running strings along them are found
/// once, for all pages.
fn print_settled<O: Sink>(
    alloc: Global,
    styled: &Styled,
    boxes: &PageStyles<'_>,
    laid: &Settled,
    pages: &PageList,
    out: &mut O,
) -> Result<(), PrintErr>
    requires { CanPut styled.now boxes.now laid.now pages.now }
    ensures bytes { Puts (O.taken out.old) (O.taken out.new) (listing_by styled.now laid.now pages.now) result }
    ensures cause { HasPutCause (O.faults out.old) (O.faults out.new) result }
{
    let numbers = numbers(alloc, &laid.flow, pages)?;
    let strings = Strings::new(alloc, &laid.flow, pages)?;
    let printer = Printer {
        passes: laid.passes,
        faces: &styled.faces,
        flow: &laid.flow,
        frames: &laid.pages,
        per: styled.grid.columns,
        names: &styled.names,
        list: pages,
        numbers: numbers.as_slice(),
        strings: &strings,
        styles: boxes,
    };
    print(alloc, &printer, out)
}

/// Puts what is asked for of the pages of frames that settled.
fn put_settled<O: Sink>(
    alloc: Global,
    styled: &Styled,
    boxes: &PageStyles<'_>,
    laid: &Settled,
    pages: &PageList,
    out: &mut O,
) -> Result<(), PrintErr>
    requires { CanPut styled.now boxes.now laid.now pages.now }
    ensures bytes { Puts (O.taken out.old) (O.taken out.new) (output_by styled.now laid.now pages.now) result }
    ensures cause { HasPutCause (O.faults out.old) (O.faults out.new) result }
{
    match styled.output {
        Output::Listing => print_settled(alloc, styled, boxes, laid, pages, out),
        Output::Counts(chapters) => Ok(put_counts(out, chapters, laid, pages)?),
    }
}

/// The pages of frames, so many on each.
fn pages_of(alloc: Global, frames: &PageList, per: u32) -> Result<PageList, NoMem>
    requires per { IsPerPage per }
    requires few { length frames.now.pages ≤ most_pages }
    ensures pages { IfOk result (λ list. list.pages ≡ fold_of per frames.now.pages) }
    ensures few { IfOk result (λ list. length list.pages ≤ most_pages) }
{
    folds_keep_all();
    fold(alloc, frames, per)
}

/// How many pages there are.
fn count_of(list: &PageList) -> u32
    requires { length list.now.pages ≤ most_pages }
    ensures { result ≡ length list.now.pages }
{
    list.pages.as_slice().len() as u32
}

/// Lays out a document in its styles, in the page boxes and the margin boxes of its page rules, and puts what is asked
/// for.
fn put_styled<O: Sink, L: Ledger>(
    alloc: Global,
    styled: &Styled,
    boxes: &PageStyles<'_>,
    out: &mut O,
    steps: &mut Steps<L>,
) -> Result<Done, Outcome>
    requires passes { 0 < styled.now.passes }
    requires grid { IsGoodGrid styled.now.grid }
    requires good { AreGoodStyles styled.now }
    requires boxes { AreBoxesOf styled.now boxes.now }
    ensures writes { WritesBy styled.now (O.taken out.old) (O.taken out.new) (outcome_of result) }
    ensures fault { outcome_of result ≡ Outcome.WriteFault → Rose (O.faults out.old) (O.faults out.new) }
    ensures lines { EndsInFew styled.now (outcome_of result) steps.old steps.new }
{
    let laid = settle_passes(alloc, styled, boxes, steps)?;
    let pages = pages_of(alloc, &laid.pages, styled.grid.columns)?;
    put_settled(alloc, styled, boxes, &laid, &pages, out)?;
    Ok(Done {
        pages: count_of(&pages),
        passes: laid.passes,
    })
}

/// What holds of all page lists, and of the pages on which frames stand.
fn page_laws()
    ensures { PageLaws }
{
    main_stands_once();
    notes_stand_once();
    breaks_hold();
    pages_end_inside();
    notes_begin_in_time();
    folds_keep_all();
}

/// Lays out a document in its styles, in the pages that its page rules give, and puts what is asked for.
fn put_on_pages<O: Sink, L: Ledger>(
    alloc: Global,
    styled: &Styled,
    out: &mut O,
    steps: &mut Steps<L>,
) -> Result<Done, Outcome>
    requires passes { 0 < styled.now.passes }
    requires grid { IsGoodGrid styled.now.grid }
    requires good { AreGoodStyles styled.now }
    ensures writes { WritesBy styled.now (O.taken out.old) (O.taken out.new) (outcome_of result) }
    ensures fault { outcome_of result ≡ Outcome.WriteFault → Rose (O.faults out.old) (O.faults out.new) }
    ensures lines { EndsInFew styled.now (outcome_of result) steps.old steps.new }
{
    let initial = Families::serif(alloc)?;
    let boxes = boxes_of(alloc, styled, &initial)?;
    put_styled(alloc, styled, &boxes, out, steps)
}

/// Lays a document out, and puts what is asked for of its book. What that keeps is said by the laws of page lists.
pub(crate) fn lay_out<O: Sink, L: Ledger>(
    alloc: Global,
    document: Box<Document<'_>>,
    out: &mut O,
    steps: &mut Steps<L>,
) -> Result<Done, Outcome>
    requires passes { 0 < document.value.passes }
    requires grid { IsGoodGrid document.value.grid }
    requires sheets { HasSheets document.value }
    ensures writes { Writes (document_in document.entry.value) (O.taken out.old) (O.taken out.new) (outcome_of result) }
    ensures put { PutsOnlyABook (O.taken out.old) (O.taken out.new) (outcome_of result) }
    ensures of_book { IsOfBook (outcome_of result) }
    ensures fault { outcome_of result ≡ Outcome.WriteFault → Rose (O.faults out.old) (O.faults out.new) }
    ensures lines { FillsFew (document_in document.entry.value) (outcome_of result) steps.old steps.new }
{
    page_laws();
    let styled = in_styles(alloc, document)?;
    put_on_pages(alloc, &styled, out, steps)
}
