//! Passes.

ghost use Rattle.std.specs.Prelude.{◌≡◌, ◌<◌, ◌≤◌, length, option_map, IfOk};
ghost use Rattle.bk_num.specs.Limits.{most_pages};
ghost use Rattle.box_gen.specs.Sources.{AreInRange, IsRootShown};
ghost use Rattle.gen_text.specs.References.{AreTargets};
ghost use Rattle.page_list.specs.Pages.{HaveNearTops};
ghost use Rattle.passes.specs.Conditions.{IsGoodFlow};
ghost use Rattle.passes.specs.Looked.{LookWithin};
ghost use Rattle.passes.specs.Passes.{id_of};
ghost use Rattle.passes.specs.Settles.{Settles};
ghost use Rattle.passes.specs.Stops.{IsNotSettled};

use crate::pass::{Pass, pass_under};
use bk_num::ids::NodeId;
use bk_num::name::{Name, NoMem};
use bk_num::steps::Steps;
use box_gen::inline::BuildErr;
use box_gen::words::hyphenator_for;
use boxes::flow::Flow;
use boxes::frames::Frames;
use boxes::page::PageList;
use counters::at::CounterAt;
use cursor::KeptLines;
use dom::Dom;
use fragment::paginate::PageErr;
use gen_text::references::targets;
use gen_text::table::{Entry, Table};
use hyphen::Patterns;
use indexmap::IndexSet;
use metrics::Faces;
use refs::difference::first_difference;
use refs::opening::opening;
use soft_hyphens::hyphenator::Hyphenator;
use std::alloc::Global;
use std::fmt::{self, Debug, Display, Formatter, Write};
use std::sync::ledger::Ledger;
use style::styles::Styles;
use thiserror::Error;

/// A document with its styles and counters, the names of the strings that its pages ask for, the faces that set it, and
/// the patterns by which words are hyphenated, if there are any.
#[derive(Clone, Copy)]
pub struct Input<'a> {
    pub dom: &'a Dom,
    pub styles: &'a Styles,
    pub counters: &'a CounterAt,
    pub asked: &'a IndexSet<String>,
    pub faces: &'a Faces,
    pub patterns: Option<&'a Patterns>,
}

/// A flow whose pages show the table under which its texts are made, with the frames of these pages, as the list that
/// `fold` of `page_seq` makes pages of, and how many passes it took.
#[derive(Drop)]
pub struct Settled {
    pub flow: Flow,
    pub pages: PageList,
    pub table: Table,
    pub passes: u32,
}

/// Why passes don't settle: the last two give a target other numbers, the flow of a pass has more than 33,554,432 bytes
/// of text, 100,000 frames leave something of it unplaced, or want of memory.
#[derive(Drop, Error)]
pub enum PassErr {
    #[error("a page reference to {} shows {before}, then {after}", .target.as_str())]
    NotSettled {
        target: Name,
        before: i64,
        after: i64,
    },
    #[error("too much text")]
    Text,
    #[error("too many pages")]
    Pages,
    #[error("no memory")]
    NoMemory,
}

impl Debug for PassErr {
    fn fmt<W: Write>(&self, f: &mut Formatter<W>) -> fmt::Result {
        Display::fmt(self, f)
    }
}

impl From<NoMem> for PassErr {
    ghost use Rattle.std.specs.Prelude.{◌≡◌};
    ghost use Rattle.passes.specs.declared.settle.PassErr.TheVariants.{NoMemory};

    ghost from_gives = { λ _ e. e ≡ NoMemory };

    fn from(_e: NoMem) -> PassErr {
        PassErr::NoMemory
    }
}

impl From<BuildErr> for PassErr {
    ghost use Rattle.std.specs.Prelude.{◌≡◌};
    ghost use Rattle.passes.specs.Stops.{of_build};

    ghost from_gives = { λ e f. f ≡ of_build e };

    fn from(e: BuildErr) -> PassErr {
        match e {
            BuildErr::Text => PassErr::Text,
            BuildErr::NoMemory => PassErr::NoMemory,
        }
    }
}

impl From<PageErr> for PassErr {
    ghost use Rattle.std.specs.Prelude.{◌≡◌};
    ghost use Rattle.passes.specs.Stops.{of_pages};

    ghost from_gives = { λ e f. f ≡ of_pages e };

    fn from(e: PageErr) -> PassErr {
        match e {
            PageErr::Pages => PassErr::Pages,
            PageErr::NoMemory => PassErr::NoMemory,
        }
    }
}

/// A copy of an element's id.
fn id_of(alloc: Global, dom: &Dom, node: NodeId) -> Result<Name, NoMem>
    requires { node.0 < length dom.now }
    ensures { IfOk result (λ name. name ≡ id_of dom.now node.0) }
{
    Name::new(alloc, dom.attr(node, "id").unwrap_or(""))
}

/// The answer where the entries of a target in the last two tables differ.
fn not_settled(alloc: Global, dom: &Dom, before: Entry, after: Entry) -> PassErr
    requires { before.node.0 < length dom.now }
    ensures { IsNotSettled dom.now before after result }
{
    match id_of(alloc, dom, before.node) {
        Ok(target) => PassErr::NotSettled {
            target,
            before: before.number,
            after: after.number,
        },
        Err(_) => PassErr::NoMemory,
    }
}

/// The table that a pass shows; the rest of it is let go.
fn shown_of(pass: Pass) -> Table
    ensures { result ≡ pass.shown }
{
    pass.shown
}

/// Passes over the elements that page references lead to, as `settle` answers them. A line of the pass before is not
/// filled again.
fn settle_for<Fr: Frames, L: Ledger>(
    alloc: Global,
    input: &Input<'_>,
    hyphenator: Option<&Hyphenator<'_>>,
    frames: &Fr,
    limit: u32,
    targets: &[NodeId],
    steps: &mut Steps<L>,
) -> Result<Settled, PassErr>
    requires patterns { option_map (λ h. h.now) hyphenator ≡ option_map (λ p. p.now) input.now.patterns }
    requires limit { 0 < limit }
    requires ranges { AreInRange input.now.styles.now }
    requires shown { IsRootShown input.now.styles.now }
    requires targets { AreTargets input.now.dom.now input.now.styles.now targets.now }
    ensures settles { Settles input.now (Fr.view frames.now) (Fr.per frames.now) limit result }
    ensures lines { LookWithin input.now (Fr.view frames.now) (Fr.per frames.now) limit result steps.old steps.new }
    ensures good { IfOk result (λ s. IsGoodFlow input.now.faces.now s.flow) }
    ensures tops { IfOk result (λ s. HaveNearTops s.pages.pages) }
    ensures few { IfOk result (λ s. length s.pages.pages ≤ most_pages) }
{
    let mut table = opening(alloc, targets)?;
    let mut lines = KeptLines::new(alloc);
    let mut passes = 1;
    'passes: loop {
        let pass = pass_under(
            alloc, input, hyphenator, frames, targets, &table, &mut lines, steps,
        )?;
        let Some(place) = first_difference(&table, &pass.shown) else {
            let Pass { flow, pages, shown } = pass;
            return Ok(Settled {
                flow,
                pages,
                table: shown,
                passes,
            });
        };
        if passes == limit {
            let before = table.as_slice()[place];
            let after = pass.shown.as_slice()[place];
            return Err(not_settled(alloc, input.dom, before, after));
        }
        passes += 1;
        table = shown_of(pass);
        lines.turn();
    }
}

/// Lays a document out in passes, each under the table that the pass before shows, the first under zeros, until a pass
/// shows the table under which it is laid out: at most `limit` passes, which is at least 1. The flow and the pages of a
/// pass that doesn't settle are let go before the next. Where passes settle, or don't within the limit, no more steps
/// are taken than lines stand on pages, or as far below as their cuts may look, that the pass before didn't place.
///
/// # Errors
///
/// `NotSettled` exactly where each of `limit` passes changes the table: the id of the first target whose numbers in the
/// last two tables differ, with these numbers. `Text` exactly where the flow of a pass has more than 33,554,432 bytes
/// of text, and `Pages` exactly where 100,000 frames of it leave something unplaced.
pub fn settle<Fr: Frames, L: Ledger>(
    alloc: Global,
    input: &Input<'_>,
    frames: &Fr,
    limit: u32,
    steps: &mut Steps<L>,
) -> Result<Settled, PassErr>
    requires limit { 0 < limit }
    requires ranges { AreInRange input.now.styles.now }
    requires shown { IsRootShown input.now.styles.now }
    ensures settles { Settles input.now (Fr.view frames.now) (Fr.per frames.now) limit result }
    ensures lines { LookWithin input.now (Fr.view frames.now) (Fr.per frames.now) limit result steps.old steps.new }
    ensures good { IfOk result (λ s. IsGoodFlow input.now.faces.now s.flow) }
    ensures tops { IfOk result (λ s. HaveNearTops s.pages.pages) }
    ensures few { IfOk result (λ s. length s.pages.pages ≤ most_pages) }
{
    let referenced = targets(alloc, input.dom, input.styles)?;
    let hyphenator = hyphenator_for(alloc, input.dom, input.styles, input.patterns)?;
    settle_for(
        alloc,
        input,
        hyphenator.as_ref(),
        frames,
        limit,
        referenced.as_slice(),
        steps,
    )
}
