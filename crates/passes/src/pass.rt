//! One pass.

ghost use Rattle.std.specs.Prelude.{◌≡◌, ◌≤◌, ℕ, List, option_map, IfOk, IfErr};
ghost use Rattle.bk_num.specs.Limits.{most_text_bytes};
ghost use Rattle.bk_num.specs.declared.ids.NodeId.{NodeId};
ghost use Rattle.box_gen.specs.Notes.{bytes_in};
ghost use Rattle.box_gen.specs.Sources.{AreInRange, IsRootShown};
ghost use Rattle.boxes.specs.Frames.{PageFrames};
ghost use Rattle.fragment.specs.Kept.{ArePagesHeld};
ghost use Rattle.line_fill.specs.Kept.{AreKept};
ghost use Rattle.page_list.specs.LookedPages.{LooksAtPages};
ghost use Rattle.page_list.specs.Pages.{HaveNearTops};
ghost use Rattle.passes.specs.Conditions.{IsGoodFlow};
ghost use Rattle.passes.specs.Passes.{IsPass};
ghost use Rattle.passes.specs.Settles.{work_of};
ghost use Rattle.passes.specs.Stops.{Stops};
ghost use Rattle.passes.specs.Work.{IsFlowUnder};
ghost use Rattle.refs.specs.Tables.{NodesAscend};

use crate::settle::{Input, PassErr};
use bk_num::ids::NodeId;
use bk_num::steps::Steps;
use box_gen::build::build_by;
use boxes::flow::Flow;
use boxes::frames::Frames;
use boxes::page::PageList;
use cursor::KeptLines;
use fragment::paginate::paginate_kept;
use gen_text::table::Table;
use gen_text::texts::Texts;
use page_seq::fold::fold;
use page_seq::laws::folds_keep_all;
use refs::shown::shown;
use soft_hyphens::hyphenator::Hyphenator;
use std::alloc::Global;
use std::sync::ledger::Ledger;

/// The flow under a table, its pages, and the table that these show.
#[derive(Drop)]
pub(crate) struct Pass {
    pub(crate) flow: Flow,
    pub(crate) pages: PageList,
    pub(crate) shown: Table,
}

/// The flow under a table. The words are hyphenated by the patterns of the input, some of whose points are known.
fn flow_under(
    alloc: Global,
    input: &Input<'_>,
    hyphenator: Option<&Hyphenator<'_>>,
    table: &Table,
) -> Result<Flow, PassErr>
    requires patterns { option_map (λ h. h.now) hyphenator ≡ option_map (λ p. p.now) input.now.patterns }
    requires ranges { AreInRange input.now.styles.now }
    requires shown { IsRootShown input.now.styles.now }
    ensures flow { (frames : PageFrames) (per : ℕ) (targets : List NodeId) → IfOk result
        (λ flow. IsFlowUnder (work_of input.now frames per targets) table.now flow) }
    ensures fits { IfOk result (λ flow. bytes_in flow ≤ most_text_bytes) }
    ensures good { IfOk result (λ flow. IsGoodFlow input.now.faces.now flow) }
    ensures stops { (frames : PageFrames) (per : ℕ) (targets : List NodeId) → IfErr result
        (λ err. Stops (work_of input.now frames per targets) table.now err) }
{
    let texts = Texts {
        dom: input.dom,
        styles: input.styles,
        counters: input.counters,
        table,
        asked: input.asked,
    };
    let flow = build_by(alloc, &texts, input.faces, hyphenator)?;
    // a tree of boxes is one that can be built
    let _count = flow.main.count();
    Ok(flow)
}

/// The pass under a table, over targets that ascend: its table is that of the pages on which its frames stand. What it
/// makes is let go where it can't be laid out. A line takes a step only where it isn't held, and is held from then on;
/// and no more steps are taken than the pages may look at lines that aren't held.
pub(crate) fn pass_under<Fr: Frames, L: Ledger>(
    alloc: Global,
    input: &Input<'_>,
    hyphenator: Option<&Hyphenator<'_>>,
    frames: &Fr,
    targets: &[NodeId],
    table: &Table,
    lines: &mut KeptLines,
    steps: &mut Steps<L>,
) -> Result<Pass, PassErr>
    requires patterns { option_map (λ h. h.now) hyphenator ≡ option_map (λ p. p.now) input.now.patterns }
    requires ranges { AreInRange input.now.styles.now }
    requires shown { IsRootShown input.now.styles.now }
    requires targets { NodesAscend targets.now }
    requires kept { AreKept input.now.faces.now lines.old.kept }
    ensures kept { AreKept input.now.faces.now lines.new.kept }
    ensures held { IfOk result (λ p. ArePagesHeld p.flow lines.new.kept p.pages.pages) }
    ensures lines { IfOk result (λ p. LooksAtPages input.now.faces.now p.flow (Fr.view frames.now) lines.old.kept
        p.pages.pages steps.old steps.new) }
    ensures pass { IfOk result (λ p. IsPass (work_of input.now
        (Fr.view frames.now) (Fr.per frames.now) targets.now) table.now p.flow p.pages.pages p.shown) }
    ensures good { IfOk result (λ p. IsGoodFlow input.now.faces.now p.flow) }
    ensures tops { IfOk result (λ p. HaveNearTops p.pages.pages) }
    ensures stops { IfErr result (λ err. Stops (work_of input.now
        (Fr.view frames.now) (Fr.per frames.now) targets.now) table.now err) }
{
    folds_keep_all();
    let flow = flow_under(alloc, input, hyphenator, table)?;
    let pages = paginate_kept(alloc, &flow, input.faces, frames, lines, steps)?;
    let folded = fold(alloc, &pages, frames.per_page())?;
    let shown = shown(alloc, &flow, &folded, targets)?;
    Ok(Pass { flow, pages, shown })
}
