//! The walk over the nodes of a document, step by step.

ghost use Rattle.std.specs.Prelude.{◌≡◌, ◌<◌, ◌++◌, ◌∷◌, ◌==◌, List, [], None, filter, length, not, IfErr, OnOk, IsSome, IsTrue};
ghost use Rattle.boxes.specs.Tree.{innermost_of, takes_box};
ghost use Rattle.bk_num.specs.declared.values.Pseudo.TheVariants as pseudo;
ghost use Rattle.dom.specs.Walk.{node_of};
ghost use Rattle.style.specs.Nodes.{NodeStyles};
ghost use Rattle.box_gen.specs.Flow as spec;
ghost use Rattle.box_gen.specs.Flow.{closed, leads_of, opened};
ghost use Rattle.box_gen.specs.Items as item;
ghost use Rattle.box_gen.specs.Gather.{adds, begun, ended, make};
ghost use Rattle.box_gen.specs.Kinds.{IsFacedKind, IsKindOf, role_in};
ghost use Rattle.box_gen.specs.Sites.{IsGoodRoom, IsWithinRoom, TakesStep, built_in, leaf_bytes};
ghost use Rattle.box_gen.specs.Sources.{IsFacedIn, IsInput, IsInRange, IsNodeOf, source_in};
ghost use Rattle.box_gen.specs.Steps.{CanBegin, CanEnd, CanEnterNode, CanLeaveNode, CanStep, styles_of, walk_in};
ghost use Rattle.box_gen.specs.Walk as walk;
ghost use Rattle.box_gen.specs.Walk.{after_step, enter_node, leave_node};

use crate::faced::FacedStyle;
use crate::inline::BuildErr;
use crate::input::{FlowInput, NodeKind, kind_of, style_around, style_of};
use crate::marker::{lead_of, marker_text};
use crate::pieces::{push_call, push_first, push_last, push_text};
use crate::props::props_of;
use crate::put::{Site, TreeRoom, put_run, start_at};
use crate::run::InlineRun;
use crate::text_style::text_style;
use bk_num::ids::NodeId;
use bk_num::name::NoMem;
use boxes::leaf::Lead;
use boxes::tree::BoxTree;
use counters::marker::has_marker;
use dom::Step;
use std::alloc::Global;

/// What the walk over a tree keeps: what is built, the run that isn't put yet, the open blocks, and the element that it
/// passes over, which isn't shown or is a note.
#[derive(Drop)]
pub(crate) struct FlowBuilder<'a> {
    pub(crate) site: Site,
    pub(crate) run: InlineRun<'a>,
    pub(crate) blocks: Vec<NodeId>,
    pub(crate) unshown: Option<NodeId>,
}

/// A tree without events, which has this room.
pub(crate) fn new_site(alloc: Global, room: TreeRoom) -> Site
    requires { IsGoodRoom room }
    ensures built { built_in result ≡ spec.nothing }
    ensures within { IsWithinRoom result }
    ensures room { result.room ≡ room }
    ensures bytes { result.bytes ≡ 0 }
{
    Site {
        tree: BoxTree::new(alloc),
        starts: Vec::new(alloc),
        pending: Vec::new(alloc),
        bytes: 0,
        room,
    }
}

/// The builder before the first step.
pub(crate) fn new_builder<'a>(alloc: Global, room: TreeRoom) -> FlowBuilder<'a>
    requires { IsGoodRoom room }
    ensures walk { (styles : List NodeStyles) → walk_in styles result ≡ walk.walk (make spec.nothing []) [] None }
    ensures within { IsWithinRoom result.site }
    ensures room { result.site.room ≡ room }
{
    FlowBuilder {
        site: new_site(alloc, room),
        run: InlineRun::new(alloc),
        blocks: Vec::new(alloc),
        unshown: None,
    }
}

/// The style of the innermost open block.
pub(crate) fn innermost<'a>(input: &FlowInput<'a>, blocks: &[NodeId]) -> &'a FacedStyle<'a>
    requires { IsInput input.now }
    ensures value { result.now.style ≡ walk.innermost (styles_of input.now.texts.now.styles.now blocks.now) }
    ensures faces { result.now.faces ≡ input.now.faces.now }
    ensures range { IsInRange result.now.style }
{
    match blocks.last() {
        Some(node) => style_of(input, *node),
        None => &input.known.initial,
    }
}

/// Adds the marker of an element whose box has a number.
fn push_lead(
    alloc: Global,
    input: &FlowInput,
    node: NodeId,
    faced: &FacedStyle<'_>,
    owner: u32,
    pending: &mut Vec<Lead>,
) -> Result<(), NoMem>
    requires { faced.now.faces ≡ input.now.faces.now }
    ensures { OnOk result (pending.new.items ≡ pending.old.items ++
        leads_of (source_in input.now) node.0 faced.now.style owner) }
{
    let style = faced.style();
    if !has_marker(node.0 == 0, style) {
        return Ok(());
    }
    match marker_text(alloc, input.texts.counters, node, style.list_style_type)? {
        None => Ok(()),
        Some(text) => {
            let look = text_style(faced, style.white_space);
            let Some(lead) = lead_of(text, &look, owner) else {
                return Err(NoMem);
            };
            pending.push(lead)?;
            Ok(())
        }
    }
}

/// Opens the box of a block.
fn open_box(
    alloc: Global,
    input: &FlowInput,
    node: NodeId,
    faced: &FacedStyle<'_>,
    site: &mut Site,
) -> Result<(), NoMem>
    requires faced { IsFacedIn input.now faced.now }
    requires few { length site.old.tree.events < 7999995 }
    requires place { IsTrue (takes_box site.old.tree.events) }
    ensures built { OnOk result (built_in site.new ≡
        opened (source_in input.now) node.0 faced.now.style (built_in site.old)) }
    ensures bytes { OnOk result (site.new.bytes ≡ site.old.bytes) }
    ensures room { OnOk result (site.new.room ≡ site.old.room) }
{
    let style = faced.style();
    let event = site.tree.count();
    let owner = site.tree.add_box(props_of(style, node, !input.in_note))?;
    site.starts.push(start_at(node, event, 0))?;
    push_lead(alloc, input, node, faced, owner, &mut site.pending)?;
    Ok(())
}

/// Markers but those of one box.
fn drop_leads_of(pending: &mut Vec<Lead>, owner: u32)
    ensures { pending.new.items ≡ filter (λ lead. not (lead.owner == owner)) pending.old.items }
{
    pending.retain(|lead| lead.owner != owner);
}

/// Markers but those of a box.
fn drop_leads(pending: &mut Vec<Lead>, owner: Option<u32>)
    ensures { pending.new.items ≡ spec.without owner pending.old.items }
{
    if let Some(owner) = owner {
        drop_leads_of(pending, owner);
    }
}

/// Closes the innermost box. An item without a line shows no marker.
fn close_box(site: &mut Site) -> Result<(), NoMem>
    requires few { length site.old.tree.events < 7999995 }
    requires open { IsSome (innermost_of site.old.tree.events) }
    ensures built { OnOk result (built_in site.new ≡ closed (built_in site.old)) }
    ensures bytes { OnOk result (site.new.bytes ≡ site.old.bytes) }
    ensures room { OnOk result (site.new.room ≡ site.old.room) }
{
    let inner = site.tree.around(site.tree.count());
    site.tree.close_box()?;
    drop_leads(&mut site.pending, inner);
    Ok(())
}

/// Enters an inline element.
fn enter_inline<'a>(
    input: &FlowInput<'a>,
    node: NodeId,
    faced: &FacedStyle<'_>,
    run: &mut InlineRun<'a>,
) -> Result<(), NoMem>
    requires node { IsNodeOf input.now node.0 }
    requires faces { faced.now.faces ≡ input.now.faces.now }
    ensures { OnOk result (run.new ≡ (run.old ++ item.Start node ∷ []) ++
        spec.first_items (source_in input.now) faced.now.style node.0) }
{
    run.push_start(node)?;
    push_first(input, node, faced, run)
}

/// Enters a note element: its call stands where it would begin.
fn enter_note<'a>(input: &FlowInput<'a>, node: NodeId, run: &mut InlineRun<'a>) -> Result<(), NoMem>
    requires { IsNodeOf input.now node.0 }
    ensures { OnOk result (run.new ≡
        (run.old ++ item.Start node ∷ []) ++
        spec.generated_items (source_in input.now) node.0 pseudo.Call) }
{
    run.push_start(node)?;
    push_call(input, node, run)
}

/// Enters a block: the run before it is put, and its box opened.
fn enter_block<'a>(
    alloc: Global,
    input: &FlowInput<'a>,
    node: NodeId,
    faced: &FacedStyle<'_>,
    builder: &mut FlowBuilder<'a>,
) -> Result<(), BuildErr>
    requires node { IsNodeOf input.now node.0 }
    requires faced { IsFacedIn input.now faced.now }
    requires site { TakesStep builder.old.site }
    requires can { CanBegin (source_in input.now)
        (walk.innermost (styles_of input.now.texts.now.styles.now builder.old.blocks.items))
        (make (built_in builder.old.site) builder.old.run) }
    ensures gathered { OnOk result (make (built_in builder.new.site) builder.new.run ≡
        begun (source_in input.now)
        (walk.innermost (styles_of input.now.texts.now.styles.now builder.old.blocks.items)) node.0 faced.now.style
        (make (built_in builder.old.site) builder.old.run)) }
    ensures blocks { OnOk result (builder.new.blocks.items ≡ builder.old.blocks.items ++ node ∷ []) }
    ensures unshown { OnOk result (builder.new.unshown ≡ builder.old.unshown) }
    ensures within { OnOk result (IsWithinRoom builder.new.site) }
    ensures room { OnOk result (builder.new.site.room ≡ builder.old.site.room) }
    ensures cause { IfErr result (λ e. e ≡ BuildErr.Text → builder.old.site.room.bytes <
        leaf_bytes (begun (source_in input.now)
        (walk.innermost (styles_of input.now.texts.now.styles.now builder.old.blocks.items)) node.0 faced.now.style
        (make (built_in builder.old.site) builder.old.run)).built.tree.leaves) }
{
    let around = innermost(input, &builder.blocks);
    let items = std::mem::replace(&mut builder.run, InlineRun::new(alloc));
    put_run(
        alloc,
        input.hyphenator,
        around,
        true,
        &mut builder.site,
        items,
    )?;
    let Ok(()) = open_box(alloc, input, node, faced, &mut builder.site) else {
        return Err(BuildErr::NoMemory);
    };
    let Ok(()) = builder.blocks.push(node) else {
        return Err(BuildErr::NoMemory);
    };
    let Ok(()) = push_first(input, node, faced, &mut builder.run) else {
        return Err(BuildErr::NoMemory);
    };
    Ok(())
}

/// Leaves a block of a style: the run at its end is put, and its box closed.
pub(crate) fn leave_block<'a>(
    alloc: Global,
    input: &FlowInput<'a>,
    node: NodeId,
    faced: &FacedStyle<'_>,
    builder: &mut FlowBuilder<'a>,
) -> Result<(), BuildErr>
    requires node { IsNodeOf input.now node.0 }
    requires faced { IsFacedIn input.now faced.now }
    requires site { TakesStep builder.old.site }
    requires can { CanEnd (source_in input.now) faced.now.style
        (adds (spec.last_items (source_in input.now) node.0)
        (make (built_in builder.old.site) builder.old.run)) }
    ensures gathered { OnOk result (make (built_in builder.new.site) builder.new.run ≡
        ended (source_in input.now) faced.now.style
        (adds (spec.last_items (source_in input.now) node.0)
        (make (built_in builder.old.site) builder.old.run))) }
    ensures blocks { OnOk result (builder.new.blocks ≡ builder.old.blocks) }
    ensures unshown { OnOk result (builder.new.unshown ≡ builder.old.unshown) }
    ensures within { OnOk result (IsWithinRoom builder.new.site) }
    ensures room { OnOk result (builder.new.site.room ≡ builder.old.site.room) }
    ensures cause { IfErr result (λ e. e ≡ BuildErr.Text → builder.old.site.room.bytes <
        leaf_bytes (ended (source_in input.now) faced.now.style
        (adds (spec.last_items (source_in input.now) node.0)
        (make (built_in builder.old.site) builder.old.run))).built.tree.leaves) }
{
    let Ok(()) = push_last(input, node, &mut builder.run) else {
        return Err(BuildErr::NoMemory);
    };
    let wrap = !builder.site.tree.takes_leaf();
    let items = std::mem::replace(&mut builder.run, InlineRun::new(alloc));
    put_run(
        alloc,
        input.hyphenator,
        faced,
        wrap,
        &mut builder.site,
        items,
    )?;
    let Ok(()) = close_box(&mut builder.site) else {
        return Err(BuildErr::NoMemory);
    };
    Ok(())
}

/// The step into a node that is shown.
fn enter<'a>(
    alloc: Global,
    input: &FlowInput<'a>,
    node: NodeId,
    kind: NodeKind<'a>,
    builder: &mut FlowBuilder<'a>,
) -> Result<(), BuildErr>
    requires node { IsNodeOf input.now node.0 }
    requires kind { IsKindOf input.now node.0 kind }
    requires shown { builder.old.unshown ≡ None }
    requires site { TakesStep builder.old.site }
    requires can { CanEnterNode (source_in input.now) (role_in kind)
        (walk_in input.now.texts.now.styles.now builder.old) }
    ensures walk { OnOk result (walk_in input.now.texts.now.styles.now builder.new ≡
        enter_node (source_in input.now) node.0 (role_in kind.entry)
        (walk_in input.now.texts.now.styles.now builder.old)) }
    ensures within { OnOk result (IsWithinRoom builder.new.site) }
    ensures room { OnOk result (builder.new.site.room ≡ builder.old.site.room) }
    ensures cause { IfErr result (λ e. e ≡ BuildErr.Text → builder.old.site.room.bytes <
        leaf_bytes (enter_node (source_in input.now) node.0 (role_in kind.entry)
        (walk_in input.now.texts.now.styles.now builder.old)).gathered.built.tree.leaves) }
{
    match kind {
        NodeKind::Hidden => builder.unshown = Some(node),
        NodeKind::Text(text) => {
            let faced = style_around(input, node);
            let Ok(()) = push_text(faced, text, &mut builder.run) else {
                return Err(BuildErr::NoMemory);
            };
        }
        NodeKind::Inline(faced) => {
            let Ok(()) = enter_inline(input, node, faced, &mut builder.run) else {
                return Err(BuildErr::NoMemory);
            };
        }
        NodeKind::Block(faced) => enter_block(alloc, input, node, faced, builder)?,
        NodeKind::Note(_) => {
            let Ok(()) = enter_note(input, node, &mut builder.run) else {
                return Err(BuildErr::NoMemory);
            };
            builder.unshown = Some(node);
        }
    }
    Ok(())
}

/// The step out of a node that is shown.
fn leave<'a>(
    alloc: Global,
    input: &FlowInput<'a>,
    node: NodeId,
    kind: NodeKind<'a>,
    builder: &mut FlowBuilder<'a>,
) -> Result<(), BuildErr>
    requires node { IsNodeOf input.now node.0 }
    requires kind { IsFacedKind input.now kind }
    requires shown { builder.old.unshown ≡ None }
    requires site { TakesStep builder.old.site }
    requires can { CanLeaveNode (source_in input.now) node.0 (role_in kind)
        (walk_in input.now.texts.now.styles.now builder.old) }
    ensures walk { OnOk result (walk_in input.now.texts.now.styles.now builder.new ≡
        leave_node (source_in input.now) node.0 (role_in kind.entry)
        (walk_in input.now.texts.now.styles.now builder.old)) }
    ensures within { OnOk result (IsWithinRoom builder.new.site) }
    ensures room { OnOk result (builder.new.site.room ≡ builder.old.site.room) }
    ensures cause { IfErr result (λ e. e ≡ BuildErr.Text → builder.old.site.room.bytes <
        leaf_bytes (leave_node (source_in input.now) node.0 (role_in kind.entry)
        (walk_in input.now.texts.now.styles.now builder.old)).gathered.built.tree.leaves) }
{
    match kind {
        NodeKind::Hidden | NodeKind::Text(_) | NodeKind::Note(_) => {}
        NodeKind::Inline(_) => {
            let Ok(()) = push_last(input, node, &mut builder.run) else {
                return Err(BuildErr::NoMemory);
            };
        }
        NodeKind::Block(faced) => {
            leave_block(alloc, input, node, faced, builder)?;
            builder.blocks.pop();
        }
    }
    Ok(())
}

/// A step of the walk. Nothing is gathered in an element that is passed over, up to the step out of it.
pub(crate) fn pass<'a>(
    alloc: Global,
    input: &FlowInput<'a>,
    step: Step,
    builder: &mut FlowBuilder<'a>,
) -> Result<(), BuildErr>
    requires node { IsNodeOf input.now (node_of step) }
    requires site { TakesStep builder.old.site }
    requires can { CanStep (source_in input.now) (walk_in input.now.texts.now.styles.now builder.old) step }
    ensures walk { OnOk result (walk_in input.now.texts.now.styles.now builder.new ≡
        after_step (source_in input.now) (walk_in input.now.texts.now.styles.now builder.old) step) }
    ensures within { OnOk result (IsWithinRoom builder.new.site) }
    ensures room { OnOk result (builder.new.site.room ≡ builder.old.site.room) }
    ensures cause { IfErr result (λ e. e ≡ BuildErr.Text → builder.old.site.room.bytes <
        leaf_bytes (after_step (source_in input.now)
        (walk_in input.now.texts.now.styles.now builder.old) step).gathered.built.tree.leaves) }
{
    match (step, builder.unshown) {
        (Step::Enter(node), None) => enter(alloc, input, node, kind_of(input, node), builder),
        (Step::Leave(node), None) => leave(alloc, input, node, kind_of(input, node), builder),
        (Step::Enter(_), Some(_)) => Ok(()),
        (Step::Leave(node), Some(hidden)) => {
            if hidden == node {
                builder.unshown = None;
            }
            Ok(())
        }
    }
}
