//! The walks over a document: that over the main tree, which passes over notes, and those over the bodies of notes.

ghost use Rattle.std.specs.Prelude.{
  ◌≡◌,
  ◌<◌,
  ◌+◌,
  ◌++◌,
  ◌∷◌,
  List,
  [],
  None,
  Some,
  false,
  true,
  length,
  map,
  option_map,
  IfErr,
  IfOk,
  OnOk,
};
ghost use Rattle.std.specs.Option.{ForSome};
ghost use Rattle.bk_num.specs.Limits.{most_events, most_text_bytes};
ghost use Rattle.bk_num.specs.declared.values.Pseudo.TheVariants as pseudo;
ghost use Rattle.dom.specs.Walk.{node_of};
ghost use Rattle.style.specs.Nodes.{NodeStyles, style_at};
ghost use Rattle.box_gen.specs.Bodies as bodies;
ghost use Rattle.box_gen.specs.Bodies.{CanInNote, CanNotes, after_both, note_begun, note_ended, noted, notes_after, outside};
ghost use Rattle.box_gen.specs.Flow.{bodies_of, built_of, last_items, note_root};
ghost use Rattle.box_gen.specs.Gather.{adds};
ghost use Rattle.box_gen.specs.Sites.{HasRoom, IsGoodRoom, IsWithinRoom, TakesStep, built_in, leaf_bytes};
ghost use Rattle.box_gen.specs.Sources.{IsFacedIn, IsInput, IsInRange, IsNodeOf, source_in};
ghost use Rattle.box_gen.specs.Steps.{CanEnd, CanStep, walk_in};
ghost use Rattle.box_gen.specs.Trees.{in_note};
ghost use Rattle.box_gen.specs.Walk as walk;
ghost use Rattle.box_gen.specs.Walk.{after_step};
ghost use Rattle.box_gen.specs.Walkers.{AreShared, IsBody, AreSoundWalks, all_bytes, all_events, bodies_bytes, body_bytes_after, body_in, over_in, walks_in};

use crate::builder::{FlowBuilder, innermost, leave_block, new_builder, new_site, pass};
use crate::faced::FacedStyle;
use crate::inline::BuildErr;
use crate::input::{FlowInput, NodeKind, kind_of, within_note};
use crate::pieces::push_note_first;
use crate::props::props_of;
use crate::put::{Site, TreeRoom, start_at};
use crate::run::InlineRun;
use bk_num::ids::NodeId;
use bk_num::limits::{MOST_EVENTS, MOST_TEXT_BYTES};
use bk_num::name::NoMem;
use dom::{Step, Walk};
use std::alloc::Global;
use style::style::Style;

/// The walk over the main tree, that in the body of the note it passes over, and the bodies of the notes before it.
#[derive(Drop)]
pub(crate) struct Walker<'a> {
    pub(crate) main: FlowBuilder<'a>,
    pub(crate) body: Option<FlowBuilder<'a>>,
    pub(crate) bodies: Vec<Site>,
}

/// What a tree leaves of its room.
fn room_after(site: &Site) -> TreeRoom
    requires { IsWithinRoom site.now }
    ensures bytes { result.bytes + site.now.bytes ≡ site.now.room.bytes }
    ensures events { result.events + length site.now.tree.events ≡ site.now.room.events }
{
    TreeRoom {
        bytes: site.room.bytes - site.bytes,
        events: site.room.events - site.tree.count(),
    }
}

/// The root of a note: the box of its element, which hangs no marker.
fn note_site(alloc: Global, node: NodeId, style: &Style, room: TreeRoom) -> Result<Site, NoMem>
    requires range { IsInRange style.now }
    requires room { IsGoodRoom room }
    requires some { 0 < room.events }
    ensures built { IfOk result (λ site. built_in site ≡ note_root node.0 style.now) }
    ensures within { IfOk result (λ site. IsWithinRoom site) }
    ensures room { IfOk result (λ site. site.room ≡ room) }
{
    let mut site = new_site(alloc, room);
    site.tree.add_box(props_of(style, node, false))?;
    site.starts.push(start_at(node, 0, 0))?;
    Ok(site)
}

/// The walk in a note begins.
fn note_builder<'a>(
    alloc: Global,
    input: &FlowInput<'a>,
    node: NodeId,
    faced: &FacedStyle<'_>,
    room: TreeRoom,
) -> Result<FlowBuilder<'a>, NoMem>
    requires node { IsNodeOf input.now node.0 }
    requires own { style_at input.now.texts.now.styles.now node.0 pseudo.Element ≡ Some faced.now.style }
    requires faced { IsFacedIn input.now faced.now }
    requires room { IsGoodRoom room }
    requires some { 0 < room.events }
    ensures walk { IfOk result (λ b. walk_in input.now.texts.now.styles.now b ≡
        note_begun (source_in input.now) node.0 faced.now.style) }
    ensures within { IfOk result (λ b. IsWithinRoom b.site) }
    ensures room { IfOk result (λ b. b.site.room ≡ room) }
{
    let site = note_site(alloc, node, faced.style(), room)?;
    let mut run = InlineRun::new(alloc);
    push_note_first(input, node, faced, &mut run)?;
    let mut blocks = Vec::new(alloc);
    blocks.push(node)?;
    Ok(FlowBuilder {
        site,
        run,
        blocks,
        unshown: None,
    })
}

/// Begins a note in the room that the main tree leaves.
fn begin_note<'a>(
    alloc: Global,
    input: &FlowInput<'a>,
    node: NodeId,
    faced: &FacedStyle<'_>,
    main: &Site,
) -> Result<FlowBuilder<'a>, BuildErr>
    requires node { IsNodeOf input.now node.0 }
    requires own { style_at input.now.texts.now.styles.now node.0 pseudo.Element ≡ Some faced.now.style }
    requires faced { IsFacedIn input.now faced.now }
    requires within { IsWithinRoom main.now }
    requires room { length main.now.tree.events < main.now.room.events }
    ensures walk { IfOk result (λ b. walk_in input.now.texts.now.styles.now b ≡
        note_begun (in_note (source_in input.now)) node.0 faced.now.style) }
    ensures within { IfOk result (λ b. IsWithinRoom b.site) }
    ensures bytes { IfOk result (λ b. b.site.room.bytes + main.now.bytes ≡ main.now.room.bytes) }
    ensures events { IfOk result (λ b. b.site.room.events + length main.now.tree.events ≡ main.now.room.events) }
    ensures cause { IfErr result (λ e. e ≡ BuildErr.NoMemory) }
{
    let room = room_after(main);
    match note_builder(alloc, &within_note(input), node, faced, room) {
        Ok(body) => Ok(body),
        Err(_) => Err(BuildErr::NoMemory),
    }
}

/// A step outside notes, and the body of the note that it begins.
fn pass_outside<'a>(
    alloc: Global,
    input: &FlowInput<'a>,
    step: Step,
    main: &mut FlowBuilder<'a>,
) -> Result<Option<FlowBuilder<'a>>, BuildErr>
    requires node { IsNodeOf input.now (node_of step) }
    requires site { TakesStep main.old.site }
    requires can { CanStep (source_in input.now) (walk_in input.now.texts.now.styles.now main.old) step }
    ensures walk { OnOk result (walk_in input.now.texts.now.styles.now main.new ≡
        after_step (source_in input.now) (walk_in input.now.texts.now.styles.now main.old) step) }
    ensures body { IfOk result (λ b. body_in input.now.texts.now.styles.now b ≡
        outside (source_in input.now) (over_in main.old) step) }
    ensures within { OnOk result (IsWithinRoom main.new.site) }
    ensures room { OnOk result (main.new.site.room ≡ main.old.site.room) }
    ensures sound { IfOk result (λ b. ForSome b (IsBody main.new)) }
    ensures cause { IfErr result (λ e. e ≡ BuildErr.Text → main.old.site.room.bytes <
        leaf_bytes (after_step (source_in input.now)
        (walk_in input.now.texts.now.styles.now main.old) step).gathered.built.tree.leaves) }
{
    let over = main.unshown;
    pass(alloc, input, step, main)?;
    match (step, over) {
        (Step::Enter(node), None) => match kind_of(input, node) {
            NodeKind::Note(faced) => Ok(Some(begin_note(alloc, input, node, faced, &main.site)?)),
            _ => Ok(None),
        },
        _ => Ok(None),
    }
}

/// Whether a step leads out of the element that is passed over.
fn is_end(step: Step, over: Option<NodeId>) -> bool
    ensures { result ≡ bodies.is_end (option_map (λ n. n.0) over) step }
{
    match (step, over) {
        (Step::Leave(node), Some(passed)) => passed == node,
        _ => false,
    }
}

/// Ends a note: its last run is put, and its root closed.
fn end_note<'a>(
    alloc: Global,
    input: &FlowInput<'a>,
    node: NodeId,
    body: FlowBuilder<'a>,
) -> Result<Site, BuildErr>
    requires node { IsNodeOf input.now node.0 }
    requires site { TakesStep body.site }
    requires can { CanEnd (in_note (source_in input.now))
        (walk.innermost (walk_in input.now.texts.now.styles.now body).blocks)
        (adds (last_items (in_note (source_in input.now)) node.0)
        (walk_in input.now.texts.now.styles.now body).gathered) }
    ensures built { IfOk result (λ site. built_in site ≡
        note_ended (in_note (source_in input.now)) node.0 (walk_in input.now.texts.now.styles.now body.entry)) }
    ensures within { IfOk result (λ site. IsWithinRoom site) }
    ensures room { IfOk result (λ site. site.room ≡ body.entry.site.room) }
    ensures cause { IfErr result (λ e. e ≡ BuildErr.Text → body.entry.site.room.bytes <
        leaf_bytes (note_ended (in_note (source_in input.now)) node.0
        (walk_in input.now.texts.now.styles.now body.entry)).tree.leaves) }
{
    let mut body = body;
    let faced = innermost(input, &body.blocks);
    leave_block(alloc, input, node, faced, &mut body)?;
    Ok(body.site)
}

/// Keeps the body of a note that has ended: the main tree's room is less by it.
fn keep_body(site: Site, main: &mut FlowBuilder, bodies: &mut Vec<Site>) -> Result<(), NoMem>
    requires shared { AreShared main.old.site bodies.old.items }
    requires within { IsWithinRoom site }
    requires bytes { site.room.bytes + main.old.site.bytes ≡ main.old.site.room.bytes }
    requires events { site.room.events + length main.old.site.tree.events ≡ main.old.site.room.events }
    ensures shared { OnOk result (AreShared main.new.site bodies.new.items) }
    ensures bodies { OnOk result (bodies.new.items ≡ bodies.old.items ++ site ∷ []) }
    ensures built { OnOk result (built_in main.new.site ≡ built_in main.old.site) }
    ensures run { OnOk result (main.new.run ≡ main.old.run) }
    ensures blocks { OnOk result (main.new.blocks ≡ main.old.blocks) }
    ensures unshown { OnOk result (main.new.unshown ≡ None) }
{
    main.unshown = None;
    main.site.room.bytes -= site.bytes;
    main.site.room.events -= site.tree.count();
    bodies.push(site)?;
    Ok(())
}

/// The node of a step.
fn node_in(step: Step) -> NodeId
    ensures { result.0 ≡ node_of step }
{
    match step {
        Step::Enter(node) | Step::Leave(node) => node,
    }
}

/// The step out of a note: its body is kept, and the walk over the main tree goes on.
fn end_inside<'a>(
    alloc: Global,
    input: &FlowInput<'a>,
    step: Step,
    body: FlowBuilder<'a>,
    main: &mut FlowBuilder<'a>,
    bodies: &mut Vec<Site>,
) -> Result<(), BuildErr>
    requires node { IsNodeOf input.now (node_of step) }
    requires shared { AreShared main.old.site bodies.old.items }
    requires body { IsBody main.old body }
    requires room { HasRoom body.site }
    requires can { CanInNote (in_note (source_in input.now)) (walk_in input.now.texts.now.styles.now body) step true }
    ensures main { OnOk result (walk_in input.now.texts.now.styles.now main.new ≡
        walk.walk (walk_in input.now.texts.now.styles.now main.old).gathered
        (walk_in input.now.texts.now.styles.now main.old).blocks None) }
    ensures bodies { OnOk result (map built_in bodies.new.items ≡ map built_in bodies.old.items ++
        note_ended (in_note (source_in input.now)) (node_of step)
        (walk_in input.now.texts.now.styles.now body.entry) ∷ []) }
    ensures shared { OnOk result (AreShared main.new.site bodies.new.items) }
    ensures cause { IfErr result (λ e. e ≡ BuildErr.Text → body.entry.site.room.bytes <
        leaf_bytes (note_ended (in_note (source_in input.now)) (node_of step)
        (walk_in input.now.texts.now.styles.now body.entry)).tree.leaves) }
{
    let site = end_note(alloc, input, node_in(step), body)?;
    let Ok(()) = keep_body(site, main, bodies) else {
        return Err(BuildErr::NoMemory);
    };
    Ok(())
}

/// A step in a note that doesn't end it.
fn pass_body<'a>(
    alloc: Global,
    input: &FlowInput<'a>,
    step: Step,
    body: &mut FlowBuilder<'a>,
) -> Result<(), BuildErr>
    requires node { IsNodeOf input.now (node_of step) }
    requires site { TakesStep body.old.site }
    requires can { CanInNote (in_note (source_in input.now))
        (walk_in input.now.texts.now.styles.now body.old) step false }
    ensures walk { OnOk result (walk_in input.now.texts.now.styles.now body.new ≡
        after_step (in_note (source_in input.now)) (walk_in input.now.texts.now.styles.now body.old) step) }
    ensures within { OnOk result (IsWithinRoom body.new.site) }
    ensures room { OnOk result (body.new.site.room ≡ body.old.site.room) }
    ensures cause { IfErr result (λ e. e ≡ BuildErr.Text → body.old.site.room.bytes <
        leaf_bytes (after_step (in_note (source_in input.now))
        (walk_in input.now.texts.now.styles.now body.old) step).gathered.built.tree.leaves) }
{
    pass(alloc, &within_note(input), step, body)
}

/// A step in a note, and its body as long as it lasts.
fn pass_inside<'a>(
    alloc: Global,
    input: &FlowInput<'a>,
    step: Step,
    body: FlowBuilder<'a>,
    main: &mut FlowBuilder<'a>,
    bodies: &mut Vec<Site>,
) -> Result<Option<FlowBuilder<'a>>, BuildErr>
    requires node { IsNodeOf input.now (node_of step) }
    requires shared { AreShared main.old.site bodies.old.items }
    requires body { IsBody main.old body }
    requires room { HasRoom body.site }
    requires can { CanNotes (source_in input.now) (over_in main.old)
        (Some (walk_in input.now.texts.now.styles.now body)) step }
    ensures main { OnOk result (walk_in input.now.texts.now.styles.now main.new ≡
        after_step (source_in input.now) (walk_in input.now.texts.now.styles.now main.old) step) }
    ensures notes { IfOk result (λ b. noted (body_in input.now.texts.now.styles.now b) (map built_in bodies.new.items) ≡
        notes_after (source_in input.now) (over_in main.old) (Some (walk_in input.now.texts.now.styles.now body.entry))
        (map built_in bodies.old.items)
        step) }
    ensures shared { OnOk result (AreShared main.new.site bodies.new.items) }
    ensures sound { IfOk result (λ b. ForSome b (IsBody main.new)) }
    ensures cause { IfErr result (λ e. e ≡ BuildErr.Text → body.entry.site.room.bytes <
        body_bytes_after (source_in input.now) (over_in main.old)
        (walk_in input.now.texts.now.styles.now body.entry) step) }
{
    if is_end(step, main.unshown) {
        end_inside(alloc, input, step, body, main, bodies)?;
        return Ok(None);
    }
    let mut body = body;
    pass_body(alloc, input, step, &mut body)?;
    Ok(Some(body))
}

/// A step of the walks over a document.
fn pass_all<'a>(
    alloc: Global,
    input: &FlowInput<'a>,
    step: Step,
    walker: &mut Walker<'a>,
) -> Result<(), BuildErr>
    requires node { IsNodeOf input.now (node_of step) }
    requires sound { AreSoundWalks walker.old }
    requires can { CanStep (source_in input.now) (walk_in input.now.texts.now.styles.now walker.old.main) step }
    requires notes { CanNotes (source_in input.now) (over_in walker.old.main)
        (body_in input.now.texts.now.styles.now walker.old.body) step }
    requires room { all_events (walks_in input.now.texts.now.styles.now walker.old) + 10 < most_events }
    ensures walks { OnOk result (walks_in input.now.texts.now.styles.now walker.new ≡
        after_both (source_in input.now) (walks_in input.now.texts.now.styles.now walker.old) step) }
    ensures sound { OnOk result (AreSoundWalks walker.new) }
    ensures cause { IfErr result (λ e. e ≡ BuildErr.Text → most_text_bytes <
        all_bytes (after_both (source_in input.now) (walks_in input.now.texts.now.styles.now walker.old) step)) }
{
    let Walker { main, body, bodies } = walker;
    match body.take() {
        None => *body = pass_outside(alloc, input, step, main)?,
        Some(inside) => *body = pass_inside(alloc, input, step, inside, main, bodies)?,
    }
    Ok(())
}

/// The walks before the first step.
fn new_walker<'a>(alloc: Global) -> Walker<'a>
    ensures walks { (styles : List NodeStyles) → walks_in styles result ≡ bodies.walks_start }
    ensures sound { AreSoundWalks result }
{
    let room = TreeRoom {
        bytes: MOST_TEXT_BYTES as u32,
        events: MOST_EVENTS,
    };
    Walker {
        main: new_builder(alloc, room),
        body: None,
        bodies: Vec::new(alloc),
    }
}

/// The whole walk.
pub(crate) fn walk_through<'a>(alloc: Global, input: &FlowInput<'a>) -> Result<Walker<'a>, BuildErr>
    requires input { IsInput input.now }
    ensures main { IfOk result (λ w. built_of (source_in input.now) ≡ built_in w.main.site) }
    ensures bodies { IfOk result (λ w. map built_in w.bodies.items ≡ bodies_of (source_in input.now)) }
    ensures shared { IfOk result (λ w. AreShared w.main.site w.bodies.items) }
    ensures cause { IfErr result (λ e. e ≡ BuildErr.Text → most_text_bytes <
        leaf_bytes (built_of (source_in input.now)).tree.leaves + bodies_bytes (bodies_of (source_in input.now))) }
{
    prove!(input.texts.dom.len() > 0);
    let mut walker = new_walker(alloc);
    let mut steps = Walk::new(input.texts.dom);
    while let Some(step) = steps.next() {
        match pass_all(alloc, input, step, &mut walker) {
            Ok(()) => {}
            Err(e) => return Err(e),
        }
    }
    Ok(walker)
}
