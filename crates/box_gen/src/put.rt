//! A run is put into the tree.

ghost use Rattle.std.specs.Prelude.{◌≡◌, suc, ◌+◌, ◌<◌, ◌≤◌, ◌++◌, length, option_map, OnOk, IfErr, IsTrue, if◌then◌else◌};
ghost use Rattle.std.specs.List.{All};
ghost use Rattle.bk_num.specs.Limits.{most_text_bytes};
ghost use Rattle.boxes.specs.Contents.{IsGoodBox, IsGoodLeaf, IsGoodSpan};
ghost use Rattle.boxes.specs.Tree.{HaveOwners, takes_box, takes_leaf, with_box, with_leaf};
ghost use Rattle.box_gen.specs.Faces.{face_of};
ghost use Rattle.box_gen.specs.Flow as spec;
ghost use Rattle.box_gen.specs.Flow.{put, shut, starts_by};
ghost use Rattle.box_gen.specs.Leaves.{IsGoodRun, leaf_style_of};
ghost use Rattle.box_gen.specs.Props as props;
ghost use Rattle.box_gen.specs.Runs.{AreGoodTexts};
ghost use Rattle.box_gen.specs.Sites.{IsCounted, TakesRun, built_in, leaf_bytes, with_any, with_text};
ghost use Rattle.box_gen.specs.Sources.{IsInRange};
ghost use Rattle.soft_hyphens.specs.Words.{points_in};

use crate::faced::FacedStyle;
use crate::inline::{BuildErr, InlineStart};
use crate::leaf::{RunText, leaf_of, leaf_style, run_text};
use crate::props::anonymous_props;
use crate::run::InlineRun;
use bk_num::ids::NodeId;
use bk_num::items::Items;
use bk_num::name::NoMem;
use boxes::flow::Start;
use boxes::leaf::{Lead, Leaf};
use boxes::place::Position;
use boxes::props::BoxProps;
use boxes::tree::BoxTree;
use soft_hyphens::hyphenator::Hyphenator;
use std::alloc::Global;

/// How many bytes the leaves of a tree may have, and how many events the tree: what the other trees of the flow leave.
#[derive(Clone, Copy)]
pub(crate) struct TreeRoom {
    pub(crate) bytes: u32,
    pub(crate) events: u32,
}

/// The tree so far, where elements begin, the markers that have no line yet, how many bytes the leaves have, and the
/// tree's room.
#[derive(Drop)]
pub(crate) struct Site {
    pub(crate) tree: BoxTree,
    pub(crate) starts: Vec<Start>,
    pub(crate) pending: Vec<Lead>,
    pub(crate) bytes: u32,
    pub(crate) room: TreeRoom,
}

/// Where an element begins.
pub(crate) fn start_at(node: NodeId, event: u32, offset: u32) -> Start
    ensures { result ≡ spec.start_at node.0 event offset }
{
    Start {
        node,
        note: None,
        at: Position { event, offset },
    }
}

/// Adds where the elements of a run begin, whose leaf is an event.
fn push_starts(starts: &mut Vec<Start>, event: u32, of: &[InlineStart]) -> Result<(), NoMem>
    ensures { OnOk result (starts.new.items ≡ starts.old.items ++ starts_by event of.now) }
{
    for start in of {
        starts.push(start_at(start.node, event, start.offset))?;
    }
    Ok(())
}

/// Puts a leaf in an anonymous box.
fn put_wrapped(tree: &mut BoxTree, anonymous: BoxProps, leaf: Leaf) -> Result<(), NoMem>
    requires few { length tree.old.events < 7999990 }
    requires place { IsTrue (takes_box tree.old.events) }
    requires boxed { IsGoodBox anonymous }
    requires good { IsGoodLeaf leaf }
    requires owners { HaveOwners tree.old.events leaf.leads }
    ensures { OnOk result (tree.new ≡ shut (with_leaf (with_box tree.old anonymous) leaf)) }
{
    tree.add_box(anonymous)?;
    tree.add_leaf(leaf)?;
    tree.close_box()
}

/// Puts a leaf, in an anonymous box or not.
fn put_leaf(tree: &mut BoxTree, wrap: bool, anonymous: BoxProps, leaf: Leaf) -> Result<(), NoMem>
    requires few { length tree.old.events < 7999990 }
    requires place { IsTrue (if wrap then takes_box tree.old.events else takes_leaf tree.old.events) }
    requires boxed { IsGoodBox anonymous }
    requires good { IsGoodLeaf leaf }
    requires owners { HaveOwners tree.old.events leaf.leads }
    ensures { OnOk result (tree.new ≡
        (if wrap then shut (with_leaf (with_box tree.old anonymous) leaf) else with_leaf tree.old leaf)) }
{
    if wrap {
        put_wrapped(tree, anonymous, leaf)
    } else {
        tree.add_leaf(leaf)?;
        Ok(())
    }
}

/// The event of a leaf that is put next, in an anonymous box or not.
fn leaf_event(tree: &BoxTree, wrap: bool) -> u32
    requires { length tree.now.events < 7999990 }
    ensures { result ≡ (if wrap then suc (length tree.now.events) else length tree.now.events) }
{
    if wrap { tree.count() + 1 } else { tree.count() }
}

/// Puts a text that isn't empty into a block of a style: a leaf, which takes the markers that wait.
fn put_some(
    alloc: Global,
    faced: &FacedStyle<'_>,
    wrap: bool,
    site: &mut Site,
    run: RunText,
) -> Result<(), NoMem>
    requires some { 0 < length run.text }
    requires range { IsInRange faced.now.style }
    requires good { IsGoodRun run }
    requires sizes { All IsGoodSpan run.spans }
    requires takes { TakesRun wrap site.old }
    ensures built { OnOk result (built_in site.new ≡
        with_text wrap (leaf_style_of faced.now.style (face_of faced.now.faces faced.now.style))
        (props.anonymous_props faced.now.style) (built_in site.old) run.text run.spans run.starts) }
    ensures bytes { OnOk result (site.new.bytes ≡ site.old.bytes) }
    ensures room { OnOk result (site.new.room ≡ site.old.room) }
{
    let look = leaf_style(faced);
    let event = leaf_event(&site.tree, wrap);
    push_starts(&mut site.starts, event, run.starts.as_slice())?;
    let leads = std::mem::replace(&mut site.pending, Vec::new(alloc));
    let leaf = leaf_of(alloc, run, &look, Items::of(leads))?;
    put_leaf(&mut site.tree, wrap, anonymous_props(faced.style()), leaf)?;
    Ok(())
}

/// Puts the text of a run into a block of a style, and the places where its elements begin.
fn put_any(
    alloc: Global,
    faced: &FacedStyle<'_>,
    wrap: bool,
    site: &mut Site,
    run: RunText,
) -> Result<(), NoMem>
    requires range { IsInRange faced.now.style }
    requires good { IsGoodRun run }
    requires sizes { All IsGoodSpan run.spans }
    requires takes { TakesRun wrap site.old }
    ensures built { OnOk result (built_in site.new ≡
        with_any wrap (leaf_style_of faced.now.style (face_of faced.now.faces faced.now.style))
        (props.anonymous_props faced.now.style) (built_in site.old) run.text run.spans run.starts) }
    ensures bytes { OnOk result (site.new.bytes ≡ site.old.bytes) }
    ensures room { OnOk result (site.new.room ≡ site.old.room) }
{
    if run.text.as_str().is_empty() {
        let event = site.tree.count();
        push_starts(&mut site.starts, event, run.starts.as_slice())?;
        Ok(())
    } else {
        put_some(alloc, faced, wrap, site, run)
    }
}

/// How many bytes the text of a run has.
fn bytes_of(run: &RunText) -> u32
    requires { length run.now.text ≤ most_text_bytes }
    ensures { result ≡ length run.now.text }
{
    run.text.as_str().len() as u32
}

/// Puts the text of a run into a block of a style, and counts its bytes.
fn put_text(
    alloc: Global,
    faced: &FacedStyle<'_>,
    wrap: bool,
    site: &mut Site,
    run: RunText,
) -> Result<(), NoMem>
    requires range { IsInRange faced.now.style }
    requires good { IsGoodRun run }
    requires sizes { All IsGoodSpan run.spans }
    requires room { site.old.bytes + length run.text ≤ site.old.room.bytes }
    requires takes { TakesRun wrap site.old }
    requires count { IsCounted site.old }
    ensures built { OnOk result (built_in site.new ≡
        with_any wrap (leaf_style_of faced.now.style (face_of faced.now.faces faced.now.style))
        (props.anonymous_props faced.now.style) (built_in site.old) run.text run.spans run.starts) }
    ensures count { OnOk result (IsCounted site.new) }
    ensures room { OnOk result (site.new.room ≡ site.old.room) }
{
    let bytes = bytes_of(&run);
    put_any(alloc, faced, wrap, site, run)?;
    site.bytes += bytes;
    Ok(())
}

/// Puts a run into a block of a style: a leaf, where its text isn't empty, and the places where its elements begin.
///
/// # Errors
///
/// `Text` where the leaves with that of the run have more bytes than there is room for.
pub(crate) fn put_run<'a>(
    alloc: Global,
    hyphenator: Option<&Hyphenator<'_>>,
    faced: &FacedStyle<'_>,
    wrap: bool,
    site: &mut Site,
    items: InlineRun<'a>,
) -> Result<(), BuildErr>
    requires range { IsInRange faced.now.style }
    requires texts { AreGoodTexts items }
    requires takes { TakesRun wrap site.old }
    requires count { IsCounted site.old }
    ensures built { OnOk result (built_in site.new ≡
        put (points_in (option_map (λ h. h.now) hyphenator.entry))
        (leaf_style_of faced.now.style (face_of faced.now.faces faced.now.style))
        (props.anonymous_props faced.now.style) wrap (built_in site.old) items.entry) }
    ensures count { OnOk result (IsCounted site.new) }
    ensures room { OnOk result (site.new.room ≡ site.old.room) }
    ensures cause { IfErr result (λ e. e ≡ BuildErr.Text → site.old.room.bytes < leaf_bytes
        (put (points_in (option_map (λ h. h.now) hyphenator.entry))
        (leaf_style_of faced.now.style (face_of faced.now.faces faced.now.style))
        (props.anonymous_props faced.now.style) wrap (built_in site.old) items.entry).tree.leaves) }
{
    match run_text(alloc, &items, site.room.bytes - site.bytes, hyphenator) {
        Err(e) => Err(e),
        Ok(run) => match put_text(alloc, faced, wrap, site, run) {
            Ok(()) => Ok(()),
            Err(_) => Err(BuildErr::NoMemory),
        },
    }
}
