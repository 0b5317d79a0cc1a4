//! The leaves of inline text.

ghost use Rattle.std.specs.Prelude.{◌≡◌, ◌<◌, ◌≤◌, ◌++◌, ◌∷◌, [], List, ℕ, Option, length, map, option_map, IfOk, IfErr, OnOk};
ghost use Rattle.std.specs.List.{All};
ghost use Rattle.std.specs.Str.{IsCharBoundary};
ghost use Rattle.inline_text.specs.Joined.{ends_from, laid_texts};
ghost use Rattle.bk_num.specs.Limits.{most_text_bytes};
ghost use Rattle.bk_num.specs.Ranges.{IsNotAuto};
ghost use Rattle.boxes.specs.Contents.{IsGoodLeaf, IsGoodSpan};
ghost use Rattle.metrics.specs.Choice.{Chooses};
ghost use Rattle.inline_text.specs.Space.{collapsed};
ghost use Rattle.soft_hyphens.specs.Words.{Points, points_in};
ghost use Rattle.box_gen.specs.Faces.{face_of};
ghost use Rattle.box_gen.specs.Items as item;
ghost use Rattle.box_gen.specs.Items.{InlineItem, IsTextOf, generated_part, items_in, text_in};
ghost use Rattle.box_gen.specs.Leaves.{HasRun, IsGoodRun, leaf_by, leaf_style_of};
ghost use Rattle.box_gen.specs.Runs.{
  AreGoodTexts,
  marks_in,
  parts_in,
  printed_in,
  span_between,
  spans_from,
  spans_of,
  starts_from,
  starts_of,
  styles_in,
  text_of,
};
ghost use Rattle.box_gen.specs.TextStyles.{IsGoodTextStyle};

use crate::faced::FacedStyle;
use crate::hyphens::hyphenated;
use crate::inline::{BuildErr, GeneratedText, InlineStart, InlineText, ItemMark};
use crate::run::{InlineRun, RunEntry};
use crate::text_style::{TextStyle, span_by, text_style};
use bk_num::ids::NodeId;
use bk_num::items::{Items, Text};
use bk_num::length::Len;
use bk_num::name::NoMem;
use bk_num::values::Align;
use boxes::leaf::{Leads, Leaf, Span, Spans};
use gen_text::texts::generated_text;
use inline_text::joined::JoinedText;
use inline_text::part::BorrowedPart;
use inline_text::places::opportunities;
use inline_text::space::Collapser;
use soft_hyphens::hyphenator::Hyphenator;
use std::alloc::Global;

/// The text of a run, its spans, and where its elements begin.
#[derive(Drop)]
pub struct RunText {
    pub text: Text,
    pub spans: Spans,
    pub starts: Items<InlineStart>,
}

/// What a block gives to the leaves in it: its strut, the indent of the first line, and how lines are aligned.
#[derive(Clone, Copy, Debug)]
pub struct LeafStyle {
    pub strut: TextStyle,
    pub indent: Len,
    pub align: Align,
    pub fit: bool,
}

/// What a block of a style gives to the leaves in it.
pub fn leaf_style(faced: &FacedStyle<'_>) -> LeafStyle
    ensures value { result ≡ leaf_style_of faced.now.style (face_of faced.now.faces faced.now.style) }
    ensures face { result.strut.face.0 < length faced.now.faces }
    ensures chosen { Chooses faced.now.faces faced.now.style.font_family faced.now.style.font_style
        faced.now.style.font_weight result.strut.face }
{
    let style = faced.style();
    LeafStyle {
        strut: text_style(faced, style.white_space),
        indent: style.text_indent,
        align: style.text_align,
        fit: style.book_fill,
    }
}

/// The pass over a run: its texts with their white space collapsed, and its items without their letters.
#[derive(Drop)]
pub(crate) struct RunPass {
    collapser: Collapser,
    marks: Vec<ItemMark>,
}

/// The pass before the first item, with room for some bytes.
fn new_pass(alloc: Global, room: usize) -> Result<RunPass, NoMem>
    ensures { IfOk result (λ pass. HasRun pass []) }
{
    Ok(RunPass {
        collapser: Collapser::new(alloc, room)?,
        marks: Vec::new(alloc),
    })
}

/// Passes a text that is set so.
fn pass_part(part: &BorrowedPart<'_>, style: TextStyle, pass: &mut RunPass) -> Result<(), NoMem>
    ensures { (items : List InlineItem) → HasRun pass.old items → OnOk result
        (HasRun pass.new (items ++ item.Text (record { part = part.now; style = style }) ∷ [])) }
{
    pass.marks.push(ItemMark::Text(style))?;
    pass.collapser.pass(part)?;
    Ok(())
}

/// Passes a text that is generated: it is made here, and let go.
fn pass_generated(alloc: Global, made: &GeneratedText<'_>, pass: &mut RunPass) -> Result<(), NoMem>
    ensures { (items : List InlineItem) → HasRun pass.old items → OnOk result (HasRun pass.new
        (items ++ item.Text (record { part = generated_part made.now; style = made.now.style }) ∷ [])) }
{
    let text = generated_text(alloc, made.texts, made.node, made.pseudo)?;
    let part = BorrowedPart::new(text.as_str(), made.space);
    pass_part(&part, made.style, pass)?;
    Ok(())
}

/// Passes a text.
fn pass_text(alloc: Global, text: &InlineText<'_>, pass: &mut RunPass) -> Result<(), NoMem>
    ensures { (items : List InlineItem) → HasRun pass.old items →
        OnOk result (HasRun pass.new (items ++ item.Text (text_in text.now) ∷ [])) }
{
    match text {
        InlineText::Own(text) => pass_part(&text.part, text.style, pass),
        InlineText::Generated(text) => pass_generated(alloc, text, pass),
    }
}

/// Passes the place at which an element begins.
fn pass_start(node: NodeId, pass: &mut RunPass) -> Result<(), NoMem>
    ensures { (items : List InlineItem) → HasRun pass.old items →
        OnOk result (HasRun pass.new (items ++ item.Start node ∷ [])) }
{
    pass.marks.push(ItemMark::Start(node))?;
    Ok(())
}

/// Passes what comes next in a run.
fn pass_entry(
    alloc: Global,
    entry: &RunEntry,
    texts: &[InlineText<'_>],
    pass: &mut RunPass,
) -> Result<(), NoMem>
    requires { IsTextOf (length texts.now) entry.now }
    ensures { (items : List InlineItem) → HasRun pass.old items →
        OnOk result (HasRun pass.new (items ++ items_in (map text_in texts.now) (entry.now ∷ []))) }
{
    match entry {
        RunEntry::Text(number) => pass_text(alloc, &texts[*number as usize], pass),
        RunEntry::Start(node) => pass_start(*node, pass),
    }
}

/// Passes what comes next in a run, unless the text so far has more bytes than `most` then: nothing later takes any of
/// it away.
fn pass_within(
    alloc: Global,
    entry: &RunEntry,
    texts: &[InlineText<'_>],
    most: u32,
    pass: &mut RunPass,
) -> Result<(), BuildErr>
    requires { IsTextOf (length texts.now) entry.now }
    ensures run { (items : List InlineItem) → HasRun pass.old items →
        OnOk result (HasRun pass.new (items ++ items_in (map text_in texts.now) (entry.now ∷ []))) }
    ensures cause { (points : Option Points) (items more : List InlineItem) → HasRun pass.old items →
        IfErr result (λ e. e ≡ BuildErr.Text →
        most < length (text_of points (items ++ items_in (map text_in texts.now) (entry.now ∷ []) ++ more))) }
{
    let Ok(()) = pass_entry(alloc, entry, texts, pass) else {
        return Err(BuildErr::NoMemory);
    };
    if pass.collapser.len() > most as usize {
        return Err(BuildErr::Text);
    }
    Ok(())
}

/// How many bytes the texts of a run have together that stand in the document, or the greatest number.
fn bytes_in(texts: &[InlineText<'_>]) -> usize {
    let mut bytes: usize = 0;
    for text in texts {
        if let InlineText::Own(text) = text {
            bytes = bytes.saturating_add(text.part.text().len());
        }
    }
    bytes
}

/// The pass over all that comes in a run.
fn pass_entries(
    alloc: Global,
    entries: &[RunEntry],
    texts: &[InlineText<'_>],
    most: u32,
) -> Result<RunPass, BuildErr>
    requires { All (IsTextOf (length texts.now)) entries.now }
    ensures run { IfOk result (λ pass. HasRun pass (items_in (map text_in texts.now) entries.now)) }
    ensures cause { (points : Option Points) → IfErr result (λ e. e ≡ BuildErr.Text →
        most < length (text_of points (items_in (map text_in texts.now) entries.now))) }
{
    let Ok(mut pass) = new_pass(alloc, bytes_in(texts).min(most as usize)) else {
        return Err(BuildErr::NoMemory);
    };
    for next in entries {
        match pass_within(alloc, next, texts, most, &mut pass) {
            Ok(()) => {}
            Err(e) => return Err(e),
        }
    }
    Ok(pass)
}

/// The pass over a whole run.
fn pass_run(alloc: Global, items: &InlineRun<'_>, most: u32) -> Result<RunPass, BuildErr>
    ensures run { IfOk result (λ pass. HasRun pass items.now) }
    ensures cause { (points : Option Points) → IfErr result (λ e. e ≡ BuildErr.Text →
        most < length (text_of points items.now)) }
{
    let (entries, texts) = items.parts();
    pass_entries(alloc, entries, texts, most)
}

/// The texts of a run that is passed, and the run without its letters.
fn finished(pass: RunPass) -> Result<(JoinedText, Vec<ItemMark>), NoMem>
    ensures { (items : List InlineItem) → HasRun pass items → IfOk result (λ r.
        (r.0 ≡ laid_texts (collapsed (parts_in items))) × (r.1.items ≡ marks_in items)) }
{
    let RunPass { collapser, marks } = pass;
    let texts = collapser.finish()?;
    Ok((texts, marks))
}

/// The texts of a run with its white space collapsed and its words hyphenated, and the run without its letters.
fn printed(
    alloc: Global,
    items: &InlineRun<'_>,
    most: u32,
    hyphenator: Option<&Hyphenator<'_>>,
) -> Result<(JoinedText, Vec<ItemMark>), BuildErr>
    ensures texts { IfOk result (λ r. r.0 ≡
        laid_texts (printed_in (points_in (option_map (λ h. h.now) hyphenator.entry)) items.now)) }
    ensures marks { IfOk result (λ r. r.1.items ≡ marks_in items.now) }
    ensures cause { (points : Option Points) → IfErr result (λ e. e ≡ BuildErr.Text →
        most < length (text_of points items.now)) }
{
    let pass = match pass_run(alloc, items, most) {
        Ok(pass) => pass,
        Err(e) => return Err(e),
    };
    let Ok((texts, marks)) = finished(pass) else {
        return Err(BuildErr::NoMemory);
    };
    match hyphenated(alloc, &marks, texts, hyphenator) {
        Ok(texts) => Ok((texts, marks)),
        Err(_) => Err(BuildErr::NoMemory),
    }
}

/// Adds a span, unless it is empty.
fn push_span(spans: &mut Vec<Span>, style: &TextStyle, from: u32, to: u32) -> Result<(), NoMem>
    ensures { OnOk result (spans.new.items ≡ spans.old.items ++ span_between style.now from to) }
{
    if from < to {
        spans.push(span_by(style, from, to))?;
    }
    Ok(())
}

fn push_start(starts: &mut Vec<InlineStart>, node: NodeId, offset: usize) -> Result<(), NoMem>
    requires { offset ≤ most_text_bytes }
    ensures { OnOk result (starts.new.items ≡ starts.old.items ++ record { node = node; offset = offset } ∷ []) }
{
    starts.push(InlineStart {
        node,
        offset: offset as u32,
    })?;
    Ok(())
}

/// Adds the spans of texts that stand one after the other and end at some offsets, and notes where elements begin
/// among them.
fn fill(
    marks: &[ItemMark],
    ends: &[usize],
    spans: &mut Vec<Span>,
    starts: &mut Vec<InlineStart>,
) -> Result<(), NoMem>
    requires each { length ends.now ≡ length (styles_in marks.now) }
    requires short { All (λ e. e ≤ most_text_bytes) ends.now }
    ensures spans { (texts : List (List ℕ)) → ends.now ≡ ends_from 0 texts →
        OnOk result (spans.new.items ≡ spans.old.items ++ spans_from 0 (styles_in marks.now) texts) }
    ensures starts { (texts : List (List ℕ)) → ends.now ≡ ends_from 0 texts →
        OnOk result (starts.new.items ≡ starts.old.items ++ starts_from 0 marks.now texts) }
{
    let mut next = 0;
    let mut at = 0;
    for mark in marks {
        match mark {
            ItemMark::Text(style) => {
                let to = ends[next];
                push_span(spans, style, at as u32, to as u32)?;
                at = to;
                next += 1;
            }
            ItemMark::Start(node) => push_start(starts, *node, at)?,
        }
    }
    Ok(())
}

/// The text of a run whose texts are joined.
fn marked_run(alloc: Global, marks: &[ItemMark], joined: JoinedText) -> Result<RunText, NoMem>
    requires each { length joined.ends ≡ length (styles_in marks.now) }
    requires short { length joined.bytes ≤ most_text_bytes }
    ensures text { IfOk result (λ run. run.text ≡ joined.bytes) }
    ensures spans { (texts : List (List ℕ)) → joined ≡ laid_texts texts →
        IfOk result (λ run. run.spans ≡ spans_from 0 (styles_in marks.now) texts) }
    ensures starts { (texts : List (List ℕ)) → joined ≡ laid_texts texts →
        IfOk result (λ run. run.starts ≡ starts_from 0 marks.now texts) }
    ensures stand { All (IsCharBoundary joined.bytes) joined.ends }
{
    let (text, ends) = joined.into_parts();
    let mut spans = Vec::new(alloc);
    let mut starts = Vec::new(alloc);
    fill(marks, &ends, &mut spans, &mut starts)?;
    Ok(RunText {
        text: Text::of(text),
        spans: Items::of(spans),
        starts: Items::of(starts),
    })
}

/// The text of a run with its white space collapsed and its words hyphenated, its spans, and where its elements begin.
///
/// Each character is passed once, and what is left of it is copied, from where it stands in the document, or from a
/// text that is generated and let go before the next item is passed; where patterns are given and some text of the run
/// is hyphenated, it is passed and copied once more.
///
/// # Errors
///
/// `Text` where the text has more bytes than `most`, at most 33,554,432. No item is passed after that is known.
#[tactic(auto, unfolding(crate::specs::Runs::text_of, crate::specs::Runs::spans_of, crate::specs::Runs::starts_of))]
pub fn run_text(
    alloc: Global,
    items: &InlineRun<'_>,
    most: u32,
    hyphenator: Option<&Hyphenator<'_>>,
) -> Result<RunText, BuildErr>
    requires { most ≤ most_text_bytes }
    ensures text { IfOk result (λ run. run.text ≡
        text_of (points_in (option_map (λ h. h.now) hyphenator.entry)) items.now) }
    ensures spans { IfOk result (λ run. run.spans ≡
        spans_of (points_in (option_map (λ h. h.now) hyphenator.entry)) items.now) }
    ensures starts { IfOk result (λ run. run.starts ≡
        starts_of (points_in (option_map (λ h. h.now) hyphenator.entry)) items.now) }
    ensures good { IfOk result (λ run. IsGoodRun run) }
    ensures sizes { AreGoodTexts items.now → IfOk result (λ run. All IsGoodSpan run.spans) }
    ensures most { IfOk result (λ run. length run.text ≤ most) }
    ensures cause { IfErr result (λ e. e ≡ BuildErr.Text →
        most < length (text_of (points_in (option_map (λ h. h.now) hyphenator.entry)) items.now)) }
{
    let (texts, marks) = match printed(alloc, items, most, hyphenator) {
        Ok(said) => said,
        Err(e) => return Err(e),
    };
    if texts.len() > most as usize {
        return Err(BuildErr::Text);
    }
    match marked_run(alloc, &marks, texts) {
        Ok(run) => Ok(run),
        Err(_) => Err(BuildErr::NoMemory),
    }
}

/// The leaf of a run in a block, with the markers that hang before its first line.
#[tactic(auto, unfolding(crate::specs::Leaves::leaf_by))]
pub fn leaf_of(alloc: Global, run: RunText, block: &LeafStyle, leads: Leads) -> Result<Leaf, NoMem>
    requires some { 0 < length run.text }
    requires good { IsGoodRun run }
    requires sizes { All IsGoodSpan run.spans }
    requires strut { IsGoodTextStyle block.now.strut }
    requires indent { IsNotAuto block.now.indent }
    requires leads { All (λ lead. IsGoodSpan lead.span) leads }
    ensures leaf { IfOk result (λ leaf. leaf ≡ leaf_by run.text run.spans block.now leads) }
    ensures good { IfOk result (λ leaf. IsGoodLeaf leaf) }
{
    let len = run.text.as_str().len() as u32;
    let (places, graphemes) = opportunities(alloc, run.text.as_str(), run.spans.as_slice())?;
    Ok(Leaf {
        text: run.text,
        spans: run.spans,
        places,
        graphemes,
        leads,
        indent: block.indent,
        align: block.align,
        fit: block.fit,
        strut: span_by(&block.strut, 0, len),
    })
}
