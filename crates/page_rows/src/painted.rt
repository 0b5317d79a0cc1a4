//! The items of a page, of a flow of two trees with one text, the second being the body of a note.

ghost use Rattle.std.specs.Prelude.{◌≡◌, false, ◌<◌, ◌∷◌, [], ◌++◌, length, All, IfOk, OnOk, Some};
ghost use Rattle.bk_num.specs.Ranges.{IsNotAuto, IsNotNegative};
ghost use Rattle.boxes.specs.Clones.{AreSliced};
ghost use Rattle.boxes.specs.Contents.{AreOffsets, IsGoodBox, IsGoodLeaf, IsGoodSpan};
ghost use Rattle.paint.specs.Conditions.{CanBePainted, CanFlowBePainted, IsFaced};

use crate::notation::{faces_of, units, unknown};
use bk_num::ids::NameId;
use bk_num::items::{Items, Text};
use bk_num::length::Len;
use bk_num::limits::{MOST_EVENTS, MOST_OPEN};
use bk_num::name::{Name, NoMem};
use bk_num::values::{Align, BreakAt, Color};
use boxes::flow::{Flow, Note};
use boxes::frames::{Frame, PageKind};
use boxes::leaf::{Lead, Leads, Leaf, Offsets};
use boxes::page::{Page, Placed, PlacedNote, SolidKind};
use boxes::place::Position;
use boxes::props::BoxProps;
use boxes::tree::BoxTree;
use metrics::Faces;
use paint::item::{Area, ItemRef};
use paint::order::is_page_of;
use paint::place::place;
use rows::{escaped, number, unescaped};
use std::alloc::{AllocError, Global};
use tree_fixtures::leaf::span_to;
use tree_fixtures::shape::px;

/// A face whose characters are half as wide as it is high, three quarters of it above the baseline.
const METRICS: &str = "bookmetrics 1\nface test normal 400 16 12 4 8\nglyph 0300 036F 0\n";

/// A length from 0 on, in units.
fn len(units: u16) -> Len
    ensures good { IsNotNegative result }
    ensures no_auto { IsNotAuto result }
{
    Len::Px(px(units))
}

/// A grey of a level.
fn grey(level: u16) -> Color {
    let level = u8::try_from(level).unwrap_or(0);
    Color {
        red: level,
        green: level,
        blue: level,
    }
}

/// A box with a border on all sides, a padding above and below, and one on the left, in units, and the level of its
/// background, 0 for none. The levels of its borders are 11 to 14.
fn props_of(border: u16, upright: u16, left: u16, background: u16) -> BoxProps
    ensures good { IsGoodBox result }
    ensures sliced { result.clones ≡ false }
{
    BoxProps {
        margin: [len(0), len(0), len(0), len(0)],
        border: [px(border), px(border), px(border), px(border)],
        padding: [len(upright), len(0), len(upright), len(left)],
        width: Len::Auto,
        before: BreakAt::Auto,
        after: BreakAt::Auto,
        avoid_inside: false,
        clones: false,
        widows: 1,
        orphans: 1,
        name: NameId(0),
        background: if background == 0 {
            None
        } else {
            Some(grey(background))
        },
        colors: [grey(11), grey(12), grey(13), grey(14)],
        node: None,
    }
}

/// One place at which lines may end, or none.
fn places_of(alloc: Global, text: &str, place: u16) -> Result<Offsets, NoMem>
    ensures { IfOk result (λ places. AreOffsets text.now places) }
{
    let mut places = Items::new(alloc);
    if place == 0 || !text.is_char_boundary(usize::from(place)) {
        return Ok(places);
    }
    places.push(u32::from(place))?;
    Ok(places)
}

/// A marker of box 2, or none.
fn leads_of(alloc: Global, text: &str) -> Result<Leads, NoMem>
    ensures good { IfOk result (λ leads. All (λ lead. IsGoodSpan lead.span) leads) }
    ensures owner { IfOk result (λ leads. All (λ lead. lead.owner ≡ 2) leads) }
    ensures face { IfOk result (λ leads. All (λ lead. lead.span.face.0 ≡ 0) leads) }
{
    let mut leads = Items::new(alloc);
    if text.is_empty() {
        return Ok(leads);
    }
    leads.push(Lead {
        text: Name::new(alloc, text)?,
        span: span_to(0),
        owner: 2,
    })?;
    Ok(leads)
}

/// A leaf of one span.
fn leaf_of(
    alloc: Global,
    faces: &Faces,
    text: &str,
    place: u16,
    align: Align,
    lead: &str,
) -> Result<Leaf, NoMem>
    requires { 0 < length faces.now }
    ensures good { IfOk result (λ leaf. IsGoodLeaf leaf) }
    ensures faced { IfOk result (λ leaf. IsFaced faces.now leaf) }
    ensures owner { IfOk result (λ leaf. All (λ lead. lead.owner ≡ 2) leaf.leads) }
{
    if text.is_empty() || text.len() > 1000 {
        return Err(NoMem);
    }
    let mut spans = Items::new(alloc);
    spans.push(span_to(text.len() as u32))?;
    Ok(Leaf {
        text: Text::of(String::from_str(alloc, text)?),
        spans,
        places: places_of(alloc, text, place)?,
        graphemes: Items::new(alloc),
        leads: leads_of(alloc, lead)?,
        indent: Len::Px(px(0)),
        align,
        fit: false,
        strut: span_to(0),
    })
}

fn open(tree: &mut BoxTree, props: BoxProps) -> Result<(), NoMem>
    requires good { IsGoodBox props }
    requires sliced { props.clones ≡ false }
    ensures leaves { OnOk result (tree.new.leaves ≡ tree.old.leaves) }
    ensures sliced { OnOk result (AreSliced tree.old.boxes → AreSliced tree.new.boxes) }
{
    if tree.count() >= MOST_EVENTS || !tree.takes_box() {
        return Err(NoMem);
    }
    tree.add_box(props)?;
    Ok(())
}

fn close(tree: &mut BoxTree) -> Result<(), NoMem>
    ensures leaves { OnOk result (tree.new.leaves ≡ tree.old.leaves) }
    ensures boxes { OnOk result (tree.new.boxes ≡ tree.old.boxes) }
{
    if tree.count() < MOST_EVENTS && tree.around(tree.count()).is_some() {
        tree.close_box()
    } else {
        Err(NoMem)
    }
}

/// Adds a leaf to box 2.
fn fill(tree: &mut BoxTree, leaf: Leaf) -> Result<(), NoMem>
    requires good { IsGoodLeaf leaf }
    requires owner { All (λ lead. lead.owner ≡ 2) leaf.leads }
    ensures leaves { OnOk result (tree.new.leaves ≡ tree.old.leaves ++ leaf ∷ []) }
    ensures boxes { OnOk result (tree.new.boxes ≡ tree.old.boxes) }
{
    if tree.count() >= MOST_EVENTS || !tree.takes_leaf() || tree.around(tree.count()) != Some(2) {
        return Err(NoMem);
    }
    tree.add_leaf(leaf)?;
    Ok(())
}

/// Opens the root, box 1 and box 2. Box 1 has a border and paddings, and each has a background or none.
fn open_all(tree: &mut BoxTree, sides: &[i64]) -> Result<(), NoMem>
    ensures leaves { OnOk result (tree.new.leaves ≡ tree.old.leaves) }
    ensures sliced { OnOk result (AreSliced tree.old.boxes → AreSliced tree.new.boxes) }
{
    let (border, upright, left) = (small(sides, 0), small(sides, 1), small(sides, 2));
    open(tree, props_of(0, 0, 0, small(sides, 3)))?;
    open(tree, props_of(border, upright, left, small(sides, 4)))?;
    open(tree, props_of(0, 0, 0, small(sides, 5)))
}

/// Closes box 2, box 1 and the root.
fn close_all(tree: &mut BoxTree) -> Result<(), NoMem>
    ensures leaves { OnOk result (tree.new.leaves ≡ tree.old.leaves) }
    ensures boxes { OnOk result (tree.new.boxes ≡ tree.old.boxes) }
{
    close(tree)?;
    close(tree)?;
    close(tree)
}

/// A leaf in box 2, in box 1, in the root.
fn tree_of(alloc: Global, faces: &Faces, sides: &[i64], leaf: Leaf) -> Result<BoxTree, NoMem>
    requires good { IsGoodLeaf leaf }
    requires faced { IsFaced faces.now leaf }
    requires owner { All (λ lead. lead.owner ≡ 2) leaf.leads }
    ensures painted { IfOk result (λ tree. CanBePainted faces.now tree) }
    ensures sliced { IfOk result (λ tree. AreSliced tree.boxes) }
{
    // only contracts name the faces
    let _faces = faces;
    let mut tree = BoxTree::new(alloc);
    let opened = open_all(&mut tree, sides);
    let filled = fill(&mut tree, leaf);
    opened?;
    filled?;
    close_all(&mut tree)?;
    if tree.depth() > MOST_OPEN {
        return Err(NoMem);
    }
    Ok(tree)
}

fn align_of(word: &str) -> Align {
    match word {
        "right" => Align::Right,
        "justify" => Align::Justify,
        _ => Align::Left,
    }
}

/// The numbers of a field.
fn numbers(alloc: Global, field: &str) -> Result<Vec<i64>, NoMem> {
    let mut numbers = Vec::new(alloc);
    for word in field.split_whitespace() {
        numbers.push(number(word))?;
    }
    Ok(numbers)
}

/// The number at a place.
fn nth(numbers: &[i64], place: usize) -> i64 {
    numbers.get(place).copied().unwrap_or(0)
}

/// A number at a place that is from 0 to 65,535.
fn small(numbers: &[i64], place: usize) -> u16 {
    u16::try_from(nth(numbers, place)).unwrap_or(0)
}

/// A solid: the event and the offset at which it begins, those at which it ends, its top and its height.
fn solid_of(numbers: &[i64]) -> Placed {
    Placed {
        at: Position {
            event: u32::from(small(numbers, 0)),
            offset: u32::from(small(numbers, 1)),
        },
        end: Position {
            event: u32::from(small(numbers, 2)),
            offset: u32::from(small(numbers, 3)),
        },
        top: nth(numbers, 4),
        height: nth(numbers, 5),
        kind: SolidKind::Line,
    }
}

fn solids_of(alloc: Global, field: &str) -> Result<Items<Placed>, NoMem> {
    let mut solids = Items::new(alloc);
    for part in field.split(',') {
        if !part.is_empty() {
            solids.push(solid_of(&numbers(alloc, part)?))?;
        }
    }
    Ok(solids)
}

fn notes_of(alloc: Global, field: &str) -> Result<Items<PlacedNote>, NoMem> {
    let mut notes = Items::new(alloc);
    for part in field.split(',') {
        if !part.is_empty() {
            notes.push((0, solid_of(&numbers(alloc, part)?)))?;
        }
    }
    Ok(notes)
}

fn page_of(alloc: Global, frame: &str, solids: &str, notes: &str) -> Result<Page, NoMem> {
    let frame = numbers(alloc, frame)?;
    let solids = solids_of(alloc, solids)?;
    let notes = notes_of(alloc, notes)?;
    Ok(Page {
        index: 1,
        kind: PageKind::Flow,
        name: NameId(0),
        frame: Frame {
            left: nth(&frame, 0),
            top: nth(&frame, 1),
            width: nth(&frame, 2),
            height: nth(&frame, 3),
        },
        solids,
        notes,
        level: 0,
    })
}

/// A leaf and its flow: the sides of its boxes, a place at which its lines may end, its alignment, its marker, and its
/// text.
#[derive(Clone, Copy)]
struct Asked<'a> {
    sides: &'a str,
    place: &'a str,
    align: &'a str,
    lead: &'a str,
    text: &'a str,
}

/// A tree with the leaf.
fn tree_asked(alloc: Global, faces: &Faces, asked: Asked<'_>) -> Result<BoxTree, NoMem>
    requires { 0 < length faces.now }
    ensures painted { IfOk result (λ tree. CanBePainted faces.now tree) }
    ensures sliced { IfOk result (λ tree. AreSliced tree.boxes) }
{
    let sides = numbers(alloc, asked.sides)?;
    let (place, align) = (units(asked.place), align_of(asked.align));
    let leaf = leaf_of(alloc, faces, asked.text, place, align, asked.lead)?;
    tree_of(alloc, faces, &sides, leaf)
}

/// A note whose body is such a tree.
fn note_asked(alloc: Global, faces: &Faces, asked: Asked<'_>) -> Result<Note, NoMem>
    requires { 0 < length faces.now }
    ensures painted { IfOk result (λ note. CanBePainted faces.now note.body) }
    ensures sliced { IfOk result (λ note. AreSliced note.body.boxes) }
{
    let call = Position {
        event: 3,
        offset: 0,
    };
    let body = tree_asked(alloc, faces, asked)?;
    Ok(Note { call, body })
}

/// A flow of two such trees, the second being the body of a note.
fn flow_of(alloc: Global, faces: &Faces, asked: Asked<'_>) -> Result<Flow, NoMem>
    requires { 0 < length faces.now }
    ensures { IfOk result (λ flow. CanFlowBePainted faces.now flow) }
{
    let main = tree_asked(alloc, faces, asked)?;
    let mut notes = Items::new(alloc);
    notes.push(note_asked(alloc, faces, asked)?)?;
    Ok(Flow {
        main,
        notes,
        starts: Items::new(alloc),
        strings: Items::new(alloc),
        resets: Items::new(alloc),
    })
}

/// An area with the word of its item.
fn push_area(line: &mut String, word: &str, area: &Area) -> Result<(), AllocError> {
    let Area { x, y, w, h } = *area;
    write!(line, "{word} {x} {y} {w} {h};")
}

fn push_rect(line: &mut String, area: &Area, level: u8) -> Result<(), AllocError> {
    let Area { x, y, w, h } = *area;
    write!(line, "rect {x} {y} {w} {h} {level};")
}

/// An item in short: its kind, its place, its size or its text; of a rectangle its level.
fn push_item(line: &mut String, item: &ItemRef<'_>) -> Result<(), AllocError> {
    match item {
        ItemRef::Rect { area, color } => push_rect(line, area, color.red),
        ItemRef::Edge { opens, area } => {
            push_area(line, if *opens { "edge open" } else { "edge close" }, area)
        }
        ItemRef::Line { area } => push_area(line, "line", area),
        ItemRef::Text { style, text } => write!(line, "text {} {} {text};", style.x, style.y),
        ItemRef::Hyphen { style } => write!(line, "hyphen {} {};", style.x, style.y),
    }
}

/// Items in short.
fn push_items(line: &mut String, items: &[ItemRef<'_>]) -> Result<(), AllocError> {
    for item in items {
        push_item(line, item)?;
    }
    Ok(())
}

/// The items of a page in short, or `refused`.
fn shown(alloc: Global, flow: &Flow, faces: &Faces, page: &Page) -> Result<String, NoMem>
    requires { CanFlowBePainted faces.now flow.now }
{
    if !is_page_of(flow, page) {
        return Ok(String::from_str(alloc, "refused")?);
    }
    let items = place(alloc, flow, faces, page)?;
    let mut out = String::new(alloc);
    push_items(&mut out, items.as_slice())?;
    Ok(out)
}

/// The items of a page of such a flow, in these faces.
fn shown_in(alloc: Global, faces: &Faces, asked: Asked<'_>, page: &Page) -> Result<String, NoMem>
    requires { 0 < length faces.now }
{
    let flow = flow_of(alloc, faces, asked)?;
    shown(alloc, &flow, faces, page)
}

fn items_of(alloc: Global, asked: Asked<'_>, page: &Page) -> Result<String, NoMem> {
    let faces = faces_of(alloc, METRICS)?;
    shown_in(alloc, &faces, asked, page)
}

/// The items of a page of such a flow, or `nothing`.
fn painted(alloc: Global, asked: Asked<'_>, page: &Page) -> Result<String, NoMem> {
    let items = items_of(alloc, asked, page)?;
    let items = if items.is_empty() {
        "nothing"
    } else {
        items.as_str()
    };
    Ok(escaped(alloc, items)?)
}

/// The answer to a question about a page: its frame; the sides of the boxes; where lines may end, and the alignment;
/// the marker; the text; the solids of the flow, and of the note.
pub(crate) fn answer(alloc: Global, parts: &[&str]) -> Result<String, NoMem> {
    match parts {
        [
            "paint",
            frame,
            sides,
            place,
            align,
            lead,
            text,
            solids,
            notes,
        ] => {
            let text = unescaped(alloc, text)?;
            let page = page_of(alloc, frame, solids, notes)?;
            let asked = Asked {
                sides,
                place,
                align,
                lead,
                text: text.as_str(),
            };
            painted(alloc, asked, &page)
        }
        _ => unknown(alloc),
    }
}
