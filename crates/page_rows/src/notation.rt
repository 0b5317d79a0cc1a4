//! Places, pages and trees of questions in short.

ghost use Rattle.std.specs.Prelude.{◌<◌, ◌≤◌, length, IfOk};

use bk_num::ids::NameId;
use bk_num::items::Items;
use bk_num::name::NoMem;
use bk_num::values::BreakAt;
use boxes::frames::{Frame, PageKind};
use boxes::page::{Page, PageList, Placed, SolidKind};
use boxes::place::Position;
use boxes::tree::BoxTree;
use metrics::{Faces, read_metrics};
use rows::number;
use std::alloc::Global;
use tree_fixtures::shape::{PLAIN, Shape, Space};
use tree_fixtures::tree::{Step, tree_of};

/// The answer to a question of no known form.
pub(crate) fn unknown(alloc: Global) -> Result<String, NoMem> {
    match String::from_str(alloc, "?") {
        Ok(answer) => Ok(answer),
        Err(_) => Err(NoMem),
    }
}

/// The faces of a metrics text, at least one.
pub(crate) fn faces_of(alloc: Global, metrics: &str) -> Result<Faces, NoMem>
    requires { length metrics.now ≤ 33554432 }
    ensures { IfOk result (λ faces. 0 < length faces) }
{
    let Ok(faces) = read_metrics(alloc, metrics) else {
        return Err(NoMem);
    };
    if faces.len() == 0 {
        return Err(NoMem);
    }
    Ok(faces)
}

/// A number from 0 on.
pub(crate) fn count(word: &str) -> u32 {
    word.parse::<u32>().unwrap_or(0)
}

/// A number of units from 0 on.
pub(crate) fn units(word: &str) -> u16 {
    word.parse::<u16>().unwrap_or(0)
}

/// A place: an event, or an event and an offset, as `2.5`.
pub(crate) fn position(word: &str) -> Position {
    let (event, offset) = word.split_once('.').unwrap_or((word, "0"));
    Position {
        event: count(event),
        offset: count(offset),
    }
}

/// The place after an event.
fn after(at: Position) -> Position {
    Position {
        event: at.event.saturating_add(1),
        offset: 0,
    }
}

/// A line from one place to another, as `2.0-2.5`, or from a place to the next event.
fn line(word: &str) -> Placed {
    let (at, end) = match word.split_once('-') {
        Some((at, end)) => (position(at), position(end)),
        None => (position(word), after(position(word))),
    };
    Placed {
        at,
        end,
        top: 0,
        height: 1280,
        kind: SolidKind::Line,
    }
}

/// Adds a line of the main tree, or, as `note0`, one of a note; or sets the level of the page, as `level2`, its name,
/// as `name1`, or the height of its frame, as `high20`.
fn add_word(page: &mut Page, word: &str) -> Result<(), NoMem> {
    if let Some(note) = word.strip_prefix("note") {
        return page.notes.push((count(note), line("1")));
    }
    if let Some(level) = word.strip_prefix("level") {
        page.level = count(level).min(3) as u8;
    } else if let Some(name) = word.strip_prefix("name") {
        page.name = NameId(count(name));
    } else if let Some(height) = word.strip_prefix("high") {
        page.frame.height = i64::from(units(height));
    } else {
        return page.solids.push(line(word));
    }
    Ok(())
}

/// A page of lines, which may begin with `blank` or `notes`.
fn page_of(alloc: Global, index: u32, words: &str) -> Result<Page, NoMem> {
    let (kind, words) = match words.split_once(' ').unwrap_or((words, "")) {
        ("blank", rest) => (PageKind::Blank, rest),
        ("notes", rest) => (PageKind::Notes, rest),
        _ => (PageKind::Flow, words),
    };
    let mut page = Page {
        index,
        kind,
        name: NameId(0),
        frame: Frame {
            left: 0,
            top: 0,
            width: 100,
            height: 100,
        },
        solids: Items::new(alloc),
        notes: Items::new(alloc),
        level: 0,
    };
    for word in words.split_whitespace() {
        add_word(&mut page, word)?;
    }
    Ok(page)
}

/// Pages with `/` between them, or `none`.
pub(crate) fn pages_of(alloc: Global, part: &str) -> Result<PageList, NoMem> {
    let mut pages = Items::new(alloc);
    if part != "none" {
        for words in part.split('/') {
            let index = (pages.as_slice().len() as u64).min(1_000_000) as u32 + 1;
            pages.push(page_of(alloc, index, words)?)?;
        }
    }
    Ok(PageList { pages })
}

/// A margin: units, or hundredths of the containing block's width, as `13%`.
fn space(word: &str) -> Space {
    match word.strip_suffix('%') {
        Some(part) => Space::Percent(number(part).clamp(-1000, 1000) as i16),
        None => Space::Units(number(word).clamp(-1_000_000, 1_000_000) as i32),
    }
}

fn break_at(word: &str) -> BreakAt {
    match word {
        "avoid" => BreakAt::Avoid,
        "column" => BreakAt::Column,
        "page" => BreakAt::Page,
        "left" => BreakAt::Left,
        "right" => BreakAt::Right,
        _ => BreakAt::Auto,
    }
}

/// A shape with one more property: `mt` and `mb` margins, `bt` and `bb` borders, `pt` and `pb` paddings in hundredths,
/// `pl` the left padding, `before` and `after` breaks, `inside:avoid`, `break:clone`, `o` orphans, `w` widows, `n` the
/// page name.
fn with_property(mut shape: Shape, word: &str) -> Shape {
    let (name, value) = word.split_once(':').unwrap_or((word, ""));
    match name {
        "mt" => shape.margin_top = space(value),
        "mb" => shape.margin_bottom = space(value),
        "bt" => shape.border_top = units(value),
        "bb" => shape.border_bottom = units(value),
        "pt" => shape.padding_top = units(value),
        "pb" => shape.padding_bottom = units(value),
        "pl" => shape.padding_left = units(value),
        "before" => shape.before = break_at(value),
        "after" => shape.after = break_at(value),
        "inside" => shape.avoid_inside = value == "avoid",
        "break" => shape.clones = value == "clone",
        "o" => shape.orphans = count(value),
        "w" => shape.widows = count(value),
        "n" => shape.name = count(value),
        _ => {}
    }
    shape
}

/// A box without margins and edges, which asks nothing of breaks but what the words say.
fn shape_of(words: &str) -> Shape {
    let mut shape = PLAIN;
    for word in words.split_whitespace() {
        shape = with_property(shape, word);
    }
    shape
}

fn add_step<'a>(steps: &mut Vec<Step<'a>>, step: Step<'a>) -> Result<(), NoMem> {
    match steps.push(step) {
        Ok(_) => Ok(()),
        Err(_) => Err(NoMem),
    }
}

/// Adds a plain box with a text.
fn add_boxed<'a>(steps: &mut Vec<Step<'a>>, text: &'a str) -> Result<(), NoMem> {
    add_step(steps, Step::Open(PLAIN))?;
    add_step(steps, Step::Text(text))?;
    add_step(steps, Step::Close)
}

/// Adds a step: `(` and the properties of a box that opens, `)` where one closes, else a text; `=` and a text is a
/// plain box with it.
fn push_step<'a>(steps: &mut Vec<Step<'a>>, step: &'a str) -> Result<(), NoMem> {
    if let Some(words) = step.strip_prefix('(') {
        add_step(steps, Step::Open(shape_of(words)))
    } else if let Some(text) = step.strip_prefix('=') {
        add_boxed(steps, text)
    } else if step == ")" {
        add_step(steps, Step::Close)
    } else {
        add_step(steps, Step::Text(step))
    }
}

/// The steps of a tree, with `;` between them.
pub(crate) fn steps_of<'a>(alloc: Global, tree: &'a str) -> Result<Vec<Step<'a>>, NoMem> {
    let mut steps = Vec::new(alloc);
    for step in tree.split(';') {
        push_step(&mut steps, step.trim_matches(' '))?;
    }
    Ok(steps)
}

/// The tree of a question.
pub(crate) fn tree_in_short(alloc: Global, tree: &str) -> Result<BoxTree, NoMem> {
    let steps = steps_of(alloc, tree)?;
    tree_of(alloc, steps.as_slice(), true)
}
