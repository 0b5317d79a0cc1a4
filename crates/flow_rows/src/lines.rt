//! Lines of leaves: where they end, how high they are, and where the runs of their texts stand.

ghost use Rattle.std.specs.Prelude.{◌≡◌, ◌≤◌, ◌<◌, ◌^◌, length, unsigned_abs, IfSome};
ghost use Rattle.boxes.specs.Contents.{IsGoodLeaf};
ghost use Rattle.line_fill.specs.Kept.{AreKept};
ghost use Rattle.line_fill.specs.Widths.{is_hyphened};
ghost use Rattle.line_place.specs.Conditions.{HasFaces, IsInLeaf};

use crate::answers::unknown;
use crate::documents::even_faces;
use crate::leaves::{Form, Shape, leaf_of, nth, numbers};
use bk_num::name::NoMem;
use bk_num::steps::Steps;
use bk_num::values::Align;
use boxes::laws::make_line;
use boxes::leaf::Leaf;
use boxes::line::Line;
use line_fill::kept::Kept;
use line_fill::next_line;
use line_place::extent::line_height;
use line_place::runs::runs;
use metrics::{Faces, read_metrics};
use rows::{number, part, unescaped};
use std::alloc::Global;
use std::marker::Brand;
use std::sync::ledger::{Blank, Ledger};

/// A face of 16 units to the em: a letter has 8, a space and an `i` 4, a `W` 12, and a combining mark 0.
const UNEVEN: &str = "bookmetrics 1
face test normal 400 16 12 4 8
glyph 0020 0020 4
glyph 0057 0057 12
glyph 0069 0069 4
glyph 0300 036F 0
";

/// A form of a size, in lines of 1,280 units.
fn sized(size: u16) -> Form {
    Form {
        size,
        line_height: 1280,
    }
}

fn uneven_faces(alloc: Global) -> Result<Faces, NoMem> {
    match read_metrics(alloc, UNEVEN) {
        Ok(faces) => Ok(faces),
        Err(_) => Err(NoMem),
    }
}

/// The line of a leaf that begins at an offset. It is one that is kept where the leaf's lines are chosen as a whole.
fn line_from<L: Ledger>(
    alloc: Global,
    faces: &Faces,
    leaf: &Leaf,
    from: u32,
    measure: i64,
    kept: &mut Kept,
    steps: &mut Steps<L>,
) -> Result<Line, NoMem>
    requires good { IsGoodLeaf leaf.now }
    requires faced { HasFaces faces.now leaf.now }
    requires from { from < length leaf.now.text }
    requires measure { unsigned_abs measure ≤ 2 ^ 40 }
    requires kept { AreKept faces.now kept.old }
    ensures kept { AreKept faces.now kept.new }
{
    if leaf.fit {
        kept.line(alloc, faces, leaf, from, measure, steps)
    } else {
        Ok(next_line(faces, leaf, from, measure, steps))
    }
}

/// Where the lines of a leaf end, each with `-` for a shown hyphen.
fn ends_by<L: Ledger>(
    alloc: Global,
    faces: &Faces,
    leaf: &Leaf,
    measure: i64,
    token: Blank,
) -> Result<String, NoMem>
    requires name { token.name ≡ L.name }
    requires parts { token.parts ≡ L.parts }
    requires some { 0 < L.parts }
    requires good { IsGoodLeaf leaf.now }
    requires faced { HasFaces faces.now leaf.now }
    requires measure { unsigned_abs measure ≤ 2 ^ 40 }
{
    let mut steps = Steps::<L>::zero(token);
    let mut kept = Kept::new(alloc);
    let mut ends = String::new(alloc);
    let mut from = 0u32;
    for number in 0..leaf.text.as_str().len() {
        if from as usize >= leaf.text.as_str().len() {
            break;
        }
        let line = line_from(alloc, faces, leaf, from, measure, &mut kept, &mut steps)?;
        from = line.to();
        let between = if number > 0 { " " } else { "" };
        let hyphen = if line.hyphen() { "-" } else { "" };
        write!(ends, "{between}{from}{hyphen}").map_err(|_| NoMem)?;
    }
    Ok(ends)
}

/// The same, with a counter of its own.
fn ends_of(alloc: Global, faces: &Faces, leaf: &Leaf, measure: i64) -> Result<String, NoMem>
    requires good { IsGoodLeaf leaf.now }
    requires faced { HasFaces faces.now leaf.now }
    requires measure { unsigned_abs measure ≤ 2 ^ 40 }
{
    ends_by::<Brand>(alloc, faces, leaf, measure, Blank::new(1))
}

fn shape_ends(
    alloc: Global,
    faces: &Faces,
    shape: Shape<'_>,
    measure: &str,
) -> Result<String, NoMem> {
    if faces.len() == 0 {
        return unknown(alloc);
    }
    let leaf = leaf_of(alloc, faces, shape)?;
    let measure = number(measure).clamp(-1_000_000, 1_000_000);
    ends_of(alloc, faces, &leaf, measure)
}

fn ends_in_faces(alloc: Global, shape: Shape<'_>, measure: &str) -> Result<String, NoMem> {
    let faces = uneven_faces(alloc)?;
    shape_ends(alloc, &faces, shape, measure)
}

/// Where the lines of a text with some ordinary places end.
fn line_with(alloc: Global, text: &str, places: &[u16], parts: &[&str]) -> Result<String, NoMem> {
    let [_, _, _, graphemes, spans, indent, measure] = parts else {
        return unknown(alloc);
    };
    let graphemes = numbers(alloc, graphemes)?;
    let spans = numbers(alloc, spans)?;
    let (first, second) = (nth(spans.as_slice(), 1), nth(spans.as_slice(), 2));
    let shape = Shape {
        text,
        places,
        graphemes: graphemes.as_slice(),
        middle: usize::from(nth(spans.as_slice(), 0)),
        forms: [sized(first), sized(second), sized(1024)],
        align: Align::Left,
        fit: part(parts, 0) == "fit",
        indent,
    };
    ends_in_faces(alloc, shape, measure)
}

/// Where the lines of a text end.
fn line_ends(alloc: Global, text: &str, parts: &[&str]) -> Result<String, NoMem> {
    let [_, _, places, ..] = parts else {
        return unknown(alloc);
    };
    let places = numbers(alloc, places)?;
    line_with(alloc, text, places.as_slice(), parts)
}

/// Whether a line that ends at an offset shows a hyphen.
#[tactic(auto, unfolding(line_fill::specs::Widths::is_hyphened))]
fn is_hyphened(text: &[u8], to: usize) -> bool
    ensures { result ≡ is_hyphened text.now to }
{
    to < text.len() && 2 <= to && text[to - 2] == 0xC2 && text[to - 1] == 0xAD
}

/// The line between two offsets, if they can be those of a line.
fn line_of(leaf: &Leaf, from: u32, to: u32) -> Option<Line>
    ensures { IfSome result (λ line. IsInLeaf leaf.now line) }
{
    let text = leaf.text.as_str();
    if from < to && text.is_char_boundary(from as usize) && text.is_char_boundary(to as usize) {
        let hyphen = is_hyphened(text.as_bytes(), to as usize);
        return Some(make_line(from, to, hyphen));
    }
    None
}

/// The line between the two offsets of a part, if they can be those of a line.
fn given_line(leaf: &Leaf, part: &str) -> Option<Line>
    ensures { IfSome result (λ line. IsInLeaf leaf.now line) }
{
    let (from, to) = part.split_once(' ').unwrap_or((part, "0"));
    line_of(
        leaf,
        from.parse::<u32>().unwrap_or(0),
        to.parse::<u32>().unwrap_or(0),
    )
}

/// How high a line of a leaf is, and where its baseline stands.
fn shape_height(
    alloc: Global,
    faces: &Faces,
    shape: Shape<'_>,
    line: &str,
) -> Result<String, NoMem> {
    if faces.len() == 0 {
        return unknown(alloc);
    }
    let leaf = leaf_of(alloc, faces, shape)?;
    let Some(line) = given_line(&leaf, line) else {
        return unknown(alloc);
    };
    let extent = line_height(faces, &leaf, line);
    let (height, baseline) = (extent.height, extent.baseline);
    Ok(format!(in alloc; "{height} {baseline}")?)
}

/// A size and a line height.
fn form_of(part: &str) -> Form {
    let (size, line_height) = part.split_once(' ').unwrap_or((part, "0"));
    Form {
        size: size.parse::<u16>().unwrap_or(0),
        line_height: line_height.parse::<u16>().unwrap_or(0),
    }
}

fn height(alloc: Global, text: &str, parts: &[&str]) -> Result<String, NoMem> {
    let [_, _, strut, first, second, middle, line] = parts else {
        return unknown(alloc);
    };
    let shape = Shape {
        text,
        places: &[],
        graphemes: &[],
        middle: middle.parse::<usize>().unwrap_or(0),
        forms: [form_of(first), form_of(second), form_of(strut)],
        align: Align::Left,
        fit: false,
        indent: "0",
    };
    let faces = even_faces(alloc)?;
    shape_height(alloc, &faces, shape, line)
}

fn align_of(word: &str) -> Align {
    match word {
        "right" => Align::Right,
        "center" => Align::Center,
        "justify" => Align::Justify,
        _ => Align::Left,
    }
}

/// The runs of a line: where each begins, the offsets between which it stands, its span, and `-` for a shown hyphen.
fn runs_in(
    alloc: Global,
    faces: &Faces,
    leaf: &Leaf,
    line: Line,
    measure: u16,
) -> Result<String, NoMem>
    requires good { IsGoodLeaf leaf.now }
    requires faced { HasFaces faces.now leaf.now }
    requires line { IsInLeaf leaf.now line }
{
    let mut text = String::new(alloc);
    let mut between = "";
    for run in runs(alloc, faces, leaf, line, i64::from(measure))?.as_slice() {
        let (x, from, to, span) = (run.x, run.from, run.to, run.span);
        let hyphen = if run.hyphen { " -" } else { "" };
        write!(text, "{between}{x} {from} {to} {span}{hyphen}").map_err(|_| NoMem)?;
        between = ", ";
    }
    Ok(text)
}

fn shape_runs(
    alloc: Global,
    faces: &Faces,
    shape: Shape<'_>,
    measure: &str,
    line: &str,
) -> Result<String, NoMem> {
    if faces.len() == 0 {
        return unknown(alloc);
    }
    let leaf = leaf_of(alloc, faces, shape)?;
    let Some(line) = given_line(&leaf, line) else {
        return unknown(alloc);
    };
    let measure = measure.parse::<u16>().unwrap_or(0);
    runs_in(alloc, faces, &leaf, line, measure)
}

fn line_runs(alloc: Global, text: &str, parts: &[&str]) -> Result<String, NoMem> {
    let [_, _, middle, size, align, indent, measure, line] = parts else {
        return unknown(alloc);
    };
    let second = sized(size.parse::<u16>().unwrap_or(0));
    let shape = Shape {
        text,
        places: &[],
        graphemes: &[],
        middle: middle.parse::<usize>().unwrap_or(0),
        forms: [sized(1024), second, sized(1024)],
        align: align_of(align),
        fit: false,
        indent,
    };
    let faces = even_faces(alloc)?;
    shape_runs(alloc, &faces, shape, measure, line)
}

fn of_text(alloc: Global, text: &str, parts: &[&str]) -> Result<String, NoMem> {
    match parts {
        ["line", ..] | ["fit", ..] => line_ends(alloc, text, parts),
        ["height", ..] => height(alloc, text, parts),
        ["runs", ..] => line_runs(alloc, text, parts),
        _ => unknown(alloc),
    }
}

/// The answer to a question of lines of a text.
pub(crate) fn answer(alloc: Global, parts: &[&str]) -> Result<String, NoMem> {
    let [_, text, ..] = parts else {
        return unknown(alloc);
    };
    let text = unescaped(alloc, text)?;
    of_text(alloc, text.as_str(), parts)
}
