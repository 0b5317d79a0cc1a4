//! Texts of faces, the choice of a face, and its numbers.

use bk_num::ids::FaceId;
use bk_num::name::Name;
use bk_num::px::Px;
use metrics::{Faces, MetricsErr, read_metrics};
use rows::{number, part, unescaped};
use std::alloc::{AllocError, Global};

fn reading(alloc: Global, text: &str) -> Result<Faces, MetricsErr> {
    match unescaped(alloc, text) {
        Ok(text) if text.len() <= 33_554_432 => read_metrics(alloc, text.as_str()),
        _ => Err(MetricsErr::NoMemory),
    }
}

fn push_faces(text: &mut String, count: i64, line: &str) -> Result<(), AllocError> {
    text.push_str("bookmetrics 1\n")?;
    for number in 0..count.clamp(0, 100) {
        write!(text, "face f{number} normal 400 1000 800 200 500\n")?;
    }
    text.push_str(line)
}

/// A text of so many faces, `f0` and on, and a line more.
fn many(alloc: Global, count: i64, line: &str) -> Result<String, AllocError> {
    let mut text = String::new(alloc);
    push_faces(&mut text, count, line)?;
    Ok(text)
}

/// Names with commas between them; no text is no name.
fn names(alloc: Global, families: &str) -> Option<Vec<Name>> {
    let mut names = Vec::new(alloc);
    if !families.is_empty() {
        for family in families.split(',') {
            names.push(Name::new(alloc, family).ok()?).ok()?;
        }
    }
    Some(names)
}

/// The ascent or the descent of a face at a size, or the advance of a character.
fn scaled(faces: &Faces, face: i64, size: i64, what: &str) -> Option<i32> {
    let size = Px::from_units(size);
    if face < 0 || face >= i64::from(faces.len()) || size.units() < 0 {
        return None;
    }
    let face = FaceId(face as u16);
    let px = match what {
        "ascent" => faces.ascent(face, size),
        "descent" => faces.descent(face, size),
        _ => faces.advance(face, size, what.chars().next()?),
    };
    Some(px.units())
}

/// The advance of a character behind another one of a face at a size.
fn paired(faces: &Faces, face: i64, size: i64, first: char, c: char) -> Option<i32> {
    let size = Px::from_units(size);
    if face < 0 || face >= i64::from(faces.len()) || size.units() < 0 {
        return None;
    }
    Some(faces.paired(FaceId(face as u16), size, first, c).units())
}

/// The number of the face that is chosen, by its properties or as one value.
fn face_of(faces: &Faces, names: &[Name], parts: &[&str]) -> FaceId {
    let italic = part(parts, 3) == "italic";
    let weight = number(part(parts, 4)).clamp(0, 1000) as u16;
    if part(parts, 0) == "choose" {
        faces.choose(names, italic, weight)
    } else {
        metrics::chosen::choose(faces, names, italic, weight)
    }
}

fn chosen(alloc: Global, faces: &Faces, parts: &[&str]) -> Option<i32> {
    let names = names(alloc, part(parts, 2))?;
    Some(i32::from(face_of(faces, &names, parts).0))
}

fn scaled_part(alloc: Global, faces: &Faces, parts: &[&str]) -> Option<i32> {
    let what = unescaped(alloc, part(parts, 4)).ok()?;
    let (face, size) = (number(part(parts, 2)), number(part(parts, 3)));
    scaled(faces, face, size, what.as_str())
}

fn paired_part(alloc: Global, faces: &Faces, parts: &[&str]) -> Option<i32> {
    let (first, second) = (
        unescaped(alloc, part(parts, 4)).ok()?,
        unescaped(alloc, part(parts, 5)).ok()?,
    );
    let (first, second) = (
        first.as_str().chars().next()?,
        second.as_str().chars().next()?,
    );
    let (face, size) = (number(part(parts, 2)), number(part(parts, 3)));
    paired(faces, face, size, first, second)
}

/// What is asked of the faces of a text, as a number.
fn number_of(alloc: Global, faces: &Faces, parts: &[&str]) -> Option<i32> {
    match part(parts, 0) {
        "choose" | "choice" => chosen(alloc, faces, parts),
        "scaled" => scaled_part(alloc, faces, parts),
        "paired" => paired_part(alloc, faces, parts),
        _ => Some(i32::from(faces.len())),
    }
}

/// The name, the style and the weight of a face.
fn label(alloc: Global, faces: &Faces, face: i64) -> Result<String, AllocError> {
    if face < 0 || face >= i64::from(faces.len()) {
        return String::from_str(alloc, "?");
    }
    let (name, italic, weight) = faces.label(FaceId(face as u16));
    let style = if italic { "italic" } else { "normal" };
    format!(in alloc; "{name} {style} {weight}")
}

/// What is asked of the faces of a text.
fn of_faces(alloc: Global, faces: &Faces, parts: &[&str]) -> Result<String, AllocError> {
    if part(parts, 0) == "label" {
        return label(alloc, faces, number(part(parts, 2)));
    }
    match number_of(alloc, faces, parts) {
        Some(n) => format!(in alloc; "{n}"),
        None => String::from_str(alloc, "?"),
    }
}

/// The answer about the faces of a text, or the line and the cause of its fault.
fn of_text(alloc: Global, text: &str, parts: &[&str]) -> Result<String, AllocError> {
    match reading(alloc, text) {
        Ok(faces) => of_faces(alloc, &faces, parts),
        Err(MetricsErr::Line { line, why }) => format!(in alloc; "line {line} {why:?}"),
        Err(MetricsErr::NoMemory) => Err(AllocError),
    }
}

fn of_many(alloc: Global, parts: &[&str]) -> Result<String, AllocError> {
    let text = many(alloc, number(part(parts, 1)), part(parts, 2))?;
    of_text(alloc, text.as_str(), parts)
}

/// The answer to a question about faces.
pub(crate) fn answer(alloc: Global, parts: &[&str]) -> Result<String, AllocError> {
    if part(parts, 0) == "many" {
        of_many(alloc, parts)
    } else {
        of_text(alloc, part(parts, 1), parts)
    }
}
