//! What is found in a sheet: parts without a reading, and families without a face.

ghost use Rattle.std.specs.Prelude.{◌≡◌, ◌++◌, ◌∷◌, [], map, if◌then◌else◌, OnOk, IfOk};
ghost use Rattle.std.specs.List.{flat_map};
ghost use Rattle.css_rules.specs.Decls.{decl_in};
ghost use Rattle.unread_list.specs.Steps.{part_in, placed_in};
ghost use Rattle.unread_list.specs.FamilyViews.{finding_in};
ghost use Rattle.unread_list.specs.Families as spec;

use crate::finding::Finding;
use crate::part::{Owner, Part, Placed};
use crate::reading::is_read;
use crate::sheet::sheet_parts;
use bk_num::name::{Name, NoMem};
use css_page::decls::{read_box_decl, read_page_decl};
use css_page::values::{PageDecl, PageLong};
use css_rules::decls::DeclSlice;
use css_values::decls::read_decl;
use metrics::Faces;
use std::alloc::Global;
use style::long::{Given, Long};

/// Appends a family, if it names no face.
fn push_name<'a>(
    faces: &Faces,
    line: usize,
    name: &Name,
    found: &mut Vec<Finding<'a>>,
) -> Result<(), NoMem>
    ensures { OnOk result (map finding_in found.new.items ≡ map finding_in found.old.items ++
        (if spec.is_faceless faces.now name.now then spec.Family line name.now ∷ [] else [])) }
{
    if !faces.names(name.as_str()) {
        found.push(Finding::Family(line, name.copy()?))?;
    }
    Ok(())
}

/// Appends the families among these that name no face.
fn push_names<'a>(
    faces: &Faces,
    line: usize,
    names: &[Name],
    found: &mut Vec<Finding<'a>>,
) -> Result<(), NoMem>
    ensures { OnOk result (map finding_in found.new.items ≡
        map finding_in found.old.items ++ spec.faceless faces.now line names.now) }
{
    for name in names {
        push_name(faces, line, name, found)?;
    }
    Ok(())
}

/// Appends the families of a longhand that name no face.
fn push_long<'a>(
    faces: &Faces,
    line: usize,
    long: &Long,
    found: &mut Vec<Finding<'a>>,
) -> Result<(), NoMem>
    ensures { OnOk result (map finding_in found.new.items ≡
        map finding_in found.old.items ++ spec.faceless faces.now line (spec.long_families long.now)) }
{
    match long {
        Long::FontFamily(Given::Value(families)) => {
            push_names(faces, line, families.as_slice(), found)
        }
        _ => Ok(()),
    }
}

/// The same of a page or of a margin box.
fn push_page_long<'a>(
    faces: &Faces,
    line: usize,
    long: &PageLong,
    found: &mut Vec<Finding<'a>>,
) -> Result<(), NoMem>
    ensures { OnOk result (map finding_in found.new.items ≡
        map finding_in found.old.items ++ spec.faceless faces.now line (spec.page_long_families long.now)) }
{
    match long {
        PageLong::FontFamily(Given::Value(families)) => {
            push_names(faces, line, families.as_slice(), found)
        }
        _ => Ok(()),
    }
}

/// Appends the families of longhands that name no face.
fn push_longs<'a>(
    faces: &Faces,
    line: usize,
    longs: &[Long],
    found: &mut Vec<Finding<'a>>,
) -> Result<(), NoMem>
    ensures { OnOk result (map finding_in found.new.items ≡
        map finding_in found.old.items ++ spec.faceless faces.now line (flat_map spec.long_families longs.now)) }
{
    for long in longs {
        push_long(faces, line, long, found)?;
    }
    Ok(())
}

/// The same of a page or of a margin box.
fn push_page_longs<'a>(
    faces: &Faces,
    line: usize,
    longs: &[PageLong],
    found: &mut Vec<Finding<'a>>,
) -> Result<(), NoMem>
    ensures { OnOk result (map finding_in found.new.items ≡
        map finding_in found.old.items ++ spec.faceless faces.now line (flat_map spec.page_long_families longs.now)) }
{
    for long in longs {
        push_page_long(faces, line, long, found)?;
    }
    Ok(())
}

/// Appends the families of an element's declaration that name no face.
fn push_element<'a>(
    alloc: Global,
    faces: &Faces,
    line: usize,
    decl: &DeclSlice<'_>,
    found: &mut Vec<Finding<'a>>,
) -> Result<(), NoMem>
    ensures { OnOk result (map finding_in found.new.items ≡
        map finding_in found.old.items ++
        spec.faceless faces.now line (spec.families_by Owner.Elements (decl_in decl.now))) }
{
    match read_decl(alloc, decl.name, decl.value)? {
        Some(read) => push_longs(faces, line, read.longs.as_slice(), found),
        None => Ok(()),
    }
}

/// The declaration of a page or of a margin box as it is read.
fn read_paged(alloc: Global, is_page: bool, decl: &DeclSlice<'_>) -> Result<Option<PageDecl>, NoMem>
    ensures { IfOk result (λ read. spec.page_families read ≡
        spec.families_by (if is_page then Owner.Page else Owner.MarginBox) (decl_in decl.now)) }
{
    if is_page {
        read_page_decl(alloc, decl)
    } else {
        read_box_decl(alloc, decl)
    }
}

/// Appends the families of the declaration of a page or of a margin box that name no face.
fn push_paged<'a>(
    alloc: Global,
    faces: &Faces,
    line: usize,
    is_page: bool,
    decl: &DeclSlice<'_>,
    found: &mut Vec<Finding<'a>>,
) -> Result<(), NoMem>
    ensures { OnOk result (map finding_in found.new.items ≡ map finding_in found.old.items ++
        spec.faceless faces.now line
        (spec.families_by (if is_page then Owner.Page else Owner.MarginBox) (decl_in decl.now))) }
{
    match read_paged(alloc, is_page, decl)? {
        Some(read) => push_page_longs(faces, line, read.longs.as_slice(), found),
        None => Ok(()),
    }
}

/// Appends the families of a part that name no face.
fn push_families<'a>(
    alloc: Global,
    faces: &Faces,
    placed: &Placed<'a>,
    found: &mut Vec<Finding<'a>>,
) -> Result<(), NoMem>
    ensures { OnOk result (map finding_in found.new.items ≡ map finding_in found.old.items ++
        spec.faceless faces.now placed.now.line (spec.families_in (part_in placed.now.part))) }
{
    match &placed.part {
        Part::Declaration(Owner::Elements, _, Some(decl)) => {
            push_element(alloc, faces, placed.line, decl, found)
        }
        Part::Declaration(Owner::Page, _, Some(decl)) => {
            push_paged(alloc, faces, placed.line, true, decl, found)
        }
        Part::Declaration(Owner::MarginBox, _, Some(decl)) => {
            push_paged(alloc, faces, placed.line, false, decl, found)
        }
        _ => Ok(()),
    }
}

/// Appends what is found at a part.
fn push_findings<'a>(
    alloc: Global,
    faces: &Faces,
    placed: &Placed<'a>,
    found: &mut Vec<Finding<'a>>,
) -> Result<(), NoMem>
    ensures { OnOk result (map finding_in found.new.items ≡
        map finding_in found.old.items ++ spec.part_findings faces.now (placed_in placed.now)) }
{
    if is_read(alloc, &placed.part)? {
        return push_families(alloc, faces, placed, found);
    }
    found.push(Finding::Unread(*placed))?;
    Ok(())
}

/// What is found in a sheet, in the order of its text: each part that has no reading, and of those that have one each
/// family that names no face. It takes time in proportion to the text, times the number of faces.
pub fn findings<'a>(alloc: Global, faces: &Faces, text: &'a str) -> Result<Vec<Finding<'a>>, NoMem>
    ensures { IfOk result (λ v. map finding_in v.items ≡ spec.findings_of faces.now text.now) }
{
    let parts = sheet_parts(alloc, text)?;
    let mut found = Vec::new(alloc);
    for placed in &parts {
        push_findings(alloc, faces, placed, &mut found)?;
    }
    Ok(found)
}
