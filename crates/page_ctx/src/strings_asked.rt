//! The names of the running strings that margin boxes ask for (css-gcpm-3, 1.1.2).

ghost use Rattle.std.specs.Prelude.{◌≡◌, [], fold, map, IfOk, OnOk};
ghost use Rattle.std.specs.String.{string_bytes};
ghost use Rattle.bk_num.specs.Names.{with_name};
ghost use Rattle.page_ctx.specs.Strings as spec;

use crate::asked::push_name;
use bk_num::name::NoMem;
use css_page::rules::{BoxDecls, PageRule};
use css_page::values::{PageDecl, PageLong};
use indexmap::IndexSet;
use std::alloc::Global;
use style::content::Part;
use style::long::Given;

/// Adds the name that a part of content asks for, if it asks for one.
fn push_part(alloc: Global, asked: &mut IndexSet<String>, part: &Part) -> Result<(), NoMem>
    ensures { OnOk result (map (λ k. string_bytes k) asked.new.keys ≡
        fold with_name (map (λ k. string_bytes k) asked.old.keys) (spec.running_by part.now)) }
{
    match part {
        Part::Running(name, _) => push_name(alloc, asked, name.as_str()),
        _ => Ok(()),
    }
}

/// Adds the names that a list of content asks for.
fn push_parts(alloc: Global, asked: &mut IndexSet<String>, parts: &[Part]) -> Result<(), NoMem>
    ensures { OnOk result (map (λ k. string_bytes k) asked.new.keys ≡
        fold with_name (map (λ k. string_bytes k) asked.old.keys) (spec.running_in parts.now)) }
{
    for part in parts {
        push_part(alloc, asked, part)?;
    }
    Ok(())
}

/// The content that a declared value gives.
fn content_in(long: &PageLong) -> &[Part]
    ensures { result.now ≡ spec.content_in long.now }
{
    match long {
        PageLong::Content(Given::Value(Some(content))) => content.as_slice(),
        _ => &[],
    }
}

/// Adds the names that the content of declared values asks for.
fn push_longs(alloc: Global, asked: &mut IndexSet<String>, longs: &[PageLong]) -> Result<(), NoMem>
    ensures { OnOk result (map (λ k. string_bytes k) asked.new.keys ≡
        fold with_name (map (λ k. string_bytes k) asked.old.keys) (spec.running_longs longs.now)) }
{
    for long in longs {
        push_parts(alloc, asked, content_in(long))?;
    }
    Ok(())
}

/// Adds the names that the content of declarations asks for.
fn push_decls(alloc: Global, asked: &mut IndexSet<String>, decls: &[PageDecl]) -> Result<(), NoMem>
    ensures { OnOk result (map (λ k. string_bytes k) asked.new.keys ≡
        fold with_name (map (λ k. string_bytes k) asked.old.keys) (spec.running_decls decls.now)) }
{
    for decl in decls {
        push_longs(alloc, asked, decl.longs.as_slice())?;
    }
    Ok(())
}

/// Adds the names that the margin boxes of a rule ask for.
fn push_boxes(alloc: Global, asked: &mut IndexSet<String>, boxes: &[BoxDecls]) -> Result<(), NoMem>
    ensures { OnOk result (map (λ k. string_bytes k) asked.new.keys ≡
        fold with_name (map (λ k. string_bytes k) asked.old.keys) (spec.running_boxes boxes.now)) }
{
    for block in boxes {
        push_decls(alloc, asked, block.1.as_slice())?;
    }
    Ok(())
}

/// The names of the strings that the margin boxes of rules ask for, each once. It takes time in proportion to the
/// declarations of the boxes and the parts of their content.
///
/// # Errors
///
/// `NoMem`.
pub fn asked_strings(alloc: Global, rules: &[PageRule]) -> Result<IndexSet<String>, NoMem>
    ensures { IfOk result (λ asked. map (λ k. string_bytes k) asked.keys ≡
        fold with_name [] (spec.all_running rules.now)) }
{
    let mut asked = IndexSet::new(alloc);
    for rule in rules {
        push_boxes(alloc, &mut asked, rule.boxes.as_slice())?;
    }
    Ok(asked)
}
