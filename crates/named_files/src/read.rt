//! Reads the texts of the files.

ghost use Rattle.std.specs.Prelude.{◌≡◌, ◌≤◌, IfErr, IfOk, IfSome, map, option_map, string_len};
ghost use Rattle.std.specs.List.{AllZip};
ghost use Rattle.bk_num.specs.Limits.{most_file_bytes};
ghost use Rattle.bk_io.specs.Reads.{HasTextFault, IsTextOf};
ghost use Rattle.words.specs.Asked.{format_view};
ghost use Rattle.named_files.specs.Texts.{AreTextsOf, IsFirstFault, IsPatternsFault, IsSheetFault, IsTextIfNamed, KeepsCount};

use crate::fault::FileFault;
use crate::file::FileOf;
use bk_io::read_text::{TextErr, read_text};
use bk_io::shelf::Shelf;
use bk_num::limits::MOST_FILE_BYTES;
use std::alloc::Global;
use words::Format;

/// The texts of the files, a leading U+FEFF included.
#[derive(Drop)]
pub struct FileTexts {
    pub metrics: String,
    pub html: String,
    pub sheets: Vec<String>,
    /// There where the file is named.
    pub patterns: Option<String>,
}

/// The text of one file, a leading U+FEFF included.
fn text_of<F: Shelf>(
    alloc: Global,
    shelf: &mut F,
    name: &str,
    file: FileOf,
) -> Result<String, FileFault>
    ensures told { F.told shelf.new ≡ F.told shelf.old }
    ensures count { KeepsCount (F.faults shelf.old) (F.faults shelf.new) result }
    ensures text { IfOk result (IsTextOf (F.told shelf.old name.now) most_file_bytes) }
    ensures small { IfOk result (λ t. string_len t ≤ most_file_bytes) }
    ensures later { F.faults shelf.old ≤ F.faults shelf.new }
    ensures file { IfErr result (λ e. e.file ≡ file) }
    ensures fault { IfErr result (λ e. HasTextFault (F.told shelf.old name.now) name.now most_file_bytes
        (F.faults shelf.old) (F.faults shelf.new) (F.last_fault shelf.new) e.why) }
{
    match read_text(alloc, shelf, name, MOST_FILE_BYTES) {
        Ok(text) => Ok(text),
        Err(why) => Err(FileFault { file, why }),
    }
}

/// The texts of the sheets, read whole one after the other. They are numbered from 1.
fn sheet_texts<F: Shelf>(
    alloc: Global,
    shelf: &mut F,
    names: &[&str],
) -> Result<Vec<String>, FileFault>
    ensures told { F.told shelf.new ≡ F.told shelf.old }
    ensures count { KeepsCount (F.faults shelf.old) (F.faults shelf.new) result }
    ensures texts { IfOk result (λ v. AllZip (λ name text. IsTextOf (F.told shelf.old name) most_file_bytes text)
        (map (λ n. n.now) names.now) v.items) }
    ensures later { F.faults shelf.old ≤ F.faults shelf.new }
    ensures fault { IfErr result (IsSheetFault (map (λ n. n.now) names.now) (F.told shelf.old) (F.faults shelf.old)
        (F.faults shelf.new) (F.last_fault shelf.new)) }
{
    let mut texts = Vec::new(alloc);
    let mut number = 1;
    for name in names {
        let file = FileOf::Sheet(number);
        let text = text_of(alloc, shelf, name, file)?;
        if texts.push(text).is_err() {
            return Err(FileFault {
                file,
                why: TextErr::NoMemory,
            });
        }
        number += 1;
    }
    Ok(texts)
}

/// The text of the patterns, where they are named.
fn patterns_text<F: Shelf>(
    alloc: Global,
    shelf: &mut F,
    name: Option<&str>,
) -> Result<Option<String>, FileFault>
    ensures told { F.told shelf.new ≡ F.told shelf.old }
    ensures count { KeepsCount (F.faults shelf.old) (F.faults shelf.new) result }
    ensures text { IfOk result (IsTextIfNamed (F.told shelf.old) (option_map (λ n. n.now) name.entry)) }
    ensures small { IfOk result (λ text. IfSome text (λ t. string_len t ≤ most_file_bytes)) }
    ensures later { F.faults shelf.old ≤ F.faults shelf.new }
    ensures fault { IfErr result (IsPatternsFault (option_map (λ n. n.now) name.entry) (F.told shelf.old)
        (F.faults shelf.old) (F.faults shelf.new) (F.last_fault shelf.new)) }
{
    match name {
        None => Ok(None),
        Some(name) => Ok(Some(text_of(alloc, shelf, name, FileOf::Patterns)?)),
    }
}

/// The texts of the files that are named, each of at most 16,777,216 bytes, read whole one after the other: the
/// metrics text, the HTML, the sheets in their order, and the patterns. It stops at the first that gives no text, and
/// asks for no other file.
pub fn read_files<F: Shelf>(
    alloc: Global,
    names: &Format<'_>,
    shelf: &mut F,
) -> Result<FileTexts, FileFault>
    ensures told { F.told shelf.new ≡ F.told shelf.old }
    ensures count { KeepsCount (F.faults shelf.old) (F.faults shelf.new) result }
    ensures texts { IfOk result (AreTextsOf (format_view names.now) (F.told shelf.old)) }
    ensures small { IfOk result (λ t. string_len t.metrics ≤ most_file_bytes) }
    ensures small_patterns { IfOk result (λ t. IfSome t.patterns (λ p. string_len p ≤ most_file_bytes)) }
    ensures fault { IfErr result (IsFirstFault (format_view names.now) (F.told shelf.old) (F.faults shelf.old)
        (F.faults shelf.new) (F.last_fault shelf.new)) }
{
    let metrics = text_of(alloc, shelf, names.metrics, FileOf::Metrics)?;
    let html = text_of(alloc, shelf, names.html, FileOf::Html)?;
    let sheets = sheet_texts(alloc, shelf, names.sheets.as_slice())?;
    let patterns = patterns_text(alloc, shelf, names.patterns)?;
    Ok(FileTexts {
        metrics,
        html,
        sheets,
        patterns,
    })
}
