//! Reads the texts of files.

ghost use Rattle.std.specs.Prelude.{◌≡◌, ◌≤◌, MatchResult, IfErr, IfOk, IfSome, string_len};
ghost use Rattle.bk_num.specs.Limits.{most_file_bytes};
ghost use Rattle.book.specs.Document.{grid_of};
ghost use Rattle.book.specs.Expect.{IsGiven};
ghost use Rattle.book.specs.FilesView.{listed_texts};
ghost use Rattle.book.specs.Run.{texts_named, Stops, IsOfFiles, KeepsFaults};
ghost use Rattle.words.specs.Asked.{format_view};

use crate::outcome::Outcome;
use bk_io::shelf::Shelf;
use named_files::{FileTexts, read_files};
use std::alloc::Global;
use words::Format;

/// The texts of the files that are named, read whole one after the other.
pub(crate) fn texts_of_files<F: Shelf>(
    alloc: Global,
    names: &Format<'_>,
    shelf: &mut F,
) -> Result<FileTexts, Outcome>
    ensures texts { let texts = texts_named (format_view names.now) (F.told shelf.old) in
        let grid = grid_of (format_view names.now) in
        MatchResult result (λ t. IsGiven texts (listed_texts names.now.passes grid t)) (λ o. Stops texts o) }
    ensures small { IfOk result (λ t. string_len t.metrics ≤ most_file_bytes) }
    ensures small_patterns { IfOk result (λ t. IfSome t.patterns (λ p. string_len p ≤ most_file_bytes)) }
    ensures count { MatchResult result (λ _. F.faults shelf.new ≡ F.faults shelf.old)
        (KeepsFaults (F.faults shelf.old) (F.faults shelf.new)) }
    ensures cause { IfErr result (λ o. IsOfFiles (format_view names.now) (F.told shelf.old) (F.faults shelf.old)
        (F.faults shelf.new) (F.last_fault shelf.new) o) }
{
    match read_files(alloc, names, shelf) {
        Ok(texts) => Ok(texts),
        Err(fault) => Err(Outcome::from(fault)),
    }
}
