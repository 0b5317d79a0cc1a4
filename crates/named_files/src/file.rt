//! Files by what they are to a book.

ghost use Rattle.std.specs.Prelude.{◌≡◌};
ghost use Rattle.named_files.specs.Names as spec;

use itoa::Buffer;

/// One of the files that the words name. Sheets are numbered from 1.
#[derive(Clone, Copy, Debug, PartialEq, Eq)]
pub enum FileOf {
    Metrics,
    Html,
    Sheet(u64),
    Patterns,
}

/// The word for a file, and the number of a sheet.
#[tactic(auto, unfolding(crate::specs::Names::file_words))]
pub fn file_words(file: FileOf, buffer: &mut Buffer) -> (&'static str, &str)
    ensures word { result.0.now ≡ (spec.file_words file).0 }
    ensures number { result.1.now ≡ (spec.file_words file).1 }
{
    match file {
        FileOf::Metrics => ("metrics", ""),
        FileOf::Html => ("html", ""),
        FileOf::Sheet(number) => ("sheet ", buffer.format(number)),
        FileOf::Patterns => ("patterns", ""),
    }
}
