//! What the words of a command line ask for.

use rows::{part, push_all};
use std::alloc::{AllocError, Global};
use words::{Format, Request, WordsErr, read_words};

/// Words with a space between them, so that two spaces stand round an empty word.
fn words_of(alloc: Global, part: &str) -> Result<Vec<String>, AllocError> {
    let mut words = Vec::new(alloc);
    for word in part.split(' ') {
        words.push(String::from_str(alloc, word)?)?;
    }
    Ok(words)
}

fn push_quoted(line: &mut String, names: &[&str]) -> Result<(), AllocError> {
    for name in names {
        push_all(line, &[" '", name, "'"])?;
    }
    Ok(())
}

/// The passes, the columns, the gap, and the names in quotes: of the metrics, of the HTML, of the sheets, and of the
/// patterns if there is one.
fn format(alloc: Global, format: &Format<'_>) -> Result<String, AllocError> {
    let Format {
        passes,
        columns,
        gap,
        metrics,
        html,
        ..
    } = format;
    let mut line = format!(in alloc; "format {passes} {columns} {gap} '{metrics}' '{html}'")?;
    push_quoted(&mut line, &format.sheets)?;
    if let Some(name) = format.patterns {
        push_all(&mut line, &[" patterns '", name, "'"])?;
    }
    Ok(line)
}

fn asked(alloc: Global, words: &[String]) -> Result<String, AllocError> {
    match read_words(alloc, words) {
        Ok(Request::Format(asked)) => format(alloc, &asked),
        Ok(Request::Sample { chapters }) => format!(in alloc; "sample {chapters}"),
        Err(WordsErr::Fault(fault)) => format!(in alloc; "{fault:?}"),
        Err(WordsErr::NoMemory) => Err(AllocError),
    }
}

/// The answer to a question about words; without a part there are none.
pub(crate) fn answer(alloc: Global, parts: &[&str]) -> Result<String, AllocError> {
    if parts.len() < 2 {
        return asked(alloc, &[]);
    }
    let words = words_of(alloc, part(parts, 1))?;
    asked(alloc, words.as_slice())
}
