//! From words and files to a report.

ghost use Rattle.std.specs.Prelude.{◌≡◌, ◌≤◌, ℕ, List, Bool, Result, Ok, MatchResult, map, length, string_bytes, string_len, IfOk, IfErr};
ghost use Rattle.std.specs.Io.KnownBytes.{Appends};
ghost use Rattle.bk_io.specs.Shelf.{Told};
ghost use Rattle.bk_num.specs.Limits.{most_file_bytes, most_text_bytes};
ghost use Rattle.html_tree.specs.Tree.{tree_of};
ghost use Rattle.metrics.specs.Text.{faces_of};
ghost use Rattle.named_files.specs.Texts.{AreTextsOf};
ghost use Rattle.sheets.specs.Files.{file_texts};
ghost use Rattle.sheets.specs.List.{sheet_in};
ghost use Rattle.sheets.specs.Sheets.{element_sheets};
ghost use Rattle.words.specs.Asked.{asked, format, format_view, request_of};
ghost use Rattle.unread.specs.declared.outcome.Outcome.{Outcome};
ghost use Rattle.unread.specs.Causes.{Faults, HasCauseOrMemory, IsDue, IsFileFault, IsPutFault, IsTextsFault, faces_due, faults_of, sheets_due, tree_due};
ghost use Rattle.unread.specs.Report.{report_of};
ghost use Rattle.unread.specs.Run.{IsAnswerTo, IsReport, IsReportOf, has_some, outcome_of};

use crate::message::put_message;
use crate::outcome::Outcome;
use crate::report::report;
use bk_io::put_all::put_all;
use bk_io::shelf::Shelf;
use bk_io::sink::Sink;
use bk_io::texts::without_mark;
use bk_num::items::Items;
use bk_num::limits::MOST_SHEETS;
use dom::{Dom, DomErr};
use html_tree::read_html;
use metrics::{Faces, MetricsErr, read_metrics};
use named_files::{FileTexts, read_files};
use sheets::{ElementSheet, list_sheets};
use std::alloc::Global;
use words::{Format, Request, read_words};

/// The faces of the metrics text.
fn read_faces(alloc: Global, metrics: &str) -> Result<Faces, Outcome>
    requires { length metrics.now ≤ most_text_bytes }
    ensures faces { IfOk result (λ f. faces_of metrics.now ≡ Ok f) }
    ensures cause { IfErr result (λ o. IsDue (faces_due (faces_of metrics.now)) o) }
{
    match read_metrics(alloc, metrics) {
        Ok(faces) => Ok(faces),
        Err(MetricsErr::Line { line, .. }) => Err(Outcome::BadMetrics(line)),
        Err(MetricsErr::NoMemory) => Err(Outcome::NoMemory),
    }
}

/// The tree of the HTML.
fn read_tree(alloc: Global, html: &str) -> Result<Dom, Outcome>
    ensures tree { IfOk result (λ d. tree_of html.now ≡ Ok d) }
    ensures cause { IfErr result (λ o. IsDue (tree_due (tree_of html.now)) o) }
{
    match read_html(alloc, html) {
        Ok(dom) => Ok(dom),
        Err(DomErr::Nodes) => Err(Outcome::Limit),
        Err(DomErr::Depth) => Err(Outcome::Limit),
        Err(DomErr::NoMemory) => Err(Outcome::NoMemory),
    }
}

/// The sheets of `style` elements, which are at most 16 with those of so many files.
fn style_sheets(alloc: Global, dom: &Dom, files: usize) -> Result<Items<ElementSheet>, Outcome>
    ensures sheets { IfOk result (λ s. map sheet_in s ≡ element_sheets dom.now) }
    ensures cause { IfErr result (λ o. IsDue (sheets_due files dom.now) o) }
{
    if files > MOST_SHEETS as usize {
        return Err(Outcome::Limit);
    }
    match list_sheets(alloc, dom, MOST_SHEETS - files as u32) {
        Ok(Some(sheets)) => Ok(sheets),
        Ok(None) => Err(Outcome::Limit),
        Err(_) => Err(Outcome::NoMemory),
    }
}

/// The lines of a book.
fn lines_of(alloc: Global, faces: &Faces, dom: &Dom, files: &[String]) -> Result<Vec<u8>, Outcome>
    ensures lines { IfOk result (λ v. v.items ≡ report_of faces.now dom.now (file_texts files.now)) }
    ensures cause { IfErr result (λ o. IsDue (sheets_due (length files.now) dom.now) o) }
{
    let styles = style_sheets(alloc, dom, files.len())?;
    match report(alloc, faces, dom, files, styles.as_slice()) {
        Ok(lines) => Ok(lines),
        Err(_) => Err(Outcome::NoMemory),
    }
}

/// Writes lines. Answers whether there is one.
fn put_lines<O: Sink>(out: &mut O, lines: &[u8]) -> Result<bool, Outcome>
    ensures written { IfOk result (λ _. Appends (O.taken out.old) (O.taken out.new) lines.now) }
    ensures some { IfOk result (λ some. some ≡ has_some lines.now) }
    ensures cause { IfErr result (IsPutFault (O.faults out.old) (O.faults out.new)) }
{
    match put_all(out, lines) {
        Ok(()) => Ok(!lines.is_empty()),
        Err(_) => Err(Outcome::CannotWrite),
    }
}

/// Writes the report of these texts. Answers whether it has a line.
fn put_report<O: Sink>(
    alloc: Global,
    metrics: &str,
    html: &str,
    files: &[String],
    out: &mut O,
) -> Result<bool, Outcome>
    requires { length metrics.now ≤ most_file_bytes }
    ensures report { IfOk result (λ some.
        IsReport metrics.now html.now (file_texts files.now) (O.taken out.old) (O.taken out.new) some) }
    ensures cause { IfErr result (IsTextsFault metrics.now html.now (length files.now)
        (O.faults out.old) (O.faults out.new)) }
{
    let faces = read_faces(alloc, without_mark(metrics))?;
    let dom = read_tree(alloc, without_mark(html))?;
    let lines = lines_of(alloc, &faces, &dom, files)?;
    put_lines(out, &lines)
}

/// The texts of the files that are named.
fn texts_of<F: Shelf>(
    alloc: Global,
    names: &Format<'_>,
    shelf: &mut F,
) -> Result<FileTexts, Outcome>
    ensures texts { IfOk result (AreTextsOf (format_view names.now) (F.told shelf.old)) }
    ensures small { IfOk result (λ t. string_len t.metrics ≤ most_file_bytes) }
    ensures cause { (put_before put_now : ℕ) → IfErr result (IsFileFault (format_view names.now) (F.told shelf.old)
        (faults_of (F.faults shelf.old) (F.faults shelf.new) (F.last_fault shelf.new) put_before put_now)) }
{
    match read_files(alloc, names, shelf) {
        Ok(texts) => Ok(texts),
        Err(fault) => Err(Outcome::from(fault)),
    }
}

/// Writes the report of the files that are named. Answers whether it has a line.
fn put_named<F: Shelf, O: Sink>(
    alloc: Global,
    names: &Format<'_>,
    shelf: &mut F,
    out: &mut O,
) -> Result<bool, Outcome>
    ensures report { IfOk result
        (IsReportOf (format_view names.now) (F.told shelf.old) (O.taken out.old) (O.taken out.new)) }
    ensures cause { IfErr result (HasCauseOrMemory (format (format_view names.now)) (F.told shelf.old)
        (faults_of (F.faults shelf.old) (F.faults shelf.new) (F.last_fault shelf.new) (O.faults out.old)
        (O.faults out.new))) }
{
    let texts = texts_of(alloc, names, shelf)?;
    put_report(
        alloc,
        texts.metrics.as_str(),
        texts.html.as_str(),
        &texts.sheets,
        out,
    )
}

/// What words ask for, or why they don't.
fn request_of<'a>(alloc: Global, words: &'a [String]) -> Result<Request<'a>, Outcome>
    ensures asked { IfOk result (λ r. request_of r ≡ asked (map (λ w. string_bytes w) words.entry.now)) }
    ensures cause { (told : List ℕ → Told) (f : Faults) →
        IfErr result (HasCauseOrMemory (asked (map (λ w. string_bytes w) words.entry.now)) told f) }
{
    match read_words(alloc, words) {
        Ok(request) => Ok(request),
        Err(e) => Err(Outcome::from(e)),
    }
}

/// The answer of a run that wrote a report, or stopped.
fn outcome_of(put: Result<bool, Outcome>) -> Outcome
    ensures { result ≡ outcome_of put }
{
    match put {
        Ok(true) => Outcome::Found,
        Ok(false) => Outcome::Clean,
        Err(outcome) => outcome,
    }
}

/// Writes what the words ask for. Answers whether the report has a line.
fn put_asked<F: Shelf, O: Sink>(
    alloc: Global,
    words: &[String],
    shelf: &mut F,
    out: &mut O,
) -> Result<bool, Outcome>
    ensures report { IfOk result (IsAnswerTo (asked (map (λ w. string_bytes w) words.now)) (F.told shelf.old)
        (O.taken out.old) (O.taken out.new)) }
    ensures cause { IfErr result (HasCauseOrMemory (asked (map (λ w. string_bytes w) words.now)) (F.told shelf.old)
        (faults_of (F.faults shelf.old) (F.faults shelf.new) (F.last_fault shelf.new) (O.faults out.old)
        (O.faults out.new))) }
{
    match request_of(alloc, words)? {
        Request::Format(names) => put_named(alloc, &names, shelf, out),
        Request::Sample { .. } => Err(Outcome::Usage),
    }
}

/// Reads the words and the files that they name, writes on `out` the line of each thing that is found, puts the line of
/// a refusal on `err`, and answers.
pub(crate) fn run<F: Shelf, O: Sink, E: Sink>(
    alloc: Global,
    words: &[String],
    shelf: &mut F,
    out: &mut O,
    err: &mut E,
) -> Outcome
    // the report of the files that the words name was written, and the answer is whether it has a line; or there is a
    // cause that it wasn't
    ensures { (put : Result Bool Outcome) × (result ≡ outcome_of put) × MatchResult put
        (IsAnswerTo (asked (map (λ w. string_bytes w) words.now)) (F.told shelf.old) (O.taken out.old)
        (O.taken out.new))
        (HasCauseOrMemory (asked (map (λ w. string_bytes w) words.now)) (F.told shelf.old)
        (faults_of (F.faults shelf.old) (F.faults shelf.new) (F.last_fault shelf.new) (O.faults out.old)
        (O.faults out.new))) }
{
    let outcome = outcome_of(put_asked(alloc, words, shelf, out));
    // a fault of standard error has no other place to be told
    let _ = put_message(err, outcome);
    outcome
}
