//! Reads the texts of the files as a document.

ghost use Rattle.std.specs.Prelude.{◌≡◌, ℕ, ◌≤◌, List, MatchResult, IfErr, IfOk, IfSome, length, option_map};
ghost use Rattle.std.specs.List.{AllZip};
ghost use Rattle.bk_num.specs.Limits.{most_text_bytes};
ghost use Rattle.metrics.specs.Text.{faces_of};
ghost use Rattle.html_tree.specs.Tree.{tree_of};
ghost use Rattle.sheets.specs.Sheets.{author_texts, element_sheets};
ghost use Rattle.sheets.specs.Files.{file_texts};
ghost use Rattle.sheets.specs.Readings.{SheetOf, AreReadings};
ghost use Rattle.sheets.specs.Sources.{ArePageRules, IsReadFrom, authors_of, sources_of};
ghost use Rattle.soft_hyphens.specs.Words.{points_in};
ghost use Rattle.book.specs.Expect.{IsRefusedUnlessMemory, IsGiven};
ghost use Rattle.book.specs.Document.{document_of, faces_expected, nodes_expected, patterns_expected, sheets_expected};
ghost use Rattle.book.specs.DocumentView.{document_in, texts_in, HasSheets};
ghost use Rattle.book.specs.Run.{IsOfTexts};

use crate::boxed::boxed;
use crate::outcome::{LimitOf, Outcome};
use bk_num::items::Items;
use bk_num::name::NoMem;
use cascade::sheet::ReadSheet;
use css_page::rules::PageRule;
use dom::{Dom, DomErr};
use html_tree::read_html;
use hyphen::{PatErr, Patterns, read_patterns};
use metrics::{Faces, MetricsErr, read_metrics};
use sheets::read::{Sheets, SheetsErr, read_sheets};
use std::alloc::{AllocError, Global};

/// What is put of a book.
#[derive(Clone, Copy, Debug, PartialEq, Eq)]
pub enum Output {
    /// Its listing.
    Listing,
    /// A line with its counts, as a sample of so many chapters.
    Counts(u32),
}

/// The columns of each page: how many, from 1 to 8, and the gap between them, in whole px, at most 1,000.
#[derive(Clone, Copy, Debug)]
pub struct ColumnGrid {
    pub columns: u32,
    pub gap: u32,
}

/// In how many passes at most a document is to settle, the columns of its pages, what is to be put of it, the faces of
/// the metrics text, the patterns if there are any, the tree, the texts of the files' sheets, and what the document's
/// sheets and their page rules are read as, in the order of the cascade.
#[derive(Drop)]
pub struct Document<'a> {
    pub passes: u32,
    pub grid: ColumnGrid,
    pub output: Output,
    pub faces: Faces,
    pub patterns: Option<Patterns>,
    pub dom: Dom,
    pub sheets: &'a [String],
    pub read: Items<ReadSheet>,
    pub pages: Items<PageRule>,
}

/// In how many passes at most a book is to settle, the columns of its pages, what is to be put of it, and its texts,
/// all but the sheets less a leading U+FEFF.
#[derive(Clone, Copy, Debug)]
pub struct BookTexts<'a> {
    pub passes: u32,
    pub grid: ColumnGrid,
    pub output: Output,
    pub metrics: &'a str,
    pub patterns: Option<&'a str>,
    pub html: &'a str,
    pub sheets: &'a [String],
}

impl From<AllocError> for Outcome {
    ghost use Rattle.std.specs.Prelude.{◌≡◌};
    ghost use Rattle.book.specs.declared.outcome.Outcome.TheVariants.{NoMemory};

    ghost from_gives = { λ _ e. e ≡ NoMemory };

    fn from(_e: AllocError) -> Outcome {
        Outcome::NoMemory
    }
}

impl From<NoMem> for Outcome {
    ghost use Rattle.std.specs.Prelude.{◌≡◌};
    ghost use Rattle.book.specs.declared.outcome.Outcome.TheVariants.{NoMemory};

    ghost from_gives = { λ _ e. e ≡ NoMemory };

    fn from(_e: NoMem) -> Outcome {
        Outcome::NoMemory
    }
}

/// The faces of the metrics text.
fn read_faces(alloc: Global, metrics: &str) -> Result<Faces, Outcome>
    requires { length metrics.now ≤ most_text_bytes }
    ensures faces { MatchResult result (λ f. IsGiven (faces_expected (faces_of metrics.now)) f)
        (λ o. IsRefusedUnlessMemory (faces_expected (faces_of metrics.now)) o) }
    ensures of_texts { IfErr result IsOfTexts }
{
    match read_metrics(alloc, metrics) {
        Ok(faces) => Ok(faces),
        Err(MetricsErr::Line { line, why }) => Err(Outcome::BadMetrics { line, why }),
        Err(MetricsErr::NoMemory) => Err(Outcome::NoMemory),
    }
}

/// The patterns of the patterns text, if there is one.
fn read_hyphens(alloc: Global, patterns: Option<&str>) -> Result<Option<Patterns>, Outcome>
    requires { IfSome patterns (λ text. length text.now ≤ most_text_bytes) }
    ensures points { let points = patterns_expected (option_map (λ text. text.now) patterns.entry) in
        MatchResult result (λ p. IsGiven points (points_in p)) (λ o. IsRefusedUnlessMemory points o) }
    ensures of_texts { IfErr result IsOfTexts }
{
    let Some(text) = patterns else {
        return Ok(None);
    };
    match read_patterns(alloc, text) {
        Ok(patterns) => Ok(Some(patterns)),
        Err(PatErr::Line { line }) => Err(Outcome::BadPatterns { line }),
        Err(PatErr::NoMemory) => Err(Outcome::NoMemory),
    }
}

/// The tree of the HTML.
fn read_tree(alloc: Global, html: &str) -> Result<Dom, Outcome>
    ensures nodes { MatchResult result (λ d. IsGiven (nodes_expected (tree_of html.now)) d)
        (λ o. IsRefusedUnlessMemory (nodes_expected (tree_of html.now)) o) }
    ensures of_texts { IfErr result IsOfTexts }
{
    match read_html(alloc, html) {
        Ok(dom) => Ok(dom),
        Err(DomErr::Nodes) => Err(Outcome::Limit {
            what: LimitOf::Nodes,
        }),
        Err(DomErr::Depth) => Err(Outcome::Limit {
            what: LimitOf::Depth,
        }),
        Err(DomErr::NoMemory) => Err(Outcome::NoMemory),
    }
}

/// The sheets of the HTML and of the files, within their limits.
fn read_run_sheets(alloc: Global, dom: &Dom, files: &[String]) -> Result<Sheets, Outcome>
    ensures read { IfOk result (λ s. AllZip IsReadFrom (sources_of
        (author_texts (element_sheets dom.now) (file_texts files.now))) s.read) }
    ensures pages { IfOk result (λ s. ArePageRules (authors_of
        (author_texts (element_sheets dom.now) (file_texts files.now))) s.pages) }
    ensures sheets { (reading : List ℕ → SheetOf) → AreReadings reading → let sheets =
        sheets_expected reading (author_texts (element_sheets dom.now) (file_texts files.now)) in
        MatchResult result (λ s. IsGiven sheets tt) (λ o. IsRefusedUnlessMemory sheets o) }
    ensures of_texts { IfErr result IsOfTexts }
{
    match read_sheets(alloc, dom, files) {
        Ok(sheets) => Ok(sheets),
        Err(SheetsErr::Sheets) => Err(Outcome::Limit {
            what: LimitOf::Sheets,
        }),
        Err(SheetsErr::Rules) => Err(Outcome::Limit {
            what: LimitOf::Rules,
        }),
        Err(SheetsErr::NoMemory) => Err(Outcome::NoMemory),
    }
}

/// The document of the texts.
pub fn read_document<'a>(alloc: Global, texts: BookTexts<'a>) -> Result<Box<Document<'a>>, Outcome>
    requires small { length texts.metrics.now ≤ most_text_bytes }
    requires small_patterns { IfSome texts.patterns (λ text. length text.now ≤ most_text_bytes) }
    ensures document { (reading : List ℕ → SheetOf) → AreReadings reading →
        let document = document_of reading (texts_in texts.entry) in
        MatchResult result (λ d. IsGiven document (document_in d.value)) (λ o. IsRefusedUnlessMemory document o) }
    ensures passes { IfOk result (λ d. d.value.passes ≡ texts.entry.passes) }
    ensures grid { IfOk result (λ d. d.value.grid ≡ texts.entry.grid) }
    ensures read { IfOk result (λ d. HasSheets d.value) }
    ensures of_texts { IfErr result IsOfTexts }
{
    let faces = read_faces(alloc, texts.metrics)?;
    let patterns = read_hyphens(alloc, texts.patterns)?;
    let dom = read_tree(alloc, texts.html)?;
    let sheets = read_run_sheets(alloc, &dom, texts.sheets)?;
    Ok(boxed(
        alloc,
        Document {
            passes: texts.passes,
            grid: texts.grid,
            output: texts.output,
            faces,
            patterns,
            dom,
            sheets: texts.sheets,
            read: sheets.read,
            pages: sheets.pages,
        },
    )?)
}
