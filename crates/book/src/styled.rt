//! A document in its styles.

ghost use Rattle.std.specs.Prelude.{◌≡◌, ℕ, List, IfOk};
ghost use Rattle.bk_num.specs.declared.values.Pseudo.{Pseudo};
ghost use Rattle.box_gen.specs.Sources.{AreInRange, IsRootShown};
ghost use Rattle.computed.specs.Document.{AreDocumentStyles};
ghost use Rattle.counters.specs.At.{counter_values};
ghost use Rattle.counters.specs.Document.{values_of};
ghost use Rattle.book.specs.DocumentView.{document_in, HasSheets};
ghost use Rattle.book.specs.Laid.{AreGoodStyles, IsStyledOf};

use crate::boxed::boxed;
use crate::document::{ColumnGrid, Document, Output};
use bk_num::items::Items;
use bk_num::name::NoMem;
use cascade::sheet::ReadSheet;
use computed::document::styles;
use computed::laws::{root_is_shown, styles_keep_ranges};
use counters::at::CounterAt;
use counters::number::number_all;
use css_page::rules::PageRule;
use dom::Dom;
use hyphen::Patterns;
use metrics::Faces;
use std::alloc::Global;
use style::names::Names;
use style::styles::Styles;

/// A document's nodes in their styles, the values of its counters, the faces that set it, the patterns by which its
/// words are hyphenated, the rules of its pages, and their names: what all passes over it read, of which there are at
/// most so many; the columns of its pages, and what is to be put of it.
#[derive(Drop)]
pub struct Styled {
    pub passes: u32,
    pub grid: ColumnGrid,
    pub output: Output,
    pub faces: Faces,
    pub patterns: Option<Patterns>,
    pub dom: Dom,
    pub rules: Items<PageRule>,
    pub names: Names,
    pub styles: Styles,
    pub counters: CounterAt,
}

/// The styles of a document's nodes, and the names of its pages.
fn styles_of(alloc: Global, dom: &Dom, sheets: &[ReadSheet]) -> Result<(Styles, Names), NoMem>
    ensures styles { IfOk result (λ r. AreDocumentStyles r.1 dom.now sheets.now r.0) }
    ensures ranges { IfOk result (λ r. AreInRange r.0) }
    ensures shown { IfOk result (λ r. IsRootShown r.0) }
{
    styles_keep_ranges();
    root_is_shown();
    // a document is a tree
    let _count = dom.len();
    styles(alloc, dom, sheets)
}

/// The styles of a document's nodes, the names of its pages, and the values of its counters.
#[derive(Drop)]
struct Computed {
    names: Names,
    styles: Styles,
    counters: CounterAt,
}

/// What is computed of a document's nodes by its sheets.
fn computed_of(alloc: Global, dom: &Dom, sheets: &[ReadSheet]) -> Result<Box<Computed>, NoMem>
    ensures styles { IfOk result (λ c. AreDocumentStyles c.value.names dom.now sheets.now c.value.styles) }
    ensures ranges { IfOk result (λ c. AreInRange c.value.styles) }
    ensures shown { IfOk result (λ c. IsRootShown c.value.styles) }
    ensures counters { IfOk result (λ c. (n : ℕ) (p : Pseudo) (x : List ℕ) →
        counter_values c.value.counters n p x ≡ values_of dom.now c.value.styles n p x) }
{
    let (styles, names) = styles_of(alloc, dom, sheets)?;
    let counters = number_all(alloc, dom, &styles)?;
    boxed(
        alloc,
        Computed {
            names,
            styles,
            counters,
        },
    )
}

/// A document with what is computed of it.
fn with_computed(document: Box<Document<'_>>, computed: Box<Computed>) -> Styled
    requires sheets { HasSheets document.value }
    requires styles { AreDocumentStyles computed.value.names document.value.dom document.value.read
        computed.value.styles }
    requires ranges { AreInRange computed.value.styles }
    requires shown { IsRootShown computed.value.styles }
    requires counters { (n : ℕ) (p : Pseudo) (x : List ℕ) → counter_values computed.value.counters n p x
        ≡ values_of document.value.dom computed.value.styles n p x }
    ensures of { IsStyledOf (document_in document.entry.value) result }
    ensures good { AreGoodStyles result }
{
    let document = Box::into_inner(document);
    let computed = Box::into_inner(computed);
    Styled {
        passes: document.passes,
        grid: document.grid,
        output: document.output,
        faces: document.faces,
        patterns: document.patterns,
        dom: document.dom,
        rules: document.pages,
        names: computed.names,
        styles: computed.styles,
        counters: computed.counters,
    }
}

/// A document in its styles. Each is made once, for all passes.
pub fn in_styles(alloc: Global, document: Box<Document<'_>>) -> Result<Box<Styled>, NoMem>
    requires { HasSheets document.value }
    ensures of { IfOk result (λ s. IsStyledOf (document_in document.entry.value) s.value) }
    ensures good { IfOk result (λ s. AreGoodStyles s.value) }
{
    let computed = computed_of(alloc, &document.dom, document.read.as_slice())?;
    boxed(alloc, with_computed(document, computed))
}
