//! The styles of a document by its sheets.

ghost use Rattle.std.specs.Prelude.{IfOk};
ghost use Rattle.computed.specs.Document.{AreDocumentStyles};

use crate::walk::styles_of;
use bk_num::name::NoMem;
use cascade::sheet::ReadSheet;
use cascade::winners::all_winners;
use dom::Dom;
use std::alloc::Global;
use style::names::Names;
use style::styles::Styles;

/// The computed styles of a document's nodes and of their pseudo-elements by its sheets (CSS 2.1, 6), and the names of
/// its pages. Later sheets stand above earlier ones of the same origin. It takes time in proportion to the nodes and to
/// the rules that apply to them; only want of memory is in its way.
pub fn styles(alloc: Global, dom: &Dom, sheets: &[ReadSheet]) -> Result<(Styles, Names), NoMem>
    ensures { IfOk result (λ r. AreDocumentStyles r.1 dom.now sheets.now r.0) }
{
    let winners = all_winners(alloc, dom, sheets)?;
    styles_of(alloc, dom, &winners)
}
