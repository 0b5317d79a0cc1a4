//! The widths of the boxes that are open where a page is read.

ghost use Rattle.std.specs.Prelude.{◌≡◌, []};

use seams::widths::Widths;

/// The widths of the boxes that are open in the flow and in a note's body, where each is read. They are kept from page
/// to page, so that no page has to make room for them.
#[derive(Drop)]
pub(crate) struct PageWidths {
    pub flow: Widths,
    pub notes: Widths,
}

impl PageWidths {
    /// No box is open.
    #[inline]
    pub(crate) fn none() -> PageWidths
        ensures flow { result.flow ≡ [] }
        ensures notes { result.notes ≡ [] }
    {
        PageWidths {
            flow: Widths::none(),
            notes: Widths::none(),
        }
    }
}
