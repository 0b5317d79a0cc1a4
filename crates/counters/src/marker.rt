//! Which elements have a marker (CSS 2.1, 12.5).

ghost use Rattle.std.specs.Prelude.{◌≡◌};
ghost use Rattle.counters.specs.Markers.{has_marker};

use style::style::Style;
use style::values::Display;

/// Whether an element, the root or another one, has a marker: a list item that doesn't float to the notes, and isn't
/// the root, which is a block.
pub fn has_marker(root: bool, style: &Style) -> bool
    ensures { result ≡ has_marker root style.now }
{
    !root && style.display == Display::ListItem && !style.float
}
