//! How far solids reach down a page.

ghost use Rattle.std.specs.Prelude.{◌≡◌};
ghost use Rattle.notes.specs.Near.{IsNearSolid};
ghost use Rattle.paint.specs.Fragments.{extent_of, join};

use boxes::page::Placed;

/// From a least top to a greatest bottom, in units from the top that the solids count from.
#[derive(Clone, Copy, Debug)]
pub struct VerticalExtent {
    pub top: i64,
    pub bottom: i64,
}

/// The least top and the greatest bottom.
pub(crate) fn join(a: Option<VerticalExtent>, b: Option<VerticalExtent>) -> Option<VerticalExtent>
    ensures { result ≡ join a b }
{
    match (a, b) {
        (None, _) => b,
        (Some(_), None) => a,
        (Some(a), Some(b)) => Some(VerticalExtent {
            top: a.top.min(b.top),
            bottom: a.bottom.max(b.bottom),
        }),
    }
}

/// The extent of a solid.
pub(crate) fn extent_of(s: &Placed) -> VerticalExtent
    requires { IsNearSolid s.now }
    ensures { result ≡ extent_of s.now }
{
    VerticalExtent {
        top: s.top,
        bottom: s.top + s.height,
    }
}
