//! Widths of a line's pieces, and the spaces in them that take shares.

ghost use Rattle.std.specs.Prelude.{◌≡◌, ◌<◌, ◌≤◌, ◌+◌, ◌^◌, length};
ghost use Rattle.boxes.specs.declared.leaf.Leaf.{Leaf};
ghost use Rattle.line_place.specs.Sums.{AreSums, StandsIn, one};

use crate::pieces::{Ends, Piece, is_free};
use boxes::leaf::{Leaf, Span};
use metrics::Faces;

/// What a line has up to an offset: its width in units, and how many of its spaces take shares.
#[derive(Clone, Copy)]
pub(crate) struct Sums {
    pub width: u64,
    pub passed: u64,
}

impl Sums {
    /// The sums with one more byte.
    fn with(self, unit: u32, free: bool) -> Sums
        requires width { self.width < 2 ^ 62 }
        requires passed { self.passed < 2 ^ 62 }
        ensures width { result.width ≡ self.width + unit }
        ensures passed { result.passed ≡ self.passed + one free }
    {
        Sums {
            width: self.width + u64::from(unit),
            passed: self.passed + if free { 1 } else { 0 },
        }
    }
}

/// The sums with the bytes of a piece of a line.
pub(crate) fn add_piece(
    faces: &Faces,
    leaf: &Leaf,
    span: &Span,
    ends: Ends,
    piece: Piece,
    sums: Sums,
) -> Sums
    requires stands { StandsIn faces.now leaf.now span.now piece.from piece.to }
    requires within { piece.to ≤ length leaf.now.text }
    requires begins { ends.from ≤ piece.from }
    requires order { piece.from ≤ piece.to }
    requires sums { AreSums faces.now leaf.now ends.free ends.from piece.from sums }
    ensures { AreSums faces.now leaf.now ends.free ends.from piece.to result }
{
    let text = leaf.text.as_str();
    let bytes = text.as_bytes();
    let pen = faces.pen(span.face, span.size);
    let begin = ends.from.max(span.from);
    let mut sums = sums;
    for at in piece.from..piece.to {
        let width = pen.byte_width(text, begin as usize, at as usize);
        sums = sums.with(width, is_free(bytes, ends.free, at));
    }
    sums
}
