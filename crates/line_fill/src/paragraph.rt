//! What is left of a paragraph from a place on.

ghost use Rattle.std.specs.Prelude.{◌≡◌, ◌+◌, ◌-◌, ◌<◌, ◌≤◌, ◌⊎◌, ◌^◌, length, slice_index, min, MatchOption};
ghost use Rattle.boxes.specs.Contents.{IsGoodLeaf};
ghost use Rattle.line_fill.specs.LineEnd.{stop_of};
ghost use Rattle.line_fill.specs.Paragraphs.{IsParagraph};
ghost use Rattle.line_fill.specs.Stops.{offsets_of};
ghost use Rattle.total_fit.specs.Lines.{most_stops};

use crate::places::count_up_to;
use boxes::leaf::Leaf;

/// The most stops for which a plan is made, as specs name them.
const MOST_STOPS: usize = 4096;

/// What is left of a paragraph from `from` on: it ends at `end`, and the places of its leaf before that have the
/// indices from `first` up to, and without, `last`.
#[derive(Clone, Copy, Debug)]
pub struct Paragraph {
    pub from: usize,
    pub first: usize,
    pub last: usize,
    pub end: usize,
}

/// The offset after the first newline from a place on, or an end that comes before it.
fn newline_end(bytes: &[u8], from: usize, end: usize) -> usize
    requires order { from ≤ end }
    requires within { end ≤ length bytes.now }
    ensures { result ≡ min (stop_of bytes.now from) end }
{
    for k in from..end {
        if bytes[k] == b'\n' {
            return k + 1;
        }
    }
    end
}

/// How far a newline is sought: up to the place of an index, or to the end.
fn sought_end(places: &[u32], index: usize, end: usize) -> usize
    ensures within { result ≤ end }
    ensures place { (result ≡ end) ⊎ ((index < length places.now) × (result ≡ slice_index places.now index + 1)) }
{
    if index < places.len() && (places[index] as usize) < end {
        places[index] as usize + 1
    } else {
        end
    }
}

/// What is left of a paragraph of a leaf from a place on. None where it has more stops than a plan is made for, which
/// its first places tell.
pub(crate) fn paragraph_at(leaf: &Leaf, from: usize) -> Option<Paragraph>
    requires good { IsGoodLeaf leaf.now }
    requires few { length leaf.now.text < 2 ^ 32 }
    requires from { from < length leaf.now.text }
    ensures { MatchOption result (most_stops < length (offsets_of leaf.now from))
        (λ p. (p.from ≡ from) × (length (offsets_of leaf.now from) ≤ most_stops) × IsParagraph leaf.now p) }
{
    let bytes = leaf.text.as_str().as_bytes();
    let places = leaf.places.as_slice();
    let first = count_up_to(places, from);
    let most = sought_end(places, first + (MOST_STOPS - 1), bytes.len());
    let end = newline_end(bytes, from, most);
    let last = count_up_to(places, end - 1);
    if last - first >= MOST_STOPS {
        return None;
    }
    Some(Paragraph {
        from,
        first,
        last,
        end,
    })
}

impl Paragraph {
    /// How many stops there are.
    pub(crate) fn count(self, leaf: &Leaf) -> usize
        requires { IsParagraph leaf.now self }
        ensures { result ≡ length (offsets_of leaf.now self.from) }
    {
        // The places are read, so that there are no more of them than memory has.
        let _places = leaf.places.as_slice();
        self.last - self.first + 1
    }

    /// Where a stop of it is, by its index.
    pub(crate) fn offset(self, leaf: &Leaf, index: usize) -> usize
        requires paragraph { IsParagraph leaf.now self }
        requires index { index < length (offsets_of leaf.now self.from) }
        ensures { result ≡ slice_index (offsets_of leaf.now self.from) index }
    {
        if index < self.last - self.first {
            leaf.places.as_slice()[self.first + index] as usize
        } else {
            self.end
        }
    }
}
