//! How wide a line is so far.

ghost use Rattle.std.specs.Prelude.{◌≡◌, ℕ, ◌<◌, ◌≤◌, ◌+◌, ◌*◌, ◌-◌, ◌^◌, ◌≢◌, ◌⊎◌, pos, ◌≤ℤ◌, ◌+ℤ◌, length, slice_index};
ghost use Rattle.metrics.specs.Widths.{byte_width};
ghost use Rattle.line_fill.specs.Fill.{passed, passed_to};

use metrics::Pen;

/// The width of a line so far, with and without the spaces at its end.
#[derive(Clone, Copy, Debug)]
pub struct LineWidth {
    pub total: i64,
    pub shown: i64,
}

/// The end of a stretch of bytes, and the widths there.
#[derive(Clone, Copy)]
pub(crate) struct Stretch {
    pub to: usize,
    pub line_width: LineWidth,
}

impl LineWidth {
    /// The widths with one more byte.
    #[inline]
    #[tactic(auto, unfolding(crate::specs::Fill::passed))]
    fn pass(self, byte: u8, width: u32) -> LineWidth
        requires low { pos 0 ≤ℤ self.total }
        requires high { self.total ≤ℤ pos (2 ^ 60) }
        ensures value { result ≡ passed byte width self }
        ensures total { result.total ≡ self.total +ℤ pos width }
    {
        let total = self.total + i64::from(width);
        if byte == b' ' || byte == b'\n' {
            LineWidth {
                total,
                shown: self.shown,
            }
        } else {
            LineWidth {
                total,
                shown: total,
            }
        }
    }
}

/// The bytes from a place on, up to another place or after the first newline before it, in a part of a text that begins
/// at a third place.
pub(crate) fn pass_stretch(
    pen: &Pen<'_>,
    text: &str,
    begin: usize,
    at: usize,
    end: usize,
    line_width: LineWidth,
) -> Stretch
    requires order { at < end }
    requires within { end ≤ length text.now }
    requires few { length text.now < 2 ^ 32 }
    requires low { pos 0 ≤ℤ line_width.total }
    requires high { line_width.total ≤ℤ pos (2 ^ 27 * at) }
    ensures goes { at < result.to }
    ensures within { result.to ≤ end }
    ensures quiet { (k : ℕ) → at ≤ k → k + 1 < result.to → slice_index text.now k ≢ 10 }
    ensures ends { (result.to ≡ end) ⊎ (slice_index text.now (result.to - 1) ≡ 10) }
    ensures line_width { result.line_width ≡ passed_to (byte_width pen.now text.now begin) text.now
        at (result.to - at) line_width }
    ensures low { pos 0 ≤ℤ result.line_width.total }
    ensures high { result.line_width.total ≤ℤ pos (2 ^ 27 * result.to) }
{
    let bytes = text.as_bytes();
    let mut line_width = line_width;
    for k in at..end {
        let byte = bytes[k];
        line_width = line_width.pass(byte, pen.byte_width(text, begin, k));
        if byte == b'\n' {
            return Stretch {
                to: k + 1,
                line_width,
            };
        }
    }
    Stretch {
        to: end,
        line_width,
    }
}
