//! Characters that have a width.

ghost use Rattle.std.specs.Prelude.{◌≡◌, ◌-◌, ◌<◌, ◌≤◌, ◌&&◌, length, slice_index};
ghost use Rattle.metrics.specs.Widths.{begun_at, char_at, has_width, is_lead};
ghost use Rattle.line_fill.specs.Stops.{first_wide};

use metrics::pen::{begun_at, has_width};

/// Whether a byte of a text begins a character that has a width.
fn is_wide(text: &str, at: usize) -> bool
    requires { at < length text.now }
    ensures { result ≡ (is_lead (slice_index text.now at) && has_width (char_at text.now at)) }
{
    match begun_at(text, at) {
        None => false,
        Some(c) => has_width(c),
    }
}

/// The first place from one on, before another, at which a character with a width begins.
pub(crate) fn first_wide(text: &str, from: usize, end: usize) -> Option<usize>
    requires { end ≤ length text.now }
    ensures { result ≡ first_wide text.now from (end - from) }
{
    for at in from..end {
        if is_wide(text, at) {
            return Some(at);
        }
    }
    None
}
