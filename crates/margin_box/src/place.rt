//! Where the one line of a margin box stands in it.

ghost use Rattle.std.specs.Prelude.{◌≡◌, ◌-ℤ◌, ◌^◌};
ghost use Rattle.bk_num.specs.Numbers.{IsWithin};
ghost use Rattle.margin_box.specs.Placing as spec;

use bk_num::values::Align;
use css_page::values::Upright;

/// Where something stands along a side of its box.
#[derive(Clone, Copy, Debug, PartialEq, Eq)]
pub enum Along {
    Start,
    Middle,
    End,
}

/// The part of a slack that stands before a line. The slack is negative where the line overflows its box.
fn slack_before(along: Along, slack: i64) -> i64
    requires { IsWithin (2 ^ 61) slack }
    ensures value { result ≡ spec.slack_before along slack }
    ensures bound { IsWithin (2 ^ 61) result }
{
    match along {
        Along::Start => 0,
        Along::Middle => slack.div_euclid(2),
        Along::End => slack,
    }
}

/// What a size leaves of a room; it is negative where the size is the greater one.
fn slack_of(room: i64, size: i64) -> i64
    requires room { IsWithin (2 ^ 41) room }
    requires size { IsWithin (2 ^ 60) size }
    ensures value { result ≡ room -ℤ size }
    ensures bound { IsWithin (2 ^ 61) result }
{
    room - size
}

/// Where what has a size begins in a room that begins at a place, in units, within 2^62 either way.
pub fn begin_in(along: Along, at: i64, room: i64, size: i64) -> i64
    requires at { IsWithin (2 ^ 41) at }
    requires room { IsWithin (2 ^ 41) room }
    requires size { IsWithin (2 ^ 60) size }
    ensures value { result ≡ spec.begin_in along at room size }
    ensures bound { IsWithin (2 ^ 62) result }
{
    at + slack_before(along, slack_of(room, size))
}

/// How a line stands across its box (CSS 2.1, 16.2: `text-align`). No line of a margin box is justified.
pub fn along_width(align: Align) -> Along
    ensures { result ≡ spec.along_width align }
{
    match align {
        Align::Left | Align::Justify => Along::Start,
        Align::Center => Along::Middle,
        Align::Right => Along::End,
    }
}

/// How a line stands in the height of its box (css-page-3, `vertical-align`).
pub fn along_height(upright: Upright) -> Along
    ensures { result ≡ spec.along_height upright }
{
    match upright {
        Upright::Top => Along::Start,
        Upright::Middle => Along::Middle,
        Upright::Bottom => Along::End,
    }
}
