//! The markers of list items (CSS 2.1, 12.5).

ghost use Rattle.std.specs.Prelude.{◌≡◌, ◌<◌, ◌^◌, IfOk, SomeIff, length, string_bytes};
ghost use Rattle.counters.specs.At.{counter_values};
ghost use Rattle.box_gen.specs.Markers as spec;
ghost use Rattle.box_gen.specs.Markers.{bullet_text, lead_by, list_values, number_text};

use crate::text_style::{TextStyle, span_by};
use bk_num::ids::NodeId;
use bk_num::name::{Name, NoMem};
use bk_num::values::{NumStyle, Pseudo};
use boxes::leaf::Lead;
use counters::at::CounterAt;
use counters::numeral::bullet;
use gen_text::parts::print_counter;
use gen_text::table::print_text;
use std::alloc::Global;

/// The number of a list item in a style, with a full stop and a space.
fn number_text(
    alloc: Global,
    counters: &CounterAt,
    node: NodeId,
    style: NumStyle,
) -> Result<String, NoMem>
    ensures { IfOk result (λ text. string_bytes text ≡
        number_text style (list_values (counter_values counters.now) node.0)) }
{
    let mut text = String::new(alloc);
    print_counter(
        alloc,
        counters,
        node,
        Pseudo::Element,
        "list-item",
        style,
        &mut text,
    )?;
    print_text(". ", &mut text)?;
    Ok(text)
}

/// A text as a name.
fn named(text: String) -> Option<Name>
    ensures { result ≡ spec.some_text (string_bytes text) }
{
    Some(Name::from_string(text))
}

/// A bullet and a space.
fn bullet_text(alloc: Global, style: NumStyle) -> Result<String, NoMem>
    ensures { IfOk result (λ text. string_bytes text ≡ bullet_text style) }
{
    let mut text = String::new(alloc);
    print_text(bullet(style), &mut text)?;
    print_text(" ", &mut text)?;
    Ok(text)
}

/// The text of a list item's marker: its number with a full stop and a space, a bullet and a space, or none.
pub fn marker_text(
    alloc: Global,
    counters: &CounterAt,
    node: NodeId,
    style: NumStyle,
) -> Result<Option<Name>, NoMem>
    ensures { IfOk result (λ text. text ≡ spec.marker_text style (list_values (counter_values counters.now) node.0)) }
{
    match style {
        NumStyle::Nothing => Ok(None),
        NumStyle::Disc | NumStyle::Circle | NumStyle::Square => {
            Ok(named(bullet_text(alloc, style)?))
        }
        _ => Ok(named(number_text(alloc, counters, node, style)?)),
    }
}

/// A marker in a style, which hangs before the first line of the item whose box has the number `owner`; None exactly
/// where its text has 2^32 bytes or more.
pub fn lead_of(text: Name, style: &TextStyle, owner: u32) -> Option<Lead>
    ensures { SomeIff result (length text < 2 ^ 32) (lead_by text style.now owner) }
{
    let len = u32::try_from(text.as_str().len()).ok()?;
    Some(Lead {
        span: span_by(style, 0, len),
        text,
        owner,
    })
}
