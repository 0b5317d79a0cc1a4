//! Lengths of an element's properties in its context.

ghost use Rattle.std.specs.Prelude.{◌≡◌};
ghost use Rattle.bk_num.specs.Sides.{at, each};
ghost use Rattle.style.specs.Initial.{medium_width};
ghost use Rattle.computed_values.specs.Values.{given_by, width_of};
ghost use Rattle.computed.specs.Lengths as spec;

use crate::context::ElementContext;
use bk_num::length::Len;
use bk_num::px::Px;
use bk_num::sides::{BoxSide, Sides};
use computed_values::lengths::{held, held_len, len_of, px, units_of, width_of, without_auto};
use style::initial::medium_width;
use style::long::Given;
use style::values::{BorderStyle, Measure};

/// What a length is for.
#[derive(Clone, Copy)]
pub(crate) enum LengthUse {
    Margin(BoxSide),
    Padding,
    Width,
    Indent,
}

fn length_in(context: &ElementContext, measure: &Measure) -> Len
    ensures { result ≡ spec.length_in context.now measure.now }
{
    len_of(context.font_size, context.root_size, measure)
}

/// A length as its property has it.
fn length_for(usage: LengthUse, context: &ElementContext, measure: &Measure) -> Len
    ensures { result ≡ spec.length_for usage context.now measure.now }
{
    let length = length_in(context, measure);
    match usage {
        LengthUse::Margin(BoxSide::Top | BoxSide::Bottom) => without_auto(&length),
        LengthUse::Margin(BoxSide::Right | BoxSide::Left) => length,
        LengthUse::Padding => held_len(&without_auto(&length)),
        LengthUse::Width => held_len(&length),
        LengthUse::Indent => without_auto(&length),
    }
}

fn initial_length(usage: LengthUse) -> Len
    ensures { result ≡ spec.initial_length usage }
{
    match usage {
        LengthUse::Width => Len::Auto,
        LengthUse::Margin(_) | LengthUse::Padding | LengthUse::Indent => Len::Px(px(0)),
    }
}

/// The length that a declaration gives its property, below a parent whose length is `inherited`.
pub(crate) fn chosen_length(
    usage: LengthUse,
    given: &Given<Measure>,
    inherited: Len,
    context: &ElementContext,
) -> Len
    ensures { result ≡ spec.chosen_length usage context.now given.now inherited }
{
    match given {
        Given::Value(measure) => length_for(usage, context, measure),
        Given::Inherit => inherited,
        Given::Initial => initial_length(usage),
    }
}

/// The width of a border, but for its style.
fn border_in(context: &ElementContext, measure: &Measure) -> Px
    ensures { result ≡ spec.border_in context.now measure.now }
{
    held(units_of(context.font_size, context.root_size, px(0), measure))
}

/// The width that a declaration gives a border of a style.
pub(crate) fn chosen_border(
    given: &Given<Measure>,
    inherited: Px,
    style: BorderStyle,
    context: &ElementContext,
) -> Px
    ensures { result ≡ width_of style (given_by (spec.border_in context.now) given.now inherited medium_width) }
{
    let width = match given {
        Given::Value(measure) => border_in(context, measure),
        Given::Inherit => inherited,
        Given::Initial => medium_width(),
    };
    width_of(style, width)
}

/// `medium`, the initial width of a border, of each of these styles.
pub(crate) fn medium_borders(styles: &Sides<BorderStyle>) -> Sides<Px>
    ensures { result ≡ each (λ a. width_of (at styles.now a) medium_width) }
{
    let medium = medium_width();
    Sides {
        top: width_of(styles.top, medium),
        right: width_of(styles.right, medium),
        bottom: width_of(styles.bottom, medium),
        left: width_of(styles.left, medium),
    }
}
