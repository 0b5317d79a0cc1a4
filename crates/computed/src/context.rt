//! What an element's values are computed in.

ghost use Rattle.std.specs.Prelude.{◌≡◌, Option, Some};
ghost use Rattle.computed.specs.Context as spec;

use bk_num::px::Px;
use bk_num::sides::Sides;
use bk_num::values::Color;
use computed_values::fonts::chosen_size;
use computed_values::given::chosen;
use style::initial::{INITIAL_BORDER, INITIAL_COLOR, medium_size};
use style::long::{Long, SideLong};
use style::style::Style;
use style::values::BorderStyle;

/// The font size, the root's font size, the color and the borders' styles of an element.
#[derive(Clone, Copy)]
pub struct ElementContext {
    pub font_size: Px,
    pub root_size: Px,
    pub color: Color,
    pub border_styles: Sides<BorderStyle>,
}

/// The context of an element below a parent, by its winners. `root` is the root's font size, and None is the root
/// itself.
pub fn context_of(parent: &Style, root: Option<Px>, winners: &[Long]) -> ElementContext
    ensures { result ≡ spec.context_of parent.now root winners.now }
{
    let rem = rem_of(&root);
    let mut context = bare(parent);
    for long in winners {
        note(&mut context, parent, &rem, long);
    }
    settle(&mut context, &root);
    context
}

fn bare(parent: &Style) -> ElementContext
    ensures { result ≡ spec.bare parent.now }
{
    ElementContext {
        font_size: parent.font_size,
        root_size: parent.font_size,
        color: parent.color,
        border_styles: Sides::same(INITIAL_BORDER),
    }
}

fn rem_of(root: &Option<Px>) -> Px
    ensures { result ≡ spec.rem_of root.now }
{
    match root {
        Some(size) => *size,
        None => medium_size(),
    }
}

fn settle(context: &mut ElementContext, root: &Option<Px>)
    ensures { context.new ≡ spec.settled root.now context.old }
{
    match root {
        Some(size) => context.root_size = *size,
        None => context.root_size = context.font_size,
    }
}

/// Takes what a winner gives into the context.
fn note(context: &mut ElementContext, parent: &Style, rem: &Px, long: &Long)
    ensures { context.new ≡ spec.noted parent.now rem.now context.old long.now }
{
    match long.at_side() {
        Some(given) => note_side(context, parent, &given),
        None => note_alone(context, parent, rem, long),
    }
}

/// Takes what a winner gives to a side into the context.
fn note_side(context: &mut ElementContext, parent: &Style, given: &SideLong)
    ensures { context.new ≡ spec.noted_side parent.now context.old given.now }
{
    match given {
        SideLong::BorderStyle(side, given) => {
            let inherited = parent.border_styles().at(*side);
            context
                .border_styles
                .put(*side, chosen(given, inherited, INITIAL_BORDER));
        }
        _ => {}
    }
}

/// Takes what a winner gives that has no side into the context.
fn note_alone(context: &mut ElementContext, parent: &Style, rem: &Px, long: &Long)
    ensures { context.new ≡ spec.noted_alone parent.now rem.now context.old long.now }
{
    match long {
        Long::FontSize(given) => context.font_size = chosen_size(given, parent.font_size, *rem),
        Long::Color(given) => context.color = chosen(given, parent.color, INITIAL_COLOR),
        _ => {}
    }
}
