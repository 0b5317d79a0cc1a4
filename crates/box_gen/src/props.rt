//! The boxes of blocks, and anonymous boxes.

ghost use Rattle.std.specs.Prelude.{◌≡◌, Some};
ghost use Rattle.box_gen.specs.Props.{anonymous_props, props_of};

use bk_num::ids::NodeId;
use bk_num::length::Len;
use bk_num::px::Px;
use bk_num::values::BreakAt;
use boxes::props::BoxProps;
use style::style::Style;

/// The box of a block element (CSS 2.1, 9.2.1). `clones` is whether its edges may stand again where a page parts it:
/// those of boxes in a note never do.
pub fn props_of(style: &Style, node: NodeId, clones: bool) -> BoxProps
    ensures { result ≡ props_of clones style.now node.0 }
{
    BoxProps {
        margin: style.margins().array(),
        border: style.border_widths().array(),
        padding: style.paddings().array(),
        width: style.width,
        before: style.break_before,
        after: style.break_after,
        avoid_inside: style.break_inside,
        clones: clones && style.box_decoration_break,
        widows: style.widows,
        orphans: style.orphans,
        name: style.page,
        background: style.background_color,
        colors: style.border_colors().array(),
        node: Some(node),
    }
}

/// The anonymous box round a run of inline text beside blocks (CSS 2.1, 9.2.1.1): what is inherited comes from the
/// block around it, whose style is given, and else it is initial.
#[tactic(auto, unfolding(bk_num::specs::Units::clamped))]
pub fn anonymous_props(style: &Style) -> BoxProps
    ensures { result ≡ anonymous_props style.now }
{
    let none = Len::Px(Px::from_units(0));
    BoxProps {
        margin: [none; 4],
        border: [Px::from_units(0); 4],
        padding: [none; 4],
        width: Len::Auto,
        before: BreakAt::Auto,
        after: BreakAt::Auto,
        avoid_inside: false,
        clones: false,
        widows: style.widows,
        orphans: style.orphans,
        name: style.page,
        background: None,
        colors: [style.color; 4],
        node: None,
    }
}
