//! Styles from winners.

ghost use Rattle.std.specs.Prelude.{◌≡◌, IfOk, OnOk};
ghost use Rattle.style.specs.Styles.{initial_style};
ghost use Rattle.computed_values.specs.Values.{given_by, same};
ghost use Rattle.computed.specs.Applied as spec;

use crate::context::{ElementContext, context_of};
use crate::values::{LengthUse, chosen_border, chosen_length, medium_borders};
use bk_num::ids::NameId;
use bk_num::name::NoMem;
use bk_num::px::Px;
use bk_num::sides::Sides;
use computed_values::fonts::{chosen_height, chosen_weight};
use computed_values::given::{chosen, chosen_color};
use std::alloc::Global;
use style::content::Content;
use style::initial::{
    INITIAL_ALIGN, INITIAL_BACKGROUND, INITIAL_BREAK, INITIAL_CLONES, INITIAL_DISPLAY, INITIAL_FIT,
    INITIAL_FLOAT, INITIAL_HYPHENS, INITIAL_INSIDE, INITIAL_ITALIC, INITIAL_LINES, INITIAL_MARKER,
    INITIAL_SPACE, INITIAL_WRAP, initial_content, initial_counters, initial_strings,
};
use style::lists::{CounterList, Families, StringSets};
use style::long::{Given, Long, SideLong};
use style::style::Style;

/// The computed style of an element below a parent, by its winners, but for its page name, which is 0. `root` is the
/// root's font size, and None is the root itself.
pub fn computed_style(
    alloc: Global,
    parent: &Style,
    root: Option<Px>,
    winners: &[Long],
) -> Result<Style, NoMem>
    ensures { IfOk result (λ style. style ≡ spec.computed_style parent.now root winners.now) }
{
    let context = context_of(parent, root, winners);
    style_in(alloc, parent, &context, winners)
}

fn style_in(
    alloc: Global,
    parent: &Style,
    context: &ElementContext,
    winners: &[Long],
) -> Result<Style, NoMem>
    ensures { IfOk result (λ style. style ≡ spec.style_in parent.now context.now winners.now) }
{
    let mut style = begin(alloc, parent, context)?;
    for long in winners {
        apply(&mut style, alloc, parent, context, long)?;
    }
    Ok(style)
}

/// The style of an element without winners.
fn begin(alloc: Global, parent: &Style, context: &ElementContext) -> Result<Style, NoMem>
    ensures { IfOk result (λ style. style ≡ spec.begun parent.now context.now) }
{
    let mut style = Style::child(parent, alloc)?;
    style.color = context.color;
    style.font_size = context.font_size;
    style.page = NameId(0);
    style.set_border_colors(Sides::same(context.color));
    style.set_border_styles(context.border_styles);
    style.set_border_widths(medium_borders(&context.border_styles));
    Ok(style)
}

/// Takes what a winner gives into a style.
fn apply(
    style: &mut Style,
    alloc: Global,
    parent: &Style,
    context: &ElementContext,
    long: &Long,
) -> Result<(), NoMem>
    ensures { OnOk result (style.new ≡ spec.applied parent.now context.now style.old long.now) }
{
    match long.at_side() {
        Some(given) => {
            apply_side(style, parent, context, &given);
            Ok(())
        }
        None => apply_alone(style, alloc, parent, context, long),
    }
}

/// Takes what a winner gives to a side into a style. The styles of borders are in it already.
fn apply_side(style: &mut Style, parent: &Style, context: &ElementContext, given: &SideLong)
    ensures { style.new ≡ spec.applied_side parent.now context.now style.old given.now }
{
    match given {
        SideLong::Margin(side, given) => {
            let inherited = parent.margins().at(*side);
            let margin = chosen_length(LengthUse::Margin(*side), given, inherited, context);
            style.set_margin(*side, margin);
        }
        SideLong::Padding(side, given) => {
            let inherited = parent.paddings().at(*side);
            let padding = chosen_length(LengthUse::Padding, given, inherited, context);
            style.set_padding(*side, padding);
        }
        SideLong::BorderWidth(side, given) => {
            let inherited = parent.border_widths().at(*side);
            let border = context.border_styles.at(*side);
            style.set_border_width(*side, chosen_border(given, inherited, border, context));
        }
        SideLong::BorderStyle(_, _) => {}
        SideLong::BorderColor(side, given) => {
            let inherited = parent.border_colors().at(*side);
            style.set_border_color(*side, chosen_color(given, inherited, context.color));
        }
    }
}

/// Takes what a winner gives that has no side into a style. A color and a font size are in it already, and a page name
/// comes later.
fn apply_alone(
    style: &mut Style,
    alloc: Global,
    parent: &Style,
    context: &ElementContext,
    long: &Long,
) -> Result<(), NoMem>
    ensures { OnOk result (style.new ≡ spec.applied_alone parent.now context.now style.old long.now) }
{
    apply_flow(style, parent, context, long);
    apply_text(style, parent, context, long);
    apply_list(style, alloc, parent, long)
}

/// Takes what a winner gives a box, its list marker and the breaks round it into a style.
fn apply_flow(style: &mut Style, parent: &Style, context: &ElementContext, long: &Long)
    ensures { style.new ≡ spec.applied_flow parent.now context.now style.old long.now }
{
    match long {
        Long::Display(g) => style.display = chosen(g, parent.display, INITIAL_DISPLAY),
        Long::Float(g) => style.float = chosen(g, parent.float, INITIAL_FLOAT),
        Long::Width(g) => style.width = chosen_length(LengthUse::Width, g, parent.width, context),
        Long::BackgroundColor(g) => {
            style.background_color = chosen(g, parent.background_color, INITIAL_BACKGROUND);
        }
        Long::ListStyleType(g) => {
            style.list_style_type = chosen(g, parent.list_style_type, INITIAL_MARKER);
        }
        Long::BreakBefore(g) => style.break_before = chosen(g, parent.break_before, INITIAL_BREAK),
        Long::BreakAfter(g) => style.break_after = chosen(g, parent.break_after, INITIAL_BREAK),
        Long::BreakInside(g) => {
            style.break_inside = chosen(g, parent.break_inside, INITIAL_INSIDE);
        }
        Long::BoxDecorationBreak(g) => {
            style.box_decoration_break = chosen(g, parent.box_decoration_break, INITIAL_CLONES);
        }
        Long::BookFill(g) => style.book_fill = chosen(g, parent.book_fill, INITIAL_FIT),
        Long::Hyphens(g) => style.hyphens = chosen(g, parent.hyphens, INITIAL_HYPHENS),
        Long::Widows(g) => style.widows = chosen(g, parent.widows, INITIAL_LINES),
        Long::Orphans(g) => style.orphans = chosen(g, parent.orphans, INITIAL_LINES),
        _ => {}
    }
}

/// Takes what a winner gives a text into a style.
fn apply_text(style: &mut Style, parent: &Style, context: &ElementContext, long: &Long)
    ensures { style.new ≡ spec.applied_text parent.now context.now style.old long.now }
{
    match long {
        Long::FontStyle(g) => style.font_style = chosen(g, parent.font_style, INITIAL_ITALIC),
        Long::FontWeight(g) => style.font_weight = chosen_weight(g, parent.font_weight),
        Long::LineHeight(g) => {
            let (font, root) = (context.font_size, context.root_size);
            style.line_height = chosen_height(g, &parent.line_height, font, root);
        }
        Long::TextAlign(g) => style.text_align = chosen(g, parent.text_align, INITIAL_ALIGN),
        Long::TextIndent(g) => {
            style.text_indent = chosen_length(LengthUse::Indent, g, parent.text_indent, context);
        }
        Long::WhiteSpace(g) => {
            style.white_space = chosen(g, parent.white_space, INITIAL_SPACE);
        }
        Long::OverflowWrap(g) => {
            style.overflow_wrap = chosen(g, parent.overflow_wrap, INITIAL_WRAP);
        }
        _ => {}
    }
}

/// Takes a list that a winner gives into a style: families, content, counters or named strings.
fn apply_list(style: &mut Style, alloc: Global, parent: &Style, long: &Long) -> Result<(), NoMem>
    ensures { OnOk result (style.new ≡ spec.applied_list parent.now style.old long.now) }
{
    match long {
        Long::FontFamily(g) => {
            style.font_family = chosen_families(alloc, g, &parent.font_family)?;
        }
        Long::Content(g) => style.content = chosen_content(alloc, g, &parent.content)?,
        Long::CounterReset(g) => {
            style.counter_reset = chosen_counters(alloc, g, &parent.counter_reset)?;
        }
        Long::CounterIncrement(g) => {
            style.counter_increment = chosen_counters(alloc, g, &parent.counter_increment)?;
        }
        Long::StringSet(g) => {
            style.string_set = chosen_strings(alloc, g, &parent.string_set)?;
        }
        _ => {}
    }
    Ok(())
}

fn chosen_families(
    alloc: Global,
    given: &Given<Families>,
    inherited: &Families,
) -> Result<Families, NoMem>
    ensures { IfOk result (λ families. families ≡ given_by same given.now inherited.now initial_style.font_family) }
{
    match given {
        Given::Value(families) => families.copy(alloc),
        Given::Inherit => inherited.copy(alloc),
        Given::Initial => Families::serif(alloc),
    }
}

fn chosen_content(
    alloc: Global,
    given: &Given<Option<Content>>,
    inherited: &Option<Content>,
) -> Result<Option<Content>, NoMem>
    ensures { IfOk result (λ content. content ≡ given_by same given.now inherited.now initial_style.content) }
{
    match given {
        Given::Value(content) => copy_content(alloc, content),
        Given::Inherit => copy_content(alloc, inherited),
        Given::Initial => Ok(initial_content()),
    }
}

fn copy_content(alloc: Global, content: &Option<Content>) -> Result<Option<Content>, NoMem>
    ensures { IfOk result (λ copy. copy ≡ content.now) }
{
    match content {
        Some(content) => Ok(Some(content.copy(alloc)?)),
        None => Ok(None),
    }
}

fn chosen_counters(
    alloc: Global,
    given: &Given<CounterList>,
    inherited: &CounterList,
) -> Result<CounterList, NoMem>
    ensures { IfOk result (λ counters. counters ≡ given_by same given.now inherited.now initial_style.counter_reset) }
{
    match given {
        Given::Value(counters) => counters.copy(alloc),
        Given::Inherit => inherited.copy(alloc),
        Given::Initial => Ok(initial_counters(alloc)),
    }
}

fn chosen_strings(
    alloc: Global,
    given: &Given<StringSets>,
    inherited: &StringSets,
) -> Result<StringSets, NoMem>
    ensures { IfOk result (λ strings. strings ≡ given_by same given.now inherited.now initial_style.string_set) }
{
    match given {
        Given::Value(strings) => strings.copy(alloc),
        Given::Inherit => inherited.copy(alloc),
        Given::Initial => Ok(initial_strings(alloc)),
    }
}
