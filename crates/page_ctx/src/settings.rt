//! How the texts of pages and of margin boxes are set by what is declared for them.

ghost use Rattle.std.specs.Prelude.{◌≡◌, map, option_map};
ghost use Rattle.style.specs.Styles.{initial_style};
ghost use Rattle.page_ctx.specs.Winners.{candidate_in};
ghost use Rattle.page_ctx.specs.Settings as spec;

use crate::margin_style::PageSetting;
use crate::property::PageProperty;
use crate::winner::{PageCandidate, value_of};
use bk_num::name::Name;
use bk_num::px::Px;
use bk_num::values::Color;
use computed_values::fonts::{chosen_height, chosen_size, chosen_weight};
use computed_values::given::chosen;
use css_page::values::PageLong;
use style::initial::{INITIAL_COLOR, INITIAL_ITALIC, medium_size, normal_height, normal_weight};
use style::long::Given;
use style::values::LineHeight;

fn families_by<'s>(
    parent: &'s [Name],
    initial: &'s [Name],
    found: Option<&'s PageLong>,
) -> &'s [Name]
    requires { initial.now ≡ initial_style.font_family }
    ensures { result.now ≡ spec.families_by parent.entry.now (option_map (λ l. l.now) found.entry) }
{
    match found {
        Some(PageLong::FontFamily(Given::Value(families))) => families.as_slice(),
        Some(PageLong::FontFamily(Given::Initial)) => initial,
        _ => parent,
    }
}

fn italic_by(parent: bool, found: Option<&PageLong>) -> bool
    ensures { result ≡ spec.italic_by parent (option_map (λ l. l.now) found.entry) }
{
    match found {
        Some(PageLong::FontStyle(given)) => chosen(given, parent, INITIAL_ITALIC),
        _ => parent,
    }
}

fn weight_by(parent: u16, found: Option<&PageLong>) -> u16
    ensures { result ≡ spec.weight_by parent (option_map (λ l. l.now) found.entry) }
{
    match found {
        Some(PageLong::FontWeight(given)) => chosen_weight(given, parent),
        _ => parent,
    }
}

/// A font size below a parent's, in units; a `rem` is 16 px.
fn size_by(parent: Px, found: Option<&PageLong>) -> Px
    ensures { result ≡ spec.size_by parent (option_map (λ l. l.now) found.entry) }
{
    match found {
        Some(PageLong::FontSize(given)) => chosen_size(given, parent, medium_size()),
        _ => parent,
    }
}

/// A height of lines in a font of this size.
fn line_height_by(parent: &LineHeight, size: Px, found: Option<&PageLong>) -> LineHeight
    ensures { result ≡ spec.line_height_by parent.now size (option_map (λ l. l.now) found.entry) }
{
    match found {
        Some(PageLong::LineHeight(given)) => chosen_height(given, parent, size, medium_size()),
        _ => *parent,
    }
}

fn color_by(parent: Color, found: Option<&PageLong>) -> Color
    ensures { result ≡ spec.color_by parent (option_map (λ l. l.now) found.entry) }
{
    match found {
        Some(PageLong::Color(given)) => chosen(given, parent, INITIAL_COLOR),
        _ => parent,
    }
}

/// How texts are set by what is declared for them, below a parent. `initial` are the initial families.
pub(crate) fn setting_by<'s>(
    parent: &PageSetting<'s>,
    initial: &'s [Name],
    declared: &[PageCandidate<'s>],
) -> PageSetting<'s>
    requires { initial.now ≡ initial_style.font_family }
    ensures { spec.setting_in result ≡ spec.setting_by (spec.setting_in parent.now) (map candidate_in declared.now) }
{
    let size = size_by(parent.size, value_of(PageProperty::FontSize, declared));
    let height = value_of(PageProperty::LineHeight, declared);
    let families = value_of(PageProperty::FontFamily, declared);
    PageSetting {
        families: families_by(parent.families, initial, families),
        italic: italic_by(parent.italic, value_of(PageProperty::FontStyle, declared)),
        weight: weight_by(parent.weight, value_of(PageProperty::FontWeight, declared)),
        size,
        line_height: line_height_by(&parent.line_height, size, height),
        color: color_by(parent.color, value_of(PageProperty::Color, declared)),
    }
}

fn initial_setting<'s>(initial: &'s [Name]) -> PageSetting<'s>
    requires { initial.now ≡ initial_style.font_family }
    ensures { spec.setting_in result ≡ spec.initial_setting }
{
    PageSetting {
        families: initial,
        italic: INITIAL_ITALIC,
        weight: normal_weight(),
        size: medium_size(),
        line_height: LineHeight::Number(normal_height()),
        color: INITIAL_COLOR,
    }
}

/// How the texts of a page are set by what is declared for it: its parent has the initial values.
pub(crate) fn page_setting<'s>(
    initial: &'s [Name],
    declared: &[PageCandidate<'s>],
) -> PageSetting<'s>
    requires { initial.now ≡ initial_style.font_family }
    ensures { spec.setting_in result ≡ spec.page_setting (map candidate_in declared.now) }
{
    setting_by(&initial_setting(initial), initial, declared)
}
