//! Computed styles, with a field for each longhand.

ghost use Rattle.std.specs.Prelude.{◌≡◌, pos, IfOk};
ghost use Rattle.style.specs.Sides as sides;
ghost use Rattle.style.specs.Initial.{zero_len};
ghost use Rattle.style.specs.Styles.{child_style, initial_style, initial_with};

use crate::content::Content;
use crate::initial::{
    INITIAL_ALIGN, INITIAL_BACKGROUND, INITIAL_BORDER, INITIAL_BREAK, INITIAL_CLONES,
    INITIAL_COLOR, INITIAL_DISPLAY, INITIAL_FIT, INITIAL_FLOAT, INITIAL_HYPHENS, INITIAL_INSIDE,
    INITIAL_ITALIC, INITIAL_LINES, INITIAL_MARKER, INITIAL_SPACE, INITIAL_WRAP, initial_content,
    initial_counters, initial_strings, medium_size, normal_height, normal_weight,
};
use crate::lists::{CounterList, Families, StringSets};
use crate::values::{BorderStyle, Display, LineHeight};
use bk_num::ids::NameId;
use bk_num::length::Len;
use bk_num::name::NoMem;
use bk_num::px::Px;
use bk_num::sides::{BoxSide, Sides};
use bk_num::values::{Align, BreakAt, Color, NumStyle, WhiteSpace};
use std::alloc::Global;

/// A computed style. `page` is the number of the used page name. Of `bool`: `float` is `footnote`, `font_style` is
/// italic, `overflow_wrap` breaks anywhere, `break_inside` avoids, and `box_decoration_break` clones. Colours of
/// borders are those that are painted, and a border whose style is none or hidden has the width 0.
#[derive(Drop)]
pub struct Style {
    pub display: Display,
    pub float: bool,
    pub margin_top: Len,
    pub margin_right: Len,
    pub margin_bottom: Len,
    pub margin_left: Len,
    pub padding_top: Len,
    pub padding_right: Len,
    pub padding_bottom: Len,
    pub padding_left: Len,
    pub border_top_width: Px,
    pub border_right_width: Px,
    pub border_bottom_width: Px,
    pub border_left_width: Px,
    pub border_top_style: BorderStyle,
    pub border_right_style: BorderStyle,
    pub border_bottom_style: BorderStyle,
    pub border_left_style: BorderStyle,
    pub border_top_color: Color,
    pub border_right_color: Color,
    pub border_bottom_color: Color,
    pub border_left_color: Color,
    pub width: Len,
    pub color: Color,
    pub background_color: Option<Color>,
    pub font_family: Families,
    pub font_size: Px,
    pub font_style: bool,
    pub font_weight: u16,
    pub line_height: LineHeight,
    pub text_align: Align,
    pub text_indent: Len,
    pub white_space: WhiteSpace,
    pub overflow_wrap: bool,
    pub list_style_type: NumStyle,
    pub content: Option<Content>,
    pub counter_reset: CounterList,
    pub counter_increment: CounterList,
    pub string_set: StringSets,
    pub break_before: BreakAt,
    pub break_after: BreakAt,
    pub break_inside: bool,
    pub widows: u32,
    pub orphans: u32,
    pub page: NameId,
    pub box_decoration_break: bool,
    pub book_fill: bool,
    pub hyphens: bool,
}

impl Style {
    /// The style that has the initial value of each longhand.
    pub fn initial(alloc: Global) -> Result<Style, NoMem>
        ensures { IfOk result (λ style. style ≡ initial_style) }
    {
        Ok(initial_with(alloc, Families::serif(alloc)?, INITIAL_COLOR))
    }

    /// The style of an element without declarations below one with this style: what is inherited comes from the parent,
    /// and else it is initial. So its borders' colours are its own colour, and its page name is the parent's.
    pub fn child(parent: &Style, alloc: Global) -> Result<Style, NoMem>
        ensures { IfOk result (λ style. style ≡ child_style parent.now) }
    {
        let mut style = initial_with(alloc, parent.font_family.copy(alloc)?, parent.color);
        style.font_size = parent.font_size;
        style.font_style = parent.font_style;
        style.font_weight = parent.font_weight;
        style.line_height = parent.line_height;
        style.text_align = parent.text_align;
        style.text_indent = parent.text_indent;
        style.white_space = parent.white_space;
        style.overflow_wrap = parent.overflow_wrap;
        style.list_style_type = parent.list_style_type;
        style.widows = parent.widows;
        style.orphans = parent.orphans;
        style.book_fill = parent.book_fill;
        style.hyphens = parent.hyphens;
        style.page = parent.page;
        Ok(style)
    }

    /// The margins, by side.
    pub fn margins(&self) -> Sides<Len>
        ensures { result ≡ sides.margins self.now }
    {
        Sides {
            top: self.margin_top,
            right: self.margin_right,
            bottom: self.margin_bottom,
            left: self.margin_left,
        }
    }

    /// Sets the margins.
    fn set_margins(&mut self, margins: Sides<Len>)
        ensures { self.new ≡ sides.with_margins margins self.old }
    {
        self.margin_top = margins.top;
        self.margin_right = margins.right;
        self.margin_bottom = margins.bottom;
        self.margin_left = margins.left;
    }

    /// Sets the margin on a side.
    pub fn set_margin(&mut self, side: BoxSide, margin: Len)
        ensures { self.new ≡ sides.with_margin side margin self.old }
    {
        let mut margins = self.margins();
        margins.put(side, margin);
        self.set_margins(margins);
    }

    /// The paddings, by side.
    pub fn paddings(&self) -> Sides<Len>
        ensures { result ≡ sides.paddings self.now }
    {
        Sides {
            top: self.padding_top,
            right: self.padding_right,
            bottom: self.padding_bottom,
            left: self.padding_left,
        }
    }

    /// Sets the paddings.
    fn set_paddings(&mut self, paddings: Sides<Len>)
        ensures { self.new ≡ sides.with_paddings paddings self.old }
    {
        self.padding_top = paddings.top;
        self.padding_right = paddings.right;
        self.padding_bottom = paddings.bottom;
        self.padding_left = paddings.left;
    }

    /// Sets the padding on a side.
    pub fn set_padding(&mut self, side: BoxSide, padding: Len)
        ensures { self.new ≡ sides.with_padding side padding self.old }
    {
        let mut paddings = self.paddings();
        paddings.put(side, padding);
        self.set_paddings(paddings);
    }

    /// The widths of the borders, by side.
    pub fn border_widths(&self) -> Sides<Px>
        ensures { result ≡ sides.border_widths self.now }
    {
        Sides {
            top: self.border_top_width,
            right: self.border_right_width,
            bottom: self.border_bottom_width,
            left: self.border_left_width,
        }
    }

    /// Sets the widths of the borders.
    pub fn set_border_widths(&mut self, border_widths: Sides<Px>)
        ensures { self.new ≡ sides.with_border_widths border_widths self.old }
    {
        self.border_top_width = border_widths.top;
        self.border_right_width = border_widths.right;
        self.border_bottom_width = border_widths.bottom;
        self.border_left_width = border_widths.left;
    }

    /// Sets the width of the border on a side.
    pub fn set_border_width(&mut self, side: BoxSide, border_width: Px)
        ensures { self.new ≡ sides.with_border_width side border_width self.old }
    {
        let mut border_widths = self.border_widths();
        border_widths.put(side, border_width);
        self.set_border_widths(border_widths);
    }

    /// The styles of the borders, by side.
    pub fn border_styles(&self) -> Sides<BorderStyle>
        ensures { result ≡ sides.border_styles self.now }
    {
        Sides {
            top: self.border_top_style,
            right: self.border_right_style,
            bottom: self.border_bottom_style,
            left: self.border_left_style,
        }
    }

    /// Sets the styles of the borders.
    pub fn set_border_styles(&mut self, border_styles: Sides<BorderStyle>)
        ensures { self.new ≡ sides.with_border_styles border_styles self.old }
    {
        self.border_top_style = border_styles.top;
        self.border_right_style = border_styles.right;
        self.border_bottom_style = border_styles.bottom;
        self.border_left_style = border_styles.left;
    }

    /// The colours of the borders, by side.
    pub fn border_colors(&self) -> Sides<Color>
        ensures { result ≡ sides.border_colors self.now }
    {
        Sides {
            top: self.border_top_color,
            right: self.border_right_color,
            bottom: self.border_bottom_color,
            left: self.border_left_color,
        }
    }

    /// Sets the colours of the borders.
    pub fn set_border_colors(&mut self, border_colors: Sides<Color>)
        ensures { self.new ≡ sides.with_border_colors border_colors self.old }
    {
        self.border_top_color = border_colors.top;
        self.border_right_color = border_colors.right;
        self.border_bottom_color = border_colors.bottom;
        self.border_left_color = border_colors.left;
    }

    /// Sets the colour of the border on a side.
    pub fn set_border_color(&mut self, side: BoxSide, border_color: Color)
        ensures { self.new ≡ sides.with_border_color side border_color self.old }
    {
        let mut border_colors = self.border_colors();
        border_colors.put(side, border_color);
        self.set_border_colors(border_colors);
    }
}

/// The style that has initial values but for its families and its colour, which is that of its borders.
fn initial_with(alloc: Global, families: Families, color: Color) -> Style
    ensures { result ≡ initial_with families color }
{
    Style {
        display: INITIAL_DISPLAY,
        float: INITIAL_FLOAT,
        margin_top: zero_len(),
        margin_right: zero_len(),
        margin_bottom: zero_len(),
        margin_left: zero_len(),
        padding_top: zero_len(),
        padding_right: zero_len(),
        padding_bottom: zero_len(),
        padding_left: zero_len(),
        border_top_width: no_px(),
        border_right_width: no_px(),
        border_bottom_width: no_px(),
        border_left_width: no_px(),
        border_top_style: INITIAL_BORDER,
        border_right_style: INITIAL_BORDER,
        border_bottom_style: INITIAL_BORDER,
        border_left_style: INITIAL_BORDER,
        border_top_color: color,
        border_right_color: color,
        border_bottom_color: color,
        border_left_color: color,
        width: Len::Auto,
        color,
        background_color: INITIAL_BACKGROUND,
        font_family: families,
        font_size: medium_size(),
        font_style: INITIAL_ITALIC,
        font_weight: normal_weight(),
        line_height: LineHeight::Number(normal_height()),
        text_align: INITIAL_ALIGN,
        text_indent: zero_len(),
        white_space: INITIAL_SPACE,
        overflow_wrap: INITIAL_WRAP,
        list_style_type: INITIAL_MARKER,
        content: initial_content(),
        counter_reset: initial_counters(alloc),
        counter_increment: initial_counters(alloc),
        string_set: initial_strings(alloc),
        break_before: INITIAL_BREAK,
        break_after: INITIAL_BREAK,
        break_inside: INITIAL_INSIDE,
        widows: INITIAL_LINES,
        orphans: INITIAL_LINES,
        page: NameId(0),
        box_decoration_break: INITIAL_CLONES,
        book_fill: INITIAL_FIT,
        hyphens: INITIAL_HYPHENS,
    }
}

fn zero_len() -> Len
    ensures { result ≡ zero_len }
{
    Len::Px(no_px())
}

#[tactic(auto, unfolding(bk_num::specs::Units::clamped))]
fn no_px() -> Px
    ensures { result ≡ pos 0 }
{
    Px::from_units(0)
}
