//! Declared values, one of each longhand.

ghost use Rattle.std.specs.Prelude.{◌≡◌, false, IfOk, IfSome};
ghost use Rattle.style.specs.Longs.{long_of, longhand_of, on_side, side_long, takes_memory};

use crate::content::Content;
use crate::lists::{CounterList, Families, StringSets};
use crate::longhand::Longhand;
use crate::values::{BorderStyle, Display, FontSize, GivenHeight, Measure, Weight};
use bk_num::name::{Name, NoMem};
use bk_num::sides::BoxSide;
use bk_num::values::{Align, BreakAt, Color, NumStyle, WhiteSpace};
use std::alloc::Global;

/// What a declaration gives: a value, the parent's, or the initial one (CSS 2.1, 6.1.2; css-cascade-3, 7).
#[derive(Clone, Copy, Drop)]
pub enum Given<T> {
    Value(T),
    Inherit,
    Initial,
}

/// A declaration of a longhand. Of `bool`: `float` is `footnote`, `font-style` is italic, `overflow-wrap` breaks
/// anywhere, `break-inside` avoids, and `box-decoration-break` clones. `None` is `currentcolor`, `transparent`, no
/// content, and the page name `auto`.
#[derive(Drop)]
pub enum Long {
    Display(Given<Display>),
    Float(Given<bool>),
    MarginTop(Given<Measure>),
    MarginRight(Given<Measure>),
    MarginBottom(Given<Measure>),
    MarginLeft(Given<Measure>),
    PaddingTop(Given<Measure>),
    PaddingRight(Given<Measure>),
    PaddingBottom(Given<Measure>),
    PaddingLeft(Given<Measure>),
    BorderTopWidth(Given<Measure>),
    BorderRightWidth(Given<Measure>),
    BorderBottomWidth(Given<Measure>),
    BorderLeftWidth(Given<Measure>),
    BorderTopStyle(Given<BorderStyle>),
    BorderRightStyle(Given<BorderStyle>),
    BorderBottomStyle(Given<BorderStyle>),
    BorderLeftStyle(Given<BorderStyle>),
    BorderTopColor(Given<Option<Color>>),
    BorderRightColor(Given<Option<Color>>),
    BorderBottomColor(Given<Option<Color>>),
    BorderLeftColor(Given<Option<Color>>),
    Width(Given<Measure>),
    Color(Given<Color>),
    BackgroundColor(Given<Option<Color>>),
    FontFamily(Given<Families>),
    FontSize(Given<FontSize>),
    FontStyle(Given<bool>),
    FontWeight(Given<Weight>),
    LineHeight(Given<GivenHeight>),
    TextAlign(Given<Align>),
    TextIndent(Given<Measure>),
    WhiteSpace(Given<WhiteSpace>),
    OverflowWrap(Given<bool>),
    ListStyleType(Given<NumStyle>),
    Content(Given<Option<Content>>),
    CounterReset(Given<CounterList>),
    CounterIncrement(Given<CounterList>),
    StringSet(Given<StringSets>),
    BreakBefore(Given<BreakAt>),
    BreakAfter(Given<BreakAt>),
    BreakInside(Given<bool>),
    Widows(Given<u32>),
    Orphans(Given<u32>),
    Page(Given<Option<Name>>),
    BoxDecorationBreak(Given<bool>),
    BookFill(Given<bool>),
    Hyphens(Given<bool>),
}

/// A declaration of a longhand that there is for each side of a box.
#[derive(Clone, Copy)]
pub enum SideLong {
    Margin(BoxSide, Given<Measure>),
    Padding(BoxSide, Given<Measure>),
    BorderWidth(BoxSide, Given<Measure>),
    BorderStyle(BoxSide, Given<BorderStyle>),
    BorderColor(BoxSide, Given<Option<Color>>),
}

impl SideLong {
    /// Which longhand it declares.
    pub fn longhand(&self) -> Longhand
        ensures { result ≡ longhand_of (long_of self.now) }
    {
        match self {
            SideLong::Margin(side, _) => Longhand::Margin(*side),
            SideLong::Padding(side, _) => Longhand::Padding(*side),
            SideLong::BorderWidth(side, _) => Longhand::BorderWidth(*side),
            SideLong::BorderStyle(side, _) => Longhand::BorderStyle(*side),
            SideLong::BorderColor(side, _) => Longhand::BorderColor(*side),
        }
    }

    /// The same for another side.
    pub fn on(self, side: BoxSide) -> SideLong
        ensures { result ≡ on_side side self }
    {
        match self {
            SideLong::Margin(_, given) => SideLong::Margin(side, given),
            SideLong::Padding(_, given) => SideLong::Padding(side, given),
            SideLong::BorderWidth(_, given) => SideLong::BorderWidth(side, given),
            SideLong::BorderStyle(_, given) => SideLong::BorderStyle(side, given),
            SideLong::BorderColor(_, given) => SideLong::BorderColor(side, given),
        }
    }
}

impl Long {
    /// What it gives to which side of a box; None exactly where its longhand has no sides. It takes no memory.
    pub fn at_side(&self) -> Option<SideLong>
        ensures given { result ≡ side_long self.now }
        ensures same { IfSome result (λ a. long_of a ≡ self.now) }
    {
        match self {
            Long::MarginTop(given) => Some(SideLong::Margin(BoxSide::Top, *given)),
            Long::MarginRight(given) => Some(SideLong::Margin(BoxSide::Right, *given)),
            Long::MarginBottom(given) => Some(SideLong::Margin(BoxSide::Bottom, *given)),
            Long::MarginLeft(given) => Some(SideLong::Margin(BoxSide::Left, *given)),
            Long::PaddingTop(given) => Some(SideLong::Padding(BoxSide::Top, *given)),
            Long::PaddingRight(given) => Some(SideLong::Padding(BoxSide::Right, *given)),
            Long::PaddingBottom(given) => Some(SideLong::Padding(BoxSide::Bottom, *given)),
            Long::PaddingLeft(given) => Some(SideLong::Padding(BoxSide::Left, *given)),
            Long::BorderTopWidth(given) => Some(SideLong::BorderWidth(BoxSide::Top, *given)),
            Long::BorderRightWidth(given) => Some(SideLong::BorderWidth(BoxSide::Right, *given)),
            Long::BorderBottomWidth(given) => Some(SideLong::BorderWidth(BoxSide::Bottom, *given)),
            Long::BorderLeftWidth(given) => Some(SideLong::BorderWidth(BoxSide::Left, *given)),
            Long::BorderTopStyle(given) => Some(SideLong::BorderStyle(BoxSide::Top, *given)),
            Long::BorderRightStyle(given) => Some(SideLong::BorderStyle(BoxSide::Right, *given)),
            Long::BorderBottomStyle(given) => Some(SideLong::BorderStyle(BoxSide::Bottom, *given)),
            Long::BorderLeftStyle(given) => Some(SideLong::BorderStyle(BoxSide::Left, *given)),
            Long::BorderTopColor(given) => Some(SideLong::BorderColor(BoxSide::Top, *given)),
            Long::BorderRightColor(given) => Some(SideLong::BorderColor(BoxSide::Right, *given)),
            Long::BorderBottomColor(given) => Some(SideLong::BorderColor(BoxSide::Bottom, *given)),
            Long::BorderLeftColor(given) => Some(SideLong::BorderColor(BoxSide::Left, *given)),
            _ => None,
        }
    }

    /// The declaration of a side's longhand.
    pub fn of_side(given: SideLong) -> Long
        ensures { result ≡ long_of given }
    {
        match given {
            SideLong::Margin(side, given) => match side {
                BoxSide::Top => Long::MarginTop(given),
                BoxSide::Right => Long::MarginRight(given),
                BoxSide::Bottom => Long::MarginBottom(given),
                BoxSide::Left => Long::MarginLeft(given),
            },
            SideLong::Padding(side, given) => match side {
                BoxSide::Top => Long::PaddingTop(given),
                BoxSide::Right => Long::PaddingRight(given),
                BoxSide::Bottom => Long::PaddingBottom(given),
                BoxSide::Left => Long::PaddingLeft(given),
            },
            SideLong::BorderWidth(side, given) => match side {
                BoxSide::Top => Long::BorderTopWidth(given),
                BoxSide::Right => Long::BorderRightWidth(given),
                BoxSide::Bottom => Long::BorderBottomWidth(given),
                BoxSide::Left => Long::BorderLeftWidth(given),
            },
            SideLong::BorderStyle(side, given) => match side {
                BoxSide::Top => Long::BorderTopStyle(given),
                BoxSide::Right => Long::BorderRightStyle(given),
                BoxSide::Bottom => Long::BorderBottomStyle(given),
                BoxSide::Left => Long::BorderLeftStyle(given),
            },
            SideLong::BorderColor(side, given) => match side {
                BoxSide::Top => Long::BorderTopColor(given),
                BoxSide::Right => Long::BorderRightColor(given),
                BoxSide::Bottom => Long::BorderBottomColor(given),
                BoxSide::Left => Long::BorderLeftColor(given),
            },
        }
    }

    /// Which longhand it declares.
    pub fn longhand(&self) -> Longhand
        ensures { result ≡ longhand_of self.now }
    {
        if let Some(at) = self.at_side() {
            return at.longhand();
        }
        match self {
            Long::Display(_) => Longhand::Display,
            Long::Float(_) => Longhand::Float,
            Long::Width(_) => Longhand::Width,
            Long::Color(_) => Longhand::Color,
            Long::BackgroundColor(_) => Longhand::BackgroundColor,
            Long::FontFamily(_) => Longhand::FontFamily,
            Long::FontSize(_) => Longhand::FontSize,
            Long::FontStyle(_) => Longhand::FontStyle,
            Long::FontWeight(_) => Longhand::FontWeight,
            Long::LineHeight(_) => Longhand::LineHeight,
            Long::TextAlign(_) => Longhand::TextAlign,
            Long::TextIndent(_) => Longhand::TextIndent,
            Long::WhiteSpace(_) => Longhand::WhiteSpace,
            Long::OverflowWrap(_) => Longhand::OverflowWrap,
            Long::ListStyleType(_) => Longhand::ListStyleType,
            Long::Content(_) => Longhand::Content,
            Long::CounterReset(_) => Longhand::CounterReset,
            Long::CounterIncrement(_) => Longhand::CounterIncrement,
            Long::StringSet(_) => Longhand::StringSet,
            Long::BreakBefore(_) => Longhand::BreakBefore,
            Long::BreakAfter(_) => Longhand::BreakAfter,
            Long::BreakInside(_) => Longhand::BreakInside,
            Long::Widows(_) => Longhand::Widows,
            Long::Orphans(_) => Longhand::Orphans,
            Long::Page(_) => Longhand::Page,
            Long::BoxDecorationBreak(_) => Longhand::BoxDecorationBreak,
            Long::BookFill(_) => Longhand::BookFill,
            Long::Hyphens(_) => Longhand::Hyphens,
            _ => unreachable!(),
        }
    }

    /// An equal declaration of one that takes no memory.
    fn plain(&self) -> Long
        requires { takes_memory self.now ≡ false }
        ensures { result ≡ self.now }
    {
        if let Some(at) = self.at_side() {
            return Long::of_side(at);
        }
        match self {
            Long::Display(given) => Long::Display(*given),
            Long::Float(given) => Long::Float(*given),
            Long::Width(given) => Long::Width(*given),
            Long::Color(given) => Long::Color(*given),
            Long::BackgroundColor(given) => Long::BackgroundColor(*given),
            Long::FontSize(given) => Long::FontSize(*given),
            Long::FontStyle(given) => Long::FontStyle(*given),
            Long::FontWeight(given) => Long::FontWeight(*given),
            Long::LineHeight(given) => Long::LineHeight(*given),
            Long::TextAlign(given) => Long::TextAlign(*given),
            Long::TextIndent(given) => Long::TextIndent(*given),
            Long::WhiteSpace(given) => Long::WhiteSpace(*given),
            Long::OverflowWrap(given) => Long::OverflowWrap(*given),
            Long::ListStyleType(given) => Long::ListStyleType(*given),
            Long::BreakBefore(given) => Long::BreakBefore(*given),
            Long::BreakAfter(given) => Long::BreakAfter(*given),
            Long::BreakInside(given) => Long::BreakInside(*given),
            Long::BoxDecorationBreak(given) => Long::BoxDecorationBreak(*given),
            Long::BookFill(given) => Long::BookFill(*given),
            Long::Hyphens(given) => Long::Hyphens(*given),
            Long::Widows(given) => Long::Widows(*given),
            Long::Orphans(given) => Long::Orphans(*given),
            _ => unreachable!(),
        }
    }

    /// An equal declaration.
    pub fn copy(&self, alloc: Global) -> Result<Long, NoMem>
        ensures { IfOk result (λ long. long ≡ self.now) }
    {
        match self {
            Long::FontFamily(given) => Ok(Long::FontFamily(families(given, alloc)?)),
            Long::Content(given) => Ok(Long::Content(content(given, alloc)?)),
            Long::CounterReset(given) => Ok(Long::CounterReset(counters(given, alloc)?)),
            Long::CounterIncrement(given) => Ok(Long::CounterIncrement(counters(given, alloc)?)),
            Long::StringSet(given) => Ok(Long::StringSet(strings(given, alloc)?)),
            Long::Page(given) => Ok(Long::Page(page_name(given)?)),
            _ => Ok(self.plain()),
        }
    }
}

fn families(given: &Given<Families>, alloc: Global) -> Result<Given<Families>, NoMem>
    ensures { IfOk result (λ copy. copy ≡ given.now) }
{
    match given {
        Given::Value(list) => Ok(Given::Value(list.copy(alloc)?)),
        Given::Inherit => Ok(Given::Inherit),
        Given::Initial => Ok(Given::Initial),
    }
}

fn counters(given: &Given<CounterList>, alloc: Global) -> Result<Given<CounterList>, NoMem>
    ensures { IfOk result (λ copy. copy ≡ given.now) }
{
    match given {
        Given::Value(list) => Ok(Given::Value(list.copy(alloc)?)),
        Given::Inherit => Ok(Given::Inherit),
        Given::Initial => Ok(Given::Initial),
    }
}

fn strings(given: &Given<StringSets>, alloc: Global) -> Result<Given<StringSets>, NoMem>
    ensures { IfOk result (λ copy. copy ≡ given.now) }
{
    match given {
        Given::Value(list) => Ok(Given::Value(list.copy(alloc)?)),
        Given::Inherit => Ok(Given::Inherit),
        Given::Initial => Ok(Given::Initial),
    }
}

fn content(given: &Given<Option<Content>>, alloc: Global) -> Result<Given<Option<Content>>, NoMem>
    ensures { IfOk result (λ copy. copy ≡ given.now) }
{
    match given {
        Given::Value(Some(list)) => Ok(Given::Value(Some(list.copy(alloc)?))),
        Given::Value(None) => Ok(Given::Value(None)),
        Given::Inherit => Ok(Given::Inherit),
        Given::Initial => Ok(Given::Initial),
    }
}

fn page_name(given: &Given<Option<Name>>) -> Result<Given<Option<Name>>, NoMem>
    ensures { IfOk result (λ copy. copy ≡ given.now) }
{
    match given {
        Given::Value(Some(name)) => Ok(Given::Value(Some(name.copy()?))),
        Given::Value(None) => Ok(Given::Value(None)),
        Given::Inherit => Ok(Given::Inherit),
        Given::Initial => Ok(Given::Initial),
    }
}
