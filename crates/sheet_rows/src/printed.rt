//! Declared values as texts, each with a space after it.

use bk_num::decimal::Decimal;
use bk_num::name::Name;
use bk_num::values::{Align, BreakAt, Color, NumStyle, WhiteSpace};
use rows::push_all;
use std::alloc::AllocError;
use std::fmt::Debug;
use style::lists::{CounterList, Families};
use style::long::{Given, Long, SideLong};
use style::values::{BorderStyle, Display, FontSize, GivenHeight, Measure, Weight};

/// Whether a text was written.
pub(crate) type Written = Result<(), AllocError>;

pub(crate) fn yes_or_no(into: &mut String, is_so: bool) -> Written {
    into.push_str(if is_so { "yes " } else { "no " })
}

/// A decimal: its digits, and after `/` how many of them are places.
pub(crate) fn decimal(into: &mut String, number: Decimal, unit: &str) -> Written {
    let units = number.units();
    match number.places() {
        0 => write!(into, "{units}{unit} "),
        places => write!(into, "{units}/{places}{unit} "),
    }
}

/// A value that is printed, with a space after it.
pub(crate) trait Printed {
    fn print(&self, into: &mut String) -> Written;
}

/// A value by its own name.
pub(crate) fn shown<T: Debug>(into: &mut String, value: &T) -> Written {
    write!(into, "{value:?} ")
}

impl<T: Printed> Printed for Given<T> {
    fn print(&self, into: &mut String) -> Written {
        match self {
            Given::Value(value) => value.print(into),
            Given::Inherit => into.push_str("inherit "),
            Given::Initial => into.push_str("initial "),
        }
    }
}

impl<T: Printed> Printed for Option<T> {
    fn print(&self, into: &mut String) -> Written {
        match self {
            Some(value) => value.print(into),
            None => into.push_str("none "),
        }
    }
}

impl Printed for bool {
    fn print(&self, into: &mut String) -> Written {
        yes_or_no(into, *self)
    }
}

impl Printed for u32 {
    fn print(&self, into: &mut String) -> Written {
        shown(into, self)
    }
}

impl Printed for Name {
    fn print(&self, into: &mut String) -> Written {
        push_all(into, &["\"", self.as_str(), "\" "])
    }
}

/// A length in units of 1/64 px, or what it is relative to.
impl Printed for Measure {
    fn print(&self, into: &mut String) -> Written {
        match self {
            Measure::Px(length) => shown(into, &length.units()),
            Measure::Em(number) => decimal(into, *number, "em"),
            Measure::Rem(number) => decimal(into, *number, "rem"),
            Measure::Ex(number) => decimal(into, *number, "ex"),
            Measure::Percent(number) => decimal(into, *number, "%"),
            Measure::Auto => into.push_str("auto "),
        }
    }
}

impl Printed for FontSize {
    fn print(&self, into: &mut String) -> Written {
        match self {
            FontSize::Size(size) => size.print(into),
            _ => shown(into, self),
        }
    }
}

impl Printed for Weight {
    fn print(&self, into: &mut String) -> Written {
        match self {
            Weight::Number(number) => shown(into, number),
            _ => shown(into, self),
        }
    }
}

impl Printed for GivenHeight {
    fn print(&self, into: &mut String) -> Written {
        match self {
            GivenHeight::Number(number) => decimal(into, *number, " times"),
            GivenHeight::Size(size) => size.print(into),
        }
    }
}

impl Printed for Color {
    fn print(&self, into: &mut String) -> Written {
        write!(into, "{},{},{} ", self.red, self.green, self.blue)
    }
}

impl Printed for BorderStyle {
    fn print(&self, into: &mut String) -> Written {
        shown(into, self)
    }
}

impl Printed for Display {
    fn print(&self, into: &mut String) -> Written {
        shown(into, self)
    }
}

impl Printed for Align {
    fn print(&self, into: &mut String) -> Written {
        shown(into, self)
    }
}

impl Printed for WhiteSpace {
    fn print(&self, into: &mut String) -> Written {
        shown(into, self)
    }
}

impl Printed for NumStyle {
    fn print(&self, into: &mut String) -> Written {
        shown(into, self)
    }
}

impl Printed for BreakAt {
    fn print(&self, into: &mut String) -> Written {
        shown(into, self)
    }
}

/// Values one after the other.
pub(crate) fn print_all<T: Printed>(into: &mut String, values: &[T]) -> Written {
    for value in values {
        value.print(into)?;
    }
    Ok(())
}

impl Printed for Families {
    fn print(&self, into: &mut String) -> Written {
        print_all(into, self.as_slice())
    }
}

impl Printed for CounterList {
    fn print(&self, into: &mut String) -> Written {
        for (name, number) in self.as_slice() {
            write!(into, "{}={number} ", name.as_str())?;
        }
        Ok(())
    }
}

fn print_side(into: &mut String, long: &SideLong) -> Written {
    match long {
        SideLong::Margin(_, given)
        | SideLong::Padding(_, given)
        | SideLong::BorderWidth(_, given) => given.print(into),
        SideLong::BorderStyle(_, given) => given.print(into),
        SideLong::BorderColor(_, given) => given.print(into),
    }
}

/// What is declared for a longhand that has no side.
fn print_alone(into: &mut String, long: &Long) -> Written {
    match long {
        Long::Display(given) => given.print(into),
        Long::Width(given) | Long::TextIndent(given) => given.print(into),
        Long::BackgroundColor(given) => given.print(into),
        Long::Color(given) => given.print(into),
        Long::FontFamily(given) => given.print(into),
        Long::FontSize(given) => given.print(into),
        Long::FontWeight(given) => given.print(into),
        Long::LineHeight(given) => given.print(into),
        Long::TextAlign(given) => given.print(into),
        Long::WhiteSpace(given) => given.print(into),
        Long::ListStyleType(given) => given.print(into),
        Long::Content(given) => given.print(into),
        Long::CounterReset(given) | Long::CounterIncrement(given) => given.print(into),
        Long::StringSet(given) => given.print(into),
        Long::BreakBefore(given) | Long::BreakAfter(given) => given.print(into),
        Long::Float(given)
        | Long::FontStyle(given)
        | Long::OverflowWrap(given)
        | Long::BreakInside(given)
        | Long::BoxDecorationBreak(given)
        | Long::BookFill(given)
        | Long::Hyphens(given) => given.print(into),
        Long::Widows(given) | Long::Orphans(given) => given.print(into),
        Long::Page(given) => given.print(into),
        _ => Ok(()),
    }
}

impl Printed for Long {
    fn print(&self, into: &mut String) -> Written {
        match self.at_side() {
            Some(given) => print_side(into, &given),
            None => print_alone(into, self),
        }
    }
}
