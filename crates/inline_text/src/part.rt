//! The parts of a leaf's text, borrowed from where they stand.

ghost use Rattle.std.specs.Prelude.{◌≡◌};

use bk_num::values::WhiteSpace;
use std::marker::Model;

/// A part of a leaf's text that is borrowed, and how its white space is treated. Contracts see the part.
#[derive(Drop)]
pub struct BorrowedPart<'a> {
    text: &'a str,
    space: WhiteSpace,
}

impl<'a> Model for BorrowedPart<'a> {
    ghost use Rattle.inline_text.specs.declared.space.TextPart.{TextPart};

    ghost Value = { TextPart };

    ghost view = { λ p. record { text = p.text.now; space = p.space } };
}

impl<'a> BorrowedPart<'a> {
    /// The part of a text. It takes no memory.
    pub fn new(text: &'a str, space: WhiteSpace) -> BorrowedPart<'a>
        ensures { result ≡ record { text = text.entry.now; space = space } }
    {
        BorrowedPart { text, space }
    }

    /// Its text.
    pub fn text(&self) -> &str
        ensures { result.now ≡ self.now.text }
    {
        self.text
    }

    /// How its white space is treated.
    pub fn space(&self) -> WhiteSpace
        ensures { result ≡ self.now.space }
    {
        self.space
    }
}
