//! Inline text: texts in their styles, and the elements that begin among them (CSS 2.1, 9.2.2).

ghost use Rattle.std.specs.Prelude.{◌<◌, length};

use crate::text_style::TextStyle;
use bk_num::ids::NodeId;
use bk_num::values::{Pseudo, WhiteSpace};
use gen_text::texts::Texts;
use inline_text::part::BorrowedPart;
use thiserror::Error;

/// A text where it stands in the document, how its white space is treated, and how it is set.
#[derive(Drop)]
pub struct StyledText<'a> {
    pub part: BorrowedPart<'a>,
    pub style: TextStyle,
}

/// What a pseudo-element of a node of the document will print, how its white space is treated, and how it is set. The
/// text is made where its run is put, and let go there.
#[derive(Clone, Copy)]
pub struct GeneratedText<'a> {
    pub texts: &'a Texts<'a>,
    pub node: NodeId,
    pub pseudo: Pseudo,
    pub space: WhiteSpace,
    pub style: TextStyle,
    ghost within: { node.0 < length texts.now.dom.now },
}

/// A text of a run: one that stands in the document, or one that is generated.
#[derive(Drop)]
pub enum InlineText<'a> {
    Own(StyledText<'a>),
    Generated(GeneratedText<'a>),
}

/// An item without the letters of its text.
#[derive(Clone, Copy)]
pub(crate) enum ItemMark {
    Text(TextStyle),
    Start(NodeId),
}

/// Where an element begins in the text of a leaf, as a byte offset.
#[derive(Clone, Copy, Debug, PartialEq, Eq)]
pub struct InlineStart {
    pub node: NodeId,
    pub offset: u32,
}

/// The answers of the building of a flow but its result: the leaves have more than 33,554,432 bytes, or want of memory.
#[derive(Clone, Copy, Debug, PartialEq, Eq, Error)]
pub enum BuildErr {
    #[error("too much text")]
    Text,
    #[error("no memory")]
    NoMemory,
}
