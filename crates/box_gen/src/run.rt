//! Runs of inline text, as they are gathered (CSS 2.1, 9.2.2).

ghost use Rattle.std.specs.Prelude.{◌≡◌, ◌++◌, ◌∷◌, [], length, map, OnOk};
ghost use Rattle.std.specs.List.{All};
ghost use Rattle.box_gen.specs.Items as item;
ghost use Rattle.box_gen.specs.Items.{IsTextOf, items_in, text_in};

use crate::inline::InlineText;
use bk_num::ids::NodeId;
use bk_num::name::NoMem;
use std::alloc::Global;
use std::marker::Model;

/// What comes next in a run: the text of a number, or the place at which an inline element begins.
#[derive(Clone, Copy)]
pub(crate) enum RunEntry {
    Text(u32),
    Start(NodeId),
}

/// A run of inline text: its texts, and places at which inline elements begin among them, which take 8 bytes each.
/// Contracts see the items, where the texts that are generated are made.
#[derive(Drop)]
pub struct InlineRun<'a> {
    entries: Vec<RunEntry>,
    texts: Vec<InlineText<'a>>,
}

impl<'a> Model for InlineRun<'a> {
    ghost use Rattle.std.specs.Prelude.{List};
    ghost use Rattle.box_gen.specs.Items.{InlineItem};
    ghost use Rattle.box_gen.specs.RunFields.{AreTexts, run_in};

    ghost Value = { List InlineItem };

    ghost view = { run_in };

    ghost invariant = { AreTexts };
}

impl<'a> InlineRun<'a> {
    /// A run without items. It takes no memory.
    pub(crate) fn new(alloc: Global) -> InlineRun<'a>
        ensures { result ≡ [] }
    {
        InlineRun {
            entries: Vec::new(alloc),
            texts: Vec::new(alloc),
        }
    }

    /// Adds a text.
    pub(crate) fn push_text(&mut self, text: InlineText<'a>) -> Result<(), NoMem>
        ensures { OnOk result (self.new ≡ self.old ++ item.Text (text_in text.entry) ∷ []) }
    {
        let Ok(number) = u32::try_from(self.texts.len()) else {
            return Err(NoMem);
        };
        self.texts.push(text)?;
        self.entries.push(RunEntry::Text(number))?;
        Ok(())
    }

    /// Adds the place at which an element begins.
    pub(crate) fn push_start(&mut self, node: NodeId) -> Result<(), NoMem>
        ensures { OnOk result (self.new ≡ self.old ++ item.Start node ∷ []) }
    {
        self.entries.push(RunEntry::Start(node))?;
        Ok(())
    }

    /// What it is made of, in order, and its texts.
    pub(crate) fn parts(&self) -> (&[RunEntry], &[InlineText<'a>])
        ensures items { items_in (map text_in result.1.now) result.0.now ≡ self.now }
        ensures texts { All (IsTextOf (length result.1.now)) result.0.now }
    {
        (&self.entries, &self.texts)
    }
}
