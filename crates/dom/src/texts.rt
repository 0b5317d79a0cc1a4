//! Texts in one piece of memory.
ghost use Rattle.std.specs.Prelude.{◌≡◌, ◌++◌, IfOk, OnOk, OnErr};
ghost use Rattle.dom.specs.Spans.{Fits, between};

use bk_num::name::NoMem;
use std::alloc::Global;
use std::marker::Model;

/// Where a text stands among all texts.
#[derive(Clone, Copy)]
pub(crate) struct Span {
    pub(crate) from: u32,
    pub(crate) to: u32,
}

/// The most bytes of all texts.
const MOST: usize = 0xFFFF_FFFF;

/// Texts, one after another. Contracts see all their bytes.
#[derive(Drop)]
pub(crate) struct Texts {
    text: String,
}

impl Model for Texts {
    ghost use Rattle.std.specs.Prelude.{List, ℕ, string_bytes, length, ◌≤◌};

    ghost Value = { List ℕ };

    ghost view = { λ a. string_bytes a.text };

    ghost invariant = { λ a. length (string_bytes a.text) ≤ 4294967295 };
}

impl Texts {
    pub(crate) fn new(alloc: Global) -> Texts {
        Texts {
            text: String::new(alloc),
        }
    }

    /// Adds a text, and answers where it stands.
    pub(crate) fn push(&mut self, text: &str) -> Result<Span, NoMem>
        ensures texts { OnOk result (self.new ≡ self.old ++ text.now) }
        ensures text { IfOk result (λ s. between self.new s ≡ text.now) }
        ensures fits { IfOk result (λ s. Fits self.new s) }
        ensures err { OnErr result (self.new ≡ self.old) }
    {
        let from = self.text.len();
        if text.len() > MOST - from {
            return Err(NoMem);
        }
        let to = from + text.len();
        if self.text.push_str(text).is_err() {
            return Err(NoMem);
        }
        Ok(Span {
            from: from as u32,
            to: to as u32,
        })
    }

    /// The text that stands there.
    pub(crate) fn get(&self, span: Span) -> &str
        requires { Fits self.now span }
        ensures { result.now ≡ between self.now span }
    {
        &self.text[span.from as usize..span.to as usize]
    }
}
