//! Which brackets are open at a token.

ghost use Rattle.std.specs.Prelude.{◌≡◌, [], OnErr, OnOk};
ghost use Rattle.css_tok.specs.Tokens.{item_in};
ghost use Rattle.css_rules.specs.Brackets as spec;

use bk_num::name::NoMem;
use css_tok::tokens::CssToken;
use std::alloc::Global;
use std::marker::Model;

/// The brackets that are open. Contracts see the marks that close them, the innermost last.
#[derive(Drop)]
pub struct OpenBrackets {
    closers: Vec<u8>,
}

impl Model for OpenBrackets {
    ghost use Rattle.std.specs.Prelude.{ℕ, List};

    ghost Value = { List ℕ };

    ghost view = { λ o. o.closers.items };
}

impl OpenBrackets {
    /// No bracket is open.
    pub fn new(alloc: Global) -> OpenBrackets
        ensures { result ≡ [] }
    {
        OpenBrackets {
            closers: Vec::new(alloc),
        }
    }

    /// Whether no bracket is open.
    #[tactic(auto, unfolding(crate::specs::Brackets::is_outside))]
    pub fn is_outside(&self) -> bool
        ensures { result ≡ spec.is_outside self.now }
    {
        self.closers.is_empty()
    }

    #[tactic(auto, unfolding(crate::specs::Brackets::closes))]
    fn closes(&self, token: &CssToken<'_>) -> bool
        ensures { result ≡ spec.closes self.now (item_in token.now) }
    {
        match self.closers.last() {
            Some(closer) => *closer == token.mark(),
            None => false,
        }
    }

    /// Passes a token, which may open a bracket or close the innermost one.
    #[tactic(auto, unfolding(crate::specs::Brackets::open_after))]
    pub fn pass(&mut self, token: &CssToken<'_>) -> Result<(), NoMem>
        ensures ok { OnOk result (self.new ≡ spec.open_after self.old (item_in token.now)) }
        ensures err { OnErr result (self.new ≡ self.old) }
    {
        if let Some(closer) = token.closer() {
            self.closers.push(closer)?;
        } else if self.closes(token) {
            self.closers.pop();
        }
        Ok(())
    }
}
