//! Hands out the tokens of a text, one after another.

ghost use Rattle.std.specs.Prelude.{◌≡◌, ◌<◌, ◌≤◌, ◌+◌, ◌-◌, ◌^◌, ◌++◌, ◌↔◌, [], length, IfSome, IfNone, IsNone, MatchOption};
ghost use Rattle.std.specs.Str.{IsCharBoundary};
ghost use Rattle.css_tok.specs.Tokens.{tokens_of, IsFirstToken};
ghost use Rattle.css_tok.specs.Kind as spec;

use crate::kind;
use crate::kind::CssKind;

/// A token: its place in the text in bytes, the part of the text that it is, and its kind.
#[derive(Clone, Copy, Debug)]
pub struct CssToken<'a> {
    pub at: usize,
    pub slice: &'a str,
    pub kind: CssKind,
}

/// A reader of tokens: its place in the text, and the text from there on.
#[derive(Clone, Copy, Debug)]
pub struct CssTokens<'a> {
    pub at: usize,
    pub rest: &'a str,
    ghost fits: { at + length rest.now ≤ 2 ^ 64 - 1 },
}

/// The token at the start of a text.
fn first(text: &str) -> (CssKind, usize)
    requires { 0 < length text.now }
    ensures value { result ≡ spec.token_at text.now }
    ensures within { (0 < result.1) × (result.1 ≤ length text.now) }
    ensures boundary { IsCharBoundary text.now result.1 }
{
    kind::token_at(text.as_bytes())
}

impl<'a> CssTokens<'a> {
    /// A reader at the start of a text.
    pub fn new(text: &'a str) -> CssTokens<'a>
        ensures { (result.at ≡ 0) × (result.rest.now ≡ text.now) }
    {
        CssTokens { at: 0, rest: text }
    }

    /// The next token; None exactly at the end. It takes no memory, and all calls over a text together
    /// take time in proportion to it.
    pub fn next(&mut self) -> Option<CssToken<'a>>
        ensures none { IsNone result ↔ (self.old.rest.now ≡ []) }
        ensures end { IfNone result (self.new ≡ self.old) }
        ensures tokens { MatchOption result (tokens_of self.old.rest.now ≡ [])
            (λ t. IsFirstToken t self.old.rest.now self.new.rest.now) }
        ensures some { IfSome result (λ t. 0 < length t.slice.now) }
        ensures joined { IfSome result (λ t. self.old.rest.now ≡ t.slice.now ++ self.new.rest.now) }
        ensures place { IfSome result (λ t. (t.at ≡ self.old.at) × (self.new.at ≡ self.old.at + length t.slice.now)) }
    {
        if self.rest.is_empty() {
            return None;
        }
        let (kind, len) = first(self.rest);
        let at = self.at;
        let (slice, rest) = self.rest.split_at(len);
        self.at = at + len;
        self.rest = rest;
        Some(CssToken { at, slice, kind })
    }
}
