//! A reader of a sheet's tokens that knows the line on which it stands.

ghost use Rattle.std.specs.Prelude.{◌≡◌, ◌≤◌, ◌<◌, ◌+◌, ◌++◌, ◌∷◌, [], length, IfOk, IfSome, IfNone, MatchOption};
ghost use Rattle.css_tok.specs.Tokens.{item_in};
ghost use Rattle.css_tok.specs.Marks.{first_mark, rest_of};
ghost use Rattle.css_rules.specs.Views.{items_in};
ghost use Rattle.css_rules.specs.Brackets.{is_closed};
ghost use Rattle.css_rules.specs.Decls.{Covers};
ghost use Rattle.css_rules.specs.Parts as parts;
ghost use Rattle.unread_list.specs.Lines as spec;

use crate::reader::Lines;
use bk_num::name::NoMem;
use css_rules::parts::{PartEnd, Stop};
use css_tok::tokens::{CssToken, CssTokens};
use std::alloc::Global;

/// How many line feeds a text has.
fn feeds(text: &[u8]) -> usize
    ensures value { result ≡ spec.feeds text.now }
    ensures within { result ≤ length text.now }
{
    text.iter().filter(|b| **b == b'\n').count()
}

impl<'a> Lines<'a> {
    /// A reader at the start of a text.
    pub fn new(text: &'a str) -> Lines<'a>
        ensures line { result.line ≡ 1 }
        ensures rest { result.tokens.rest.now ≡ text.now }
    {
        Lines {
            tokens: CssTokens::new(text),
            line: 1,
        }
    }

    /// The next token; None exactly at the end.
    pub fn next(&mut self) -> Option<CssToken<'a>>
        ensures end { IfNone result (self.new ≡ self.old) }
        ensures none { IfNone result (self.old.tokens.rest.now ≡ []) }
        ensures tokens { MatchOption result (spec.left_in self.old ≡ [])
            (λ t. spec.left_in self.old ≡ item_in t ∷ spec.left_in self.new) }
        ensures line { IfSome result (λ t. self.new.line ≡ self.old.line + spec.feeds t.slice.now) }
        ensures joined { IfSome result (λ t. self.old.tokens.rest.now ≡ t.slice.now ++ self.new.tokens.rest.now) }
        ensures shorter { IfSome result (λ _. length self.new.tokens.rest.now < length self.old.tokens.rest.now) }
    {
        let mut tokens = self.tokens;
        let token = tokens.next()?;
        let line = self.line + feeds(token.slice.as_bytes());
        *self = Lines { tokens, line };
        Some(token)
    }
}

/// Reads the tokens before the one that ends a part of a sheet, and takes that one.
pub fn take_until<'a>(
    alloc: Global,
    lines: &mut Lines<'a>,
    stop: Stop,
    found: &mut Vec<CssToken<'a>>,
) -> Result<PartEnd, NoMem>
    ensures found { IfOk result (λ _. items_in found.new.items ≡ parts.front_from stop [] (spec.left_in lines.old)) }
    ensures end { IfOk result (λ e. e.mark ≡ first_mark (parts.after_from stop [] (spec.left_in lines.old))) }
    ensures closed { IfOk result (λ e. e.closed ≡ is_closed (items_in found.new.items)) }
    ensures rest { IfOk result (λ _. spec.left_in lines.new ≡
        rest_of (parts.after_from stop [] (spec.left_in lines.old))) }
    ensures front { IfOk result (λ _. Covers lines.old.tokens.rest.now (items_in found.new.items)) }
    ensures passes { IfOk result (λ _. spec.Passes (spec.left_in lines.old) (spec.left_in lines.new)
        lines.old.line lines.new.line) }
    ensures within { length lines.new.tokens.rest.now ≤ length lines.old.tokens.rest.now }
    ensures takes { IfOk result (λ _. 0 < length lines.old.tokens.rest.now →
        length lines.new.tokens.rest.now < length lines.old.tokens.rest.now) }
{
    let text = lines.tokens.rest.as_bytes();
    let mut tokens = lines.tokens;
    let end = css_rules::parts::take_until(alloc, &mut tokens, stop, found)?;
    let passed = text.len() - tokens.rest.len();
    let line = lines.line + feeds(&text[..passed]);
    *lines = Lines { tokens, line };
    Ok(end)
}
