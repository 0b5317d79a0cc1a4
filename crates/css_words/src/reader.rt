//! A reader over the tokens of a text.

ghost use Rattle.std.specs.Prelude.{◌≡◌, ◌<◌, ◌≤◌, length, option_map, IfSome};
ghost use Rattle.css_tok.specs.Marks.{first_of, rest_of};
ghost use Rattle.css_tok.specs.Tokens.{item_in, tokens_of};
ghost use Rattle.css_words.specs.Ahead.{before, NoneEnds};
ghost use Rattle.css_words.specs.Input as spec;

use css_tok::tokens::{CssToken, CssTokens};
use std::marker::Model;

/// The tokens that a reader passes over: they separate other tokens and mean nothing else.
#[derive(Clone, Copy, Debug, PartialEq, Eq)]
pub enum Skipped {
    Comments,
    CommentsAndSpaces,
}

fn is_skipped(skipped: Skipped, token: &CssToken<'_>) -> bool
    ensures { result ≡ spec.is_skipped skipped token.now.kind }
{
    match skipped {
        Skipped::Comments => token.is_comment(),
        Skipped::CommentsAndSpaces => token.is_gap(),
    }
}

/// The next token that isn't passed over.
fn next_kept<'a>(tokens: &mut CssTokens<'a>, skipped: Skipped) -> Option<CssToken<'a>>
    ensures kept { spec.kept skipped (tokens_of tokens.old.rest.now)
        ≡ before result (spec.kept skipped (tokens_of tokens.new.rest.now)) }
    ensures end { NoneEnds result (spec.kept skipped (tokens_of tokens.new.rest.now)) }
{
    while let Some(token) = tokens.next() {
        if !is_skipped(skipped, &token) {
            return Some(token);
        }
    }
    None
}

/// The tokens of a text that are left, with two of them at hand. It takes no memory, and a reader that goes through a
/// text takes time in proportion to it. Contracts see the list of the tokens that are left.
#[derive(Drop)]
pub struct Reader<'a> {
    skipped: Skipped,
    next: Option<CssToken<'a>>,
    later: Option<CssToken<'a>>,
    tokens: CssTokens<'a>,
}

impl<'a> Model for Reader<'a> {
    ghost use Rattle.std.specs.Prelude.{List};
    ghost use Rattle.css_tok.specs.Tokens.{Item};
    ghost use Rattle.css_words.specs.Ahead.{ahead, IsFilled};

    ghost Value = { List Item };

    ghost view = { λ r. ahead r.skipped r.next r.later r.tokens.rest.now };

    ghost invariant = { λ r. IsFilled r.skipped r.next r.later r.tokens.rest.now };
}

impl<'a> Reader<'a> {
    /// A reader at the start of a text.
    pub fn new(text: &'a str, skipped: Skipped) -> Reader<'a>
        ensures { result ≡ spec.kept skipped (tokens_of text.now) }
    {
        let mut tokens = CssTokens::new(text);
        let next = next_kept(&mut tokens, skipped);
        let later = next_kept(&mut tokens, skipped);
        Reader {
            skipped,
            next,
            later,
            tokens,
        }
    }

    /// The next token, which stays; None exactly at the end.
    pub fn peek(&self) -> Option<CssToken<'a>>
        ensures next { option_map item_in result ≡ first_of self.now }
        ensures some { IfSome result (λ t. 0 < length self.now) }
    {
        self.next
    }

    /// The token after the next, which stays.
    pub fn second(&self) -> Option<CssToken<'a>>
        ensures { option_map item_in result ≡ first_of (rest_of self.now) }
    {
        self.later
    }

    /// Passes the next token.
    pub fn advance(&mut self)
        ensures rest { self.new ≡ rest_of self.old }
        ensures within { length self.new ≤ length self.old }
        ensures taken { 0 < length self.old → length self.new < length self.old }
    {
        self.next = self.later;
        self.later = next_kept(&mut self.tokens, self.skipped);
    }

    /// Passes white space.
    pub fn pass_spaces(&mut self)
        ensures rest { self.new ≡ spec.past_spaces self.old }
        ensures within { length self.new ≤ length self.old }
    {
        while is_space(self.peek()) {
            self.advance();
        }
    }
}

fn is_space(token: Option<CssToken<'_>>) -> bool
    ensures { result ≡ spec.is_space (option_map item_in token.entry) }
{
    match token {
        Some(token) => token.is_space(),
        None => false,
    }
}
