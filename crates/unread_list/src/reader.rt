//! Where a reader of a sheet stands.

ghost use Rattle.std.specs.Prelude.{◌≤◌, ◌+◌, ◌-◌, ◌^◌, length};

use css_tok::tokens::CssTokens;

/// A reader of tokens, and the line on which it stands, from 1.
#[derive(Clone, Copy)]
pub struct Lines<'a> {
    pub tokens: CssTokens<'a>,
    pub line: usize,
    ghost fits: { line + length tokens.rest.now ≤ 2 ^ 64 - 1 },
}
