//! Takes the tokens up to where a part of a sheet ends.

ghost use Rattle.std.specs.Prelude.{◌≡◌, ◌≢◌, ◌++◌, ◌≤◌, ◌<◌, ◌||◌, ◌==◌, ℕ, List, [], ◌∷◌, if◌then◌else◌, length, IfOk};
ghost use Rattle.css_tok.specs.Tokens.{tokens_of, item_in};
ghost use Rattle.css_tok.specs.Marks.{first_mark, rest_of};
ghost use Rattle.css_rules.specs.Views.{items_in};
ghost use Rattle.css_rules.specs.Brackets.{is_closed};
ghost use Rattle.css_rules.specs.Parts as spec;

use crate::brackets::OpenBrackets;
use bk_num::name::NoMem;
use css_tok::tokens::{CssToken, CssTokens};
use std::alloc::Global;

/// What ends a part of a sheet, outside brackets.
#[derive(Clone, Copy, Debug)]
pub enum Stop {
    /// `;`: a piece of a style attribute.
    Piece,
    /// `;` or `}`: a piece of a block.
    BlockPiece,
    /// `{`: a prelude.
    Prelude,
    /// `{` or `}`: a prelude in a block.
    InnerPrelude,
    /// `;` or `{`: the prelude of an at-rule.
    AtRule,
    /// `;`, `{` or `}`: the prelude of an at-rule in a block.
    InnerAtRule,
    /// `,`: a part of a list.
    Comma,
}

fn is_stop(stop: Stop, mark: u8) -> bool
    ensures { result ≡ spec.is_stop stop mark }
{
    match stop {
        Stop::Piece => mark == b';',
        Stop::BlockPiece => mark == b';' || mark == b'}',
        Stop::Prelude => mark == b'{',
        Stop::InnerPrelude => mark == b'{' || mark == b'}',
        Stop::AtRule => mark == b';' || mark == b'{',
        Stop::InnerAtRule => mark == b';' || mark == b'{' || mark == b'}',
        Stop::Comma => mark == b',',
    }
}

/// Whether a token ends a part of a sheet (css-syntax-3, 5.3).
#[tactic(auto, unfolding(crate::specs::Parts::ends))]
pub fn ends(stop: Stop, brackets: &OpenBrackets, token: &CssToken<'_>) -> bool
    ensures { result ≡ spec.ends stop brackets.now (item_in token.now) }
{
    brackets.is_outside() && is_stop(stop, token.mark())
}

/// How a part of a sheet ends.
#[derive(Clone, Copy, Debug)]
pub struct PartEnd {
    /// The mark that ends it, or 0 at the end of the text.
    pub mark: u8,
    /// Whether none of its brackets is left open.
    pub closed: bool,
}

/// Reads the tokens before the one that ends a part, and takes that one.
#[tactic(auto, unfolding(crate::specs::Brackets::open_at))]
pub fn take_until<'a>(
    alloc: Global,
    tokens: &mut CssTokens<'a>,
    stop: Stop,
    found: &mut Vec<CssToken<'a>>,
) -> Result<PartEnd, NoMem>
    ensures found { IfOk result (λ _. items_in found.new.items
        ≡ spec.front_from stop [] (tokens_of tokens.old.rest.now)) }
    ensures end { IfOk result (λ e. e.mark ≡ first_mark (spec.after_from stop [] (tokens_of tokens.old.rest.now))) }
    ensures closed { IfOk result (λ e. e.closed ≡ is_closed (items_in found.new.items)) }
    ensures rest { IfOk result (λ _. tokens_of tokens.new.rest.now
        ≡ rest_of (spec.after_from stop [] (tokens_of tokens.old.rest.now))) }
    ensures front { IfOk result (λ _. (rest : List ℕ) × (tokens.old.rest.now
        ≡ spec.joined (items_in found.new.items) ++ rest)) }
    ensures passed { IfOk result (λ _. spec.Passed tokens.old.rest.now tokens.new.rest.now) }
    ensures within { length tokens.new.rest.now ≤ length tokens.old.rest.now }
    ensures moves { IfOk result (λ e. e.mark ≢ 0 → length tokens.new.rest.now < length tokens.old.rest.now) }
    ensures takes { IfOk result (λ _. 0 < length tokens.old.rest.now →
        length tokens.new.rest.now < length tokens.old.rest.now) }
{
    found.clear();
    let mut open = OpenBrackets::new(alloc);
    while let Some(token) = tokens.next() {
        if ends(stop, &open, &token) {
            return Ok(PartEnd {
                mark: token.mark(),
                closed: true,
            });
        }
        open.pass(&token)?;
        found.push(token)?;
    }
    Ok(PartEnd {
        mark: 0,
        closed: open.is_outside(),
    })
}

/// Reads the next piece of a list. Answers what ended it.
#[tactic(auto, using(crate::proofs::PartLemmas::parts_first, crate::proofs::PartLemmas::past_first))]
pub(crate) fn next_part<'a>(
    alloc: Global,
    tokens: &mut CssTokens<'a>,
    stop: Stop,
    part: &mut Vec<CssToken<'a>>,
) -> Result<PartEnd, NoMem>
    ensures parted { IfOk result (λ e. spec.parts_from stop [] (tokens_of tokens.old.rest.now)
        ≡ items_in part.new.items ∷
        (if e.mark == spec.separator stop then spec.parts_from stop [] (tokens_of tokens.new.rest.now) else [])) }
    ensures past { IfOk result (λ e. spec.past_from stop [] (tokens_of tokens.old.rest.now) ≡
        (if e.mark == spec.separator stop then spec.past_from stop [] (tokens_of tokens.new.rest.now) else
        tokens_of tokens.new.rest.now)) }
    ensures closed { IfOk result (λ e. e.closed ≡ is_closed (items_in part.new.items)) }
    ensures front { IfOk result (λ _. (rest : List ℕ) × (tokens.old.rest.now
        ≡ spec.joined (items_in part.new.items) ++ rest)) }
    ensures within { length tokens.new.rest.now ≤ length tokens.old.rest.now }
    ensures moves { IfOk result (λ e. e.mark ≢ 0 → length tokens.new.rest.now < length tokens.old.rest.now) }
{
    let end = take_until(alloc, tokens, stop, part)?;
    Ok(end)
}

/// A part ends at the first place outside brackets whose token stops it.
pub fn parts_end_first()
    ensures { spec.EachPartEndsFirst }
{}
