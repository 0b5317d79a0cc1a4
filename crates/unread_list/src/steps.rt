//! Steps along a sheet: each passes a token, or a part that stands there.

ghost use Rattle.std.specs.Prelude.{◌≡◌, ◌∷◌, ◌++◌, ◌<◌, ◌≤◌, length, option_map, IfOk};
ghost use Rattle.css_tok.specs.Tokens.{item_in};
ghost use Rattle.css_rules.specs.Views.{items_in};
ghost use Rattle.css_rules.specs.Brackets.{is_closed};
ghost use Rattle.css_rules.specs.Decls.{Covers, decl_of};
ghost use Rattle.css_rules.specs.Parts.{joined};
ghost use Rattle.css_rules.specs.Sheet.{at_kind as spec_at_kind};
ghost use Rattle.unread_list.specs.Lines.{Passes, left_in};
ghost use Rattle.unread_list.specs.Steps.{BeginsWith, IsStep, part_in, placed_in};
ghost use Rattle.unread_list.specs.Parts as spec;

use crate::lines::take_until;
use crate::part::{Mode, Owner, Part, Placed, State, Step};
use crate::reader::Lines;
use bk_num::name::NoMem;
use css_rules::decls::{decl_of, gaps_len, skip, split};
use css_rules::pages::{Lead, are_gaps, is_margin_box, page_lead};
use css_rules::parts::Stop;
use css_rules::sheet::{AtKind, at_kind, at_stop, is_media_rule, lead, prelude_stop};
use css_tok::tokens::CssToken;
use std::alloc::Global;

/// Whose declarations stand in a block; None where the block gives nothing.
fn owner_of(mode: Mode) -> Option<Owner>
    ensures { result ≡ spec.owner_of mode }
{
    match mode {
        Mode::Style => Some(Owner::Elements),
        Mode::Page => Some(Owner::Page),
        Mode::MarginBox => Some(Owner::MarginBox),
        Mode::Rules | Mode::Skipped | Mode::SkippedInPage => None,
    }
}

/// What stands behind a block.
fn behind(mode: Mode) -> Mode
    ensures { result ≡ spec.behind mode }
{
    match mode {
        Mode::MarginBox | Mode::SkippedInPage => Mode::Page,
        Mode::Rules | Mode::Style | Mode::Page | Mode::Skipped => Mode::Rules,
    }
}

/// What stands behind a piece of a block.
fn piece_mode(mode: Mode, end: u8) -> Mode
    ensures { result ≡ spec.piece_mode mode end }
{
    if end == b';' { mode } else { behind(mode) }
}

/// What stands behind an at-rule of a page rule that gives nothing.
fn page_at_mode(end: u8) -> Mode
    ensures { result ≡ spec.page_at_mode end }
{
    match end {
        b'{' => Mode::SkippedInPage,
        b'}' => Mode::Rules,
        _ => Mode::Page,
    }
}

/// What stands behind a prelude.
fn prelude_mode(mode: Mode, end: u8) -> Mode
    ensures { result ≡ spec.prelude_mode mode end }
{
    if end == b'{' { mode } else { Mode::Rules }
}

/// Whether an `@media` block is open behind a prelude.
fn prelude_inside(inside: bool, end: u8) -> bool
    ensures { result ≡ spec.prelude_inside inside end }
{
    inside && end != b'}'
}

/// A step that passes no part.
fn passed<'a>(inside: bool, mode: Mode) -> Step<'a>
    ensures { result ≡ record { part = None; state = record { inside = inside; mode = mode } } }
{
    Step {
        part: None,
        state: State { inside, mode },
    }
}

/// A step that passes a part.
fn passed_part<'a>(line: usize, part: Part<'a>, inside: bool, mode: Mode) -> Step<'a>
    ensures part { option_map placed_in result.part ≡ Some (spec.placed line (part_in part.entry)) }
    ensures state { result.state ≡ record { inside = inside; mode = mode } }
{
    Step {
        part: Some(Placed { line, part }),
        state: State { inside, mode },
    }
}

/// The line of the first token that is no white space and no comment.
#[tactic(auto, unfolding(crate::specs::Parts::bare_line))]
fn bare_line(start: &Lines<'_>) -> usize
    ensures { result ≡ spec.bare_line start.now.line (left_in start.now) }
{
    let mut lines = *start;
    'gaps: loop {
        let line = lines.line;
        match lines.next() {
            Some(token) if token.is_gap() => {}
            _ => return line,
        }
    }
}

/// The text of a piece from its first token on that is no white space and no comment.
fn bare<'a>(text: &'a str, tokens: &[CssToken<'a>]) -> &'a str
    requires { Covers text.now (items_in tokens.now) }
    ensures { result.now ≡ joined (spec.bare (items_in tokens.now)) }
{
    let (text, tokens) = skip(text, tokens, gaps_len(tokens));
    split(text, tokens).0
}

/// The part that a piece of a block is.
fn declaration<'a>(
    owner: Owner,
    start: &Lines<'a>,
    closed: bool,
    tokens: &[CssToken<'a>],
) -> Placed<'a>
    requires covers { Covers start.now.tokens.rest.now (items_in tokens.now) }
    requires closed { closed ≡ is_closed (items_in tokens.now) }
    ensures { placed_in result ≡ spec.placed (spec.bare_line start.now.line (left_in start.now))
        (spec.Declaration owner (joined (spec.bare (items_in tokens.now))) (decl_of (items_in tokens.now))) }
{
    let text = start.tokens.rest;
    Placed {
        line: bare_line(start),
        part: Part::Declaration(owner, bare(text, tokens), decl_of(closed, text, tokens)),
    }
}

/// The part that a piece of a block is, if it is one.
#[tactic(auto, using(css_rules::proofs::PartLemmas::gaps_are))]
fn piece_part<'a>(
    owner: Option<Owner>,
    start: &Lines<'a>,
    closed: bool,
    tokens: &[CssToken<'a>],
) -> Option<Placed<'a>>
    requires covers { Covers start.now.tokens.rest.now (items_in tokens.now) }
    requires closed { closed ≡ is_closed (items_in tokens.now) }
    ensures { option_map placed_in result ≡
        spec.piece_by owner (spec.bare_line start.now.line (left_in start.now)) (items_in tokens.now) }
{
    match owner {
        Some(owner) if !are_gaps(tokens) => Some(declaration(owner, start, closed, tokens)),
        _ => None,
    }
}

/// Passes a piece of a block.
fn pass_piece<'a>(
    alloc: Global,
    state: State,
    lines: &mut Lines<'a>,
    tokens: &mut Vec<CssToken<'a>>,
) -> Result<Step<'a>, NoMem>
    ensures step { IfOk result (λ r. IsStep (spec.piece_step state lines.old.line (left_in lines.old)) r lines.new) }
    ensures passes { IfOk result (λ _. Passes (left_in lines.old) (left_in lines.new) lines.old.line lines.new.line) }
    ensures takes { IfOk result (λ _. 0 < length lines.old.tokens.rest.now →
        length lines.new.tokens.rest.now < length lines.old.tokens.rest.now) }
{
    let start = *lines;
    let end = take_until(alloc, lines, Stop::BlockPiece, tokens)?;
    Ok(Step {
        part: piece_part(owner_of(state.mode), &start, end.closed, tokens),
        state: State {
            inside: state.inside,
            mode: piece_mode(state.mode, end.mark),
        },
    })
}

/// The text of an At and what follows it, at the start of a text.
fn at_text<'a>(text: &'a str, at: &str, prelude: &str) -> &'a str
    requires { BeginsWith text.now (at.now ++ prelude.now) }
    ensures { result.now ≡ at.now ++ prelude.now }
{
    text.split_at(at.len() + prelude.len()).0
}

/// The text of an at-rule up to where its prelude ends, by what stands before its At, and the text of its prelude.
fn at_texts<'a>(
    start: &Lines<'a>,
    after: &Lines<'a>,
    token: &CssToken<'a>,
    tokens: &[CssToken<'a>],
) -> (&'a str, &'a str)
    requires at { start.now.tokens.rest.now ≡ token.now.slice.now ++ after.now.tokens.rest.now }
    requires covers { Covers after.now.tokens.rest.now (items_in tokens.now) }
    ensures rule { result.0.now ≡ joined (item_in token.now ∷ items_in tokens.now) }
    ensures prelude { result.1.now ≡ joined (items_in tokens.now) }
{
    let (prelude, _rest) = split(after.tokens.rest, tokens);
    (at_text(start.tokens.rest, token.slice, prelude), prelude)
}

/// Passes an at-rule of a page rule, whose At was taken, up to the end of its prelude.
fn pass_page_at<'a>(
    alloc: Global,
    inside: bool,
    start: &Lines<'a>,
    token: &CssToken<'a>,
    lines: &mut Lines<'a>,
    tokens: &mut Vec<CssToken<'a>>,
) -> Result<Step<'a>, NoMem>
    requires { start.now.tokens.rest.now ≡ token.now.slice.now ++ lines.old.tokens.rest.now }
    ensures step { IfOk result
        (λ r. IsStep (spec.page_at_step inside start.now.line (item_in token.now) (left_in lines.old)) r lines.new) }
    ensures passes { IfOk result (λ _. Passes (left_in lines.old) (left_in lines.new) lines.old.line lines.new.line) }
    ensures within { IfOk result (λ _. length lines.new.tokens.rest.now ≤ length lines.old.tokens.rest.now) }
{
    let after = *lines;
    let end = take_until(alloc, lines, Stop::InnerAtRule, tokens)?;
    if is_margin_box(token, tokens, end.mark) {
        return Ok(passed(inside, Mode::MarginBox));
    }
    let rule = at_texts(start, &after, token, tokens).0;
    Ok(passed_part(
        start.line,
        Part::AtRule(rule),
        inside,
        page_at_mode(end.mark),
    ))
}

/// The part that an at-rule is which gives nothing.
fn at_part<'a>(inside: bool, token: &CssToken<'a>, end: u8, text: &'a str) -> Part<'a>
    ensures { part_in result ≡ spec.at_part inside (item_in token.now) end text.entry.now }
{
    if end == b'{' && is_media_rule(inside, token) {
        Part::Media(text)
    } else {
        Part::AtRule(text)
    }
}

/// Passes an at-rule, whose At was taken, up to the end of its prelude.
fn pass_at<'a>(
    alloc: Global,
    inside: bool,
    start: &Lines<'a>,
    token: &CssToken<'a>,
    lines: &mut Lines<'a>,
    tokens: &mut Vec<CssToken<'a>>,
) -> Result<Step<'a>, NoMem>
    requires { start.now.tokens.rest.now ≡ token.now.slice.now ++ lines.old.tokens.rest.now }
    ensures step { IfOk result (λ r. IsStep (spec.at_by
        (spec_at_kind inside (item_in token.now) (left_in lines.old)) inside
        start.now.line (item_in token.now) (left_in lines.old)) r lines.new) }
    ensures passes { IfOk result (λ _. Passes (left_in lines.old) (left_in lines.new) lines.old.line lines.new.line) }
    ensures within { IfOk result (λ _. length lines.new.tokens.rest.now ≤ length lines.old.tokens.rest.now) }
{
    let after = *lines;
    let end = take_until(alloc, lines, at_stop(inside), tokens)?;
    let (rule, prelude) = at_texts(start, &after, token, tokens);
    match at_kind(inside, token, tokens, end.mark) {
        AtKind::Media => Ok(passed(true, Mode::Rules)),
        AtKind::Page => Ok(passed_part(
            start.line,
            Part::PageSelectors(rule, prelude),
            inside,
            Mode::Page,
        )),
        AtKind::Other => Ok(passed_part(
            start.line,
            at_part(inside, token, end.mark, rule),
            prelude_inside(inside, end.mark),
            prelude_mode(Mode::Skipped, end.mark),
        )),
    }
}

/// The part that the prelude of a ruleset is, or what has no block.
fn prelude_part<'a>(end: u8, text: &'a str) -> Part<'a>
    ensures { part_in result ≡ spec.prelude_part end text.entry.now }
{
    if end == b'{' {
        Part::Selectors(text)
    } else {
        Part::NoBlock(text)
    }
}

/// Passes the prelude of a ruleset, or what has no block.
fn pass_prelude<'a>(
    alloc: Global,
    inside: bool,
    lines: &mut Lines<'a>,
    tokens: &mut Vec<CssToken<'a>>,
) -> Result<Step<'a>, NoMem>
    ensures step { IfOk result (λ r. IsStep (spec.prelude_step inside lines.old.line (left_in lines.old)) r lines.new) }
    ensures passes { IfOk result (λ _. Passes (left_in lines.old) (left_in lines.new) lines.old.line lines.new.line) }
    ensures takes { IfOk result (λ _. 0 < length lines.old.tokens.rest.now →
        length lines.new.tokens.rest.now < length lines.old.tokens.rest.now) }
{
    let start = *lines;
    let end = take_until(alloc, lines, prelude_stop(inside), tokens)?;
    let text = split(start.tokens.rest, tokens).0;
    Ok(passed_part(
        start.line,
        prelude_part(end.mark, text),
        prelude_inside(inside, end.mark),
        prelude_mode(Mode::Style, end.mark),
    ))
}

/// Makes a step in the block of a page rule.
fn pass_in_page<'a>(
    alloc: Global,
    inside: bool,
    lines: &mut Lines<'a>,
    tokens: &mut Vec<CssToken<'a>>,
) -> Result<Step<'a>, NoMem>
    ensures step { IfOk result (λ r. IsStep (spec.page_step inside lines.old.line (left_in lines.old)) r lines.new) }
    ensures passes { IfOk result (λ _. Passes (left_in lines.old) (left_in lines.new) lines.old.line lines.new.line) }
    ensures takes { IfOk result (λ _. 0 < length lines.old.tokens.rest.now →
        length lines.new.tokens.rest.now < length lines.old.tokens.rest.now) }
{
    let start = *lines;
    let Some(token) = lines.next() else {
        return Ok(passed(inside, Mode::Page));
    };
    match page_lead(&token) {
        Lead::Between => Ok(passed(inside, Mode::Page)),
        Lead::Closer => Ok(passed(inside, Mode::Rules)),
        Lead::At => pass_page_at(alloc, inside, &start, &token, lines, tokens),
        Lead::Content => {
            *lines = start;
            let state = State {
                inside,
                mode: Mode::Page,
            };
            pass_piece(alloc, state, lines, tokens)
        }
    }
}

/// Makes a step between rules.
fn pass_in_rules<'a>(
    alloc: Global,
    inside: bool,
    lines: &mut Lines<'a>,
    tokens: &mut Vec<CssToken<'a>>,
) -> Result<Step<'a>, NoMem>
    ensures step { IfOk result (λ r. IsStep (spec.rules_step inside lines.old.line (left_in lines.old)) r lines.new) }
    ensures passes { IfOk result (λ _. Passes (left_in lines.old) (left_in lines.new) lines.old.line lines.new.line) }
    ensures takes { IfOk result (λ _. 0 < length lines.old.tokens.rest.now →
        length lines.new.tokens.rest.now < length lines.old.tokens.rest.now) }
{
    let start = *lines;
    let Some(token) = lines.next() else {
        return Ok(passed(inside, Mode::Rules));
    };
    match lead(inside, &token) {
        Lead::Between => Ok(passed(inside, Mode::Rules)),
        Lead::Closer => Ok(passed(false, Mode::Rules)),
        Lead::At => pass_at(alloc, inside, &start, &token, lines, tokens),
        Lead::Content => {
            *lines = start;
            pass_prelude(alloc, inside, lines, tokens)
        }
    }
}

/// Makes a step.
#[tactic(auto, unfolding(crate::specs::Parts::step_at))]
pub(crate) fn pass<'a>(
    alloc: Global,
    state: State,
    lines: &mut Lines<'a>,
    tokens: &mut Vec<CssToken<'a>>,
) -> Result<Step<'a>, NoMem>
    ensures step { IfOk result (λ r. IsStep (spec.step_at state lines.old.line (left_in lines.old)) r lines.new) }
    ensures passes { IfOk result (λ _. Passes (left_in lines.old) (left_in lines.new) lines.old.line lines.new.line) }
    ensures takes { IfOk result (λ _. 0 < length lines.old.tokens.rest.now →
        length lines.new.tokens.rest.now < length lines.old.tokens.rest.now) }
{
    match state.mode {
        Mode::Rules => pass_in_rules(alloc, state.inside, lines, tokens),
        Mode::Page => pass_in_page(alloc, state.inside, lines, tokens),
        Mode::Style | Mode::MarginBox | Mode::Skipped | Mode::SkippedInPage => {
            pass_piece(alloc, state, lines, tokens)
        }
    }
}
