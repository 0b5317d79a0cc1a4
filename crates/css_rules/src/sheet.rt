//! The rules of a sheet.

ghost use Rattle.std.specs.Prelude.{◌≡◌, ◌≤◌, ◌<◌, ◌++◌, ◌==◌, List, [], ◌∷◌, length, map, true, false, ◌&&◌, not, if◌then◌else◌, ◌+◌, IfOk, OnOk, IfSome, IfNone, IfErr};
ghost use Rattle.css_tok.specs.Tokens.{Item, tokens_of, item_in};
ghost use Rattle.css_rules.specs.Views.{items_in};
ghost use Rattle.css_rules.specs.Pages.{PageOf, page_in};
ghost use Rattle.css_rules.specs.Parts.{past_block};
ghost use Rattle.bk_num.specs.Limits.{most_rules};
ghost use Rattle.css_rules.specs.Sheet as spec;

use crate::decls::{DeclSlice, read_block, split};
use crate::media::is_media_list;
use crate::pages::{Lead, PageSlice, is_at, read_page};
use crate::parts::{Stop, take_until};
use bk_num::limits::MOST_RULES;
use bk_num::name::NoMem;
use css_tok::kind::CssKind;
use css_tok::tokens::{CssToken, CssTokens};
use css_tok::words::is_word;
use std::alloc::Global;
use thiserror::Error;

/// What an at-rule gives.
#[derive(Clone, Copy, Debug)]
pub enum AtKind {
    /// The rules of its block.
    Media,
    /// A page rule.
    Page,
    /// Nothing.
    Other,
}

/// A ruleset, by its parts of the source: its selectors and its declarations.
#[derive(Drop)]
pub struct Rule<'a> {
    pub selectors: &'a str,
    pub decls: Vec<DeclSlice<'a>>,
}

fn is_between(token: &CssToken<'_>) -> bool
    ensures { result ≡ spec.is_between_kind token.now.kind }
{
    matches!(
        token.kind,
        CssKind::Space | CssKind::Comment | CssKind::Cdo | CssKind::Cdc
    )
}

/// What stands where a rule could begin, where an `@media` block is open or not.
#[tactic(auto, unfolding(crate::specs::Sheet::lead_of))]
pub fn lead(inside: bool, token: &CssToken<'_>) -> Lead
    ensures { result ≡ spec.lead_of inside (item_in token.now) }
{
    if is_between(token) {
        Lead::Between
    } else if inside && token.mark() == b'}' {
        Lead::Closer
    } else if is_at(token) {
        Lead::At
    } else {
        Lead::Content
    }
}

/// Where the prelude of a ruleset ends, where an `@media` block is open or not.
pub fn prelude_stop(inside: bool) -> Stop
    ensures { result ≡ spec.prelude_stop inside }
{
    if inside {
        Stop::InnerPrelude
    } else {
        Stop::Prelude
    }
}

/// Where the prelude of an at-rule ends, where an `@media` block is open or not.
pub fn at_stop(inside: bool) -> Stop
    ensures { result ≡ spec.at_stop inside }
{
    if inside {
        Stop::InnerAtRule
    } else {
        Stop::AtRule
    }
}

#[tactic(auto, unfolding(crate::specs::Sheet::is_at_word))]
fn is_at_word(token: &CssToken<'_>, word: &str) -> bool
    ensures { result ≡ spec.is_at_word (item_in token.now) word.now }
{
    is_word(token.value_slice(), word)
}

/// Whether an at keyword begins an `@media` rule, which none does inside another one.
pub fn is_media_rule(inside: bool, token: &CssToken<'_>) -> bool
    ensures { result ≡ spec.is_media_rule inside (item_in token.now) }
{
    !inside && is_at_word(token, "media")
}

/// What an at-rule gives, by its At, its prelude and what ends that.
pub fn at_kind(inside: bool, token: &CssToken<'_>, prelude: &[CssToken<'_>], end: u8) -> AtKind
    ensures { result ≡ spec.kind_of_at inside (item_in token.now) (items_in prelude.now) end }
{
    if end != b'{' {
        AtKind::Other
    } else if is_at_word(token, "page") {
        AtKind::Page
    } else if is_media_rule(inside, token) && is_media_list(prelude) {
        AtKind::Media
    } else {
        AtKind::Other
    }
}

/// One step of the reader of a sheet.
#[derive(Drop)]
enum SheetStep<'a> {
    /// The end of the text.
    End,
    /// Nothing that is kept; whether an `@media` block is open behind it.
    Skipped(bool),
    Rule(Rule<'a>),
    Page(PageSlice<'a>),
}

/// Whether an `@media` block is open behind a part that ended so.
fn stays(inside: bool, end: u8) -> bool
    ensures { result ≡ (inside && not (end == 125)) }
{
    inside && end != b'}'
}

/// Passes the block of an at-rule, where it ended with one.
fn skip_block<'a>(alloc: Global, tokens: &mut CssTokens<'a>, end: u8) -> Result<(), NoMem>
    ensures rest { OnOk result (tokens_of tokens.new.rest.now ≡
        (if end == 123 then past_block (tokens_of tokens.old.rest.now) else tokens_of tokens.old.rest.now)) }
    ensures within { OnOk result (length tokens.new.rest.now ≤ length tokens.old.rest.now) }
{
    if end == b'{' {
        read_block(alloc, tokens, Stop::BlockPiece)?;
    }
    Ok(())
}

/// Reads an at-rule, whose At was taken.
fn read_at<'a>(
    alloc: Global,
    inside: bool,
    token: &CssToken<'a>,
    tokens: &mut CssTokens<'a>,
    found: &mut Vec<CssToken<'a>>,
) -> Result<SheetStep<'a>, NoMem>
    ensures goes { IfOk result (λ s. spec.lead_of inside (item_in token.now) ≡ Lead.At →
        spec.GoesOn s inside (item_in token.now ∷ tokens_of tokens.old.rest.now) (tokens_of tokens.new.rest.now)) }
    ensures within { IfOk result (λ _. length tokens.new.rest.now ≤ length tokens.old.rest.now) }
    ensures goes_on { IfOk result (λ s. spec.is_end s ≡ false) }
{
    let start = tokens.rest;
    let end = take_until(alloc, tokens, at_stop(inside), found)?;
    match at_kind(inside, token, found, end.mark) {
        AtKind::Media => Ok(SheetStep::Skipped(true)),
        AtKind::Page => {
            let selectors = split(start, found).0;
            let page = read_page(alloc, selectors, tokens, found)?;
            Ok(SheetStep::Page(page))
        }
        AtKind::Other => {
            skip_block(alloc, tokens, end.mark)?;
            Ok(SheetStep::Skipped(stays(inside, end.mark)))
        }
    }
}

/// Reads a ruleset, or passes a prelude without a block.
fn read_ruleset<'a>(
    alloc: Global,
    inside: bool,
    tokens: &mut CssTokens<'a>,
    found: &mut Vec<CssToken<'a>>,
) -> Result<SheetStep<'a>, NoMem>
    ensures goes { IfOk result (λ s. (t : Item) (us : List Item) → tokens_of tokens.old.rest.now ≡ t ∷ us →
        spec.lead_of inside t ≡ Lead.Content → spec.GoesOn s inside (tokens_of tokens.old.rest.now)
        (tokens_of tokens.new.rest.now)) }
    ensures takes { IfOk result (λ _. 0 < length tokens.old.rest.now →
        length tokens.new.rest.now < length tokens.old.rest.now) }
    ensures goes_on { IfOk result (λ s. spec.is_end s ≡ false) }
{
    let start = tokens.rest;
    let end = take_until(alloc, tokens, prelude_stop(inside), found)?;
    if end.mark != b'{' {
        return Ok(SheetStep::Skipped(stays(inside, end.mark)));
    }
    let selectors = split(start, found).0;
    let decls = read_block(alloc, tokens, Stop::BlockPiece)?;
    Ok(SheetStep::Rule(Rule { selectors, decls }))
}

/// Makes the next step.
fn next_rule<'a>(
    alloc: Global,
    inside: bool,
    tokens: &mut CssTokens<'a>,
    found: &mut Vec<CssToken<'a>>,
) -> Result<SheetStep<'a>, NoMem>
    ensures goes { IfOk result (λ s. spec.GoesOn s inside (tokens_of tokens.old.rest.now)
        (tokens_of tokens.new.rest.now)) }
    ensures end { IfOk result (λ s. spec.is_end s ≡ true → tokens_of tokens.old.rest.now ≡ []) }
    ensures moves { IfOk result (λ s. spec.is_end s ≡ false → length tokens.new.rest.now < length tokens.old.rest.now) }
{
    let mut ahead = *tokens;
    let Some(token) = ahead.next() else {
        return Ok(SheetStep::End);
    };
    match lead(inside, &token) {
        Lead::Between => {
            *tokens = ahead;
            Ok(SheetStep::Skipped(inside))
        }
        Lead::Closer => {
            *tokens = ahead;
            Ok(SheetStep::Skipped(false))
        }
        Lead::At => {
            *tokens = ahead;
            let step = read_at(alloc, inside, &token, tokens, found)?;
            Ok(step)
        }
        Lead::Content => {
            let step = read_ruleset(alloc, inside, tokens, found)?;
            Ok(step)
        }
    }
}

/// A sheet, borrowed from its text: its rulesets and its page rules, each in their order.
#[derive(Drop)]
pub struct Sheet<'a> {
    pub rules: Vec<Rule<'a>>,
    pub pages: Vec<PageSlice<'a>>,
}

/// Each list of tokens has exactly one reading as a sheet.
pub fn one_reading()
    ensures { spec.HaveOneReading }
{}

/// Why a sheet isn't read.
#[derive(Clone, Copy, Debug, PartialEq, Eq, Error)]
pub enum SheetErr {
    /// It has more than 20,000 rules: rulesets, page rules and margin boxes.
    #[error("too many rules")]
    Rules,
    #[error("no memory")]
    NoMemory,
}

fn is_end(step: &SheetStep<'_>) -> bool
    ensures { result ≡ spec.is_end step.now }
{
    matches!(step, SheetStep::End)
}

/// Keeps what a step gave. Answers whether an `@media` block is open behind it, and the number of rules.
fn keep<'a>(
    rules: &mut Vec<Rule<'a>>,
    pages: &mut Vec<PageSlice<'a>>,
    inside: bool,
    count: usize,
    step: SheetStep<'a>,
) -> Result<(bool, usize), NoMem>
    requires { count ≤ most_rules }
    ensures rules { OnOk result (map spec.rule_in rules.new.items
        ≡ map spec.rule_in rules.old.items ++ spec.rules_in_step step.entry) }
    ensures pages { OnOk result (map page_in pages.new.items
        ≡ map page_in pages.old.items ++ spec.pages_in_step step.entry) }
    ensures inside { IfOk result (λ r. r.0 ≡ spec.inside_after inside step.entry) }
    ensures count { IfOk result (λ r. r.1 ≡ count + spec.rule_count (spec.rules_in_step step.entry)
        (spec.pages_in_step step.entry)) }
{
    match step {
        SheetStep::End => Ok((inside, count)),
        SheetStep::Skipped(behind) => Ok((behind, count)),
        SheetStep::Rule(rule) => {
            rules.push(rule)?;
            Ok((inside, count + 1))
        }
        SheetStep::Page(page) => {
            let more = count + 1 + page.boxes.len();
            pages.push(page)?;
            Ok((inside, more))
        }
    }
}

/// Reads a sheet; None where it has more than 20,000 rules.
fn read_rules<'a>(alloc: Global, text: &'a str) -> Result<Option<Sheet<'a>>, NoMem>
    ensures sheet { IfOk result (λ o. IfSome o (λ s. spec.IsSheet (tokens_of text.now) (spec.rules_in s)
        (spec.pages_in s))) }
    ensures few { IfOk result (λ o. IfSome o (λ s. spec.rule_count (spec.rules_in s) (spec.pages_in s) ≤ most_rules)) }
    ensures many { IfOk result (λ o. IfNone o ((rs : List spec.RuleOf) (ps : List PageOf) →
        spec.IsSheet (tokens_of text.now) rs ps →
        most_rules < spec.rule_count rs ps)) }
{
    let mut tokens = CssTokens::new(text);
    let mut found = Vec::new(alloc);
    let mut rules = Vec::new(alloc);
    let mut pages = Vec::new(alloc);
    let mut inside = false;
    let mut count = 0;
    'rules: loop {
        let step = next_rule(alloc, inside, &mut tokens, &mut found)?;
        if is_end(&step) {
            return Ok(Some(Sheet { rules, pages }));
        }
        let (behind, more) = keep(&mut rules, &mut pages, inside, count, step)?;
        if more > MOST_RULES as usize {
            return Ok(None);
        }
        inside = behind;
        count = more;
    }
}

/// Reads a sheet (CSS 2.1, 4.1 and 4.2; css-page, 4 and 5). Rulesets and at-rules whose text has another
/// form are passed, and so are at-rules other than `@media` with a read list, whose block gives its rules,
/// and `@page`. An unexpected end closes all. It takes time in proportion to the text, and answers `Rules`
/// exactly where there are more than 20,000 rules.
pub fn read_sheet<'a>(alloc: Global, text: &'a str) -> Result<Sheet<'a>, SheetErr>
    ensures sheet { IfOk result (λ s. spec.IsSheet (tokens_of text.now) (spec.rules_in s) (spec.pages_in s)) }
    ensures few { IfOk result (λ s. spec.rule_count (spec.rules_in s) (spec.pages_in s) ≤ most_rules) }
    ensures many { IfErr result (λ e. e ≡ SheetErr.Rules → (rs : List spec.RuleOf) (ps : List PageOf) →
        spec.IsSheet (tokens_of text.now) rs ps → most_rules < spec.rule_count rs ps) }
{
    match read_rules(alloc, text) {
        Ok(Some(sheet)) => Ok(sheet),
        Ok(None) => Err(SheetErr::Rules),
        Err(_) => Err(SheetErr::NoMemory),
    }
}
