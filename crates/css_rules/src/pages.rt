//! Page rules.

ghost use Rattle.std.specs.Prelude.{◌≡◌, ◌≤◌, ◌<◌, ◌++◌, ◌==◌, length, true, option_map, option_to_list, IsTrue, IfOk, OnOk};
ghost use Rattle.css_tok.specs.Tokens.{tokens_of, item_in};
ghost use Rattle.std.specs.List.{list_all};
ghost use Rattle.css_tok.specs.Marks.{first_mark, rest_of, is_gap_kind};
ghost use Rattle.css_rules.specs.Decls.{decl_in};
ghost use Rattle.css_rules.specs.Decls as spec_decls;
ghost use Rattle.css_rules.specs.Pages as spec;
ghost use Rattle.css_rules.specs.Views.{items_in};

use crate::decls::{DeclSlice, decl_of, read_block};
use crate::margin_boxes::margin_box_number;
use crate::parts::{Stop, take_until};
use bk_num::name::NoMem;
use css_tok::kind::CssKind;
use css_tok::tokens::{CssToken, CssTokens};
use std::alloc::Global;

/// What stands where a rule or a declaration could begin.
#[derive(Clone, Copy, Debug)]
pub enum Lead {
    /// White space or a comment, and between rules also `<!--` and `-->`.
    Between,
    /// The `}` that ends the block.
    Closer,
    /// An at-keyword.
    At,
    /// Anything else.
    Content,
}

/// A page rule, by its parts of the source: its page selectors, its declarations, and its margin boxes by
/// their names, escapes as they stand.
#[derive(Drop)]
pub struct PageSlice<'a> {
    pub selectors: &'a str,
    pub decls: Vec<DeclSlice<'a>>,
    pub boxes: Vec<(&'a str, Vec<DeclSlice<'a>>)>,
}

/// Whether a name is that of a margin box (css-page-3, 5.1), ASCII case aside.
#[tactic(auto, unfolding(crate::specs::Pages::is_margin_name))]
pub fn is_margin_name(name: &str) -> bool
    ensures { result ≡ spec.is_margin_name name.now }
{
    margin_box_number(name).is_some()
}

pub(crate) fn is_at(token: &CssToken<'_>) -> bool
    ensures { result ≡ spec.is_at_kind token.now.kind }
{
    matches!(token.kind, CssKind::At)
}

/// What stands where a declaration of a page rule could begin.
#[tactic(auto, unfolding(crate::specs::Pages::page_lead))]
pub fn page_lead(token: &CssToken<'_>) -> Lead
    ensures { result ≡ spec.page_lead (item_in token.now) }
{
    if token.is_gap() {
        Lead::Between
    } else if token.mark() == b'}' {
        Lead::Closer
    } else if is_at(token) {
        Lead::At
    } else {
        Lead::Content
    }
}

/// A part of the block of a page rule, and whether the block goes on.
#[derive(Drop)]
pub struct PagePart<'a> {
    decl: Option<DeclSlice<'a>>,
    margin: Option<(&'a str, Vec<DeclSlice<'a>>)>,
    more: bool,
}

/// Whether all tokens are white space and comments.
pub fn are_gaps(tokens: &[CssToken<'_>]) -> bool
    ensures { result ≡ list_all (λ t. is_gap_kind t.kind) tokens.now }
{
    tokens.iter().all(|token| token.is_gap())
}

/// Whether an at-rule in a page rule is a margin box, by its At, its prelude and what ends that (css-page-3, 5).
#[tactic(auto, using(crate::proofs::PartLemmas::gaps_are))]
pub fn is_margin_box(token: &CssToken<'_>, prelude: &[CssToken<'_>], end: u8) -> bool
    ensures { result ≡ spec.margin_box_by (item_in token.now) (items_in prelude.now) end }
{
    is_margin_name(token.value_slice()) && are_gaps(prelude) && end == b'{'
}

/// Reads an at-rule in the block, whose At was taken: a margin box with its block, or nothing.
fn read_page_at<'a>(
    alloc: Global,
    token: &CssToken<'a>,
    tokens: &mut CssTokens<'a>,
    found: &mut Vec<CssToken<'a>>,
) -> Result<PagePart<'a>, NoMem>
    ensures part { IfOk result (λ p. spec.IsPageAt p (item_in token.now) (tokens_of tokens.old.rest.now)
        (tokens_of tokens.new.rest.now)) }
    ensures within { IfOk result (λ _. length tokens.new.rest.now ≤ length tokens.old.rest.now) }
{
    let end = take_until(alloc, tokens, Stop::InnerAtRule, found)?;
    if end.mark != b'{' {
        return Ok(PagePart {
            decl: None,
            margin: None,
            more: end.mark != b'}',
        });
    }
    let is_box = is_margin_box(token, found, end.mark);
    let decls = read_block(alloc, tokens, Stop::BlockPiece)?;
    Ok(PagePart {
        decl: None,
        margin: if is_box {
            Some((token.value_slice(), decls))
        } else {
            None
        },
        more: true,
    })
}

/// Reads a piece of the block.
#[tactic(auto, unfolding(crate::specs::Pages::piece_at, crate::specs::Pages::piece_end))]
fn read_page_piece<'a>(
    alloc: Global,
    tokens: &mut CssTokens<'a>,
    found: &mut Vec<CssToken<'a>>,
) -> Result<PagePart<'a>, NoMem>
    ensures decl { IfOk result (λ p. option_map decl_in p.decl
        ≡ spec_decls.decl_of (spec.piece_at (tokens_of tokens.old.rest.now))) }
    ensures margin { IfOk result (λ p. option_map spec.box_in p.margin ≡ None) }
    ensures more { IfOk result (λ p. p.more ≡ (first_mark (spec.piece_end (tokens_of tokens.old.rest.now)) == 59)) }
    ensures rest { IfOk result (λ _. tokens_of tokens.new.rest.now
        ≡ rest_of (spec.piece_end (tokens_of tokens.old.rest.now))) }
    ensures takes { IfOk result (λ _. 0 < length tokens.old.rest.now →
        length tokens.new.rest.now < length tokens.old.rest.now) }
{
    let start = tokens.rest;
    let end = take_until(alloc, tokens, Stop::BlockPiece, found)?;
    Ok(PagePart {
        decl: decl_of(end.closed, start, found),
        margin: None,
        more: end.mark == b';',
    })
}

/// Reads the next part of the block.
fn next_page_part<'a>(
    alloc: Global,
    tokens: &mut CssTokens<'a>,
    found: &mut Vec<CssToken<'a>>,
) -> Result<PagePart<'a>, NoMem>
    ensures part { IfOk result (λ p. spec.IsPartOfPage p (tokens_of tokens.old.rest.now)
        (tokens_of tokens.new.rest.now)) }
    ensures within { IfOk result (λ _. length tokens.new.rest.now ≤ length tokens.old.rest.now) }
    ensures moves { IfOk result (λ p. IsTrue p.more → length tokens.new.rest.now < length tokens.old.rest.now) }
{
    let mut ahead = *tokens;
    let Some(token) = ahead.next() else {
        return Ok(PagePart {
            decl: None,
            margin: None,
            more: false,
        });
    };
    match page_lead(&token) {
        Lead::Content => {
            let part = read_page_piece(alloc, tokens, found)?;
            Ok(part)
        }
        Lead::At => {
            *tokens = ahead;
            let part = read_page_at(alloc, &token, tokens, found)?;
            Ok(part)
        }
        Lead::Closer => {
            *tokens = ahead;
            Ok(PagePart {
                decl: None,
                margin: None,
                more: false,
            })
        }
        Lead::Between => {
            *tokens = ahead;
            Ok(PagePart {
                decl: None,
                margin: None,
                more: true,
            })
        }
    }
}

fn push_some<T: Drop>(items: &mut Vec<T>, item: Option<T>) -> Result<(), NoMem>
    ensures { OnOk result (items.new.items ≡ items.old.items ++ option_to_list item) }
{
    match item {
        Some(item) => Ok(items.push(item)?),
        None => Ok(()),
    }
}

/// Reads the block of a page rule, whose `{` was taken, and makes the rule.
pub(crate) fn read_page<'a>(
    alloc: Global,
    selectors: &'a str,
    tokens: &mut CssTokens<'a>,
    found: &mut Vec<CssToken<'a>>,
) -> Result<PageSlice<'a>, NoMem>
    ensures block { IfOk result (λ p. ((spec.page_in p).selectors ≡ selectors.now) ×
        spec.IsPageBlock (tokens_of tokens.old.rest.now) (spec.page_in p).decls (spec.page_in p).boxes
        (tokens_of tokens.new.rest.now)) }
    ensures within { IfOk result (λ _. length tokens.new.rest.now ≤ length tokens.old.rest.now) }
{
    let mut decls = Vec::new(alloc);
    let mut boxes = Vec::new(alloc);
    'parts: loop {
        let PagePart { decl, margin, more } = next_page_part(alloc, tokens, found)?;
        push_some(&mut decls, decl)?;
        push_some(&mut boxes, margin)?;
        if !more {
            return Ok(PageSlice {
                selectors,
                decls,
                boxes,
            });
        }
    }
}
