//! Media lists, read without memory.

ghost use Rattle.std.specs.Prelude.{◌≡◌, ◌<◌, ◌≤◌, ◌-◌, ◌==◌, ◌++◌, ◌&&◌, List, [], ◌∷◌, length, take, slice_get, true, false, MatchBool, MatchOption};
ghost use Rattle.css_tok.specs.Tokens.{Item, tokens_of, item_in};
ghost use Rattle.css_tok.specs.Marks.{is_gap};
ghost use Rattle.css_rules.specs.Brackets.{open_after};
ghost use Rattle.css_rules.specs.Brackets as brackets;
ghost use Rattle.css_rules.specs.Views.{items_in};
ghost use Rattle.css_rules.specs.Media.{most_brackets, is_media_list, is_medium};
ghost use Rattle.css_rules.specs.MediaSteps.{is_medium_seen};
ghost use Rattle.css_rules.specs.MediaSteps as spec;
ghost use Rattle.css_rules.specs.Parts.{ends};

use crate::parts::Stop;
use css_tok::tokens::{CssToken, CssTokens};
use css_tok::words::is_word;
use std::marker::Model;

/// The most brackets of a part of a media list that are open at a place.
pub const MOST_BRACKETS: usize = 1024;

/// The open brackets of a part of a media list.
#[derive(Drop)]
pub struct Shallow {
    closers: [u8; MOST_BRACKETS],
    depth: usize,
}

impl Model for Shallow {
    ghost use Rattle.std.specs.Prelude.{ℕ, List, take, ◌≤◌};

    ghost Value = { List ℕ };

    ghost view = { λ s. take s.depth s.closers };

    ghost invariant = { λ s. s.depth ≤ 1024 };
}

impl Shallow {
    fn new() -> Shallow
        ensures { result ≡ [] }
    {
        Shallow {
            closers: [0; MOST_BRACKETS],
            depth: 0,
        }
    }

    fn is_outside(&self) -> bool
        ensures { result ≡ (length self.now == 0) }
    {
        self.depth == 0
    }

    fn last(&self) -> Option<u8>
        ensures { result ≡ slice_get self.now (length self.now - 1) }
    {
        if self.depth == 0 {
            None
        } else {
            Some(self.closers[self.depth - 1])
        }
    }

    /// Appends a closer where there is room.
    fn push(&mut self, closer: u8) -> bool
        ensures room { MatchBool result (self.new ≡ self.old ++ closer ∷ []) (most_brackets ≤ length self.old) }
        ensures full { result ≡ false → self.new ≡ self.old }
    {
        if self.depth == MOST_BRACKETS {
            return false;
        }
        self.closers[self.depth] = closer;
        self.depth += 1;
        true
    }

    fn pop(&mut self)
        ensures { self.new ≡ take (length self.old - 1) self.old }
    {
        if 0 < self.depth {
            self.depth -= 1;
        }
    }
}

/// What stands in a part of a media list so far.
#[derive(Clone, Copy, Debug)]
pub enum Seen {
    /// White space and comments alone.
    Nothing,
    /// The name of a medium that is read.
    Medium,
    /// Anything else.
    Other,
}

/// A reader of a media list.
#[derive(Drop)]
pub struct MediaReader {
    brackets: Shallow,
    seen: Seen,
    /// Whether the list has white space and comments alone so far.
    blank: bool,
}

#[tactic(auto, unfolding(crate::specs::Media::is_medium))]
fn is_medium(token: &CssToken<'_>) -> bool
    ensures { result ≡ is_medium (item_in token.now) }
{
    token.is_ident() && (is_word(token.slice, "all") || is_word(token.slice, "print"))
}

#[tactic(auto, unfolding(crate::specs::MediaSteps::seen_after))]
fn seen_after(seen: Seen, token: &CssToken<'_>) -> Seen
    ensures { result ≡ spec.seen_after seen (item_in token.now) }
{
    if token.is_gap() {
        return seen;
    }
    match seen {
        Seen::Nothing => if is_medium(token) {
            Seen::Medium
        } else {
            Seen::Other
        },
        Seen::Medium => Seen::Other,
        Seen::Other => Seen::Other,
    }
}

fn is_medium_seen(seen: Seen) -> bool
    ensures { result ≡ is_medium_seen seen }
{
    matches!(seen, Seen::Medium)
}

impl Shallow {
    #[tactic(auto, unfolding(crate::specs::Brackets::closes))]
    fn closes(&self, token: &CssToken<'_>) -> bool
        ensures { result ≡ brackets.closes self.now (item_in token.now) }
    {
        match self.last() {
            Some(closer) => closer == token.mark(),
            None => false,
        }
    }

    /// Passes a token; false where too many brackets would be open.
    #[tactic(auto, unfolding(crate::specs::Brackets::open_after))]
    fn pass(&mut self, token: &CssToken<'_>) -> bool
        ensures open { MatchBool result (self.new ≡ open_after self.old (item_in token.now))
            (most_brackets < length (open_after self.old (item_in token.now))) }
        ensures full { result ≡ false → self.new ≡ self.old }
    {
        if let Some(closer) = token.closer() {
            return self.push(closer);
        }
        if self.closes(token) {
            self.pop();
        }
        true
    }

    /// The most brackets that are open.
    fn within(&self)
        ensures { length self.now ≤ most_brackets }
    {
        // by the invariant, which is known of what is looked at
        let _depth = self.depth;
    }
}

impl MediaReader {
    fn new() -> MediaReader
        ensures { (ts : List Item) → spec.reads (spec.state_in result) ts ≡ is_media_list ts }
    {
        MediaReader {
            brackets: Shallow::new(),
            seen: Seen::Nothing,
            blank: true,
        }
    }

    #[tactic(auto, unfolding(crate::specs::Parts::ends, crate::specs::Brackets::is_outside))]
    fn ends_part(&self, token: &CssToken<'_>) -> bool
        ensures { result ≡ ends Stop.Comma self.now.brackets (item_in token.now) }
    {
        self.brackets.is_outside() && token.mark() == b','
    }

    fn is_blank_after(&self, token: &CssToken<'_>) -> bool
        ensures { result ≡ (self.now.blank && is_gap (item_in token.now)) }
    {
        self.blank && token.is_gap()
    }

    /// Passes a token. Answers whether the list is read, where that is settled whatever follows.
    fn pass(&mut self, token: &CssToken<'_>) -> Option<bool>
        ensures { MatchOption result (spec.GoesOn (spec.state_in self.old) (item_in token.now) (spec.state_in self.new))
            (λ answer. spec.IsSettled (spec.state_in self.old) (item_in token.now) answer) }
    {
        if self.ends_part(token) {
            return self.end_part();
        }
        self.brackets.within();
        self.seen = seen_after(self.seen, token);
        self.blank = self.is_blank_after(token);
        if self.brackets.pass(token) {
            None
        } else {
            Some(false)
        }
    }

    fn end_part(&mut self) -> Option<bool>
        ensures { MatchOption result ((is_medium_seen self.old.seen ≡ false) ×
            (spec.state_in self.new ≡ spec.next_part (spec.state_in self.old)))
            (λ answer. (is_medium_seen self.old.seen ≡ true) ×
            (answer ≡ true)) }
    {
        if is_medium_seen(self.seen) {
            return Some(true);
        }
        self.seen = Seen::Nothing;
        self.blank = false;
        None
    }

    #[tactic(auto, using(crate::proofs::MediaLemmas::reads_none))]
    fn is_read(&self) -> bool
        ensures { result ≡ spec.reads (spec.state_in self.now) [] }
    {
        self.brackets.within();
        self.blank || is_medium_seen(self.seen)
    }
}

/// Whether a media list is read (CSS 2.1, 7.2; HTML's `media`): it is empty, or a part of it is `all` or
/// `print` alone, in any case. Of a list with a part whose brackets nest deeper than 1,024 the parts before
/// that one count. It takes no memory.
pub fn media_read(list: &str) -> bool
    ensures { result ≡ is_media_list (tokens_of list.now) }
{
    let mut tokens = CssTokens::new(list);
    let mut reader = MediaReader::new();
    while let Some(token) = tokens.next() {
        if let Some(answer) = reader.pass(&token) {
            return answer;
        }
    }
    reader.is_read()
}

/// The same for a list whose tokens were taken.
pub fn is_media_list(tokens: &[CssToken<'_>]) -> bool
    ensures { result ≡ is_media_list (items_in tokens.now) }
{
    let mut reader = MediaReader::new();
    let mut left = tokens;
    while let [token, rest @ ..] = left {
        if let Some(answer) = reader.pass(token) {
            return answer;
        }
        left = rest;
    }
    reader.is_read()
}
