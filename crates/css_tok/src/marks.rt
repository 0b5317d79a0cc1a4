//! What a token is to those who read lists of tokens: a mark, a name, white space, an opening bracket.

ghost use Rattle.std.specs.Prelude.{◌≡◌};
ghost use Rattle.css_tok.specs.Tokens.{item_in};
ghost use Rattle.css_tok.specs.Marks as spec;

use crate::kind::CssKind;
use crate::tokens::CssToken;
use bk_num::chars::byte;

fn closer_of_mark(mark: u8) -> Option<u8>
    ensures { result ≡ spec.closer_of_mark mark }
{
    match mark {
        b'(' => Some(b')'),
        b'[' => Some(b']'),
        b'{' => Some(b'}'),
        _ => None,
    }
}

impl<'a> CssToken<'a> {
    /// The character of a `Delim`, and 0 for every other token.
    #[tactic(auto, unfolding(crate::specs::Marks::mark))]
    pub fn mark(&self) -> u8
        ensures { result ≡ spec.mark (item_in self.now) }
    {
        match self.kind {
            CssKind::Delim => byte(self.slice.as_bytes(), 0),
            _ => 0,
        }
    }

    /// The mark that closes the bracket which the token opens (css-syntax, 5.4.8); None where it opens none.
    #[tactic(auto, unfolding(crate::specs::Marks::closer_of))]
    pub fn closer(&self) -> Option<u8>
        ensures { result ≡ spec.closer_of (item_in self.now) }
    {
        match self.kind {
            CssKind::Func => Some(b')'),
            _ => closer_of_mark(self.mark()),
        }
    }

    pub fn is_space(&self) -> bool
        ensures { result ≡ spec.is_space_kind self.now.kind }
    {
        matches!(self.kind, CssKind::Space)
    }

    pub fn is_comment(&self) -> bool
        ensures { result ≡ spec.is_comment_kind self.now.kind }
    {
        matches!(self.kind, CssKind::Comment)
    }

    /// Whether the token is white space or a comment, which may stand between any two tokens of a value.
    pub fn is_gap(&self) -> bool
        ensures { result ≡ spec.is_gap (item_in self.now) }
    {
        matches!(self.kind, CssKind::Space | CssKind::Comment)
    }

    pub fn is_ident(&self) -> bool
        ensures { result ≡ spec.is_ident_kind self.now.kind }
    {
        matches!(self.kind, CssKind::Ident)
    }
}
