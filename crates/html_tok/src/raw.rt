//! Elements whose text has no markup.
ghost use Rattle.std.specs.Prelude.{◌≡◌};
ghost use Rattle.std.specs.Str.{str_eq_ignore_ascii_case};
ghost use Rattle.html_tok.specs.Fields.{awaited_in};
ghost use Rattle.html_tok.specs.Pieces.{raw_element, has_name, ends_raw};

use crate::classes::Stop;

/// The name of the element of a name in any case, where its text runs to its own end tag.
#[tactic(auto, unfolding(crate::specs::Pieces::raw_element))]
pub(crate) fn raw_element(name: &str) -> Option<&'static str>
    ensures { awaited_in result ≡ raw_element name.now }
{
    let name = name.as_bytes();
    if same_letters(name, b"script") {
        Some("script")
    } else if same_letters(name, b"style") {
        Some("style")
    } else if same_letters(name, b"title") {
        Some("title")
    } else if same_letters(name, b"textarea") {
        Some("textarea")
    } else {
        None
    }
}

/// Whether the texts are equal in any case.
fn same_letters(a: &[u8], b: &[u8]) -> bool
    ensures { result ≡ str_eq_ignore_ascii_case a.now b.now }
{
    a.eq_ignore_ascii_case(b)
}

/// Whether the end tag of the element begins here.
#[tactic(auto, unfolding(crate::specs::Pieces::ends_raw))]
pub(crate) fn ends_raw(rest: &[u8], name: &str) -> bool
    ensures { result ≡ ends_raw name.now rest.now }
{
    rest.starts_with(b"</") && has_name(&rest[2..], name.as_bytes())
}

/// Whether the name in any case is the first in the text, and what a name ends before follows.
#[tactic(auto, unfolding(crate::specs::Pieces::has_name))]
fn has_name(rest: &[u8], name: &[u8]) -> bool
    ensures { result ≡ has_name name.now rest.now }
{
    if rest.len() <= name.len() {
        return false;
    }
    let (front, back) = rest.split_at(name.len());
    same_letters(front, name) && Stop::Name.is_before(back[0])
}
