//! Lists of named strings (css-gcpm-3, 1.1.1).

ghost use Rattle.std.specs.Prelude.{◌≤◌, length};
ghost use Rattle.css_words.specs.Parser.{Reads};
ghost use Rattle.css_content.specs.Grammar as spec;

use crate::content::{ContentPlace, content_list};
use bk_num::name::Name;
use css_tok::kind::CssKind;
use css_words::lists::{ReadOne, read_comma_list};
use css_words::reader::Reader;
use css_words::unread::Unread;
use css_words::words::{ident, is_named};
use std::alloc::Global;
use style::content::Content;
use style::lists::StringSets;

/// A name and a list of content.
#[derive(Drop)]
struct StringEntry;

impl ReadOne for StringEntry {
    type Item = (Name, Content);

    ghost use Rattle.css_content.specs.Grammar.{string_entry};

    ghost parser = { λ _. string_entry };

    #[tactic(auto, unfolding(crate::specs::Grammar::string_entry))]
    fn read(&self, alloc: Global, reader: &mut Reader<'_>) -> Result<(Name, Content), Unread> {
        let name = ident(alloc, reader)?;
        let parts = content_list(alloc, reader, ContentPlace::StringSet)?;
        Ok((name, parts))
    }
}

/// Reads a value of `string-set`: `none`, or a comma list of names, each with a list of content.
#[tactic(auto, unfolding(crate::specs::Grammar::string_sets))]
pub fn string_sets(alloc: Global, reader: &mut Reader<'_>) -> Result<StringSets, Unread>
    ensures reads { Reads (λ x. x) (spec.string_sets reader.old) result reader.new }
    ensures within { length reader.new ≤ length reader.old }
{
    if is_named(CssKind::Ident, reader.peek(), "none") && reader.second().is_none() {
        reader.advance();
        return Ok(StringSets::new(alloc));
    }
    let found = read_comma_list(alloc, reader, &StringEntry)?;
    Ok(StringSets::of(found.into_vec()))
}
