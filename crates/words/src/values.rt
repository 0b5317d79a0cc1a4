//! What the matches of a parse ask for.

ghost use Rattle.std.specs.Prelude.{◌≡◌, ◌≤◌, IfOk, IfErr, codes, is_some, true, unwrap_or, map, option_map, []};
ghost use Rattle.clap.specs.Words.{found_of, first_value, first_of, all_of, rows_of};
ghost use Rattle.words.specs.Grammar.{format_app, most_chapters, most_columns, most_passes, sample_app, widest_gap};
ghost use Rattle.words.specs.Asked.{AreInRange, format_view, format_in, number_in, text_in};
ghost use Rattle.words.specs.Parsed.{IsParseBy};

use crate::fault::WordsErr;
use crate::request::Format;
use clap::ArgMatches;
use std::alloc::Global;

/// The text of an argument that has one.
fn text_in<'a>(matches: &ArgMatches<'a>, id: &str) -> &'a str
    requires { is_some (first_value (found_of matches.now) id.now) ≡ true }
    ensures { result.now ≡ text_in (rows_of (found_of matches.now)) id.now }
{
    matches.get_str(id).unwrap()
}

/// The text of an argument, if it has one.
fn name_in<'a>(matches: &ArgMatches<'a>, id: &str) -> Option<&'a str>
    ensures { option_map (λ s. s.now) result ≡ first_of id.now (rows_of (found_of matches.now)) }
{
    matches.get_str(id)
}

/// The names of the sheets.
fn sheets_in<'a>(alloc: Global, matches: &ArgMatches<'a>) -> Result<Vec<&'a str>, WordsErr>
    ensures sheets { IfOk result (λ v. map (λ s. s.now) v.items
        ≡ unwrap_or (all_of (codes "css") (rows_of (found_of matches.now))) []) }
    ensures fault { IfErr result (λ e. e ≡ WordsErr.NoMemory) }
{
    let names = matches.get_strs("css").unwrap_or(&[]);
    let mut sheets = Vec::new(alloc);
    sheets.extend_from_slice(names)?;
    Ok(sheets)
}

/// How many passes may be made.
fn passes_in(matches: &ArgMatches<'_>) -> u8
    requires { IsParseBy format_app matches.now }
    ensures passes { result ≡ number_in (rows_of (found_of matches.now)) (codes "passes") }
    ensures least { 1 ≤ result }
    ensures most { result ≤ most_passes }
{
    matches.get_one::<u8>("passes").unwrap()
}

/// How many columns a page has.
fn columns_in(matches: &ArgMatches<'_>) -> u8
    requires { IsParseBy format_app matches.now }
    ensures columns { result ≡ number_in (rows_of (found_of matches.now)) (codes "columns") }
    ensures least { 1 ≤ result }
    ensures most { result ≤ most_columns }
{
    matches.get_one::<u8>("columns").unwrap()
}

/// The gap between columns, in px.
fn gap_in(matches: &ArgMatches<'_>) -> u16
    requires { IsParseBy format_app matches.now }
    ensures gap { result ≡ number_in (rows_of (found_of matches.now)) (codes "gap") }
    ensures most { result ≤ widest_gap }
{
    matches.get_one::<u16>("gap").unwrap()
}

/// How many chapters a sample has.
pub(crate) fn chapters_in(matches: &ArgMatches<'_>) -> u32
    requires { IsParseBy sample_app matches.now }
    ensures chapters { result ≡ number_in (rows_of (found_of matches.now)) (codes "n") }
    ensures least { 1 ≤ result }
    ensures most { result ≤ most_chapters }
{
    matches.get_one::<u32>("n").unwrap()
}

/// What the matches of `format` ask for.
pub(crate) fn format_in<'a>(alloc: Global, matches: &ArgMatches<'a>) -> Result<Format<'a>, WordsErr>
    requires { IsParseBy format_app matches.now }
    ensures words { IfOk result (λ f. format_view f ≡ format_in (rows_of (found_of matches.now))) }
    ensures range { IfOk result AreInRange }
    ensures fault { IfErr result (λ e. e ≡ WordsErr.NoMemory) }
{
    let sheets = sheets_in(alloc, matches)?;
    Ok(Format {
        passes: passes_in(matches),
        columns: columns_in(matches),
        gap: gap_in(matches),
        patterns: name_in(matches, "patterns"),
        metrics: text_in(matches, "metrics"),
        html: text_in(matches, "html"),
        sheets,
    })
}
