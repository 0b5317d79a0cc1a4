//! The commands as `clap` reads them.

ghost use Rattle.std.specs.Prelude.{◌≡◌, IfOk, false};
ghost use Rattle.clap.specs.Words.{app_of, new_app, rule_of};
ghost use Rattle.words.specs.Grammar.{format_app, format_options, sample_app, passes_rule, columns_rule, gap_rule, patterns_rule, name_rule, names_rule, chapters_rule, without_name};

use clap::{Arg, ArgAction, Command, value_parser};
use std::alloc::{AllocError, Global};

/// The most passes that may be asked for.
const MOST_PASSES: i64 = 64;

/// How many passes may be made where none are asked for, as a word.
const DEFAULT_PASSES: &str = "8";

/// The most columns of a page.
const MOST_COLUMNS: i64 = 8;

/// How many columns a page has where none are asked for, as a word.
const DEFAULT_COLUMNS: &str = "1";

/// The widest gap between columns, in px.
const WIDEST_GAP: i64 = 1000;

/// The gap where none is asked for, as a word.
const DEFAULT_GAP: &str = "16";

/// The most chapters of a sample.
const MOST_CHAPTERS: i64 = 2000;

/// The option `--passes`.
fn passes_option<'a>(alloc: Global) -> Arg<'a>
    ensures rule { rule_of result ≡ passes_rule }
    ensures local { result.global ≡ false }
{
    Arg::new(alloc, "passes")
        .long("passes")
        .action(ArgAction::Set)
        .default_value(DEFAULT_PASSES)
        .value_parser(value_parser!(u8).range(1..MOST_PASSES + 1))
}

/// The option `--columns`.
fn columns_option<'a>(alloc: Global) -> Arg<'a>
    ensures rule { rule_of result ≡ columns_rule }
    ensures local { result.global ≡ false }
{
    Arg::new(alloc, "columns")
        .long("columns")
        .action(ArgAction::Set)
        .default_value(DEFAULT_COLUMNS)
        .value_parser(value_parser!(u8).range(1..MOST_COLUMNS + 1))
}

/// The option `--gap`.
fn gap_option<'a>(alloc: Global) -> Arg<'a>
    ensures rule { rule_of result ≡ gap_rule }
    ensures local { result.global ≡ false }
{
    Arg::new(alloc, "gap")
        .long("gap")
        .action(ArgAction::Set)
        .default_value(DEFAULT_GAP)
        .value_parser(value_parser!(u16).range(0..WIDEST_GAP + 1))
}

/// The option `--patterns`.
fn patterns_option<'a>(alloc: Global) -> Arg<'a>
    ensures rule { rule_of result ≡ patterns_rule }
    ensures local { result.global ≡ false }
{
    Arg::new(alloc, "patterns")
        .long("patterns")
        .action(ArgAction::Set)
}

/// A name that has to be given.
fn name_argument<'a>(alloc: Global, id: &'a str) -> Arg<'a>
    ensures rule { rule_of result ≡ name_rule id.entry.now }
    ensures local { result.global ≡ false }
{
    Arg::new(alloc, id).action(ArgAction::Set).required(true)
}

/// Any number of names.
fn names_argument<'a>(alloc: Global, id: &'a str) -> Arg<'a>
    ensures rule { rule_of result ≡ names_rule id.entry.now }
    ensures local { result.global ≡ false }
{
    Arg::new(alloc, id).action(ArgAction::Append).num_args(0..)
}

/// The number of chapters of a sample.
fn chapters_argument<'a>(alloc: Global) -> Arg<'a>
    ensures rule { rule_of result ≡ chapters_rule }
    ensures local { result.global ≡ false }
{
    Arg::new(alloc, "n")
        .action(ArgAction::Set)
        .required(true)
        .value_parser(value_parser!(u32).range(1..MOST_CHAPTERS + 1))
}

/// A command whose words begin after its name.
fn nameless_command<'a>(alloc: Global, name: &'a str) -> Command<'a>
    ensures { app_of result ≡ without_name (new_app name.entry.now) }
{
    Command::new(alloc, name).no_binary_name(true)
}

/// `format` with its options.
fn options_command<'a>(alloc: Global) -> Result<Command<'a>, AllocError>
    ensures { IfOk result (λ c. app_of c ≡ format_options) }
{
    let plain = nameless_command(alloc, "format");
    let passes = plain.arg(passes_option(alloc))?;
    let columns = passes.arg(columns_option(alloc))?;
    let gap = columns.arg(gap_option(alloc))?;
    gap.arg(patterns_option(alloc))
}

/// `format [--passes N] [--columns N] [--gap PX] [--patterns FILE] METRICS HTML [CSS ...]`.
pub(crate) fn format_command<'a>(alloc: Global) -> Result<Command<'a>, AllocError>
    ensures { IfOk result (λ c. app_of c ≡ format_app) }
{
    let options = options_command(alloc)?;
    let metrics = options.arg(name_argument(alloc, "metrics"))?;
    let html = metrics.arg(name_argument(alloc, "html"))?;
    html.arg(names_argument(alloc, "css"))
}

/// `sample N`.
pub(crate) fn sample_command<'a>(alloc: Global) -> Result<Command<'a>, AllocError>
    ensures { IfOk result (λ c. app_of c ≡ sample_app) }
{
    nameless_command(alloc, "sample").arg(chapters_argument(alloc))
}
