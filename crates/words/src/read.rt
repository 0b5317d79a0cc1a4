//! Reads the words of the command line.

ghost use Rattle.std.specs.Prelude.{◌≡◌, IfOk, map, string_bytes, true};
ghost use Rattle.clap.specs.Words.{app_of, is_simple_and_free};
ghost use Rattle.words.specs.Asked.{Answers, IsInRange, asked, asked_format, asked_sample, is_format, is_sample};
ghost use Rattle.words.specs.Parsed.{IsLeaf, ParseAnswers, err_for};

use crate::commands::{format_command, sample_command};
use crate::fault::{WordsErr, WordsFault};
use crate::request::Request;
use crate::values::{chapters_in, format_in};
use clap::error::ErrorKind;
use clap::{ArgMatches, Command};
use std::alloc::Global;

/// The error of a parse by this kind.
fn err_of(kind: ErrorKind) -> WordsErr
    ensures { result ≡ err_for kind }
{
    match kind {
        ErrorKind::OutOfMemory => WordsErr::NoMemory,
        ErrorKind::DisplayHelp => WordsErr::Fault(WordsFault::Help),
        _ => WordsErr::Fault(WordsFault::Refused),
    }
}

/// The matches of a command without subcommands.
fn matches_by<'a>(command: Command<'a>, words: &'a [String]) -> Result<ArgMatches<'a>, WordsErr>
    requires simple { is_simple_and_free (app_of command) ≡ true }
    requires leaf { IsLeaf (app_of command) }
    ensures { ParseAnswers (app_of command.entry) (map (λ w. string_bytes w) words.entry.now) result }
{
    match command.try_get_matches_from(words) {
        Ok(matches) => Ok(matches),
        Err(error) => Err(err_of(error.kind())),
    }
}

/// What the words after `format` ask for.
fn read_format<'a>(alloc: Global, words: &'a [String]) -> Result<Request<'a>, WordsErr>
    ensures answers { Answers (asked_format (map (λ w. string_bytes w) words.entry.now)) result }
    ensures range { IfOk result IsInRange }
{
    let matches = matches_by(format_command(alloc)?, words)?;
    let format = format_in(alloc, &matches)?;
    Ok(Request::Format(format))
}

/// What the words after `sample` ask for.
fn read_sample<'a>(alloc: Global, words: &'a [String]) -> Result<Request<'a>, WordsErr>
    ensures answers { Answers (asked_sample (map (λ w. string_bytes w) words.entry.now)) result }
    ensures range { IfOk result IsInRange }
{
    let matches = matches_by(sample_command(alloc)?, words)?;
    let chapters = chapters_in(&matches);
    Ok(Request::Sample { chapters })
}

#[tactic(auto, unfolding(crate::specs::Asked::is_format))]
fn is_format(word: &str) -> bool
    ensures { result ≡ is_format word.now }
{
    word == "format"
}

#[tactic(auto, unfolding(crate::specs::Asked::is_sample))]
fn is_sample(word: &str) -> bool
    ensures { result ≡ is_sample word.now }
{
    word == "sample"
}

/// What the words after the program's name ask for. The names are the words themselves, and any number of sheets is
/// taken.
#[tactic(auto, unfolding(crate::specs::Asked::asked))]
pub fn read_words<'a>(alloc: Global, words: &'a [String]) -> Result<Request<'a>, WordsErr>
    ensures answers { Answers (asked (map (λ w. string_bytes w) words.entry.now)) result }
    ensures range { IfOk result IsInRange }
{
    let [command, rest @ ..] = words else {
        return Err(WordsErr::Fault(WordsFault::NoCommand));
    };
    if is_format(command.as_str()) {
        return read_format(alloc, rest);
    }
    if is_sample(command.as_str()) {
        return read_sample(alloc, rest);
    }
    Err(WordsErr::Fault(WordsFault::UnknownCommand))
}
