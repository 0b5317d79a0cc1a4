//! Reads a patterns text.

ghost use Rattle.std.specs.Prelude.{◌≡◌, ℕ, ◌≤◌, List, true, false, length, max, IfOk, MatchOption, slice_index, ◌==◌, ◌||◌};
ghost use Rattle.std.specs.Str.{chars};
ghost use Rattle.bk_num.specs.Limits.{most_text_bytes};
ghost use Rattle.hyphen.specs.Meaning.{IsReading, value_in};
ghost use Rattle.hyphen.specs.Pattern.{value_at};
ghost use Rattle.hyphen.specs.Text.{entry_of, patterns_of};

use crate::fault::PatErr;
use crate::pattern::{read_pattern, trimmed};
use crate::patterns::Patterns;
use bk_num::name::NoMem;
use std::alloc::Global;

/// The patterns of a text, or its first line that has no reading. A line is a pattern: a dot or none,
/// 1 to 32 letters, each after at most one digit and the last before at most one, and a dot or none.
/// Blank lines are skipped, and those that a `#` or `%` begins.
pub fn read_patterns(alloc: Global, text: &str) -> Result<Patterns, PatErr>
    requires { length text.now ≤ most_text_bytes }
    ensures { IsReading (patterns_of text.now) result }
{
    let mut patterns = Patterns::new(alloc);
    let mut number = 1;
    for line in text.lines() {
        if !add_line(alloc, line, &mut patterns)? {
            return Err(PatErr::Line { line: number });
        }
        number += 1;
    }
    Ok(patterns)
}

/// Adds the pattern that a line has, if it has one. False where the line has no reading.
fn add_line(alloc: Global, line: &str, patterns: &mut Patterns) -> Result<bool, NoMem>
    ensures { IfOk result (λ good. MatchOption (entry_of (chars line.now)) (good ≡ false)
        (λ ps. (good ≡ true) × ((word : List ℕ) (place : ℕ) → value_in patterns.new word place ≡
        max (value_in patterns.old word place) (value_at ps word place)))) }
{
    let line = characters(alloc, line)?;
    let rest = trimmed(&line);
    if is_skipped(&line, rest) {
        return Ok(true);
    }
    match read_pattern(alloc, rest)? {
        Some(pattern) => {
            patterns.add(alloc, pattern)?;
            Ok(true)
        }
        None => Ok(false),
    }
}

/// The characters of a text.
fn characters(alloc: Global, text: &str) -> Result<Vec<char>, NoMem>
    ensures { IfOk result (λ v. v.items ≡ chars text.now) }
{
    Ok(text.chars().collect(alloc)?)
}

/// Whether a line is skipped: the rest of it is empty, or a `#` or `%` begins it.
fn is_skipped(line: &[char], rest: &[char]) -> bool
    ensures { result ≡ (length rest.now == 0 || slice_index line.now 0 == 35 || slice_index line.now 0 == 37) }
{
    rest.is_empty() || matches!(line, ['#', ..]) || matches!(line, ['%', ..])
}
