//! The lines of a leaf that are kept.

ghost use Rattle.std.specs.Prelude.{◌≡◌};
ghost use Rattle.std.specs.List.{Contains};
ghost use Rattle.line_fill.specs.KeptLines.{AreRising, IsFound, IsPlace, PutsAhead, is_asked, is_now};

use bk_num::name::NoMem;
use boxes::line::Line;

/// Which pass asked for a line that is kept: this one or the one before, or none yet, where the plan of an earlier line
/// chose it.
#[derive(Clone, Copy, Debug)]
pub enum Pass {
    Now,
    Before,
    Ahead,
}

/// A line that is kept, and which pass asked for it.
#[derive(Clone, Copy, Debug)]
pub struct KeptLine {
    pub line: Line,
    pub pass: Pass,
}

impl KeptLine {
    /// Whether this pass asked for it.
    pub(crate) fn is_now(&self) -> bool
        ensures { result ≡ is_now self.now }
    {
        match self.pass {
            Pass::Now => true,
            Pass::Before | Pass::Ahead => false,
        }
    }

    /// Whether this pass or the one before asked for it.
    pub(crate) fn is_asked(&self) -> bool
        ensures { result ≡ is_asked self.now }
    {
        match self.pass {
            Pass::Now | Pass::Before => true,
            Pass::Ahead => false,
        }
    }
}

/// The place of the first of some lines that begins at an offset or after it.
pub(crate) fn place_of(lines: &[KeptLine], from: u32) -> usize
    requires { AreRising lines.now }
    ensures { IsPlace lines.now from result }
{
    lines.partition_point(|kept| kept.line.from() < from)
}

/// The line at a place, if it begins at an offset.
pub(crate) fn line_at(lines: &[KeptLine], place: usize, from: u32) -> Option<KeptLine>
    ensures is { IsFound lines.now place from result }
{
    match lines.get(place) {
        None => None,
        Some(kept) => {
            if kept.line.from() == from {
                Some(*kept)
            } else {
                None
            }
        }
    }
}

/// Puts a line that no pass asked for yet, unless a line stands there that begins where it begins.
fn put_ahead(lines: &mut Vec<KeptLine>, line: Line) -> Result<(), NoMem>
    requires { AreRising lines.old.items }
    ensures { PutsAhead (λ l. l ≡ line) lines.old.items lines.new.items }
{
    let place = place_of(lines.as_slice(), line.from());
    if line_at(lines.as_slice(), place, line.from()).is_some() {
        return Ok(());
    }
    let ahead = KeptLine {
        line,
        pass: Pass::Ahead,
    };
    match lines.insert(place, ahead) {
        Ok(()) => Ok(()),
        Err(_) => Err(NoMem),
    }
}

/// Puts lines that no pass asked for yet. Where memory is wanting for one, it and those after it are left out: each is
/// found anew when it is asked for.
pub(crate) fn put_all_ahead(lines: &mut Vec<KeptLine>, ahead: &[Line])
    requires { AreRising lines.old.items }
    ensures { PutsAhead (λ l. Contains ahead.now l) lines.old.items lines.new.items }
{
    for k in 0..ahead.len() {
        if put_ahead(lines, ahead[k]).is_err() {
            return;
        }
    }
}
