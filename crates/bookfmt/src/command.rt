//! The program as a function of a runtime: hands its words, the real files and the standard streams to `run`, and
//! ends with the answer's status.

ghost use Rattle.std.specs.Prelude.{◌≡◌, ◌<◌};
ghost use Rattle.book.specs.Message.{message};
ghost use Rattle.book.specs.Run.{PutsLine};
ghost use Rattle.book.specs.declared.outcome.Outcome.{Outcome};
ghost use Rattle.bookfmt.specs.End.{EndsWith, IsAnswer};

use bk_io::dir_shelf::DirShelf;
use bk_io::shelf::Shelf;
use bk_io::sink::Sink;
use bk_io::std_sink::StdSink;
use bk_num::steps::Steps;
use book::message::put_message;
use book::outcome::Outcome;
use book::run::run;
use std::alloc::Global;
use std::env::Env;
use std::marker::Brand;
use std::process::ExitCode;
use std::sync::ledger::{Blank, Ledger};
use words::program_words;

/// The words of the command line after the program's name, or the answer where they can't be had.
fn asked_words(alloc: Global, rt: &(impl Env + AllocGlobal)) -> Result<Vec<String>, Outcome> {
    match program_words(alloc, rt) {
        Ok(words) => Ok(words),
        Err(e) => Err(Outcome::from(e)),
    }
}

/// Answers the words, and puts the line of the answer on `err`.
fn answer<F: Shelf, O: Sink, E: Sink, L: Ledger>(
    alloc: Global,
    words: Result<Vec<String>, Outcome>,
    shelf: &mut F,
    out: &mut O,
    err: &mut E,
    steps: &mut Steps<L>,
) -> Outcome
    ensures answer { IsAnswer words
        (record {
          told = F.told shelf.old;
          before = F.faults shelf.old;
          now = F.faults shelf.new;
          last = F.last_fault shelf.new;
        })
        (record { old = O.taken out.old; new = O.taken out.new; before = O.faults out.old; now = O.faults out.new })
        result }
    ensures line { PutsLine (E.taken err.old) (E.taken err.new) (E.faults err.old) (E.faults err.new) (message result) }
{
    match words {
        Ok(words) => run(alloc, &words, shelf, out, err, steps),
        Err(outcome) => {
            // a fault of standard error has no other place to be told
            let _ = put_message(err, &outcome);
            outcome
        }
    }
}

/// Answers the words with a counter of its own, and gives the status that the program ends with: that of what `run`
/// answers to these words, with all that it says of its answer, whose line was put on `err`.
fn end<F: Shelf, O: Sink, E: Sink, L: Ledger>(
    alloc: Global,
    words: Result<Vec<String>, Outcome>,
    shelf: &mut F,
    out: &mut O,
    err: &mut E,
    token: Blank,
) -> ExitCode
    requires name { token.name ≡ L.name }
    requires parts { token.parts ≡ L.parts }
    requires some { 0 < L.parts }
    ensures { (answer : Outcome) × IsAnswer words
        (record {
          told = F.told shelf.old;
          before = F.faults shelf.old;
          now = F.faults shelf.new;
          last = F.last_fault shelf.new;
        })
        (record { old = O.taken out.old; new = O.taken out.new; before = O.faults out.old; now = O.faults out.new })
        answer
        × EndsWith answer (E.taken err.old) (E.taken err.new) (E.faults err.old) (E.faults err.new) result }
{
    let mut steps = Steps::<L>::zero(token);
    ExitCode::from(answer(alloc, words, shelf, out, err, &mut steps).status())
}

/// Formats what the words of the command line ask for, with the real files and the standard streams, and gives the
/// status that the program ends with.
pub(crate) fn program(rt: &HostRuntime) -> ExitCode {
    let alloc = rt.alloc();
    let mut shelf = DirShelf::new(alloc, rt);
    let mut out = StdSink::new(rt, rt.stdout());
    let mut err = StdSink::new(rt, rt.stderr());
    let words = asked_words(alloc, rt);
    end::<_, _, _, Brand>(alloc, words, &mut shelf, &mut out, &mut err, Blank::new(1))
}
