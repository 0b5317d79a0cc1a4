//! The program as a function of a runtime.

use crate::message::put_message;
use crate::outcome::Outcome;
use crate::run::run;
use bk_io::dir_shelf::DirShelf;
use bk_io::std_sink::StdSink;
use std::process::ExitCode;
use words::program_words;

/// Reports what the words of the command line ask for, with the real files and the standard streams, and gives the
/// status that the program ends with.
pub(crate) fn program(rt: &HostRuntime) -> ExitCode {
    let alloc = rt.alloc();
    let mut shelf = DirShelf::new(alloc, rt);
    let mut out = StdSink::new(rt, rt.stdout());
    let mut err = StdSink::new(rt, rt.stderr());
    let outcome = match program_words(alloc, rt) {
        Ok(words) => run(alloc, &words, &mut shelf, &mut out, &mut err),
        Err(e) => {
            let outcome = Outcome::from(e);
            // a fault of standard error has no other place to be told
            let _ = put_message(&mut err, outcome);
            outcome
        }
    };
    ExitCode::from(outcome.status())
}
