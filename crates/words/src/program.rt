//! The words that the program is called with.

ghost use Rattle.std.specs.Prelude.{◌≡◌, drop};

use crate::fault::{WordsErr, WordsFault};
use std::alloc::Global;
use std::env::{self, Env};
use std::io::ErrorKind;

/// The words after the first one, which is the program's name.
fn after_name(mut words: Vec<String>) -> Vec<String>
    ensures { result.items ≡ drop 1 words.items }
{
    if !words.is_empty() {
        let _name = words.remove(0);
    }
    words
}

/// The words of the command line after the program's name. What the system gives is trusted, not proved.
///
/// # Errors
///
/// `NoMemory`, or `Refused` where the words can't be had.
pub fn program_words(
    alloc: Global,
    rt: &(impl Env + AllocGlobal),
) -> Result<Vec<String>, WordsErr> {
    match env::args(rt) {
        Ok(args) => match args.collect(alloc) {
            Ok(words) => Ok(after_name(words)),
            Err(_) => Err(WordsErr::NoMemory),
        },
        Err(e) if e.kind() == ErrorKind::OutOfMemory => Err(WordsErr::NoMemory),
        Err(_) => Err(WordsErr::Fault(WordsFault::Refused)),
    }
}
