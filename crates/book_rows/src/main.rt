//! Runs the books of files and prints the files again, each book with what its run gave in place of what is wanted of
//! it. So the output is a copy of the files, and what differs is a wrong answer.
#![tactic(auto)]

mod books;
mod faults;
mod files;
mod levels;
mod runs;
mod streams;

use bk_num::name::NoMem;
use std::io::{Error, ErrorKind};
use std::{env, fs};

/// A file with answers in place of those that are wanted: of its books, or of its rows about files and streams.
fn answered(rt: &HostRuntime, name: &str, text: &str) -> Result<String, NoMem> {
    if name.ends_with(".rows") {
        streams::answered(rt, text)
    } else {
        books::answered(rt.alloc(), text)
    }
}

/// Prints a file with its answers.
fn print_file(rt: &HostRuntime, name: &str) -> Result<(), Error> {
    let text = fs::read_to_string(rt, name)?;
    match answered(rt, name, text.as_str()) {
        Ok(printed) => rt.print(printed),
        Err(NoMem) => Err(Error::from(ErrorKind::OutOfMemory)),
    }
}

fn main(rt: HostRuntime) -> Result<(), Error> {
    for name in env::args(&rt)?.skip(1) {
        print_file(&rt, name.as_str())?;
    }
    Ok(())
}
