//! The program that tells what of a book's sheets has no reading.
#![tactic(auto)]

mod command;
mod message;
mod outcome;
mod report;
mod run;
mod text;

use command::program;
use std::process::ExitCode;

fn main(rt: HostRuntime) -> ExitCode {
    program(&rt)
}
