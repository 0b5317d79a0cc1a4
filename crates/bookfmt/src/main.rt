//! The program.
#![tactic(auto)]

mod command;

use command::program;
use std::process::ExitCode;

fn main(rt: HostRuntime) -> ExitCode {
    program(&rt)
}
