//! Worked rows of computed styles, of counters and of generated texts. A line of standard input is `CALL|PART|PART.. =>
//! ANSWER`, with the answer that is wanted; it is printed again with the answer that the library gives. So the file
//! `stdout` is a copy of `stdin`, and what differs is a wrong answer.
#![tactic(auto)]

mod answers;
mod counted;
mod documents;
mod properties;
mod questions;
mod texts;
mod values;

use std::io;

fn main(rt: HostRuntime) -> io::Result<()> {
    for line in rt.lines(rt.alloc()) {
        rt.println(answers::answered(rt.alloc(), line?.as_str())?)?;
    }
    Ok(())
}
