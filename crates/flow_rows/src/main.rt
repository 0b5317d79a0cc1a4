//! Worked rows of flows: trees of boxes, texts and their lines, plans, seams, frames. A line of standard input is
//! `CALL|PART|PART.. => ANSWER`, with the answer that is wanted; it is printed again with the answer that the library
//! gives. So the file `stdout` is a copy of `stdin`, and what differs is a wrong answer.
#![tactic(auto)]

mod answers;
mod breaks;
mod documents;
mod flows;
mod leaves;
mod lines;
mod pages;
mod plain;
mod plans;
mod seam_rows;
mod trees;

use std::io;

fn main(rt: HostRuntime) -> io::Result<()> {
    for line in rt.lines(rt.alloc()) {
        rt.println(answers::answered(rt.alloc(), line?.as_str())?)?;
    }
    Ok(())
}
