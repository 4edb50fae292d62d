//! Answers requests: a line of standard input is a request, and a line of standard output its answer.
#![tactic(auto)]

mod answer;
mod hex;
mod leaves;
mod request;

use crate::answer::answer_to;
use std::io;
use std::io::{BufRead, BufReader};

fn main(rt: HostRuntime) -> io::Result<()> {
    let heap = rt.alloc();
    for line in BufReader::new(heap, rt.stdin())?.split(heap, b'\n') {
        let answer = answer_to(heap, line?.as_slice())?;
        println!(rt; "{answer}")?;
    }
    Ok(())
}
