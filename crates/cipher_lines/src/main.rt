//! Prints what the cipher and key functions give, for a comparison with another tool.
//!
//! Standard input has a command a line, as `hmac1 KEY TEXT`. Bytes are in hex, no bytes are `-`, and numbers are
//! decimal. Each line is answered by one: bytes in hex, `BadTag`, or `error: ..` for a line that has no answer, after
//! which the next line is read. The status is 1 where a line can't be read or printed.
#![tactic(auto)]

mod answer;
mod block;
mod words;

use answer::answer;
use anyhow::Result;
use std::io::{BufRead, BufReader};

fn main(rt: HostRuntime) -> Result<()> {
    for line in BufReader::new(rt.alloc(), rt.reader())?.lines(rt.alloc()) {
        let line = line?;
        match answer(rt.alloc(), &line) {
            Ok(text) => println!(rt; "{text}")?,
            Err(error) => println!(rt; "error: {error}")?,
        }
    }
    Ok(())
}
