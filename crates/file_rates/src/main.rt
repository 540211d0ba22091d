//! Seals and opens blocks, and writes and reads a file of a dataset in memory, as often as a line of standard input
//! says: what `bench/files` measures.
//!
//! A line is `WHAT SIZE COUNT`, where SIZE is the record size, 4096 or 131072. `seal` and `open` take so many blocks
//! of that size; `write` writes so many pieces of 1 MiB one behind the other, and `read` reads them too. A line is
//! answered by how many bytes these are, or by `error: ..`.
#![tactic(auto)]

ghost use Rattle.std.specs.Prelude.{◌≤◌};
ghost use Rattle.family_log.specs.Tables.{IsRecordSize};

mod bare;
mod store;

use crate::bare::{opened, sealed};
use crate::store::Store;
use anyhow::{Context, Result, bail};
use std::alloc::Global;
use std::io::{BufRead, BufReader};

fn main(rt: HostRuntime) -> Result<()> {
    for line in BufReader::new(rt.alloc(), rt.reader())?.lines(rt.alloc()) {
        let line = line?;
        match answer(rt.alloc(), &line) {
            Ok(bytes) => println!(rt; "{bytes}")?,
            Err(error) => println!(rt; "error: {error}")?,
        }
    }
    Ok(())
}

/// How many bytes a line is about.
fn answer(alloc: Global, line: &str) -> Result<u64> {
    let (what, numbers) = line.split_once(' ').context("three words are wanted")?;
    let (size, count) = numbers.split_once(' ').context("three words are wanted")?;
    let count = count.parse().context("the count is a number")?;
    match size {
        "4096" => carried_out(alloc, what, 4096, count),
        "131072" => carried_out(alloc, what, 131_072, count),
        _ => bail!("the record size is 4096 or 131072"),
    }
}

fn carried_out(alloc: Global, what: &str, size: u32, count: u32) -> Result<u64>
    requires record_size { IsRecordSize size }
    requires block { size ≤ 131072 }
{
    match what {
        "seal" => sealed(alloc, size, count),
        "open" => opened(alloc, size, count),
        "write" => Store::make(alloc, size)?.write(count),
        "read" => {
            let mut store = Store::make(alloc, size)?;
            store.write(count)?;
            store.read(count)
        },
        _ => bail!("seal, open, write or read is wanted"),
    }
}
