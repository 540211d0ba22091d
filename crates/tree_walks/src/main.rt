//! Looks up the last block of a tree over 8388608 blocks, as often as a line of standard input says.
//!
//! The tree has five levels and is a hole but for its last block. Each line is answered by how many of the
//! lookups found the block, or by `error: ..`.
#![tactic(auto)]

use anyhow::{Context, Result, bail};
use indirect_macs::{BlockRef, MacError, ObjTree, lookup, replace_run};
use shelf_store::{MemShelf, Shelf};
use std::alloc::Global;
use std::io::{BufRead, BufReader};

const BLOCKS: u32 = 8_388_608;

const LAST: u32 = BLOCKS - 1;

const RECORD_SIZE: u32 = 512;

const LAST_BLOCK: BlockRef = BlockRef {
    size: 512,
    addr: 0,
    salt: [1; 8],
    iv: [2; 12],
    mac: [3; 16],
};

fn main(rt: HostRuntime) -> Result<()> {
    for line in BufReader::new(rt.alloc(), rt.reader())?.lines(rt.alloc()) {
        let line = line?;
        match found(rt.alloc(), &line) {
            Ok(found) => println!(rt; "{found}")?,
            Err(error) => println!(rt; "error: {error}")?,
        }
    }
    Ok(())
}

/// How many of the lookups that a line asks for found the block.
fn found(alloc: Global, line: &str) -> Result<u32> {
    let count = line.parse().context("a number is wanted")?;
    let mut shelf = MemShelf::fresh(alloc)?;
    let empty = ObjTree {
        levels: 5,
        top: None,
    };
    let refs = [Some(LAST_BLOCK)];
    match replace_run(alloc, &empty, &mut shelf, BLOCKS, LAST, &refs, RECORD_SIZE) {
        Ok(tree) => look_up(&tree, &mut shelf, count),
        Err(MacError::NoMemory) => bail!("no memory"),
        Err(_) => bail!("the tree could not be made"),
    }
}

/// How many of `count` lookups of the last block of a tree of five levels found it.
fn look_up(tree: &ObjTree, shelf: &mut MemShelf, count: u32) -> Result<u32> {
    if tree.levels != 5 {
        bail!("a tree of five levels is wanted");
    }
    let mut found = 0u32;
    'lookups: for _ in 0..count {
        if lookup(tree, shelf, LAST, RECORD_SIZE) == Ok(Some(LAST_BLOCK)) {
            found = found.saturating_add(1);
        }
    }
    Ok(found)
}
