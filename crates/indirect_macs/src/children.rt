// The old tree below the touched nodes, read from the top down.
ghost use Rattle.std.specs.Prelude.{◌≡◌, ℕ, ◌+◌, ◌-◌, ◌*◌, ◌^◌, ◌<◌, ◌≤◌, ◌++◌, List, Option, false, length, map, take, Some, None, Ok, Err, IfSome, IfOk, IfErr};
ghost use Rattle.indirect_macs.specs.Entries.{block_at, node_at};
ghost use Rattle.indirect_macs.specs.Nodes.{entry_at, slots};
ghost use Rattle.indirect_macs.specs.Calls.{is_fault};
ghost use Rattle.indirect_macs.specs.RunFields.{run_of};
ghost use Rattle.indirect_macs.specs.Runs.{child_of, count_at, entries_at, first_at, found_at, old_of, or_hole};
ghost use Rattle.indirect_macs.specs.Steps.{AllWalk, IsLeaf, IsLeafAdded, IsMacFailed, IsRange, IsStop, Reads, StopsAt, failure_of, spread};

use crate::entry::{BLOCK_ENTRY_LEN, NODE_ENTRY_LEN, block_at, node_at};
use crate::node::ENTRIES;
use crate::refs::{BlockRef, MacError, NodeRef};
use crate::run::Run;
use crate::span::first_at;
use crate::walk::read_node;
use shelf_store::Shelf;
use std::alloc::Global;

/// What the walk to a node finds in the node above it, or where it fails.
pub type Found = Result<Option<NodeRef>, MacError>;

pub fn or_hole(found: &Found) -> Option<NodeRef>
    ensures { result ≡ or_hole found.now }
{
    match found {
        Ok(node) => *node,
        Err(_) => None,
    }
}

// The place at which a walk fails.
fn failure(found: &Found) -> Option<MacError>
    ensures value { result ≡ failure_of found.now }
    ensures quiet { IfSome result (λ failed. IsMacFailed failed) }
{
    match found {
        Err(MacError::MacFailed { level, index }) => Some(MacError::MacFailed {
            level: *level,
            index: *index,
        }),
        _ => None,
    }
}

// The first block over a node.
fn block_over(level: u8, index: u32) -> u32
    requires levels { level ≤ 5 }
    requires fits { index * 32 ^ level < 2 ^ 32 }
    ensures { result ≡ index * 32 ^ level }
{
    index << (5 * u32::from(level))
}

// The references in a node above level 1.
fn refs_in(node: &[u8; ENTRIES * NODE_ENTRY_LEN]) -> [Found; 32]
    ensures { (level : ℕ) → 2 ≤ level → result ≡ map (λ slot. Ok (node_at (entry_at level node.now slot))) slots }
{
    let mut found = [Ok(None); ENTRIES];
    'entries: for slot in 0..ENTRIES {
        let at = NODE_ENTRY_LEN * slot;
        found[slot] = Ok(node_at(&node[at..at + NODE_ENTRY_LEN]));
    }
    found
}

// The references in a node of level 1.
pub fn blocks_in(node: &[u8; ENTRIES * BLOCK_ENTRY_LEN]) -> [Option<BlockRef>; 32]
    ensures { result ≡ map (λ slot. block_at (entry_at 1 node.now slot)) slots }
{
    let mut blocks = [None; ENTRIES];
    'entries: for slot in 0..ENTRIES {
        let at = BLOCK_ENTRY_LEN * slot;
        blocks[slot] = block_at(&node[at..at + BLOCK_ENTRY_LEN]);
    }
    blocks
}

// What is found below a node above the old top: only the first of the lowest of these has something,
// the old top.
fn found_above(run: &Run, level: u8, index: u32) -> [Found; 32]
    requires above { run.now.tree.levels < level }
    ensures { (held : List (List ℕ))
        → result ≡ entries_at (found_at held run.now.block (run_of run.now) (level - 1)) index }
{
    let mut found = [Ok(None); ENTRIES];
    if level == run.tree.levels + 1 && index == 0 {
        found[0] = Ok(run.tree.top);
    }
    found
}

// A node that fails is where the walk to each of its children fails.
fn spread(stop: MacError) -> Result<[Found; 32], MacError>
    ensures { result ≡ spread stop }
{
    match stop {
        MacError::MacFailed { .. } => Ok([Err(stop); ENTRIES]),
        MacError::ShelfFault => Err(stop),
        MacError::Full => Err(stop),
        MacError::NoMemory => Err(stop),
    }
}

// What is found below a node of the old tree.
fn found_in<B: Shelf>(
    run: &Run,
    shelf: &mut B,
    level: u8,
    index: u32,
    node: &NodeRef,
) -> Result<[Found; 32], MacError>
    requires above { 2 ≤ level }
    requires levels { level ≤ 5 }
    requires fits { index * 32 ^ level < 2 ^ 32 }
    ensures reads { Reads 1 (is_fault result) (B.told shelf.old) (B.told shelf.new) }
    ensures stops { IfErr result IsStop }
    ensures told { IfSome (B.told shelf.old).held (λ held.
        IfOk result (λ found. found ≡ entries_at (λ i. child_of held run.now.block level i (Some node.now)) index)) }
{
    let mut bytes = [0; ENTRIES * NODE_ENTRY_LEN];
    match read_node(
        shelf,
        node,
        level,
        block_over(level, index),
        run.block,
        &mut bytes,
    ) {
        Ok(()) => Ok(refs_in(&bytes)),
        Err(stop) => spread(stop),
    }
}

// What is found below a place of the old tree.
fn found_from<B: Shelf>(
    run: &Run,
    shelf: &mut B,
    level: u8,
    index: u32,
    node: &Option<NodeRef>,
) -> Result<[Found; 32], MacError>
    requires above { 2 ≤ level }
    requires levels { level ≤ run.now.tree.levels }
    requires fits { index * 32 ^ level < 2 ^ 32 }
    ensures reads { Reads 1 (is_fault result) (B.told shelf.old) (B.told shelf.new) }
    ensures stops { IfErr result IsStop }
    ensures told { IfSome (B.told shelf.old).held (λ held. Ok node.now
        ≡ found_at held run.now.block (run_of run.now) level index
        → IfOk result (λ found. found ≡ entries_at (found_at held run.now.block (run_of run.now) (level - 1)) index)) }
{
    match node {
        Some(node) => found_in(run, shelf, level, index, node),
        None => Ok([Ok(None); ENTRIES]),
    }
}

// What is found below a node to which the walk came.
fn found_below<B: Shelf>(
    run: &Run,
    shelf: &mut B,
    level: u8,
    index: u32,
    found: &Found,
) -> Result<[Found; 32], MacError>
    requires above { 2 ≤ level }
    requires levels { level ≤ 5 }
    requires fits { index * 32 ^ level < 2 ^ 32 }
    ensures reads { Reads 1 (is_fault result) (B.told shelf.old) (B.told shelf.new) }
    ensures hole { run.now.tree.levels < level → B.told shelf.new ≡ B.told shelf.old }
    ensures quiet { run.now.tree.levels < level → is_fault result ≡ false }
    ensures stops { IfErr result IsStop }
    ensures told { IfSome (B.told shelf.old).held (λ held. found.now
        ≡ found_at held run.now.block (run_of run.now) level index
        → IfOk result (λ found. found ≡ entries_at (found_at held run.now.block (run_of run.now) (level - 1)) index)) }
{
    if level > run.tree.levels {
        return Ok(found_above(run, level, index));
    }
    match found {
        Ok(node) => found_from(run, shelf, level, index, node),
        Err(failed) => Ok([Err(*failed); ENTRIES]),
    }
}

fn append<T: Copy>(list: &mut Vec<T>, more: &[T]) -> Result<(), MacError>
    ensures all { IfOk result (λ _. list.new.items ≡ list.old.items ++ more.now) }
    ensures stop { IfErr result (λ stop. stop ≡ MacError.NoMemory) }
{
    match list.extend_from_slice(more) {
        Ok(()) => Ok(()),
        Err(_) => Err(MacError::NoMemory),
    }
}

// Adds what is found below a node to which the walk came.
fn add_children<B: Shelf>(
    run: &Run,
    shelf: &mut B,
    level: u8,
    index: u32,
    found: &Found,
    children: &mut Vec<Found>,
) -> Result<(), MacError>
    requires above { 2 ≤ level }
    requires levels { level ≤ 5 }
    requires fits { index * 32 ^ level < 2 ^ 32 }
    ensures reads { Reads 1 (is_fault result) (B.told shelf.old) (B.told shelf.new) }
    ensures hole { run.now.tree.levels < level → B.told shelf.new ≡ B.told shelf.old }
    ensures quiet { run.now.tree.levels < level → is_fault result ≡ false }
    ensures stops { IfErr result IsStop }
    ensures size { IfOk result (λ _. length children.new.items ≡ length children.old.items + 32) }
    ensures told { IfSome (B.told shelf.old).held (λ held. found.now
        ≡ found_at held run.now.block (run_of run.now) level index
        → IfOk result (λ _. children.new.items ≡ children.old.items
        ++ entries_at (found_at held run.now.block (run_of run.now) (level - 1)) index)) }
{
    match found_below(run, shelf, level, index, found) {
        Ok(found) => append(children, &found),
        Err(stop) => Err(stop),
    }
}

/// What is found below the touched nodes of a level, 32 for each.
pub fn read_children<B: Shelf>(
    alloc: Global,
    run: &Run,
    shelf: &mut B,
    level: u8,
    old: &[Found],
) -> Result<Vec<Found>, MacError>
    requires above { 2 ≤ level }
    requires levels { level ≤ 5 }
    requires count { length old.now ≡ count_at (run_of run.now) level }
    ensures reads { Reads (length old.now) (is_fault result) (B.told shelf.old) (B.told shelf.new) }
    ensures hole { run.now.tree.levels < level → B.told shelf.new ≡ B.told shelf.old }
    ensures quiet { run.now.tree.levels < level → is_fault result ≡ false }
    ensures stops { IfErr result IsStop }
    ensures size { IfOk result (λ children. length children.items ≡ 32 * length old.now) }
    ensures told { IfSome (B.told shelf.old).held (λ held.
        IsRange (found_at held run.now.block (run_of run.now) level) (first_at (run_of run.now) level)
        (length old.now) old.now
        → IfOk result (λ children. IsRange (found_at held run.now.block (run_of run.now) (level - 1))
        (32 * first_at (run_of run.now) level) (32 * length old.now) children.items)) }
{
    let first = first_at(run, level);
    let mut children = Vec::new(alloc);
    'nodes: for i in 0..old.len() {
        if let Err(stop) = add_children(
            run,
            shelf,
            level,
            first + i as u32,
            &old[i],
            &mut children,
        ) {
            return Err(stop);
        }
    }
    Ok(children)
}

// The old blocks of a node of level 1 to which the walk came.
fn blocks_below<B: Shelf>(
    run: &Run,
    shelf: &mut B,
    index: u32,
    found: &Found,
) -> Result<[Option<BlockRef>; 32], MacError>
    requires fits { index * 32 < 2 ^ 32 }
    ensures reads { Reads 1 (is_fault result) (B.told shelf.old) (B.told shelf.new) }
    ensures told { IfSome (B.told shelf.old).held (λ held. found.now
        ≡ found_at held run.now.block (run_of run.now) 1 index
        → IsLeaf held run.now.block (run_of run.now) index result) }
{
    if let Some(failed) = failure(found) {
        return Err(failed);
    }
    let Some(node) = or_hole(found) else {
        return Ok([None; ENTRIES]);
    };
    let mut bytes = [0; ENTRIES * BLOCK_ENTRY_LEN];
    match read_node(shelf, &node, 1, block_over(1, index), run.block, &mut bytes) {
        Ok(()) => Ok(blocks_in(&bytes)),
        Err(stop) => Err(stop),
    }
}

// Adds the old blocks of a node of level 1 to which the walk came.
fn add_blocks<B: Shelf>(
    run: &Run,
    shelf: &mut B,
    index: u32,
    found: &Found,
    blocks: &mut Vec<Option<BlockRef>>,
) -> Result<(), MacError>
    requires fits { index * 32 < 2 ^ 32 }
    ensures reads { Reads 1 (is_fault result) (B.told shelf.old) (B.told shelf.new) }
    ensures size { IfOk result (λ _. length blocks.new.items ≡ length blocks.old.items + 32) }
    ensures told { IfSome (B.told shelf.old).held (λ held. found.now
        ≡ found_at held run.now.block (run_of run.now) 1 index
        → IsLeafAdded held run.now.block (run_of run.now) index result blocks.old.items blocks.new.items) }
{
    match blocks_below(run, shelf, index, found) {
        Ok(found) => append(blocks, &found),
        Err(stop) => Err(stop),
    }
}

/// The old blocks of the touched nodes of level 1, 32 for each.
///
/// # Errors
///
/// The failure of the first walk that fails.
pub fn read_blocks<B: Shelf>(
    alloc: Global,
    run: &Run,
    shelf: &mut B,
    old: &[Found],
) -> Result<Vec<Option<BlockRef>>, MacError>
    requires { length old.now ≡ count_at (run_of run.now) 1 }
    ensures reads { Reads (length old.now) (is_fault result) (B.told shelf.old) (B.told shelf.new) }
    ensures size { IfOk result (λ blocks. length blocks.items ≡ 32 * length old.now) }
    ensures told { IfSome (B.told shelf.old).held (λ held.
        IsRange (found_at held run.now.block (run_of run.now) 1) (first_at (run_of run.now) 1) (length old.now) old.now
        → IfOk result (λ blocks. IsRange (old_of held run.now.block (run_of run.now)).block
        (32 * first_at (run_of run.now) 1) (32 * length old.now) blocks.items
        × AllWalk held run.now.block (run_of run.now) (first_at (run_of run.now) 1) (length old.now))) }
    ensures stops { IfSome (B.told shelf.old).held (λ held.
        IsRange (found_at held run.now.block (run_of run.now) 1) (first_at (run_of run.now) 1) (length old.now) old.now
        → IfErr result (StopsAt held run.now.block (run_of run.now) (first_at (run_of run.now) 1) (length old.now))) }
{
    let first = first_at(run, 1);
    let mut blocks = Vec::new(alloc);
    'nodes: for i in 0..old.len() {
        if let Err(stop) = add_blocks(run, shelf, first + i as u32, &old[i], &mut blocks) {
            return Err(stop);
        }
    }
    Ok(blocks)
}
