// Nodes of given entries, as they are put on a shelf.
ghost use Rattle.std.specs.Prelude.{◌≡◌, ℕ, ◌≤◌, List, [], ◌∷◌, ◌++◌, length, map, replicate, Option, IfOk, OnErr};
ghost use Rattle.std.specs.List.{flat_map};
ghost use Rattle.std.specs.Option.{option_map};
ghost use Rattle.shelf_store.specs.ShelfState.{ShelfState, counted};
ghost use Rattle.indirect_macs.specs.Entries.{block_entry, node_entry, node_under_mac};
ghost use Rattle.indirect_macs.specs.Nodes.{block_node, mac_of, ref_node};
ghost use Rattle.indirect_macs.specs.Runs.{inner_of, leaf_of, puts_with, ref_with};
ghost use Rattle.indirect_macs.specs.Steps.{HasPut, Puts};

use crate::entry::{BLOCK_ENTRY_LEN, NODE_ENTRY_LEN, update_node};
use crate::fold::{are_holes, blocks_mac};
use crate::node::{ENTRIES, cut};
use crate::refs::{BlockRef, MacError, NodeRef};
use byte_fields::{put_u32, put_u64};
use sha2::{Digest, Sha512};
use shelf_store::{Shelf, ShelfError};

// Writes a reference to a block as an entry.
fn put_block(entry: &mut [u8], block: &Option<BlockRef>)
    requires { entry.old ≡ replicate 49 0 }
    ensures { entry.new ≡ block_entry block.now }
{
    let Some(block) = block else {
        return;
    };
    entry[33..49].copy_from_slice(&block.mac);
    entry[21..33].copy_from_slice(&block.iv);
    entry[13..21].copy_from_slice(&block.salt);
    put_u64(entry, 5, block.addr);
    put_u32(entry, 1, block.size);
    entry[0] = 1;
}

fn put_ref(entry: &mut [u8], node: &Option<NodeRef>)
    requires { entry.old ≡ replicate 25 0 }
    ensures { entry.new ≡ node_entry node.now }
{
    let Some(node) = node else {
        return;
    };
    entry[9..25].copy_from_slice(&node.mac);
    put_u64(entry, 1, node.addr);
    entry[0] = 1;
}

fn leaf_bytes(entries: &[Option<BlockRef>; 32]) -> [u8; ENTRIES * BLOCK_ENTRY_LEN]
    ensures { result ≡ block_node entries.now }
{
    let mut bytes = [0; ENTRIES * BLOCK_ENTRY_LEN];
    'entries: for slot in 0..ENTRIES {
        let at = BLOCK_ENTRY_LEN * slot;
        put_block(&mut bytes[at..at + BLOCK_ENTRY_LEN], &entries[slot]);
    }
    bytes
}

fn inner_bytes(entries: &[Option<NodeRef>; 32]) -> [u8; ENTRIES * NODE_ENTRY_LEN]
    ensures { result ≡ ref_node entries.now }
{
    let mut bytes = [0; ENTRIES * NODE_ENTRY_LEN];
    'entries: for slot in 0..ENTRIES {
        let at = NODE_ENTRY_LEN * slot;
        put_ref(&mut bytes[at..at + NODE_ENTRY_LEN], &entries[slot]);
    }
    bytes
}

fn mac_in(entry: &Option<NodeRef>) -> Option<[u8; 16]>
    ensures { result ≡ option_map (λ r. r.mac) entry.now }
{
    match entry {
        Some(node) => Some(node.mac),
        None => None,
    }
}

// The MAC of the node of this level of these entries.
fn inner_mac(entries: &[Option<NodeRef>; 32], level: u8) -> [u8; 16]
    ensures { result ≡ mac_of level (flat_map node_under_mac (map (option_map (λ r. r.mac)) entries.now)) }
{
    let mut hasher = Sha512::new();
    hasher.update(&[level]);
    'entries: for entry in entries {
        update_node(&mut hasher, &mac_in(entry));
    }
    cut(&hasher.finalize())
}

/// Puts a block at the end of the shelf, and gives its address.
///
/// # Errors
///
/// `ShelfFault`, `Full` and `NoMemory`, as of the shelf; then nothing was put.
pub fn put<B: Shelf>(shelf: &mut B, block: &[u8]) -> Result<u64, MacError>
    ensures address { IfOk result (λ address. address ≡ length (B.told shelf.old).sizes) }
    ensures stays { OnErr result (B.told shelf.new ≡ counted (B.told shelf.old)) }
    ensures puts { (reads : ℕ) (before : List (List ℕ)) (start : ShelfState)
        → HasPut reads before start (B.told shelf.old)
        → Puts reads (before ++ block.now ∷ []) result start (B.told shelf.new) }
{
    match shelf.put(block) {
        Ok(addr) => Ok(addr),
        Err(ShelfError::Fault) => Err(MacError::ShelfFault),
        Err(ShelfError::Full) => Err(MacError::Full),
        Err(ShelfError::NoMemory) => Err(MacError::NoMemory),
    }
}

/// Puts the node of level 1 of these entries, unless all are holes or an old one is kept.
pub fn put_leaf<B: Shelf>(
    shelf: &mut B,
    entries: &[Option<BlockRef>; 32],
    kept: &Option<NodeRef>,
) -> Result<Option<NodeRef>, MacError>
    ensures value { IfOk result (λ node. node
        ≡ ref_with (length (B.told shelf.old).sizes) (leaf_of entries.now) kept.now) }
    ensures puts { (reads : ℕ) (before : List (List ℕ)) (start : ShelfState)
        → HasPut reads before start (B.told shelf.old)
        → Puts reads (puts_with (leaf_of entries.now) kept.now before) result start (B.told shelf.new) }
{
    if are_holes(entries) {
        return Ok(None);
    }
    if let Some(old) = kept {
        return Ok(Some(*old));
    }
    match put(shelf, &leaf_bytes(entries)) {
        Ok(addr) => Ok(Some(NodeRef {
            addr,
            mac: blocks_mac(entries),
        })),
        Err(stop) => Err(stop),
    }
}

/// Puts the node of a level above 1 of these entries, unless all are holes or an old one is kept.
pub fn put_inner<B: Shelf>(
    shelf: &mut B,
    level: u8,
    entries: &[Option<NodeRef>; 32],
    kept: &Option<NodeRef>,
) -> Result<Option<NodeRef>, MacError>
    ensures value { IfOk result (λ node. node
        ≡ ref_with (length (B.told shelf.old).sizes) (inner_of level entries.now) kept.now) }
    ensures puts { (reads : ℕ) (before : List (List ℕ)) (start : ShelfState)
        → HasPut reads before start (B.told shelf.old)
        → Puts reads (puts_with (inner_of level entries.now) kept.now before) result start (B.told shelf.new) }
{
    if are_holes(entries) {
        return Ok(None);
    }
    if let Some(old) = kept {
        return Ok(Some(*old));
    }
    match put(shelf, &inner_bytes(entries)) {
        Ok(addr) => Ok(Some(NodeRef {
            addr,
            mac: inner_mac(entries, level),
        })),
        Err(stop) => Err(stop),
    }
}
