// The MAC of the top of the tree over a list of blocks.
ghost use Rattle.std.specs.Prelude.{◌≡◌, ◌≤◌, ◌<◌, ◌^◌, length, IfOk, is_none};
ghost use Rattle.std.specs.List.{flat_map, list_all};
ghost use Rattle.indirect_macs.specs.Entries.{block_under_mac, node_under_mac};
ghost use Rattle.indirect_macs.specs.Nodes.{mac_of};
ghost use Rattle.indirect_macs.specs.Fold.{filled_up, fold_mac, group_at, group_count, group_mac, group_macs};

use crate::entry::{update_block, update_node};
use crate::node::{ENTRIES, cut};
use crate::refs::BlockRef;
use sha2::{Digest, Sha512};
use shelf_store::NoMemory;
use std::alloc::Global;

pub fn are_holes<T>(entries: &[Option<T>]) -> bool
    ensures { result ≡ list_all is_none entries.now }
{
    entries.iter().all(|entry| entry.is_none())
}

// Entries with holes behind them, up to a node's number.
fn filled_up<T: Copy>(group: &[Option<T>]) -> [Option<T>; 32]
    requires { length group.now ≤ 32 }
    ensures { result ≡ filled_up group.now }
{
    let mut entries = [None; ENTRIES];
    entries[..group.len()].copy_from_slice(group);
    entries
}

// The MAC of the node of level 1 over these blocks.
pub fn blocks_mac(entries: &[Option<BlockRef>]) -> [u8; 16]
    ensures { result ≡ mac_of 1 (flat_map block_under_mac entries.now) }
{
    let mut hasher = Sha512::new();
    hasher.update(&[1]);
    'entries: for entry in entries {
        update_block(&mut hasher, entry);
    }
    cut(&hasher.finalize())
}

// The MAC of the node of this level over nodes of these MACs.
fn nodes_mac(entries: &[Option<[u8; 16]>], level: u8) -> [u8; 16]
    ensures { result ≡ mac_of level (flat_map node_under_mac entries.now) }
{
    let mut hasher = Sha512::new();
    hasher.update(&[level]);
    'entries: for entry in entries {
        update_node(&mut hasher, entry);
    }
    cut(&hasher.finalize())
}

// The MAC of the node of level 1 over these blocks, or None where all are holes.
#[tactic(auto, unfolding(crate::specs::Fold::group_mac))]
fn block_group_mac(group: &[Option<BlockRef>]) -> Option<[u8; 16]>
    requires { length group.now ≤ 32 }
    ensures { result ≡ group_mac 1 block_under_mac group.now }
{
    if are_holes(group) {
        return None;
    }
    Some(blocks_mac(&filled_up(group)))
}

// The MAC of the node of this level over nodes of these MACs, or None where all are holes.
#[tactic(auto, unfolding(crate::specs::Fold::group_mac))]
fn node_group_mac(group: &[Option<[u8; 16]>], level: u8) -> Option<[u8; 16]>
    requires { length group.now ≤ 32 }
    ensures { result ≡ group_mac level node_under_mac group.now }
{
    if are_holes(group) {
        return None;
    }
    Some(nodes_mac(&filled_up(group), level))
}

// How many groups of 32 there are; an empty list is one group.
fn group_count(entries: usize) -> usize
    ensures { result ≡ group_count entries }
{
    entries.div_ceil(ENTRIES).max(1)
}

// The entries of a group, of which the last may have fewer.
fn group_at<T>(entries: &[T], group: usize) -> &[T]
    requires { length entries.now < 2 ^ 63 }
    ensures entries { result.now ≡ group_at entries.now group }
    ensures bound { length result.now ≤ 32 }
{
    let count = entries.len();
    let start = count.min(ENTRIES.saturating_mul(group));
    let end = count.min(start + ENTRIES);
    &entries[start..end]
}

fn block_group_macs(
    alloc: Global,
    refs: &[Option<BlockRef>],
) -> Result<Vec<Option<[u8; 16]>>, NoMemory>
    ensures { IfOk result (λ macs. macs.items ≡ group_macs 1 block_under_mac refs.now) }
{
    let mut macs = Vec::new(alloc);
    'groups: for group in 0..group_count(refs.len()) {
        macs.push(block_group_mac(group_at(refs, group)))?;
    }
    Ok(macs)
}

fn node_group_macs(
    alloc: Global,
    below: &[Option<[u8; 16]>],
    level: u8,
) -> Result<Vec<Option<[u8; 16]>>, NoMemory>
    ensures { IfOk result (λ macs. macs.items ≡ group_macs level node_under_mac below.now) }
{
    let mut macs = Vec::new(alloc);
    'groups: for group in 0..group_count(below.len()) {
        macs.push(node_group_mac(group_at(below, group), level))?;
    }
    Ok(macs)
}

/// The MAC of the top of the tree over these blocks, of which None are holes. It is None where the
/// top is a hole.
pub fn fold_mac(alloc: Global, refs: &[Option<BlockRef>]) -> Result<Option<[u8; 16]>, NoMemory>
    ensures { IfOk result (λ mac. mac ≡ fold_mac refs.now) }
{
    let mut macs = block_group_macs(alloc, refs)?;
    let mut level = 1;
    'levels: while macs.len() > 1 {
        level += 1;
        macs = node_group_macs(alloc, &macs, level)?;
    }
    Ok(macs[0])
}
