// Reading and testing the blocks of an object.
ghost use Rattle.std.specs.Prelude.{◌≡◌, ◌<◌, ◌≤◌, ◌^◌, ◌+◌, ◌-◌, ◌*◌, [], length, IfOk, IfSome, OnOk};
ghost use Rattle.file_blocks.specs.Objects.{Gives, IsInRange, IsObject, Reading, blocks_for, count_touched, first_touched, object_range, tested_blocks};

use crate::block::read_block;
use crate::group::NO_GROUP;
use crate::object::Object;
use crate::text::append;
use block_crypt::BlockKey;
use indirect_macs::{MacError, ObjTree};
use shelf_store::Shelf;
use std::alloc::Global;

/// How many blocks an object of this length has.
pub(crate) fn blocks_for(block: u32, bytes: u64) -> u32
    requires above { 512 ≤ block }
    requires small { bytes ≤ 4294967296 }
    ensures value { result ≡ blocks_for block bytes }
    ensures bound { result ≤ 8388608 }
{
    bytes.div_ceil(u64::from(block)) as u32
}

// The first of the blocks that hold the bytes from one place up to another.
fn first_touched(block: u32, from: u64) -> u32
    requires above { 512 ≤ block }
    requires small { from ≤ 4294967296 }
    ensures value { result ≡ first_touched block from }
    ensures bound { result ≤ 8388608 }
{
    (from / u64::from(block)) as u32
}

// How many these are.
#[tactic(auto, unfolding(crate::specs::Objects::count_touched))]
fn count_touched(block: u32, from: u64, end: u64) -> u32
    requires above { 512 ≤ block }
    requires order { from ≤ end }
    requires small { end ≤ 4294967296 }
    ensures value { result ≡ count_touched block from end }
    ensures bound { result ≤ 8388608 }
{
    if from < end {
        ((end - 1) / u64::from(block) - from / u64::from(block)) as u32 + 1
    } else {
        0
    }
}

// Adds the bytes from one place up to another, block by block. `buffer` has the record size.
fn read_into<K: BlockKey, B: Shelf>(
    key: &K,
    shelf: &mut B,
    object: &Object,
    block: u32,
    from: u64,
    end: u64,
    buffer: &mut [u8],
    out: &mut Vec<u8>,
) -> Result<(), MacError>
    requires object { IsObject block object.now }
    requires above { 512 ≤ block }
    requires small { block ≤ 131072 }
    requires order { from ≤ end }
    requires within { end ≤ object.now.length }
    requires fits { length buffer.old ≡ block }
    requires empty { out.old.items ≡ [] }
    ensures reading { Reading ((object.now.tree.levels + 1) * count_touched block from end)
        (IsInRange object.now.tree.levels (first_touched block from) (count_touched block from end))
        result (B.told shelf.old) (B.told shelf.new) }
    ensures size { OnOk result (length out.new.items ≡ end - from) }
    ensures told { IfSome (B.told shelf.old).held (λ held. Gives (λ _. out.new.items)
        (object_range (K.told key.now) held block object.now.tree from end) result) }
{
    let first = first_touched(block, from);
    let count = count_touched(block, from, end);
    let skip = (from % u64::from(block)) as usize;
    let upto = skip + (end - from) as usize;
    let width = block as usize;
    let mut group = NO_GROUP;
    'each: for k in 0..count {
        let base = k as usize * width;
        let index = first + k;
        if let Err(stop) = read_block(key, shelf, &object.tree, index, block, &mut group, buffer) {
            return Err(stop);
        }
        let part = &buffer[skip.saturating_sub(base)..width.min(upto - base)];
        if let Err(stop) = append(out, part) {
            return Err(stop);
        }
    }
    Ok(())
}

/// The bytes of an object from one place up to another, where `block` is the record size.
///
/// The blocks that hold them are read in ascending order: the nodes over them from the top down, once
/// for each group of 32, and then each block. Zeros stand for a hole and for what lies behind the bytes
/// that a block stores. No block is touched where the range is empty.
///
/// # Errors
///
/// `MacFailed` with the first place over a block, from the top, that fails its test, of the first
/// block that fails: the level 0 and its index where it is the block itself. `ShelfFault` exactly
/// where one of the reads is the call whose failure was armed. `NoMemory` where there is none for the
/// bytes, or for one block. It is never `Full`, and changes nothing that the shelf holds.
pub fn read_range<K: BlockKey, B: Shelf>(
    alloc: Global,
    key: &K,
    shelf: &mut B,
    object: &Object,
    block: u32,
    from: u64,
    end: u64,
) -> Result<Vec<u8>, MacError>
    requires object { IsObject block object.now }
    requires above { 512 ≤ block }
    requires small { block ≤ 131072 }
    requires order { from ≤ end }
    requires within { end ≤ object.now.length }
    ensures reading { Reading ((object.now.tree.levels + 1) * count_touched block from end)
        (IsInRange object.now.tree.levels (first_touched block from) (count_touched block from end))
        result (B.told shelf.old) (B.told shelf.new) }
    ensures size { IfOk result (λ bytes. length bytes.items ≡ end - from) }
    ensures told { IfSome (B.told shelf.old).held (λ held. Gives (λ bytes. bytes.items)
        (object_range (K.told key.now) held block object.now.tree from end) result) }
{
    let mut buffer = vec![in alloc; 0; block as usize]?;
    let mut bytes = Vec::with_capacity(alloc, (end - from) as usize)?;
    match read_into(
        key,
        shelf,
        object,
        block,
        from,
        end,
        buffer.as_mut_slice(),
        &mut bytes,
    ) {
        Ok(()) => Ok(bytes),
        Err(stop) => Err(stop),
    }
}

// Reads each of the first blocks, so many, and counts those that are no holes. `buffer` has the
// record size.
fn test_into<K: BlockKey, B: Shelf>(
    key: &K,
    shelf: &mut B,
    tree: &ObjTree,
    block: u32,
    blocks: u32,
    buffer: &mut [u8],
) -> Result<u64, MacError>
    requires above { 1 ≤ tree.now.levels }
    requires levels { tree.now.levels ≤ 5 }
    requires within { blocks ≤ 32 ^ tree.now.levels }
    requires small { block ≤ 131072 }
    requires fits { length buffer.old ≡ block }
    ensures reading { Reading ((tree.now.levels + 1) * blocks) (IsInRange tree.now.levels 0 blocks) result
        (B.told shelf.old) (B.told shelf.new) }
    ensures bound { IfOk result (λ count. count ≤ blocks) }
    ensures told { IfSome (B.told shelf.old).held (λ held. Gives (λ count. count)
        (tested_blocks (K.told key.now) held block tree.now blocks) result) }
{
    let mut count = 0;
    let mut group = NO_GROUP;
    'each: for k in 0..blocks {
        match read_block(key, shelf, tree, k, block, &mut group, buffer) {
            Ok(stored) => count += u64::from(stored.is_some()),
            Err(stop) => return Err(stop),
        }
    }
    Ok(count)
}

/// Tests every block of an object, where `block` is the record size: gives how many blocks it has
/// that are no holes, where each passes.
///
/// The blocks are read as `read_range` reads them, from the first to the last.
///
/// # Errors
///
/// As `read_range` over the whole object.
pub fn test_blocks<K: BlockKey, B: Shelf>(
    alloc: Global,
    key: &K,
    shelf: &mut B,
    object: &Object,
    block: u32,
) -> Result<u64, MacError>
    requires object { IsObject block object.now }
    requires above { 512 ≤ block }
    requires small { block ≤ 131072 }
    ensures reading { Reading ((object.now.tree.levels + 1) * blocks_for block object.now.length)
        (IsInRange object.now.tree.levels 0 (blocks_for block object.now.length)) result
        (B.told shelf.old) (B.told shelf.new) }
    ensures bound { IfOk result (λ count. count ≤ blocks_for block object.now.length) }
    ensures told { IfSome (B.told shelf.old).held (λ held. Gives (λ count. count)
        (tested_blocks (K.told key.now) held block object.now.tree (blocks_for block object.now.length)) result) }
{
    let mut buffer = vec![in alloc; 0; block as usize]?;
    let blocks = blocks_for(block, object.length);
    test_into(
        key,
        shelf,
        &object.tree,
        block,
        blocks,
        buffer.as_mut_slice(),
    )
}
