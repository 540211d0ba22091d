// What a write or a cut takes over of the old texts of an object's blocks.
ghost use Rattle.std.specs.Prelude.{◌≡◌, ◌+◌, ◌*◌, ◌≤◌, ◌^◌, nat_lt, length, IfErr, IfOk, IfSome};
ghost use Rattle.std.specs.Option.{option_map};
ghost use Rattle.file_blocks.specs.Changes.{ref_in};
ghost use Rattle.file_blocks.specs.Objects.{Gives, IsInRange, Reading};
ghost use Rattle.file_blocks.specs.WriteFields.{write_of};
ghost use Rattle.file_blocks.specs.Writes.{count_of, first_of, front_at, front_from, groups_at, is_partial, new_texts, opened_as, reads_of, taken_by, taken_from, taken_in, text_over, texts_over};

use crate::block::{fails_at, open_ref};
use crate::pieces::{first_of, last_of, piece_in, start_in};
use crate::write::Write;
use block_crypt::{BlockKey, MAX_BLOCK_LEN};
use indirect_macs::{BlockRef, MacError, ObjTree, lookup};
use shelf_store::Shelf;
use std::alloc::Global;

// Whether a tree has room for the block of an index.
fn is_within(tree: &ObjTree, index: u32) -> bool
    requires { tree.now.levels ≤ 5 }
    ensures { result ≡ nat_lt index (32 ^ tree.now.levels) }
{
    index >> (5 * u32::from(tree.levels)) == 0
}

// The reference to the block of an index, or None where it is in a hole or beyond the tree.
fn ref_at<B: Shelf>(
    shelf: &mut B,
    tree: &ObjTree,
    index: u32,
    block: u32,
) -> Result<Option<BlockRef>, MacError>
    requires above { 1 ≤ tree.now.levels }
    requires levels { tree.now.levels ≤ 5 }
    ensures reading { Reading tree.now.levels (IsInRange tree.now.levels index 1) result
        (B.told shelf.old) (B.told shelf.new) }
    ensures told { IfSome (B.told shelf.old).held (λ held. Gives (λ found. found)
        (ref_in held block tree.now index) result) }
{
    if is_within(tree, index) {
        lookup(tree, shelf, index, block)
    } else {
        Ok(None)
    }
}

// What the block stores that a reference names. A size above the record size stands in no node that
// passes its test.
fn open_whole<K: BlockKey, B: Shelf>(
    alloc: Global,
    key: &K,
    shelf: &mut B,
    r: &BlockRef,
    index: u32,
    block: u32,
) -> Result<Vec<u8>, MacError>
    requires small { block ≤ MAX_BLOCK_LEN }
    ensures reading { Reading 1 (IsInRange 0 index 1) result (B.told shelf.old) (B.told shelf.new) }
    ensures size { IfOk result (λ text. length text.items ≡ r.now.size) }
    ensures bound { IfOk result (λ text. length text.items ≤ block) }
    ensures told { r.now.size ≤ block
        → IfSome (B.told shelf.old).held (λ held. Gives (λ text. text.items)
        (opened_as (K.told key.now) held index r.now) result) }
{
    if r.size > block {
        return Err(fails_at(index));
    }
    let mut text = vec![in alloc; 0; r.size as usize]?;
    match open_ref(key, shelf, r, index, text.as_mut_slice()) {
        Ok(()) => Ok(text),
        Err(stop) => Err(stop),
    }
}

fn is_partial(start: usize, end: usize, size: u32) -> bool
    ensures { result ≡ is_partial start end size }
{
    start > 0 || end < size as usize
}

// What is taken over of the block that a reference names, where bytes are written over it from a start
// up to an end. The block is read only where that is some of its bytes.
fn take_from<K: BlockKey, B: Shelf>(
    alloc: Global,
    key: &K,
    shelf: &mut B,
    found: &Option<BlockRef>,
    index: u32,
    block: u32,
    start: usize,
    end: usize,
) -> Result<Vec<u8>, MacError>
    requires small { block ≤ MAX_BLOCK_LEN }
    ensures reading { Reading 1 (IsInRange 0 index 1) result (B.told shelf.old) (B.told shelf.new) }
    ensures bound { IfOk result (λ text. length text.items ≤ block) }
    ensures told { IfSome found.now (λ r. r.size ≤ block)
        → IfSome (B.told shelf.old).held (λ held. Gives (λ text. text.items)
        (taken_from (K.told key.now) held index start end found.now) result) }
{
    let Some(r) = found else {
        return Ok(Vec::new(alloc));
    };
    if !is_partial(start, end, r.size) {
        return Ok(Vec::new(alloc));
    }
    open_whole(alloc, key, shelf, r, index, block)
}

// What a write takes over of a touched block.
fn take<K: BlockKey, B: Shelf>(
    alloc: Global,
    key: &K,
    shelf: &mut B,
    w: &Write,
    index: u32,
) -> Result<Vec<u8>, MacError>
    ensures reading { Reading (w.now.tree.levels + 1) (IsInRange w.now.tree.levels index 1) result
        (B.told shelf.old) (B.told shelf.new) }
    ensures bound { IfOk result (λ text. length text.items ≤ w.now.block) }
    ensures told { IfSome (B.told shelf.old).held (λ held. Gives (λ text. text.items)
        (taken_by (K.told key.now) held (write_of w.now) index) result) }
{
    let start = start_in(w, index);
    let end = start + piece_in(w, index).len();
    match ref_at(shelf, &w.tree, index, w.block) {
        Ok(found) => take_from(alloc, key, shelf, &found, index, w.block, start, end),
        Err(stop) => Err(stop),
    }
}

// Walks to the first block of each group of 32, so many groups from one on.
fn test_groups<B: Shelf>(
    shelf: &mut B,
    tree: &ObjTree,
    block: u32,
    from: u32,
    count: u32,
) -> Result<(), MacError>
    requires above { 1 ≤ tree.now.levels }
    requires levels { tree.now.levels ≤ 5 }
    requires few { from + count ≤ 262144 }
    ensures reading { Reading (tree.now.levels * count) (IsInRange tree.now.levels (32 * from) (32 * count)) result
        (B.told shelf.old) (B.told shelf.new) }
    ensures told { IfSome (B.told shelf.old).held (λ held. Gives (λ x. x)
        (groups_at held block tree.now from count) result) }
{
    'each: for k in 0..count {
        if let Err(stop) = ref_at(shelf, tree, 32 * (from + k), block) {
            return Err(stop);
        }
    }
    Ok(())
}

/// What a write takes over of old texts: of the first touched block, and where it isn't the same, of
/// the last. Those between are written over whole.
#[derive(Drop)]
pub struct Taken {
    pub front: Vec<u8>,
    pub back: Vec<u8>,
}

/// Reads what a write takes over of the old texts of the touched blocks.
///
/// In ascending order the nodes over each touched block are read and tested from the top down, those
/// over several blocks of a group of 32 once, and once more for the last block; and then the block, where
/// some of its stored bytes stay.
///
/// # Errors
///
/// `MacFailed` with the first place over a touched block, from the top, that fails its test, of the
/// first block that fails. `ShelfFault` exactly where one of the reads is the call whose failure was
/// armed. `NoMemory` where there is none for an old text. It is never `Full`.
pub fn read_write<K: BlockKey, B: Shelf>(
    alloc: Global,
    key: &K,
    shelf: &mut B,
    w: &Write,
) -> Result<Taken, MacError>
    ensures reading { Reading (reads_of (write_of w.now))
        (IsInRange w.now.tree.levels (first_of (write_of w.now)) (count_of (write_of w.now))) result
        (B.told shelf.old) (B.told shelf.new) }
    ensures front { IfOk result (λ taken. length taken.front.items ≤ w.now.block) }
    ensures back { IfOk result (λ taken. length taken.back.items ≤ w.now.block) }
    ensures told { IfSome (B.told shelf.old).held (λ held.
        Gives (λ taken. texts_over (write_of w.now) taken.front.items taken.back.items (count_of (write_of w.now)))
        (new_texts (K.told key.now) held (write_of w.now)) result) }
{
    let first = first_of(w);
    let last = last_of(w);
    let front = match take(alloc, key, shelf, w, first) {
        Ok(front) => front,
        Err(stop) => return Err(stop),
    };
    if last == first {
        return Ok(Taken {
            front,
            back: Vec::new(alloc),
        });
    }
    let from = first / 32 + 1;
    if let Err(stop) = test_groups(
        shelf,
        &w.tree,
        w.block,
        from,
        (last / 32).saturating_sub(from),
    ) {
        return Err(stop);
    }
    match take(alloc, key, shelf, w, last) {
        Ok(back) => Ok(Taken { front, back }),
        Err(stop) => Err(stop),
    }
}

/// Reads what a cut leaves of the last block that stays, where it stores more than stays of it.
///
/// `index` is the block's, and so many bytes of it stay. The nodes over it are read and tested from the
/// top down, and then the block, where it stores more. Gives None where nothing of it is cut off.
///
/// # Errors
///
/// As `read_write` over this block.
pub fn read_cut<K: BlockKey, B: Shelf>(
    alloc: Global,
    key: &K,
    shelf: &mut B,
    tree: &ObjTree,
    block: u32,
    index: u32,
    left: u32,
) -> Result<Option<Vec<u8>>, MacError>
    requires above { 1 ≤ tree.now.levels }
    requires levels { tree.now.levels ≤ 5 }
    requires small { block ≤ MAX_BLOCK_LEN }
    ensures reading { Reading (tree.now.levels + 1) (IsInRange tree.now.levels index 1) result
        (B.told shelf.old) (B.told shelf.new) }
    ensures size { IfOk result (λ front. IfSome front (λ text. length text.items ≡ left)) }
    ensures told { IfSome (B.told shelf.old).held (λ held. Gives (option_map (λ text. text.items))
        (front_at (K.told key.now) held block tree.now index left) result) }
{
    match ref_at(shelf, tree, index, block) {
        Ok(found) => front_from(alloc, key, shelf, &found, index, block, left),
        Err(stop) => Err(stop),
    }
}

// The bytes that stay of the block that a reference names, where it stores more.
fn front_from<K: BlockKey, B: Shelf>(
    alloc: Global,
    key: &K,
    shelf: &mut B,
    found: &Option<BlockRef>,
    index: u32,
    block: u32,
    left: u32,
) -> Result<Option<Vec<u8>>, MacError>
    requires small { block ≤ MAX_BLOCK_LEN }
    ensures reading { Reading 1 (IsInRange 0 index 1) result (B.told shelf.old) (B.told shelf.new) }
    ensures size { IfOk result (λ front. IfSome front (λ text. length text.items ≡ left)) }
    ensures told { IfSome found.now (λ r. r.size ≤ block)
        → IfSome (B.told shelf.old).held (λ held. Gives (option_map (λ text. text.items))
        (front_from (K.told key.now) held index left found.now) result) }
{
    let Some(r) = found else {
        return Ok(None);
    };
    if r.size <= left {
        return Ok(None);
    }
    match open_whole(alloc, key, shelf, r, index, block) {
        Ok(mut text) => {
            text.truncate(left as usize);
            Ok(Some(text))
        }
        Err(stop) => Err(stop),
    }
}
