// Writes and cuts of an object's bytes.
ghost use Rattle.std.specs.Prelude.{◌≡◌, ◌<◌, ◌≤◌, ◌+◌, ◌*◌, [], max, is_some, if◌then◌else◌, IfOk, IfSome, Ok, length};
ghost use Rattle.std.specs.Option.{option_map};
ghost use Rattle.indirect_macs.specs.Runs.{levels_for};
ghost use Rattle.file_blocks.specs.Changes.{Changed, Leaving};
ghost use Rattle.file_blocks.specs.Objects.{IsObject, blocks_for, count_touched};
ghost use Rattle.file_blocks.specs.Outcomes.{IsNoted, IsWrote};
ghost use Rattle.file_blocks.specs.WriteFields.{write_of, write_to};
ghost use Rattle.file_blocks.specs.Writes.{change_of_cut, change_of_length, change_of_write, count_of, length_after, reads_of};

use crate::change::{Plan, Wrote, change_object};
use crate::new_texts::{CutTexts, WriteTexts};
use crate::object::Object;
use crate::pieces::first_of;
use crate::read::blocks_for;
use crate::taken::{read_cut, read_write};
use crate::write::Write;
use crate::write_error::WriteError;
use block_crypt::BlockKey;
use indirect_macs::levels_for;
use salt_rotation::Salts;
use shelf_store::Shelf;
use std::alloc::Global;

// Gives an object another length, at least its own.
fn set_length<K: BlockKey, B: Shelf>(
    alloc: Global,
    key: &K,
    salts: &mut Salts,
    shelf: &mut B,
    object: &Object,
    block: u32,
    new_length: u64,
) -> Result<Wrote, WriteError>
    requires object { IsObject block object.now }
    requires least { 512 ≤ block }
    requires most { block ≤ 131072 }
    requires bytes { new_length ≤ 4294967296 }
    requires order { object.now.length ≤ new_length }
    ensures leaving { Leaving 0 0 result (B.told shelf.old) (B.told shelf.new) salts.old salts.new }
    ensures told { IfSome (B.told shelf.old).held (λ held. Changed (λ wrote. wrote.object) (K.told key.now) held
        (Ok (change_of_length object.now.tree block new_length)) result
        (B.told shelf.old) (B.told shelf.new) salts.old salts.new) }
    ensures noted { IfOk result (IsNoted (K.told key.now) salts.old (length (B.told shelf.old).sizes)
        (Ok (change_of_length object.now.tree block new_length))) }
    ensures wrote { IfOk result (IsWrote block new_length salts.old salts.new) }
{
    let plan = Plan {
        tree: object.tree,
        block,
        length: new_length,
        stays: levels_for(blocks_for(block, new_length)) == object.tree.levels,
        first: 0,
    };
    change_object(alloc, key, salts, shelf, &plan, &CutTexts { front: None })
}

fn length_after(w: &Write) -> u64
    ensures { result ≡ length_after (write_of w.now) }
{
    w.old_length.max(w.from + w.bytes.len() as u64)
}

// Writes bytes, of which there is one at least.
fn write_some<K: BlockKey, B: Shelf>(
    alloc: Global,
    key: &K,
    salts: &mut Salts,
    shelf: &mut B,
    w: &Write,
) -> Result<Wrote, WriteError>
    requires old { w.now.old_length ≤ 4294967296 }
    requires tree { w.now.tree.levels ≡ levels_for (blocks_for w.now.block w.now.old_length) }
    ensures leaving { Leaving (count_of (write_of w.now)) (reads_of (write_of w.now)) result (B.told shelf.old) (B.told shelf.new)
        salts.old salts.new }
    ensures told { IfSome (B.told shelf.old).held (λ held. Changed (λ wrote. wrote.object) (K.told key.now) held
        (change_of_write (K.told key.now) held (write_of w.now)) result
        (B.told shelf.old) (B.told shelf.new) salts.old salts.new) }
    ensures noted { IfOk result (λ wrote. IfSome (B.told shelf.old).held (λ held. IsNoted (K.told key.now) salts.old
        (length (B.told shelf.old).sizes) (change_of_write (K.told key.now) held (write_of w.now)) wrote)) }
    ensures wrote { IfOk result (IsWrote w.now.block (length_after (write_of w.now)) salts.old salts.new) }
{
    let taken = match read_write(alloc, key, shelf, w) {
        Ok(taken) => taken,
        Err(stop) => return Err(WriteError::Stopped(stop)),
    };
    let plan = Plan {
        tree: w.tree,
        block: w.block,
        length: length_after(w),
        stays: false,
        first: first_of(w),
    };
    change_object(
        alloc,
        key,
        salts,
        shelf,
        &plan,
        &WriteTexts { write: *w, taken },
    )
}

/// Writes bytes into an object from some place on, where `block` is the record size. Zeros lie between
/// the object's end and a place behind it.
///
/// First the nodes over the touched blocks are read and tested, and of the blocks the first and the
/// last, where some of its stored bytes stay. Then the new text of each touched block is sealed under a
/// draw of its own and put, in ascending order, and then the nodes over them. Without bytes only the
/// length may change.
///
/// # Errors
///
/// `Stopped` with `MacFailed` for the first place over a touched block, from the top, that fails its
/// test, of the first block that fails; then nothing was put and no draw made. `DrawsFull` where fewer
/// draws are left than blocks are touched; then nothing was put either. `Stopped` with `ShelfFault`
/// exactly where one of the calls is the one whose failure was armed, with `Full` where the next block
/// doesn't fit, and with `NoMemory`. What was put by then is a front of what would be put, and a draw
/// was made for each text that was put, and for one that wasn't at most.
pub fn write_range<K: BlockKey, B: Shelf>(
    alloc: Global,
    key: &K,
    salts: &mut Salts,
    shelf: &mut B,
    object: &Object,
    block: u32,
    from: u64,
    bytes: &[u8],
) -> Result<Wrote, WriteError>
    requires object { IsObject block object.now }
    requires least { 512 ≤ block }
    requires most { block ≤ 131072 }
    requires end { from + length bytes.now ≤ 4294967296 }
    ensures leaving { Leaving (count_touched block from (from + length bytes.now))
        (reads_of (write_to object.now block from bytes.now)) result
        (B.told shelf.old) (B.told shelf.new) salts.old salts.new }
    ensures told { IfSome (B.told shelf.old).held (λ held. Changed (λ wrote. wrote.object) (K.told key.now) held
        (change_of_write (K.told key.now) held (write_to object.now block from bytes.now)) result
        (B.told shelf.old) (B.told shelf.new) salts.old salts.new) }
    ensures noted { IfOk result (λ wrote. IfSome (B.told shelf.old).held (λ held. IsNoted (K.told key.now) salts.old
        (length (B.told shelf.old).sizes)
        (change_of_write (K.told key.now) held (write_to object.now block from bytes.now)) wrote)) }
    ensures wrote { IfOk result (IsWrote block (max object.now.length (from + length bytes.now)) salts.old salts.new) }
{
    if bytes.is_empty() {
        let new_length = object.length.max(from);
        return set_length(alloc, key, salts, shelf, object, block, new_length);
    }
    let w = Write {
        tree: object.tree,
        old_length: object.length,
        block,
        from,
        bytes,
    };
    write_some(alloc, key, salts, shelf, &w)
}

// The first block that gets a new text: this one, where there is a text.
fn first_cut(front: &Option<Vec<u8>>, index: u32) -> u32
    ensures { result ≡ (if is_some front.now then index else 0) }
{
    if front.is_some() { index } else { 0 }
}

// Cuts an object to a length less than its own that isn't 0.
fn cut_some<K: BlockKey, B: Shelf>(
    alloc: Global,
    key: &K,
    salts: &mut Salts,
    shelf: &mut B,
    object: &Object,
    block: u32,
    to: u64,
) -> Result<Wrote, WriteError>
    requires object { IsObject block object.now }
    requires least { 512 ≤ block }
    requires most { block ≤ 131072 }
    requires some { 0 < to }
    requires order { to < object.now.length }
    ensures leaving { Leaving 1 (object.now.tree.levels + 1) result (B.told shelf.old) (B.told shelf.new)
        salts.old salts.new }
    ensures told { IfSome (B.told shelf.old).held (λ held. Changed (λ wrote. wrote.object) (K.told key.now) held
        (change_of_cut (K.told key.now) held block object.now to) result
        (B.told shelf.old) (B.told shelf.new) salts.old salts.new) }
    ensures noted { IfOk result (λ wrote. IfSome (B.told shelf.old).held (λ held. IsNoted (K.told key.now) salts.old
        (length (B.told shelf.old).sizes) (change_of_cut (K.told key.now) held block object.now to) wrote)) }
    ensures wrote { IfOk result (IsWrote block to salts.old salts.new) }
{
    let index = ((to - 1) / u64::from(block)) as u32;
    let left = (to - u64::from(index) * u64::from(block)) as u32;
    let front = match read_cut(alloc, key, shelf, &object.tree, block, index, left) {
        Ok(front) => front,
        Err(stop) => return Err(WriteError::Stopped(stop)),
    };
    let plan = Plan {
        tree: object.tree,
        block,
        length: to,
        stays: false,
        first: first_cut(&front, index),
    };
    change_object(alloc, key, salts, shelf, &plan, &CutTexts { front })
}

/// Cuts an object to a length, or fills it up to it with zeros, where `block` is the record size.
///
/// Where it gets shorter, the nodes over the last block that stays are read and tested, and the block,
/// where it stores more than stays of it. Then that front is sealed under a draw of its own and put,
/// and then the nodes over it. Else the tree stays, unless it gets another number of levels.
///
/// # Errors
///
/// As of `write_range`, where the last block that stays is touched.
pub fn cut_to<K: BlockKey, B: Shelf>(
    alloc: Global,
    key: &K,
    salts: &mut Salts,
    shelf: &mut B,
    object: &Object,
    block: u32,
    to: u64,
) -> Result<Wrote, WriteError>
    requires object { IsObject block object.now }
    requires least { 512 ≤ block }
    requires most { block ≤ 131072 }
    requires bytes { to ≤ 4294967296 }
    ensures leaving { Leaving 1 (object.now.tree.levels + 1) result (B.told shelf.old) (B.told shelf.new)
        salts.old salts.new }
    ensures told { IfSome (B.told shelf.old).held (λ held. Changed (λ wrote. wrote.object) (K.told key.now) held
        (change_of_cut (K.told key.now) held block object.now to) result
        (B.told shelf.old) (B.told shelf.new) salts.old salts.new) }
    ensures noted { IfOk result (λ wrote. IfSome (B.told shelf.old).held (λ held. IsNoted (K.told key.now) salts.old
        (length (B.told shelf.old).sizes) (change_of_cut (K.told key.now) held block object.now to) wrote)) }
    ensures wrote { IfOk result (IsWrote block to salts.old salts.new) }
{
    if object.length <= to {
        return set_length(alloc, key, salts, shelf, object, block, to);
    }
    if to > 0 {
        return cut_some(alloc, key, salts, shelf, object, block, to);
    }
    let plan = Plan {
        tree: object.tree,
        block,
        length: 0,
        stays: false,
        first: 0,
    };
    change_object(alloc, key, salts, shelf, &plan, &CutTexts { front: None })
}
