// One block: the walk to it, and what it opens to.
ghost use Rattle.std.specs.Prelude.{◌≡◌, ◌==◌, ◌<◌, ◌≤◌, ◌^◌, ◌+◌, ◌/◌, length, take, Some, IfOk, IfSome};
ghost use Rattle.std.specs.Option.{option_eq, option_map};
ghost use Rattle.file_blocks.specs.Groups.{IsKnown, ref_of};
ghost use Rattle.file_blocks.specs.Objects.{Gives, IsAtBlock, Reading, block_bytes, text_at, text_of, walk_in};

use crate::group::{GROUP, Group};
use block_crypt::{BlockKey, MAX_BLOCK_LEN, Sealed, open_block};
use indirect_macs::{BlockRef, MacError, ObjTree, lookup_group, names_block, read};
use shelf_store::Shelf;

pub(crate) fn fails_at(index: u32) -> MacError
    ensures { result ≡ MacError.MacFailed 0 index }
{
    MacError::MacFailed { level: 0, index }
}

fn sealed_of(r: &BlockRef) -> Sealed
    ensures salt { result.salt ≡ r.now.salt }
    ensures iv { result.iv ≡ r.now.iv }
    ensures mac { result.mac ≡ r.now.mac }
{
    Sealed {
        salt: r.salt,
        iv: r.iv,
        mac: r.mac,
    }
}

/// Reads and opens the block that a reference names: the block of this index of an object. `out` has
/// the reference's size.
///
/// # Errors
///
/// `MacFailed` of level 0 where the address names no block of that size, without a call of the shelf,
/// or where the tag differs, and `ShelfFault`. After an error `out` may have the sealed bytes, and
/// never others than those and its own.
pub(crate) fn open_ref<K: BlockKey, B: Shelf>(
    key: &K,
    shelf: &mut B,
    r: &BlockRef,
    index: u32,
    out: &mut [u8],
) -> Result<(), MacError>
    requires fits { length out.old ≡ r.now.size }
    requires small { r.now.size ≤ MAX_BLOCK_LEN }
    ensures len { length out.new ≡ r.now.size }
    ensures reading { Reading 1 (IsAtBlock 0 index) result (B.told shelf.old) (B.told shelf.new) }
    ensures told { IfSome (B.told shelf.old).held (λ held. Gives (λ _. Some out.new)
        (text_of (K.told key.now) held index (Some r.now)) result) }
{
    if !names_block(shelf, r.addr, r.size) {
        return Err(fails_at(index));
    }
    if let Err(stop) = read(shelf, r.addr, out) {
        return Err(stop);
    }
    match open_block(key, &sealed_of(r), out) {
        Ok(()) => Ok(()),
        Err(_) => Err(fails_at(index)),
    }
}

// Whether this is the group of a block.
fn has_block(group: &Group, index: u32) -> bool
    ensures { result ≡ option_eq ◌==◌ group.now.number (Some (index / 32)) }
{
    group.number == Some(index / GROUP)
}

fn ref_of(group: &Group, index: u32) -> &Option<BlockRef>
    ensures { result.now ≡ ref_of group.now.refs index }
{
    &group.refs[(index % GROUP) as usize]
}

// Walks to the group of a block, where it isn't the one that was walked to last.
fn turn_to<B: Shelf>(
    shelf: &mut B,
    tree: &ObjTree,
    index: u32,
    block: u32,
    group: &mut Group,
) -> Result<(), MacError>
    requires above { 1 ≤ tree.now.levels }
    requires levels { tree.now.levels ≤ 5 }
    requires within { index < 32 ^ tree.now.levels }
    requires known { IsKnown (B.told shelf.old).held block tree.now group.old }
    ensures reading { Reading tree.now.levels (IsAtBlock tree.now.levels index) result
        (B.told shelf.old) (B.told shelf.new) }
    ensures known { IsKnown (B.told shelf.new).held block tree.now group.new }
    ensures told { IfSome (B.told shelf.old).held (λ held. Gives (λ _. ref_of group.new.refs index)
        (walk_in held block tree.now index) result) }
{
    if has_block(group, index) {
        return Ok(());
    }
    match lookup_group(tree, shelf, index, block) {
        Ok(refs) => {
            group.number = Some(index / GROUP);
            group.refs = refs;
            Ok(())
        }
        Err(stop) => Err(stop),
    }
}

/// Reads and opens the block of an index of a tree into `out`, which has the record size and is then
/// what the block stands for: what it stores, and zeros behind that. Gives how many bytes it stores,
/// or None in a hole.
///
/// The nodes over the block are read and tested from the top down, unless it is of the group that was
/// read last, and then the block, each once. It takes no memory.
///
/// # Errors
///
/// `MacFailed` with the first place over the block, from the top, that fails its test, of level 0
/// where it is the block itself, and `ShelfFault` exactly where one of the reads is the call whose
/// failure was armed. It is never `Full` or `NoMemory`. `out` is then no longer of use.
pub(crate) fn read_block<K: BlockKey, B: Shelf>(
    key: &K,
    shelf: &mut B,
    tree: &ObjTree,
    index: u32,
    block: u32,
    group: &mut Group,
    out: &mut [u8],
) -> Result<Option<u32>, MacError>
    requires above { 1 ≤ tree.now.levels }
    requires levels { tree.now.levels ≤ 5 }
    requires within { index < 32 ^ tree.now.levels }
    requires known { IsKnown (B.told shelf.old).held block tree.now group.old }
    requires fits { length out.old ≡ block }
    requires small { block ≤ MAX_BLOCK_LEN }
    ensures len { length out.new ≡ block }
    ensures reading { Reading (tree.now.levels + 1) (IsAtBlock tree.now.levels index) result
        (B.told shelf.old) (B.told shelf.new) }
    ensures known { IsKnown (B.told shelf.new).held block tree.now group.new }
    ensures size { IfOk result (λ stored. IfSome stored (λ size. size ≤ block)) }
    ensures bytes { IfOk result (λ stored. out.new
        ≡ block_bytes block (option_map (λ size. take size out.new) stored)) }
    ensures told { IfSome (B.told shelf.old).held (λ held. Gives (option_map (λ size. take size out.new))
        (text_at (K.told key.now) held block tree.now index) result) }
{
    if let Err(stop) = turn_to(shelf, tree, index, block, group) {
        return Err(stop);
    }
    match ref_of(group, index) {
        Some(r) => read_ref(key, shelf, r, index, block, out),
        None => {
            out.fill(0);
            Ok(None)
        }
    }
}

// Reads and opens the block that a reference names, and fills it up with zeros. A size above the
// record size stands in no node that passes its test.
fn read_ref<K: BlockKey, B: Shelf>(
    key: &K,
    shelf: &mut B,
    r: &BlockRef,
    index: u32,
    block: u32,
    out: &mut [u8],
) -> Result<Option<u32>, MacError>
    requires fits { length out.old ≡ block }
    requires small { block ≤ MAX_BLOCK_LEN }
    ensures len { length out.new ≡ block }
    ensures reading { Reading 1 (IsAtBlock 0 index) result (B.told shelf.old) (B.told shelf.new) }
    ensures size { IfOk result (λ stored. IfSome stored (λ size. size ≤ block)) }
    ensures bytes { IfOk result (λ stored. out.new
        ≡ block_bytes block (option_map (λ size. take size out.new) stored)) }
    ensures told { r.now.size ≤ block
        → IfSome (B.told shelf.old).held (λ held. Gives (option_map (λ size. take size out.new))
        (text_of (K.told key.now) held index (Some r.now)) result) }
{
    if r.size > block {
        return Err(fails_at(index));
    }
    let size = r.size as usize;
    if let Err(stop) = open_ref(key, shelf, r, index, &mut out[..size]) {
        return Err(stop);
    }
    out[size..].fill(0);
    Ok(Some(r.size))
}
