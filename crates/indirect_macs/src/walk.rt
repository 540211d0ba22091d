// The walk from the top of a tree to one block.
ghost use Rattle.std.specs.Prelude.{◌≡◌, ◌==◌, ◌<◌, ◌≤◌, ◌^◌, ◌-◌, length, map, Ok, None, IfSome, IfNone, IfErr, OnOk, Some, is_err, slice_get};
ghost use Rattle.std.specs.Option.{option_eq};
ghost use Rattle.shelf_store.specs.ShelfState.{HasToldSizes, counted, is_due};
ghost use Rattle.indirect_macs.specs.Nodes.{node_len};
ghost use Rattle.indirect_macs.specs.Walk.{fails_at, names_node, next_block, next_node, passed, place_of, reads, reads_of, slot_of, tested, walk};
ghost use Rattle.indirect_macs.specs.Calls.{Answers, Gave};

use crate::entry::{BLOCK_ENTRY_LEN, NODE_ENTRY_LEN, block_at, entry_len, node_at};
use crate::node::{ENTRIES, node_passes};
use crate::refs::{BlockRef, MacError, NodeRef, ObjTree};
use shelf_store::{Failed, Shelf};

// How many bits of a block's index choose the entry of a node.
const ENTRY_BITS: u32 = 5;

// The index of the place of this level that covers a block.
pub fn place_of(level: u8, index: u32) -> u32
    requires { level ≤ 5 }
    ensures { result ≡ place_of level index }
{
    index >> (ENTRY_BITS * u32::from(level))
}

// Which entry of the node of this level over a block leads to it.
fn slot_of(level: u8, index: u32) -> usize
    requires above { 1 ≤ level }
    requires levels { level ≤ 5 }
    ensures value { result ≡ slot_of level index }
    ensures bound { result < 32 }
{
    place_of(level - 1, index) as usize % ENTRIES
}

fn fails_at(level: u8, index: u32) -> MacError
    requires { level ≤ 5 }
    ensures { result ≡ fails_at level index }
{
    MacError::MacFailed {
        level,
        index: place_of(level, index),
    }
}

/// Whether the address is that of a block of so many bytes.
pub fn names_block<B: Shelf>(shelf: &B, addr: u64, size: u32) -> bool
    ensures value { result ≡ option_eq ◌==◌ (slice_get (B.told shelf.now).sizes addr) (Some size) }
    ensures sizes { HasToldSizes (B.told shelf.now) }
{
    shelf.size(addr) == Some(size)
}

// Whether the address is that of a block of the size of a node of this level.
#[tactic(auto, unfolding(crate::specs::Walk::names_node))]
fn names_node<B: Shelf>(shelf: &B, addr: u64, level: u8) -> bool
    ensures value { result ≡ names_node (B.told shelf.now).sizes level addr }
    ensures sizes { HasToldSizes (B.told shelf.now) }
{
    names_block(shelf, addr, (ENTRIES * entry_len(level)) as u32)
}

/// Reads the block of an address into `out`, which has its size. A call of the shelf that fails is
/// `ShelfFault`.
pub fn read<B: Shelf>(shelf: &mut B, addr: u64, out: &mut [u8]) -> Result<(), MacError>
    requires { slice_get (B.told shelf.old).sizes addr ≡ Some (length out.old) }
    ensures due { is_err result ≡ is_due (B.told shelf.old).armed }
    ensures fault { IfErr result (λ stop. stop ≡ MacError.ShelfFault) }
    ensures after { B.told shelf.new ≡ counted (B.told shelf.old) }
    ensures bytes { OnOk result (IfSome (B.told shelf.old).held (λ blocks. slice_get blocks addr ≡ Some out.new)) }
{
    match shelf.get(addr, out) {
        Ok(()) => Ok(()),
        Err(Failed) => Err(MacError::ShelfFault),
    }
}

// Reads the node that a reference names into `out`, and tests it. A reference that names no block of
// a node's size fails without a call of the shelf.
pub fn read_node<B: Shelf>(
    shelf: &mut B,
    node: &NodeRef,
    level: u8,
    index: u32,
    block: u32,
    out: &mut [u8],
) -> Result<(), MacError>
    requires above { 1 ≤ level }
    requires levels { level ≤ 5 }
    requires fits { length out.old ≡ node_len level }
    ensures answers { Answers level 1 index result (B.told shelf.old) (B.told shelf.new) }
    ensures told { IfSome (B.told shelf.old).held (λ blocks. Gave (reads_of (map length blocks) level node.now)
        (tested blocks block index level node.now) result (B.told shelf.old) (B.told shelf.new)) }
    ensures bytes { OnOk result (IfSome (B.told shelf.old).held (λ blocks. passed blocks block level node.now
        ≡ Some out.new)) }
{
    if !names_node(shelf, node.addr, level) {
        return Err(fails_at(level, index));
    }
    if let Err(stop) = read(shelf, node.addr, out) {
        return Err(stop);
    }
    if !node_passes(out, level, &node.mac, block) {
        return Err(fails_at(level, index));
    }
    Ok(())
}

// The reference to the node of the level below over a block.
pub fn node_below<B: Shelf>(
    shelf: &mut B,
    node: &NodeRef,
    level: u8,
    index: u32,
    block: u32,
) -> Result<Option<NodeRef>, MacError>
    requires above { 2 ≤ level }
    requires levels { level ≤ 5 }
    ensures answers { Answers level 1 index result (B.told shelf.old) (B.told shelf.new) }
    ensures told { IfSome (B.told shelf.old).held (λ blocks. Gave (reads_of (map length blocks) level node.now)
        (next_node blocks block index level node.now) result (B.told shelf.old) (B.told shelf.new)) }
{
    let mut bytes = [0; ENTRIES * NODE_ENTRY_LEN];
    match read_node(shelf, node, level, index, block, &mut bytes) {
        Ok(()) => {
            let at = NODE_ENTRY_LEN * slot_of(level, index);
            Ok(node_at(&bytes[at..at + NODE_ENTRY_LEN]))
        }
        Err(stop) => Err(stop),
    }
}

// The reference to a block, below the node of level 1 over it.
fn block_below<B: Shelf>(
    shelf: &mut B,
    node: &NodeRef,
    index: u32,
    block: u32,
) -> Result<Option<BlockRef>, MacError>
    ensures answers { Answers 1 1 index result (B.told shelf.old) (B.told shelf.new) }
    ensures told { IfSome (B.told shelf.old).held (λ blocks. Gave (reads_of (map length blocks) 1 node.now)
        (next_block blocks block index node.now) result (B.told shelf.old) (B.told shelf.new)) }
{
    let mut bytes = [0; ENTRIES * BLOCK_ENTRY_LEN];
    match read_node(shelf, node, 1, index, block, &mut bytes) {
        Ok(()) => {
            let at = BLOCK_ENTRY_LEN * slot_of(1, index);
            Ok(block_at(&bytes[at..at + BLOCK_ENTRY_LEN]))
        }
        Err(stop) => Err(stop),
    }
}

// Goes on from a reference to a node of this level.
fn walk<B: Shelf>(
    shelf: &mut B,
    level: u8,
    node: &Option<NodeRef>,
    index: u32,
    block: u32,
) -> Result<Option<BlockRef>, MacError>
    requires above { 1 ≤ level }
    requires levels { level ≤ 5 }
    ensures hole { IfNone node.now ((result ≡ Ok None) × (B.told shelf.new ≡ B.told shelf.old)) }
    ensures answers { Answers level level index result (B.told shelf.old) (B.told shelf.new) }
    ensures told { IfSome (B.told shelf.old).held (λ blocks. Gave (reads blocks block index (level - 1) node.now)
        (walk blocks block index (level - 1) node.now) result (B.told shelf.old) (B.told shelf.new)) }
{
    let Some(node) = node else {
        return Ok(None);
    };
    if level == 1 {
        return block_below(shelf, node, index, block);
    }
    match node_below(shelf, node, level, index, block) {
        Ok(next) => walk(shelf, level - 1, &next, index, block),
        Err(stop) => Err(stop),
    }
}

/// The reference to the block of an index, or None where it is in a hole.
///
/// `block` is the record size. The nodes over the block are read and tested from the top down, each
/// once; a reference that names no block of a node's size fails without a call of the shelf. It
/// takes no memory.
///
/// # Errors
///
/// `MacFailed` with the first place from the top that fails its test, and `ShelfFault` exactly where
/// one of the reads is the call whose failure was armed. It is never `Full` or `NoMemory`.
pub fn lookup<B: Shelf>(
    tree: &ObjTree,
    shelf: &mut B,
    index: u32,
    block: u32,
) -> Result<Option<BlockRef>, MacError>
    requires above { 1 ≤ tree.now.levels }
    requires levels { tree.now.levels ≤ 5 }
    requires within { index < 32 ^ tree.now.levels }
    ensures hole { IfNone tree.now.top ((result ≡ Ok None) × (B.told shelf.new ≡ B.told shelf.old)) }
    ensures answers { Answers tree.now.levels tree.now.levels index result (B.told shelf.old) (B.told shelf.new) }
    ensures told { IfSome (B.told shelf.old).held
        (λ blocks. Gave (reads blocks block index (tree.now.levels - 1) tree.now.top)
        (walk blocks block index (tree.now.levels - 1) tree.now.top) result (B.told shelf.old) (B.told shelf.new)) }
{
    walk(shelf, tree.levels, &tree.top, index, block)
}
