// The walk from the top of a tree to a group of 32 blocks.
ghost use Rattle.std.specs.Prelude.{◌≡◌, ◌<◌, ◌≤◌, ◌^◌, ◌-◌, length, map, IfNone, IfSome, None, Ok, replicate};
ghost use Rattle.indirect_macs.specs.Walk.{group_in, group_walk, reads, reads_of};
ghost use Rattle.indirect_macs.specs.Calls.{Answers, Gave};

use crate::children::blocks_in;
use crate::entry::BLOCK_ENTRY_LEN;
use crate::node::ENTRIES;
use crate::refs::{BlockRef, MacError, NodeRef, ObjTree};
use crate::walk::{node_below, read_node};
use shelf_store::Shelf;

// The references in a node of level 1.
fn group_in<B: Shelf>(
    shelf: &mut B,
    node: &NodeRef,
    index: u32,
    block: u32,
) -> Result<[Option<BlockRef>; 32], MacError>
    ensures answers { Answers 1 1 index result (B.told shelf.old) (B.told shelf.new) }
    ensures told { IfSome (B.told shelf.old).held (λ blocks. Gave (reads_of (map length blocks) 1 node.now)
        (group_in blocks block index node.now) result (B.told shelf.old) (B.told shelf.new)) }
{
    let mut bytes = [0; ENTRIES * BLOCK_ENTRY_LEN];
    match read_node(shelf, node, 1, index, block, &mut bytes) {
        Ok(()) => Ok(blocks_in(&bytes)),
        Err(stop) => Err(stop),
    }
}

// Goes on from a reference to a node of this level.
fn group_walk<B: Shelf>(
    shelf: &mut B,
    level: u8,
    node: &Option<NodeRef>,
    index: u32,
    block: u32,
) -> Result<[Option<BlockRef>; 32], MacError>
    requires above { 1 ≤ level }
    requires levels { level ≤ 5 }
    ensures hole { IfNone node.now ((result ≡ Ok (replicate 32 None)) × (B.told shelf.new ≡ B.told shelf.old)) }
    ensures answers { Answers level level index result (B.told shelf.old) (B.told shelf.new) }
    ensures told { IfSome (B.told shelf.old).held (λ blocks. Gave (reads blocks block index (level - 1) node.now)
        (group_walk blocks block index (level - 1) node.now) result (B.told shelf.old) (B.told shelf.new)) }
{
    let Some(node) = node else {
        return Ok([None; ENTRIES]);
    };
    if level == 1 {
        return group_in(shelf, node, index, block);
    }
    match node_below(shelf, node, level, index, block) {
        Ok(next) => group_walk(shelf, level - 1, &next, index, block),
        Err(stop) => Err(stop),
    }
}

/// The references to the 32 blocks under the node of level 1 over the block of an index, each None
/// where its block is in a hole.
///
/// It reads and tests what `lookup` of this index does, and so the nodes over these blocks once for
/// all of them. It takes no memory.
///
/// # Errors
///
/// As `lookup` of the index, and of each other of these blocks.
pub fn lookup_group<B: Shelf>(
    tree: &ObjTree,
    shelf: &mut B,
    index: u32,
    block: u32,
) -> Result<[Option<BlockRef>; 32], MacError>
    requires above { 1 ≤ tree.now.levels }
    requires levels { tree.now.levels ≤ 5 }
    requires within { index < 32 ^ tree.now.levels }
    ensures hole { IfNone tree.now.top ((result ≡ Ok (replicate 32 None)) × (B.told shelf.new ≡ B.told shelf.old)) }
    ensures answers { Answers tree.now.levels tree.now.levels index result (B.told shelf.old) (B.told shelf.new) }
    ensures told { IfSome (B.told shelf.old).held
        (λ blocks. Gave (reads blocks block index (tree.now.levels - 1) tree.now.top)
        (group_walk blocks block index (tree.now.levels - 1) tree.now.top) result
        (B.told shelf.old) (B.told shelf.new)) }
{
    group_walk(shelf, tree.levels, &tree.top, index, block)
}
