// A run of references that is to be put into a tree.
ghost use Rattle.std.specs.Prelude.{◌+◌, ◌≤◌, length};

use crate::refs::{BlockRef, ObjTree};

/// How many blocks a tree has at most.
pub const MOST_BLOCKS: u32 = 8_388_608;

/// A tree is to have so many blocks, and from one of them on these references.
#[derive(Clone, Copy)]
pub struct Run<'a> {
    pub tree: ObjTree,
    pub blocks: u32,
    pub from: u32,
    pub refs: &'a [Option<BlockRef>],
    /// The record size.
    pub block: u32,
    ghost above: { 1 ≤ tree.levels },
    ghost levels: { tree.levels ≤ 5 },
    ghost within: { from + length refs.now ≤ blocks },
    ghost most: { blocks ≤ 8388608 },
}
