// Bytes that are written into an object.
ghost use Rattle.std.specs.Prelude.{◌+◌, ◌<◌, ◌≤◌, length};

use indirect_macs::ObjTree;

/// Bytes that are written into an object from some place on.
#[derive(Clone, Copy)]
pub struct Write<'a> {
    pub tree: ObjTree,
    /// How many bytes the object has before.
    pub old_length: u64,
    /// The record size.
    pub block: u32,
    pub from: u64,
    pub bytes: &'a [u8],
    ghost above: { 1 ≤ tree.levels },
    ghost levels: { tree.levels ≤ 5 },
    ghost wide: { 512 ≤ block },
    ghost small: { block ≤ 131072 },
    ghost some: { 0 < length bytes.now },
    ghost end: { from + length bytes.now ≤ 4294967296 },
}
