// A group of 32 blocks.
use indirect_macs::BlockRef;

/// How many blocks a group has: those under one node of level 1.
pub const GROUP: u32 = 32;

/// The group of blocks to which a read walked last, by its number, and the references to its blocks; no
/// number at first.
#[derive(Drop)]
pub struct Group {
    pub number: Option<u32>,
    pub refs: [Option<BlockRef>; 32],
}

/// No group yet.
pub const NO_GROUP: Group = Group {
    number: None,
    refs: [None; 32],
};
