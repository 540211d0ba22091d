// Trees, the references in them, and why they can't be read or changed.
ghost use Rattle.std.specs.Prelude.{◌≡◌};
ghost use Rattle.indirect_macs.specs.declared.refs.MacError.TheVariants as mac_error;

use std::alloc::AllocError;

/// Where a sealed block is, and what opens it.
#[derive(Clone, Copy, Debug, PartialEq, Eq)]
pub struct BlockRef {
    /// The bytes of the block.
    pub size: u32,
    /// Its address on the shelf.
    pub addr: u64,
    pub salt: [u8; 8],
    pub iv: [u8; 12],
    pub mac: [u8; 16],
}

/// Where a node is, and its MAC.
#[derive(Clone, Copy, Debug, PartialEq, Eq)]
pub struct NodeRef {
    /// Its address on the shelf.
    pub addr: u64,
    pub mac: [u8; 16],
}

/// The tree of an object's blocks. Its top is a node of the level `levels`, or a hole.
#[derive(Clone, Copy, Debug, PartialEq, Eq)]
pub struct ObjTree {
    /// From 1 to 5. A tree of so many levels has room for `32 ^ levels` blocks.
    pub levels: u8,
    pub top: Option<NodeRef>,
}

/// Why a tree couldn't be read or changed.
#[derive(Clone, Copy, Debug, PartialEq, Eq)]
pub enum MacError {
    /// The node of this level and index is the first that didn't pass its test. It covers the
    /// blocks from `index * 32 ^ level` on.
    MacFailed { level: u8, index: u32 },
    /// A call of the shelf failed.
    ShelfFault,
    /// The shelf is full.
    Full,
    /// Memory ran out.
    NoMemory,
}

impl From<AllocError> for MacError {
    ghost from_gives = { λ _ error. error ≡ mac_error.NoMemory };

    fn from(_: AllocError) -> Self {
        MacError::NoMemory
    }
}
