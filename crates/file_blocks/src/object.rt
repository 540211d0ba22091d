// Objects.
use indirect_macs::ObjTree;

/// An object's bytes: how many, and the tree of the sealed blocks in which they are.
#[derive(Clone, Copy, Debug, PartialEq, Eq)]
pub struct Object {
    pub length: u64,
    pub tree: ObjTree,
}
