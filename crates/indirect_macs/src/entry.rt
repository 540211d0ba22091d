// The entries of stored nodes.
ghost use Rattle.std.specs.Prelude.{◌≡◌, ◌≤◌, ◌==◌, ℕ, List, ◌++◌, length};
ghost use Rattle.std.specs.List.{list_all};
ghost use Rattle.sha2.specs.Hashers.{Holds512};
ghost use Rattle.indirect_macs.specs.Entries.{address_at, block_at, block_under_mac, entry_len, is_entry, node_at, node_under_mac};

use crate::refs::{BlockRef, NodeRef};
use byte_fields::{get_u32, get_u64, put_u32};
use sha2::{Digest, Sha512};

/// How many bytes an entry of a node of level 1 has, and one of a node above.
pub const BLOCK_ENTRY_LEN: usize = 49;

pub const NODE_ENTRY_LEN: usize = 25;

// Where the fields of an entry of a node of level 1 begin, behind the tag.
const SIZE_AT: usize = 1;

/// How many bytes the entries of a node of this level have.
pub fn entry_len(level: u8) -> usize
    ensures { result ≡ entry_len level }
{
    if level == 1 {
        BLOCK_ENTRY_LEN
    } else {
        NODE_ENTRY_LEN
    }
}

/// Where the address stands in an entry of a node of this level: behind the tag, and at level 1
/// behind the size.
pub fn address_at(level: u8) -> usize
    ensures { result ≡ address_at level }
{
    if level == 1 { 5 } else { 1 }
}

fn is_zeros(bytes: &[u8]) -> bool
    ensures { result ≡ list_all (λ byte. byte == 0) bytes.now }
{
    bytes.iter().all(|byte| *byte == 0)
}

/// Whether these are the bytes of an entry of a node of this level, over blocks of at most `block`
/// bytes.
#[tactic(auto, unfolding(crate::specs::Entries::is_entry))]
pub fn is_entry(entry: &[u8], level: u8, block: u32) -> bool
    requires { 25 ≤ length entry.now }
    ensures { result ≡ is_entry level block entry.now }
{
    if is_zeros(entry) {
        return true;
    }
    if entry[0] != 1 {
        return false;
    }
    if level != 1 {
        return true;
    }
    let size = get_u32(entry, SIZE_AT);
    1 <= size && size <= block
}

/// The reference in an entry of a node of level 1, or None where it is a hole.
#[tactic(auto, unfolding(crate::specs::Entries::block_at))]
pub fn block_at(entry: &[u8]) -> Option<BlockRef>
    requires { length entry.now ≡ 49 }
    ensures { result ≡ block_at entry.now }
{
    if entry[0] == 0 {
        return None;
    }
    let mut salt = [0; 8];
    salt.copy_from_slice(&entry[13..21]);
    let mut iv = [0; 12];
    iv.copy_from_slice(&entry[21..33]);
    let mut mac = [0; 16];
    mac.copy_from_slice(&entry[33..49]);
    Some(BlockRef {
        size: get_u32(entry, SIZE_AT),
        addr: get_u64(entry, 5),
        salt,
        iv,
        mac,
    })
}

/// The reference in an entry of a node above level 1, or None where it is a hole.
#[tactic(auto, unfolding(crate::specs::Entries::node_at))]
pub fn node_at(entry: &[u8]) -> Option<NodeRef>
    requires { length entry.now ≡ 25 }
    ensures { result ≡ node_at entry.now }
{
    if entry[0] == 0 {
        return None;
    }
    let mut mac = [0; 16];
    mac.copy_from_slice(&entry[9..25]);
    Some(NodeRef {
        addr: get_u64(entry, 1),
        mac,
    })
}

/// Adds what a node's MAC covers of a reference to a block: tag, size, salt, initialization vector and
/// MAC.
pub fn update_block(hasher: &mut Sha512, entry: &Option<BlockRef>)
    ensures { (covered : List ℕ) → Holds512 hasher.old covered
        → Holds512 hasher.new (covered ++ block_under_mac entry.now) }
{
    match entry {
        Some(block) => {
            let mut size = [0; 4];
            put_u32(&mut size, 0, block.size);
            hasher.update(&[1]);
            hasher.update(&size);
            hasher.update(&block.salt);
            hasher.update(&block.iv);
            hasher.update(&block.mac);
        }
        None => hasher.update(&[0; 41]),
    }
}

/// Adds what a node's MAC covers of a reference to a node of this MAC: tag and MAC.
pub fn update_node(hasher: &mut Sha512, entry: &Option<[u8; 16]>)
    ensures { (covered : List ℕ) → Holds512 hasher.old covered
        → Holds512 hasher.new (covered ++ node_under_mac entry.now) }
{
    match entry {
        Some(mac) => {
            hasher.update(&[1]);
            hasher.update(mac);
        }
        None => hasher.update(&[0; 17]),
    }
}
