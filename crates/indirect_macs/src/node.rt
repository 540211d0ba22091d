// Stored nodes: 32 entries one after another, and the MAC over them.
ghost use Rattle.std.specs.Prelude.{◌≡◌, ℕ, List, ◌++◌, length, take};
ghost use Rattle.sha2.specs.Hashers.{Holds512};
ghost use Rattle.indirect_macs.specs.Entries.{entry_len, without_address};
ghost use Rattle.indirect_macs.specs.Nodes.{has_entries, node_len, node_mac, node_passes};

use crate::entry::{address_at, entry_len, is_entry};
use sha2::{Digest, Sha512};

/// How many entries a node has.
pub const ENTRIES: usize = 32;

fn has_entries(node: &[u8], level: u8, block: u32) -> bool
    requires { length node.now ≡ node_len level }
    ensures { result ≡ has_entries level block node.now }
{
    let len = entry_len(level);
    'entries: for slot in 0..ENTRIES {
        if !is_entry(&node[len * slot..len * slot + len], level, block) {
            return false;
        }
    }
    true
}

// Adds what a node's MAC covers of an entry.
fn update_without_address(hasher: &mut Sha512, entry: &[u8], level: u8)
    requires { length entry.now ≡ entry_len level }
    ensures { (covered : List ℕ) → Holds512 hasher.old covered
        → Holds512 hasher.new (covered ++ without_address level entry.now) }
{
    let at = address_at(level);
    hasher.update(&entry[..at]);
    hasher.update(&entry[at + 8..]);
}

fn node_mac(node: &[u8], level: u8) -> [u8; 16]
    requires { length node.now ≡ node_len level }
    ensures { result ≡ node_mac level node.now }
{
    let len = entry_len(level);
    let mut hasher = Sha512::new();
    hasher.update(&[level]);
    'entries: for slot in 0..ENTRIES {
        update_without_address(&mut hasher, &node[len * slot..len * slot + len], level);
    }
    cut(&hasher.finalize())
}

/// The first 16 bytes of a digest.
pub fn cut(digest: &[u8; 64]) -> [u8; 16]
    ensures { result ≡ take 16 digest.now }
{
    let mut mac = [0; 16];
    mac.copy_from_slice(&digest[..16]);
    mac
}

/// The test of a stored node of this level, over blocks of at most `block` bytes: whether it has 32
/// entries of the level, and the MAC that was expected.
pub fn node_passes(node: &[u8], level: u8, mac: &[u8; 16], block: u32) -> bool
    requires { length node.now ≡ node_len level }
    ensures { result ≡ node_passes level block node.now mac.now }
{
    has_entries(node, level, block) && node_mac(node, level) == *mac
}
