ghost use Rattle.std.specs.Prelude.{◌≤◌};

use crate::{
    Object, bytes_by_hand, ranges_have_the_bytes_of_their_blocks, read_range,
    reads_stop_at_the_least_place_that_fails, test_blocks,
};
use dataset_tree::Suite;
use indirect_macs::{MacError, NodeRef, ObjTree};
use shelf_store::{MemShelf, Shelf};
use std::alloc::Global;
use std::test::Fail;
use wrapped_keys::MasterKey;

// From Python's package `cryptography`: what AES-256-GCM makes of the bytes 0 to 16, and of `hello`, with
// the vectors of their entries and no additional data, under the keys that HKDF with SHA-512 makes of a
// master key of the bytes from 128 on, with the salts of their entries as info.
const FIRST: [u8; 17] = [
    0xa4, 0x4b, 0x67, 0xfd, 0x89, 0xdd, 0x88, 0xf0, 0x2e, 0xcc, 0x26, 0x66, 0x38, 0x75, 0xbe, 0x4f,
    0x26,
];

const THIRD: [u8; 5] = [0x01, 0x9d, 0xe8, 0xe8, 0x68];

// Their entries in a node of level 1, with the tags that Python gives; they are at the addresses 0 and 1.
const FIRST_ENTRY: [u8; 49] = [
    0x01, 0x11, 0x00, 0x00, 0x00, 0x00, 0x00, 0x00, 0x00, 0x00, 0x00, 0x00, 0x00, 0x01, 0x02, 0x03,
    0x04, 0x05, 0x06, 0x07, 0x08, 0x64, 0x65, 0x66, 0x67, 0x68, 0x69, 0x6a, 0x6b, 0x6c, 0x6d, 0x6e,
    0x6f, 0x3e, 0x88, 0x70, 0x95, 0x45, 0xc2, 0x52, 0x99, 0x26, 0x67, 0x52, 0x3c, 0x21, 0x1b, 0xde,
    0x1a,
];

const THIRD_ENTRY: [u8; 49] = [
    0x01, 0x05, 0x00, 0x00, 0x00, 0x01, 0x00, 0x00, 0x00, 0x00, 0x00, 0x00, 0x00, 0x0b, 0x0c, 0x0d,
    0x0e, 0x0f, 0x10, 0x11, 0x12, 0xc8, 0xc9, 0xca, 0xcb, 0xcc, 0xcd, 0xce, 0xcf, 0xd0, 0xd1, 0xd2,
    0xd3, 0x81, 0x83, 0x02, 0x6a, 0x1a, 0xe5, 0x26, 0xba, 0xed, 0x5c, 0xd7, 0xef, 0x0a, 0xcb, 0x56,
    0x4a,
];

// An object of three blocks of 512 bytes: these, and a hole between them. The node over them is at
// address 2, and its MAC is by Python's hashlib.
const OBJECT: Object = Object {
    length: 1536,
    tree: ObjTree {
        levels: 1,
        top: Some(NodeRef {
            addr: 2,
            mac: [
                0x58, 0x81, 0x6f, 0x72, 0xf9, 0x67, 0x00, 0xd7, 0x1f, 0x26, 0xca, 0xf8, 0x4a, 0xf3,
                0xaf, 0xc2,
            ],
        }),
    },
};

fn node() -> [u8; 1568] {
    let mut node = [0; 1568];
    node[..49].copy_from_slice(&FIRST_ENTRY);
    node[98..147].copy_from_slice(&THIRD_ENTRY);
    node
}

// A master key of the bytes from 128 on.
pub(crate) fn master_key() -> MasterKey {
    let mut master = [0; 32];
    let mut next = 128_u8;
    for byte in master.iter_mut() {
        *byte = next;
        next = next.wrapping_add(1);
    }
    MasterKey::new(1, Suite::Aes256Gcm, &master, [0; 64])
}

// A shelf with the first of the blocks, and these as its third and its node.
fn shelf_of(alloc: Global, third: &[u8], node: &[u8]) -> Result<MemShelf, Fail> {
    let mut shelf = MemShelf::fresh(alloc)?;
    shelf.put(&FIRST)?;
    shelf.put(third)?;
    shelf.put(node)?;
    Ok(shelf)
}

fn read(alloc: Global, shelf: &mut MemShelf, from: u64, end: u64) -> Result<Vec<u8>, MacError>
    requires order { from ≤ end }
    requires within { end ≤ 1536 }
{
    read_range(alloc, &master_key(), shelf, &OBJECT, 512, from, end)
}

fn count(alloc: Global, shelf: &mut MemShelf) -> Result<u64, MacError> {
    test_blocks(alloc, &master_key(), shelf, &OBJECT, 512)
}

// Across the blocks: past what the first stores, through the hole, and into what the third stores. An
// empty range needs no call.
#[test]
fn reads_are_those_of_another_implementation(rt: HostRuntime) -> Result<(), Fail> {
    let mut shelf = shelf_of(rt.alloc(), &THIRD, &node())?;
    let bytes = read(rt.alloc(), &mut shelf, 10, 1027)?;
    let mut want = [0; 1017];
    want[..7].copy_from_slice(&[10, 11, 12, 13, 14, 15, 16]);
    want[1014..].copy_from_slice(b"hel");
    assert_eq!(rt; bytes.as_slice(), want.as_slice());
    assert_eq!(rt; count(rt.alloc(), &mut shelf), Ok(2));
    shelf.fail_after(0);
    let none = read(rt.alloc(), &mut shelf, 700, 700)?;
    assert_eq!(rt; none.len(), 0);
    Ok(())
}

// A read of the three blocks, of which one is a hole, reads the node over them once, and the two others:
// three calls. So does a test of them.
#[test]
fn the_nodes_over_a_group_are_read_once(rt: HostRuntime) -> Result<(), Fail> {
    let mut shelf = shelf_of(rt.alloc(), &THIRD, &node())?;
    let fault = Some(MacError::ShelfFault);
    shelf.fail_after(3);
    read(rt.alloc(), &mut shelf, 0, 1536)?;
    assert_eq!(rt; count(rt.alloc(), &mut shelf).err(), fault);
    shelf.fail_after(3);
    assert_eq!(rt; count(rt.alloc(), &mut shelf), Ok(2));
    assert_eq!(rt; read(rt.alloc(), &mut shelf, 0, 1536).err(), fault);
    Ok(())
}

// The third block is altered, then the node. The second call of a read, of the block itself, is armed.
#[test]
fn reads_stop_at_what_fails(rt: HostRuntime) -> Result<(), Fail> {
    reads_stop_at_the_least_place_that_fails();
    ranges_have_the_bytes_of_their_blocks();
    bytes_by_hand();
    let mut third = THIRD;
    third[4] ^= 1;
    let mut shelf = shelf_of(rt.alloc(), &third, &node())?;
    let data = MacError::MacFailed { level: 0, index: 2 };
    assert_eq!(rt; read(rt.alloc(), &mut shelf, 1000, 1025).err(), Some(data));
    shelf.fail_after(1);
    assert_eq!(rt;
        read(rt.alloc(), &mut shelf, 0, 1).err(),
        Some(MacError::ShelfFault)
    );
    let mut altered = node();
    altered[120] ^= 1;
    let mut dishonest = shelf_of(rt.alloc(), &THIRD, &altered)?;
    let above = MacError::MacFailed { level: 1, index: 0 };
    assert_eq!(rt; count(rt.alloc(), &mut dishonest), Err(above));
    Ok(())
}
