ghost use Rattle.std.specs.Prelude.{◌≡◌, ◌≤◌, ◌+◌, length, max, IfOk};
ghost use Rattle.file_blocks.specs.Objects.{IsObject};

use crate::tests::master_key;
use crate::{Object, WriteError, Wrote, cut_to, read_range, write_range};
use dataset_tree::Suite;
use indirect_macs::{MacError, NodeRef, ObjTree};
use salt_rotation::{MAX_DRAWS, Salts};
use shelf_store::{MemShelf, Shelf};
use std::alloc::Global;
use std::test::Fail;
use wrapped_keys::MasterKey;

// The bytes 0 to 31.
const SEED: [u8; 32] = [
    0, 1, 2, 3, 4, 5, 6, 7, 8, 9, 10, 11, 12, 13, 14, 15, 16, 17, 18, 19, 20, 21, 22, 23, 24, 25,
    26, 27, 28, 29, 30, 31,
];

const EMPTY: Object = Object {
    length: 0,
    tree: ObjTree {
        levels: 1,
        top: None,
    },
};

// The bytes 1 to 30.
fn pattern() -> [u8; 30] {
    let mut bytes = [0; 30];
    let mut next = 1_u8;
    for byte in bytes.iter_mut() {
        *byte = next;
        next = next.wrapping_add(1);
    }
    bytes
}

fn write(
    alloc: Global,
    shelf: &mut MemShelf,
    salts: &mut Salts,
    object: &Object,
    from: u64,
    bytes: &[u8],
) -> Result<Wrote, WriteError>
    requires object { IsObject 512 object.now }
    requires fits { from + length bytes.now ≤ 4294967296 }
    ensures object { IfOk result (λ wrote. IsObject 512 wrote.object) }
    ensures length { IfOk result (λ wrote. wrote.object.length ≡ max object.now.length (from + length bytes.now)) }
{
    write_range(alloc, &master_key(), salts, shelf, object, 512, from, bytes)
}

fn cut(
    alloc: Global,
    shelf: &mut MemShelf,
    salts: &mut Salts,
    object: &Object,
    to: u64,
) -> Result<Wrote, WriteError>
    requires object { IsObject 512 object.now }
    requires fits { to ≤ 4294967296 }
    ensures object { IfOk result (λ wrote. IsObject 512 wrote.object) }
    ensures length { IfOk result (λ wrote. wrote.object.length ≡ to) }
{
    cut_to(alloc, &master_key(), salts, shelf, object, 512, to)
}

fn read(
    alloc: Global,
    shelf: &mut MemShelf,
    object: &Object,
    from: u64,
    end: u64,
) -> Result<Vec<u8>, MacError>
    requires object { IsObject 512 object.now }
    requires order { from ≤ end }
    requires within { end ≤ object.now.length }
{
    read_range(alloc, &master_key(), shelf, object, 512, from, end)
}

fn object_of(levels: u8, length: u64, addr: u64, mac: [u8; 16]) -> Object {
    Object {
        length,
        tree: ObjTree {
            levels,
            top: Some(NodeRef { addr, mac }),
        },
    }
}

// The first write is across two blocks, the second within the first of them, of which it keeps the
// rest. The MACs of the tops are by Python, over the bytes that its package `cryptography` seals.
#[test]
fn writes_are_those_of_another_implementation(rt: HostRuntime) -> Result<(), Fail> {
    let mut shelf = MemShelf::fresh(rt.alloc())?;
    let mut salts = Salts::new(SEED, 2);
    let first = write(rt.alloc(), &mut shelf, &mut salts, &EMPTY, 500, &pattern())?;
    let mac = [
        0xa4, 0x89, 0xce, 0xd9, 0x21, 0xa9, 0xca, 0xee, 0x57, 0x0c, 0x45, 0x51, 0xb9, 0x22, 0xca,
        0xfd,
    ];
    assert_eq!(rt; first.object, object_of(1, 530, 2, mac));
    assert_eq!(rt; (first.first, first.refs.len()), (0, 2));
    assert_eq!(rt; first.last_number, Some(0));
    let second = write(
        rt.alloc(),
        &mut shelf,
        &mut salts,
        &first.object,
        10,
        b"hello",
    )?;
    let mac = [
        0xb3, 0xd7, 0x39, 0x3f, 0x0d, 0xb5, 0xa1, 0x74, 0xc3, 0x26, 0xf4, 0x28, 0xbd, 0xce, 0x76,
        0x39,
    ];
    assert_eq!(rt; second.object, object_of(1, 530, 4, mac));
    assert_eq!(rt; second.last_number, Some(1));
    Ok(())
}

// A second level: the block 32 is the first of a group of its own.
#[test]
fn a_write_far_behind_raises_the_tree(rt: HostRuntime) -> Result<(), Fail> {
    let mut shelf = MemShelf::fresh(rt.alloc())?;
    let mut salts = Salts::new(SEED, 2);
    let first = write(rt.alloc(), &mut shelf, &mut salts, &EMPTY, 0, &[0xaa])?;
    let wrote = write(
        rt.alloc(),
        &mut shelf,
        &mut salts,
        &first.object,
        16384,
        &[0xbb],
    )?;
    let mac = [
        0xf5, 0x3d, 0x0c, 0xbf, 0x3d, 0x0b, 0x0a, 0xc2, 0xcd, 0x7c, 0x93, 0xb7, 0xb9, 0x47, 0x64,
        0x11,
    ];
    assert_eq!(rt; wrote.object, object_of(2, 16385, 4, mac));
    let front = read(rt.alloc(), &mut shelf, &wrote.object, 0, 2)?;
    assert_eq!(rt; front.as_slice(), [0xaa, 0].as_slice());
    let back = read(rt.alloc(), &mut shelf, &wrote.object, 16383, 16385)?;
    assert_eq!(rt; back.as_slice(), [0, 0xbb].as_slice());
    Ok(())
}

// A write into a block reads the node over it and the block, puts the block, reads the node again and
// puts the new one: five calls.
#[test]
fn a_write_into_a_block_makes_five_calls(rt: HostRuntime) -> Result<(), Fail> {
    let mut shelf = MemShelf::fresh(rt.alloc())?;
    let mut salts = Salts::new(SEED, 2);
    let first = write(rt.alloc(), &mut shelf, &mut salts, &EMPTY, 500, &pattern())?;
    shelf.fail_after(4);
    let fault = WriteError::Stopped(MacError::ShelfFault);
    let failed = write(rt.alloc(), &mut shelf, &mut salts, &first.object, 510, &[7]);
    assert_eq!(rt; failed.err(), Some(fault));
    assert_eq!(rt; salts.made(), 3);
    shelf.fail_after(5);
    write(rt.alloc(), &mut shelf, &mut salts, &first.object, 510, &[7])?;
    assert_eq!(rt;
        read(rt.alloc(), &mut shelf, &first.object, 0, 1).err(),
        Some(MacError::ShelfFault)
    );
    let old = read(rt.alloc(), &mut shelf, &first.object, 509, 513)?;
    assert_eq!(rt; old.as_slice(), [10, 11, 12, 13].as_slice());
    Ok(())
}

// Under another key the nodes pass, and a block that is opened fails.
fn write_under_another_key(
    alloc: Global,
    shelf: &mut MemShelf,
    object: &Object,
    from: u64,
    bytes: &[u8],
) -> Option<WriteError>
    requires object { IsObject 512 object.now }
    requires fits { from + length bytes.now ≤ 4294967296 }
{
    let key = MasterKey::new(1, Suite::Aes256Gcm, &[7; 32], [0; 64]);
    let mut salts = Salts::new(SEED, 2);
    write_range(alloc, &key, &mut salts, shelf, object, 512, from, bytes).err()
}

// Blocks that are written over whole aren't opened: neither the first one nor what the second stores.
#[test]
fn only_blocks_of_which_bytes_stay_are_opened(rt: HostRuntime) -> Result<(), Fail> {
    let mut shelf = MemShelf::fresh(rt.alloc())?;
    let mut salts = Salts::new(SEED, 2);
    let object = write(rt.alloc(), &mut shelf, &mut salts, &EMPTY, 500, &pattern())?.object;
    let whole = [9; 530];
    assert_eq!(rt;
        write_under_another_key(rt.alloc(), &mut shelf, &object, 0, &whole),
        None
    );
    let front = WriteError::Stopped(MacError::MacFailed { level: 0, index: 0 });
    assert_eq!(rt;
        write_under_another_key(rt.alloc(), &mut shelf, &object, 1, &whole),
        Some(front)
    );
    let back = WriteError::Stopped(MacError::MacFailed { level: 0, index: 1 });
    assert_eq!(rt;
        write_under_another_key(rt.alloc(), &mut shelf, &object, 0, &whole[..529]),
        Some(back)
    );
    Ok(())
}

// A cut into the first block seals its front anew; what is cut off is zeros, when the object grows again.
#[test]
fn a_cut_leaves_the_front(rt: HostRuntime) -> Result<(), Fail> {
    let mut shelf = MemShelf::fresh(rt.alloc())?;
    let mut salts = Salts::new(SEED, 2);
    let first = write(rt.alloc(), &mut shelf, &mut salts, &EMPTY, 500, &pattern())?;
    let short = cut(rt.alloc(), &mut shelf, &mut salts, &first.object, 503)?;
    assert_eq!(rt; short.object.length, 503);
    assert_eq!(rt; (short.first, short.refs.len()), (0, 1));
    let blocks = shelf.blocks();
    let long = cut(rt.alloc(), &mut shelf, &mut salts, &short.object, 600)?;
    assert_eq!(rt; shelf.blocks(), blocks);
    let bytes = read(rt.alloc(), &mut shelf, &long.object, 498, 530)?;
    let mut want = [0; 32];
    want[2..5].copy_from_slice(&[1, 2, 3]);
    assert_eq!(rt; bytes.as_slice(), want.as_slice());
    Ok(())
}

#[test]
fn a_cut_to_nothing_leaves_an_empty_tree(rt: HostRuntime) -> Result<(), Fail> {
    let mut shelf = MemShelf::fresh(rt.alloc())?;
    let mut salts = Salts::new(SEED, 2);
    let first = write(rt.alloc(), &mut shelf, &mut salts, &EMPTY, 16384, &[1])?;
    shelf.fail_after(0);
    let none = cut(rt.alloc(), &mut shelf, &mut salts, &first.object, 0)?;
    assert_eq!(rt; none.object, EMPTY);
    assert_eq!(rt; (none.refs.len(), none.last_number), (0, None));
    Ok(())
}

// The last byte that an object may have: its tree has five levels.
#[test]
fn the_last_byte_is_written(rt: HostRuntime) -> Result<(), Fail> {
    let mut shelf = MemShelf::fresh(rt.alloc())?;
    let mut salts = Salts::new(SEED, 2);
    let wrote = write(
        rt.alloc(),
        &mut shelf,
        &mut salts,
        &EMPTY,
        4_294_967_295,
        &[7],
    )?;
    assert_eq!(rt; wrote.object.tree.levels, 5);
    let bytes = read(
        rt.alloc(),
        &mut shelf,
        &wrote.object,
        4_294_967_294,
        4_294_967_296,
    )?;
    assert_eq!(rt; bytes.as_slice(), [0, 7].as_slice());
    Ok(())
}

// One draw is left, and two blocks would be sealed: nothing is put.
#[test]
fn too_few_draws_put_nothing(rt: HostRuntime) -> Result<(), Fail> {
    let mut shelf = MemShelf::fresh(rt.alloc())?;
    let mut salts = Salts::resume(SEED, 2, MAX_DRAWS - 1);
    let refused = write(rt.alloc(), &mut shelf, &mut salts, &EMPTY, 500, &pattern());
    assert_eq!(rt; refused.err(), Some(WriteError::DrawsFull));
    assert_eq!(rt; (shelf.blocks(), salts.made()), (0, MAX_DRAWS - 1));
    let one = write(rt.alloc(), &mut shelf, &mut salts, &EMPTY, 500, &[1])?;
    assert_eq!(rt; one.refs.len(), 1);
    Ok(())
}
