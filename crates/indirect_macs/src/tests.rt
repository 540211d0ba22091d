// Worked trees, and how many calls of a shelf are made.
ghost use Rattle.std.specs.Prelude.{◌^◌, ◌≡◌, ◌≤◌};

use crate::{BlockRef, MacError, NodeRef, ObjTree, fold_mac, lookup, lookup_group, replace_run};
use shelf_store::{MemShelf, Shelf};
use std::alloc::Global;
use std::process::Abort;
use std::test::Fail;

// A block of 512 bytes at address 7, with a salt, an initialization vector and a MAC of bytes 1, 2
// and 3.
const BLOCK: BlockRef = BlockRef {
    size: 512,
    addr: 7,
    salt: [1; 8],
    iv: [2; 12],
    mac: [3; 16],
};

// Its entry in a node of level 1.
const ENTRY: [u8; 49] = [
    0x01, 0x00, 0x02, 0x00, 0x00, 0x07, 0x00, 0x00, 0x00, 0x00, 0x00, 0x00, 0x00, 0x01, 0x01, 0x01,
    0x01, 0x01, 0x01, 0x01, 0x01, 0x02, 0x02, 0x02, 0x02, 0x02, 0x02, 0x02, 0x02, 0x02, 0x02, 0x02,
    0x02, 0x03, 0x03, 0x03, 0x03, 0x03, 0x03, 0x03, 0x03, 0x03, 0x03, 0x03, 0x03, 0x03, 0x03, 0x03,
    0x03,
];

// The MACs of nodes, by Python's hashlib: of level 1 with the block in its second entry, of level 2
// with that node in its second entry, and of level 3 over 1025 blocks of which the last is no hole.
const MAC_1: [u8; 16] = [
    0x1a, 0xdc, 0x40, 0x92, 0x77, 0x9f, 0x7a, 0xa7, 0x62, 0xbf, 0x93, 0x26, 0xb4, 0x7e, 0x92, 0xc7,
];

const MAC_2: [u8; 16] = [
    0xd8, 0x93, 0x0b, 0x3a, 0xaa, 0x65, 0x4b, 0xc0, 0xf8, 0x03, 0xae, 0x9d, 0x09, 0xe7, 0x6c, 0x40,
];

const MAC_3: [u8; 16] = [
    0xdb, 0x17, 0x5f, 0x26, 0x62, 0x31, 0xeb, 0xeb, 0x0d, 0x03, 0x63, 0xb8, 0x32, 0x8c, 0x64, 0x35,
];

// The tree of 64 blocks of which only block 33 is no hole, where its nodes are at 0 and 1.
const TREE: ObjTree = ObjTree {
    levels: 2,
    top: Some(NodeRef {
        addr: 1,
        mac: MAC_2,
    }),
};

fn leaf() -> [u8; 1568] {
    let mut node = [0; 1568];
    node[49..98].copy_from_slice(&ENTRY);
    node
}

fn top() -> [u8; 800] {
    let mut node = [0; 800];
    node[25] = 1;
    node[34..50].copy_from_slice(&MAC_1);
    node
}

#[test]
fn macs_are_those_of_another_implementation(rt: HostRuntime) -> Result<(), Fail> {
    let alloc = rt.alloc();
    assert_eq!(rt; fold_mac(alloc, &[]), Ok(None));
    assert_eq!(rt; fold_mac(alloc, &[None; 40]), Ok(None));
    assert_eq!(rt; fold_mac(alloc, &[None, Some(BLOCK)]), Ok(Some(MAC_1)));
    let mut refs = [None; 1025];
    refs[33] = Some(BLOCK);
    assert_eq!(rt; fold_mac(alloc, &refs[..34]), Ok(Some(MAC_2)));
    refs[33] = None;
    refs[1024] = Some(BLOCK);
    assert_eq!(rt; fold_mac(alloc, &refs), Ok(Some(MAC_3)));
    Ok(())
}

#[test]
fn a_block_is_found_and_a_hole_is_none(rt: HostRuntime) -> Result<(), Fail> {
    let mut shelf = MemShelf::fresh(rt.alloc())?;
    assert_eq!(rt; shelf.put(&leaf()), Ok(0));
    assert_eq!(rt; shelf.put(&top()), Ok(1));
    assert_eq!(rt; lookup(&TREE, &mut shelf, 33, 512), Ok(Some(BLOCK)));
    assert_eq!(rt; lookup(&TREE, &mut shelf, 32, 512), Ok(None));
    assert_eq!(rt; lookup(&TREE, &mut shelf, 0, 512), Ok(None));
    let failed = MacError::MacFailed { level: 1, index: 1 };
    assert_eq!(rt; lookup(&TREE, &mut shelf, 33, 511), Err(failed));
    Ok(())
}

#[test]
fn the_first_place_that_fails_is_named(rt: HostRuntime) -> Result<(), Fail> {
    let mut shelf = MemShelf::fresh(rt.alloc())?;
    assert_eq!(rt; shelf.put(&leaf()), Ok(0));
    assert_eq!(rt; shelf.put(&top()), Ok(1));
    assert_eq!(rt; shelf.alter(0, 80, 1), Ok(()));
    let failed = MacError::MacFailed { level: 1, index: 1 };
    assert_eq!(rt; lookup(&TREE, &mut shelf, 33, 512), Err(failed));
    assert_eq!(rt; lookup(&TREE, &mut shelf, 0, 512), Ok(None));
    assert!(rt; lookup_group(&TREE, &mut shelf, 63, 512) == Err(failed));
    let other = ObjTree {
        levels: 2,
        top: Some(NodeRef {
            addr: 1,
            mac: MAC_1,
        }),
    };
    let top_failed = MacError::MacFailed { level: 2, index: 0 };
    assert_eq!(rt; lookup(&other, &mut shelf, 33, 512), Err(top_failed));
    Ok(())
}

// Block 33 is the second of its group. The nodes over a group are read once, two of them here.
#[test]
fn a_group_is_found_by_one_walk(rt: HostRuntime) -> Result<(), Fail> {
    let mut shelf = MemShelf::fresh(rt.alloc())?;
    assert_eq!(rt; shelf.put(&leaf()), Ok(0));
    assert_eq!(rt; shelf.put(&top()), Ok(1));
    let mut group = [None; 32];
    assert!(rt; lookup_group(&TREE, &mut shelf, 31, 512) == Ok(group));
    group[1] = Some(BLOCK);
    shelf.fail_after(2);
    assert!(rt; lookup_group(&TREE, &mut shelf, 63, 512) == Ok(group));
    let fault = Err(MacError::ShelfFault);
    assert!(rt; lookup_group(&TREE, &mut shelf, 63, 512) == fault);
    Ok(())
}

// The leaf's address isn't under the top's MAC. Where it names no block, the leaf isn't read, and an
// armed failure stays for the next call.
#[test]
fn a_node_that_is_not_there_is_not_read(rt: HostRuntime) -> Result<(), Fail> {
    let mut shelf = MemShelf::fresh(rt.alloc())?;
    assert_eq!(rt; shelf.put(&leaf()), Ok(0));
    assert_eq!(rt; shelf.put(&top()), Ok(1));
    assert_eq!(rt; shelf.alter(1, 26, 4), Ok(()));
    shelf.fail_after(1);
    let failed = MacError::MacFailed { level: 1, index: 1 };
    assert_eq!(rt; lookup(&TREE, &mut shelf, 33, 512), Err(failed));
    assert_eq!(rt;
        lookup(&TREE, &mut shelf, 33, 512),
        Err(MacError::ShelfFault)
    );
    Ok(())
}

// A run of one block makes the tree above. A cut that loses the block leaves a hole, and puts
// nothing.
#[test]
fn runs_are_put_and_cut(rt: HostRuntime) -> Result<(), Fail> {
    let alloc = rt.alloc();
    let mut shelf = MemShelf::fresh(alloc)?;
    let empty = ObjTree {
        levels: 1,
        top: None,
    };
    let put = replace_run(alloc, &empty, &mut shelf, 64, 33, &[Some(BLOCK)], 512);
    assert_eq!(rt; put, Ok(TREE));
    let cut = replace_run(alloc, &TREE, &mut shelf, 33, 33, &[], 512);
    let hole = ObjTree {
        levels: 2,
        top: None,
    };
    assert_eq!(rt; cut, Ok(hole));
    assert_eq!(rt; shelf.blocks(), 2);
    Ok(())
}

// A run: how many blocks the tree is then to have, where the run begins, and of how many references it is.
type Extent = (u32, u32, u16);

// The run that makes a tree, one that is put into that tree, and how many nodes this one reads and puts.
type PutRow = (Extent, Extent, u16, u16);

// Runs that end at or cross 32, 1024 and 32^4 blocks: eight where the levels stay, seven where they grow, and
// two cuts. The nodes are counted by Python, in sets of blocks. Six rows have as many as there may be.
const RUNS: [PutRow; 17] = [
    ((32, 31, 1), (32, 31, 1), 1, 1),
    ((33, 31, 2), (33, 31, 2), 3, 3),
    ((1024, 1023, 1), (1024, 1023, 1), 2, 2),
    ((1025, 1023, 2), (1025, 1023, 2), 5, 5),
    ((1_048_576, 1_048_575, 1), (1_048_576, 1_048_575, 1), 4, 4),
    ((1_048_577, 1_048_575, 2), (1_048_577, 1_048_575, 2), 9, 9),
    (
        (1_048_609, 1_048_575, 34),
        (1_048_609, 1_048_575, 34),
        10,
        10,
    ),
    (
        (1_049_601, 1_048_575, 1026),
        (1_049_601, 1_048_575, 1026),
        42,
        42,
    ),
    ((32, 31, 1), (33, 31, 2), 1, 3),
    ((32, 31, 1), (33, 32, 1), 0, 2),
    ((1024, 1023, 1), (1025, 1023, 2), 2, 5),
    ((1_048_576, 1_048_575, 1), (1_048_577, 1_048_575, 2), 4, 9),
    ((1, 0, 1), (2_097_153, 2_097_151, 2), 0, 12),
    ((1, 0, 1), (2_097_185, 2_097_151, 34), 0, 13),
    ((1, 0, 1), (2_098_177, 2_097_151, 1026), 0, 45),
    ((1025, 1022, 3), (1023, 1023, 0), 3, 2),
    ((1_048_577, 1_048_575, 2), (1_048_576, 1_048_576, 0), 5, 0),
];

// The run that makes a tree, and how many nodes of it are on the way to a block.
const WAYS: [(Extent, u32, u16); 10] = [
    ((32, 31, 1), 31, 1),
    ((33, 31, 2), 32, 2),
    ((1024, 1023, 1), 1023, 2),
    ((1025, 1023, 2), 1024, 3),
    ((1_048_576, 1_048_575, 1), 1_048_575, 4),
    ((1_048_577, 1_048_575, 2), 1_048_575, 5),
    ((1_048_577, 1_048_575, 2), 1_048_576, 5),
    ((1_048_577, 1_048_575, 2), 1_048_543, 4),
    ((1_048_577, 1_048_575, 2), 0, 2),
    ((33, 32, 1), 31, 1),
];

// The room of a tree.
fn room(levels: u8) -> u32
    ensures { levels ≤ 5 → result ≡ 32 ^ levels }
{
    match levels {
        0 => 1,
        1 => 32,
        2 => 1024,
        3 => 32_768,
        4 => 1_048_576,
        _ => 33_554_432,
    }
}

// Puts a run of references to the block of an address.
fn put(
    rt: &impl Abort,
    alloc: Global,
    tree: &ObjTree,
    shelf: &mut MemShelf,
    run: Extent,
    addr: u64,
) -> Result<ObjTree, MacError> {
    let (blocks, from, count) = run;
    let block = BlockRef { addr, ..BLOCK };
    let refs = vec![in alloc; Some(block); usize::from(count)]?;
    assert!(rt; 1 <= tree.levels && tree.levels <= 5);
    assert!(rt; blocks <= 8_388_608 && from <= blocks && u32::from(count) <= blocks - from);
    replace_run(alloc, tree, shelf, blocks, from, &refs, 512)
}

// With the call behind the last one armed the run ends, and with the last one armed it fails.
fn assert_run_counts(rt: &impl Abort, alloc: Global, row: PutRow) -> Result<(), Fail> {
    let (made, run, reads, puts) = row;
    let empty = ObjTree {
        levels: 1,
        top: None,
    };
    let mut shelf = MemShelf::fresh(alloc)?;
    let tree = put(rt, alloc, &empty, &mut shelf, made, 7)?;
    let mut failing = shelf.copy()?;
    let before = shelf.blocks();
    let calls = u64::from(reads) + u64::from(puts);
    shelf.fail_after(calls);
    let after = put(rt, alloc, &tree, &mut shelf, run, 8)?;
    assert_eq!(rt; shelf.blocks().checked_sub(before), Some(u64::from(puts)));
    failing.fail_after(calls.saturating_sub(1));
    let failed = put(rt, alloc, &tree, &mut failing, run, 8);
    assert_eq!(rt; failed, Err(MacError::ShelfFault));
    let most = if after.levels > tree.levels { 12 } else { 9 };
    assert!(rt; reads <= run.2 / 31 + 9 && puts <= run.2 / 31 + most);
    Ok(())
}

fn assert_way_counts(
    rt: &impl Abort,
    alloc: Global,
    made: Extent,
    index: u32,
    nodes: u16,
) -> Result<(), Fail> {
    let empty = ObjTree {
        levels: 1,
        top: None,
    };
    let mut shelf = MemShelf::fresh(alloc)?;
    let tree = put(rt, alloc, &empty, &mut shelf, made, 7)?;
    assert!(rt; 1 <= tree.levels && tree.levels <= 5);
    assert!(rt; index < room(tree.levels) && nodes <= u16::from(tree.levels));
    shelf.fail_after(u64::from(nodes));
    assert!(rt; lookup(&tree, &mut shelf, index, 512).is_ok());
    shelf.fail_after(u64::from(nodes).saturating_sub(1));
    let failed = lookup(&tree, &mut shelf, index, 512);
    assert_eq!(rt; failed, Err(MacError::ShelfFault));
    Ok(())
}

#[test]
fn runs_and_lookups_make_few_calls(rt: HostRuntime) -> Result<(), Fail> {
    for row in RUNS {
        assert_run_counts(&rt, rt.alloc(), row)?;
    }
    for (made, index, nodes) in WAYS {
        assert_way_counts(&rt, rt.alloc(), made, index, nodes)?;
    }
    Ok(())
}
