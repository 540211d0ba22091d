// The families that are tried, and the key of all.
ghost use Rattle.std.specs.Prelude.{◌≡◌, ◌∷◌, ◌≤◌, [], Some, IfOk, OnOk};
ghost use Rattle.salt_rotation.specs.declared.salts.TheConstants.{MAX_SALT_USES};
ghost use Rattle.file_trials.specs.Sample.{fresh_entry, sample_entry, sample_table};

use dataset_tree::{NoMemory, Stop, Suite};
use family_log::{Family, HeadChange, LengthAt, Listed, LogEntry, Table, TableRow};
use file_dataset::fresh_portable;
use indirect_macs::{NodeRef, ObjTree};
use shelf_store::{MemShelf, Shelf, ShelfError};
use std::alloc::Global;
use std::test::Fail;
use wrapped_keys::MasterKey;

// From Python's package `cryptography`: what AES-256-GCM makes of a directory of the files `a`, object 2, and
// `b`, object 3, of the bytes 0 to 16 and of `hello`, the first and the third block of `a`, and of `beside`, the
// block of `b`, with the vectors of their entries and no additional data, under the keys that HKDF with SHA-512
// makes of a master key of the bytes from 128 on, with the salts of their entries as info.
const DIRECTORY: [u8; 12] = [
    0xa0, 0x1a, 0xe6, 0x8a, 0x18, 0xaf, 0xb3, 0x5f, 0xd3, 0xc9, 0xcf, 0x80,
];

const FIRST: [u8; 17] = [
    0x50, 0xbb, 0x43, 0x06, 0xf7, 0xf4, 0x9c, 0x34, 0x5e, 0xb4, 0x71, 0x07, 0x0a, 0xb9, 0xb9, 0xab,
    0x99,
];

const THIRD: [u8; 5] = [0x5c, 0x6d, 0x33, 0x4e, 0x43];

const BESIDE: [u8; 6] = [0xfa, 0x73, 0xd4, 0x1b, 0x9a, 0x9e];

// Their entries in nodes of level 1, with the tags that Python gives; they are at the addresses 0 to 3.
const DIRECTORY_ENTRY: [u8; 49] = [
    0x01, 0x0c, 0x00, 0x00, 0x00, 0x00, 0x00, 0x00, 0x00, 0x00, 0x00, 0x00, 0x00, 0x01, 0x01, 0x01,
    0x01, 0x01, 0x01, 0x01, 0x01, 0x65, 0x65, 0x65, 0x65, 0x65, 0x65, 0x65, 0x65, 0x65, 0x65, 0x65,
    0x65, 0x04, 0x19, 0xa2, 0x02, 0x57, 0xb0, 0x3c, 0xba, 0x3e, 0x83, 0x04, 0x28, 0x2b, 0xad, 0xbe,
    0xd0,
];

const FIRST_ENTRY: [u8; 49] = [
    0x01, 0x11, 0x00, 0x00, 0x00, 0x01, 0x00, 0x00, 0x00, 0x00, 0x00, 0x00, 0x00, 0x02, 0x02, 0x02,
    0x02, 0x02, 0x02, 0x02, 0x02, 0x66, 0x66, 0x66, 0x66, 0x66, 0x66, 0x66, 0x66, 0x66, 0x66, 0x66,
    0x66, 0x7c, 0xd6, 0x1b, 0x28, 0x82, 0xba, 0x69, 0x35, 0x8d, 0xeb, 0xf6, 0xba, 0x15, 0x6c, 0xff,
    0x83,
];

const THIRD_ENTRY: [u8; 49] = [
    0x01, 0x05, 0x00, 0x00, 0x00, 0x02, 0x00, 0x00, 0x00, 0x00, 0x00, 0x00, 0x00, 0x03, 0x03, 0x03,
    0x03, 0x03, 0x03, 0x03, 0x03, 0x67, 0x67, 0x67, 0x67, 0x67, 0x67, 0x67, 0x67, 0x67, 0x67, 0x67,
    0x67, 0x05, 0x37, 0xfb, 0x80, 0xfa, 0x0c, 0x26, 0x07, 0x01, 0xe3, 0x37, 0xdd, 0x51, 0x5f, 0x13,
    0x9c,
];

const BESIDE_ENTRY: [u8; 49] = [
    0x01, 0x06, 0x00, 0x00, 0x00, 0x03, 0x00, 0x00, 0x00, 0x00, 0x00, 0x00, 0x00, 0x04, 0x04, 0x04,
    0x04, 0x04, 0x04, 0x04, 0x04, 0x68, 0x68, 0x68, 0x68, 0x68, 0x68, 0x68, 0x68, 0x68, 0x68, 0x68,
    0x68, 0xce, 0xd6, 0x61, 0x30, 0xdc, 0x5d, 0xab, 0x9b, 0xb5, 0xef, 0xcb, 0xcd, 0x23, 0xb3, 0x2a,
    0xf5,
];

// The MACs of the nodes, at the addresses 4 to 6, by Python's hashlib.
const DIRECTORY_MAC: [u8; 16] = [
    0xc0, 0x36, 0xe3, 0x54, 0x4d, 0xea, 0xd6, 0x66, 0xdf, 0x7d, 0xc0, 0x03, 0xf0, 0x83, 0x0e, 0x1d,
];

const FILE_MAC: [u8; 16] = [
    0x04, 0x7d, 0x73, 0xe3, 0xff, 0x24, 0x0e, 0xdc, 0x15, 0x31, 0x9c, 0xe4, 0x33, 0x80, 0x94, 0x88,
];

const BESIDE_MAC: [u8; 16] = [
    0xdf, 0x21, 0xcc, 0x1a, 0x09, 0x3d, 0x79, 0x33, 0x0a, 0x3f, 0x3f, 0x70, 0x58, 0x9e, 0x7c, 0x54,
];

// The portable MAC of the table with these objects, with a key of 64 sevens, by Python's hmac.
const PORTABLE: [u8; 32] = [
    0x93, 0xfe, 0xce, 0xec, 0xde, 0x41, 0x18, 0x0a, 0xdc, 0x6d, 0xbe, 0xab, 0xb6, 0x8e, 0xd6, 0xaa,
    0x1f, 0xda, 0xe4, 0x11, 0x05, 0xcb, 0x36, 0xb5, 0x9e, 0x0f, 0xdd, 0xeb, 0x33, 0x05, 0xae, 0x1e,
];

fn node(entry: &[u8; 49]) -> [u8; 1568] {
    let mut node = [0; 1568];
    node[..49].copy_from_slice(entry);
    node
}

fn file_node() -> [u8; 1568] {
    let mut node = node(&FIRST_ENTRY);
    node[98..147].copy_from_slice(&THIRD_ENTRY);
    node
}

/// A master key of the bytes from 128 on.
pub(crate) fn master_key() -> MasterKey
    ensures { result.guid ≡ 1 }
{
    let mut master = [0; 32];
    let mut next = 128_u8;
    for byte in master.iter_mut() {
        *byte = next;
        next = next.wrapping_add(1);
    }
    MasterKey::new(1, Suite::Aes256Gcm, &master, [7; 64])
}

/// A family of a fresh head, the dataset 1, with 512 bytes a block: its salts serve so many draws each, and its log
/// has room for so many entries.
pub(crate) fn fresh(alloc: Global, limit: u64, room: u32) -> Result<Family<MemShelf>, NoMemory>
    requires limit_least { 1 ≤ limit }
    requires limit_most { limit ≤ MAX_SALT_USES }
    requires room_least { 1 ≤ room }
    requires room_most { room ≤ 1048576 }
    ensures guid { IfOk result (λ family. family.guid ≡ 1) }
    ensures block { IfOk result (λ family. family.block ≡ 512) }
    ensures log { IfOk result (λ family. family.log ≡ fresh_entry ∷ []) }
{
    let portable = fresh_portable(&[7; 64], 512);
    Family::make(alloc, 1, 512, [0; 32], limit, room, 1, portable)
}

fn row(object: u32, length: u64, addr: u64, mac: [u8; 16]) -> TableRow
    ensures { result ≡ record {
      object = object;
      length = length;
      tree = record { levels = 1; top = Some (record { addr = addr; mac = mac }) };
    } }
{
    TableRow {
        object,
        length,
        tree: ObjTree {
            levels: 1,
            top: Some(NodeRef { addr, mac }),
        },
    }
}

fn table(alloc: Global) -> Result<Table, NoMemory>
    ensures { IfOk result (λ table. table ≡ sample_table DIRECTORY_MAC FILE_MAC BESIDE_MAC PORTABLE) }
{
    let mut rows = Vec::new(alloc);
    rows.push(row(1, 12, 4, DIRECTORY_MAC))?;
    rows.push(row(2, 1030, 5, FILE_MAC))?;
    rows.push(row(3, 6, 6, BESIDE_MAC))?;
    Ok(Table {
        block: 512,
        rows: Listed::new(rows),
        portable: PORTABLE,
        guid: 0,
    })
}

fn length_at(object: u32, length: u64) -> LengthAt
    ensures { result ≡ record { object = object; length = Some length } }
{
    LengthAt {
        object,
        length: Some(length),
    }
}

fn entry(alloc: Global) -> Result<LogEntry, NoMemory>
    ensures { IfOk result (λ entry. entry ≡ sample_entry) }
{
    let mut lengths = Vec::new(alloc);
    lengths.push(length_at(1, 12))?;
    lengths.push(length_at(2, 1030))?;
    lengths.push(length_at(3, 6))?;
    Ok(LogEntry::Receive {
        head: 1,
        lengths: Listed::new(lengths),
        refs: Listed::new(Vec::new(alloc)),
    })
}

// Puts the blocks at the addresses 0 to 3, and the nodes over them behind.
fn put_objects(shelf: &mut MemShelf) -> Result<(), ShelfError> {
    for block in [
        DIRECTORY.as_slice(),
        FIRST.as_slice(),
        THIRD.as_slice(),
        BESIDE.as_slice(),
    ] {
        shelf.put(block)?;
    }
    for node in [node(&DIRECTORY_ENTRY), file_node(), node(&BESIDE_ENTRY)] {
        shelf.put(&node)?;
    }
    Ok(())
}

// Gives a fresh head the objects.
fn received(family: &mut Family<MemShelf>) -> Result<(), Stop>
    requires block { family.old.block ≡ 512 }
    requires log { family.old.log ≡ fresh_entry ∷ [] }
    ensures guid { OnOk result (family.new.guid ≡ family.old.guid) }
{
    let alloc = family.allocator();
    let table = table(alloc)?;
    let entry = entry(alloc)?;
    family.append_write(1, HeadChange { table, entry })?;
    Ok(())
}

/// A family whose head has the files `a` and `b`.
pub(crate) fn sampled(alloc: Global) -> Result<Family<MemShelf>, Fail>
    ensures { IfOk result (λ family. family.guid ≡ 1) }
{
    let mut family = fresh(alloc, 2, 20)?;
    put_objects(family.shelf())?;
    received(&mut family)?;
    Ok(family)
}
