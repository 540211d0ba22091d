// The portable MAC of a table.
ghost use Rattle.std.specs.Prelude.{◌≡◌, ℕ, List, ◌++◌, take};
ghost use Rattle.byte_fields.specs.LittleEndian.{little_endian_bytes};
ghost use Rattle.hmac_hkdf.specs.Hmac.{hmac512};
ghost use Rattle.hmac_hkdf.specs.States.{HasTaken};
ghost use Rattle.family_log.specs.Tables.{fresh_table};
ghost use Rattle.file_dataset.specs.Portable.{portable, row_bytes, top_mac};

use byte_fields::{put_u32, put_u64};
use family_log::{Table, TableRow};
use hmac_hkdf::Hmac512;
use indirect_macs::{NodeRef, ObjTree};

/// The bytes of a portable MAC.
const PORTABLE_LEN: usize = 32;

/// The portable MAC of a table under a family's HMAC key: the first 32 bytes of the HMAC with SHA-512 of the
/// record size, and of each object's number, length and top MAC. It takes no memory.
pub fn portable_of(key: &[u8; 64], table: &Table) -> [u8; 32]
    ensures { result ≡ portable key.now table.now }
{
    let mut mac = begun(key, table.block);
    'rows: for row in table.rows.as_slice() {
        add_row(&mut mac, row);
    }
    finished(mac)
}

/// The portable MAC of a fresh head with this record size in bytes, whose one object is an empty directory. It
/// takes no memory.
pub fn fresh_portable(hmac_key: &[u8; 64], block: u32) -> [u8; 32]
    ensures { (kept : List ℕ) → result ≡ portable hmac_key.now (fresh_table block kept) }
{
    let mut mac = begun(hmac_key, block);
    let directory = TableRow {
        object: 1,
        length: 0,
        tree: ObjTree {
            levels: 1,
            top: None,
        },
    };
    add_row(&mut mac, &directory);
    finished(mac)
}

// A state that has taken a table's record size.
fn begun(key: &[u8; 64], block: u32) -> Hmac512
    ensures { HasTaken result key.now (little_endian_bytes 4 block) }
{
    let mut mac = Hmac512::new(key);
    mac.update(&four_bytes(block));
    mac
}

// Adds an object's number, length and top MAC.
fn add_row(mac: &mut Hmac512, row: &TableRow)
    ensures { (key text : List ℕ) → HasTaken mac.old key text → HasTaken mac.new key (text ++ row_bytes row.now) }
{
    mac.update(&four_bytes(row.object));
    mac.update(&eight_bytes(row.length));
    mac.update(&top_mac(&row.tree.top));
}

fn four_bytes(number: u32) -> [u8; 4]
    ensures { result ≡ little_endian_bytes 4 number }
{
    let mut bytes = [0; 4];
    put_u32(&mut bytes, 0, number);
    bytes
}

fn eight_bytes(number: u64) -> [u8; 8]
    ensures { result ≡ little_endian_bytes 8 number }
{
    let mut bytes = [0; 8];
    put_u64(&mut bytes, 0, number);
    bytes
}

fn top_mac(top: &Option<NodeRef>) -> [u8; 16]
    ensures { result ≡ top_mac top.now }
{
    match top {
        Some(node) => node.mac,
        None => [0; 16],
    }
}

// The first bytes of the HMAC of what was taken.
fn finished(mac: Hmac512) -> [u8; 32]
    ensures { (key text : List ℕ) → HasTaken mac key text → result ≡ take 32 (hmac512 key text) }
{
    first_half(&mac.finish())
}

fn first_half(mac: &[u8; 64]) -> [u8; 32]
    ensures { result ≡ take 32 mac.now }
{
    let mut portable = [0; PORTABLE_LEN];
    portable.copy_from_slice(&mac[..PORTABLE_LEN]);
    portable
}
