// The test of all that a table has.
ghost use Rattle.std.specs.Prelude.{◌≡◌, ◌≤◌, length, IfErr, IfOk, IfSome};
ghost use Rattle.std.specs.List.{All};
ghost use Rattle.family_log.specs.Tables.{IsRecordSize, IsRow};
ghost use Rattle.file_blocks.specs.Objects.{blocks_for};
ghost use Rattle.file_dataset.specs.Calls.{all_blocks, blocks_in, tested_portable};
ghost use Rattle.file_dataset.specs.Reads.{plain_count, tested_row, tested_rows};
ghost use Rattle.file_dataset.specs.Steps.{Finds, IsReadable, IsUnreadBy, Walked};

use crate::halt::{Halt, halt_in};
use crate::reading::open_directory;
use crate::rows::object_of;
use block_crypt::BlockKey;
use family_log::{Table, TableRow};
use file_blocks::test_blocks;
use shelf_store::Shelf;
use std::alloc::Global;

// Tests an object: how many of its blocks are no holes, where each passes.
fn test_row<K: BlockKey, B: Shelf>(
    alloc: Global,
    key: &K,
    shelf: &mut B,
    block: u32,
    row: &TableRow,
) -> Result<u64, Halt>
    requires record_size { IsRecordSize block }
    requires row { IsRow block row.now }
    ensures walked { Walked (blocks_for block row.now.length) result (B.told shelf.old) (B.told shelf.new) }
    ensures bound { IfOk result (λ count. count ≤ 8388608) }
    ensures told { IfSome (B.told shelf.old).held (λ held. Finds (λ count. count)
        (tested_row (K.told key.now) held block row.now) result) }
{
    match test_blocks(alloc, key, shelf, &object_of(row), block) {
        Ok(count) => Ok(count),
        Err(stop) => Err(halt_in(row.object, stop)),
    }
}

// Tests these objects one after another, and counts the blocks of all.
fn test_rows<K: BlockKey, B: Shelf>(
    alloc: Global,
    key: &K,
    shelf: &mut B,
    block: u32,
    rows: &[TableRow],
) -> Result<u64, Halt>
    requires record_size { IsRecordSize block }
    requires rows { All (IsRow block) rows.now }
    requires few { length rows.now ≤ 1025 }
    ensures walked { Walked (blocks_in block rows.now) result (B.told shelf.old) (B.told shelf.new) }
    ensures told { IfSome (B.told shelf.old).held (λ held. Finds (λ count. count)
        (tested_rows (K.told key.now) held block rows.now) result) }
{
    let mut count = 0;
    'rows: for row in rows {
        match test_row(alloc, key, shelf, block, row) {
            Ok(more) => count += more,
            Err(halt) => return Err(halt),
        }
    }
    Ok(count)
}

/// Tests the portable MAC of a table, its directory, and all its objects: how many blocks are no holes,
/// where each passes.
pub(crate) fn test_all<K: BlockKey, B: Shelf>(
    alloc: Global,
    key: &K,
    hmac: &[u8; 64],
    shelf: &mut B,
    table: &Table,
) -> Result<u64, Halt>
    requires { IsReadable table.now }
    ensures walked { Walked (all_blocks table.now) result (B.told shelf.old) (B.told shelf.new) }
    ensures told { IfSome (B.told shelf.old).held (λ held. Finds (λ count. count)
        (plain_count (K.told key.now) hmac.now held table.now) result) }
    ensures before { IfErr (tested_portable hmac.now table.now)
        (IsUnreadBy result (B.told shelf.old) (B.told shelf.new)) }
{
    let _directory = match open_directory(alloc, key, hmac, shelf, table) {
        Ok(directory) => directory,
        Err(halt) => return Err(halt),
    };
    test_rows(alloc, key, shelf, table.block, table.rows.as_slice())
}
