// The bytes of objects, and the directory.
ghost use Rattle.std.specs.Prelude.{◌≡◌, ◌+◌, false, IfErr, IfOk, IfSome};
ghost use Rattle.dataset_tree.specs.declared.refusal.Refusal.TheVariants as refusals;
ghost use Rattle.family_log.specs.Tables.{IsRecordSize, IsRow};
ghost use Rattle.file_blocks.specs.Objects.{count_touched};
ghost use Rattle.file_directory.specs.Form.{IsDirectory, objects_of};
ghost use Rattle.file_directory.specs.Reading.{directory_answer, read_directory};
ghost use Rattle.file_dataset.specs.declared.halt.Halt.TheVariants as halts;
ghost use Rattle.file_dataset.specs.Calls.{directory_blocks, range_blocks, tested_portable};
ghost use Rattle.file_dataset.specs.Reads.{has_portable, held_directory, held_entries, held_text, plain_read, row_range};
ghost use Rattle.file_dataset.specs.Steps.{Finds, IsOneHalt, IsReadHalt, IsReadable, IsUnreadBy, Walked, directory_stops, is_fault};

use crate::halt::{Halt, halt_in, halt_of};
use crate::portable::portable_of;
use crate::rows::{file_row, object_of, row_of};
use block_crypt::BlockKey;
use dataset_tree::{FileName, Refusal};
use family_log::{Table, TableRow};
use file_blocks::read_range;
use file_directory::Directory;
use shelf_store::Shelf;
use std::alloc::Global;

/// The object of the directory.
const DIRECTORY: u32 = 1;

/// The bytes of an object from a place on, at most so many, and none past its end, where `block` is the
/// record size.
fn read_row<K: BlockKey, B: Shelf>(
    alloc: Global,
    key: &K,
    shelf: &mut B,
    block: u32,
    row: &TableRow,
    from: u64,
    len: u64,
) -> Result<Vec<u8>, Halt>
    requires record_size { IsRecordSize block }
    requires row { IsRow block row.now }
    ensures walked { Walked (count_touched block from (from + len)) result
        (B.told shelf.old) (B.told shelf.new) }
    ensures told { IfSome (B.told shelf.old).held (λ held. Finds (λ bytes. bytes.items)
        (row_range (K.told key.now) held block row.now from len) result) }
    ensures among { IfErr result (IsOneHalt directory_stops) }
{
    let start = from.min(row.length);
    let end = start.saturating_add(len).min(row.length);
    match read_range(alloc, key, shelf, &object_of(row), block, start, end) {
        Ok(bytes) => Ok(bytes),
        Err(stop) => Err(halt_in(row.object, stop)),
    }
}

/// The text of the directory.
fn read_text<K: BlockKey, B: Shelf>(
    alloc: Global,
    key: &K,
    shelf: &mut B,
    table: &Table,
) -> Result<Vec<u8>, Halt>
    requires { IsReadable table.now }
    ensures walked { Walked (directory_blocks table.now) result (B.told shelf.old) (B.told shelf.new) }
    ensures told { IfSome (B.told shelf.old).held (λ held. Finds (λ bytes. bytes.items)
        (held_text (K.told key.now) held table.now) result) }
    ensures among { IfErr result (IsOneHalt directory_stops) }
{
    match row_of(table, DIRECTORY) {
        Some(row) => read_row(alloc, key, shelf, table.block, &row, 0, row.length),
        None => Ok(Vec::new(alloc)),
    }
}

fn parsed(alloc: Global, text: &[u8], table: &Table) -> Result<Directory, Halt>
    ensures answer { Finds (λ directory. directory) (directory_answer (read_directory (objects_of table.now) text.now))
        result }
    ensures among { IfErr result IsReadHalt }
    ensures stops { IfErr result (IsOneHalt directory_stops) }
    ensures fault { is_fault result ≡ false }
    ensures in_form { IfOk result (IsDirectory (objects_of table.now)) }
{
    match Directory::parse(alloc, text, table) {
        Ok(directory) => Ok(directory),
        Err(stop) => Err(halt_of(stop)),
    }
}

fn read_directory<K: BlockKey, B: Shelf>(
    alloc: Global,
    key: &K,
    shelf: &mut B,
    table: &Table,
) -> Result<Directory, Halt>
    requires { IsReadable table.now }
    ensures walked { Walked (directory_blocks table.now) result (B.told shelf.old) (B.told shelf.new) }
    ensures told { IfSome (B.told shelf.old).held (λ held. Finds (λ directory. directory)
        (held_entries (K.told key.now) held table.now) result) }
    ensures among { IfErr result (IsOneHalt directory_stops) }
    ensures in_form { IfOk result (IsDirectory (objects_of table.now)) }
{
    match read_text(alloc, key, shelf, table) {
        Ok(text) => parsed(alloc, text.as_slice(), table),
        Err(halt) => Err(halt),
    }
}

/// The directory of a table, whose portable MAC is tested before it is read.
pub(crate) fn open_directory<K: BlockKey, B: Shelf>(
    alloc: Global,
    key: &K,
    hmac: &[u8; 64],
    shelf: &mut B,
    table: &Table,
) -> Result<Directory, Halt>
    requires { IsReadable table.now }
    ensures walked { Walked (directory_blocks table.now) result (B.told shelf.old) (B.told shelf.new) }
    ensures told { IfSome (B.told shelf.old).held (λ held. Finds (λ directory. directory)
        (held_directory (K.told key.now) hmac.now held table.now) result) }
    ensures among { IfErr result (IsOneHalt directory_stops) }
    ensures before { IfErr (tested_portable hmac.now table.now)
        (IsUnreadBy result (B.told shelf.old) (B.told shelf.new)) }
    ensures in_form { IfOk result (IsDirectory (objects_of table.now)) }
{
    if has_portable(hmac, table) {
        read_directory(alloc, key, shelf, table)
    } else {
        Err(bad_portable())
    }
}

// What ends a call where the portable MAC differs.
fn bad_portable() -> Halt
    ensures { result ≡ halts.Refused (refusals.MacFailed 0 0 0) }
{
    Halt::Refused(Refusal::MacFailed {
        object: 0,
        level: 0,
        index: 0,
    })
}

fn has_portable(hmac: &[u8; 64], table: &Table) -> bool
    ensures { result ≡ has_portable hmac.now table.now }
{
    portable_of(hmac, table) == table.portable
}

/// The bytes of a file from a place on, at most so many, and none past its end.
pub(crate) fn read_file<K: BlockKey, B: Shelf>(
    alloc: Global,
    key: &K,
    hmac: &[u8; 64],
    shelf: &mut B,
    table: &Table,
    name: &FileName,
    from: u64,
    len: u64,
) -> Result<Vec<u8>, Halt>
    requires { IsReadable table.now }
    ensures walked { Walked (range_blocks from len table.now) result (B.told shelf.old) (B.told shelf.new) }
    ensures told { IfSome (B.told shelf.old).held (λ held. Finds (λ bytes. bytes.items)
        (plain_read (K.told key.now) hmac.now held name.now from len table.now) result) }
    ensures before { IfErr (tested_portable hmac.now table.now)
        (IsUnreadBy result (B.told shelf.old) (B.told shelf.new)) }
{
    let directory = match open_directory(alloc, key, hmac, shelf, table) {
        Ok(directory) => directory,
        Err(halt) => return Err(halt),
    };
    match file_row(table, &directory, name) {
        Ok(row) => read_row(alloc, key, shelf, table.block, &row, from, len),
        Err(why) => Err(Halt::Refused(why)),
    }
}
