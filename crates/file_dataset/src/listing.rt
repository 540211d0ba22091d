// The names of files.
ghost use Rattle.std.specs.Prelude.{◌≡◌, IfErr, IfOk, IfSome};
ghost use Rattle.file_dataset.specs.Calls.{directory_blocks, tested_portable};
ghost use Rattle.file_dataset.specs.Reads.{file_rows, plain_names};
ghost use Rattle.file_dataset.specs.Steps.{Finds, IsReadable, IsUnreadBy, Walked};

use crate::file::FileRow;
use crate::halt::Halt;
use crate::reading::open_directory;
use crate::rows::length_of;
use block_crypt::BlockKey;
use dataset_tree::NoMemory;
use family_log::Table;
use file_directory::DirectoryEntry;
use shelf_store::Shelf;
use std::alloc::Global;

/// The files of a table's directory with their lengths, in byte order of the names.
pub(crate) fn read_names<K: BlockKey, B: Shelf>(
    alloc: Global,
    key: &K,
    hmac: &[u8; 64],
    shelf: &mut B,
    table: &Table,
) -> Result<Vec<FileRow>, Halt>
    requires { IsReadable table.now }
    ensures walked { Walked (directory_blocks table.now) result (B.told shelf.old) (B.told shelf.new) }
    ensures told { IfSome (B.told shelf.old).held (λ held. Finds (λ rows. rows.items)
        (plain_names (K.told key.now) hmac.now held table.now) result) }
    ensures before { IfErr (tested_portable hmac.now table.now)
        (IsUnreadBy result (B.told shelf.old) (B.told shelf.new)) }
{
    let directory = match open_directory(alloc, key, hmac, shelf, table) {
        Ok(directory) => directory,
        Err(halt) => return Err(halt),
    };
    match file_rows(alloc, table, directory.entries()) {
        Ok(rows) => Ok(rows),
        Err(_) => Err(Halt::NoMemory),
    }
}

fn file_rows(
    alloc: Global,
    table: &Table,
    entries: &[DirectoryEntry],
) -> Result<Vec<FileRow>, NoMemory>
    ensures { IfOk result (λ rows. rows.items ≡ file_rows table.now entries.now) }
{
    let mut rows = Vec::with_capacity(alloc, entries.len())?;
    'entries: for entry in entries {
        let name = entry.name.copy()?;
        rows.push(FileRow {
            name,
            length: length_of(table, entry.object),
        })?;
    }
    Ok(rows)
}
