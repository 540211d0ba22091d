// The rows of a table.
ghost use Rattle.std.specs.Prelude.{◌≡◌, ◌==◌, Ok, Err, IfOk, IfSome};
ghost use Rattle.std.specs.List.{find};
ghost use Rattle.std.specs.Option.{option_copied, option_map_or};
ghost use Rattle.dataset_tree.specs.declared.refusal.Refusal.TheVariants as refusals;
ghost use Rattle.family_log.specs.Tables.{IsRow, length_in, row_of};
ghost use Rattle.file_dataset.specs.Reads.{file_row};
ghost use Rattle.file_dataset.specs.Steps.{IsReadable};

use dataset_tree::{FileName, Refusal};
use family_log::{Table, TableRow};
use file_blocks::Object;
use file_directory::Directory;

fn row_in(rows: &[TableRow], object: u32) -> Option<&TableRow>
    ensures { option_copied result ≡ find (λ row. row.object == object) rows.now }
{
    rows.iter().find(|row| row.object == object)
}

/// The row of an object, if the table has it.
pub(crate) fn row_of(table: &Table, object: u32) -> Option<TableRow>
    ensures row { result ≡ row_of object table.now }
    ensures in_form { IsReadable table.now → IfSome result (IsRow table.now.block) }
{
    match row_in(table.rows.as_slice(), object) {
        Some(row) => Some(*row),
        None => None,
    }
}

/// The length of an object, 0 where the table doesn't have it.
pub(crate) fn length_of(table: &Table, object: u32) -> u64
    ensures { result ≡ option_map_or (λ n. n) (length_in table.now object) 0 }
{
    match row_in(table.rows.as_slice(), object) {
        Some(row) => row.length,
        None => 0,
    }
}

/// The row of the file with this name.
pub(crate) fn file_row(
    table: &Table,
    directory: &Directory,
    name: &FileName,
) -> Result<TableRow, Refusal>
    ensures row { result ≡ file_row table.now name.now directory.now }
    ensures in_form { IsReadable table.now → IfOk result (IsRow table.now.block) }
{
    match directory.find(name) {
        Some(object) => found_row(table, object),
        None => Err(Refusal::NoFile),
    }
}

fn found_row(table: &Table, object: u32) -> Result<TableRow, Refusal>
    ensures row { result ≡ option_map_or (λ row. Ok row) (row_of object table.now) (Err refusals.NoFile) }
    ensures in_form { IsReadable table.now → IfOk result (IsRow table.now.block) }
{
    match row_of(table, object) {
        Some(row) => Ok(row),
        None => Err(Refusal::NoFile),
    }
}

/// The bytes of a row.
pub(crate) fn object_of(row: &TableRow) -> Object
    ensures length { result.length ≡ row.now.length }
    ensures tree { result.tree ≡ row.now.tree }
{
    Object {
        length: row.length,
        tree: row.tree,
    }
}
