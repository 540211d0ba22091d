// The rows of a new table, and what the log tells of a change.
ghost use Rattle.std.specs.List.{AllPairs};
ghost use Rattle.std.specs.Prelude.{◌≡◌, ◌==◌, ◌+◌, ◌<◌, ◌≤◌, ◌∷◌, ◌++◌, [], Some, if◌then◌else◌, length, IfOk};
ghost use Rattle.std.specs.Option.{option_map_or};
ghost use Rattle.file_dataset.specs.Changes.{empty_row, greatest_object, put_row, refs_from, without_row};

use dataset_tree::NoMemory;
use family_log::{LengthAt, RefAt, TableRow};
use indirect_macs::{BlockRef, ObjTree};
use std::alloc::Global;

/// The greatest number of an object in rows whose numbers rise, 0 where there is none.
pub(crate) fn greatest_object(rows: &[TableRow]) -> u32
    requires { AllPairs (λ earlier later. earlier.object < later.object) rows.now }
    ensures { result ≡ greatest_object rows.now }
{
    match rows.last() {
        Some(row) => row.object,
        None => 0,
    }
}

/// The row of a file without bytes.
pub(crate) fn empty_row(object: u32) -> TableRow
    ensures { result ≡ empty_row object }
{
    TableRow {
        object,
        length: 0,
        tree: ObjTree {
            levels: 1,
            top: None,
        },
    }
}

/// The rows, and one more at the end.
pub(crate) fn rows_and(
    alloc: Global,
    rows: &[TableRow],
    row: TableRow,
) -> Result<Vec<TableRow>, NoMemory>
    ensures { IfOk result (λ list. list.items ≡ rows.now ++ row ∷ []) }
{
    let mut list = Vec::from_slice(alloc, rows)?;
    list.push(row)?;
    Ok(list)
}

/// The rows without that of this object.
pub(crate) fn rows_without(
    alloc: Global,
    rows: &[TableRow],
    object: u32,
) -> Result<Vec<TableRow>, NoMemory>
    ensures { IfOk result (λ list. list.items ≡ without_row object rows.now) }
{
    let mut list = Vec::from_slice(alloc, rows)?;
    list.retain(|row| row.object != object);
    Ok(list)
}

fn replaced(row: TableRow, new: &TableRow) -> TableRow
    ensures { result ≡ (if row.object == new.now.object then new.now else row) }
{
    if row.object == new.object { *new } else { row }
}

/// Puts a row in the place of that of its object.
pub(crate) fn put_row(rows: &mut [TableRow], new: &TableRow)
    ensures { rows.new ≡ put_row new.now rows.old }
{
    'rows: for row in rows.iter_mut() {
        *row = replaced(*row, new);
    }
}

/// The new length of an object, and of another one.
pub(crate) fn lengths_of(
    alloc: Global,
    object: u32,
    length: u64,
    other: Option<LengthAt>,
) -> Result<Vec<LengthAt>, NoMemory>
    ensures { IfOk result (λ list. list.items ≡ record { object = object; length = Some length }
        ∷ option_map_or (λ more. more ∷ []) other []) }
{
    let mut list = Vec::new(alloc);
    list.push(LengthAt {
        object,
        length: Some(length),
    })?;
    if let Some(more) = other {
        list.push(more)?;
    }
    Ok(list)
}

/// References to blocks of an object one after another, from this index on.
pub(crate) fn refs_of(
    alloc: Global,
    object: u32,
    first: u32,
    refs: &[Option<BlockRef>],
) -> Result<Vec<RefAt>, NoMemory>
    requires { first + length refs.now ≤ 8388608 }
    ensures { IfOk result (λ list. list.items ≡ refs_from object first refs.now) }
{
    let mut list = Vec::with_capacity(alloc, refs.len())?;
    let mut index = first;
    'refs: for to in refs {
        list.push(RefAt {
            object,
            index,
            to: *to,
        })?;
        index += 1;
    }
    Ok(list)
}
