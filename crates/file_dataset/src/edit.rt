// A change of a head: its new table, and what the log tells of it.
ghost use Rattle.std.specs.Prelude.{◌≡◌, ◌+◌, ◌≤◌, length, IfOk};
ghost use Rattle.std.specs.Option.{option_map_or};
ghost use Rattle.file_dataset.specs.Changes.{renewed, row_with};
ghost use Rattle.file_dataset.specs.ChangeSteps.{IsMadeOf};

use crate::kind::Kind;
use crate::new_rows::{lengths_of, put_row, refs_of};
use crate::portable::portable_of;
use crate::wrote::Wrote;
use dataset_tree::NoMemory;
use family_log::{HeadChange, LengthAt, Listed, Table, TableRow};
use file_blocks::Object;
use std::alloc::Global;

/// What a call changes of a head, beside the blocks of one object.
#[derive(Drop)]
pub(crate) struct Draft {
    pub kind: Kind,
    /// The object that gets new blocks.
    pub object: u32,
    /// The rows of the new table, with that of the object as it was.
    pub rows: Vec<TableRow>,
    /// The new length of another object.
    pub other: Option<LengthAt>,
}

/// What a call made of a head, and what a write answers.
#[derive(Drop)]
pub(crate) struct Made {
    pub change: HeadChange,
    pub wrote: Wrote,
}

/// The table with other rows, and with the portable MAC of what it then has.
fn new_table(hmac: &[u8; 64], table: &Table, rows: Vec<TableRow>) -> Table
    ensures { result ≡ renewed hmac.now (record table.now { rows = rows.items }) }
{
    let mut new = Table {
        block: table.block,
        rows: Listed::new(rows),
        portable: table.portable,
        guid: table.guid,
    };
    new.portable = portable_of(hmac, &new);
    new
}

/// What a write answers.
fn wrote_of(blocks: u32, last_number: Option<u64>) -> Wrote
    ensures { result ≡ record { blocks = blocks; number = option_map_or (λ number. number) last_number 0 } }
{
    Wrote {
        blocks,
        number: match last_number {
            Some(number) => number,
            None => 0,
        },
    }
}

/// The change of a head of which one object got these blocks.
pub(crate) fn made_of(
    alloc: Global,
    hmac: &[u8; 64],
    head: u32,
    table: &Table,
    draft: Draft,
    sealed: &file_blocks::Wrote,
) -> Result<Made, NoMemory>
    requires { sealed.now.first + length sealed.now.refs.items ≤ 8388608 }
    ensures { IfOk result (IsMadeOf hmac.now head table.now draft sealed.now) }
{
    let Draft {
        kind,
        object,
        rows,
        other,
    } = draft;
    let lengths = lengths_of(alloc, object, sealed.object.length, other)?;
    let refs = refs_of(alloc, object, sealed.first, sealed.refs.as_slice())?;
    let entry = kind.entry(head, Listed::new(lengths), Listed::new(refs));
    let mut rows = rows;
    put_row(rows.as_mut_slice(), &row_with(object, &sealed.object));
    let table = new_table(hmac, table, rows);
    let wrote = wrote_of(sealed.refs.len() as u32, sealed.last_number);
    Ok(Made {
        change: HeadChange { table, entry },
        wrote,
    })
}

fn row_with(object: u32, made: &Object) -> TableRow
    ensures { result ≡ row_with object made.now }
{
    TableRow {
        object,
        length: made.length,
        tree: made.tree,
    }
}
