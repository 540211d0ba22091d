// The rows of datasets and snapshots that the shell lists.
ghost use Rattle.std.specs.Prelude.{◌≡◌, ◌++◌, OnOk};
ghost use Rattle.std.specs.List.{flat_map};
ghost use Rattle.shell_run.specs.Reports.{listed};
ghost use Rattle.shell_run.specs.Texts.{snap_line};

use crate::reply::{push_number, push_set};
use dataset_tree::{NoMemory, Row, SetName, SnapPart};
use host_state::Host;
use shelf_store::Shelf;

/// Adds the rows of these datasets, each with its snapshots behind it, from the oldest on.
pub(crate) fn push_sets<B: Shelf>(
    text: &mut Vec<u8>,
    line: u32,
    host: &Host<B>,
    rows: &[Row],
) -> Result<(), NoMemory>
    ensures { OnOk result (text.new.items ≡ text.old.items ++ flat_map (listed line host.now) rows.now) }
{
    for row in rows {
        push_listed(text, line, host, row)?;
    }
    Ok(())
}

fn push_listed<B: Shelf>(
    text: &mut Vec<u8>,
    line: u32,
    host: &Host<B>,
    row: &Row,
) -> Result<(), NoMemory>
    ensures { OnOk result (text.new.items ≡ text.old.items ++ listed line host.now row.now) }
{
    push_set(text, line, host.keys(), row)?;
    push_snaps(text, line, &row.name, host.snaps(row.id))
}

/// Adds the rows of a dataset's snapshots.
fn push_snaps(
    text: &mut Vec<u8>,
    line: u32,
    set: &SetName,
    parts: &[SnapPart],
) -> Result<(), NoMemory>
    ensures { OnOk result (text.new.items ≡ text.old.items ++ flat_map (snap_line line set.now) parts.now) }
{
    for part in parts {
        push_snap(text, line, set, part)?;
    }
    Ok(())
}

fn push_snap(text: &mut Vec<u8>, line: u32, set: &SetName, part: &SnapPart) -> Result<(), NoMemory>
    ensures { OnOk result (text.new.items ≡ text.old.items ++ snap_line line set.now part.now) }
{
    push_number(text, line as u64)?;
    text.extend_from_slice(b" snap ")?;
    text.extend_from_slice(set.as_bytes())?;
    text.extend_from_slice(b"@")?;
    text.extend_from_slice(part.as_bytes())?;
    text.extend_from_slice(b"\n")
}
