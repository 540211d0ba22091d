// The heads of a family.
ghost use Rattle.std.specs.Prelude.{◌≡◌, ◌==◌, ◌↔◌, ◌≤◌, ◌++◌, ◌∷◌, [], length, not, All, IfOk, OnOk, OnErr, IsTrue};
ghost use Rattle.std.specs.List.{filter, position};
ghost use Rattle.std.specs.Option.{option_copied, option_map};
ghost use Rattle.std.specs.Str.{bytes_eq};

use crate::listed::Listed;
use crate::same::{Same, same_items};
use crate::table::Table;
use dataset_tree::{NoMemory, SnapPart};
use std::alloc::Global;

/// How many snapshots the heads of a family have together at most.
pub const MAX_SNAPSHOTS: u32 = 64;

const _: () = prove!(MAX_SNAPSHOTS == 64);

/// A dataset of a family: its table, and its snapshots in the order they were made. `parts` has their
/// names, and `tables` at the same places the tables that they keep.
#[derive(Drop)]
pub struct Head {
    pub id: u32,
    pub table: Table,
    pub parts: Listed<SnapPart>,
    pub tables: Listed<Table>,
}

impl Head {
    ghost use Rattle.family_log.specs.Model.{snap_table, table_in};
    ghost use Rattle.family_log.specs.Calls.{snapshots_of};
    ghost use Rattle.family_log.specs.Snapshots.{with_snapshot, without_snapshot};

    // The head's own table, or that of a snapshot.
    pub(crate) fn table_of(&self, snap: &Option<SnapPart>) -> Option<&Table>
        ensures { option_copied result ≡ table_in snap.now self.now }
    {
        match snap {
            Some(part) => self.snap_table(part),
            None => Some(&self.table),
        }
    }

    fn snap_table(&self, part: &SnapPart) -> Option<&Table>
        ensures { option_copied result ≡ snap_table part.now self.now }
    {
        match part_at(self.parts.as_slice(), part) {
            Some(at) => self.tables.as_slice().get(at),
            None => None,
        }
    }

    // Whether the heads have the same snapshots, with the same tables.
    fn same_snapshots(&self, other: &Head) -> bool
        ensures { IsTrue result ↔ (snapshots_of self.now ≡ snapshots_of other.now) }
    {
        same_items(self.parts.as_slice(), other.parts.as_slice())
            && same_items(self.tables.as_slice(), other.tables.as_slice())
    }

    // Makes a snapshot, which has the head's own table.
    fn add_snapshot(&mut self, part: &SnapPart, guid: u64) -> Result<(), NoMemory>
        ensures added { OnOk result (self.new ≡ with_snapshot part.now guid self.old) }
        ensures err { OnErr result (self.new ≡ self.old) }
    {
        let table = self.table.copy()?.with_guid(guid);
        let part = part.copy()?;
        let count = self.parts.count();
        self.parts.push(part)?;
        match self.tables.push(table) {
            Ok(()) => Ok(()),
            Err(stop) => {
                self.parts.truncate(count);
                Err(stop)
            }
        }
    }

    // Takes out the snapshot of this name, if there is one.
    fn remove_snapshot(&mut self, part: &SnapPart)
        requires { length self.old.tables ≡ length self.old.parts }
        ensures { self.new ≡ without_snapshot part.now self.old }
    {
        if let Some(at) = part_at(self.parts.as_slice(), part) {
            self.parts.remove(at);
            self.tables.remove(at);
        }
    }

    // An equal head.
    pub(crate) fn copy(&self, alloc: Global) -> Result<Head, NoMemory>
        ensures { IfOk result (λ head. head ≡ self.now) }
    {
        let table = self.table.copy()?;
        let parts = copied_parts(alloc, self.parts.as_slice())?;
        let tables = copied_tables(alloc, self.tables.as_slice())?;
        Ok(Head {
            id: self.id,
            table,
            parts,
            tables,
        })
    }
}

ghost use Rattle.family_log.specs.Model.{head_of, snapshot_count};
ghost use Rattle.family_log.specs.Calls.{snapshots_of, with_head, with_table};
ghost use Rattle.family_log.specs.Snapshots.{clone_of, with_snapshot, without_snapshot};

// The place of the snapshot with this name.
fn part_at(parts: &[SnapPart], part: &SnapPart) -> Option<usize>
    ensures { result ≡ position (λ other. bytes_eq other part.now) parts.now }
{
    parts
        .iter()
        .position(|other| other.as_bytes() == part.as_bytes())
}

/// The head of a dataset.
pub fn head_of(heads: &[Head], id: u32) -> Option<&Head>
    ensures { option_copied result ≡ head_of id heads.now }
{
    heads.iter().find(|head| head.id == id)
}

/// Gives a head a new table of its own, without a guid. Where there is no such head nothing changes.
pub fn put_table(heads: &mut Vec<Head>, id: u32, table: Table)
    ensures { heads.new.items ≡ with_table id table heads.old.items }
{
    if let Some(at) = place_of(heads.as_slice(), id) {
        heads[at].table = table.with_guid(0);
    }
}

/// Makes a snapshot of a head. Where there is no such head nothing changes, and nothing after an `Err`.
pub fn add_snapshot(
    heads: &mut Vec<Head>,
    id: u32,
    part: &SnapPart,
    guid: u64,
) -> Result<(), NoMemory>
    ensures added { OnOk result (heads.new.items ≡ with_head id (with_snapshot part.now guid) heads.old.items) }
    ensures err { OnErr result (heads.new.items ≡ heads.old.items) }
{
    match place_of(heads.as_slice(), id) {
        Some(at) => heads[at].add_snapshot(part, guid),
        None => Ok(()),
    }
}

/// Takes a snapshot out of a head. Where there is no such head or snapshot nothing changes.
pub fn remove_snapshot(heads: &mut Vec<Head>, id: u32, part: &SnapPart)
    requires { All (λ head. length head.tables ≡ length head.parts) heads.old.items }
    ensures { heads.new.items ≡ with_head id (without_snapshot part.now) heads.old.items }
{
    if let Some(at) = place_of(heads.as_slice(), id) {
        heads[at].remove_snapshot(part);
    }
}

/// Adds a head with this table and no snapshots. After an `Err` nothing has changed.
pub fn add_head(heads: &mut Vec<Head>, id: u32, table: Table) -> Result<(), NoMemory>
    ensures added { OnOk result (heads.new.items ≡ heads.old.items ++ clone_of id table ∷ []) }
    ensures err { OnErr result (heads.new.items ≡ heads.old.items) }
{
    let alloc = *heads.allocator();
    heads.push(Head {
        id,
        table: table.with_guid(0),
        parts: Listed::new(Vec::new(alloc)),
        tables: Listed::new(Vec::new(alloc)),
    })?;
    Ok(())
}

/// Takes out the head of a dataset, if there is one.
pub fn remove_head(heads: &mut Vec<Head>, id: u32)
    ensures { heads.new.items ≡ filter (λ head. not (head.id == id)) heads.old.items }
{
    heads.retain(|head| head.id != id);
}

/// How many snapshots the heads have together.
pub fn snapshot_count(heads: &[Head]) -> u32
    requires { snapshot_count heads.now ≤ MAX_SNAPSHOTS }
    ensures { result ≡ snapshot_count heads.now }
{
    let mut count = 0;
    'heads: for head in heads {
        count += head.parts.count();
    }
    count as u32
}

// The place of the head of a dataset.
fn place_of(heads: &[Head], id: u32) -> Option<usize>
    ensures { result ≡ position (λ head. head.id == id) heads.now }
{
    heads.iter().position(|head| head.id == id)
}

fn copied_parts(alloc: Global, parts: &[SnapPart]) -> Result<Listed<SnapPart>, NoMemory>
    ensures { IfOk result (λ copies. copies ≡ parts.now) }
{
    let mut copies = Vec::new(alloc);
    'parts: for part in parts {
        copies.push(part.copy()?)?;
    }
    Ok(Listed::new(copies))
}

fn copied_tables(alloc: Global, tables: &[Table]) -> Result<Listed<Table>, NoMemory>
    ensures { IfOk result (λ copies. copies ≡ tables.now) }
{
    let mut copies = Vec::new(alloc);
    'tables: for table in tables {
        copies.push(table.copy()?)?;
    }
    Ok(Listed::new(copies))
}

/// Equal heads.
pub fn copied_heads(alloc: Global, heads: &[Head]) -> Result<Vec<Head>, NoMemory>
    ensures { IfOk result (λ copies. copies.items ≡ heads.now) }
{
    let mut copies = Vec::new(alloc);
    'heads: for head in heads {
        copies.push(head.copy(alloc)?)?;
    }
    Ok(copies)
}

/// Whether two families have the same table of a head, or both have none.
pub fn same_tables(a: Option<&Head>, b: Option<&Head>) -> bool
    ensures { IsTrue result ↔ (option_map (λ found. found.table) (option_copied a.entry)
        ≡ option_map (λ found. found.table) (option_copied b.entry)) }
{
    match (a, b) {
        (Some(mine), Some(others)) => mine.table.same(&others.table),
        (None, None) => true,
        (Some(_), None) => false,
        (None, Some(_)) => false,
    }
}

/// Whether two families have the same snapshots of a head, or both have no such head.
pub fn same_snapshots(a: Option<&Head>, b: Option<&Head>) -> bool
    ensures { IsTrue result ↔ (option_map snapshots_of (option_copied a.entry)
        ≡ option_map snapshots_of (option_copied b.entry)) }
{
    match (a, b) {
        (Some(mine), Some(others)) => mine.same_snapshots(others),
        (None, None) => true,
        (Some(_), None) => false,
        (None, Some(_)) => false,
    }
}
