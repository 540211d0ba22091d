// The tables of heads and snapshots.
ghost use Rattle.std.specs.Prelude.{◌≡◌, ◌↔◌, IfOk, IsTrue};

use crate::listed::Listed;
use crate::same::Same;
use dataset_tree::NoMemory;
use indirect_macs::ObjTree;
use std::alloc::Global;

/// An object: its number, its length in bytes, and the tree of its blocks.
#[derive(Clone, Copy, Debug, PartialEq, Eq)]
pub struct TableRow {
    pub object: u32,
    pub length: u64,
    pub tree: ObjTree,
}

/// What a head or a snapshot holds: its record size, its objects in rising order, its portable MAC,
/// and the guid of a snapshot, which is 0 for a head.
#[derive(Drop)]
pub struct Table {
    pub block: u32,
    pub rows: Listed<TableRow>,
    pub portable: [u8; 32],
    pub guid: u64,
}

impl Table {
    ghost use Rattle.family_log.specs.Tables.{fresh_table};

    // The table of a fresh head: an empty directory, object 1.
    pub(crate) fn fresh(alloc: Global, block: u32, portable: [u8; 32]) -> Result<Table, NoMemory>
        ensures { IfOk result (λ table. table ≡ fresh_table block portable) }
    {
        let mut rows = Vec::new(alloc);
        rows.push(TableRow {
            object: 1,
            length: 0,
            tree: ObjTree {
                levels: 1,
                top: None,
            },
        })?;
        Ok(Table {
            block,
            rows: Listed::new(rows),
            portable,
            guid: 0,
        })
    }

    // This table with the guid of a snapshot, or with 0 as that of a head.
    pub(crate) fn with_guid(self, guid: u64) -> Table
        ensures { result ≡ record self { guid = guid } }
    {
        let mut table = self;
        table.guid = guid;
        table
    }

    /// An equal table.
    pub fn copy(&self) -> Result<Table, NoMemory>
        ensures { IfOk result (λ table. table ≡ self.now) }
    {
        let rows = self.rows.copy()?;
        Ok(Table {
            block: self.block,
            rows,
            portable: self.portable,
            guid: self.guid,
        })
    }
}

impl Same for Table {
    fn same(&self, other: &Table) -> bool {
        if self.block != other.block || self.guid != other.guid {
            return false;
        }
        if self.portable != other.portable {
            return false;
        }
        same_rows(self.rows.as_slice(), other.rows.as_slice())
    }
}

fn same_rows(a: &[TableRow], b: &[TableRow]) -> bool
    ensures { IsTrue result ↔ (a.now ≡ b.now) }
{
    a == b
}
