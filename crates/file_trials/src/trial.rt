// A family on which the calls are tried.
ghost use Rattle.std.specs.Prelude.{◌≡◌};

use crate::sample::{fresh, master_key, sampled};
use dataset_tree::{FileName, NoMemory, Refusal, Stop};
use family_log::{Family, LogEntry, Spot};
use file_dataset::{
    FileRow, Wrote, cut, make_file, names, read_at, remove_file, verify_head, write_at,
};
use shelf_store::{MemShelf, Shelf};
use std::alloc::Global;
use std::test::Fail;

const LETTERS: &[u8; 32] = b"abcdefghijklmnopqrstuvwxyz012345";

/// What a trial begins with.
#[derive(Clone, Copy)]
pub(crate) enum Start {
    Fresh,
    /// A fresh head, whose salts serve two draws each.
    ShortSalts,
    /// A fresh head, whose log has no room for more.
    NoRoom,
    /// The files `a` and `b` of another implementation.
    Sampled,
}

/// A family of one head, the dataset 1, with 512 bytes a block; its files have names of one or two bytes.
#[derive(Drop)]
pub(crate) struct Trial {
    family: Family<MemShelf>,
    ghost guid: { family.guid ≡ 1 },
}

impl Trial {
    pub fn make(alloc: Global, start: Start) -> Result<Trial, Fail> {
        let family = match start {
            Start::Fresh => fresh(alloc, 400_000_000, 1100)?,
            Start::ShortSalts => fresh(alloc, 2, 10)?,
            Start::NoRoom => fresh(alloc, 400_000_000, 1)?,
            Start::Sampled => sampled(alloc)?,
        };
        Ok(Trial { family })
    }

    fn name(&self, name: &[u8]) -> Result<FileName, Stop> {
        FileName::parse(self.family.allocator(), name)
    }

    pub fn touch(&mut self, name: &[u8]) -> Result<(), Stop> {
        let name = self.name(name)?;
        make_file(&mut self.family, &master_key(), 1, &name)
    }

    /// Makes 1024 files.
    pub fn touch_all(&mut self) -> Result<(), Stop> {
        for number in 0..1024 {
            self.touch(&[LETTERS[number / 32], LETTERS[number % 32]])?;
        }
        Ok(())
    }

    /// Writes so many of this byte.
    pub fn write(&mut self, name: &[u8], from: u64, byte: u8, count: usize) -> Result<Wrote, Stop> {
        let bytes = vec![in self.family.allocator(); byte; count]?;
        let name = self.name(name)?;
        write_at(
            &mut self.family,
            &master_key(),
            1,
            &name,
            from,
            bytes.as_slice(),
        )
    }

    pub fn cut(&mut self, name: &[u8], to: u64) -> Result<(), Stop> {
        let name = self.name(name)?;
        cut(&mut self.family, &master_key(), 1, &name, to)
    }

    pub fn remove(&mut self, name: &[u8]) -> Result<(), Stop> {
        let name = self.name(name)?;
        remove_file(&mut self.family, &master_key(), 1, &name)
    }

    pub fn read(&mut self, name: &[u8], from: u64, len: u32) -> Result<Vec<u8>, Stop> {
        let name = self.name(name)?;
        read_at(&mut self.family, &master_key(), &spot(1), &name, from, len)
    }

    /// How many blocks of a head are no holes.
    pub fn count(&mut self, head: u32) -> Result<u64, Stop> {
        verify_head(&mut self.family, &master_key(), &spot(head))
    }

    pub fn files(&mut self) -> Result<Vec<FileRow>, Stop> {
        names(&mut self.family, &master_key(), &spot(1))
    }

    /// Alters the first byte of the block at this address.
    pub fn alter(&mut self, addr: u64) -> Result<(), NoMemory> {
        let shelf = self.family.shelf();
        match shelf.size(addr) {
            Some(size) if size > 0 => shelf.alter(addr, 0, 1),
            _ => Ok(()),
        }
    }

    /// Lets the call of the shelf after so many fail.
    pub fn fail_after(&mut self, calls: u64) {
        self.family.shelf().fail_after(calls);
    }

    /// How many draws were made, and how many blocks put.
    pub fn used(&self) -> (u64, u64) {
        self.family.used()
    }

    pub fn entries(&self) -> u32 {
        self.family.entries()
    }

    /// What the newest entry says of a refusal, and of the draws and puts before it.
    pub fn last_refusal(&self) -> Option<(Refusal, u64, u32)> {
        match self.family.entry(self.family.entries().saturating_sub(1)) {
            Some(
                LogEntry::Refused {
                    why,
                    draws,
                    puts,
                    ..
                },
            ) => Some((*why, *draws, *puts)),
            _ => None,
        }
    }

    /// The levels of the tree of the second object, the first file's.
    pub fn levels(&self) -> Option<u8> {
        match self.family.table(&spot(1)) {
            Some(table) => table.rows.as_slice().get(1).map(|row| row.tree.levels),
            None => None,
        }
    }
}

fn spot(head: u32) -> Spot {
    Spot { head, snap: None }
}
