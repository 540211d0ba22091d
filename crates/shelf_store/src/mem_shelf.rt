ghost use Rattle.std.specs.Prelude.{◌≡◌};

use crate::arming::Arming;
use crate::errors::{Failed, NoMemory, ShelfError};
use crate::shelf::{SHELF_BYTES, Shelf};
use crate::slot::Slot;
use std::alloc::Global;
use std::marker::Model;

/// A shelf in memory. It tells everything.
#[derive(Drop)]
pub struct MemShelf {
    alloc: Global,
    slots: Vec<Slot>,
    // How many bytes the blocks have together.
    used: u64,
    arming: Arming,
}

impl Model for MemShelf {
    ghost use Rattle.shelf_store.specs.ShelfState.{ShelfState};

    ghost Value = { ShelfState };

    ghost use Rattle.shelf_store.specs.MemShelfFields.{told_by, IsCounted};

    ghost view = { told_by };

    ghost invariant = { IsCounted };
}

impl Shelf for MemShelf {
    ghost use Rattle.std.specs.Prelude.{true};

    ghost told = { λ shelf. shelf };

    ghost tells = { true };

    fn fresh(alloc: Global) -> Result<Self, NoMemory> {
        Ok(MemShelf {
            alloc,
            slots: Vec::new(alloc),
            used: 0,
            arming: Arming::NONE,
        })
    }

    fn put(&mut self, block: &[u8]) -> Result<u64, ShelfError> {
        if self.arming.count() {
            return Err(ShelfError::Fault);
        }
        let size = block.len() as u64;
        if size > SHELF_BYTES - self.used {
            return Err(ShelfError::Full);
        }
        let address = self.slots.len() as u64;
        let slot = Slot::new(self.alloc, block)?;
        self.slots.push(slot).map_err(|_| ShelfError::NoMemory)?;
        self.used += size;
        Ok(address)
    }

    fn get(&mut self, addr: u64, out: &mut [u8]) -> Result<(), Failed> {
        if self.arming.count() {
            return Err(Failed);
        }
        out.copy_from_slice(self.slots[addr as usize].held());
        Ok(())
    }

    fn alter(&mut self, addr: u64, at: u32, mask: u8) -> Result<(), NoMemory> {
        let alloc = self.alloc;
        self.slots[addr as usize].alter(alloc, at as usize, mask)
    }

    fn size(&self, addr: u64) -> Option<u32> {
        match self.slots.get(addr as usize) {
            Some(slot) => Some(slot.held().len() as u32),
            None => None,
        }
    }

    fn blocks(&self) -> u64 {
        self.slots.len() as u64
    }

    fn fail_after(&mut self, calls: u64) {
        self.arming.armed = Some(calls);
    }

    fn copy(&self) -> Result<Self, NoMemory> {
        let mut slots = Vec::new(self.alloc);
        for slot in &self.slots {
            slots.push(slot.copy(self.alloc)?)?;
        }
        Ok(MemShelf {
            alloc: self.alloc,
            slots,
            used: self.used,
            arming: self.arming,
        })
    }

    fn same(&self, other: &Self) -> bool {
        self.arming == other.arming && self.slots == other.slots
    }
}
