ghost use Rattle.std.specs.Prelude.{◌≡◌, ◌<◌, ◌&&◌, length, slice_index, slice_set, bit_xor, IfOk, OnOk, OnErr};

use crate::errors::NoMemory;
use std::alloc::Global;
use std::marker::Model;

/// One block of a shelf in memory.
///
/// A contract sees the bytes that were put, `placed`, and those that are read, `held`. They have
/// the same length.
#[derive(Drop)]
pub struct Slot {
    held: Vec<u8>,
    // What was put, once `held` was altered.
    original: Option<Vec<u8>>,
}

impl Model for Slot {
    ghost use Rattle.shelf_store.specs.SlotState.{SlotState};

    ghost Value = { SlotState };

    ghost use Rattle.std.specs.Prelude.{◌≡◌, length};
    ghost use Rattle.shelf_store.specs.SlotFields.{placed_bytes};

    ghost view = { λ s. record { placed = placed_bytes s; held = s.held.items } };

    ghost invariant = { λ s. length (placed_bytes s) ≡ length s.held.items };
}

impl Slot {
    pub fn new(alloc: Global, block: &[u8]) -> Result<Slot, NoMemory>
        ensures { IfOk result (λ slot. slot ≡ record { placed = block.now; held = block.now }) }
    {
        let held = Vec::from_slice(alloc, block)?;
        Ok(Slot {
            held,
            original: None,
        })
    }

    pub fn held(&self) -> &[u8]
        ensures bytes { result.now ≡ self.now.held }
        ensures length { length self.now.placed ≡ length self.now.held }
    {
        self.held.as_slice()
    }

    pub fn placed(&self) -> &[u8]
        ensures { result.now ≡ self.now.placed }
    {
        match &self.original {
            Some(original) => original.as_slice(),
            None => self.held.as_slice(),
        }
    }

    /// Changes a held byte by exclusive or with `mask`. On an error all is as before.
    pub fn alter(&mut self, alloc: Global, at: usize, mask: u8) -> Result<(), NoMemory>
        requires { at < length self.old.held }
        ensures ok { OnOk result (self.new
            ≡ record self.old { held = slice_set self.old.held at (bit_xor (slice_index self.old.held at) mask) }) }
        ensures err { OnErr result (self.new ≡ self.old) }
        ensures placed { self.new.placed ≡ self.old.placed }
        ensures length { length self.new.held ≡ length self.old.held }
    {
        if self.original.is_none() {
            self.original = Some(Vec::from_slice(alloc, &self.held)?);
        }
        self.held[at] ^= mask;
        Ok(())
    }

    pub fn copy(&self, alloc: Global) -> Result<Slot, NoMemory>
        ensures { IfOk result (λ slot. slot ≡ self.now) }
    {
        let mut copy = Slot::new(alloc, &self.held)?;
        if let Some(original) = &self.original {
            copy.original = Some(Vec::from_slice(alloc, original)?);
        }
        Ok(copy)
    }
}

impl PartialEq for Slot {
    ghost use Rattle.std.proofs.Common.{rules};
    ghost use Rattle.std.specs.Cmp.Rules.{comparing};
    ghost use Rattle.shelf_store.specs.SlotState.{slot_eq};

    ghost eq = { slot_eq };

    ghost laws = { Prim.search (comparing, rules) };

    fn eq(&self, other: &Self) -> bool {
        if self.original.is_none() && other.original.is_none() {
            return self.held() == other.held();
        }
        self.placed() == other.placed() && self.held() == other.held()
    }
}
