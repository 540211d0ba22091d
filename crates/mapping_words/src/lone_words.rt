// The slots of one actor.
ghost use Rattle.std.specs.Prelude.{◌≡◌, ◌≤◌, IfOk};

use crate::keeper::SlotKeeper;
use crate::slot::{InUse, LAST_GENERATION, RefusedClose, Slot};
use std::alloc::{AllocError, Global};
use std::marker::Model;

/// An allocation was refused. Nothing else is answered so.
pub type NoMemory = AllocError;

/// The slots of one actor, which no other uses: the count of a slot is its mount's, and is told.
#[derive(Drop)]
pub struct LoneWords {
    slots: Vec<Slot>,
    refused: u64,
    last: Option<RefusedClose>,
}

impl Model for LoneWords {
    ghost use Rattle.std.specs.Prelude.{◌≤◌};
    ghost use Rattle.std.specs.List.{All};
    ghost use Rattle.mapping_words.specs.Told.{Told};
    ghost use Rattle.mapping_words.specs.declared.slot.TheConstants.{LAST_GENERATION};

    ghost Value = { Told };

    ghost view = { λ lone. record { slots = lone.slots.items; refused = lone.refused; last = lone.last } };

    ghost invariant = { λ lone. All (λ slot. slot.generation ≤ LAST_GENERATION) lone.slots.items };
}

impl LoneWords {
    ghost use Rattle.mapping_words.specs.Told.{fresh};

    /// So many slots, 1 to 256, closed and never opened.
    ///
    /// # Errors
    /// `NoMemory` where an allocation is refused.
    pub fn new(alloc: Global, slots: u32) -> Result<LoneWords, NoMemory>
        requires some { 1 ≤ slots }
        requires few { slots ≤ 256 }
        ensures { IfOk result (λ lone. lone ≡ fresh slots) }
    {
        let slots = vec![in alloc; Slot::FRESH; slots as usize]?;
        Ok(LoneWords {
            slots,
            refused: 0,
            last: None,
        })
    }
}

impl SlotKeeper for LoneWords {
    ghost use Rattle.std.specs.Prelude.{true, ⊤};

    type Board = ();

    ghost told = { λ lone. lone };

    ghost fits = { λ lone board. ⊤ };

    ghost tells = { true };

    fn open_slot(&mut self, _board: &(), slot: u32) -> u32 {
        let generation = self.slots[slot as usize].generation + 1;
        self.slots[slot as usize] = Slot {
            generation,
            is_open: true,
            is_mounted: false,
        };
        generation
    }

    fn mount(&mut self, _board: &(), slot: u32) {
        self.slots[slot as usize].is_mounted = true;
    }

    fn unmount(&mut self, _board: &(), slot: u32) {
        self.slots[slot as usize].is_mounted = false;
    }

    fn close_slot(&mut self, _board: &(), slot: u32) -> Result<(), InUse> {
        let found = self.slots[slot as usize];
        if found.is_mounted {
            let word = found.word(1);
            self.refused = self.refused.saturating_add(1);
            self.last = Some(RefusedClose { slot, word });
            return Err(InUse { word });
        }
        self.slots[slot as usize].is_open = false;
        Ok(())
    }

    fn count(&mut self, _board: &(), slot: u32) -> u32 {
        u32::from(self.slots[slot as usize].is_mounted)
    }
}
