// What keeps the slots of mappings.
ghost use Rattle.std.specs.Prelude.{◌≡◌, ◌≤◌, ◌<◌, ◌+◌, ◌≢◌, ℕ, Bool, true, false, length, IfSome, IfErr, OnOk, is_err, nat_lt};
ghost use Rattle.mapping_words.specs.Told.{Told, fresh, slot_at, with_slot, opened, with_mount, closed, refused_close, mount_count, told_count};
ghost use Rattle.mapping_words.specs.Words.{count_in, IsInUse};
ghost use Rattle.mapping_words.specs.declared.slot.Slot.{Slot as SlotParts};

use crate::slot::{InUse, LAST_GENERATION};

/// The keeper of a table of slots.
///
/// A contract sees what the keeper tells: of each slot its generation, whether it is open and whether it is mounted,
/// and how many closes were refused, with the slot and the word of the last one. Beside the mount others may use a
/// slot; a keeper of which that can't be tells the count, which is then that of the mount. A call changes its own slot
/// alone, needs no memory, and waits for none.
pub trait SlotKeeper {
    /// Where the words of the slots stand.
    type Board;

    ghost told: { Self → Told };

    // The board has the words of this keeper's slots.
    ghost fits: { Self → Self.Board → Type 0 };

    // Whether its keepers tell the counts.
    ghost tells: { Bool };

    /// Opens a slot that is closed, under the next generation, which it gives.
    fn open_slot(&mut self, board: &Self::Board, slot: u32) -> u32
        requires fits { fits self.old board.now }
        requires there { slot < length (told self.old).slots }
        requires closed { (slot_at (told self.old) slot).is_open ≡ false }
        requires unused { (slot_at (told self.old) slot).generation < LAST_GENERATION }
        ensures generation { result ≡ (slot_at (told self.old) slot).generation + 1 }
        ensures opened { told self.new ≡ opened (told self.old) slot }
        ensures fits { fits self.new board.now };

    /// Mounts an open slot that isn't mounted: the mount is one more that uses it.
    fn mount(&mut self, board: &Self::Board, slot: u32)
        requires fits { fits self.old board.now }
        requires there { slot < length (told self.old).slots }
        requires is_open { (slot_at (told self.old) slot).is_open ≡ true }
        requires unmounted { (slot_at (told self.old) slot).is_mounted ≡ false }
        ensures mounted { told self.new ≡ with_mount (told self.old) slot true }
        ensures fits { fits self.new board.now };

    /// Takes the mount of a slot away. The slot stays open, and others may still use it.
    fn unmount(&mut self, board: &Self::Board, slot: u32)
        requires fits { fits self.old board.now }
        requires there { slot < length (told self.old).slots }
        requires is_mounted { (slot_at (told self.old) slot).is_mounted ≡ true }
        ensures unmounted { told self.new ≡ with_mount (told self.old) slot false }
        ensures fits { fits self.new board.now };

    /// Closes an open slot that none uses.
    ///
    /// # Errors
    /// `InUse` with the word that was found, where this has a count of at least 1. The slot is then as before, and the
    /// refusal is counted. A slot that is mounted is never closed. Where the count is told, a slot whose count is 0 is
    /// never refused.
    fn close_slot(&mut self, board: &Self::Board, slot: u32) -> Result<(), InUse>
        requires fits { fits self.old board.now }
        requires there { slot < length (told self.old).slots }
        requires is_open { (slot_at (told self.old) slot).is_open ≡ true }
        ensures closed { OnOk result (told self.new ≡ closed (told self.old) slot) }
        ensures unmounted { OnOk result ((slot_at (told self.old) slot).is_mounted ≡ false) }
        ensures refused { IfErr result (λ found. told self.new ≡ refused_close (told self.old) slot found.word) }
        ensures found { IfErr result (λ found. IsInUse (slot_at (told self.old) slot) found.word) }
        ensures exact { IfSome (told_count tells (slot_at (told self.old) slot))
            (λ count. is_err result ≡ nat_lt 0 count) }
        ensures count { IfSome (told_count tells (slot_at (told self.old) slot))
            (λ count. IfErr result (λ found. count_in found.word ≡ count)) }
        ensures fits { fits self.new board.now };

    /// How many use the slot, its mount among them.
    fn count(&mut self, board: &Self::Board, slot: u32) -> u32
        requires fits { fits self.old board.now }
        requires there { slot < length (told self.old).slots }
        ensures told { IfSome (told_count tells (slot_at (told self.old) slot)) (λ count. result ≡ count) }
        ensures mounted { mount_count (slot_at (told self.old) slot) ≤ result }
        ensures same { told self.new ≡ told self.old }
        ensures fits { fits self.new board.now };
}

/// A change of one slot leaves every other one as it was, and a slot that is opened again has the next
/// generation and no mount: a law, which does nothing.
pub fn calls_change_one_slot()
    ensures here { (t : Told) (slot : ℕ) (now : SlotParts) → slot < length t.slots
        → slot_at (with_slot t slot now) slot ≡ now }
    ensures elsewhere { (t : Told) (slot other : ℕ) (now : SlotParts) → other ≢ slot
        → slot_at (with_slot t slot now) other ≡ slot_at t other }
    ensures again { slot_at (opened (closed (with_mount (with_mount (opened (fresh 2) 1) 1 true) 1 false) 1) 1) 1
        ≡ record { generation = 2; is_open = true; is_mounted = false } }
{}
