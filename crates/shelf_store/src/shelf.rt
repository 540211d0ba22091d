ghost use Rattle.std.specs.Prelude.{◌≡◌, ℕ, ◌==◌, ◌+◌, ◌<◌, ◌≤◌, ◌↔◌, length, sum, Some, IsTrue, IsErr, IfOk, OnOk, OnErr, IfSome, IsSome, slice_get, slice_index, Bool, false};
ghost use Rattle.shelf_store.specs.ShelfState.{ShelfState, empty_shelf, HasToldSizes, Rose, is_due, one_more, counted, after_calls, with_block, altered};

use crate::errors::{Failed, NoMemory, ShelfError};
use std::alloc::Global;

/// How many bytes the blocks of one shelf have together at most.
pub const SHELF_BYTES: u64 = 33_554_432;

const _: () = prove!(SHELF_BYTES == 33_554_432);

/// An append-only store of blocks.
///
/// A contract sees what the shelf tells: always the sizes of its blocks, the count of failures and
/// the armed failure, and optionally the blocks as they were put, `placed`, and as they are read,
/// `held`. Blocks that are told have the told sizes.
pub trait Shelf: Sized + Drop {
    ghost told: { Self → ShelfState };

    // Whether its shelves tell their blocks.
    ghost tells: { Bool };

    /// A shelf with no blocks, no failures, and none armed.
    ///
    /// The allocator is kept, so no other call takes one.
    fn fresh(alloc: Global) -> Result<Self, NoMemory>
        ensures empty { IfOk result (λ shelf. told shelf ≡ empty_shelf tells) }
        ensures sizes { IfOk result (λ shelf. HasToldSizes (told shelf)) };

    /// Puts a block at the end, and gives its address, which is the number of blocks before it.
    ///
    /// Whatever it answers, this is one of the calls that `fail_after` counts.
    fn put(&mut self, block: &[u8]) -> Result<u64, ShelfError>
        ensures fault { (result ≡ Err ShelfError.Fault) ↔ IsTrue (is_due (told self.old).armed) }
        ensures rose { result ≡ Err ShelfError.Fault → Rose (told self.old).faults (told self.new).faults }
        ensures full { (result ≡ Err ShelfError.Full) ↔ ((is_due (told self.old).armed ≡ false)
            × (SHELF_BYTES < sum (told self.old).sizes + length block.now)) }
        ensures address { IfOk result (λ address. address ≡ length (told self.old).sizes) }
        ensures ok { OnOk result (told self.new ≡ with_block (counted (told self.old)) block.now) }
        ensures err { OnErr result (told self.new ≡ counted (told self.old)) }
        ensures sizes { HasToldSizes (told self.new) };

    /// Reads the block at an address into `out`, which has the block's size. It takes no memory.
    ///
    /// Whatever it answers, this is one of the calls that `fail_after` counts.
    fn get(&mut self, addr: u64, out: &mut [u8]) -> Result<(), Failed>
        requires there { addr < length (told self.old).sizes }
        requires fits { length out.old ≡ slice_index (told self.old).sizes addr }
        ensures failed { IsErr result ↔ IsTrue (is_due (told self.old).armed) }
        ensures rose { OnErr result (Rose (told self.old).faults (told self.new).faults) }
        ensures bytes { OnOk result (IfSome (told self.old).held (λ blocks. slice_get blocks addr ≡ Some out.new)) }
        ensures err { OnErr result (out.new ≡ out.old) }
        ensures after { told self.new ≡ counted (told self.old) }
        ensures sizes { HasToldSizes (told self.new) };

    /// Changes a byte of a held block by exclusive or with `mask`, as dishonest storage may.
    ///
    /// What was placed stays. Where memory runs out all is as before.
    fn alter(&mut self, addr: u64, at: u32, mask: u8) -> Result<(), NoMemory>
        requires there { addr < length (told self.old).sizes }
        requires in_block { at < slice_index (told self.old).sizes addr }
        ensures ok { OnOk result (told self.new ≡ altered (told self.old) addr at mask) }
        ensures err { OnErr result (told self.new ≡ told self.old) }
        ensures sizes { HasToldSizes (told self.new) };

    /// The size of the block at an address, or None where there is none. It takes no memory.
    fn size(&self, addr: u64) -> Option<u32>
        ensures value { result ≡ slice_get (told self.now).sizes addr }
        ensures sizes { HasToldSizes (told self.now) };

    /// The number of blocks. It takes no memory.
    fn blocks(&self) -> u64
        ensures value { result ≡ length (told self.now).sizes }
        ensures sizes { HasToldSizes (told self.now) };

    /// Arms a failure: of the calls of `put` and `get` from now on, the one numbered `calls`, from
    /// 0, fails. It replaces a failure that was armed and not reached.
    fn fail_after(&mut self, calls: u64)
        ensures armed { told self.new ≡ record (told self.old) { armed = Some calls } }
        ensures sizes { HasToldSizes (told self.new) };

    /// An equal shelf.
    fn copy(&self) -> Result<Self, NoMemory>
        ensures equal { IfOk result (λ shelf. told shelf ≡ told self.now) }
        ensures sizes { IfOk result (λ shelf. HasToldSizes (told shelf)) };

    /// Whether the shelves have the same sizes, blocks, failures and armed failure. It takes no
    /// memory. Of shelves that don't tell their blocks, true says that those are the same too, but
    /// no clause does.
    fn same(&self, other: &Self) -> bool
        ensures same { IsTrue result → told self.now ≡ told other.now }
        ensures differs { IsSome (told self.now).placed → IsSome (told self.now).held
            → told self.now ≡ told other.now → IsTrue result };
}

/// Each arming lets exactly one call fail, of those of `put` and `get` behind it the one with the armed
/// number, and this raises the count of failures by one: a law, which does nothing.
pub fn each_arming_lets_one_call_fail()
    ensures due { (s : ShelfState) (number calls : ℕ) → s.armed ≡ Some number
        → is_due (after_calls calls s).armed ≡ (calls == number) }
    ensures before { (s : ShelfState) (number calls : ℕ) → s.armed ≡ Some number → calls ≤ number
        → (after_calls calls s).faults ≡ s.faults }
    ensures behind { (s : ShelfState) (number calls : ℕ) → s.armed ≡ Some number → number < calls
        → (after_calls calls s).faults ≡ one_more s.faults }
{}
