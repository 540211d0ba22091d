//! An append-only store of blocks, which can be made to fail and to lie.
//!
//! A block is put at the end and read by its address, the number of blocks before it. A failure of
//! a later call can be armed, and a held byte can be altered, so that what stands above can be
//! tried against a store that fails and one that is dishonest.
#![tactic(auto)]

mod arming;
mod errors;
mod mem_shelf;
mod shelf;
mod slot;
#[cfg(test)]
mod tests;

pub use errors::{Failed, NoMemory, ShelfError};
pub use mem_shelf::MemShelf;
pub use shelf::{SHELF_BYTES, Shelf, each_arming_lets_one_call_fail};
