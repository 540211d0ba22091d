//! The words of mappings: for each slot a generation, whether it is open, whether it is mounted, and how many use it.
//!
//! A dataset that is mapped stands on a slot. A slot is opened under a generation that it never had before, and is
//! closed only while none uses it.
#![tactic(auto)]

mod keeper;
mod lone_words;
mod slot;
#[cfg(test)]
mod tests;

pub use keeper::{SlotKeeper, calls_change_one_slot};
pub use lone_words::{LoneWords, NoMemory};
pub use slot::{InUse, LAST_GENERATION, RefusedClose, Slot, words_have_their_parts};
