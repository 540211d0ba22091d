//! The keystore: a host's datasets with their encryption roots, key records and loaded wrapping keys.
//!
//! Contracts see a `KeyState` as the plain state of `key_machine`, and each command is the machine's step
//! under what the line's material tells. A state is sound, whatever commands it went through.
#![tactic(auto)]

mod clones;
mod counts;
mod create;
mod destroy;
mod laws;
mod load;
mod lookup;
mod mounts;
mod needs;
mod plans;
mod property;
mod slot_laws;
mod slots;
mod state;
mod unload;
mod uses;

pub use counts::Counts;
pub use laws::{commands_keep_soundness, states_are_sound};
pub use needs::Needs;
pub use slot_laws::{fresh_keepers_agree, key_commands_leave_the_slots};
pub use state::KeyState;

#[cfg(test)]
mod tests;
