//! Plans of new wrapping keys: what `change-key` and `change-key -i` write, from a keystore that is
//! only read.
//!
//! A plan says of one dataset whether it becomes a root or is one no longer, and has the key
//! records of the families that it then owns, or owned, under their new key and with the same
//! master keys. No file is at hand here, and nothing is changed.
#![tactic(auto)]

mod change;
mod inherit;
mod new_key;
mod present;
mod records;

pub use change::plan_change;
pub use inherit::plan_inherit;

#[cfg(test)]
mod tests;
