//! The ciphers of the keystore: what key records, key material and the words of a seed give to the
//! definitions of `key_machine`.
//!
//! `specs/Ciphers.antt` has them in one record, `ciphers`, which every crate that carries out key commands
//! cites. The calls below are what those crates ask of them, and what else they have in common: why a state
//! refuses a new wrapping key, by a view of it.
#![tactic(auto)]

mod laws;
mod lookup;
mod material;
mod options;
mod records;
mod refusals;
mod seeds;

pub use laws::the_ciphers_are_sound;
pub use lookup::{has_key, is_encrypted, row_named};
pub use material::{fetched_fault, fetched_key};
pub use options::{changed_format, is_passphrase};
pub use records::{opened, seeded_record};
pub use refusals::{are_bad_iterations, change_refusal, has_parent_key, inherit_refusal};
pub use seeds::{seed_behind_key, seed_got, seeded_master, seeded_salt, seeded_vector};

#[cfg(test)]
mod tests;
