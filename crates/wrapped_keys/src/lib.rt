//! Master keys of encrypted datasets, and the key records in which they are stored, sealed under a wrapping
//! key. No call allocates.
#![tactic(auto)]

mod aead;
mod key_record;
mod master_key;

pub use aead::{MAX_AAD_LEN, aead_open, aead_seal};
pub use gcm_seal::BadTag;
pub use key_record::{KeyRecord, unwrap, wrap};
pub use master_key::MasterKey;

#[cfg(test)]
mod tests;
