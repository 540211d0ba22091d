//! Blocks of a dataset, each sealed under a key of its salt. No call allocates.
#![tactic(auto)]

mod block;
mod block_key;
mod laws;

pub use block::{MAX_BLOCK_LEN, Sealed, open_block, seal_block};
pub use block_key::BlockKey;
pub use gcm_seal::BadTag;
pub use laws::sealed_blocks_are_bytes;

#[cfg(test)]
mod tests;
