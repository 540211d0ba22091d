//! Salts and initialization vectors for sealed blocks, and the words of a seed.
//!
//! Everything is determined by a seed of 32 bytes. Its words are those of ChaCha with 20 rounds
//! (RFC 8439, with a 64-bit block counter), by place. A salt serves a fixed number of draws and is
//! then changed for the next one; an initialization vector serves one draw.
#![tactic(auto)]

mod places;
mod salts;
mod seed_words;
#[cfg(test)]
mod tests;

pub use places::{
    GUID_PLACE, HMAC_PLACE, MASTER_PLACE, SALT_PLACE, SALTS_SEED_PLACE, constants_are_the_places,
    place_of_vector,
};
pub use salts::{Drawn, MAX_DRAWS, MAX_SALT_USES, Salts};
pub use seed_words::SeedWords;
