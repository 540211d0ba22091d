//! PBKDF2 (RFC 8018) with HMAC-SHA-1.
//!
//! No call takes memory, and none can be refused.
#![tactic(auto)]

ghost use Rattle.std.specs.Prelude.{◌≡◌, ℕ, ◌≤◌, List, length};
ghost use Rattle.hmac_hkdf.specs.States.{IsMadeFor};
ghost use Rattle.pbkdf2_keys.specs.Pbkdf2.{block, pbkdf2};

use byte_blocks::{put_block, xor_into};
use hmac_hkdf::Hmac1Key;

#[cfg(test)]
mod tests;

const HASH_LENGTH: usize = 20;

// The block of this number, from 1, of the derived key.
fn derived_block(key: &Hmac1Key, salt: &[u8], iters: u32, number: u32) -> [u8; HASH_LENGTH]
    requires { 1 ≤ iters }
    ensures { (secret : List ℕ) → IsMadeFor key.now secret → result ≡ block secret salt.now iters number }
{
    let mut iterate = key.mac_of_two(salt, &number.to_be_bytes());
    let mut sum = iterate;
    for _done in 1..iters {
        iterate = key.mac(&iterate);
        xor_into(&mut sum, &iterate);
    }
    sum
}

/// Fills `out` with the key that PBKDF2 derives from `secret` and `salt` by `iters` iterations of
/// HMAC-SHA-1 (RFC 8018, 5.2).
pub fn pbkdf2(secret: &[u8], salt: &[u8], iters: u32, out: &mut [u8])
    requires iterated { 1 ≤ iters }
    requires short { length out.old ≤ 1024 }
    ensures { out.new ≡ pbkdf2 secret.now salt.now iters (length out.old) }
{
    let key = Hmac1Key::new(secret);
    let count = out.len().div_ceil(HASH_LENGTH);
    'fill: for i in 0..count {
        let block = derived_block(&key, salt, iters, (i + 1) as u32);
        put_block(out, i, &block);
    }
}
