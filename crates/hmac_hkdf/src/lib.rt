//! HMAC (RFC 2104) with SHA-512 and with SHA-1, and HKDF (RFC 5869) with HMAC-SHA-512.
//!
//! No call takes memory, and none can be refused.
#![tactic(auto)]

ghost use Rattle.std.specs.Prelude.{◌≡◌, ◌-◌, ◌≤◌, ◌++◌, length, replicate};
ghost use Rattle.byte_blocks.specs.Blocks.{xor_bytes};

use byte_blocks::xor_into;

mod hkdf;
mod hmac;
mod keyed;
mod pieces;
#[cfg(test)]
mod tests;

pub use hkdf::hkdf512;
pub use hmac::{hmac1, hmac512};
pub use keyed::Hmac1Key;
pub use pieces::Hmac512;

// The bytes that a padded key is xored with.
const INNER_PAD: u8 = 0x36;

const OUTER_PAD: u8 = 0x5C;

// The bytes of a key with zeros after them.
fn zero_padded<const N: usize>(key: &[u8]) -> [u8; N]
    requires { length key.now ≤ N }
    ensures { result ≡ key.now ++ replicate (N - length key.now) 0 }
{
    let mut block = [0; N];
    block[..key.len()].copy_from_slice(key);
    block
}

// The block with each byte xored with `pad`.
fn xor_pad<const N: usize>(block: &[u8; N], pad: u8) -> [u8; N]
    ensures { result ≡ xor_bytes block.now (replicate N pad) }
{
    let mut padded = *block;
    xor_into(&mut padded, &[pad; N]);
    padded
}
