// GHASH (SP 800-38D, 6.3 and 6.4). A block is a `u128`, its leftmost bit the highest.

ghost use Rattle.std.specs.Prelude.{◌≡◌, ◌≤◌, ◌-◌, ◌%◌, ◌++◌, ℕ, List, length, replicate};
ghost use Rattle.gcm_seal.specs.Gcm.{ghash, hash_input, ghash_value, padded, lengths_block, number_of};
ghost use Rattle.gcm_seal.specs.Multiples.{HasMultiples};

use crate::product::{MULTIPLES_LEN, multiply, put_multiples};
use crate::{BLOCK_LEN, MAX_AAD_LEN, MAX_TEXT_LEN};
use byte_blocks::block_at;

// GHASH of the padded `aad`, the padded `sealed` and the block of their lengths.
pub fn hash(hash_subkey: [u8; 16], aad: &[u8], sealed: &[u8]) -> [u8; 16]
    requires aad_length { length aad.now ≤ MAX_AAD_LEN }
    requires sealed_length { length sealed.now ≤ MAX_TEXT_LEN }
    ensures { result ≡ ghash hash_subkey (hash_input aad.now sealed.now) }
{
    let mut multiples = [0; MULTIPLES_LEN];
    put_multiples(&mut multiples, u128::from_be_bytes(hash_subkey));
    let after_aad = absorb(0, &multiples, aad);
    let after_sealed = absorb(after_aad, &multiples, sealed);
    absorb(after_sealed, &multiples, &lengths(aad.len(), sealed.len())).to_be_bytes()
}

// The state of GHASH after some blocks `x`, taken on by the padded `bytes`.
fn absorb(state: u128, multiples: &[u128; MULTIPLES_LEN], bytes: &[u8]) -> u128
    ensures { (h : ℕ) (x : List ℕ) → HasMultiples multiples.now h → length x % 16 ≡ 0
        → state ≡ ghash_value h x → result ≡ ghash_value h (x ++ padded bytes.now) }
{
    let mut y = state;
    for i in 0..bytes.len().div_ceil(BLOCK_LEN) {
        y = multiply(y ^ padded_number(block_at(bytes, BLOCK_LEN, i)), multiples);
    }
    y
}

fn padded_number(part: &[u8]) -> u128
    requires { length part.now ≤ 16 }
    ensures { result ≡ number_of (part.now ++ replicate (16 - length part.now) 0) }
{
    if part.len() == BLOCK_LEN {
        return whole_number(part);
    }
    let mut block = [0; 16];
    block[..part.len()].copy_from_slice(part);
    u128::from_be_bytes(block)
}

// A whole block, whose known length makes its copy two moves.
fn whole_number(part: &[u8]) -> u128
    requires { length part.now ≡ 16 }
    ensures { result ≡ number_of part.now }
{
    let mut block = [0; 16];
    block.copy_from_slice(part);
    u128::from_be_bytes(block)
}

fn lengths(aad_len: usize, sealed_len: usize) -> [u8; 16]
    requires aad_length { aad_len ≤ MAX_AAD_LEN }
    requires sealed_length { sealed_len ≤ MAX_TEXT_LEN }
    ensures { result ≡ lengths_block aad_len sealed_len }
{
    let mut block = [0; 16];
    block[..8].copy_from_slice(&(8 * aad_len as u64).to_be_bytes());
    block[8..].copy_from_slice(&(8 * sealed_len as u64).to_be_bytes());
    block
}
