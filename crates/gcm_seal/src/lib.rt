//! Galois/Counter Mode (NIST SP 800-38D) with AES: authenticated encryption in place, with
//! initialization vectors of 96 bits and tags of 128 bits. No call allocates.
#![tactic(auto)]

ghost use Rattle.std.specs.Prelude.{◌≡◌, ◌≤◌, ◌↔◌, length, Some, None, OnOk, OnErr, IsErr};
ghost use Rattle.gcm_seal.specs.Gcm.{IsKeyLength, gcm_seal, gcm_open, gcm_tag, inc32, j0};

pub use crate::product::{GhashTable, product_laws};
use aes_block::{Aes, with_aes};
use thiserror::Error;

mod gctr;
mod ghash;
mod product;
#[cfg(test)]
mod tests;

// The bytes of a block.
const BLOCK_LEN: usize = 16;

/// The most bytes that `seal` and `unseal` take as a text.
pub const MAX_TEXT_LEN: usize = 1_048_576;

/// The most bytes that `seal` and `unseal` take as additional authenticated data.
pub const MAX_AAD_LEN: usize = 65_536;

/// The tag is not that of the sealed text under this key, initialization vector and additional
/// data.
#[derive(Clone, Copy, Debug, PartialEq, Eq, Error)]
#[error("the tag differs")]
pub struct BadTag;

/// Seals `text` in place, and returns its tag: authenticated encryption, GCM-AE (7.1).
///
/// `key` has 16, 24 or 32 bytes, for AES-128, AES-192 or AES-256. `aad` is the additional
/// authenticated data, which the tag covers beside the sealed text.
pub fn seal(key: &[u8], iv: &[u8; 12], aad: &[u8], text: &mut [u8]) -> [u8; 16]
    requires key_length { IsKeyLength (length key.now) }
    requires aad_length { length aad.now ≤ MAX_AAD_LEN }
    requires text_length { length text.old ≤ MAX_TEXT_LEN }
    ensures sealed { gcm_seal key.now iv.now aad.now text.old ≡ (text.new, result) }
    ensures opens { gcm_open key.now iv.now aad.now text.new result ≡ Some text.old }
{
    with_aes!(key, cipher => seal_with(&cipher, iv, aad, text))
}

/// Opens a sealed `text` in place: authenticated decryption, GCM-AD (7.2). The arguments are those
/// of `seal`, with the tag that it returned.
///
/// # Errors
///
/// `BadTag` where `tag` is not the tag of the sealed `text`, which is then as it was.
pub fn unseal(
    key: &[u8],
    iv: &[u8; 12],
    aad: &[u8],
    text: &mut [u8],
    tag: &[u8; 16],
) -> Result<(), BadTag>
    requires key_length { IsKeyLength (length key.now) }
    requires aad_length { length aad.now ≤ MAX_AAD_LEN }
    requires text_length { length text.old ≤ MAX_TEXT_LEN }
    ensures opened { OnOk result (gcm_open key.now iv.now aad.now text.old tag.now ≡ Some text.new) }
    ensures bad_tag { IsErr result ↔ (gcm_open key.now iv.now aad.now text.old tag.now ≡ None) }
    ensures unchanged { OnErr result (text.new ≡ text.old) }
{
    with_aes!(key, cipher => unseal_with(&cipher, iv, aad, text, tag))
}

fn seal_with<const NK: usize>(
    cipher: &Aes<NK>,
    iv: &[u8; 12],
    aad: &[u8],
    text: &mut [u8],
) -> [u8; 16]
    requires aad_length { length aad.now ≤ MAX_AAD_LEN }
    requires text_length { length text.old ≤ MAX_TEXT_LEN }
    ensures sealed { gcm_seal cipher.now iv.now aad.now text.old ≡ (text.new, result) }
    ensures opens { gcm_open cipher.now iv.now aad.now text.new result ≡ Some text.old }
{
    gctr::apply(cipher, first_counter_block(iv), text);
    tag_of(cipher, iv, aad, text)
}

fn unseal_with<const NK: usize>(
    cipher: &Aes<NK>,
    iv: &[u8; 12],
    aad: &[u8],
    text: &mut [u8],
    tag: &[u8; 16],
) -> Result<(), BadTag>
    requires aad_length { length aad.now ≤ MAX_AAD_LEN }
    requires text_length { length text.old ≤ MAX_TEXT_LEN }
    ensures opened { OnOk result (gcm_open cipher.now iv.now aad.now text.old tag.now ≡ Some text.new) }
    ensures bad_tag { IsErr result ↔ (gcm_open cipher.now iv.now aad.now text.old tag.now ≡ None) }
    ensures unchanged { OnErr result (text.new ≡ text.old) }
{
    let computed = tag_of(cipher, iv, aad, text);
    if computed != *tag {
        return Err(BadTag);
    }
    gctr::apply(cipher, first_counter_block(iv), text);
    Ok(())
}

fn tag_of<const NK: usize>(cipher: &Aes<NK>, iv: &[u8; 12], aad: &[u8], sealed: &[u8]) -> [u8; 16]
    requires aad_length { length aad.now ≤ MAX_AAD_LEN }
    requires sealed_length { length sealed.now ≤ MAX_TEXT_LEN }
    ensures { result ≡ gcm_tag cipher.now iv.now aad.now sealed.now }
{
    let mut hash_subkey = [0; 16];
    cipher.encrypt_block(&mut hash_subkey);
    let mut tag = ghash::hash(hash_subkey, aad, sealed);
    gctr::apply_block(cipher, pre_counter_block(iv), &mut tag);
    tag
}

// J0 (7.1, step 2).
fn pre_counter_block(iv: &[u8; 12]) -> [u8; 16]
    ensures { result ≡ j0 iv.now }
{
    let mut block = [0; 16];
    block[..12].copy_from_slice(iv);
    block[15] = 1;
    block
}

fn first_counter_block(iv: &[u8; 12]) -> [u8; 16]
    ensures { result ≡ inc32 (j0 iv.now) }
{
    let mut block = pre_counter_block(iv);
    gctr::inc32(&mut block);
    block
}
