// What each command answers.
ghost use Rattle.std.specs.Prelude.{◌≤◌, ◌↔◌, IsOk};
ghost use Rattle.gcm_seal.specs.Gcm.{IsKeyLength};

use crate::block::{answer_open_block, answer_seal_block};
use crate::words::{array, bytes, hex_word, number};
use aes_block::{Aes, with_aes};
use anyhow::{Result, bail, ensure};
use gcm_seal::{MAX_AAD_LEN, MAX_TEXT_LEN, seal, unseal};
use hmac_hkdf::{Hmac512, hkdf512, hmac1, hmac512};
use pbkdf2_keys::pbkdf2;
use std::alloc::Global;

// The most bytes that HKDF-SHA-512 gives: 255 hash values.
const MAX_HKDF_LEN: usize = 255 * 64;

// The most bytes that are asked of PBKDF2.
const MAX_PBKDF2_LEN: usize = 1024;

/// The answer to a line.
pub(crate) fn answer(alloc: Global, line: &str) -> Result<String> {
    let words: Vec<&str> = line.split_whitespace().collect(alloc)?;
    match *words.as_slice() {
        ["aes", key, block] => answer_aes(alloc, key, array(block)?, 1),
        ["aes-times", key, count] => answer_aes(alloc, key, [0; 16], number(count)?),
        ["seal", key, iv, aad, text] => answer_seal(alloc, key, iv, aad, text),
        ["seal-times", key, size, count] => answer_seal_times(alloc, key, size, count),
        ["unseal", key, iv, aad, sealed, tag] => answer_unseal(alloc, key, iv, aad, sealed, tag),
        ["hmac512", key, text] => {
            let mac = hmac512(&bytes(alloc, key)?, &bytes(alloc, text)?);
            hex_word(alloc, &mac)
        }
        ["hmac1", key, text] => {
            let mac = hmac1(&bytes(alloc, key)?, &bytes(alloc, text)?);
            hex_word(alloc, &mac)
        }
        ["pieces", key, ref pieces @ ..] => answer_pieces(alloc, key, pieces),
        ["hkdf", ikm, info, length] => answer_hkdf(alloc, ikm, info, length),
        ["pbkdf2", secret, salt, iterations, length] => {
            answer_pbkdf2(alloc, secret, salt, iterations, length)
        }
        ["seal-block", master, salt, iv, text] => answer_seal_block(alloc, master, salt, iv, text),
        ["open-block", master, salt, iv, sealed, mac] => {
            answer_open_block(alloc, master, salt, iv, sealed, mac)
        }
        _ => bail!("no such command"),
    }
}

// The block after its encryption, `count` times one after the other.
fn answer_aes(alloc: Global, key: &str, block: [u8; 16], count: u32) -> Result<String> {
    let key = bytes(alloc, key)?;
    ensure_lengths(key.len(), 0, 0)?;
    let encrypted = with_aes!(key.as_slice(), cipher => encrypt_times(&cipher, block, count));
    hex_word(alloc, &encrypted)
}

fn encrypt_times<const NK: usize>(cipher: &Aes<NK>, block: [u8; 16], count: u32) -> [u8; 16] {
    let mut block = block;
    for _ in 0..count {
        cipher.encrypt_block(&mut block);
    }
    block
}

// Refuses the lengths that GCM is not called with.
fn ensure_lengths(key: usize, aad: usize, text: usize) -> Result<()>
    ensures { IsOk result ↔ (IsKeyLength key × (aad ≤ MAX_AAD_LEN) × (text ≤ MAX_TEXT_LEN)) }
{
    ensure!(matches!(key, 16 | 24 | 32), "a key has 16, 24 or 32 bytes");
    ensure!(
        aad <= MAX_AAD_LEN,
        "more than {MAX_AAD_LEN} bytes of additional data"
    );
    ensure!(
        text <= MAX_TEXT_LEN,
        "more than {MAX_TEXT_LEN} bytes of text"
    );
    Ok(())
}

// The sealed text with its tag after it.
fn answer_seal(alloc: Global, key: &str, iv: &str, aad: &str, text: &str) -> Result<String> {
    let key = bytes(alloc, key)?;
    let aad = bytes(alloc, aad)?;
    let mut text = bytes(alloc, text)?;
    ensure_lengths(key.len(), aad.len(), text.len())?;
    let tag = seal(&key, &array(iv)?, &aad, &mut text);
    text.extend_from_slice(&tag)?;
    hex_word(alloc, &text)
}

// The opened text.
fn answer_unseal(
    alloc: Global,
    key: &str,
    iv: &str,
    aad: &str,
    sealed: &str,
    tag: &str,
) -> Result<String> {
    let key = bytes(alloc, key)?;
    let aad = bytes(alloc, aad)?;
    let mut text = bytes(alloc, sealed)?;
    ensure_lengths(key.len(), aad.len(), text.len())?;
    match unseal(&key, &array(iv)?, &aad, &mut text, &array(tag)?) {
        Ok(()) => hex_word(alloc, &text),
        Err(_) => Ok(String::from_str(alloc, "BadTag")?),
    }
}

// The tag of the last seal of `size` zero bytes, sealed `count` times one after the other.
fn answer_seal_times(alloc: Global, key: &str, size: &str, count: &str) -> Result<String> {
    let key = bytes(alloc, key)?;
    let size = number(size)? as usize;
    ensure_lengths(key.len(), 0, size)?;
    let mut text = vec![in alloc; 0; size]?;
    let mut tag = [0; 16];
    for _ in 0..number(count)? {
        tag = seal(&key, &[0; 12], &[], &mut text);
    }
    hex_word(alloc, &tag)
}

fn answer_pieces(alloc: Global, key: &str, pieces: &[&str]) -> Result<String> {
    let mut mac = Hmac512::new(&bytes(alloc, key)?);
    for piece in pieces {
        mac.update(&bytes(alloc, piece)?);
    }
    hex_word(alloc, &mac.finish())
}

fn answer_hkdf(alloc: Global, ikm: &str, info: &str, length: &str) -> Result<String> {
    let ikm = bytes(alloc, ikm)?;
    let info = bytes(alloc, info)?;
    let length = number(length)? as usize;
    ensure!(length <= MAX_HKDF_LEN, "more than {MAX_HKDF_LEN} bytes");
    let mut out = vec![in alloc; 0; length]?;
    hkdf512(&ikm, &info, &mut out);
    hex_word(alloc, &out)
}

fn answer_pbkdf2(
    alloc: Global,
    secret: &str,
    salt: &str,
    iterations: &str,
    length: &str,
) -> Result<String> {
    let secret = bytes(alloc, secret)?;
    let salt = bytes(alloc, salt)?;
    let iterations = number(iterations)?;
    let length = number(length)? as usize;
    ensure!(iterations >= 1, "no iterations");
    ensure!(length <= MAX_PBKDF2_LEN, "more than {MAX_PBKDF2_LEN} bytes");
    let mut out = vec![in alloc; 0; length]?;
    pbkdf2(&secret, &salt, iterations, &mut out);
    hex_word(alloc, &out)
}
