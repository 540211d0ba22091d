// The words of a line, and the words that answer it.
use anyhow::{Context, Result, bail};
use std::alloc::Global;

// How no bytes are written.
const NO_BYTES: &str = "-";

/// The bytes that a word spells.
pub(crate) fn bytes(alloc: Global, word: &str) -> Result<Vec<u8>> {
    if word == NO_BYTES {
        return Ok(Vec::new(alloc));
    }
    hex::decode(alloc, word).context("bytes in hex are wanted")
}

/// The `N` bytes that a word spells.
pub(crate) fn array<const N: usize>(word: &str) -> Result<[u8; N]> {
    let mut bytes = [0; N];
    if hex::decode_to_slice(word, &mut bytes).is_err() {
        bail!("{N} bytes in hex are wanted");
    }
    Ok(bytes)
}

/// The number that a word spells.
pub(crate) fn number(word: &str) -> Result<u32> {
    word.parse().context("a number is wanted")
}

/// The word that spells bytes.
pub(crate) fn hex_word(alloc: Global, bytes: &[u8]) -> Result<String> {
    if bytes.is_empty() {
        return Ok(String::from_str(alloc, NO_BYTES)?);
    }
    Ok(hex::encode(alloc, bytes)?)
}
