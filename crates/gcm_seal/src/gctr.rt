// The counter mode of GCM (SP 800-38D, 6.2 and 6.5).

ghost use Rattle.std.specs.Prelude.{◌≡◌, ◌<◌, ℕ};
ghost use Rattle.aes_block.specs.Cipher.{aes};
ghost use Rattle.gcm_seal.specs.Gcm.{counter_block, inc32, gctr};
ghost use Rattle.byte_blocks.specs.Blocks.{block_at};

use super::BLOCK_LEN;
use aes_block::Aes;
use byte_blocks::{xor_block, xor_into};

// The blocks of key stream that are made in one call, and their bytes.
const GROUP_BLOCKS: usize = 8;

const GROUP_LEN: usize = 128;

// GCTR (Algorithm 3) from the initial counter block, in place.
pub fn apply<const NK: usize>(cipher: &Aes<NK>, initial: [u8; 16], text: &mut [u8])
    ensures { text.new ≡ gctr cipher.now initial text.old }
{
    let mut counter = initial;
    for i in 0..text.len().div_ceil(GROUP_LEN) {
        let stream = key_stream(cipher, &mut counter);
        xor_block(text, i, &stream);
    }
}

// GCTR (Algorithm 3) of one block, in place.
pub fn apply_block<const NK: usize>(cipher: &Aes<NK>, initial: [u8; 16], block: &mut [u8; 16])
    ensures { block.new ≡ gctr cipher.now initial block.old }
{
    let mut stream = initial;
    cipher.encrypt_block(&mut stream);
    xor_into(block, &stream);
}

// The key stream of eight blocks from a counter block on, which counts up past them.
fn key_stream<const NK: usize>(cipher: &Aes<NK>, counter: &mut [u8; 16]) -> [u8; 128]
    ensures blocks { (j : ℕ) → j < 8 → block_at 16 result j ≡ aes cipher.now (counter_block counter.old j) }
    ensures counted { counter.new ≡ counter_block counter.old 8 }
{
    let mut stream = [0; GROUP_LEN];
    for i in 0..GROUP_BLOCKS {
        let start = BLOCK_LEN * i;
        stream[start..start + BLOCK_LEN].copy_from_slice(counter);
        inc32(counter);
    }
    cipher.encrypt_blocks(&mut stream);
    stream
}

// Counts the last 32 bits of a block up by one.
pub fn inc32(block: &mut [u8; 16])
    ensures { block.new ≡ inc32 block.old }
{
    let counter = u32::from_be_bytes([block[12], block[13], block[14], block[15]]);
    block[12..].copy_from_slice(&counter.wrapping_add(1).to_be_bytes());
}
