// The four transformations of the state (FIPS 197, 5.1): the byte in row r and column c is at place
// r + 4c.

ghost use Rattle.std.specs.Prelude.{◌≡◌, ◌≤◌, ◌+◌, ◌*◌};
ghost use Rattle.aes_block.specs.Field.{◌⊕◌, ◌•◌};
ghost use Rattle.aes_block.specs.Cipher.{add_round_key, mix_columns, shift_rows, sub_bytes};

use crate::SCHEDULE_LEN;
use crate::field::{sbox, xtimes};
use byte_blocks::{block_at, xor_into};

// SUBBYTES (5.1.1).
pub(crate) fn sub_bytes(state: &mut [u8; 16])
    ensures { state.new ≡ sub_bytes state.old }
{
    'bytes: for byte in state.iter_mut() {
        *byte = sbox(*byte);
    }
}

// SHIFTROWS (5.1.2).
pub(crate) fn shift_rows(state: &mut [u8; 16])
    ensures { state.new ≡ shift_rows state.old }
{
    let s = *state;
    *state = [
        s[0], s[5], s[10], s[15], s[4], s[9], s[14], s[3], s[8], s[13], s[2], s[7], s[12], s[1],
        s[6], s[11],
    ];
}

// A byte of MIXCOLUMNS, from the column's four bytes, its own first (5.1.3).
fn mixed(a: u8, b: u8, c: u8, d: u8) -> u8
    ensures { result ≡ 0x02 • a ⊕ 0x03 • b ⊕ c ⊕ d }
{
    xtimes(a ^ b) ^ b ^ c ^ d
}

// MIXCOLUMNS (5.1.3).
pub(crate) fn mix_columns(state: &mut [u8; 16])
    ensures { state.new ≡ mix_columns state.old }
{
    let s = *state;
    'bytes: for i in 0..16 {
        let column = i - i % 4;
        state[i] = mixed(
            s[i],
            s[column + (i + 1) % 4],
            s[column + (i + 2) % 4],
            s[column + (i + 3) % 4],
        );
    }
}

// ADDROUNDKEY (5.1.4).
pub(crate) fn add_round_key(state: &mut [u8; 16], words: &[u8; SCHEDULE_LEN], round: usize)
    requires { round ≤ 14 }
    ensures { state.new ≡ add_round_key state.old words.now round }
{
    xor_into(state, block_at(words, 16, round));
}
