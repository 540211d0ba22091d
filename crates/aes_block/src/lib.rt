//! The block cipher AES (FIPS 197) for keys of 128, 192 and 256 bits.
#![tactic(auto)]

ghost use Rattle.std.specs.Prelude.{◌≡◌, ℕ, ◌<◌, ◌+◌, ◌*◌, ◌^◌, ◌/◌, ◌%◌, List, drop, length, slice_index, take};
ghost use Rattle.aes_block.specs.Field.{◌⊕◌};
ghost use Rattle.aes_block.specs.Cipher.{IsKeySize, aes};
ghost use Rattle.aes_block.specs.Lanes.{HasLanes, place, tower};

use crate::field::xtimes;
use crate::lanes::{keyed_rounds, last_round, round_words, side_by_side, sum, tower_round, towers};
use crate::schedule::{next_word, put_word};
use crate::state::{add_round_key, mix_columns, shift_rows, sub_bytes};
use crate::tables::{counted_round, counted_sub_bytes};
pub use crate::vectors::aes_gives_the_examples;
use std::marker::Model;
use std::simd::prelude::*;

mod field;
mod lanes;
mod schedule;
mod state;
mod tables;
mod vectors;

// What the number of rounds has above the number of words in the key (Table 3).
const EXTRA_ROUNDS: usize = 6;

// The most bytes that a key schedule has: the 60 words of AES-256.
const SCHEDULE_LEN: usize = 240;

/// A key of `NK` words of four bytes, made ready for encryption: `NK` is 4, 6 or 8, for AES-128,
/// AES-192 and AES-256. Contracts see the bytes of the key.
#[derive(Drop)]
pub struct Aes<const NK: usize> {
    // The words of the key schedule, one after the other.
    words: [u8; SCHEDULE_LEN],
    // The same with the affine map's constant added, in the basis and the order that the rounds
    // work in.
    tower_words: [u8; SCHEDULE_LEN],
}

/// The value of an expression in which `$cipher` is `$key` made ready: `$key` is a slice of 16, 24
/// or 32 bytes, and the expression stands once for each of these lengths.
///
///     let encrypted = with_aes!(key, cipher => encrypted(&cipher, block));
#[macro_export]
macro_rules! with_aes {
    ($key:expr, $cipher:ident => $value:expr) => {
        match $key.len() {
            16 => {
                let $cipher = $crate::Aes::<4>::expand($key);
                $value
            }
            24 => {
                let $cipher = $crate::Aes::<6>::expand($key);
                $value
            }
            _ => {
                let $cipher = $crate::Aes::<8>::expand($key);
                $value
            }
        }
    };
}

impl<const NK: usize> Model for Aes<NK> {
    ghost use Rattle.std.specs.Prelude.{◌≡◌, ℕ, ◌+◌, ◌*◌, ◌/◌, ◌%◌, ◌<◌, List, slice_index, take};
    ghost use Rattle.aes_block.specs.Field.{◌⊕◌};
    ghost use Rattle.aes_block.specs.Cipher.{IsKeySize, key_expansion, round_count};
    ghost use Rattle.aes_block.specs.Lanes.{place, tower};

    ghost Value = { List ℕ };

    ghost view = { λ a. take (4 * NK) a.words };

    ghost invariant = { λ a. IsKeySize NK
        × (take (16 * (round_count NK + 1)) a.words ≡ key_expansion (take (4 * NK) a.words))
        × ((k : ℕ) → k < 240
        → slice_index a.tower_words k ≡ tower (slice_index a.words (16 * (k / 16) + place (k / 16) (k % 16)) ⊕ 0x63))
        × ((k : ℕ) → slice_index a.words k < 256) };
}

// The words as the rounds take them.
fn tower_words(words: &[u8; SCHEDULE_LEN]) -> [u8; SCHEDULE_LEN]
    ensures made { (k : ℕ) → k < 240
        → slice_index result k ≡ tower (slice_index words.now (16 * (k / 16) + place (k / 16) (k % 16)) ⊕ 0x63) }
    ensures bytes { (k : ℕ) → slice_index words.now k < 256 }
{
    let mut tower_words = [0; SCHEDULE_LEN];
    'rounds: for round in 0..15 {
        let at = 16 * round;
        tower_words[at..at + 16].copy_from_slice(&tower_round(words, round));
    }
    tower_words
}

impl<const NK: usize> Aes<NK> {
    /// Makes the key schedule of `key`, which has `4 * NK` bytes (KEYEXPANSION, 5.2).
    pub fn expand(key: &[u8]) -> Aes<NK>
        requires size { IsKeySize NK }
        requires whole { length key.now ≡ 4 * NK }
        ensures { result ≡ key.now }
    {
        let rounds = NK + EXTRA_ROUNDS;
        let mut words = [0; SCHEDULE_LEN];
        words[..4 * NK].copy_from_slice(key);
        let mut round_constant = 1;
        'words: for i in NK..4 * (rounds + 1) {
            let word = next_word(&words, NK, i, round_constant);
            put_word(&mut words, i, word);
            if i % NK == 0 {
                round_constant = xtimes(round_constant);
            }
        }
        Aes {
            words,
            tower_words: tower_words(&words),
        }
    }

    /// Encrypts `block` in place (CIPHER, 5.1).
    pub fn encrypt_block(&self, block: &mut [u8; 16])
        ensures { block.new ≡ aes self.now block.old }
    {
        let encrypted = self.encrypt_pair(side_by_side(block)).to_array();
        block.copy_from_slice(&encrypted[..16]);
    }

    /// Encrypts eight blocks in place, each as `encrypt_block` does (CIPHER, 5.1). Block `i` is the
    /// sixteen bytes from `16 * i` on.
    pub fn encrypt_blocks(&self, blocks: &mut [u8; 128])
        ensures { (i : ℕ) → i < 8
            → take 16 (drop (16 * i) blocks.new) ≡ aes self.now (take 16 (drop (16 * i) blocks.old)) }
    {
        'pairs: for pair in 0..4 {
            let at = 32 * pair;
            let encrypted = self.encrypt_pair(u8x32::from_slice(&blocks[at..at + 32]));
            blocks[at..at + 32].copy_from_slice(&encrypted.to_array());
        }
    }

    // Encrypts two blocks side by side.
    #[inline(always)]
    fn encrypt_pair(&self, pair: u8x32) -> u8x32
        ensures { (s : ℕ → List ℕ) → ((b k : ℕ) → slice_index (s b) k < 256)
            → HasLanes pair (λ i. slice_index (s (i / 16)) (i % 16))
            → HasLanes result (λ i. slice_index (aes self.now (s (i / 16))) (i % 16)) }
    {
        let start = towers(sum(pair, round_words(&self.words, 0)));
        let before_last = keyed_rounds::<NK>(start, &self.tower_words);
        let rounds = NK + EXTRA_ROUNDS;
        last_round(before_last, round_words(&self.words, rounds), rounds)
    }

    /// Does the same as `encrypt_block` by tables, and adds the number of its look-ups to `looks`:
    /// sixteen a round.
    pub fn encrypt_counted(&self, block: &mut [u8; 16], looks: &mut u64)
        requires room { looks.old < 2 ^ 63 }
        ensures encrypted { block.new ≡ aes self.now block.old }
        ensures counted { looks.new ≡ looks.old + 16 * (NK + 6) }
    {
        add_round_key(block, &self.words, 0);
        let rounds = NK + EXTRA_ROUNDS;
        'rounds: for round in 1..rounds {
            counted_round(block, &self.words, round, looks);
        }
        counted_sub_bytes(block, looks);
        shift_rows(block);
        add_round_key(block, &self.words, rounds);
    }

    /// Encrypts `block` in place step by step as the standard writes it: the slow cipher that the
    /// others are tested against (CIPHER, 5.1).
    pub fn encrypt_by_steps(&self, block: &mut [u8; 16])
        ensures { block.new ≡ aes self.now block.old }
    {
        add_round_key(block, &self.words, 0);
        let rounds = NK + EXTRA_ROUNDS;
        'rounds: for round in 1..rounds {
            sub_bytes(block);
            shift_rows(block);
            mix_columns(block);
            add_round_key(block, &self.words, round);
        }
        sub_bytes(block);
        shift_rows(block);
        add_round_key(block, &self.words, rounds);
    }
}

#[cfg(test)]
mod tests;
