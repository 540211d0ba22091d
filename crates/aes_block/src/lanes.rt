// Vectors of 32 bytes, which are two blocks side by side, and the rounds of the cipher on them. A
// state is held in the tower's basis from one round to the next. All is inlined, so that the
// compiler sees what is computed twice.

ghost use Rattle.std.specs.Prelude.{◌≡◌, ◌≤◌, ◌<◌, ◌+◌, ◌-◌, ◌*◌, ◌/◌, ◌%◌, ℕ, List, slice_index, bit_xor, true};
ghost use Rattle.aes_block.specs.Field.{◌⊕◌};
ghost use Rattle.aes_block.specs.Cipher.{IsKeySize, mix_columns, shift_rows, state_after, sub_bytes};
ghost use Rattle.aes_block.specs.Lanes.{AreTowers, HasLanes, at_places, first_place, first_sum, halves_sum, is_place, looked, place, second_place, second_sum, tower};

use crate::SCHEDULE_LEN;
use std::simd::prelude::*;

// The inverses in GF(2^4), and the same times the tower's constant. From 128 on a place is none.
const INVERSES: [u8; 16] = [128, 1, 8, 13, 15, 6, 5, 14, 2, 12, 11, 10, 9, 3, 7, 4];

const INVERSE_MULTIPLES: [u8; 16] = [128, 7, 11, 15, 6, 10, 4, 1, 9, 8, 5, 2, 12, 14, 13, 3];

// The tower's bytes of 0 to 15, and of 0 to 15 times 16.
const TOWER_OF_LOW: [u8; 16] = [
    0, 112, 42, 90, 152, 232, 178, 194, 8, 120, 34, 82, 144, 224, 186, 202,
];

const TOWER_OF_HIGH: [u8; 16] = [
    0, 77, 124, 49, 125, 48, 1, 76, 129, 204, 253, 176, 252, 177, 128, 205,
];

// The S-box without its constant, by the two places.
const SBOX_FIRST: [u8; 16] = [
    0, 199, 189, 111, 23, 109, 210, 208, 120, 168, 2, 197, 122, 191, 170, 21,
];

const SBOX_SECOND: [u8; 16] = [
    0, 106, 187, 95, 165, 116, 228, 207, 250, 53, 43, 65, 209, 144, 30, 142,
];

// The same in the tower's basis.
const ONCE_FIRST: [u8; 16] = [
    0, 62, 80, 203, 143, 225, 155, 177, 68, 245, 42, 20, 110, 122, 223, 165,
];

const ONCE_SECOND: [u8; 16] = [
    0, 35, 226, 250, 21, 212, 24, 54, 239, 217, 46, 13, 193, 204, 247, 59,
];

// The same times x in the tower's basis.
const TWICE_FIRST: [u8; 16] = [
    0, 36, 113, 11, 198, 147, 122, 226, 205, 47, 152, 188, 85, 233, 183, 94,
];

const TWICE_SECOND: [u8; 16] = [
    0, 41, 225, 10, 64, 136, 235, 105, 74, 35, 130, 171, 200, 99, 161, 194,
];

// Rows aren't shifted in a vector: round by round its bytes stay, and stand for other places of the
// state. The tables have a row for the rounds of each remainder by 4: which place a lane stands for,
// which lane the next row's and the third next row's byte of its column is in, and which lane has
// the byte that the shifted rows have at a place.
const PLACES: [u8; 64] = [
    0, 1, 2, 3, 4, 5, 6, 7, 8, 9, 10, 11, 12, 13, 14, 15, 0, 13, 10, 7, 4, 1, 14, 11, 8, 5, 2, 15,
    12, 9, 6, 3, 0, 9, 2, 11, 4, 13, 6, 15, 8, 1, 10, 3, 12, 5, 14, 7, 0, 5, 10, 15, 4, 9, 14, 3,
    8, 13, 2, 7, 12, 1, 6, 11,
];

const FORWARD: [u8; 64] = [
    1, 2, 3, 0, 5, 6, 7, 4, 9, 10, 11, 8, 13, 14, 15, 12, 5, 6, 7, 4, 9, 10, 11, 8, 13, 14, 15, 12,
    1, 2, 3, 0, 9, 10, 11, 8, 13, 14, 15, 12, 1, 2, 3, 0, 5, 6, 7, 4, 13, 14, 15, 12, 1, 2, 3, 0,
    5, 6, 7, 4, 9, 10, 11, 8,
];

const BACKWARD: [u8; 64] = [
    3, 0, 1, 2, 7, 4, 5, 6, 11, 8, 9, 10, 15, 12, 13, 14, 15, 12, 13, 14, 3, 0, 1, 2, 7, 4, 5, 6,
    11, 8, 9, 10, 11, 8, 9, 10, 15, 12, 13, 14, 3, 0, 1, 2, 7, 4, 5, 6, 7, 4, 5, 6, 11, 8, 9, 10,
    15, 12, 13, 14, 3, 0, 1, 2,
];

const HOME: [u8; 64] = [
    0, 1, 2, 3, 4, 5, 6, 7, 8, 9, 10, 11, 12, 13, 14, 15, 0, 5, 10, 15, 4, 9, 14, 3, 8, 13, 2, 7,
    12, 1, 6, 11, 0, 9, 2, 11, 4, 13, 6, 15, 8, 1, 10, 3, 12, 5, 14, 7, 0, 13, 10, 7, 4, 1, 14, 11,
    8, 5, 2, 15, 12, 9, 6, 3,
];

// The affine map's constant.
const CONSTANT: u8 = 0x63;

#[inline(always)]
pub(crate) fn side_by_side(block: &[u8; 16]) -> u8x32
    ensures { HasLanes result (λ i. slice_index block.now (i % 16)) }
{
    u8x16::from_slice(block).swizzle([
        0, 1, 2, 3, 4, 5, 6, 7, 8, 9, 10, 11, 12, 13, 14, 15, 0, 1, 2, 3, 4, 5, 6, 7, 8, 9, 10, 11,
        12, 13, 14, 15,
    ])
}

// The words of a round, for each of the two blocks.
#[inline(always)]
pub(crate) fn round_words(words: &[u8; SCHEDULE_LEN], round: usize) -> u8x32
    requires { round ≤ 14 }
    ensures { HasLanes result (λ i. slice_index words.now (16 * round + i % 16)) }
{
    u8x16::from_slice(&words[16 * round..]).swizzle([
        0, 1, 2, 3, 4, 5, 6, 7, 8, 9, 10, 11, 12, 13, 14, 15, 0, 1, 2, 3, 4, 5, 6, 7, 8, 9, 10, 11,
        12, 13, 14, 15,
    ])
}

#[inline(always)]
pub(crate) fn sum(a: u8x32, b: u8x32) -> u8x32
    ensures { HasLanes result (λ i. slice_index a i ⊕ slice_index b i) }
{
    a ^ b
}

#[inline(always)]
fn low_halves(v: u8x32) -> u8x32
    ensures { HasLanes result (λ i. slice_index v i % 16) }
{
    v & u8x32::splat(15)
}

#[inline(always)]
fn high_halves(v: u8x32) -> u8x32
    ensures { HasLanes result (λ i. slice_index v i / 16) }
{
    v >> u8x32::splat(4)
}

#[inline(always)]
fn look_up(table: &[u8; 16], places: u8x32) -> u8x32
    requires { (i : ℕ) → i < 32 → is_place (slice_index places i) ≡ true }
    ensures { HasLanes result (λ i. looked table.now (slice_index places i)) }
{
    side_by_side(table).swizzle_dyn_within::<16>(places)
}

// The lanes of the row of a table for a round, for each of the two blocks.
#[inline(always)]
fn table_row(rows: &[u8; 64], round: usize) -> u8x32
    ensures { HasLanes result (λ i. slice_index rows.now (16 * (round % 4) + i % 16)) }
{
    u8x16::from_slice(&rows[16 * (round % 4)..]).swizzle([
        0, 1, 2, 3, 4, 5, 6, 7, 8, 9, 10, 11, 12, 13, 14, 15, 0, 1, 2, 3, 4, 5, 6, 7, 8, 9, 10, 11,
        12, 13, 14, 15,
    ])
}

// The bytes of each block at the lanes that the row of a table for a round says.
#[inline(always)]
fn moved(v: u8x32, rows: &[u8; 64], round: usize) -> u8x32
    requires { (i : ℕ) → i < 16 → slice_index rows.now (16 * (round % 4) + i) < 16 }
    ensures { HasLanes result (λ i. slice_index v (16 * (i / 16) + slice_index rows.now (16 * (round % 4) + i % 16))) }
{
    v.swizzle_dyn_within::<16>(table_row(rows, round))
}

#[inline(always)]
fn halves_sums(v: u8x32) -> u8x32
    ensures { HasLanes result (λ i. halves_sum (slice_index v i)) }
{
    sum(high_halves(v), low_halves(v))
}

#[inline(always)]
fn first_sums(v: u8x32) -> u8x32
    ensures { HasLanes result (λ i. first_sum (slice_index v i)) }
{
    sum(
        look_up(&INVERSES, high_halves(v)),
        look_up(&INVERSE_MULTIPLES, low_halves(v)),
    )
}

#[inline(always)]
fn second_sums(v: u8x32) -> u8x32
    ensures { HasLanes result (λ i. second_sum (slice_index v i)) }
{
    sum(
        look_up(&INVERSES, halves_sums(v)),
        look_up(&INVERSE_MULTIPLES, low_halves(v)),
    )
}

#[inline(always)]
fn first_places(v: u8x32) -> u8x32
    ensures { HasLanes result (λ i. first_place (slice_index v i)) }
{
    sum(look_up(&INVERSES, first_sums(v)), halves_sums(v))
}

#[inline(always)]
fn second_places(v: u8x32) -> u8x32
    ensures { HasLanes result (λ i. second_place (slice_index v i)) }
{
    sum(look_up(&INVERSES, second_sums(v)), high_halves(v))
}

#[inline(always)]
fn by_places(first: &[u8; 16], second: &[u8; 16], v: u8x32) -> u8x32
    ensures { HasLanes result (λ i. at_places first.now second.now (slice_index v i)) }
{
    sum(
        look_up(first, first_places(v)),
        look_up(second, second_places(v)),
    )
}

// Each byte in the tower's basis.
#[inline(always)]
pub(crate) fn towers(v: u8x32) -> u8x32
    ensures { HasLanes result (λ i. tower (slice_index v i)) }
{
    sum(
        look_up(&TOWER_OF_LOW, low_halves(v)),
        look_up(&TOWER_OF_HIGH, high_halves(v)),
    )
}

// The words of a round as its lanes hold them: in the tower's basis, with the affine map's constant
// added, and where the round's state has them.
pub(crate) fn tower_round(words: &[u8; SCHEDULE_LEN], round: usize) -> [u8; 16]
    requires { round ≤ 14 }
    ensures { (q : ℕ) → q < 16
        → slice_index result q ≡ tower (slice_index words.now (16 * round + place round q) ⊕ 0x63) }
{
    let placed = moved(round_words(words, round), &PLACES, round);
    let both = towers(sum(placed, u8x32::splat(CONSTANT))).to_array();
    let mut own = [0; 16];
    own.copy_from_slice(&both[..16]);
    own
}

// Round `number` with mixed columns, in the tower's basis, by words that have the affine map's constant
// added.
#[inline(always)]
fn round(v: u8x32, words: u8x32, number: usize) -> u8x32
    requires { 1 ≤ number }
    ensures { (s : ℕ → List ℕ) → ((b k : ℕ) → slice_index (s b) k < 256)
        → HasLanes v (λ i. tower (slice_index (s (i / 16)) (place (number - 1) (i % 16))))
        → HasLanes result (λ i. tower (slice_index (mix_columns (shift_rows (sub_bytes (s (i / 16)))))
        (place number (i % 16)) ⊕ 0x63) ⊕ slice_index words i) }
{
    let once = by_places(&ONCE_FIRST, &ONCE_SECOND, v);
    let twice = by_places(&TWICE_FIRST, &TWICE_SECOND, v);
    let next = moved(once, &FORWARD, number);
    let near = sum(twice, next);
    let last = moved(once, &BACKWARD, number);
    let three = sum(near, last);
    let turned = moved(near, &FORWARD, number);
    sum(three, sum(turned, words))
}

// Round `number` of the rounds that are alike, by the words of a key schedule in the tower's basis
// (FIPS 197, 5.1, Algorithm 1).
#[inline(always)]
pub(crate) fn keyed_round(v: u8x32, tower_words: &[u8; SCHEDULE_LEN], number: usize) -> u8x32
    requires from { 1 ≤ number }
    requires within { number ≤ 14 }
    ensures { (w : List ℕ) (s : ℕ → List ℕ) → AreTowers w tower_words.now → ((b k : ℕ) → slice_index (s b) k < 256)
        → HasLanes v (λ i. tower (slice_index (state_after w (s (i / 16)) (number - 1)) (place (number - 1) (i % 16))))
        → HasLanes result (λ i. tower (slice_index (state_after w (s (i / 16)) number) (place number (i % 16)))) }
{
    round(v, round_words(tower_words, number), number)
}

// Each round by its number, so that none is counted when the cipher runs.
macro_rules! each_round {
    ($v:expr, $words:expr;) => { $v };
    ($v:expr, $words:expr; $number:literal $($more:literal)*) => {
        each_round!(keyed_round($v, $words, $number), $words; $($more)*)
    };
}

// The rounds that are alike, for a key of `NK` words.
#[inline(always)]
pub(crate) fn keyed_rounds<const NK: usize>(v: u8x32, tower_words: &[u8; SCHEDULE_LEN]) -> u8x32
    requires { IsKeySize NK }
    ensures { (w : List ℕ) (s : ℕ → List ℕ) → AreTowers w tower_words.now → ((b k : ℕ) → slice_index (s b) k < 256)
        → HasLanes v (λ i. tower (slice_index (state_after w (s (i / 16)) 0) (place 0 (i % 16))))
        → HasLanes result (λ i. tower (slice_index (state_after w (s (i / 16)) (NK + 5)) (place (NK + 5) (i % 16)))) }
{
    match NK {
        4 => each_round!(v, tower_words; 1 2 3 4 5 6 7 8 9),
        6 => each_round!(v, tower_words; 1 2 3 4 5 6 7 8 9 10 11),
        _ => each_round!(v, tower_words; 1 2 3 4 5 6 7 8 9 10 11 12 13),
    }
}

// The round without mixed columns, which is round `number`, from the tower's basis.
#[inline(always)]
pub(crate) fn last_round(v: u8x32, words: u8x32, number: usize) -> u8x32
    requires { 1 ≤ number }
    ensures { (s : ℕ → List ℕ) → ((b k : ℕ) → slice_index (s b) k < 256)
        → HasLanes v (λ i. tower (slice_index (s (i / 16)) (place (number - 1) (i % 16))))
        → HasLanes result (λ i. slice_index (shift_rows (sub_bytes (s (i / 16)))) (i % 16)
        ⊕ slice_index words i) }
{
    let looked_up = by_places(&SBOX_FIRST, &SBOX_SECOND, v);
    let substituted = sum(looked_up, u8x32::splat(CONSTANT));
    let own = moved(substituted, &HOME, number);
    sum(own, words)
}
