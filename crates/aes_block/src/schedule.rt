// The words of the key schedule (FIPS 197, 5.2), each of four bytes, one after the other.

ghost use Rattle.std.specs.Prelude.{◌≡◌, ◌≤◌, ◌<◌, ◌+◌, ◌-◌, ◌*◌, ◌/◌, ◌++◌, take, drop};
ghost use Rattle.aes_block.specs.Field.{power};
ghost use Rattle.aes_block.specs.Cipher.{add_words, next_word, rot_word, sub_word, temp, word};

use crate::SCHEDULE_LEN;
use crate::field::sbox_by_table;
use byte_blocks::xor_into;

// ROTWORD (5.2).
fn rot_word(a: [u8; 4]) -> [u8; 4]
    ensures { result ≡ rot_word a }
{
    [a[1], a[2], a[3], a[0]]
}

// SUBWORD (5.2).
fn sub_word(a: [u8; 4]) -> [u8; 4]
    ensures { result ≡ sub_word a }
{
    [
        sbox_by_table(a[0]),
        sbox_by_table(a[1]),
        sbox_by_table(a[2]),
        sbox_by_table(a[3]),
    ]
}

fn add_words(a: [u8; 4], b: [u8; 4]) -> [u8; 4]
    ensures { result ≡ add_words a b }
{
    let mut sum = a;
    xor_into(&mut sum, &b);
    sum
}

fn word(words: &[u8; SCHEDULE_LEN], i: usize) -> [u8; 4]
    requires { i < 60 }
    ensures { result ≡ word words.now i }
{
    let at = 4 * i;
    [words[at], words[at + 1], words[at + 2], words[at + 3]]
}

pub(crate) fn put_word(words: &mut [u8; SCHEDULE_LEN], i: usize, word: [u8; 4])
    requires { i < 60 }
    ensures { words.new ≡ take (4 * i) words.old ++ word ++ drop (4 * i + 4) words.old }
{
    words[4 * i..4 * i + 4].copy_from_slice(&word);
}

// What is added to word `i - nk`, from the word before word `i` (Algorithm 2). The round constant is
// that of the first multiple of `nk` from `i` on.
fn temp(nk: usize, i: usize, previous: [u8; 4], round_constant: u8) -> [u8; 4]
    requires words { 0 < nk }
    requires after_key { nk ≤ i }
    requires constant { round_constant ≡ power 0x02 ((i - 1) / nk) }
    ensures { result ≡ temp nk i previous }
{
    if i % nk == 0 {
        add_words(sub_word(rot_word(previous)), [round_constant, 0, 0, 0])
    } else if nk > 6 && i % nk == 4 {
        sub_word(previous)
    } else {
        previous
    }
}

// Word `i`, from the words before it (Algorithm 2).
pub(crate) fn next_word(
    words: &[u8; SCHEDULE_LEN],
    nk: usize,
    i: usize,
    round_constant: u8,
) -> [u8; 4]
    requires words { 0 < nk }
    requires after_key { nk ≤ i }
    requires within { i < 60 }
    requires constant { round_constant ≡ power 0x02 ((i - 1) / nk) }
    ensures { result ≡ next_word nk words.now i }
{
    let temp = temp(nk, i, word(words, i - 1), round_constant);
    add_words(word(words, i - nk), temp)
}
