//! Wrapping keys from key material, in the three key formats.
//!
//! No call takes memory.
#![tactic(auto)]

ghost use Rattle.std.specs.Prelude.{◌≡◌, ◌≤◌, ℕ, List, None, Ok, IfNone, length};
ghost use Rattle.std.specs.Char.{is_ascii_hexdigit};
ghost use Rattle.std.specs.Int.{w64, to_le_bytes};
ghost use Rattle.std.specs.List.{prefix_len};
ghost use Rattle.dataset_tree.specs.declared.kinds.Format.{Format as KeyFormat};
ghost use Rattle.pbkdf2_keys.specs.Pbkdf2.{pbkdf2};
ghost use Rattle.key_formats.specs.WrappingKey.{digit_bytes, digit_fault, hex_fault, length_fault, material_fault, passphrase_fault, unless_faulty, wkey, without_line_feed};

use dataset_tree::{Format, MaterialFault, Refusal};
use pbkdf2_keys::pbkdf2;

#[cfg(test)]
mod tests;

/// The bytes of a wrapping key.
const KEY_LEN: usize = 32;

/// The hexadecimal digits of a wrapping key.
const DIGITS: usize = 64;

/// The least and the most bytes of a passphrase.
const PASSPHRASE_MIN: usize = 8;

const PASSPHRASE_MAX: usize = 512;

/// The fewest and the most iterations of PBKDF2.
pub const MIN_ITERATIONS: u32 = 100_000;

pub const MAX_ITERATIONS: u32 = 10_000_000;

/// The iterations of PBKDF2 where none are given.
pub const DEFAULT_ITERATIONS: u32 = 350_000;

/// The wrapping key of key material: the material itself, the bytes that its digits spell, or the key that PBKDF2
/// derives from a passphrase with `iters` iterations and `salt`, as its eight bytes from the least significant on.
/// One line feed at the end of digits and of a passphrase doesn't count.
///
/// # Errors
/// As `material_fault` tells them.
pub fn wrapping_key(
    format: Format,
    material: &[u8],
    iters: u32,
    salt: u64,
) -> Result<[u8; KEY_LEN], Refusal>
    ensures { result ≡ wkey format material.now iters salt }
{
    match format {
        Format::Raw => raw_key(material),
        Format::Hex => hex_key(without_line_feed(material)),
        Format::Passphrase => passphrase_key(without_line_feed(material), iters, salt),
    }
}

/// Why material can't be a key in its format, which takes no derivation: `BadIters` where the iterations of a
/// passphrase aren't 100000 to 10000000, else `BadMaterial` by its length, else by its first character that
/// is no hexadecimal digit.
pub fn material_fault(format: Format, material: &[u8], iters: u32) -> Option<Refusal>
    ensures { result ≡ material_fault format material.now iters }
{
    match format {
        Format::Raw => raw_fault(material),
        Format::Hex => hex_fault(without_line_feed(material)),
        Format::Passphrase => passphrase_fault(without_line_feed(material), iters),
    }
}

/// Raw material is the key itself.
fn raw_key(material: &[u8]) -> Result<[u8; KEY_LEN], Refusal>
    ensures { result ≡ unless_faulty (length_fault 32 32 material.now) material.now }
{
    match raw_fault(material) {
        Some(why) => Err(why),
        None => {
            let mut key = [0; KEY_LEN];
            key.copy_from_slice(material);
            Ok(key)
        }
    }
}

fn raw_fault(material: &[u8]) -> Option<Refusal>
    ensures fault { result ≡ length_fault 32 32 material.now }
    ensures none { IfNone result (length material.now ≡ 32) }
{
    length_fault(material, KEY_LEN, KEY_LEN)
}

/// The key that its digits spell.
fn hex_key(digits: &[u8]) -> Result<[u8; KEY_LEN], Refusal>
    ensures { result ≡ unless_faulty (hex_fault digits.now) (digit_bytes digits.now) }
{
    match hex_fault(digits) {
        Some(why) => Err(why),
        None => Ok(decoded(digits)),
    }
}

fn hex_fault(digits: &[u8]) -> Option<Refusal>
    ensures { result ≡ hex_fault digits.now }
{
    match length_fault(digits, DIGITS, DIGITS) {
        Some(why) => Some(why),
        None => digit_fault(digits),
    }
}

/// The first character that is no digit.
fn digit_fault(digits: &[u8]) -> Option<Refusal>
    ensures { result ≡ digit_fault digits.now }
{
    let good = digits_in_front(digits);
    if good == digits.len() {
        return None;
    }
    let at = good as u64;
    Some(Refusal::BadMaterial {
        fault: MaterialFault::Hex { at },
    })
}

/// How many hexadecimal digits stand in front.
fn digits_in_front(text: &[u8]) -> usize
    ensures digits { result ≡ prefix_len is_ascii_hexdigit text.now }
    ensures within { result ≤ length text.now }
{
    text.iter()
        .take_while(|byte| byte.is_ascii_hexdigit())
        .count()
}

/// The bytes that the digits of a key spell.
fn decoded(digits: &[u8]) -> [u8; KEY_LEN]
    requires { hex_fault digits.now ≡ None }
    ensures { result ≡ digit_bytes digits.now }
{
    let mut key = [0; KEY_LEN];
    match hex::decode_to_slice(digits, &mut key) {
        Ok(()) => key,
        Err(_) => unreachable!(),
    }
}

/// The key that is derived from a passphrase.
fn passphrase_key(phrase: &[u8], iters: u32, salt: u64) -> Result<[u8; KEY_LEN], Refusal>
    ensures { result ≡ unless_faulty (passphrase_fault phrase.now iters)
        (pbkdf2 phrase.now (to_le_bytes w64 salt) iters 32) }
{
    match passphrase_fault(phrase, iters) {
        Some(why) => Err(why),
        None => {
            let mut key = [0; KEY_LEN];
            pbkdf2(phrase, &salt.to_le_bytes(), iters, &mut key);
            Ok(key)
        }
    }
}

fn passphrase_fault(phrase: &[u8], iters: u32) -> Option<Refusal>
    ensures fault { result ≡ passphrase_fault phrase.now iters }
    ensures none { IfNone result (1 ≤ iters) }
{
    if iters < MIN_ITERATIONS || iters > MAX_ITERATIONS {
        return Some(Refusal::BadIters);
    }
    length_fault(phrase, PASSPHRASE_MIN, PASSPHRASE_MAX)
}

/// Why material of this length is too short or too long.
fn length_fault(material: &[u8], least: usize, most: usize) -> Option<Refusal>
    ensures fault { result ≡ length_fault least most material.now }
    ensures none { IfNone result ((least ≤ length material.now) × (length material.now ≤ most)) }
{
    let fault = if material.len() < least {
        MaterialFault::Short
    } else if material.len() > most {
        MaterialFault::Long
    } else {
        return None;
    };
    Some(Refusal::BadMaterial { fault })
}

/// The material but for a line feed at its end.
fn without_line_feed(material: &[u8]) -> &[u8]
    ensures { result.now ≡ without_line_feed material.now }
{
    match material {
        [text @ .., b'\n'] => text,
        _ => material,
    }
}

/// A wrapping key has 32 bytes: a law, which does nothing.
pub fn keys_have_32_bytes()
    ensures { (format : KeyFormat) (material : List ℕ) (iters salt : ℕ) (key : List ℕ)
        → wkey format material iters salt ≡ Ok key → length key ≡ 32 }
{}
