ghost use Rattle.std.specs.Prelude.{◌≡◌, ℕ, List, [], ◌++◌};
ghost use Rattle.hmac_hkdf.specs.Hmac.{hmac512, padded_key};
ghost use Rattle.hmac_hkdf.specs.States.{HasTaken};
ghost use Rattle.sha2.specs.Sha512.{sha512};

use crate::{INNER_PAD, OUTER_PAD, xor_pad, zero_padded};
use sha2::{Digest, Sha512};

const BLOCK_LENGTH: usize = 128;

fn padded_key(key: &[u8]) -> [u8; BLOCK_LENGTH]
    ensures { result ≡ padded_key sha512 128 key.now }
{
    if key.len() > BLOCK_LENGTH {
        zero_padded(&Sha512::digest(key))
    } else {
        zero_padded(key)
    }
}

/// HMAC-SHA-512 of a text that comes in pieces: `new`, an `update` for each piece, and `finish`.
#[derive(Drop)]
pub struct Hmac512 {
    inner: Sha512,
    outer: Sha512,
}

impl Hmac512 {
    /// A state of the empty text under `key`, which may have any length.
    pub fn new(key: &[u8]) -> Hmac512
        ensures { HasTaken result key.now [] }
    {
        let block = padded_key(key);
        Hmac512 {
            inner: Sha512::new_with_prefix(xor_pad(&block, INNER_PAD)),
            outer: Sha512::new_with_prefix(xor_pad(&block, OUTER_PAD)),
        }
    }

    /// Adds `piece` to the end of the text.
    pub fn update(&mut self, piece: &[u8])
        ensures { (key text : List ℕ) → HasTaken self.old key text → HasTaken self.new key (text ++ piece.now) }
    {
        self.inner.update(piece);
    }

    /// The 64 bytes of the text's HMAC (RFC 2104, 2).
    pub fn finish(self) -> [u8; 64]
        ensures { (key text : List ℕ) → HasTaken self key text → result ≡ hmac512 key text }
    {
        let Hmac512 { inner, mut outer } = self;
        outer.update(inner.finalize());
        outer.finalize()
    }
}
