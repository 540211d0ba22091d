ghost use Rattle.std.specs.Prelude.{◌≡◌, ℕ, List, ◌++◌};
ghost use Rattle.hmac_hkdf.specs.Hmac.{hmac1, padded_key};
ghost use Rattle.hmac_hkdf.specs.States.{IsMadeFor};
ghost use Rattle.sha1.specs.Sha1.{Holds, sha1};

use crate::{INNER_PAD, OUTER_PAD, xor_pad, zero_padded};
use sha1::{DIGEST_LEN, Sha1};

const BLOCK_LENGTH: usize = 64;

fn padded_key(key: &[u8]) -> [u8; BLOCK_LENGTH]
    ensures { result ≡ padded_key sha1 64 key.now }
{
    if key.len() > BLOCK_LENGTH {
        zero_padded(&Sha1::digest(key))
    } else {
        zero_padded(key)
    }
}

// A state of the one block that each text's message begins with.
fn begun(block: &[u8; BLOCK_LENGTH]) -> Sha1
    ensures { Holds result block.now }
{
    let mut hasher = Sha1::new();
    hasher.update(block);
    hasher
}

fn copied(hasher: &Sha1) -> Sha1
    ensures { result ≡ hasher.now }
{
    hasher.clone().unwrap()
}

/// A key for HMAC-SHA-1, made once and used for many texts.
///
/// It keeps the two digest states that have taken in the padded key, so that a text of at most 55
/// bytes costs two compressions.
#[derive(Drop)]
pub struct Hmac1Key {
    inner: Sha1,
    outer: Sha1,
}

impl Hmac1Key {
    /// The state for `key`, which may have any length.
    pub fn new(key: &[u8]) -> Hmac1Key
        ensures { IsMadeFor result key.now }
    {
        let block = padded_key(key);
        Hmac1Key {
            inner: begun(&xor_pad(&block, INNER_PAD)),
            outer: begun(&xor_pad(&block, OUTER_PAD)),
        }
    }

    /// The 20 bytes of the HMAC of `text` under this key (RFC 2104, 2).
    pub fn mac(&self, text: &[u8]) -> [u8; DIGEST_LEN]
        ensures { (key : List ℕ) → IsMadeFor self.now key → result ≡ hmac1 key text.now }
    {
        self.mac_of_two(text, &[])
    }

    /// The 20 bytes of the HMAC of `front` with `back` after it (RFC 2104, 2).
    pub fn mac_of_two(&self, front: &[u8], back: &[u8]) -> [u8; DIGEST_LEN]
        ensures { (key : List ℕ) → IsMadeFor self.now key → result ≡ hmac1 key (front.now ++ back.now) }
    {
        let mut inner = copied(&self.inner);
        inner.update(front);
        inner.update(back);
        let mut outer = copied(&self.outer);
        outer.update(&inner.finalize());
        outer.finalize()
    }
}
