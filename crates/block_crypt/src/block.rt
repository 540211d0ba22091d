// Sealing and opening a block.
ghost use Rattle.std.specs.Prelude.{◌≡◌, ◌≤◌, ◌↔◌, length, None, Some, OnOk, OnErr, IsErr};
ghost use Rattle.block_crypt.specs.Blocks.{opened_block, sealed_block};

use crate::block_key::{BlockKey, write_block_key};
use gcm_seal::BadTag;
use salt_rotation::Drawn;
use wrapped_keys::{aead_open, aead_seal};

/// The most bytes of a block.
pub const MAX_BLOCK_LEN: usize = 131_072;

/// What opens a sealed block, beside its bytes and the key.
#[derive(Clone, Copy, Debug, PartialEq, Eq)]
pub struct Sealed {
    pub salt: [u8; 8],
    pub iv: [u8; 12],
    pub mac: [u8; 16],
}

/// Seals a block in place in the mode of the key's suite, under the key of the drawn salt and with
/// the drawn initialization vector.
pub fn seal_block<K: BlockKey>(key: &K, drawn: &Drawn, text: &mut [u8]) -> Sealed
    requires { length text.old ≤ MAX_BLOCK_LEN }
    ensures salt { result.salt ≡ drawn.now.salt }
    ensures iv { result.iv ≡ drawn.now.iv }
    ensures sealed { sealed_block (K.told key.now) drawn.now.salt drawn.now.iv text.old ≡ (text.new, result.mac) }
    ensures opens { opened_block (K.told key.now) result.salt result.iv text.new result.mac ≡ Some text.old }
{
    let suite = key.suite();
    let mut derived = [0; 32];
    let block_key = &mut derived[..suite.key_len()];
    write_block_key(key, &drawn.salt, block_key);
    Sealed {
        salt: drawn.salt,
        iv: drawn.iv,
        mac: aead_seal(suite, block_key, &drawn.iv, &[], text),
    }
}

/// Opens a sealed block in place.
///
/// # Errors
///
/// `BadTag` where the MAC is not that of the sealed `text`, which is then as it was.
pub fn open_block<K: BlockKey>(key: &K, sealed: &Sealed, text: &mut [u8]) -> Result<(), BadTag>
    requires { length text.old ≤ MAX_BLOCK_LEN }
    ensures opened { OnOk result (opened_block
        (K.told key.now) sealed.now.salt sealed.now.iv text.old sealed.now.mac ≡ Some text.new) }
    ensures bad_tag { IsErr result ↔
        (opened_block (K.told key.now) sealed.now.salt sealed.now.iv text.old sealed.now.mac ≡ None) }
    ensures unchanged { OnErr result (text.new ≡ text.old) }
{
    let suite = key.suite();
    let mut derived = [0; 32];
    let block_key = &mut derived[..suite.key_len()];
    write_block_key(key, &sealed.salt, block_key);
    aead_open(suite, block_key, &sealed.iv, &[], text, &sealed.mac)
}
