// Authenticated encryption in the mode of a suite.
ghost use Rattle.std.specs.Prelude.{◌≡◌, ◌≤◌, ◌↔◌, length, None, Some, OnOk, OnErr, IsErr};
ghost use Rattle.gcm_seal.specs.Gcm.{IsKeyLength};
ghost use Rattle.wrapped_keys.specs.Aead.{aead_seal, aead_open};

use dataset_tree::Suite;
use gcm_seal::{BadTag, MAX_TEXT_LEN, seal, unseal};

/// The most bytes of additional data: those whose length CCM writes in two bytes (SP 800-38C, A.2.2), so that
/// every mode has a place for them.
pub const MAX_AAD_LEN: usize = 65279;

const _: () = prove!(MAX_AAD_LEN + 1 == (1 << 16) - (1 << 8));

/// Seals `text` in place in the mode of `suite`, and returns its tag, which covers `aad` too.
///
/// `key` has 16, 24 or 32 bytes, for AES-128, AES-192 or AES-256, whichever of them the suite names.
pub fn aead_seal(suite: Suite, key: &[u8], iv: &[u8; 12], aad: &[u8], text: &mut [u8]) -> [u8; 16]
    requires key_length { IsKeyLength (length key.now) }
    requires aad_length { length aad.now ≤ MAX_AAD_LEN }
    requires text_length { length text.old ≤ MAX_TEXT_LEN }
    ensures sealed { aead_seal suite key.now iv.now aad.now text.old ≡ (text.new, result) }
    ensures opens { aead_open suite key.now iv.now aad.now text.new result ≡ Some text.old }
{
    match suite {
        Suite::Aes128Gcm | Suite::Aes192Gcm | Suite::Aes256Gcm => seal(key, iv, aad, text),
    }
}

/// Opens a sealed `text` in place in the mode of `suite`. The arguments are those of `aead_seal`,
/// with the tag that it returned.
///
/// # Errors
///
/// `BadTag` where `tag` is not the tag of the sealed `text`, which is then as it was.
pub fn aead_open(
    suite: Suite,
    key: &[u8],
    iv: &[u8; 12],
    aad: &[u8],
    text: &mut [u8],
    tag: &[u8; 16],
) -> Result<(), BadTag>
    requires key_length { IsKeyLength (length key.now) }
    requires aad_length { length aad.now ≤ MAX_AAD_LEN }
    requires text_length { length text.old ≤ MAX_TEXT_LEN }
    ensures opened { OnOk result (aead_open suite key.now iv.now aad.now text.old tag.now ≡ Some text.new) }
    ensures bad_tag { IsErr result ↔ (aead_open suite key.now iv.now aad.now text.old tag.now ≡ None) }
    ensures unchanged { OnErr result (text.new ≡ text.old) }
{
    match suite {
        Suite::Aes128Gcm | Suite::Aes192Gcm | Suite::Aes256Gcm => unseal(key, iv, aad, text, tag),
    }
}
