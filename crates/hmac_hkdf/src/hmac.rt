ghost use Rattle.std.specs.Prelude.{◌≡◌};
ghost use Rattle.hmac_hkdf.specs.Hmac.{hmac1, hmac512};

use crate::keyed::Hmac1Key;
use crate::pieces::Hmac512;

/// HMAC-SHA-512 of `text` under `key`, which may have any length (RFC 2104, 2).
pub fn hmac512(key: &[u8], text: &[u8]) -> [u8; 64]
    ensures { result ≡ hmac512 key.now text.now }
{
    let mut mac = Hmac512::new(key);
    mac.update(text);
    mac.finish()
}

/// HMAC-SHA-1 of `text` under `key`, which may have any length (RFC 2104, 2).
pub fn hmac1(key: &[u8], text: &[u8]) -> [u8; 20]
    ensures { result ≡ hmac1 key.now text.now }
{
    Hmac1Key::new(key).mac(text)
}
