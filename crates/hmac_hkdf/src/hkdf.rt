ghost use Rattle.std.specs.Prelude.{◌≡◌, ◌≤◌, [], ◌∷◌, ◌++◌, length};
ghost use Rattle.hmac_hkdf.specs.Hmac.{hmac512};
ghost use Rattle.hmac_hkdf.specs.Hkdf.{hkdf};

use crate::hmac::hmac512;
use crate::pieces::Hmac512;
use byte_blocks::put_block;

const HASH_LENGTH: usize = 64;

// One block of output from the one before it, which is empty before the first.
fn next_block(prk: &[u8], previous: &[u8], info: &[u8], number: u8) -> [u8; HASH_LENGTH]
    ensures { result ≡ hmac512 prk.now (previous.now ++ info.now ++ number ∷ []) }
{
    let mut mac = Hmac512::new(prk);
    mac.update(previous);
    mac.update(info);
    mac.update(&[number]);
    mac.finish()
}

/// Fills `out` with output keying material of `ikm` under `info`, by HKDF with HMAC-SHA-512 and no
/// salt (RFC 5869, 2.2 and 2.3).
pub fn hkdf512(ikm: &[u8], info: &[u8], out: &mut [u8])
    requires { length out.old ≤ 16320 }
    ensures { out.new ≡ hkdf ikm.now info.now (length out.old) }
{
    let prk = hmac512(&[0; HASH_LENGTH], ikm);
    let mut block = [0; HASH_LENGTH];
    let count = out.len().div_ceil(HASH_LENGTH);
    'fill: for i in 0..count {
        // No block comes before the first.
        let previous = &block[..HASH_LENGTH * i.min(1)];
        block = next_block(&prk, previous, info, (i + 1) as u8);
        put_block(out, i, &block);
    }
}
