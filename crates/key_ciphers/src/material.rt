// Wrapping keys from fetched material.
ghost use Rattle.std.specs.Prelude.{◌≡◌, ℕ};
ghost use Rattle.std.specs.Result.{result_err};
ghost use Rattle.key_machine.specs.Told.{key_of};
ghost use Rattle.key_ciphers.specs.Ciphers.{ciphers};

use dataset_tree::{Format, Refusal};
use encryption_roots::Fetched;
use key_formats::{material_fault, wrapping_key};

/// The wrapping key of 32 bytes that fetched material gives in a key format. For a passphrase it is derived
/// with `iters` iterations of PBKDF2 and `salt`, which other formats don't use.
///
/// # Errors
/// As `fetched_fault` tells them.
pub fn fetched_key(
    format: Format,
    iters: u32,
    salt: u64,
    fetched: &Fetched,
) -> Result<[u8; 32], Refusal>
    ensures { result ≡ key_of ciphers format iters salt fetched.now }
{
    match fetched {
        Fetched::Got(material) => wrapping_key(format, material.as_bytes(), iters, salt),
        Fetched::Missing => Err(Refusal::KeyFileMissing),
        Fetched::Fault | Fetched::NotAsked => Err(Refusal::KeyFault),
    }
}

/// Why what was fetched gives no wrapping key, which takes no derivation: `KeyFileMissing` where there is no
/// such file, `KeyFault` where it couldn't be read or wasn't asked for, and `BadIters` or `BadMaterial` where
/// the material is no key in its format.
pub fn fetched_fault(format: Format, iters: u32, fetched: &Fetched) -> Option<Refusal>
    ensures { (salt : ℕ) → result ≡ result_err (key_of ciphers format iters salt fetched.now) }
{
    match fetched {
        Fetched::Got(material) => material_fault(format, material.as_bytes(), iters),
        Fetched::Missing => Some(Refusal::KeyFileMissing),
        Fetched::Fault | Fetched::NotAsked => Some(Refusal::KeyFault),
    }
}
