// Key records as they are stored.
ghost use Rattle.std.specs.Prelude.{◌≡◌, Some, true, is_some};
ghost use Rattle.std.specs.Option.{option_map};
ghost use Rattle.wrapped_keys.specs.Stored.{parsed_record};
ghost use Rattle.key_machine.specs.Create.{seeded_master, seeded_record};
ghost use Rattle.key_ciphers.specs.Ciphers.{ciphers, master_of};

use crate::seeds::{seeded_master, seeded_vector};
use dataset_tree::{RecordBytes, Suite};
use salt_rotation::SeedWords;
use wrapped_keys::{KeyRecord, MasterKey, unwrap, wrap};

/// The master key of a stored record under a wrapping key: `None` where these are no record's bytes, or its
/// tag differs.
pub fn opened(stored: &RecordBytes, key: &[u8; 32]) -> Option<MasterKey>
    ensures { option_map master_of result ≡ ciphers.opens stored.now key.now }
{
    let record = KeyRecord::from_bytes(stored)?;
    unwrap(&record, key).ok()
}

/// The stored record of the master key that a seed makes, under a wrapping key and the seed's first
/// initialization vector.
pub fn seeded_record(seed: &SeedWords, suite: Suite, key: &[u8; 32]) -> RecordBytes
    ensures sealed { result ≡ seeded_record ciphers suite seed.now key.now }
    ensures opens { ciphers.opens result key.now ≡ Some (seeded_master ciphers suite seed.now) }
    ensures in_form { is_some (parsed_record result) ≡ true }
{
    let master = seeded_master(seed, suite);
    wrap(&master, key, seeded_vector(seed, 0)).to_bytes()
}
