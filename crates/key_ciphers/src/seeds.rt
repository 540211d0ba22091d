// What the words of a seed make.
ghost use Rattle.std.specs.Prelude.{◌≡◌, ℕ};
ghost use Rattle.std.specs.Result.{result_err};
ghost use Rattle.byte_fields.specs.LittleEndian.{little_endian_value};
ghost use Rattle.salt_rotation.specs.SeedWords.{seed_bytes};
ghost use Rattle.salt_rotation.specs.Places.{salt_place, vector_place};
ghost use Rattle.key_machine.specs.Create.{seeded_master};
ghost use Rattle.key_machine.specs.Told.{key_of, seed_of};
ghost use Rattle.key_ciphers.specs.Ciphers.{ciphers, value_of};
ghost use Rattle.key_ciphers.specs.Calls.{unless_fault};

use crate::material::fetched_fault;
use byte_fields::get_u64;
use dataset_tree::{Format, Refusal, Suite};
use encryption_roots::{LineKit, SeedGot};
use salt_rotation::{GUID_PLACE, HMAC_PLACE, MASTER_PLACE, SALT_PLACE, SeedWords, place_of_vector};
use wrapped_keys::MasterKey;

/// The master key that a seed makes.
pub fn seeded_master(seed: &SeedWords, suite: Suite) -> MasterKey
    ensures { result ≡ value_of (seeded_master ciphers suite seed.now) }
{
    let mut bytes = [0; 32];
    let master = &mut bytes[..suite.key_len()];
    seed.fill(MASTER_PLACE, master);
    let mut hmac = [0; 64];
    seed.fill(HMAC_PLACE, &mut hmac);
    MasterKey::new(number_at(seed, GUID_PLACE), suite, master, hmac)
}

/// The initialization vector of the record with this number, from 0, of those that a command writes.
pub fn seeded_vector(seed: &SeedWords, record_number: u32) -> [u8; 12]
    ensures { result ≡ seed_bytes seed.now (vector_place record_number) 12 }
{
    let mut vector = [0; 12];
    seed.fill(place_of_vector(record_number), &mut vector);
    vector
}

/// The salt that a seed gives to the properties of a passphrase.
pub fn seeded_salt(seed: &SeedWords) -> u64
    ensures { result ≡ little_endian_value (seed_bytes seed.now salt_place 8) }
{
    number_at(seed, SALT_PLACE)
}

/// The number in the eight bytes from a place on.
fn number_at(seed: &SeedWords, place: u64) -> u64
    ensures { result ≡ little_endian_value (seed_bytes seed.now place 8) }
{
    let mut bytes = [0; 8];
    seed.fill(place, &mut bytes);
    get_u64(&bytes, 0)
}

/// The seed of a line whose new key has no fault, or the first fault of both. No key is derived for it.
pub fn seed_behind_key(format: Format, iters: u32, kit: &LineKit) -> Result<[u8; 32], Refusal>
    ensures { (salt : ℕ) → result
        ≡ unless_fault (result_err (key_of ciphers format iters salt kit.now.new_key))
        (seed_of kit.now.seed) }
{
    if let Some(why) = fetched_fault(format, iters, &kit.new_key) {
        return Err(why);
    }
    seed_got(kit.seed)
}

/// The seed that was had, `EntropyFault` where none was.
pub fn seed_got(seed: SeedGot) -> Result<[u8; 32], Refusal>
    ensures { result ≡ seed_of seed }
{
    match seed {
        SeedGot::Got(seed) => Ok(seed),
        SeedGot::Fault | SeedGot::NotAsked => Err(Refusal::EntropyFault),
    }
}
