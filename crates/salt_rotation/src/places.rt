// Where the words of a seed stand that a command takes from entropy.
ghost use Rattle.std.specs.Prelude.{◌≡◌};
ghost use Rattle.salt_rotation.specs.Places.{guid_place, hmac_place, master_place, salt_place, salts_seed_place, vector_place};

/// The place of the master key, of which a suite takes the first 16, 24 or 32 bytes.
pub const MASTER_PLACE: u64 = 0;

/// The place of the HMAC key of 64 bytes.
pub const HMAC_PLACE: u64 = 8;

/// The place of the guid, 8 bytes, of a key or of a snapshot.
pub const GUID_PLACE: u64 = 24;

/// The place of the seed of a family's salts, 32 bytes.
pub const SALTS_SEED_PLACE: u64 = 26;

/// The place of the salt of a passphrase, 8 bytes.
pub const SALT_PLACE: u64 = 34;

const FIRST_VECTOR_PLACE: u64 = 36;

// Each part begins where the one before it ends.
const _: () = prove!(
    MASTER_PLACE == 0
        && HMAC_PLACE == MASTER_PLACE + 8
        && GUID_PLACE == HMAC_PLACE + 16
        && SALTS_SEED_PLACE == GUID_PLACE + 2
        && SALT_PLACE == SALTS_SEED_PLACE + 8
        && FIRST_VECTOR_PLACE == SALT_PLACE + 2
);

// The words of a vector.
const VECTOR_WORDS: u64 = 3;

/// The place of the initialization vector, 12 bytes, of the record with this number, from 0, of those that a
/// command writes.
pub fn place_of_vector(record_number: u32) -> u64
    ensures { result ≡ vector_place record_number }
{
    FIRST_VECTOR_PLACE + VECTOR_WORDS * u64::from(record_number)
}

/// The constants are the places of the definitions: a law, which does nothing.
pub fn constants_are_the_places()
    ensures master { MASTER_PLACE ≡ master_place }
    ensures hmac { HMAC_PLACE ≡ hmac_place }
    ensures guid { GUID_PLACE ≡ guid_place }
    ensures salts_seed { SALTS_SEED_PLACE ≡ salts_seed_place }
    ensures salt { SALT_PLACE ≡ salt_place }
    ensures first_vector { FIRST_VECTOR_PLACE ≡ vector_place 0 }
{}
