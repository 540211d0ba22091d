// The families of a host.
ghost use Rattle.std.specs.Prelude.{◌≡◌, ◌<◌, ◌≤◌, ◌+◌, IfOk, IfSome, length, min, vec_capacity};
ghost use Rattle.std.specs.Option.{option_copied};
ghost use Rattle.byte_fields.specs.LittleEndian.{little_endian_value};
ghost use Rattle.encryption_roots.specs.ById.{IsRisingById, with_id};
ghost use Rattle.encryption_roots.specs.RecordSize.{IsRecordSize};
ghost use Rattle.salt_rotation.specs.SeedWords.{seed_bytes};
ghost use Rattle.key_machine.specs.Create.{makes_encrypted, parent_row};
ghost use Rattle.host_state.specs.Hosts.{family_from, log_room, new_block, seeded_family, seeded_guid, with_family};

use byte_fields::get_u64;
use dataset_tree::{NoMemory, Row, SetName};
use encryption_roots::{Options, SeedGot, put_at_id};
use family_log::Family;
use file_dataset::fresh_portable;
use key_ciphers::{is_encrypted, row_named};
use key_store::KeyState;
use salt_rotation::{GUID_PLACE, HMAC_PLACE, MAX_SALT_USES, SALTS_SEED_PLACE, SeedWords};
use shelf_store::Shelf;
use std::alloc::Global;

/// How many entries the log of a family may have.
const LOG_ROOM: u32 = 1_048_576;

/// The record size where the options have none, in bytes.
const DEFAULT_RECORD_SIZE: u32 = 131_072;

/// Whether a new dataset of this name would be encrypted.
pub(crate) fn makes_encrypted(keys: &KeyState, name: &SetName, opts: &Options) -> bool
    ensures { result ≡ makes_encrypted keys.now name.now opts.now }
{
    opts.format.is_some() || is_encrypted(parent_row(keys, name))
}

fn parent_row<'a>(keys: &'a KeyState, name: &SetName) -> Option<&'a Row>
    ensures { option_copied result ≡ parent_row keys.now name.now }
{
    row_named(keys.tree().rows(), name.parent()?)
}

/// The family of a new encrypted dataset with this id, by the seed of its line; none where no seed was had.
pub(crate) fn family_from<B: Shelf>(
    alloc: Global,
    limit: u64,
    opts: &Options,
    id: u32,
    seed: SeedGot,
) -> Result<Option<Family<B>>, NoMemory>
    requires least { 1 ≤ limit }
    requires most { limit ≤ MAX_SALT_USES }
    requires record_size { IfSome opts.now.block IsRecordSize }
    ensures { IfOk result (λ family. family ≡ family_from B.tells limit (new_block opts.now) id seed) }
{
    match seed {
        SeedGot::Got(seed) => {
            let block = opts.block.unwrap_or(DEFAULT_RECORD_SIZE);
            Ok(Some(seeded_family(alloc, limit, seed, block, id)?))
        }
        SeedGot::NotAsked | SeedGot::Fault => Ok(None),
    }
}

fn seeded_family<B: Shelf>(
    alloc: Global,
    limit: u64,
    seed: [u8; 32],
    block: u32,
    id: u32,
) -> Result<Family<B>, NoMemory>
    requires least { 1 ≤ limit }
    requires most { limit ≤ MAX_SALT_USES }
    requires record_size { IsRecordSize block }
    ensures { IfOk result (λ family. family ≡ seeded_family B.tells limit seed block id) }
{
    let words = SeedWords::new(seed);
    let mut salts_seed = [0; 32];
    words.fill(SALTS_SEED_PLACE, &mut salts_seed);
    let mut hmac_key = [0; 64];
    words.fill(HMAC_PLACE, &mut hmac_key);
    let guid = seeded_guid(&words);
    let portable = fresh_portable(&hmac_key, block);
    Family::make(
        alloc, guid, block, salts_seed, limit, LOG_ROOM, id, portable,
    )
}

/// The guid of a family by its seed, and of a snapshot.
pub(crate) fn seeded_guid(words: &SeedWords) -> u64
    ensures { result ≡ seeded_guid words.now }
{
    let mut bytes = [0; 8];
    words.fill(GUID_PLACE, &mut bytes);
    get_u64(&bytes, 0)
}

/// Puts the family of a new dataset to the others, for which there is room; a dataset may have none.
pub(crate) fn keep_family<B: Shelf>(
    families: &mut Vec<(u32, Family<B>)>,
    id: u32,
    family: Option<Family<B>>,
)
    requires rising { IsRisingById families.old.items }
    requires room { length families.old.items < vec_capacity families.old }
    ensures kept { families.new.items ≡ with_family id family families.old.items }
    ensures rising { IsRisingById families.new.items }
{
    match family {
        None => {}
        Some(family) => put_with_room(families, id, family),
    }
}

/// Sets the value at this id, for which there is room.
fn put_with_room<X: Drop>(entries: &mut Vec<(u32, X)>, id: u32, value: X)
    requires rising { IsRisingById entries.old.items }
    requires room { length entries.old.items < vec_capacity entries.old }
    ensures put { entries.new.items ≡ with_id id value entries.old.items }
    ensures rising { IsRisingById entries.new.items }
{
    if put_at_id(entries, id, value).is_err() {
        unreachable!();
    }
}
