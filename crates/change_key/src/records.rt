// The families of a root, and their records under another key.
ghost use Rattle.std.specs.Prelude.{◌≡◌, ◌<◌, not, true, IfOk};
ghost use Rattle.std.specs.List.{All, AllPairs, find};
ghost use Rattle.std.specs.Option.{option_copied, option_map};
ghost use Rattle.encryption_roots.specs.ById.{with_id};
ghost use Rattle.encryption_roots.specs.Owned.{owned_families};
ghost use Rattle.key_ciphers.specs.Ciphers.{ciphers, master_of};
ghost use Rattle.change_key.specs.Records.{opened_in, opens_in, sealed_in, anew, numbered};

use dataset_tree::{NoMemory, RecordBytes};
use encryption_roots::{Props, owned_families};
use key_ciphers::{opened, seeded_vector};
use key_machine::KeyView;
use salt_rotation::SeedWords;
use std::alloc::Global;
use wrapped_keys::{MasterKey, wrap};

/// The families that a dataset owns once it is a root with these properties.
pub(crate) fn families_once_root<V: KeyView>(
    alloc: Global,
    state: &V,
    id: u32,
    props: &Props,
) -> Result<Vec<u32>, NoMemory>
    ensures { IfOk result (λ families. families.items
        ≡ owned_families (V.shows state.now).tree.rows
        (with_id id props.now (V.shows state.now).roots) id) }
{
    let mut roots = state.roots().copy()?;
    roots.insert(id, props.copy()?)?;
    owned_families(alloc, state.tree(), &roots, id)
}

/// The first of these families whose record doesn't open under the key.
pub(crate) fn first_wrong<V: KeyView>(state: &V, families: &[u32], key: &[u8; 32]) -> Option<u32>
    ensures { result
        ≡ find (λ family. not (opens_in ciphers (V.shows state.now) key.now family)) families.now }
{
    match wrong_in(state, families, key) {
        None => None,
        Some(family) => Some(*family),
    }
}

fn wrong_in<'a, V: KeyView>(state: &V, families: &'a [u32], key: &[u8; 32]) -> Option<&'a u32>
    ensures { option_copied result
        ≡ find (λ family. not (opens_in ciphers (V.shows state.now) key.now family)) families.now }
{
    families.iter().find(|family| !opens(state, **family, key))
}

fn opens<V: KeyView>(state: &V, family: u32, key: &[u8; 32]) -> bool
    ensures { result ≡ opens_in ciphers (V.shows state.now) key.now family }
{
    opened_by(state, family, key).is_some()
}

/// The master key of a family, by a key that opens its record.
fn opened_by<V: KeyView>(state: &V, family: u32, key: &[u8; 32]) -> Option<MasterKey>
    ensures { option_map master_of result ≡ opened_in ciphers (V.shows state.now) key.now family }
{
    match state.wrapped(family) {
        None => None,
        Some(stored) => opened(&stored, key),
    }
}

/// The records of these families under another key, each with its master key: the vector of the
/// record with number i is the seed's of that number.
pub(crate) fn rewrapped<V: KeyView>(
    alloc: Global,
    state: &V,
    families: &[u32],
    seed: &SeedWords,
    old: &[u8; 32],
    new: &[u8; 32],
) -> Result<Vec<(u32, RecordBytes)>, NoMemory>
    requires rising { AllPairs (λ earlier later. earlier < later) families.now }
    requires opened { All (λ family. opens_in ciphers (V.shows state.now) old.now family ≡ true)
        families.now }
    ensures { IfOk result (λ records. records.items
        ≡ numbered (anew ciphers (V.shows state.now) seed.now old.now new.now) 0 families.now) }
{
    let mut records = Vec::new(alloc);
    for (number, family) in families.iter().enumerate() {
        let vector = seeded_vector(seed, number as u32);
        records.push((*family, sealed_anew(state, *family, old, new, vector)))?;
    }
    Ok(records)
}

/// A family's record under another key, with its master key.
fn sealed_anew<V: KeyView>(
    state: &V,
    family: u32,
    old: &[u8; 32],
    new: &[u8; 32],
    vector: [u8; 12],
) -> RecordBytes
    requires { opens_in ciphers (V.shows state.now) old.now family ≡ true }
    ensures { result ≡ sealed_in ciphers (V.shows state.now) old.now new.now vector family }
{
    let Some(master) = opened_by(state, family, old) else {
        unreachable!();
    };
    wrap(&master, new, vector).to_bytes()
}
