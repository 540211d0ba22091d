// Slots, mappings and mounts, as lists.
ghost use Rattle.std.specs.Prelude.{◌≡◌, ◌<◌, ◌≤◌, ◌==◌, length, replicate, slice_set, vec_capacity, IfOk, if◌then◌else◌};
ghost use Rattle.std.specs.List.{AllPairs, list_any};
ghost use Rattle.encryption_roots.specs.ById.{IsRisingById, without_id};
ghost use Rattle.key_machine.specs.Mount.{free_slot, is_free};
ghost use Rattle.key_machine.specs.Plain.{no_keys};
ghost use Rattle.key_machine.specs.Unmount.{without_mount};
ghost use Rattle.key_machine.specs.Users.{with_mount};

use crate::state::SLOTS;
use dataset_tree::NoMemory;
use encryption_roots::remove_at_id;
use mapping_words::LAST_GENERATION;
use std::alloc::Global;
use wrapped_keys::MasterKey;

/// The lowest slot on which nothing is mapped and that has a generation left.
pub(crate) fn free_slot(gens: &[u32], mapped: &[(u32, u32)]) -> Option<u32>
    requires { length gens.now ≡ 256 }
    ensures { result ≡ free_slot (record no_keys { gens = gens.now; mapped = mapped.now }) }
{
    for slot in 0..SLOTS {
        if is_free(gens, mapped, slot) {
            return Some(slot);
        }
    }
    None
}

fn is_free(gens: &[u32], mapped: &[(u32, u32)], slot: u32) -> bool
    requires { slot < length gens.now }
    ensures { result ≡ is_free (record no_keys { gens = gens.now; mapped = mapped.now }) slot }
{
    !is_taken(mapped, slot) && gens[slot as usize] < LAST_GENERATION
}

fn is_taken(mapped: &[(u32, u32)], slot: u32) -> bool
    ensures { result ≡ list_any (λ mapping. mapping.1 == slot) mapped.now }
{
    mapped.iter().any(|mapping| mapping.1 == slot)
}

/// Keeps a family's opened master key while it is used.
pub(crate) fn keep_opened(opened: &mut Vec<(u32, MasterKey)>, family: u32, is_used: bool)
    requires { IsRisingById opened.old.items }
    ensures opened { opened.new.items ≡ (if is_used then opened.old.items else without_id family opened.old.items) }
    ensures rising { IsRisingById opened.new.items }
    ensures room { vec_capacity opened.old ≤ vec_capacity opened.new }
{
    if !is_used {
        remove_at_id(opened, family);
    }
}

pub(crate) fn has_mount(mounted: &[u32], id: u32) -> bool
    ensures { result ≡ list_any (λ other. other == id) mounted.now }
{
    mounted.iter().any(|other| *other == id)
}

/// Adds a mount, for which there is room.
pub(crate) fn add_mount(mounted: &mut Vec<u32>, id: u32)
    requires rising { AllPairs (λ a b. a < b) mounted.old.items }
    requires room { length mounted.old.items < vec_capacity mounted.old }
    ensures added { mounted.new.items ≡ with_mount id mounted.old.items }
    ensures room { vec_capacity mounted.old ≤ vec_capacity mounted.new }
{
    let at = mounted.partition_point(|other| *other <= id);
    if mounted.insert(at, id).is_err() {
        unreachable!();
    }
}

pub(crate) fn remove_mount(mounted: &mut Vec<u32>, id: u32)
    ensures removed { mounted.new.items ≡ without_mount id mounted.old.items }
    ensures room { vec_capacity mounted.old ≤ vec_capacity mounted.new }
{
    mounted.retain(|other| *other != id);
}

/// Sets the last generation of a slot.
pub(crate) fn set_generation(gens: &mut Vec<u32>, slot: u32, generation: u32)
    requires { slot < length gens.old.items }
    ensures { gens.new.items ≡ slice_set gens.old.items slot generation }
{
    gens[slot as usize] = generation;
}

/// The generations of slots that were never opened.
pub(crate) fn fresh_gens(alloc: Global) -> Result<Vec<u32>, NoMemory>
    ensures { IfOk result (λ gens. gens.items ≡ replicate 256 0) }
{
    Ok(vec![in alloc; 0; SLOTS as usize]?)
}
