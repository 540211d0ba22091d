// Why a state refuses a new dataset, and a `get`.
ghost use Rattle.std.specs.Prelude.{◌≡◌, length};
ghost use Rattle.key_machine.specs.Clone.{clone_cases};
ghost use Rattle.key_machine.specs.Create.{are_bad_options, create_cases, has_parent_key, makes_encrypted, makes_heir, parent_row};
ghost use Rattle.key_machine.specs.Get.{get_cases};
ghost use Rattle.key_machine.specs.Refusals.{first_of};

use crate::limits::{MAX_DATASETS, MAX_FAMILIES, MAX_ID};
use crate::lookup::{is_below_encrypted, lacks_parent, parent_row, set_named};
use dataset_tree::{Refusal, SetName};
use encryption_roots::Options;
use key_ciphers::{are_bad_iterations, has_parent_key, is_encrypted, is_passphrase};
use key_machine::KeyView;

/// Why the state refuses a `create`, the first reason in this order: `Exists`, `NoParent`, `BadOptions`, `BadIters`,
/// `KeyUnavailable` for the key that the dataset would inherit, and `Full` (datasets, ids, families). `families` is the
/// number of key records that the state holds.
pub fn create_refusal<V: KeyView>(
    state: &V,
    name: &SetName,
    opts: &Options,
    families: usize,
) -> Option<Refusal>
    requires { families ≡ length (V.shows state.now).wrapped }
    ensures { result ≡ first_of (create_cases (V.shows state.now) name.now opts.now) }
{
    if set_named(state, name.as_bytes()).is_some() {
        return Some(Refusal::Exists);
    }
    if lacks_parent(state, name) {
        return Some(Refusal::NoParent);
    }
    if are_bad_options(state, name, opts) {
        return Some(Refusal::BadOptions);
    }
    if are_bad_iterations(opts.iters) {
        return Some(Refusal::BadIters);
    }
    if makes_heir(state, name, opts) && !has_parent_key(state, parent_row(state, name)) {
        return Some(Refusal::KeyUnavailable);
    }
    if state.tree().rows().len() >= MAX_DATASETS {
        return Some(Refusal::Full {
            limit: MAX_DATASETS as u64,
        });
    }
    if state.tree().last() == MAX_ID {
        return Some(Refusal::Full {
            limit: u64::from(MAX_ID),
        });
    }
    if makes_encrypted(state, name, opts) && families >= MAX_FAMILIES {
        return Some(Refusal::Full {
            limit: MAX_FAMILIES as u64,
        });
    }
    None
}

/// Why the state refuses a clone, the first reason in this order: `NoSuch` and `NotEncrypted` of the one that it is
/// made from, `Exists`, `NoParent`, and `Full` (datasets, ids).
pub fn clone_refusal<V: KeyView>(state: &V, from: &SetName, name: &SetName) -> Option<Refusal>
    ensures { result ≡ first_of (clone_cases (V.shows state.now) from.now name.now) }
{
    let origin = set_named(state, from.as_bytes());
    if origin.is_none() {
        return Some(Refusal::NoSuch);
    }
    if !is_encrypted(origin) {
        return Some(Refusal::NotEncrypted);
    }
    if set_named(state, name.as_bytes()).is_some() {
        return Some(Refusal::Exists);
    }
    if lacks_parent(state, name) {
        return Some(Refusal::NoParent);
    }
    if state.tree().rows().len() >= MAX_DATASETS {
        return Some(Refusal::Full {
            limit: MAX_DATASETS as u64,
        });
    }
    if state.tree().last() == MAX_ID {
        return Some(Refusal::Full {
            limit: u64::from(MAX_ID),
        });
    }
    None
}

/// Why the state refuses a `get`: `NoSuch`.
pub fn get_refusal<V: KeyView>(state: &V, name: &SetName) -> Option<Refusal>
    ensures { result ≡ first_of (get_cases (V.shows state.now) name.now) }
{
    if set_named(state, name.as_bytes()).is_none() {
        return Some(Refusal::NoSuch);
    }
    None
}

/// Whether the new dataset would be encrypted under the key of its parent's owner.
fn makes_heir<V: KeyView>(state: &V, name: &SetName, opts: &Options) -> bool
    ensures { result ≡ makes_heir (V.shows state.now) name.now opts.now }
{
    opts.format.is_none() && is_below_encrypted(state, name)
}

/// Whether the new dataset would be encrypted.
pub fn makes_encrypted<V: KeyView>(state: &V, name: &SetName, opts: &Options) -> bool
    ensures { result ≡ makes_encrypted (V.shows state.now) name.now opts.now }
{
    opts.format.is_some() || makes_heir(state, name, opts)
}

/// Whether the options don't go together.
fn are_bad_options<V: KeyView>(state: &V, name: &SetName, opts: &Options) -> bool
    ensures { result ≡ are_bad_options (V.shows state.now) name.now opts.now }
{
    let below = is_below_encrypted(state, name);
    match opts.format {
        Some(_) => opts.iters.is_some() && !is_passphrase(opts.format),
        None => opts.place.is_some() || opts.iters.is_some() || opts.suite.is_some() && !below,
    }
}
