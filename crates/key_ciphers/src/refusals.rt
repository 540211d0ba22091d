// Why a state refuses that a dataset's wrapping key changes.
ghost use Rattle.std.specs.Prelude.{◌≡◌};
ghost use Rattle.std.specs.Option.{option_copied};
ghost use Rattle.key_machine.specs.Change.{change_cases, are_bad_changes, own_props};
ghost use Rattle.key_machine.specs.Create.{are_bad_iterations, has_parent_key};
ghost use Rattle.key_machine.specs.Inherit.{inherit_cases, row_above};
ghost use Rattle.key_machine.specs.Refusals.{first_of, is_root_row};

use crate::lookup::{has_key, has_key_row, is_clone, is_encrypted, row_named};
use crate::options::{changed_format, is_passphrase};
use dataset_tree::{Refusal, Row, SetName};
use encryption_roots::{Options, Props};
use key_formats::{MAX_ITERATIONS, MIN_ITERATIONS};
use key_machine::KeyView;

/// Why the state refuses a change of the key, the first reason in this order: `NoSuch`, `NotEncrypted`,
/// `IsClone`, `BadOptions`, `BadIters`, and `KeyUnavailable` where the present key is neither loaded nor to
/// be fetched first.
pub fn change_refusal<V: KeyView>(
    state: &V,
    name: &SetName,
    opts: &Options,
    load_first: bool,
) -> Option<Refusal>
    ensures { result ≡ first_of (change_cases (V.shows state.now) name.now opts.now load_first) }
{
    let row = row_named(state.tree().rows(), name.as_bytes());
    if row.is_none() {
        return Some(Refusal::NoSuch);
    }
    if !is_encrypted(row) {
        return Some(Refusal::NotEncrypted);
    }
    if is_clone(row) {
        return Some(Refusal::IsClone);
    }
    if are_bad_changes(own_props(state, row), opts) {
        return Some(Refusal::BadOptions);
    }
    if are_bad_iterations(opts.iters) {
        return Some(Refusal::BadIters);
    }
    if !load_first && !has_key_row(state, row) {
        return Some(Refusal::KeyUnavailable);
    }
    None
}

/// The properties of the dataset itself, where it is a root.
fn own_props<'a, V: KeyView>(state: &'a V, row: Option<&Row>) -> Option<&'a Props>
    ensures { option_copied result ≡ own_props (V.shows state.now) (option_copied row.entry) }
{
    match row {
        None => None,
        Some(row) => state.roots().get(row.id),
    }
}

/// Whether the options don't go with the dataset's own properties.
fn are_bad_changes(own: Option<&Props>, opts: &Options) -> bool
    ensures { result ≡ are_bad_changes (option_copied own.entry) opts.now }
{
    let unformatted = own.is_none() && opts.format.is_none();
    unformatted || opts.iters.is_some() && !is_passphrase(Some(changed_format(own, opts)))
}

/// Whether iterations are given that a passphrase can't have: fewer than 100000, or more than 10000000.
pub fn are_bad_iterations(iters: Option<u64>) -> bool
    ensures { result ≡ are_bad_iterations iters }
{
    match iters {
        None => false,
        Some(iters) => iters < u64::from(MIN_ITERATIONS) || iters > u64::from(MAX_ITERATIONS),
    }
}

/// Why the state refuses that a root inherits its parent's key, the first reason in this order: `NoSuch`,
/// `NotEncrypted`, `IsClone`, `NotRoot`, `NoEncryptedParent`, `KeyUnavailable` where the present key is
/// neither loaded nor to be fetched first, and `KeyUnavailable` for the key of the parent's owner. Where the
/// present key is to be fetched, the last isn't told here: it stands behind that key.
pub fn inherit_refusal<V: KeyView>(state: &V, name: &SetName, load_first: bool) -> Option<Refusal>
    ensures { result ≡ first_of (inherit_cases (V.shows state.now) name.now load_first) }
{
    let row = row_named(state.tree().rows(), name.as_bytes());
    if row.is_none() {
        return Some(Refusal::NoSuch);
    }
    if !is_encrypted(row) {
        return Some(Refusal::NotEncrypted);
    }
    if is_clone(row) {
        return Some(Refusal::IsClone);
    }
    if !is_root_row(state, row) {
        return Some(Refusal::NotRoot);
    }
    if !is_encrypted(row_above(state, row)) {
        return Some(Refusal::NoEncryptedParent);
    }
    let has_own = has_key_row(state, row);
    if !load_first && !has_own {
        return Some(Refusal::KeyUnavailable);
    }
    // Where the present key is fetched, its faults come before a parent whose key isn't loaded.
    if !(load_first && !has_own) && !has_parent_key(state, row_above(state, row)) {
        return Some(Refusal::KeyUnavailable);
    }
    None
}

fn is_root_row<V: KeyView>(state: &V, row: Option<&Row>) -> bool
    ensures { result ≡ is_root_row (V.shows state.now) (option_copied row.entry) }
{
    match row {
        None => false,
        Some(row) => state.roots().contains(row.id),
    }
}

/// The dataset above.
fn row_above<'a, V: KeyView>(state: &'a V, row: Option<&Row>) -> Option<&'a Row>
    ensures { option_copied result ≡ row_above (V.shows state.now) (option_copied row.entry) }
{
    match row {
        None => None,
        Some(row) => state.tree().row(row.parent),
    }
}

/// Whether there is a parent and the key that it uses is loaded.
pub fn has_parent_key<V: KeyView>(state: &V, parent: Option<&Row>) -> bool
    ensures { result ≡ has_parent_key (V.shows state.now) (option_copied parent.entry) }
{
    match parent {
        None => false,
        Some(parent) => has_key(state, parent.id),
    }
}
