// Plans of `change-key`.
ghost use Rattle.std.specs.Prelude.{◌≡◌, false, IfOk};
ghost use Rattle.dataset_tree.specs.Refusal.{Gives};
ghost use Rattle.encryption_roots.specs.ById.{at_id};
ghost use Rattle.encryption_roots.specs.declared.command.KeyCmd.TheVariants as commands;
ghost use Rattle.key_machine.specs.Create.{are_bad_iterations};
ghost use Rattle.key_machine.specs.Plan.{IsPlanned};
ghost use Rattle.key_machine.specs.Rekey.{old_key};
ghost use Rattle.key_machine.specs.Sound.{Sound, IsEncrypted};
ghost use Rattle.key_machine.specs.Told.{seed_of};
ghost use Rattle.key_ciphers.specs.Ciphers.{ciphers};
ghost use Rattle.change_key.specs.Keys.{StopsAt, first_fault, new_key_of, present_key};
ghost use Rattle.key_ciphers.specs.Calls.{stepped, AnswersDone};
ghost use Rattle.change_key.specs.Plans.{IsPlanOf, IsToldChange, OpensPresent};

use crate::new_key::new_key;
use crate::present::root_key;
use crate::records::{families_once_root, rewrapped};
use dataset_tree::{SetName, Stop};
use encryption_roots::{Fetched, LineKit, Options, owner_of};
use key_ciphers::change_refusal;
use key_machine::{ChangePlan, KeyView};
use salt_rotation::SeedWords;
use std::alloc::Global;

/// Plans `change-key`: the dataset becomes a root, or stays one, with a new wrapping key, and the
/// records of the families that it then owns stand under that key, with the same master keys. The
/// present key is fetched only with `load_first` and where it isn't loaded, and serves this line
/// alone.
///
/// # Errors
/// `NoSuch`, `NotEncrypted`, `IsClone`, `BadOptions`, `BadIters`, and `KeyUnavailable` without
/// `load_first`. Then those of the present key where it is fetched: `KeyFileMissing` or `KeyFault`,
/// `BadMaterial`, and `WrongKey` of the first family, by id, whose record doesn't open. Then those
/// of the new key, and `EntropyFault`. What the kit wasn't asked for counts as a taking that
/// failed.
pub fn plan_change<V: KeyView>(
    alloc: Global,
    state: &V,
    name: &SetName,
    opts: &Options,
    load_first: bool,
    kit: &LineKit,
) -> Result<ChangePlan, Stop>
    requires sound { Sound ciphers (V.shows state.now) }
    ensures reply { AnswersDone result
        (stepped (V.shows state.now)
        (commands.Change name.now opts.now load_first) kit.now).reply }
    ensures plan { IfOk result (λ plan. IsPlanOf ciphers (V.shows state.now)
        (commands.Change name.now opts.now load_first) kit.now
        (old_key ciphers (V.shows state.now) plan.root load_first kit.now.old_key) plan.key plan) }
    ensures planned { IfOk result (IsPlanned ciphers (V.shows state.now)) }
{
    if let Some(why) = change_refusal(state, name, opts, load_first) {
        return Err(Stop::Refused(why));
    }
    let Some(id) = state.tree().find(name) else {
        unreachable!();
    };
    let old = match present_key(alloc, state, id, &kit.old_key) {
        Ok(old) => old,
        Err(stop) => return Err(stop),
    };
    change_with(alloc, state, id, opts, kit, &old)
}

/// The key of the present owner: the loaded one, else the one that was fetched.
fn present_key<V: KeyView>(
    alloc: Global,
    state: &V,
    id: u32,
    fetched: &Fetched,
) -> Result<[u8; 32], Stop>
    requires sound { Sound ciphers (V.shows state.now) }
    requires encrypted { IsEncrypted (V.shows state.now) id }
    ensures { Gives result (present_key ciphers (V.shows state.now) id fetched.now) }
{
    let Some(root) = owner_of(state.tree(), state.roots(), id) else {
        unreachable!();
    };
    root_key(alloc, state, root, fetched)
}

/// The plan of a change that the state and the present key don't refuse.
fn change_with<V: KeyView>(
    alloc: Global,
    state: &V,
    id: u32,
    opts: &Options,
    kit: &LineKit,
    old: &[u8; 32],
) -> Result<ChangePlan, Stop>
    requires sound { Sound ciphers (V.shows state.now) }
    requires iterations { are_bad_iterations opts.now.iters ≡ false }
    requires opens { OpensPresent ciphers (V.shows state.now) id old.now }
    ensures plan { IfOk result
        (IsToldChange ciphers (V.shows state.now) id opts.now kit.now old.now) }
    ensures fault { StopsAt result
        (first_fault (new_key_of ciphers (at_id id (V.shows state.now).roots) opts.now kit.now)
        (seed_of kit.now.seed)) }
{
    let new = match new_key(state.roots().get(id), opts, kit) {
        Ok(new) => new,
        Err(stop) => return Err(stop),
    };
    let families = families_once_root(alloc, state, id, &new.props)?;
    let seed = SeedWords::new(new.seed);
    let wrapped = rewrapped(alloc, state, families.as_slice(), &seed, old, &new.key)?;
    Ok(ChangePlan {
        root: id,
        props: Some(new.props),
        key: Some(new.key),
        wrapped,
    })
}
