// Plans of `change-key -i`.
ghost use Rattle.std.specs.Prelude.{◌≡◌, Some, true, IfOk};
ghost use Rattle.std.specs.Result.{result_err};
ghost use Rattle.encryption_roots.specs.declared.command.KeyCmd.TheVariants as commands;
ghost use Rattle.key_machine.specs.Plain.{is_root};
ghost use Rattle.key_machine.specs.Plan.{IsPlanned};
ghost use Rattle.key_machine.specs.Rekey.{old_key};
ghost use Rattle.key_machine.specs.Sound.{Sound};
ghost use Rattle.key_machine.specs.Told.{seed_of};
ghost use Rattle.key_ciphers.specs.Ciphers.{ciphers};
ghost use Rattle.change_key.specs.Keys.{StopsAt, loaded_above};
ghost use Rattle.key_ciphers.specs.Calls.{stepped, AnswersDone};
ghost use Rattle.change_key.specs.Plans.{IsPlanOf, IsToldInherit, OpensPresent};

use crate::present::{loaded_above, root_key};
use crate::records::rewrapped;
use dataset_tree::{Refusal, SetName, Stop};
use encryption_roots::{LineKit, owned_families};
use key_ciphers::{inherit_refusal, seed_got};
use key_machine::{ChangePlan, KeyView};
use salt_rotation::SeedWords;
use std::alloc::Global;

/// Plans `change-key -i`: a root is one no longer and uses its parent's key, and the records of the
/// families that it owned stand under that key, with the same master keys. Its own key is fetched
/// only with `load_first` and where it isn't loaded, and serves this line alone.
///
/// # Errors
/// `NoSuch`, `NotEncrypted`, `IsClone`, `NotRoot`, `NoEncryptedParent`, and `KeyUnavailable`
/// without `load_first`. Then those of the present key where it is fetched: `KeyFileMissing` or
/// `KeyFault`, `BadMaterial`, and `WrongKey` of the first family, by id, whose record doesn't open.
/// Then `KeyUnavailable` where the key of the parent's owner isn't loaded, and `EntropyFault`. What
/// the kit wasn't asked for counts as a taking that failed.
pub fn plan_inherit<V: KeyView>(
    alloc: Global,
    state: &V,
    name: &SetName,
    load_first: bool,
    kit: &LineKit,
) -> Result<ChangePlan, Stop>
    requires sound { Sound ciphers (V.shows state.now) }
    ensures reply { AnswersDone result
        (stepped (V.shows state.now)
        (commands.Inherit name.now load_first) kit.now).reply }
    ensures plan { IfOk result (λ plan. IsPlanOf ciphers (V.shows state.now)
        (commands.Inherit name.now load_first) kit.now
        (old_key ciphers (V.shows state.now) plan.root load_first kit.now.old_key)
        (loaded_above (V.shows state.now) plan.root) plan) }
    ensures planned { IfOk result (IsPlanned ciphers (V.shows state.now)) }
{
    if let Some(why) = inherit_refusal(state, name, load_first) {
        return Err(Stop::Refused(why));
    }
    let Some(id) = state.tree().find(name) else {
        unreachable!();
    };
    let old = match root_key(alloc, state, id, &kit.old_key) {
        Ok(old) => old,
        Err(stop) => return Err(stop),
    };
    let Some(new) = loaded_above(state, id) else {
        return Err(Stop::Refused(Refusal::KeyUnavailable));
    };
    inherit_with(alloc, state, id, kit, &old, &new)
}

/// The plan of an inherit that the state and the keys don't refuse.
fn inherit_with<V: KeyView>(
    alloc: Global,
    state: &V,
    id: u32,
    kit: &LineKit,
    old: &[u8; 32],
    new: &[u8; 32],
) -> Result<ChangePlan, Stop>
    requires sound { Sound ciphers (V.shows state.now) }
    requires root { is_root (V.shows state.now) id ≡ true }
    requires opens { OpensPresent ciphers (V.shows state.now) id old.now }
    ensures plan { IfOk result
        (IsToldInherit ciphers (V.shows state.now) id kit.now old.now new.now) }
    ensures fault { StopsAt result (result_err (seed_of kit.now.seed)) }
{
    let seed = match seed_got(kit.seed) {
        Ok(seed) => SeedWords::new(seed),
        Err(why) => return Err(Stop::Refused(why)),
    };
    let families = owned_families(alloc, state.tree(), state.roots(), id)?;
    let wrapped = rewrapped(alloc, state, families.as_slice(), &seed, old, new)?;
    Ok(ChangePlan {
        root: id,
        props: None,
        key: None,
        wrapped,
    })
}
