// The root that a command is about.
ghost use Rattle.std.specs.Prelude.{◌≡◌, [], is_some};
ghost use Rattle.dataset_tree.specs.Tree.{row_named, id_named};
ghost use Rattle.encryption_roots.specs.ById.{at_id};
ghost use Rattle.key_machine.specs.Load.{load_cases};
ghost use Rattle.key_machine.specs.Refusals.{first_of, root_cases};
ghost use Rattle.key_machine.specs.Unload.{unload_cases};
ghost use Rattle.key_reads.specs.Reads.{GivesRoot};

use crate::lookup::set_named;
use dataset_tree::{Kind, Refusal, SetName};
use key_machine::KeyView;

/// The root that a load is about.
///
/// # Errors
/// Why the state refuses the load: `NoSuch`, `NotEncrypted`, `NotRoot`, and `KeyLoaded` where the key isn't only to be
/// checked.
pub fn load_root<V: KeyView>(state: &V, name: &SetName, check_only: bool) -> Result<u32, Refusal>
    ensures { GivesRoot result (first_of (load_cases (V.shows state.now) name.now check_only))
        (id_named name.now (V.shows state.now).tree.rows) }
{
    let root = match root_named(state, name) {
        Ok(root) => root,
        Err(why) => return Err(why),
    };
    if state.loaded(root).is_some() && !check_only {
        return Err(Refusal::KeyLoaded);
    }
    Ok(root)
}

/// The root that an unload is about.
///
/// # Errors
/// Why the state refuses the unload: `NoSuch`, `NotEncrypted`, `NotRoot` and `KeyUnavailable`.
pub fn unload_root<V: KeyView>(state: &V, name: &SetName) -> Result<u32, Refusal>
    ensures { GivesRoot result (first_of (unload_cases (V.shows state.now) name.now))
        (id_named name.now (V.shows state.now).tree.rows) }
{
    let root = match root_named(state, name) {
        Ok(root) => root,
        Err(why) => return Err(why),
    };
    if state.loaded(root).is_none() {
        return Err(Refusal::KeyUnavailable);
    }
    Ok(root)
}

/// The root of this name, or why there is none.
fn root_named<V: KeyView>(state: &V, name: &SetName) -> Result<u32, Refusal>
    ensures { GivesRoot result
        (first_of (root_cases (V.shows state.now) (row_named name.now (V.shows state.now).tree.rows) []))
        (id_named name.now (V.shows state.now).tree.rows) }
{
    let Some(row) = set_named(state, name.as_bytes()) else {
        return Err(Refusal::NoSuch);
    };
    if row.kind != Kind::Crypt {
        return Err(Refusal::NotEncrypted);
    }
    if !state.roots().contains(row.id) {
        return Err(Refusal::NotRoot);
    }
    Ok(row.id)
}
