// The key that a dataset uses now.
ghost use Rattle.std.specs.Prelude.{◌≡◌, true};
ghost use Rattle.dataset_tree.specs.Refusal.{Gives};
ghost use Rattle.dataset_tree.specs.Tree.{row_of};
ghost use Rattle.key_machine.specs.Plain.{is_root};
ghost use Rattle.key_machine.specs.Sound.{Sound};
ghost use Rattle.key_ciphers.specs.Ciphers.{ciphers};
ghost use Rattle.key_machine.specs.Rekey.{fetched_old};
ghost use Rattle.encryption_roots.specs.ById.{at_id};
ghost use Rattle.change_key.specs.Keys.{root_key, tested_key, loaded_above};

use crate::records::first_wrong;
use dataset_tree::{Refusal, Stop};
use encryption_roots::{Fetched, owned_families, owner_of};
use key_ciphers::fetched_key;
use key_machine::KeyView;
use std::alloc::Global;

/// The key of a root: the loaded one, else the one that was fetched, which opens each record that
/// the root owns.
pub(crate) fn root_key<V: KeyView>(
    alloc: Global,
    state: &V,
    root: u32,
    fetched: &Fetched,
) -> Result<[u8; 32], Stop>
    requires sound { Sound ciphers (V.shows state.now) }
    requires root { is_root (V.shows state.now) root ≡ true }
    ensures { Gives result (root_key ciphers (V.shows state.now) root fetched.now) }
{
    match state.loaded(root) {
        Some(key) => Ok(key),
        None => fetched_root_key(alloc, state, root, fetched),
    }
}

/// The key of a root that was fetched, where it opens each record that the root owns.
fn fetched_root_key<V: KeyView>(
    alloc: Global,
    state: &V,
    root: u32,
    fetched: &Fetched,
) -> Result<[u8; 32], Stop>
    requires sound { Sound ciphers (V.shows state.now) }
    requires root { is_root (V.shows state.now) root ≡ true }
    ensures { Gives result (tested_key ciphers (V.shows state.now) root
        (fetched_old ciphers (at_id root (V.shows state.now).roots) fetched.now)) }
{
    let Some(props) = state.roots().get(root) else {
        unreachable!();
    };
    let key = match fetched_key(props.format, props.iters, props.salt, fetched) {
        Ok(key) => key,
        Err(why) => return Err(Stop::Refused(why)),
    };
    let families = owned_families(alloc, state.tree(), state.roots(), root)?;
    match first_wrong(state, families.as_slice(), &key) {
        None => Ok(key),
        Some(dataset) => Err(Stop::Refused(Refusal::WrongKey { dataset })),
    }
}

/// The key of the owner of a dataset's parent, where it is loaded.
pub(crate) fn loaded_above<V: KeyView>(state: &V, id: u32) -> Option<[u8; 32]>
    ensures { result ≡ loaded_above (V.shows state.now) id }
{
    let row = state.tree().row(id)?;
    let parent = state.tree().row(row.parent)?;
    let root = owner_of(state.tree(), state.roots(), parent.id)?;
    state.loaded(root)
}
