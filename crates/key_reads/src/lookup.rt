// Looking datasets up.
ghost use Rattle.std.specs.Prelude.{◌≡◌, is_none};
ghost use Rattle.std.specs.Option.{option_copied};
ghost use Rattle.dataset_tree.specs.SetName.{parent_name};
ghost use Rattle.dataset_tree.specs.Tree.{row_named, parent_in};
ghost use Rattle.encryption_roots.specs.Owners.{family};
ghost use Rattle.key_machine.specs.Create.{is_below_encrypted, parent_row, suite_of, suite_of_family};
ghost use Rattle.key_machine.specs.Get.{owner_props};
ghost use Rattle.key_machine.specs.Plain.{owner_of};

use dataset_tree::{Row, SetName, Suite};
use encryption_roots::{Props, family_of, owner_of};
use key_ciphers::{is_encrypted, row_named};
use key_machine::KeyView;

/// The dataset of this name.
pub(crate) fn set_named<'a, V: KeyView>(state: &'a V, name: &[u8]) -> Option<&'a Row>
    ensures { option_copied result ≡ row_named name.now (V.shows state.now).tree.rows }
{
    row_named(state.tree().rows(), name)
}

/// The dataset below which a new one of this name would stand.
pub(crate) fn parent_row<'a, V: KeyView>(state: &'a V, name: &SetName) -> Option<&'a Row>
    ensures { option_copied result ≡ parent_row (V.shows state.now) name.now }
{
    set_named(state, name.parent()?)
}

/// Whether the name is that of a dataset below one that isn't there.
pub(crate) fn lacks_parent<V: KeyView>(state: &V, name: &SetName) -> bool
    ensures { result ≡ is_none (parent_in (V.shows state.now).tree.rows (parent_name name.now)) }
{
    match name.parent() {
        None => false,
        Some(parent) => set_named(state, parent).is_none(),
    }
}

/// Whether a new dataset of this name would stand below an encrypted one.
pub fn is_below_encrypted<V: KeyView>(state: &V, name: &SetName) -> bool
    ensures { result ≡ is_below_encrypted (V.shows state.now) name.now }
{
    is_encrypted(parent_row(state, name))
}

/// The properties of a dataset's encryption root.
pub fn owner_props<'a, V: KeyView>(state: &'a V, id: u32) -> Option<&'a Props>
    ensures { option_copied result ≡ owner_props (V.shows state.now) (owner_of (V.shows state.now) id) }
{
    state
        .roots()
        .get(owner_of(state.tree(), state.roots(), id)?)
}

/// The suite that a dataset's key record names.
pub fn suite_of<V: KeyView>(state: &V, id: u32) -> Option<Suite>
    ensures { result ≡ suite_of_family (V.shows state.now) (family (V.shows state.now).tree.rows id) }
{
    let stored = state.wrapped(family_of(state.tree(), id))?;
    suite_of_bytes(stored.as_slice())
}

/// The suite that a stored record names, by the byte behind its guid.
fn suite_of_bytes(stored: &[u8]) -> Option<Suite>
    ensures { result ≡ suite_of stored.now }
{
    Suite::from_number(*stored.get(8)?)
}
