// Looking things up in a keystore.
ghost use Rattle.std.specs.Prelude.{◌≡◌};
ghost use Rattle.std.specs.Option.{option_copied};
ghost use Rattle.dataset_tree.specs.Tree.{row_named};
ghost use Rattle.key_machine.specs.Plain.{has_key, is_encrypted_row};
ghost use Rattle.key_machine.specs.Rekey.{is_clone, has_key_row};

use dataset_tree::{Kind, Row};
use encryption_roots::owner_of;
use key_machine::KeyView;

/// The dataset of this name.
pub fn row_named<'a>(rows: &'a [Row], name: &[u8]) -> Option<&'a Row>
    ensures { option_copied result ≡ row_named name.now rows.now }
{
    rows.iter().find(|row| row.name.as_bytes() == name)
}

/// Whether there is a dataset and it is encrypted.
pub fn is_encrypted(row: Option<&Row>) -> bool
    ensures { result ≡ is_encrypted_row (option_copied row.entry) }
{
    match row {
        None => false,
        Some(row) => row.kind == Kind::Crypt,
    }
}

pub(crate) fn is_clone(row: Option<&Row>) -> bool
    ensures { result ≡ is_clone (option_copied row.entry) }
{
    match row {
        None => false,
        Some(row) => row.origin != 0,
    }
}

/// Whether the key that the dataset uses is loaded.
pub fn has_key<V: KeyView>(state: &V, id: u32) -> bool
    ensures { result ≡ has_key (V.shows state.now) id }
{
    match owner_of(state.tree(), state.roots(), id) {
        None => false,
        Some(root) => state.loaded(root).is_some(),
    }
}

/// Whether there is a dataset and the key that it uses is loaded.
pub(crate) fn has_key_row<V: KeyView>(state: &V, row: Option<&Row>) -> bool
    ensures { result ≡ has_key_row (V.shows state.now) (option_copied row.entry) }
{
    match row {
        None => false,
        Some(row) => has_key(state, row.id),
    }
}
