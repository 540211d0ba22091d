// From where keys are fetched.
ghost use Rattle.std.specs.Prelude.{◌≡◌, unwrap_or, IfOk};
ghost use Rattle.std.specs.Option.{option_copied};
ghost use Rattle.dataset_tree.specs.Tree.{row_named};
ghost use Rattle.key_machine.specs.Load.{own_place};
ghost use Rattle.key_machine.specs.Rekey.{old_place};
ghost use Rattle.encryption_roots.specs.declared.props.Location.{Location};

use crate::lookup::{owner_props, set_named};
use dataset_tree::{NoMemory, SetName};
use encryption_roots::Location;
use key_ciphers::has_key;
use key_machine::KeyView;

/// The place of a new or loaded key: the command's, else the dataset's own, else the prompt.
pub fn place_of_new_key<V: KeyView>(
    state: &V,
    name: &SetName,
    place: &Option<Location>,
) -> Result<Location, NoMemory>
    ensures { IfOk result (λ found. found
        ≡ unwrap_or place.now (unwrap_or (own_place (V.shows state.now) name.now) Location.Prompt)) }
{
    match place {
        Some(place) => place.copy(),
        None => place_or_prompt(own_place(state, name)),
    }
}

/// The location of the present owner's key, where that key is to be fetched.
pub fn old_place<'a, V: KeyView>(
    state: &'a V,
    name: &SetName,
    load_first: bool,
) -> Option<&'a Location>
    ensures { option_copied result
        ≡ old_place (V.shows state.now) load_first (row_named name.now (V.shows state.now).tree.rows) }
{
    let row = set_named(state, name.as_bytes())?;
    if !load_first || has_key(state, row.id) {
        return None;
    }
    let props = owner_props(state, row.id)?;
    Some(&props.place)
}

/// The dataset's own key location, where it is a root.
fn own_place<'a, V: KeyView>(state: &'a V, name: &SetName) -> Option<&'a Location>
    ensures { option_copied result ≡ own_place (V.shows state.now) name.now }
{
    let id = state.tree().find(name)?;
    let props = state.roots().get(id)?;
    Some(&props.place)
}

/// An equal location, where there is one.
pub fn place_or_none(place: Option<&Location>) -> Result<Option<Location>, NoMemory>
    ensures { IfOk result (λ copied. copied ≡ option_copied place.entry) }
{
    match place {
        None => Ok(None),
        Some(place) => Ok(Some(place.copy()?)),
    }
}

/// An equal location, or the prompt where there is none.
pub fn place_or_prompt(place: Option<&Location>) -> Result<Location, NoMemory>
    ensures { IfOk result (λ copied. copied ≡ unwrap_or (option_copied place.entry) Location.Prompt) }
{
    match place {
        None => Ok(Location::Prompt),
        Some(place) => place.copy(),
    }
}
