// What `get` shows of a dataset.
ghost use Rattle.std.specs.Prelude.{◌≡◌, ◌++◌, IfOk, OnOk};
ghost use Rattle.std.specs.Option.{option_copied, option_map, option_and_then};
ghost use Rattle.dataset_tree.specs.Tree.{row_of};
ghost use Rattle.encryption_roots.specs.ById.{at_id};
ghost use Rattle.encryption_roots.specs.Owners.{family};
ghost use Rattle.key_machine.specs.Get.{property_text, crypt_text};
ghost use Rattle.key_machine.specs.Plain.{owner_of};

use crate::lookup::{owner_props, suite_of};
use crate::texts::{
    NO_VALUE, format_text, plain_text, push_number, push_place, status_text, suite_text,
};
use dataset_tree::{Kind, NoMemory};
use encryption_roots::{Prop, PropText, owner_of};
use key_ciphers::has_key;
use key_machine::KeyView;
use std::alloc::Global;

/// The value of a dataset's property, as `get` shows it. A plain dataset has `off` as its encryption and `-` as all
/// else; key format, location and iterations are those of the encryption root. `block` is the record size of the
/// dataset's family, which a view doesn't show.
///
/// # Errors
/// `NoMemory` where an allocation is refused.
pub fn property_text<V: KeyView>(
    alloc: Global,
    state: &V,
    id: u32,
    prop: Prop,
    block: Option<u32>,
) -> Result<PropText, NoMemory>
    requires { block ≡ option_map (λ stored. stored.block)
        (at_id (family (V.shows state.now).tree.rows id) (V.shows state.now).wrapped) }
    ensures { IfOk result (λ text. text ≡ property_text (V.shows state.now) id prop) }
{
    let mut text = Vec::new(alloc);
    match state.tree().row(id) {
        None => text.extend_from_slice(NO_VALUE)?,
        Some(row) => match row.kind {
            Kind::Plain => text.extend_from_slice(plain_text(prop))?,
            Kind::Crypt => push_crypt(&mut text, state, row.id, prop, block)?,
        },
    }
    Ok(PropText::new(text))
}

/// Adds the value of an encrypted dataset's property.
fn push_crypt<V: KeyView>(
    text: &mut Vec<u8>,
    state: &V,
    id: u32,
    prop: Prop,
    block: Option<u32>,
) -> Result<(), NoMemory>
    requires { block ≡ option_map (λ stored. stored.block)
        (at_id (family (V.shows state.now).tree.rows id) (V.shows state.now).wrapped) }
    ensures { OnOk result (text.new.items
        ≡ text.old.items ++ crypt_text (V.shows state.now) id (owner_of (V.shows state.now) id) prop) }
{
    match prop {
        Prop::KeyStatus => text.extend_from_slice(status_text(has_key(state, id))),
        Prop::Encryption => text.extend_from_slice(suite_text(suite_of(state, id))),
        Prop::EncryptionRoot => text.extend_from_slice(root_text(state, id)),
        Prop::KeyFormat => text.extend_from_slice(format_text(owner_props(state, id))),
        Prop::KeyLocation => push_place(text, owner_props(state, id)),
        Prop::Pbkdf2Iters => push_number(text, owner_props(state, id).map(|props| props.iters)),
        Prop::RecordSize => push_number(text, block),
    }
}

/// The name of a dataset's encryption root.
fn root_text<'a, V: KeyView>(state: &'a V, id: u32) -> &'a [u8]
    ensures { result.now ≡ crypt_text (V.shows state.now) id (owner_of (V.shows state.now) id) Prop.EncryptionRoot }
{
    match root_name(state, id) {
        None => NO_VALUE,
        Some(name) => name,
    }
}

fn root_name<'a, V: KeyView>(state: &'a V, id: u32) -> Option<&'a [u8]>
    ensures { option_copied result
        ≡ option_map (λ row. row.name)
        (option_and_then (λ root. row_of root (V.shows state.now).tree.rows) (owner_of (V.shows state.now) id)) }
{
    let root = owner_of(state.tree(), state.roots(), id)?;
    let row = state.tree().row(root)?;
    Some(row.name.as_bytes())
}
