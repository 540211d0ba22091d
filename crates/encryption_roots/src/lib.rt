//! Encryption roots: where their keys come from, who owns a dataset's key, and the keystore's commands.
#![tactic(auto)]

mod by_id;
mod command;
mod kit;
mod owned;
mod owners;
mod props;
mod roots;
mod texts;

pub use by_id::{at_id, put_at_id, remove_at_id};
pub use command::KeyCmd;
pub use kit::{Fetched, LineKit, SeedGot};
pub use owned::{
    families_by_owner, owned_families, roots_below, roots_by_parents, values_of_owned_families,
};
pub use owners::{families_have_one_owner, family_of, owner_of, owners_by_walking};
pub use props::{Location, Options, Prop, Props};
pub use roots::Roots;
pub use texts::{Material, PathText, PropText};

#[cfg(test)]
mod tests;
