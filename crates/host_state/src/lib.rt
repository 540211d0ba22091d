//! A host: its keystore with the slots of its mappings, and a family for each of its key records.
#![tactic(auto)]

mod dataset_laws;
mod families;
mod file_laws;
mod host;
mod lone_keys;

pub use dataset_laws::{families_have_their_datasets, mounted_datasets_are_served};
pub use file_laws::{
    files_stay_where_nothing_is_done, snapshots_and_clones_have_the_files_of_their_origin,
};
pub use host::Host;

#[cfg(test)]
mod plan_tests;
