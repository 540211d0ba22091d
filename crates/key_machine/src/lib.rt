//! The keystore as a pure machine: its plain state, when a state is sound, and what each command does to it.
//!
//! The definitions stand in `specs/`, and no code runs here. They know no cipher: how a record opens, how one
//! is made, how material gives a key, and the words of a seed are their arguments (`Ciphers`). The functions
//! below are laws of the definitions. `KeyView` and `ChangePlan` are what plans of new wrapping keys read and
//! give.
#![tactic(auto)]

mod change_laws;
mod change_values;
mod clone_laws;
mod clone_values;
mod create_laws;
mod destroy_laws;
mod key_laws;
mod laws;
mod mapping_laws;
mod mapping_values;
mod sound_laws;
mod used_laws;
mod values;
mod view;

pub use change_laws::{
    a_wrong_key_names_the_first_family, new_wrapping_keys_change_their_families_alone,
    new_wrapping_keys_keep_the_master_keys,
};
pub use change_values::{
    changes_are_refused_in_order, defaults_of_a_change, heirs_are_created,
    inherits_are_refused_in_order, places_of_new_keys, records_of_new_keys, what_new_keys_tell,
};
pub use clone_laws::{
    a_clone_adds_its_dataset_alone, a_clone_is_of_its_origins_family,
    a_mapping_keeps_its_key_over_clones,
};
pub use clone_values::{
    clones_are_refused_in_order, clones_of_datasets, destroys_are_refused_in_order,
    destroys_of_datasets,
};
pub use create_laws::a_new_root_has_its_key;
pub use destroy_laws::{
    a_destroy_drops_its_dataset_alone, a_destroy_is_busy_at_its_own_mapping,
    a_record_goes_with_its_familys_last_dataset, a_used_mapping_keeps_its_key_over_destroys,
};
pub use key_laws::{
    a_load_adds_its_key_alone, a_load_is_accepted_where_the_records_open,
    an_unload_drops_the_key_alone, an_unload_is_busy_at_the_first_mapping_in_use,
};
pub use laws::{
    a_fault_tells_nothing_else, a_refusal_changes_nothing, each_step_keeps_the_tree,
    fair_steps_keep_soundness, nothing_is_sound, what_a_kit_tells_is_fair,
};
pub use mapping_laws::{
    a_family_is_opened_where_a_dataset_is_mapped, a_fresh_mount_takes_the_lowest_free_slot,
    a_mapped_dataset_is_mounted_on_its_slot, a_mapping_keeps_its_key_over_mounts,
    a_reap_drops_an_idle_mapping_alone, a_reap_keeps_soundness, a_second_mount_is_as_the_first,
    an_unmount_keeps_the_mappings, counts_are_in_order,
};
pub use mapping_values::{
    counts_by_id, mounts_are_refused_in_order, reaps_of_mappings, slots_of_mounts,
    unloads_while_in_use,
};
pub use sound_laws::{
    a_loaded_key_opens_its_families, mounts_and_holds_are_bounded,
    records_are_of_the_owned_families,
};
pub use used_laws::a_used_mapping_keeps_its_master_key;
pub use values::{
    creates_are_refused_in_order, defaults_of_a_create, holds_of_a_rider, holds_stand_by_rider,
    loads_are_refused_in_order, master_keys_of_families, places_of_takings, users_of_keys,
    words_of_slots,
};
pub use view::{ChangePlan, KeyView};
