//! Snapshots, clones and what goes: the calls on a family that make and drop heads and snapshots.
//!
//! A snapshot has what its head had when it was made, and a clone is a head that begins with what a
//! snapshot has. No call needs a key: they move tables and add entries to the log, and no block.
#![tactic(auto)]

mod calls;
mod laws;
mod values;

pub use calls::{clone_head, drop_head, drop_snapshot, refuse_snapshot, snapshot};
pub use laws::{
    clones_begin_with_their_snapshot_and_hold_it, every_other_spot_keeps_its_files,
    heads_are_made_once, ids_above_all_are_new, snapshots_are_refused_in_order,
    snapshots_have_what_their_head_had,
};
pub use values::{acts_by_hand, clones_by_hand, drops_by_hand, reasons_by_hand, snapshots_by_hand};

#[cfg(test)]
mod tests;
