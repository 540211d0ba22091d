//! Families: the heads, snapshots, salts, blocks and log of the datasets that share one master key.
//!
//! A family is a dataset with its snapshots and clones. Each dataset of it is a head, which has a
//! table of its objects. The log has an entry for each change of a head, and so tells on its own
//! what every head and snapshot holds.
#![tactic(auto)]

mod clones;
mod entry;
mod family;
mod head;
mod last;
mod laws;
mod listed;
mod same;
mod snap_laws;
mod table;

pub use entry::{HeadChange, LengthAt, LogEntry, ReadNote, RefAt, Spot};
pub use family::{Family, FamilyPart};
pub use head::{Head, MAX_SNAPSHOTS};
pub use laws::{
    a_sample_log_is_read_as_it_was_written, lengths_say_where_holes_begin, levels_are_computed,
    longer_shelves_stay_honest, rows_lead_as_their_trees, snapshots_and_clones_keep_what_they_had,
    the_newest_entry_counts,
};
pub use listed::Listed;
pub use snap_laws::{
    clones_begin_with_their_snapshot, removals_touch_one_spot, snapshots_stand_still,
    spots_are_read_as_before,
};
pub use table::{Table, TableRow};

#[cfg(test)]
mod tests;
