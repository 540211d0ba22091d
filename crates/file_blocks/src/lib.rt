//! Objects: bytes in sealed blocks on a shelf, under a tree of references.
//!
//! An object of some length and a record size has as many blocks as hold its bytes, each of the
//! record size. A block stores what was written of it, sealed; zeros lie behind that, and a block
//! of which nothing was written is a hole, and stores nothing.
#![tactic(auto)]

mod block;
mod change;
mod group;
mod laws;
mod new_texts;
mod object;
mod object_laws;
mod pieces;
mod put;
mod read;
mod taken;
mod text;
mod write;
mod write_error;
mod writes;

pub use change::Wrote;
pub use laws::{
    bytes_by_hand, changes_store_their_texts_alone, cuts_keep_what_stays,
    ranges_have_the_bytes_of_their_blocks, reads_stop_at_the_least_place_that_fails,
    writes_change_their_bytes_alone,
};
pub use object::Object;
pub use object_laws::{
    changes_end_within, changes_fit, changes_lead_to_their_references, cuts_fill_objects,
    new_texts_are_bytes, objects_by_hand, objects_have_the_bytes_of_their_references,
    writes_splice_objects,
};
pub use read::{read_range, test_blocks};
pub use write_error::WriteError;
pub use writes::{cut_to, write_range};

#[cfg(test)]
mod tests;
#[cfg(test)]
mod write_tests;
