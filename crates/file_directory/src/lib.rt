//! The directory of a head: which file has which name and which object.
//!
//! A directory is the content of object 1, a list of entries in rising order of the names.
#![tactic(auto)]

mod directory;
mod laws;
mod reading;

pub use directory::{Directory, DirectoryEntry};
pub use laws::{
    a_sample_entry_is_stored_as_it_was_worked_out, changed_directories_are_in_form,
    directories_are_read_as_they_are_written, names_find_what_was_added_and_not_what_was_removed,
    tables_bound_directories, the_first_wrong_entry_is_named,
};

#[cfg(test)]
mod tests;
