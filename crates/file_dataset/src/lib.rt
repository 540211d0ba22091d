//! The files of a dataset: those of a head are changed and read, those of a snapshot read.
//!
//! The files of a head are those of its directory, object 1 of its table; each has an object of its own. A
//! call tests the portable MAC of the table, then what it needs of the directory, and then what it needs of the
//! file's object, and names the first test that fails. One that changes a head then seals and puts its blocks, and
//! gives the head a new table with the log's entry.
#![tactic(auto)]

mod changes;
mod changing;
mod command;
mod edit;
mod entering;
mod file;
mod files_laws;
mod halt;
mod kind;
mod laws;
mod limits;
mod listing;
mod lists;
mod new_rows;
mod noting;
mod portable;
mod reading;
mod reply;
mod rows;
mod sealing;
mod steady_laws;
mod surface;
mod testing;
mod wrote;

pub use changes::{cut, make_file, remove_file, write_at};
pub use command::FileCmd;
pub use file::FileRow;
pub use files_laws::files_begin_empty_and_go_on;
pub use laws::{bounds_by_hand, ranges_name_the_first_place_that_fails, reads_give_the_files};
pub use lists::{FileBytes, FileRows};
pub use portable::fresh_portable;
pub use reply::FileReply;
pub use steady_laws::{calls_on_sample_families, steady_families_determine_calls};
pub use surface::{names, read_at, verify_head};
pub use wrote::Wrote;
