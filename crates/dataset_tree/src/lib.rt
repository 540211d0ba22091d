//! Datasets by name: their names, the tree that they stand in, and the enums that every crate of the keystore shares.
#![tactic(auto)]

mod kinds;
mod name;
mod record;
mod refusal;
mod short_name;
mod snap_name;
mod tree;

pub use kinds::{Format, Kind, Suite};
pub use name::{SetName, parents_stand_before_the_last_slash};
pub use record::RecordBytes;
pub use refusal::{MaterialFault, NoMemory, Refusal, Stop};
pub use short_name::{FileName, SnapPart};
pub use snap_name::SnapName;
pub use tree::{Row, Tree, names_find_their_rows};

#[cfg(test)]
mod tests;
